//! Live cells, and where the next one stands.
ghost use Rattle.std.specs.Prelude.{◌≡◌, ◌≢◌, ◌≤◌, ◌<◌, ◌∷◌, List, [], Result, Ok, Err, MatchResult, OnOk, ℕ, suc, ◌+◌, min};
ghost use Rattle.net_patterns.specs.declared.fault.PatternFault.{PatternFault};
ghost use Rattle.net_patterns.specs.declared.fault.PatternFault.TheVariants.{Memory};
ghost use Rattle.net_patterns.specs.declared.board.Mark.TheVariants.{Alive};
ghost use Rattle.net_patterns.specs.Cells.{Run};
ghost use Rattle.net_patterns.specs.Steps.{comes};

use crate::fault::PatternFault;
use std::alloc::Global;

/// A live cell: its column and its row, counted from 0 at the top left, and its state from 1 to 255.
#[derive(Clone, Copy, Debug, PartialEq, Eq)]
pub struct Cell {
    pub column: u32,
    pub row: u32,
    pub state: u8,
}

/// What stands at a place of a pattern.
#[derive(Clone, Copy)]
pub(crate) enum Mark {
    /// A dead cell.
    Dead,
    /// A live cell of this state.
    Alive(u8),
    /// The end of a row.
    RowEnd,
}

/// Columns, rows and live cells are as many as this at most.
const LIMIT: u32 = 65536;

/// The live cells so far, and the column and row where the next mark stands, or `LIMIT` where it stands farther.
#[derive(Drop)]
pub(crate) struct Board {
    pub(crate) cells: Vec<Cell>,
    pub(crate) column: u32,
    pub(crate) row: u32,
}

/// A place so many steps farther, or `LIMIT` where it is more.
fn farther(place: u32, count: u32) -> u32
    requires { place ≤ 65536 }
    ensures { result ≡ min (place + count) 65536 }
{
    place.saturating_add(count).min(LIMIT)
}

impl Board {
    /// A board with no cell.
    pub(crate) fn new(alloc: Global) -> Board
        ensures cells { result.cells.items ≡ [] }
        ensures column { result.column ≡ 0 }
        ensures row { result.row ≡ 0 }
    {
        Board {
            cells: Vec::new(alloc),
            column: 0,
            row: 0,
        }
    }

    /// Puts one live cell of a state at the next place.
    fn put_cell(&mut self, line: u64, state: u8) -> Result<(), PatternFault>
        requires column { self.old.column ≤ 65536 }
        requires row { self.old.row ≤ 65536 }
        ensures column { OnOk result (self.new.column ≤ 65536) }
        ensures row { OnOk result (self.new.row ≡ self.old.row) }
        ensures comes { MatchResult result (λ _. (n : ℕ) (pieces : List (Result Run PatternFault)) → comes self.old.cells.items self.old.column self.old.row (Ok (record { line = line; count = suc n; mark = Alive state }) ∷ pieces) ≡ comes self.new.cells.items self.new.column self.new.row (Ok (record { line = line; count = n; mark = Alive state }) ∷ pieces)) (λ fault. fault ≢ Memory → (n : ℕ) (pieces : List (Result Run PatternFault)) → comes self.old.cells.items self.old.column self.old.row (Ok (record { line = line; count = suc n; mark = Alive state }) ∷ pieces) ≡ Err fault) }
    {
        if self.column >= LIMIT || self.row >= LIMIT || self.cells.len() >= LIMIT as usize {
            return Err(PatternFault::TooLarge { line });
        }
        self.cells.push(Cell {
            column: self.column,
            row: self.row,
            state,
        })?;
        self.column += 1;
        Ok(())
    }

    /// Puts so many live cells of a state from the next place on.
    fn put_cells(&mut self, line: u64, count: u32, state: u8) -> Result<(), PatternFault>
        requires column { self.old.column ≤ 65536 }
        requires row { self.old.row ≤ 65536 }
        ensures column { OnOk result (self.new.column ≤ 65536) }
        ensures row { OnOk result (self.new.row ≤ 65536) }
        ensures comes { MatchResult result (λ _. (pieces : List (Result Run PatternFault)) → comes self.old.cells.items self.old.column self.old.row (Ok (record { line = line; count = count; mark = Alive state }) ∷ pieces) ≡ comes self.new.cells.items self.new.column self.new.row pieces) (λ fault. fault ≢ Memory → (pieces : List (Result Run PatternFault)) → comes self.old.cells.items self.old.column self.old.row (Ok (record { line = line; count = count; mark = Alive state }) ∷ pieces) ≡ Err fault) }
    {
        for _ in 0..count {
            self.put_cell(line, state)?;
        }
        Ok(())
    }

    /// Puts so many copies of a mark from the next place on.
    pub(crate) fn put(&mut self, line: u64, count: u32, mark: Mark) -> Result<(), PatternFault>
        requires column { self.old.column ≤ 65536 }
        requires row { self.old.row ≤ 65536 }
        requires count { 0 < count }
        ensures column { OnOk result (self.new.column ≤ 65536) }
        ensures row { OnOk result (self.new.row ≤ 65536) }
        ensures comes { MatchResult result (λ _. (pieces : List (Result Run PatternFault)) → comes self.old.cells.items self.old.column self.old.row (Ok (record { line = line; count = count; mark = mark }) ∷ pieces) ≡ comes self.new.cells.items self.new.column self.new.row pieces) (λ fault. fault ≢ Memory → (pieces : List (Result Run PatternFault)) → comes self.old.cells.items self.old.column self.old.row (Ok (record { line = line; count = count; mark = mark }) ∷ pieces) ≡ Err fault) }
    {
        match mark {
            Mark::Dead => self.column = farther(self.column, count),
            Mark::Alive(state) => self.put_cells(line, count, state)?,
            Mark::RowEnd => {
                self.column = 0;
                self.row = farther(self.row, count);
            }
        }
        Ok(())
    }
}
