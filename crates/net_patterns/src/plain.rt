//! Patterns written as plain text.
ghost use Rattle.std.specs.Prelude.{◌≡◌, ◌≢◌, ◌+◌, ◌≤◌, ◌<◌, ◌^◌, ◌∷◌, ◌==◌, List, [], ℕ, length, MatchResult, OnOk, Result, Ok, Err, ◌&&◌, ◌||◌};
ghost use Rattle.net_patterns.specs.declared.fault.PatternFault.{PatternFault};
ghost use Rattle.net_patterns.specs.declared.fault.PatternFault.TheVariants.{Memory};
ghost use Rattle.net_patterns.specs.Cells.{IsAnswer, Run, pattern_of};
ghost use Rattle.net_patterns.specs.Rle.{run_of};
ghost use Rattle.net_patterns.specs.Steps.{comes};
ghost use Rattle.net_patterns.specs.Texts.{ends_line, is_comment, is_line_feed, plain_mark, plain_pieces, row_before};

use crate::board::{Board, Cell, Mark};
use crate::fault::PatternFault;
use std::alloc::Global;

/// The mark of a character.
fn plain_mark(character: u8) -> Option<Mark>
    ensures { result ≡ plain_mark character }
{
    match character {
        b'.' => Some(Mark::Dead),
        b'O' | b'*' => Some(Mark::Alive(1)),
        _ => None,
    }
}

/// Whether a comment begins here.
fn is_comment(text: &[u8]) -> bool
    ensures { result ≡ is_comment text.now }
{
    matches!(text.first(), Some(b'!'))
}

/// Whether a line ends here.
fn ends_line(text: &[u8]) -> bool
    ensures { result ≡ ends_line text.now }
{
    match text.first() {
        Some(byte) => *byte == b'\n',
        None => true,
    }
}

/// How far plain text is read.
#[derive(Drop)]
struct Reader {
    /// The line of the next byte.
    line: u64,
    /// Whether it is a comment.
    comment: bool,
    /// The cells so far.
    board: Board,
}

impl Reader {
    /// Takes a byte of a row.
    fn take_mark(&mut self, byte: u8) -> Result<(), PatternFault>
        requires column { self.old.board.column ≤ 65536 }
        requires row { self.old.board.row ≤ 65536 }
        ensures column { OnOk result (self.new.board.column ≤ 65536) }
        ensures row { OnOk result (self.new.board.row ≤ 65536) }
        ensures line { self.new.line ≡ self.old.line }
        ensures comment { self.new.comment ≡ self.old.comment }
        ensures comes { MatchResult result (λ _. (pieces : List (Result Run PatternFault)) → comes self.old.board.cells.items self.old.board.column self.old.board.row (run_of self.old.line 1 (plain_mark byte) pieces) ≡ comes self.new.board.cells.items self.new.board.column self.new.board.row pieces) (λ fault. fault ≢ Memory → (pieces : List (Result Run PatternFault)) → comes self.old.board.cells.items self.old.board.column self.old.board.row (run_of self.old.line 1 (plain_mark byte) pieces) ≡ Err fault) }
    {
        let Some(mark) = plain_mark(byte) else {
            return Err(PatternFault::BadCell { line: self.line });
        };
        self.board.put(self.line, 1, mark)
    }

    /// Takes the end of a line, after which this text stands.
    fn take_end(&mut self, behind: &[u8]) -> Result<(), PatternFault>
        requires column { self.old.board.column ≤ 65536 }
        requires row { self.old.board.row ≤ 65536 }
        requires room { self.old.line + 1 < 2 ^ 64 }
        ensures column { OnOk result (self.new.board.column ≤ 65536) }
        ensures row { OnOk result (self.new.board.row ≤ 65536) }
        ensures line { OnOk result (self.new.line ≡ self.old.line + 1) }
        ensures comment { OnOk result (self.new.comment ≡ is_comment behind.now) }
        ensures comes { MatchResult result (λ _. (pieces : List (Result Run PatternFault)) → comes self.old.board.cells.items self.old.board.column self.old.board.row (row_before self.old.comment self.old.line pieces) ≡ comes self.new.board.cells.items self.new.board.column self.new.board.row pieces) (λ fault. fault ≢ Memory → (pieces : List (Result Run PatternFault)) → comes self.old.board.cells.items self.old.board.column self.old.board.row (row_before self.old.comment self.old.line pieces) ≡ Err fault) }
    {
        if !self.comment {
            self.board.put(self.line, 1, Mark::RowEnd)?;
        }
        self.line += 1;
        self.comment = is_comment(behind);
        Ok(())
    }

    /// Takes a byte, after which this text stands.
    fn take(&mut self, byte: u8, behind: &[u8]) -> Result<(), PatternFault>
        requires column { self.old.board.column ≤ 65536 }
        requires row { self.old.board.row ≤ 65536 }
        requires room { self.old.line + 1 < 2 ^ 64 }
        ensures column { OnOk result (self.new.board.column ≤ 65536) }
        ensures row { OnOk result (self.new.board.row ≤ 65536) }
        ensures room { OnOk result (self.new.line ≤ self.old.line + 1) }
        ensures comes { MatchResult result (λ _. comes self.old.board.cells.items self.old.board.column self.old.board.row (plain_pieces self.old.line self.old.comment (byte ∷ behind.now)) ≡ comes self.new.board.cells.items self.new.board.column self.new.board.row (plain_pieces self.new.line self.new.comment behind.now)) (λ fault. fault ≢ Memory → comes self.old.board.cells.items self.old.board.column self.old.board.row (plain_pieces self.old.line self.old.comment (byte ∷ behind.now)) ≡ Err fault) }
    {
        if byte == b'\n' {
            return self.take_end(behind);
        }
        if self.comment || byte == b'\r' && ends_line(behind) {
            return Ok(());
        }
        self.take_mark(byte)
    }
}

/// The cells of plain text.
pub(crate) fn read_plain(alloc: Global, bytes: &[u8]) -> Result<Vec<Cell>, PatternFault>
    requires room { length bytes.now < 2 ^ 63 }
    ensures { IsAnswer (λ v. v.items) (pattern_of (plain_pieces 1 (is_comment bytes.now) bytes.now)) result }
{
    let mut reader = Reader {
        line: 1,
        comment: is_comment(bytes),
        board: Board::new(alloc),
    };
    for (place, byte) in bytes.iter().enumerate() {
        reader.take(*byte, &bytes[place + 1..])?;
    }
    Ok(reader.board.cells)
}
