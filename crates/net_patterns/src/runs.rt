//! Patterns written as runs.
ghost use Rattle.std.specs.Prelude.{◌≡◌, ◌≢◌, ◌+◌, ◌≤◌, ◌<◌, ◌^◌, ◌∷◌, List, [], ℕ, length, MatchOption, MatchResult, OnOk, IfOk, IfErr, is_some, not, None, Result, Ok, Err, true, false, if◌then◌else◌};
ghost use Rattle.std.specs.Char.{is_ascii_digit};
ghost use Rattle.net_patterns.specs.declared.fault.PatternFault.{PatternFault};
ghost use Rattle.net_patterns.specs.declared.fault.PatternFault.TheVariants.{BadCount, Memory};
ghost use Rattle.net_patterns.specs.Cells.{IsAnswer, Run, pattern_of};
ghost use Rattle.net_patterns.specs.Rle.{is_blank, run_of};
ghost use Rattle.net_patterns.specs.RunSteps.{count_of, end_fault, higher_of, letter_of, line_past, mark_of, pieces_from, plain_tag};
ghost use Rattle.net_patterns.specs.Steps.{comes, reads};

use crate::board::{Board, Cell, Mark};
use crate::fault::PatternFault;
use std::alloc::Global;

/// The greatest count of a run.
const MOST_COUNT: u64 = 999999999;

/// How far a text of runs is read.
#[derive(Drop)]
struct Reader {
    /// The line of the next byte.
    line: u64,
    /// The number that stands before it, if one does.
    number: Option<u64>,
    /// How many states a letter right before it adds; 0 where none does.
    higher: u8,
    /// The cells so far.
    board: Board,
}

/// The state of a capital letter, where nothing stands before it.
fn letter_of(tag: u8) -> Option<u8>
    ensures { result ≡ letter_of tag }
{
    match tag {
        b'A'..=b'X' => Some(tag - b'A' + 1),
        _ => None,
    }
}

/// How many states a letter adds to those of the capital letter after it.
fn higher_of(letter: u8) -> Option<u8>
    ensures { result ≡ higher_of letter }
{
    match letter {
        b'p'..=b'y' => Some(24 * (letter - b'o')),
        _ => None,
    }
}

/// The mark of a tag that is no capital letter.
fn plain_tag(tag: u8) -> Option<Mark>
    ensures { result ≡ plain_tag tag }
{
    match tag {
        b'b' | b'.' => Some(Mark::Dead),
        b'o' => Some(Mark::Alive(1)),
        b'$' => Some(Mark::RowEnd),
        _ => None,
    }
}

/// The mark that a tag stands for, after a letter that adds so many states.
fn mark_of(higher: u8, tag: u8) -> Option<Mark>
    ensures { result ≡ mark_of higher tag }
{
    match letter_of(tag) {
        Some(letter) => higher.checked_add(letter).map(Mark::Alive),
        None if higher == 0 => plain_tag(tag),
        None => None,
    }
}

/// Whether a byte is a blank, TAB, CR or LF.
pub(crate) fn is_blank(byte: u8) -> bool
    ensures { result ≡ is_blank byte }
{
    byte == b' ' || byte == b'\t' || byte == b'\r' || byte == b'\n'
}

/// How many copies a number stands for.
fn count_of(number: Option<u64>) -> Option<u32>
    ensures { result ≡ count_of number }
{
    match number {
        None => Some(1),
        Some(0) => None,
        Some(count) if count > MOST_COUNT => None,
        Some(count) => Some(count as u32),
    }
}

impl Reader {
    /// Takes a digit.
    fn take_digit(&mut self, digit: u8) -> Result<(), PatternFault>
        requires digit { is_ascii_digit digit ≡ true }
        requires number { MatchOption self.old.number (Unit {0}) (λ n. n ≤ 999999999) }
        ensures number { OnOk result (MatchOption self.new.number (Unit {0}) (λ n. n ≤ 999999999)) }
        ensures line { self.new.line ≡ self.old.line }
        ensures higher { self.new.higher ≡ self.old.higher }
        ensures board { self.new.board ≡ self.old.board }
        ensures reads { MatchResult result (λ _. (bs : List ℕ) → pieces_from self.old.line self.old.number 0 (digit ∷ bs) ≡ pieces_from self.new.line self.new.number 0 bs) (λ fault. (bs : List ℕ) → pieces_from self.old.line self.old.number 0 (digit ∷ bs) ≡ Err fault ∷ []) }
    {
        let number = 10 * self.number.unwrap_or(0) + u64::from(digit - b'0');
        if number > MOST_COUNT {
            return Err(PatternFault::BadCount { line: self.line });
        }
        self.number = Some(number);
        Ok(())
    }

    /// Takes a tag after a count.
    fn take_tag(&mut self, count: u32, tag: u8) -> Result<(), PatternFault>
        requires count { 0 < count }
        requires column { self.old.board.column ≤ 65536 }
        requires row { self.old.board.row ≤ 65536 }
        ensures column { OnOk result (self.new.board.column ≤ 65536) }
        ensures row { OnOk result (self.new.board.row ≤ 65536) }
        ensures line { self.new.line ≡ self.old.line }
        ensures number { self.new.number ≡ None }
        ensures higher { self.new.higher ≡ 0 }
        ensures comes { MatchResult result (λ _. (pieces : List (Result Run PatternFault)) → comes self.old.board.cells.items self.old.board.column self.old.board.row (run_of self.old.line count (mark_of self.old.higher tag) pieces) ≡ comes self.new.board.cells.items self.new.board.column self.new.board.row pieces) (λ fault. fault ≢ Memory → (pieces : List (Result Run PatternFault)) → comes self.old.board.cells.items self.old.board.column self.old.board.row (run_of self.old.line count (mark_of self.old.higher tag) pieces) ≡ Err fault) }
    {
        let mark = mark_of(self.higher, tag);
        self.number = None;
        self.higher = 0;
        let Some(mark) = mark else {
            return Err(PatternFault::BadCell { line: self.line });
        };
        self.board.put(self.line, count, mark)
    }

    /// Takes a blank or `!`, where no number stands before it. Whether it is the end.
    fn take_between(&mut self, byte: u8) -> Result<bool, PatternFault>
        requires room { self.old.line + 1 < 2 ^ 64 }
        ensures number { self.new.number ≡ self.old.number }
        ensures higher { self.new.higher ≡ self.old.higher }
        ensures board { self.new.board ≡ self.old.board }
        ensures line { OnOk result (self.new.line ≡ (if is_blank byte then line_past self.old.line byte else self.old.line)) }
        ensures ended { IfOk result (λ ended. ended ≡ not (is_blank byte)) }
        ensures alone { IfOk result (λ _. self.old.number ≡ None) }
        ensures counted { IfErr result (λ fault. (is_some self.old.number ≡ true) × (fault ≡ BadCount self.old.line)) }
    {
        if self.number.is_some() {
            return Err(PatternFault::BadCount { line: self.line });
        }
        if byte == b'\n' {
            self.line += 1;
        }
        Ok(!is_blank(byte))
    }

    /// Takes a byte that is no digit of a count. Whether it is the end.
    fn take_sign(&mut self, byte: u8) -> Result<bool, PatternFault>
        requires digit { self.old.higher ≡ 0 → is_ascii_digit byte ≡ false }
        requires number { MatchOption self.old.number (Unit {0}) (λ n. n ≤ 999999999) }
        requires column { self.old.board.column ≤ 65536 }
        requires row { self.old.board.row ≤ 65536 }
        requires room { self.old.line + 1 < 2 ^ 64 }
        ensures column { OnOk result (self.new.board.column ≤ 65536) }
        ensures row { OnOk result (self.new.board.row ≤ 65536) }
        ensures room { OnOk result (self.new.line ≤ self.old.line + 1) }
        ensures number { OnOk result (MatchOption self.new.number (Unit {0}) (λ n. n ≤ 999999999)) }
        ensures reads { MatchResult result (λ ended. (bs : List ℕ) → reads self.old.board.cells.items self.old.board.column self.old.board.row self.old.line self.old.number self.old.higher (byte ∷ bs) ≡ (if ended then Ok self.new.board.cells.items else reads self.new.board.cells.items self.new.board.column self.new.board.row self.new.line self.new.number self.new.higher bs)) (λ fault. fault ≢ Memory → (bs : List ℕ) → reads self.old.board.cells.items self.old.board.column self.old.board.row self.old.line self.old.number self.old.higher (byte ∷ bs) ≡ Err fault) }
    {
        let Some(count) = count_of(self.number) else {
            return Err(PatternFault::BadCount { line: self.line });
        };
        if self.higher > 0 {
            self.take_tag(count, byte)?;
            return Ok(false);
        }
        if is_blank(byte) || byte == b'!' {
            return self.take_between(byte);
        }
        if let Some(higher) = higher_of(byte) {
            self.higher = higher;
            return Ok(false);
        }
        self.take_tag(count, byte)?;
        Ok(false)
    }

    /// The fault of a text that ends here.
    fn end_fault(&self) -> PatternFault
        ensures { result ≡ end_fault self.now.line self.now.number self.now.higher }
    {
        if self.higher > 0 {
            return PatternFault::BadCell { line: self.line };
        }
        match self.number {
            Some(_) => PatternFault::BadCount { line: self.line },
            None => PatternFault::NoEnd,
        }
    }
}

/// The cells of a text of runs, whose first byte stands in this line.
pub(crate) fn read_runs(alloc: Global, line: u64, bytes: &[u8]) -> Result<Vec<Cell>, PatternFault>
    requires room { line + length bytes.now < 2 ^ 64 }
    ensures { IsAnswer (λ v. v.items) (pattern_of (pieces_from line None 0 bytes.now)) result }
{
    let mut reader = Reader {
        line,
        number: None,
        higher: 0,
        board: Board::new(alloc),
    };
    for byte in bytes {
        if reader.higher == 0 && byte.is_ascii_digit() {
            reader.take_digit(*byte)?;
        } else if reader.take_sign(*byte)? {
            return Ok(reader.board.cells);
        }
    }
    Err(reader.end_fault())
}
