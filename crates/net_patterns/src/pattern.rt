//! Patterns that are read.
ghost use Rattle.std.specs.Prelude.{◌≡◌, ◌≢◌, ◌<◌, ℕ, List, length, MatchResult, Result, Ok, Err};
ghost use Rattle.net_patterns.specs.declared.board.Cell.{Cell};
ghost use Rattle.net_patterns.specs.declared.fault.PatternFault.{PatternFault};
ghost use Rattle.net_patterns.specs.declared.fault.PatternFault.TheVariants.{Memory};
ghost use Rattle.net_patterns.specs.Cells.{IsAnswer};
ghost use Rattle.net_patterns.specs.RunSteps.{pattern_in};
ghost use Rattle.net_patterns.specs.Texts.{IsPattern};
ghost use Rattle.net_patterns.specs.declared.span.Span.{Span};
ghost use Rattle.net_patterns.specs.Written.{AreInOrder, Frame, IsFrame, IsLine, as_plain, cells_in, written_as_plain, written_as_runs, written_as_states, written_from};

use crate::board::Cell;
use crate::fault::PatternFault;
use crate::lines::first_told;
use crate::plain::read_plain;
use crate::runs::read_runs;
use std::alloc::Global;

/// The live cells of a text of either kind.
fn read_either(alloc: Global, bytes: &[u8]) -> Result<Vec<Cell>, PatternFault>
    ensures { IsAnswer (λ v. v.items) (pattern_in bytes.now) result }
{
    let Some(opening) = first_told(bytes) else {
        return Err(PatternFault::NoPattern);
    };
    if let Some(b'x') = opening.text.first() {
        read_runs(alloc, opening.line + 1, opening.rest)
    } else {
        read_plain(alloc, bytes)
    }
}

/// The live cells of a pattern, row by row from the top, and in each row from the left.
///
/// The first line that says something, that is, that has other characters than blanks, TAB and CR and does not begin
/// with `#`, says of which kind the text is. Where it begins with `x` it is the header of runs (RLE); the runs stand
/// after it, and what it says is not looked at. Else the whole text is plain.
///
/// Runs: a count and a tag, or a tag alone for one. `b` and `.` are dead cells, `o` and `A` live ones of state 1, `B` to
/// `X` those of states 2 to 24, `pA` to `pX` those of 25 to 48 and so on up to `yO` for 255; `$` ends rows, and `!` ends
/// the pattern, whatever stands after it. A count is from 1 to 999,999,999. Blanks, TAB, CR and LF may stand anywhere
/// but between a count and its tag, and within a tag.
///
/// Plain text: each line is a row of `.` for dead cells and `O` or `*` for live ones of state 1, an empty line an empty row; a
/// line that begins with `!` is a comment. A CR at a line's end is passed over.
///
/// The first fault of the text is returned: `NoPattern` where no line says something; `BadCell` at a character that has
/// no meaning there, or at one or the text's end where a letter from `p` to `y` is left alone; `BadCount` at a number that
/// is no count, or that no tag follows, but a blank, `!` or the text's end; `NoEnd` where runs end without `!`; `TooLarge` at a live cell whose column or row is 65,536 or more or that follows 65,536 others. `Memory`
/// comes only where memory runs out.
///
/// What is written is read back: live cells in reading order, 65,536 at most, that are written as runs of two states or of
/// many after a header, as rows of plain text after a comment, or, where there is a cell, as such rows alone are the cells that come out.
pub fn read_pattern(alloc: Global, bytes: &[u8]) -> Result<Vec<Cell>, PatternFault>
    ensures answer { MatchResult result (λ v. IsPattern bytes.now (Ok v.items)) (λ fault. fault ≢ Memory → IsPattern bytes.now (Err fault)) }
    ensures one { (answer : Result (List Cell) PatternFault) → IsPattern bytes.now answer → IsAnswer (λ v. v.items) answer result }
    ensures reads_runs { (frame : Frame) (spans : List Span) → IsFrame frame → AreInOrder 1 spans → bytes.now ≡ written_as_runs frame spans → IsAnswer (λ v. v.items) (Ok (cells_in spans)) result }
    ensures reads_states { (frame : Frame) (spans : List Span) → IsFrame frame → AreInOrder 255 spans → bytes.now ≡ written_as_states frame spans → IsAnswer (λ v. v.items) (Ok (cells_in spans)) result }
    ensures reads_rows { (spans : List Span) → AreInOrder 1 spans → 0 < length (cells_in spans) → bytes.now ≡ written_from as_plain 0 0 spans → IsAnswer (λ v. v.items) (Ok (cells_in spans)) result }
    ensures reads_plain { (comment : List ℕ) (spans : List Span) → IsLine 33 comment → AreInOrder 1 spans → bytes.now ≡ written_as_plain comment spans → IsAnswer (λ v. v.items) (Ok (cells_in spans)) result }
{
    read_either(alloc, bytes)
}
