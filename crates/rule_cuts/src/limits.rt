//! What bounds the nodes of a run.

ghost use Rattle.std.specs.Prelude.{◌≡◌, ◌<◌, ℕ, IfSome, List, length, slice_index, slice_index_or};
ghost use Rattle.rule_check.specs.declared.state.State.{State};
ghost use Rattle.rule_check.specs.Value.{names_of, word};
ghost use Rattle.rule_ranges.specs.declared.range.Range.{Range};
ghost use Rattle.rule_ranges.specs.Ranges.{IsWithin};

use rule_check::Program;
use rule_ranges::{Bounds, Range, anything};

/// What bounds the nodes of a run of a program: their numbers, and where the values of its fields lie.
#[derive(Clone, Copy)]
pub struct Limits<'a> {
    pub program: &'a Program,
    pub bounds: Bounds,
    /// For each field, in order of declaration.
    pub fields: [Range; 8],
}

/// Where a word of a state lies, and anywhere where states have no such word.
fn word_range(fields: &[Range; 8], place: u32) -> Range
    ensures within { (words : List ℕ) → ((k : ℕ) (d : Range) → k < 8 → IsWithin (slice_index_or fields.now k d) (slice_index words k)) → IsWithin result (slice_index words place) }
{
    match fields.get(place as usize) {
        Some(range) => *range,
        None => anything(),
    }
}

/// Where the value of the field of this name lies, and anywhere where the program has none.
pub(crate) fn field_range(limits: &Limits<'_>, name: &str) -> Range
    ensures within { (state : State) → ((k : ℕ) (d : Range) → k < 8 → IsWithin (slice_index_or limits.now.fields k d) (slice_index state.words k))
        → IsWithin result (word (names_of limits.now.program.now) state name.now) }
{
    match limits.program.field_index(name) {
        Some(place) => word_range(&limits.fields, place),
        None => anything(),
    }
}
