//! In which ranges the words of states lie.

ghost use Rattle.std.specs.Prelude.{◌≡◌, ◌<◌, ◌≤◌, ℕ, length, slice_index, slice_index_or};
ghost use Rattle.rule_check.specs.declared.state.State.{State};
ghost use Rattle.rule_ranges.specs.declared.range.Range.{Range};
ghost use Rattle.rule_ranges.specs.Ranges.{IsWithin};
ghost use Rattle.rule_ranges.specs.States.{AreWider};

use crate::range::{Range, anything, exactly, joined};
use rule_check::State;

/// Widens ranges so that the words of a state lie there.
fn take_state(ranges: &mut [Range; 8], state: &State)
    ensures wider { AreWider ranges.old ranges.new }
    ensures within { (k : ℕ) (d : Range) → k < 8 → IsWithin (slice_index_or ranges.new k d) (slice_index state.now.words k) }
    ensures long { length state.now.words ≡ 8 }
{
    for (k, word) in state.words.iter().enumerate() {
        ranges[k] = joined(ranges[k], exactly(*word));
    }
}

/// The words of a state alone.
fn only_state(state: &State) -> [Range; 8] {
    let mut ranges = [anything(); 8];
    for (k, word) in state.words.iter().enumerate() {
        ranges[k] = exactly(*word);
    }
    ranges
}

/// The narrowest ranges in which the words of some states lie, for each place of a word that of its values; any value where there are no
/// states.
pub fn ranges_of_states(states: &[State]) -> [Range; 8]
    ensures within { (i k : ℕ) (d : State) (e : Range) → i < length states.now → k < 8 → IsWithin (slice_index_or result k e) (slice_index (slice_index_or states.now i d).words k) }
    ensures long { (i : ℕ) (d : State) → i < length states.now → length (slice_index_or states.now i d).words ≡ 8 }
{
    let mut ranges = match states.first() {
        Some(state) => only_state(state),
        None => [anything(); 8],
    };
    for state in states {
        take_state(&mut ranges, state);
    }
    ranges
}
