//! Where two configurations differ.
ghost use Rattle.std.specs.Prelude.{◌≡◌, ◌≤◌, ℕ, ◌<◌, length, MatchOption, slice_index};
ghost use Rattle.rounds_plan.specs.Compare.{Agree, IsFirstDifference};

use crate::config::Config;
use rule_check::State;

/// The first node, and in it the first field, whose values differ, with both values.
#[derive(Clone, Copy, Debug, PartialEq, Eq)]
pub struct Difference {
    /// The number of the node, from 0.
    pub node: u32,
    /// The place of the field in order of declaration, from 0.
    pub field: u32,
    /// The value in the first configuration.
    pub left: u32,
    /// The value in the second one.
    pub right: u32,
}

/// The first of the fields in which the states differ.
fn first_field(left: &State, right: &State, fields: u32) -> Option<u32>
    requires few { fields ≤ 8 }
    ensures first { MatchOption result
        ((k : ℕ) → k < fields → slice_index left.now.words k ≡ slice_index right.now.words k)
        (λ f. (f < fields)
        × (slice_index left.now.words f ≡ slice_index right.now.words f → ⊥)
        × ((k : ℕ) → k < f → slice_index left.now.words k ≡ slice_index right.now.words k)) }
{
    for field in 0..fields {
        if left.words[field as usize] != right.words[field as usize] {
            return Some(field);
        }
    }
    None
}

/// The first place at which the two configurations differ. Their rounds are not compared.
pub fn compare(left: &Config, right: &Config) -> Option<Difference>
    requires nodes { length left.now.states ≡ length right.now.states }
    requires fields { left.now.fields ≡ right.now.fields }
    ensures first { MatchOption result
        (Agree left.now.fields left.now.states right.now.states)
        (IsFirstDifference left.now.fields left.now.states right.now.states) }
{
    let fields = left.fields();
    // For the proof: what holds of every configuration, as that it has at most 8 fields.
    let _round = left.rounds();
    let ours = left.states();
    let theirs = right.states();
    for node in 0..left.nodes() {
        let one = &ours[node as usize];
        let other = &theirs[node as usize];
        if let Some(field) = first_field(one, other, fields) {
            return Some(Difference {
                node,
                field,
                left: one.words[field as usize],
                right: other.words[field as usize],
            });
        }
    }
    None
}
