//! Differences from the lockstep rounds.
ghost use Rattle.std.specs.Prelude.{◌≡◌};
ghost use Rattle.run_naive.specs.Differences.{is_same};
ghost use Rattle.run_naive.specs.Keeping.{earlier, with_found, with_move};

use rule_check::State;

/// A node that has moved and does not have its lockstep state then.
#[derive(Clone, Copy)]
pub(crate) struct Difference {
    /// The number of the step, counted from 1.
    pub(crate) step: usize,
    pub(crate) node: u32,
    /// How often it has moved then.
    pub(crate) moves: u32,
    pub(crate) state: State,
    pub(crate) lockstep: State,
}

/// Whether two states have equal words.
pub(crate) fn is_same(left: &State, right: &State) -> bool
    ensures exact { result ≡ is_same left.now right.now }
{
    left.words == right.words
}

/// The one of the earlier step.
fn earlier(first: Option<Difference>, found: Difference) -> Difference
    ensures exact { result ≡ earlier first found }
{
    match first {
        None => found,
        Some(known) => {
            if known.step <= found.step {
                known
            } else {
                found
            }
        }
    }
}

/// The first difference, where one is known and there is a move more.
fn with_move(first: Option<Difference>, found: Difference) -> Option<Difference>
    ensures exact { result ≡ with_move first found }
{
    if is_same(&found.state, &found.lockstep) {
        first
    } else {
        Some(earlier(first, found))
    }
}

/// The same, where there may be a move more.
pub(crate) fn with_found(first: Option<Difference>, found: Option<Difference>) -> Option<Difference>
    ensures exact { result ≡ with_found first found }
{
    match found {
        None => first,
        Some(found) => with_move(first, found),
    }
}
