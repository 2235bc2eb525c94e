//! Which nodes are shown.
ghost use Rattle.std.specs.Prelude.{◌≡◌};
ghost use Rattle.run_watch.specs.Watching.{differs, is_changed, is_shown};

use crate::show::Show;
use rule_check::State;

/// Whether one of the fields has another value.
fn is_changed(fields: &[u32], old: &State, new: &State) -> bool
    ensures { result ≡ is_changed fields.now old.now new.now }
{
    for place in fields {
        if old.value(*place) != new.value(*place) {
            return true;
        }
    }
    false
}

/// Whether a node is shown that had the old state in the round before, if there was one.
fn differs(show: &Show<'_>, old: Option<State>, new: &State) -> bool
    ensures { result ≡ differs show.now old new.now }
{
    match old {
        Some(old) => !show.changes || is_changed(show.fields, &old, new),
        None => true,
    }
}

/// Whether a node with this state is shown, the states of the round that was shown before being these, or none.
pub(crate) fn is_shown(show: &Show<'_>, before: &[State], node: u32, state: &State) -> bool
    ensures { result ≡ is_shown show.now before.now node state.now }
{
    differs(show, before.get(node as usize).copied(), state)
}
