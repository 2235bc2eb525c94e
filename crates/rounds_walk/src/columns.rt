//! The values of a field in many states, one after the other.
ghost use Rattle.std.specs.Prelude.{◌≡◌, ◌++◌, OnOk};
ghost use Rattle.rounds_walk.specs.Columns.{column};

use rule_check::State;
use std::alloc::AllocError;

/// Writes the value of a field in each of the states after other words. Fields are counted from 0; one that states do not
/// have is 0 in each of them. Where memory runs out some of the values may stand there.
pub fn push_column(words: &mut Vec<u32>, states: &[State], field: u32) -> Result<(), AllocError>
    ensures pushed { OnOk result (words.new.items ≡ words.old.items ++ column field states.now) }
{
    for state in states {
        words.push(state.value(field))?;
    }
    Ok(())
}
