//! The states that nodes had before their last move.
ghost use Rattle.std.specs.Prelude.{◌≡◌, IfOk};
ghost use Rattle.unison_world.specs.View.{opened};
ghost use Rattle.run_steps.specs.Previous.{HasPrevious};

use rule_check::State;
use std::alloc::{AllocError, Global};
use unison_world::WorldRef;

/// The states that all nodes had before their last move, where none has moved: the initial ones.
pub(crate) fn opening_states(alloc: Global, world: &WorldRef<'_>) -> Result<Vec<State>, AllocError>
    requires opened { world.now ≡ opened world.now.plan world.now.stop }
    ensures previous { IfOk result (λ v. HasPrevious world.now v.items) }
{
    // For the proof alone: the call tells what holds of every plan.
    let _nodes = world.nodes();
    let states = world.plan().openings().to_vec(alloc)?;
    Ok(states)
}
