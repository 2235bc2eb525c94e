//! What registers hold, and what a node sees of a neighbour's.
ghost use Rattle.std.specs.Prelude.{◌≡◌, ◌<◌, length};
ghost use Rattle.unison_world.specs.View.{answer_in, world_after};
ghost use Rattle.run_steps.specs.Previous.{HasPrevious};
ghost use Rattle.run_steps.specs.explain.Registers.{look_of};

use phase_register::Look;
use rule_check::State;
use unison_world::{Answer, Step, WorldRef};

/// What a node sees of the register of another.
pub(crate) fn look(world: &WorldRef<'_>, previous: &[State], node: u32, neighbour: u32) -> Look
    requires neighbour { neighbour < length world.now.plan.network }
    requires previous { HasPrevious world.now previous.now }
    ensures look { result ≡ look_of world.now.plan world.now.counts node neighbour }
{
    let own = world.moves(node);
    let count = world.moves(neighbour);
    if count == own {
        Look::Level(world.state(neighbour))
    } else if own < count {
        Look::Ahead(previous[neighbour as usize])
    } else {
        Look::Behind
    }
}

/// A move, behind which the node's state before it is the previous one.
fn move_on(world: &mut WorldRef<'_>, previous: &mut [State], node: u32) -> Answer
    requires moves { answer_in world.old (Step.Write node) ≡ Answer.Moved }
    requires previous { HasPrevious world.old previous.old }
    ensures answer { result ≡ Answer.Moved }
    ensures after { world.new ≡ world_after world.old (Step.Write node) }
    ensures previous { HasPrevious world.new previous.new }
{
    // For the proof alone: the call tells that there is a count for each node.
    let _nodes = world.nodes();
    previous[node as usize] = world.state(node);
    world.step(Step::Write { node })
}

/// A step, behind which each node's previous state is known.
pub(crate) fn make(world: &mut WorldRef<'_>, previous: &mut [State], step: Step) -> Answer
    requires previous { HasPrevious world.old previous.old }
    ensures answer { result ≡ answer_in world.old step }
    ensures after { world.new ≡ world_after world.old step }
    ensures previous { HasPrevious world.new previous.new }
{
    let Step::Write { node } = step else {
        return world.step(step);
    };
    if world.ask(step) != Answer::Moved {
        return world.step(step);
    }
    move_on(world, previous, node)
}
