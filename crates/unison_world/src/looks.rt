//! What a world shows of one of its nodes.
ghost use Rattle.std.specs.Prelude.{◌≡◌, ◌≤◌, ◌<◌, length};
ghost use Rattle.rounds_plan.specs.Configs.{most_rounds};
ghost use Rattle.unison_world.specs.Counting.{moves_of};
ghost use Rattle.unison_world.specs.View.{state_of};

use crate::World;
use rule_check::State;

/// How often a node has moved, the rounds before the plan's start included; 0 where there is no such node.
pub fn moves(world: &World, node: u32) -> u32
    ensures count { result ≡ moves_of world.now.counts node }
    ensures limit { result ≤ most_rounds }
{
    // For the proof alone: the calls tell what holds of every world.
    let _nodes = world.nodes();
    let _stop = world.stop();
    world.moves(node).unwrap_or(0)
}

/// The state that a node shows.
pub fn state_of(world: &World, node: u32) -> State
    requires node { node < length world.now.plan.network }
    ensures state { result ≡ state_of world.now node }
{
    world.state(node).unwrap_or(State { words: [0; 8] })
}
