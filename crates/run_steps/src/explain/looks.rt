//! What a world shows of its nodes.
ghost use Rattle.std.specs.Prelude.{◌≡◌, ◌≤◌};
ghost use Rattle.unison_world.specs.Counting.{marks_of};
ghost use Rattle.unison_world.specs.Progress.{marks_in};
ghost use Rattle.run_steps.specs.explain.Reads.{one_if_read};
ghost use Rattle.run_steps.specs.explain.Sentences.{first_unread};

use link_net::Network;
use unison_world::{Answer, Step, WorldRef};

/// One for a slot that was read.
fn one_if_read(answer: Answer) -> u32
    ensures count { result ≡ one_if_read answer }
    ensures most { result ≤ 1 }
{
    match answer {
        Answer::Already => 1,
        _ => 0,
    }
}

/// How many slots of a node were read since it last moved.
pub(crate) fn slots_read(world: &WorldRef<'_>, node: u32) -> u32
    ensures { result ≡ marks_in (marks_of world.now.counts node) }
{
    // For the proof alone: the call tells what holds of every world.
    let _nodes = world.nodes();
    let mut read = 0;
    for slot in 0..world.plan().rows().degree_of(node) {
        read += one_if_read(world.ask(Step::Read { node, slot }));
    }
    read
}

/// The first slot of a node that was not read since it last moved, or how many slots it has where each was.
pub(crate) fn first_unread(world: &WorldRef<'_>, node: u32) -> u32
    ensures { result ≡ first_unread world.now.counts node }
{
    // For the proof alone: the call tells what holds of every world.
    let _nodes = world.nodes();
    let slots = world.plan().rows().degree_of(node);
    for slot in 0..slots {
        if one_if_read(world.ask(Step::Read { node, slot })) == 0 {
            return slot;
        }
    }
    slots
}
