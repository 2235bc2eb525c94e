//! How far counts are from each other.
ghost use Rattle.std.specs.Prelude.{◌≡◌};
ghost use Rattle.run_steps.specs.explain.Differences.{difference_after, differences, greatest_of, least_of};

use unison_world::{Answer, Step, WorldRef};

/// How far a node's count is from that of the neighbour that differs most.
fn difference_at(world: &WorldRef<'_>, node: u32) -> u32
    ensures { result ≡ greatest_of (differences world.now.plan.network world.now.counts node) }
{
    let own = world.moves(node);
    let mut greatest: u32 = 0;
    let rows = world.plan().rows();
    for neighbour in rows.neighbours_of(node) {
        greatest = greatest.max(own.abs_diff(world.moves(*neighbour)));
    }
    greatest
}

/// The difference of a step that has moved a node, in the world after it.
pub(crate) fn difference_after(world: &WorldRef<'_>, step: Step, answer: Answer) -> u32
    ensures { result ≡ difference_after world.now.plan.network world.now.counts step answer }
{
    let Answer::Moved = answer else {
        return 0;
    };
    match step {
        Step::Read { .. } => 0,
        Step::Write { node } => difference_at(world, node),
    }
}

/// The least of all counts.
pub(crate) fn least_count(world: &WorldRef<'_>) -> u32
    ensures { result ≡ least_of world.now.counts.moves }
{
    let mut least = world.moves(0);
    for node in 0..world.nodes() {
        least = least.min(world.moves(node));
    }
    least
}

/// The greatest of all counts.
pub(crate) fn greatest_count(world: &WorldRef<'_>) -> u32
    ensures { result ≡ greatest_of world.now.counts.moves }
{
    let mut greatest: u32 = 0;
    for node in 0..world.nodes() {
        greatest = greatest.max(world.moves(node));
    }
    greatest
}
