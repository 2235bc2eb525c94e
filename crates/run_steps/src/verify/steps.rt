//! Steps that are made, and the states that they show.
ghost use Rattle.std.specs.Prelude.{◌≡◌, ◌≢◌, ◌+◌, ◌≤◌, ◌<◌, ◌⊎◌, IsTrue, length, slice_index, IfOk, IfErr, OnOk, MatchOption};
ghost use Rattle.link_net.specs.Neighbours.{degree, neighbour};
ghost use Rattle.rounds_plan.specs.Configs.{most_rounds};
ghost use Rattle.rounds_plan.specs.Lockstep.{lockstep};
ghost use Rattle.unison_trace.specs.Histories.{is_change};
ghost use Rattle.unison_world.specs.Counting.{is_marked, moves_of};
ghost use Rattle.unison_world.specs.View.{answer_in, world_after};
ghost use Rattle.run_steps.specs.verify.Traces.{IsFirstUnread, IsRefusal, IsUnheld};
ghost use Rattle.run_steps.specs.verify.Shown.{Agrees, DiffersFirst, mover, shown_node, shown_round, shown_state};
ghost use Rattle.run_steps.specs.Previous.{HasPrevious};
ghost use Rattle.run_steps.specs.verify.Walks.{IsStepOf};

use crate::verify::entry::{Entry, Given};
use crate::verify::fault::VerifyFault;
use rule_check::State;
use unison_world::{Answer, Step, WorldRef};

/// The neighbour at a slot of a node.
fn neighbour(world: &WorldRef<'_>, node: u32, slot: u32) -> u32
    ensures { result ≡ neighbour world.now.plan.network node slot }
{
    world.plan().rows().neighbour_of(node, slot)
}

/// How many slots a node has.
fn degree(world: &WorldRef<'_>, node: u32) -> u32
    ensures { result ≡ degree world.now.plan.network node }
{
    world.plan().rows().degree_of(node)
}

/// Whether a node that is below the stop has read a slot since it last moved.
fn has_read(world: &WorldRef<'_>, node: u32, slot: u32) -> bool
    requires node { node < length world.now.plan.network }
    requires slot { slot < degree world.now.plan.network node }
    requires below { moves_of world.now.counts node ≢ world.now.stop }
    ensures { result ≡ is_marked world.now.counts node slot }
{
    world.ask(Step::Read { node, slot }) == Answer::Already
}

/// The first neighbour that a node has not read since it last moved.
fn first_unread(world: &WorldRef<'_>, node: u32) -> u32
    requires node { node < length world.now.plan.network }
    requires refused { answer_in world.now (Step.Write node) ≡ Answer.NotReady }
    ensures { IsFirstUnread world.now.plan.network world.now.counts node result }
{
    for slot in 0..degree(world, node) {
        if !has_read(world, node, slot) {
            return neighbour(world, node, slot);
        }
    }
    0
}

/// Why a read is refused.
fn read_refused(
    world: &WorldRef<'_>,
    line: u64,
    node: u32,
    slot: u32,
    answer: Answer,
) -> VerifyFault
    requires stop { world.now.stop ≡ most_rounds }
    requires step { IsStepOf world.now.plan.network (Step.Read node slot) }
    requires answer { answer ≡ answer_in world.now (Step.Read node slot) }
    requires refused { answer ≢ Answer.Taken }
    ensures { IsRefusal world.now.plan.network world.now.counts line (Step.Read node slot) result }
{
    let _nodes = world.nodes();
    let neighbour = neighbour(world, node, slot);
    match answer {
        Answer::Already => VerifyFault::Already {
            line,
            node,
            neighbour,
        },
        Answer::Behind => VerifyFault::Behind {
            line,
            node,
            neighbour,
            own: world.moves(node),
            other: world.moves(neighbour),
        },
        _ => VerifyFault::Stopped { line, node },
    }
}

/// Why a move is refused.
fn move_refused(world: &WorldRef<'_>, line: u64, node: u32, answer: Answer) -> VerifyFault
    requires stop { world.now.stop ≡ most_rounds }
    requires node { node < length world.now.plan.network }
    requires answer { answer ≡ answer_in world.now (Step.Write node) }
    requires refused { answer ≢ Answer.Moved }
    ensures { IsRefusal world.now.plan.network world.now.counts line (Step.Write node) result }
{
    match answer {
        Answer::NotReady => VerifyFault::NotReady {
            line,
            node,
            neighbour: first_unread(world, node),
        },
        _ => VerifyFault::Stopped { line, node },
    }
}

/// The state that a read takes, where it is taken: the neighbour's own, or, where it has moved once more than the node,
/// the one before.
fn state_read(world: &WorldRef<'_>, before: &[State], node: u32, slot: u32) -> State
    requires step { IsStepOf world.now.plan.network (Step.Read node slot) }
    requires before { HasPrevious world.now before.now }
    requires taken { answer_in world.now (Step.Read node slot) ≡ Answer.Taken }
    ensures { result ≡ shown_state world.now.plan world.now.counts (Step.Read node slot) }
{
    let _nodes = world.nodes();
    let neighbour = neighbour(world, node, slot);
    if world.moves(neighbour) == world.moves(node) {
        world.state(neighbour)
    } else {
        before[neighbour as usize]
    }
}

/// A read, with the state that it takes.
fn read(
    world: &mut WorldRef<'_>,
    before: &[State],
    line: u64,
    node: u32,
    slot: u32,
) -> Result<State, VerifyFault>
    requires stop { world.old.stop ≡ most_rounds }
    requires step { IsStepOf world.old.plan.network (Step.Read node slot) }
    requires before { HasPrevious world.old before.now }
    ensures taken { OnOk result (answer_in world.old (Step.Read node slot) ≡ Answer.Taken) }
    ensures shown { IfOk result (λ state. state ≡ shown_state world.old.plan world.old.counts (Step.Read node slot)) }
    ensures after { OnOk result (world.new ≡ world_after world.old (Step.Read node slot)) }
    ensures before { OnOk result (HasPrevious world.new before.now) }
    ensures refused { IfErr result (IsRefusal world.old.plan.network world.old.counts line (Step.Read node slot)) }
{
    let step = Step::Read { node, slot };
    let answer = world.ask(step);
    if answer != Answer::Taken {
        return Err(read_refused(world, line, node, slot, answer));
    }
    let state = state_read(world, before, node, slot);
    world.step(step);
    Ok(state)
}

/// A move, with the state to which it leads.
fn move_on(
    world: &mut WorldRef<'_>,
    before: &mut [State],
    line: u64,
    node: u32,
) -> Result<State, VerifyFault>
    requires stop { world.old.stop ≡ most_rounds }
    requires node { node < length world.old.plan.network }
    requires before { HasPrevious world.old before.old }
    ensures moved { OnOk result (answer_in world.old (Step.Write node) ≡ Answer.Moved) }
    ensures shown { IfOk result (λ state. state ≡ shown_state world.old.plan world.old.counts (Step.Write node)) }
    ensures after { OnOk result (world.new ≡ world_after world.old (Step.Write node)) }
    ensures before { OnOk result (HasPrevious world.new before.new) }
    ensures refused { IfErr result (IsRefusal world.old.plan.network world.old.counts line (Step.Write node)) }
{
    // For the proof alone: the call tells that there is a count for each node.
    let _nodes = world.nodes();
    let step = Step::Write { node };
    let answer = world.ask(step);
    if answer != Answer::Moved {
        return Err(move_refused(world, line, node, answer));
    }
    before[node as usize] = world.state(node);
    world.step(step);
    Ok(world.state(node))
}

/// A step, with the state that it shows.
fn make(
    world: &mut WorldRef<'_>,
    before: &mut [State],
    line: u64,
    step: Step,
) -> Result<State, VerifyFault>
    requires stop { world.old.stop ≡ most_rounds }
    requires step { IsStepOf world.old.plan.network step }
    requires before { HasPrevious world.old before.old }
    ensures changes { OnOk result (IsTrue (is_change (answer_in world.old step))) }
    ensures shown { IfOk result (λ state. state ≡ shown_state world.old.plan world.old.counts step) }
    ensures after { OnOk result (world.new ≡ world_after world.old step) }
    ensures before { OnOk result (HasPrevious world.new before.new) }
    ensures refused { IfErr result (IsRefusal world.old.plan.network world.old.counts line step) }
{
    match step {
        Step::Read { node, slot } => read(world, before, line, node, slot),
        Step::Write { node } => move_on(world, before, line, node),
    }
}

/// The first field whose given value is not the state's, and that value.
fn first_difference(given: &Given, state: &State) -> Option<(u32, u32)>
    ensures { MatchOption result (Agrees given.now state.now) (λ p. DiffersFirst given.now state.now p.0 p.1) }
{
    for field in 0..8 {
        if let Some(value) = given.values[field as usize] {
            if value != state.words[field as usize] {
                return Some((field, value));
            }
        }
    }
    None
}

/// The node that makes a step.
fn mover(step: Step) -> u32
    ensures { result ≡ mover step }
{
    match step {
        Step::Read { node, .. } | Step::Write { node } => node,
    }
}

/// Whose state a step shows.
fn shown_node(world: &WorldRef<'_>, step: Step) -> u32
    requires step { IsStepOf world.now.plan.network step }
    ensures node { result ≡ shown_node world.now.plan.network step }
    ensures within { result < length world.now.plan.network }
{
    // For the proof alone: the call tells that neighbours are nodes.
    let _nodes = world.nodes();
    match step {
        Step::Read { node, slot } => neighbour(world, node, slot),
        Step::Write { node } => node,
    }
}

/// The round after which a step shows a state.
fn shown_round(world: &WorldRef<'_>, step: Step) -> u32
    requires step { IsStepOf world.now.plan.network step }
    ensures { result ≡ shown_round world.now.counts step }
{
    // For the proof alone: the calls tell that no count is above the last round.
    let _nodes = world.nodes();
    let _stop = world.stop();
    match step {
        Step::Read { node, .. } => world.moves(node),
        Step::Write { node } => world.moves(node) + 1,
    }
}

/// Makes the step of an entry, where it holds.
pub(crate) fn hold(
    world: &mut WorldRef<'_>,
    before: &mut [State],
    line: u64,
    entry: &Entry,
) -> Result<(), VerifyFault>
    requires stop { world.old.stop ≡ most_rounds }
    requires step { IsStepOf world.old.plan.network entry.now.step }
    requires before { HasPrevious world.old before.old }
    ensures changes { OnOk result (IsTrue (is_change (answer_in world.old entry.now.step))) }
    ensures agrees { OnOk result (Agrees entry.now.given (shown_state world.old.plan world.old.counts entry.now.step)) }
    ensures after { OnOk result (world.new ≡ world_after world.old entry.now.step) }
    ensures before { OnOk result (HasPrevious world.new before.new) }
    ensures refused { IfErr result (IsUnheld world.old.plan world.old.counts line entry.now) }
{
    let node = shown_node(world, entry.step);
    let count = world.moves(node);
    let round = shown_round(world, entry.step);
    let state = make(world, before, line, entry.step)?;
    let Some((field, given)) = first_difference(&entry.given, &state) else {
        return Ok(());
    };
    Err(VerifyFault::Differs {
        line,
        mover: mover(entry.step),
        node,
        count,
        round,
        field,
        given,
        due: state.words[field as usize],
    })
}
