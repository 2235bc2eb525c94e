//! Single reads and writes.
ghost use Rattle.std.specs.Prelude.{◌≡◌, ℕ, ◌≤◌};
ghost use Rattle.rounds_plan.specs.Configs.{most_rounds};
ghost use Rattle.unison_world.specs.Answers.{answer_from};
ghost use Rattle.unison_world.specs.Counting.{answer_of, after, InStep};
ghost use Rattle.unison_world.specs.Pictures.{IsDrawn, counts_of};
ghost use Rattle.unison_world.specs.declared.step.Step.TheVariants.{Read, Write};

use crate::node::Node;
use crate::step::{Answer, Step};
use phase_register::Look;
use rounds_plan::SimplePlan;
use unison_node::Offer;

/// The answer of a world, by that of a desk.
fn answer_from(offer: Offer) -> Answer
    ensures { result ≡ answer_from offer }
{
    match offer {
        Offer::Taken => Answer::Taken,
        Offer::Behind => Answer::Behind,
        Offer::Already => Answer::Already,
        Offer::NoSlot => Answer::NoSlot,
    }
}

/// A node reads the register at one of its slots.
pub fn read(plan: &SimplePlan<'_>, stop: u32, nodes: &mut Vec<Node>, node: u32, slot: u32) -> Answer
    requires drawn { IsDrawn plan.now nodes.old.items }
    requires in_step { InStep plan.now.network stop (counts_of nodes.old.items) }
    ensures answer { result ≡ answer_of plan.now.network stop (counts_of nodes.old.items) (Read node slot) }
    ensures counts { counts_of nodes.new.items ≡ after plan.now.network stop (counts_of nodes.old.items) (Read node slot) }
    ensures drawn { IsDrawn plan.now nodes.new.items }
{
    let reader = node as usize;
    if reader >= nodes.len() {
        return Answer::NoNode;
    }
    let Some((neighbour, weight)) = plan.link(node, slot) else {
        return Answer::NoSlot;
    };
    let this = &nodes[reader];
    if this.moves == stop {
        return Answer::Stopped;
    }
    let seat = this.seat(node);
    let register = nodes[neighbour as usize].register;
    let program = plan.program();
    let offer = nodes[reader]
        .desk
        .offer(program, seat, slot, neighbour, weight, &register);
    answer_from(offer)
}

/// The answer to a read, with nothing changed.
pub fn ask_read(plan: &SimplePlan<'_>, stop: u32, nodes: &Vec<Node>, node: u32, slot: u32) -> Answer
    requires drawn { IsDrawn plan.now nodes.now.items }
    requires in_step { InStep plan.now.network stop (counts_of nodes.now.items) }
    ensures answer { result ≡ answer_of plan.now.network stop (counts_of nodes.now.items) (Read node slot) }
{
    let reader = node as usize;
    if reader >= nodes.len() {
        return Answer::NoNode;
    }
    let Some((neighbour, _)) = plan.link(node, slot) else {
        return Answer::NoSlot;
    };
    let this = &nodes[reader];
    if this.moves == stop {
        return Answer::Stopped;
    }
    if this.desk.has(slot) {
        return Answer::Already;
    }
    let own = this.register.phase();
    let look = nodes[neighbour as usize].register.seen_from(own);
    if let Look::Behind = look {
        Answer::Behind
    } else {
        Answer::Taken
    }
}

/// The answer to a write, with nothing changed.
pub fn ask_write(plan: &SimplePlan<'_>, stop: u32, nodes: &Vec<Node>, node: u32) -> Answer
    requires drawn { IsDrawn plan.now nodes.now.items }
    ensures answer { result ≡ answer_of plan.now.network stop (counts_of nodes.now.items) (Write node) }
{
    let writer = node as usize;
    if writer >= nodes.len() {
        return Answer::NoNode;
    }
    let this = &nodes[writer];
    if this.moves == stop {
        return Answer::Stopped;
    }
    if this.desk.ready() {
        Answer::Moved
    } else {
        Answer::NotReady
    }
}

/// A node moves to its next state, where all its slots are marked.
pub fn write(plan: &SimplePlan<'_>, stop: u32, nodes: &mut Vec<Node>, node: u32) -> Answer
    requires drawn { IsDrawn plan.now nodes.old.items }
    requires in_step { InStep plan.now.network stop (counts_of nodes.old.items) }
    requires limit { stop ≤ most_rounds }
    ensures answer { result ≡ answer_of plan.now.network stop (counts_of nodes.old.items) (Write node) }
    ensures counts { counts_of nodes.new.items ≡ after plan.now.network stop (counts_of nodes.old.items) (Write node) }
    ensures drawn { IsDrawn plan.now nodes.new.items }
{
    let writer = node as usize;
    if writer >= nodes.len() {
        return Answer::NoNode;
    }
    let mover = &nodes[writer];
    if mover.moves == stop {
        return Answer::Stopped;
    }
    if !mover.desk.ready() {
        return Answer::NotReady;
    }
    let program = plan.program();
    let state = mover.next(program, node);
    nodes[writer].advance(program, state);
    Answer::Moved
}

/// The answer that a step would have, with nothing changed.
pub fn ask(plan: &SimplePlan<'_>, stop: u32, nodes: &Vec<Node>, step: Step) -> Answer
    requires drawn { IsDrawn plan.now nodes.now.items }
    requires in_step { InStep plan.now.network stop (counts_of nodes.now.items) }
    ensures answer { result ≡ answer_of plan.now.network stop (counts_of nodes.now.items) step }
{
    match step {
        Step::Read { node, slot } => ask_read(plan, stop, nodes, node, slot),
        Step::Write { node } => ask_write(plan, stop, nodes, node),
    }
}

/// A step, with its answer.
pub fn make(plan: &SimplePlan<'_>, stop: u32, nodes: &mut Vec<Node>, step: Step) -> Answer
    requires drawn { IsDrawn plan.now nodes.old.items }
    requires in_step { InStep plan.now.network stop (counts_of nodes.old.items) }
    requires limit { stop ≤ most_rounds }
    ensures answer { result ≡ answer_of plan.now.network stop (counts_of nodes.old.items) step }
    ensures counts { counts_of nodes.new.items ≡ after plan.now.network stop (counts_of nodes.old.items) step }
    ensures drawn { IsDrawn plan.now nodes.new.items }
{
    match step {
        Step::Read { node, slot } => read(plan, stop, nodes, node, slot),
        Step::Write { node } => write(plan, stop, nodes, node),
    }
}
