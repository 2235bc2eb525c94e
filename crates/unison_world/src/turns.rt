//! Whole turns and sweeps.
ghost use Rattle.std.specs.Prelude.{◌≡◌, ℕ, ◌+◌, ◌<◌, ◌≤◌, length, map, min};
ghost use Rattle.link_net.specs.Neighbours.{IsNetwork, degree, numbers_below};
ghost use Rattle.rounds_plan.specs.Configs.{most_rounds};
ghost use Rattle.unison_world.specs.Counting.{moves_of, run, InStep};
ghost use Rattle.unison_world.specs.Pictures.{IsDrawn, counts_of};
ghost use Rattle.unison_world.specs.Progress.{steps_done, one_if_changed};
ghost use Rattle.unison_world.specs.Turns.{neighbours_of, any_behind, turn_answer, after_turn, after_turns, moves_in_turns, one_if_moved};
ghost use Rattle.unison_world.specs.declared.step.Step.TheVariants.{Read};

use crate::events::{read, write};
use crate::node::Node;
use crate::step::{Answer, TurnAnswer};
use phase_register::Look;
use rounds_plan::SimplePlan;

/// Whether some neighbour has moved less often than the node: whether its register looks behind.
fn some_behind(plan: &SimplePlan<'_>, stop: u32, nodes: &Vec<Node>, node: u32) -> bool
    requires drawn { IsDrawn plan.now nodes.now.items }
    requires in_step { InStep plan.now.network stop (counts_of nodes.now.items) }
    requires node { node < length nodes.now.items }
    ensures behind { result ≡ any_behind plan.now.network (counts_of nodes.now.items) node }
{
    let own = nodes[node as usize].register.phase();
    let rows = plan.rows();
    let neighbours = rows.neighbours_of(node);
    for slot in 0..neighbours.len() {
        let look = nodes[neighbours[slot] as usize].register.seen_from(own);
        if let Look::Behind = look {
            return true;
        }
    }
    false
}

/// One for an answer with which a step changes the counts.
fn steps_in(answer: Answer) -> u32
    ensures count { result ≡ one_if_changed answer }
    ensures most { result ≤ 1 }
{
    match answer {
        Answer::Taken | Answer::Moved => 1,
        _ => 0,
    }
}

/// A node reads the register at each of its slots; how many of the reads were taken.
fn read_all(plan: &SimplePlan<'_>, stop: u32, nodes: &mut Vec<Node>, node: u32) -> u32
    requires drawn { IsDrawn plan.now nodes.old.items }
    requires in_step { InStep plan.now.network stop (counts_of nodes.old.items) }
    requires node { node < length nodes.old.items }
    ensures counts { counts_of nodes.new.items ≡ run plan.now.network stop (counts_of nodes.old.items) (map (λ j. Read node j) (numbers_below (degree plan.now.network node))) }
    ensures drawn { IsDrawn plan.now nodes.new.items }
    ensures in_step { InStep plan.now.network stop (counts_of nodes.new.items) }
    ensures steps { steps_done plan.now.network (counts_of nodes.new.items) ≡ steps_done plan.now.network (counts_of nodes.old.items) + result }
    ensures few { result ≤ degree plan.now.network node }
{
    let mut taken = 0;
    for slot in 0..nodes[node as usize].desk.degree() {
        taken += steps_in(read(plan, stop, nodes, node, slot));
    }
    taken
}

/// A turn's answer, and how many reads were taken and moves made in it.
#[derive(Clone, Copy)]
pub struct Turned {
    pub answer: TurnAnswer,
    pub steps: u64,
}

/// A whole turn of a node: where no neighbour looks behind, every slot is read and the node moves.
pub fn turn(plan: &SimplePlan<'_>, stop: u32, nodes: &mut Vec<Node>, node: u32) -> Turned
    requires drawn { IsDrawn plan.now nodes.old.items }
    requires in_step { InStep plan.now.network stop (counts_of nodes.old.items) }
    requires limit { stop ≤ most_rounds }
    ensures answer { result.answer ≡ turn_answer plan.now.network stop (counts_of nodes.old.items) node }
    ensures counts { counts_of nodes.new.items ≡ after_turn plan.now.network stop (counts_of nodes.old.items) node }
    ensures drawn { IsDrawn plan.now nodes.new.items }
    ensures in_step { InStep plan.now.network stop (counts_of nodes.new.items) }
    ensures steps { steps_done plan.now.network (counts_of nodes.new.items) ≡ steps_done plan.now.network (counts_of nodes.old.items) + result.steps }
    ensures few { result.steps ≤ degree plan.now.network node + 1 }
{
    let mover = node as usize;
    if mover >= nodes.len() {
        return unturned(TurnAnswer::NoNode);
    }
    if nodes[mover].moves == stop {
        return unturned(TurnAnswer::Stopped);
    }
    if some_behind(plan, stop, nodes, node) {
        return unturned(TurnAnswer::Behind);
    }
    let taken = read_all(plan, stop, nodes, node);
    let made = steps_in(write(plan, stop, nodes, node));
    Turned {
        answer: TurnAnswer::Moved,
        steps: taken as u64 + made as u64,
    }
}

/// A turn without a step.
fn unturned(answer: TurnAnswer) -> Turned
    ensures { result ≡ record { answer = answer; steps = 0 } }
{
    Turned { answer, steps: 0 }
}

/// How many nodes moved in a sweep, and how many reads were taken and moves made in it.
#[derive(Clone, Copy)]
pub struct Swept {
    pub moves: u32,
    pub steps: u64,
}

/// One for a turn that moves.
fn moves_in(answer: TurnAnswer) -> u32
    ensures count { result ≡ one_if_moved answer }
    ensures most { result ≤ 1 }
{
    match answer {
        TurnAnswer::Moved => 1,
        _ => 0,
    }
}

/// A sweep: a turn of each node by rising number.
pub fn sweep(plan: &SimplePlan<'_>, stop: u32, nodes: &mut Vec<Node>) -> Swept
    requires drawn { IsDrawn plan.now nodes.old.items }
    requires in_step { InStep plan.now.network stop (counts_of nodes.old.items) }
    requires limit { stop ≤ most_rounds }
    requires network { IsNetwork plan.now.network }
    ensures moves { result.moves ≡ moves_in_turns plan.now.network stop (counts_of nodes.old.items) (numbers_below (length plan.now.network)) }
    ensures counts { counts_of nodes.new.items ≡ after_turns plan.now.network stop (counts_of nodes.old.items) (numbers_below (length plan.now.network)) }
    ensures drawn { IsDrawn plan.now nodes.new.items }
    ensures in_step { InStep plan.now.network stop (counts_of nodes.new.items) }
    ensures steps { steps_done plan.now.network (counts_of nodes.new.items) ≡ steps_done plan.now.network (counts_of nodes.old.items) + result.steps }
    ensures few { result.steps ≤ 268500992 }
    ensures rises { (m : ℕ) → ((u : ℕ) → u < length plan.now.network → m ≤ moves_of (counts_of nodes.old.items) u)
        → (u : ℕ) → u < length plan.now.network → min (m + 1) stop ≤ moves_of (counts_of nodes.new.items) u }
{
    let mut moves = 0;
    let mut steps: u64 = 0;
    for node in 0..plan.nodes() {
        let turned = turn(plan, stop, nodes, node);
        moves += moves_in(turned.answer);
        steps += turned.steps;
    }
    Swept { moves, steps }
}

/// The least count, or the stop where none is below it.
fn least_count(stop: u32, nodes: &Vec<Node>) -> u32
    ensures least { (u : ℕ) → u < length nodes.now.items → result ≤ moves_of (counts_of nodes.now.items) u }
    ensures stop { result ≤ stop }
{
    let mut least = stop;
    for node in 0..nodes.len() {
        least = nodes[node].moves.min(least);
    }
    least
}

/// Sweeps until every node stands at the stop; how many reads were taken and moves made.
pub fn run_sweeps(plan: &SimplePlan<'_>, stop: u32, nodes: &mut Vec<Node>) -> u64
    requires drawn { IsDrawn plan.now nodes.old.items }
    requires in_step { InStep plan.now.network stop (counts_of nodes.old.items) }
    requires limit { stop ≤ most_rounds }
    requires network { IsNetwork plan.now.network }
    ensures at_stop { (u : ℕ) → u < length plan.now.network → moves_of (counts_of nodes.new.items) u ≡ stop }
    ensures drawn { IsDrawn plan.now nodes.new.items }
    ensures in_step { InStep plan.now.network stop (counts_of nodes.new.items) }
    ensures steps { steps_done plan.now.network (counts_of nodes.new.items) ≡ steps_done plan.now.network (counts_of nodes.old.items) + result }
{
    let least = least_count(stop, nodes);
    let mut steps = 0;
    for _round in least..stop {
        let swept = sweep(plan, stop, nodes);
        steps += swept.steps;
    }
    steps
}
