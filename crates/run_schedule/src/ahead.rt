//! Walks that lead one node ahead of the others.
ghost use Rattle.std.specs.Prelude.{◌≡◌, ◌<◌, ◌≤◌, ◌⊎◌, ◌++◌, ◌∷◌, [], None, length, IfOk, IfNone, IfSome, IfErr, OnOk};
ghost use Rattle.unison_world.specs.View.{opened};
ghost use Rattle.run_schedule.specs.Leading.{AreTurns, HasLed, IsReady, StaysAhead, TakesStep, WaitsFor};
ghost use Rattle.run_schedule.specs.Walks.{GoesOn, IsFull};

use crate::fault::Halt;
use crate::walk::Walk;
use std::alloc::{AllocError, Global};
use unison_world::Step;

/// A node that is to move, and the slot that it reads next.
#[derive(Clone, Copy)]
pub(crate) struct Turn {
    node: u32,
    slot: u32,
}

/// The neighbour for which a turn waits: the one that is read next, where it is behind.
fn waited_for(walk: &Walk, turn: Turn) -> Option<u32>
    requires node { turn.node < length walk.now.world.plan.network }
    ensures behind { IfSome result (WaitsFor walk.now.world turn) }
    ensures ready { IfNone result (IsReady walk.now.world turn) }
{
    let neighbour = walk.network().neighbour(turn.node, turn.slot)?;
    if walk.is_behind(neighbour, turn.node) {
        return Some(neighbour);
    }
    None
}

/// The turn that is next: the last of those that wait, or where none does, one of the node that leads.
fn next_turn(turns: &mut Vec<Turn>, node: u32) -> Turn
    ensures next { (turns.old.items ≡ turns.new.items ++ result ∷ []) ⊎ ((turns.old.items ≡ []) × (turns.new.items ≡ []) × (result ≡ record { node = node; slot = 0 })) }
{
    match turns.pop() {
        Some(turn) => turn,
        None => Turn { node, slot: 0 },
    }
}

/// Where a turn waits for a neighbour, that one's turn comes first, and so on. The turn that waits for none; the others are put
/// at the end of those that wait.
fn first_turn(walk: &Walk, turns: &mut Vec<Turn>, turn: Turn, node: u32) -> Result<Turn, AllocError>
    requires turns { AreTurns walk.now.world node (turns.old.items ++ turn ∷ []) }
    ensures turns { IfOk result (λ first. AreTurns walk.now.world node (turns.new.items ++ first ∷ [])) }
    ensures ready { IfOk result (IsReady walk.now.world) }
{
    let mut first = turn;
    'waits: while let Some(neighbour) = waited_for(walk, first) {
        // For the proof alone: the call tells what holds of every world.
        let _network = walk.network();
        turns.push(first)?;
        first = Turn {
            node: neighbour,
            slot: 0,
        };
    }
    Ok(first)
}

/// Takes one step of a turn that waits for no neighbour: it reads its slot, or where it has read all, it moves and ends.
fn take_step(walk: &mut Walk, turns: &mut Vec<Turn>, turn: Turn, node: u32) -> Result<(), Halt>
    requires none { walk.old.still ≡ None }
    requires turns { AreTurns walk.old.world node (turns.old.items ++ turn ∷ []) }
    requires ready { IsReady walk.old.world turn }
    ensures goes { GoesOn walk.old walk.new }
    ensures few { length walk.new.steps ≤ walk.new.limit }
    ensures takes { OnOk result (TakesStep walk.old walk.new) }
    ensures turns { OnOk result (AreTurns walk.new.world node turns.new.items) }
    ensures full { IfErr result (λ halt. halt ≡ Halt.Full → (walk.new ≡ walk.old) × IsFull walk.new) }
{
    let slots = walk.network().degree_of(turn.node);
    if turn.slot >= slots {
        walk.make(Step::Write { node: turn.node })?;
        return Ok(());
    }
    walk.make(Step::Read {
        node: turn.node,
        slot: turn.slot,
    })?;
    turns.push(Turn {
        node: turn.node,
        slot: turn.slot + 1,
    })?;
    Ok(())
}

/// Leads a node to the stop, from the world before any step on.
pub(crate) fn lead(alloc: Global, walk: &mut Walk, node: u32) -> Result<(), Halt>
    requires node { node < length walk.old.world.plan.network }
    requires none { walk.old.still ≡ None }
    requires opened { walk.old.world ≡ opened walk.old.world.plan walk.old.world.stop }
    requires begun { walk.old.steps ≡ [] }
    ensures goes { GoesOn walk.old walk.new }
    ensures led { OnOk result (HasLed walk.new.world node) }
    ensures ahead { OnOk result (StaysAhead walk.new.world.plan walk.new.world.stop node walk.new.steps) }
    ensures full { IfErr result (λ halt. halt ≡ Halt.Full → IsFull walk.new × StaysAhead walk.new.world.plan walk.new.world.stop node walk.new.steps) }
{
    // For the proof alone, as the two below: the call tells what holds of every world.
    let _first = walk.network();
    let mut turns = Vec::new(alloc);
    'steps: loop {
        let _network = walk.network();
        if walk.is_at_stop(node) {
            return Ok(());
        }
        let next = next_turn(&mut turns, node);
        let turn = first_turn(walk, &mut turns, next, node)?;
        take_step(walk, &mut turns, turn, node)?;
        let _after = walk.network();
    }
}
