//! Turns and steps of worlds, which ask for no memory, with each request for memory refused that comes before them.
//!
//! A test whose name has `memory_is_refused` is run by `.ci/refuse_memory` with its first, second, .. request refused,
//! and by the gate with ample memory. It prints `answer` where it has the answer, which it has compared, and `memory`
//! where a call answered running out of memory. Anything else fails the test; so does `memory` where nothing was
//! refused.

use crate::events::{assert_nodes, assert_step};
use crate::fixtures::networks::{PAIR, PAIR_AT_TWO};
use crate::fixtures::programs::SWAP;
use crate::fixtures::{Refusal, read, shared_plan, write};
use lockstep::{Config, Plan};
use phase_register::Phase;
use std::alloc::Global;
use std::process::Abort;
use std::sync::Arc;
use std::test::Fail;
use unison_world::{Answer, Step, TurnAnswer, World};

/// Prints what was found: the answer, which is compared, or running out of memory. Any other fault fails the test.
fn tell(rt: &impl Print, found: Result<(), Refusal>) -> Result<(), Fail> {
    let said = match found {
        Ok(()) => "answer",
        Err(refusal) if refusal.is_memory() => "memory",
        Err(refusal) => return Err(Fail::from(refusal)),
    };
    println!(rt; "{said}")?;
    Ok(())
}

/// Asserts what a world answers to these steps, in their order.
fn assert_steps(rt: &impl Abort, world: &mut World, steps: &[(Step, Answer)]) {
    for (step, want) in steps {
        assert_step(rt, world, *step, *want);
    }
}

/// Asserts what a world answers to turns of these nodes, in their order.
fn assert_turns(rt: &impl Abort, world: &mut World, turns: &[(u32, TurnAnswer)]) {
    for (node, want) in turns {
        assert_eq!(rt; world.turn(*node), *want, "turn of {node}");
    }
}

/// A world of the program, and its plan.
fn opened(alloc: Global, network: &str, stop: u32) -> Result<(World, Arc<Plan>), Refusal> {
    let plan = shared_plan(alloc, SWAP, network)?;
    let world = World::new(alloc, Arc::try_clone(&plan)?, stop)?;
    Ok((world, plan))
}

/// Turns of both nodes to the stop.
fn turns_to_the_stop(rt: &impl Abort, world: &mut World) {
    let turns = [
        (0, TurnAnswer::Moved),
        (0, TurnAnswer::Behind),
        (1, TurnAnswer::Moved),
        (1, TurnAnswer::Moved),
        (1, TurnAnswer::Behind),
        (0, TurnAnswer::Moved),
        (0, TurnAnswer::Moved),
        (0, TurnAnswer::Stopped),
        (2, TurnAnswer::NoNode),
    ];
    assert_turns(rt, world, &turns);
    assert_nodes(rt, world, &[(3, 7), (2, 7)]);
    assert_turns(rt, world, &[(1, TurnAnswer::Moved)]);
}

/// Asserts the configuration at the stop.
fn assert_stop(rt: &impl Abort, config: &Config) {
    assert_eq!(rt; config.rounds(), 3);
    for (node, want) in &[(0, Some(7)), (1, Some(5)), (2, None)] {
        let word = config.state(*node).map(|state| state.words[0]);
        assert_eq!(rt; word, *want, "node {node}");
    }
}

/// Turns to the stop, and the configuration there.
fn turns_and_finish(rt: &impl Abort, alloc: Global) -> Result<(), Refusal> {
    let (mut world, plan) = opened(alloc, PAIR, 3)?;
    turns_to_the_stop(rt, &mut world);
    let config = world.finish(alloc, &plan, 3)?;
    assert_stop(rt, &config);
    Ok(())
}

#[test]
fn turns_where_memory_is_refused(rt: HostRuntime) -> Result<(), Fail> {
    tell(&rt, turns_and_finish(&rt, rt.alloc()))
}

/// Three rounds of a world, which is open.
fn three_rounds(rt: &impl Abort, world: &mut World) {
    let steps = [
        (read(0, 0), Answer::Taken),
        (write(0), Answer::Moved),
        (read(1, 0), Answer::Taken),
        (write(1), Answer::Moved),
    ];
    for wanted in &[[(1, 7), (1, 5)], [(2, 5), (2, 7)], [(3, 7), (3, 5)]] {
        assert_steps(rt, world, &steps);
        assert_nodes(rt, world, wanted);
    }
    assert_eq!(rt; world.phase(0), Phase::from_number(2));
    assert_eq!(rt; world.phase(1), Phase::from_number(2));
}

/// The steps of a world that is open ask for no memory. The line that is printed before them says so to
/// `.ci/refuse_memory`, which then fails this test where any request comes after it.
#[test]
fn open_world_where_memory_is_refused(rt: HostRuntime) -> Result<(), Fail> {
    match opened(rt.alloc(), PAIR_AT_TWO, 10) {
        Ok((mut world, _plan)) => {
            println!(rt; "no request from here on")?;
            three_rounds(&rt, &mut world);
            tell(&rt, Ok(()))
        }
        Err(refusal) => tell(&rt, Err(refusal)),
    }
}
