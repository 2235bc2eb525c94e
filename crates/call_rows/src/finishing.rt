//! Why a world that is not finished, or is another plan's, has no configuration.

use crate::fixtures::networks::{PAIR, PAIR_AT_TWO, UNSET_PAIR};
use crate::fixtures::programs::{LEAST, SWAP};
use crate::fixtures::{Refusal, plan_of, world_of};
use lockstep::Plan;
use std::alloc::Global;
use std::test::Fail;
use unison_world::FinishFault;

/// What a new world of the pair answers to `finish` at the plan of these texts.
fn finish_fault(
    alloc: Global,
    program: &str,
    network: &str,
    stop: u32,
) -> Result<Option<FinishFault>, Refusal> {
    let world = world_of(alloc, SWAP, PAIR, 10)?;
    let plan = plan_of(alloc, program, network)?;
    Ok(world.finish(alloc, &plan, stop).err())
}

/// A program text, a network text and a stop, and the fault at a new world of the pair with the stop 10.
const FOREIGN: [(&str, &str, u32, FinishFault); 6] = [
    (
        SWAP,
        PAIR,
        10,
        FinishFault::Unfinished { node: 0, moves: 0 },
    ),
    (SWAP, PAIR, 9, FinishFault::Foreign),
    (LEAST, PAIR, 10, FinishFault::Foreign),
    (SWAP, UNSET_PAIR, 10, FinishFault::Foreign),
    (SWAP, PAIR_AT_TWO, 10, FinishFault::Foreign),
    (
        SWAP,
        "nodes = 2\nlinks = []\n[set]\ns = [[0, 5], [1, 7]]\n",
        10,
        FinishFault::Foreign,
    ),
];

#[test]
fn finish_of_a_new_world(rt: HostRuntime) -> Result<(), Fail> {
    for (program, network, stop, want) in &FOREIGN {
        let fault = finish_fault(rt.alloc(), program, network, *stop)?;
        assert_eq!(rt; fault, Some(*want), "{program:?} {network:?} {stop}");
    }
    Ok(())
}

/// What a world of the pair answers to `finish` at its plan and its stop after turns of two nodes.
fn fault_after(
    alloc: Global,
    plan: &Plan,
    stop: u32,
    turns: &[u32],
) -> Result<Option<FinishFault>, Refusal> {
    let mut world = world_of(alloc, SWAP, PAIR, stop)?;
    for turn in turns {
        let _answer = world.turn(*turn);
    }
    Ok(world.finish(alloc, plan, stop).err())
}

/// A stop and the turns of two nodes, and the node that has not moved often enough, with its moves.
const TURNS: [(u32, [u32; 2], u32, u32); 4] = [
    (1, [0, 0], 1, 0),
    (1, [1, 1], 0, 0),
    (10, [0, 1], 0, 1),
    (10, [1, 0], 0, 1),
];

#[test]
fn finish_before_the_stop(rt: HostRuntime) -> Result<(), Fail> {
    let plan = plan_of(rt.alloc(), SWAP, PAIR)?;
    for (stop, turns, node, moves) in &TURNS {
        let fault = fault_after(rt.alloc(), &plan, *stop, turns)?;
        let want = FinishFault::Unfinished {
            node: *node,
            moves: *moves,
        };
        assert_eq!(rt; fault, Some(want), "stop {stop}, turns {turns:?}");
    }
    Ok(())
}
