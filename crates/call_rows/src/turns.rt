//! Turns and sweeps: what a world answers, and where its nodes stand at the end; and looks at a world.

use crate::events::{Event, Scene, assert_scenes};
use crate::fixtures::networks::{PAIR, PAIR_AT_TWO, RING};
use crate::fixtures::programs::{MAJORITY, SWAP};
use crate::fixtures::world_of;
use phase_register::Phase;
use std::test::Fail;
use unison_world::{Answer, TurnAnswer};

/// Turns, alone and among steps.
const TURNS: [Scene; 2] = [
    // turns to the stop
    Scene {
        program: SWAP,
        network: PAIR,
        stop: 3,
        events: &[
            Event::Turn(0, TurnAnswer::Moved),
            Event::Turn(0, TurnAnswer::Behind),
            Event::Turn(1, TurnAnswer::Moved),
            Event::Turn(1, TurnAnswer::Moved),
            Event::Turn(1, TurnAnswer::Behind),
            Event::Turn(0, TurnAnswer::Moved),
            Event::Turn(0, TurnAnswer::Moved),
            Event::Turn(0, TurnAnswer::Stopped),
            Event::Turn(2, TurnAnswer::NoNode),
            Event::Nodes(&[(3, 7), (2, 7)]),
        ],
    },
    // turns among steps
    Scene {
        program: SWAP,
        network: PAIR,
        stop: 10,
        events: &[
            Event::Read(0, 0, Answer::Taken),
            Event::Turn(1, TurnAnswer::Moved),
            Event::Turn(0, TurnAnswer::Moved),
            Event::Read(0, 0, Answer::Taken),
            Event::Read(0, 0, Answer::Already),
            Event::Nodes(&[(1, 7), (1, 5)]),
        ],
    },
];

#[test]
fn turns(rt: HostRuntime) -> Result<(), Fail> {
    assert_scenes(&rt, rt.alloc(), &TURNS)
}

/// Whole sweeps: how many nodes move, and how many reads and moves are left to the stop.
const SWEEPS: [Scene; 3] = [
    // the ring of six to the stop
    Scene {
        program: MAJORITY,
        network: RING,
        stop: 4,
        events: &[
            Event::Sweeps(72),
            Event::Nodes(&[(4, 0), (4, 1), (4, 1), (4, 1), (4, 0), (4, 0)]),
            Event::Sweeps(0),
            Event::Nodes(&[(4, 0), (4, 1), (4, 1), (4, 1), (4, 0), (4, 0)]),
        ],
    },
    // sweeps one by one
    Scene {
        program: SWAP,
        network: PAIR,
        stop: 3,
        events: &[
            Event::Sweep(2),
            Event::Nodes(&[(1, 7), (1, 5)]),
            Event::Sweep(2),
            Event::Nodes(&[(2, 5), (2, 7)]),
            Event::Sweep(2),
            Event::Nodes(&[(3, 7), (3, 5)]),
            Event::Sweep(0),
            Event::Nodes(&[(3, 7), (3, 5)]),
        ],
    },
    // a slot that was read before is not read again: one step is left less
    Scene {
        program: SWAP,
        network: PAIR,
        stop: 3,
        events: &[
            Event::Read(0, 0, Answer::Taken),
            Event::Sweeps(11),
            Event::Nodes(&[(3, 7), (3, 5)]),
        ],
    },
];

#[test]
fn sweeps(rt: HostRuntime) -> Result<(), Fail> {
    assert_scenes(&rt, rt.alloc(), &SWEEPS)
}

/// Three rounds of registers that begin in phase 2, with the phases that they show.
const PHASES: [Scene; 1] = [Scene {
    program: SWAP,
    network: PAIR_AT_TWO,
    stop: 10,
    events: &[
        Event::Phases(2),
        Event::Read(0, 0, Answer::Taken),
        Event::Write(0, Answer::Moved),
        Event::Read(1, 0, Answer::Taken),
        Event::Write(1, Answer::Moved),
        Event::Nodes(&[(1, 7), (1, 5)]),
        Event::Phases(0),
        Event::Read(0, 0, Answer::Taken),
        Event::Write(0, Answer::Moved),
        Event::Read(1, 0, Answer::Taken),
        Event::Write(1, Answer::Moved),
        Event::Nodes(&[(2, 5), (2, 7)]),
        Event::Phases(1),
        Event::Read(0, 0, Answer::Taken),
        Event::Write(0, Answer::Moved),
        Event::Read(1, 0, Answer::Taken),
        Event::Write(1, Answer::Moved),
        Event::Nodes(&[(3, 7), (3, 5)]),
        Event::Phases(2),
    ],
}];

#[test]
fn looks_at_a_world(rt: HostRuntime) -> Result<(), Fail> {
    assert_scenes(&rt, rt.alloc(), &PHASES)?;
    let world = world_of(rt.alloc(), SWAP, PAIR_AT_TWO, 10)?;
    assert_eq!(rt; world.stop(), 10);
    assert_eq!(rt; world.nodes(), 2);
    assert_eq!(rt; world.phase(1), Phase::from_number(2));
    assert_eq!(rt; world.phase(2), None);
    assert_eq!(rt; world.moves(2), None);
    assert_eq!(rt; world.state(2), None);
    Ok(())
}
