//! Results that are computed apart from a world.

use crate::events::{Event, Scene, assert_events, assert_scenes, played};
use crate::fixtures::networks::{ALONE, PAIR};
use crate::fixtures::programs::{LEAST, SWAP};
use std::alloc::Global;
use std::process::Abort;
use std::test::Fail;
use unison_world::{Answer, WriteAnswer};

/// Results that come back to their own world.
const OF_ONE_WORLD: [Scene; 3] = [
    // a result of an earlier round
    Scene {
        program: SWAP,
        network: PAIR,
        stop: 10,
        events: &[
            Event::Read(0, 0, Answer::Taken),
            Event::Compute(0),
            Event::Put(WriteAnswer::Moved),
            Event::Put(WriteAnswer::NotReady),
            Event::Read(1, 0, Answer::Taken),
            Event::Write(1, Answer::Moved),
            Event::Read(0, 0, Answer::Taken),
            Event::Put(WriteAnswer::Stale),
            Event::Nodes(&[(1, 7), (1, 5)]),
            Event::Write(0, Answer::Moved),
            Event::Nodes(&[(2, 5), (1, 5)]),
            Event::Read(1, 0, Answer::Taken),
            Event::Write(1, Answer::Moved),
            Event::Read(0, 0, Answer::Taken),
            Event::Put(WriteAnswer::Stale),
            Event::Nodes(&[(2, 5), (2, 7)]),
        ],
    },
    // a result of another round alone
    Scene {
        program: "field s = 0; next s = round;",
        network: ALONE,
        stop: 10,
        events: &[
            Event::Compute(0),
            Event::Write(0, Answer::Moved),
            Event::Nodes(&[(1, 0)]),
            Event::Put(WriteAnswer::Stale),
            Event::Nodes(&[(1, 0)]),
            Event::Write(0, Answer::Moved),
            Event::Nodes(&[(2, 1)]),
        ],
    },
    // a result at the stop
    Scene {
        program: SWAP,
        network: PAIR,
        stop: 1,
        events: &[
            Event::NoWork(0),
            Event::NoWork(1),
            Event::NoWork(2),
            Event::Read(0, 0, Answer::Taken),
            Event::Compute(0),
            Event::Put(WriteAnswer::Moved),
            Event::Put(WriteAnswer::Stopped),
            Event::NoWork(0),
            Event::Nodes(&[(1, 7), (0, 7)]),
        ],
    },
];

#[test]
fn results_of_one_world(rt: HostRuntime) -> Result<(), Fail> {
    assert_scenes(&rt, rt.alloc(), &OF_ONE_WORLD)
}

/// A result that is computed in one world and put in another, and what happens to the first world after that.
#[derive(Clone, Copy)]
struct Exchange {
    from: Scene,
    into: Scene,
    back: &'static [Event],
}

/// The pair, whose node 0 computes.
const FROM_THE_PAIR: Scene = Scene {
    program: SWAP,
    network: PAIR,
    stop: 10,
    events: &[Event::Read(0, 0, Answer::Taken), Event::Compute(0)],
};

/// Each node takes the sum of its neighbours and their number.
const WITH_DEGREE: &str = "field s = 0; next s = (total n.s + degree);";

/// Results that come to another world.
const OF_TWO_WORLDS: [Exchange; 6] = [
    // a node of another degree
    Exchange {
        from: Scene {
            program: WITH_DEGREE,
            network: "nodes = 2\nlinks = [[0, 1]]\n[set]\ns = [[0, 1], [1, 4]]\n",
            stop: 10,
            events: &[Event::Read(0, 0, Answer::Taken), Event::Compute(0)],
        },
        into: Scene {
            program: WITH_DEGREE,
            network: "nodes = 3\nlinks = [[0, 1], [0, 2]]\n[set]\ns = [[0, 1], [1, 4]]\n",
            stop: 10,
            events: &[
                Event::Read(0, 0, Answer::Taken),
                Event::Read(0, 1, Answer::Taken),
                Event::Put(WriteAnswer::Stale),
                Event::Nodes(&[(0, 1), (0, 4), (0, 0)]),
                Event::Write(0, Answer::Moved),
                Event::Nodes(&[(1, 6), (0, 4), (0, 0)]),
            ],
        },
        back: &[
            Event::Put(WriteAnswer::Moved),
            Event::Nodes(&[(1, 5), (0, 4)]),
        ],
    },
    // another program
    Exchange {
        from: FROM_THE_PAIR,
        into: Scene {
            program: LEAST,
            network: PAIR,
            stop: 10,
            events: &[
                Event::Read(0, 0, Answer::Taken),
                Event::Put(WriteAnswer::Stale),
                Event::Nodes(&[(0, 5), (0, 7)]),
            ],
        },
        back: &[],
    },
    // another own state
    Exchange {
        from: FROM_THE_PAIR,
        into: Scene {
            program: SWAP,
            network: "nodes = 2\nlinks = [[0, 1]]\n[set]\ns = [[0, 6], [1, 7]]\n",
            stop: 10,
            events: &[
                Event::Read(0, 0, Answer::Taken),
                Event::Put(WriteAnswer::Stale),
                Event::Nodes(&[(0, 6), (0, 7)]),
            ],
        },
        back: &[],
    },
    // another state of the neighbour
    Exchange {
        from: FROM_THE_PAIR,
        into: Scene {
            program: SWAP,
            network: "nodes = 2\nlinks = [[0, 1]]\n[set]\ns = [[0, 5], [1, 8]]\n",
            stop: 10,
            events: &[
                Event::Read(0, 0, Answer::Taken),
                Event::Put(WriteAnswer::Stale),
                Event::Nodes(&[(0, 5), (0, 8)]),
            ],
        },
        back: &[],
    },
    // the same states
    Exchange {
        from: FROM_THE_PAIR,
        into: Scene {
            program: SWAP,
            network: "nodes = 2\nlinks = [[0, 1]]\n[set]\ns = [[0, 5], [1, 7]]\n",
            stop: 10,
            events: &[
                Event::Read(0, 0, Answer::Taken),
                Event::Put(WriteAnswer::Moved),
                Event::Nodes(&[(1, 7), (0, 7)]),
            ],
        },
        back: &[],
    },
    // a node that is not there
    Exchange {
        from: Scene {
            program: SWAP,
            network: PAIR,
            stop: 10,
            events: &[Event::Read(1, 0, Answer::Taken), Event::Compute(1)],
        },
        into: Scene {
            program: SWAP,
            network: ALONE,
            stop: 10,
            events: &[Event::Put(WriteAnswer::NoNode), Event::Nodes(&[(0, 0)])],
        },
        back: &[],
    },
];

/// Asserts the answers of two worlds that share results.
fn assert_exchange(rt: &impl Abort, alloc: Global, exchange: &Exchange) -> Result<(), Fail> {
    let mut held = Vec::new(alloc);
    let mut first = played(rt, alloc, &mut held, &exchange.from)?;
    let _other = played(rt, alloc, &mut held, &exchange.into)?;
    assert_events(rt, &mut first, &mut held, exchange.back)
}

#[test]
fn results_of_two_worlds(rt: HostRuntime) -> Result<(), Fail> {
    for exchange in &OF_TWO_WORLDS {
        assert_exchange(&rt, rt.alloc(), exchange)?;
    }
    Ok(())
}
