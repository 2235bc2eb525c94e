//! Worlds beside the steps that changed them: a full trace, results, and a stop that is refused.

use crate::fixtures::networks::PAIR;
use crate::fixtures::programs::SWAP;
use crate::fixtures::{first_stray, read, shared_plan, write};
use lockstep::Plan;
use std::alloc::Global;
use std::process::Abort;
use std::sync::Arc;
use std::test::Fail;
use unison_trace::{LogFault, Logged};
use unison_world::{Answer, Done, FinishFault, OpenFault, Step, WriteAnswer};

/// What happens to a logged world of the pair, and the answer that is wanted.
#[derive(Clone, Copy)]
enum Event {
    /// A node reads the neighbour at one of its slots.
    Read(u32, u32, Answer),
    /// A node writes its register.
    Write(u32, Answer),
    /// A node would write its register, but the trace holds as many steps as it may.
    FullWrite(u32, u32),
    /// The next state of a node that is ready is computed and kept.
    Compute(u32),
    /// There is nothing to compute for a node.
    NoWork(u32),
    /// The result that was kept last is put.
    Put(WriteAnswer),
    /// The result would be put, but the trace holds as many steps as it may.
    FullPut(u32),
    /// The nodes stand there: how often each has moved, and the first word of its state.
    Nodes(&'static [(u32, u32)]),
    /// These steps are stored.
    Stored(&'static [Step]),
}

/// A logged world of the pair before any step, and what happens to it: its stop, and the limit of its trace.
#[derive(Clone, Copy)]
struct Scene {
    stop: u32,
    limit: Option<u32>,
    events: &'static [Event],
}

/// Computes the next state of a node that is ready, and keeps it.
fn keep_done(logged: &Logged, held: &mut Vec<Done>, node: u32) -> Result<(), Fail> {
    let work = logged.work(node)?.ok_or("the node is not ready")?;
    held.push(work.compute())?;
    Ok(())
}

/// Asserts that there is nothing to compute for a node.
fn assert_no_work(rt: &impl Abort, logged: &Logged, node: u32) -> Result<(), Fail> {
    let work = logged.work(node)?;
    assert!(rt; work.is_none(), "work of {node}");
    Ok(())
}

/// Asserts what a logged world answers to a step.
fn assert_step(rt: &impl Abort, logged: &mut Logged, step: Step, want: Result<Answer, LogFault>) {
    assert_eq!(rt; logged.step(step), want, "{step:?}");
}

/// Asserts what a logged world answers to the result that was kept last.
fn assert_put(
    rt: &impl Abort,
    logged: &mut Logged,
    held: &[Done],
    want: Result<WriteAnswer, LogFault>,
) -> Result<(), Fail> {
    let done = held.last().ok_or("no result is kept")?;
    assert_eq!(rt; logged.put(done), want);
    Ok(())
}

/// Lets one thing happen, and asserts the answer.
fn assert_event(
    rt: &impl Abort,
    logged: &mut Logged,
    held: &mut Vec<Done>,
    event: &Event,
) -> Result<(), Fail> {
    match event {
        Event::Read(node, slot, want) => assert_step(rt, logged, read(*node, *slot), Ok(*want)),
        Event::Write(node, want) => assert_step(rt, logged, write(*node), Ok(*want)),
        Event::FullWrite(node, limit) => {
            let full = LogFault::TraceFull { limit: *limit };
            assert_step(rt, logged, write(*node), Err(full))
        }
        Event::Compute(node) => keep_done(logged, held, *node)?,
        Event::NoWork(node) => assert_no_work(rt, logged, *node)?,
        Event::Put(want) => assert_put(rt, logged, held, Ok(*want))?,
        Event::FullPut(limit) => {
            let full = LogFault::TraceFull { limit: *limit };
            assert_put(rt, logged, held, Err(full))?
        }
        Event::Nodes(wanted) => assert_eq!(rt; first_stray(logged.world(), wanted), None),
        Event::Stored(wanted) => assert_eq!(rt; logged.steps(), Some(*wanted)),
    }
    Ok(())
}

/// The logged world of a scene after all that happens to it, with the answers asserted.
fn played(rt: &impl Abort, alloc: Global, plan: Arc<Plan>, scene: &Scene) -> Result<Logged, Fail> {
    let mut logged = Logged::new(alloc, plan, scene.stop, scene.limit)?;
    let mut held = Vec::new(alloc);
    for event in scene.events {
        assert_event(rt, &mut logged, &mut held, event)?;
    }
    Ok(logged)
}

/// Three steps fill the trace; a step that is not stored is answered still.
const FULL_TRACE: Scene = Scene {
    stop: 10,
    limit: Some(3),
    events: &[
        Event::Read(0, 0, Answer::Taken),
        Event::Write(0, Answer::Moved),
        Event::Read(0, 0, Answer::Behind),
        Event::Read(1, 0, Answer::Taken),
        Event::FullWrite(1, 3),
        Event::Read(0, 0, Answer::Behind),
        Event::Nodes(&[(1, 7), (0, 7)]),
        Event::Stored(&[
            Step::Read { node: 0, slot: 0 },
            Step::Write { node: 0 },
            Step::Read { node: 1, slot: 0 },
        ]),
    ],
};

#[test]
fn full_trace(rt: HostRuntime) -> Result<(), Fail> {
    let alloc = rt.alloc();
    let plan = shared_plan(alloc, SWAP, PAIR)?;
    let logged = played(&rt, alloc, Arc::try_clone(&plan)?, &FULL_TRACE)?;
    let unfinished = FinishFault::Unfinished { node: 0, moves: 1 };
    let fault = logged.finish(alloc, &plan, 10).err();
    assert_eq!(rt; fault, Some(unfinished));
    Ok(())
}

/// Results that are put into a logged world.
const RESULTS: [Scene; 5] = [
    // a result is stored as a write, where it moves its node; a stale one is not stored
    Scene {
        stop: 10,
        limit: Some(9),
        events: &[
            Event::Read(0, 0, Answer::Taken),
            Event::Compute(0),
            Event::Put(WriteAnswer::Moved),
            Event::Put(WriteAnswer::NotReady),
            Event::Read(1, 0, Answer::Taken),
            Event::Write(1, Answer::Moved),
            Event::Read(0, 0, Answer::Taken),
            Event::Put(WriteAnswer::Stale),
            Event::Write(0, Answer::Moved),
            Event::Read(1, 0, Answer::Taken),
            Event::Write(1, Answer::Moved),
            Event::Read(0, 0, Answer::Taken),
            Event::Put(WriteAnswer::Stale),
            Event::Nodes(&[(2, 5), (2, 7)]),
            Event::Stored(&[
                Step::Read { node: 0, slot: 0 },
                Step::Write { node: 0 },
                Step::Read { node: 1, slot: 0 },
                Step::Write { node: 1 },
                Step::Read { node: 0, slot: 0 },
                Step::Write { node: 0 },
                Step::Read { node: 1, slot: 0 },
                Step::Write { node: 1 },
                Step::Read { node: 0, slot: 0 },
            ]),
        ],
    },
    // no work before all reads
    Scene {
        stop: 10,
        limit: Some(9),
        events: &[Event::NoWork(0)],
    },
    // a result that would move its node is refused where the trace is full, and the same result is put without a limit
    Scene {
        stop: 10,
        limit: None,
        events: &[
            Event::Read(0, 0, Answer::Taken),
            Event::Compute(0),
            Event::Put(WriteAnswer::Moved),
            Event::Nodes(&[(1, 7), (0, 7)]),
        ],
    },
    Scene {
        stop: 10,
        limit: Some(2),
        events: &[
            Event::Read(0, 0, Answer::Taken),
            Event::Compute(0),
            Event::Put(WriteAnswer::Moved),
            Event::Nodes(&[(1, 7), (0, 7)]),
        ],
    },
    Scene {
        stop: 10,
        limit: Some(1),
        events: &[
            Event::Read(0, 0, Answer::Taken),
            Event::Compute(0),
            Event::FullPut(1),
            Event::Nodes(&[(0, 5), (0, 7)]),
        ],
    },
];

#[test]
fn results(rt: HostRuntime) -> Result<(), Fail> {
    let alloc = rt.alloc();
    for scene in &RESULTS {
        let _logged = played(&rt, alloc, shared_plan(alloc, SWAP, PAIR)?, scene)?;
    }
    Ok(())
}

#[test]
fn refused_stops_of_logs(rt: HostRuntime) -> Result<(), Fail> {
    let alloc = rt.alloc();
    let plan = shared_plan(alloc, SWAP, PAIR)?;
    let stop = 1_000_000_001;
    let fault = Logged::new(alloc, plan, stop, Some(1)).err();
    assert_eq!(rt; fault, Some(OpenFault::StopTooLarge));
    Ok(())
}
