//! Runs of workers: the largest trace, and gates that show that workers compute side by side, each for its own nodes.

use crate::fixtures::networks::{ALONE, APART, PAIR, PATH, RING};
use crate::fixtures::programs::{COUNTER, DISTANCE, MAJORITY, SWAP};
use crate::fixtures::reports::{PATH_AFTER_ONE, RING_AFTER_FOUR};
use crate::fixtures::{Refusal, report_of, shared_plan};
use lockstep::Plan;
use std::alloc::Global;
use std::process::Abort;
use std::sync::Wait;
use std::sync::atomic::{AtomicU32, Ordering};
use std::test::Fail;
use std::thread::Threads;
use unison_pool::{Gate, OpenGate, RunFault, run};
use unison_trace::Finished;
use unison_world::Step;

/// How many turns a gate holds a worker at most.
const MOST_TURNS: u32 = 50_000_000;

/// What a run is asked.
#[derive(Clone, Copy)]
struct Asked {
    stop: u32,
    workers: u32,
    trace: Option<u32>,
}

/// Asserts the report of a finished run and the number of its stored steps.
fn assert_finished(
    rt: &impl Abort,
    alloc: Global,
    plan: &Plan,
    finished: &Finished,
    want: (&str, Option<usize>),
) -> Result<(), Refusal> {
    let (text, steps) = want;
    let report = report_of(alloc, plan, &finished.config)?;
    assert_eq!(rt; report.as_slice(), text.as_bytes());
    assert_eq!(rt;
        finished.trace.as_ref().map(|trace| trace.len()),
        steps,
        "{text:?}"
    );
    Ok(())
}

/// Asserts the report of a run of the texts of a program and a network, and the number of its stored steps.
fn assert_run<R: Threads + Wait + Abort + Sync, G: Gate + Sync>(
    rt: &R,
    alloc: Global,
    program: &str,
    network: &str,
    asked: Asked,
    gate: &G,
    want: (&str, Option<usize>),
) -> Result<(), Fail> {
    let plan = shared_plan(alloc, program, network)?;
    let finished = run(
        rt,
        alloc,
        &plan,
        asked.stop,
        asked.workers,
        asked.trace,
        gate,
    )?;
    assert_finished(rt, alloc, &plan, &finished, want)?;
    Ok(())
}

/// Of a limit above 1,000,000 no more than 1,000,000 steps are stored.
#[test]
fn largest_trace(rt: HostRuntime) -> Result<(), Fail> {
    let asked = Asked {
        stop: 1_000_000,
        workers: 1,
        trace: Some(4_294_967_295),
    };
    let want = ("round 1000000\n0 s=1000000\n", Some(1_000_000));
    assert_run(&rt, rt.alloc(), COUNTER, ALONE, asked, &OpenGate, want)?;
    let plan = shared_plan(rt.alloc(), COUNTER, ALONE)?;
    let fault = run(&rt, rt.alloc(), &plan, 1_000_001, 1, asked.trace, &OpenGate).err();
    assert_eq!(rt; fault, Some(RunFault::TraceFull { limit: 1_000_000 }));
    Ok(())
}

/// Spins until the word has come to a number, and says whether it was seen there.
fn saw(word: &AtomicU32, least: u32) -> bool {
    for _ in 0..MOST_TURNS {
        if word.load(Ordering::SeqCst) >= least {
            return true;
        }
    }
    false
}

/// Holds each worker in its call until as many calls were entered as there are workers. Each worker has one node,
/// which moves once, and so makes one call.
#[derive(Drop)]
struct Meeting {
    workers: u32,
    entered: AtomicU32,
    met: AtomicU32,
}

impl Gate for Meeting {
    fn before_compute(&self, _worker: u32, _node: u32) {
        self.entered.fetch_add(1, Ordering::SeqCst);
        if saw(&self.entered, self.workers) {
            self.met.fetch_add(1, Ordering::SeqCst);
        }
    }
}

/// Asserts that in a run of one round every worker saw the others before it computed.
fn assert_meet<R: Threads + Wait + Abort + Sync>(
    rt: &R,
    alloc: Global,
    program: &str,
    network: &str,
    workers: u32,
    want: &str,
) -> Result<(), Fail> {
    let gate = Meeting {
        workers,
        entered: AtomicU32::new(0),
        met: AtomicU32::new(0),
    };
    let asked = Asked {
        stop: 1,
        workers,
        trace: None,
    };
    assert_run(rt, alloc, program, network, asked, &gate, (want, None))?;
    assert_eq!(rt; gate.entered.load(Ordering::SeqCst), workers);
    assert_eq!(rt; gate.met.load(Ordering::SeqCst), workers);
    Ok(())
}

#[test]
fn two_computations_meet(rt: HostRuntime) -> Result<(), Fail> {
    assert_meet(&rt, rt.alloc(), SWAP, PAIR, 2, "round 1\n0 s=7\n1 s=5\n")?;
    assert_meet(&rt, rt.alloc(), DISTANCE, PATH, 3, PATH_AFTER_ONE)
}

/// Holds worker 0 in its first call until worker 1 has entered its third.
#[derive(Drop)]
struct Third {
    of_first: AtomicU32,
    of_second: AtomicU32,
    seen: AtomicU32,
}

impl Gate for Third {
    fn before_compute(&self, worker: u32, _node: u32) {
        if worker == 1 {
            self.of_second.fetch_add(1, Ordering::SeqCst);
        } else if self.of_first.fetch_add(1, Ordering::SeqCst) == 0 && saw(&self.of_second, 3) {
            self.seen.fetch_add(1, Ordering::SeqCst);
        }
    }
}

#[test]
fn trace_follows_workers(rt: HostRuntime) -> Result<(), Fail> {
    let gate = Third {
        of_first: AtomicU32::new(0),
        of_second: AtomicU32::new(0),
        seen: AtomicU32::new(0),
    };
    let plan = shared_plan(rt.alloc(), COUNTER, APART)?;
    let finished = run(&rt, rt.alloc(), &plan, 3, 2, Some(6), &gate)?;
    let want = ("round 3\n0 s=3\n1 s=3\n", Some(6));
    assert_finished(&rt, rt.alloc(), &plan, &finished, want)?;
    assert_eq!(rt; gate.seen.load(Ordering::SeqCst), 1);
    let trace = finished.trace.as_deref().unwrap_or(&[]);
    for at in 0..2 {
        assert_eq!(rt; trace.get(at).copied(), Some(Step::Write { node: 1 }));
    }
    Ok(())
}

/// Spins 100,000 turns in each call of worker 0.
#[derive(Drop)]
struct Slow {
    turns: AtomicU32,
}

impl Gate for Slow {
    fn before_compute(&self, worker: u32, _node: u32) {
        if worker == 0 {
            for _ in 0..100_000 {
                self.turns.fetch_add(1, Ordering::SeqCst);
            }
        }
    }
}

/// Asserts the report and the trace of a run whose first worker is slow.
fn assert_slow<R: Threads + Wait + Abort + Sync>(
    rt: &R,
    alloc: Global,
    workers: u32,
) -> Result<(), Fail> {
    let gate = Slow {
        turns: AtomicU32::new(0),
    };
    let asked = Asked {
        stop: 4,
        workers,
        trace: Some(72),
    };
    let want = (RING_AFTER_FOUR, Some(72));
    assert_run(rt, alloc, MAJORITY, RING, asked, &gate, want)?;
    assert!(rt; gate.turns.load(Ordering::SeqCst) > 0);
    Ok(())
}

#[test]
fn slow_worker(rt: HostRuntime) -> Result<(), Fail> {
    assert_slow(&rt, rt.alloc(), 2)?;
    assert_slow(&rt, rt.alloc(), 64)
}

/// Counts the calls of a run, and those for a node that is not the worker's.
#[derive(Drop)]
struct Watch {
    workers: u32,
    calls: AtomicU32,
    strays: AtomicU32,
}

impl Gate for Watch {
    fn before_compute(&self, worker: u32, node: u32) {
        self.calls.fetch_add(1, Ordering::SeqCst);
        if node.checked_rem(self.workers) != Some(worker) {
            self.strays.fetch_add(1, Ordering::SeqCst);
        }
    }
}

/// Asserts the calls of a run of so many workers.
fn assert_calls<R: Threads + Wait + Abort + Sync>(
    rt: &R,
    alloc: Global,
    workers: u32,
) -> Result<(), Fail> {
    let gate = Watch {
        workers,
        calls: AtomicU32::new(0),
        strays: AtomicU32::new(0),
    };
    let asked = Asked {
        stop: 4,
        workers,
        trace: None,
    };
    assert_run(
        rt,
        alloc,
        MAJORITY,
        RING,
        asked,
        &gate,
        (RING_AFTER_FOUR, None),
    )?;
    assert_eq!(rt; gate.strays.load(Ordering::SeqCst), 0, "{workers} workers");
    assert_eq!(rt; gate.calls.load(Ordering::SeqCst), 24, "{workers} workers");
    Ok(())
}

/// Each worker computes for the nodes whose number leaves its own modulo the number of workers, and once for each round.
#[test]
fn workers_compute_for_their_nodes(rt: HostRuntime) -> Result<(), Fail> {
    for workers in &[1, 2, 4, 64] {
        assert_calls(&rt, rt.alloc(), *workers)?;
    }
    Ok(())
}
