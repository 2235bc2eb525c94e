//! All workers of a run.
ghost use Rattle.std.specs.Prelude.{◌≡◌, ◌≢◌, ◌+◌, ◌≤◌, IfErr, OnErr, OnOk, Ok, Err, vec_len, vec_capacity};
ghost use Rattle.unison_trace.specs.declared.fault.LogFault.TheVariants.{Memory};
ghost use Rattle.unison_pool.specs.declared.team.Halted.TheVariants.{Fault};

use crate::gate::Gate;
use crate::shared::Shared;
use crate::worker::Part;
use rounds_plan::Plan;
use std::alloc::{AllocError, AllocFailed, Global};
use std::sync::Wait;
use std::thread;
use std::thread::{JoinHandle, Scope, Threads};
use unison_trace::LogFault;

/// Why the workers of a run were told to end.
#[derive(Clone, Copy)]
pub enum Halted {
    /// The start of a thread was refused.
    NoThread,
    /// A worker met a fault.
    Fault(LogFault),
}

impl From<AllocError> for Halted {
    ghost from_gives = { λ _ e. e ≡ Fault Memory };

    fn from(_error: AllocError) -> Halted {
        Halted::Fault(LogFault::Memory)
    }
}

impl<T: Drop> From<AllocFailed<T>> for Halted {
    ghost from_gives = { λ _ e. e ≡ Fault Memory };

    fn from(_error: AllocFailed<T>) -> Halted {
        Halted::Fault(LogFault::Memory)
    }
}

/// What the workers of a run are made of.
#[derive_where(Clone, Copy)]
pub struct Team<'a, R, G> {
    pub rt: &'a R,
    pub alloc: Global,
    pub plan: &'a Plan,
    pub shared: &'a Shared,
    pub gate: &'a G,
    pub stop: u32,
}

impl<R: Threads + Wait + Sync, G: Gate + Sync> Team<'_, R, G> {
    /// Starts so many workers and joins them. Where a thread is refused the workers that were started are told to end.
    /// A refused thread is answered before any worker's fault, and of several workers' faults that of the least worker.
    pub fn drive_all(&self, workers: u32) -> Result<(), Halted> {
        thread::scope(
            thread::scope_env(),
            self.rt,
            move |scope| -> Result<(), Halted> {
                let mut threads = Vec::with_capacity(self.alloc, workers as usize)?;
                let started = self.start_all(scope, workers, &mut threads);
                if started.is_err() {
                    self.shared.halt();
                }
                let joined = join_all(self.rt, threads);
                first_of(started, joined)
            },
        )
    }

    /// Starts the workers by rising number, up to the first thread that is refused. There is room for all of them.
    fn start_all<'s, E>(
        &'s self,
        scope: &'s Scope<'s, E>,
        workers: u32,
        threads: &mut Vec<JoinHandle<Result<(), LogFault>>>,
    ) -> Result<(), Halted>
        requires room { vec_len threads.old + workers ≤ vec_capacity threads.old }
        ensures all { OnOk result (vec_len threads.new ≡ vec_len threads.old + workers) }
        ensures refused { IfErr result (λ halted. halted ≡ Halted.NoThread) }
    {
        for worker in 0..workers {
            let part = Part { worker, workers };
            let Ok(thread) = scope.spawn(move || self.drive(part)) else {
                return Err(Halted::NoThread);
            };
            threads.push(thread)?;
        }
        Ok(())
    }
}

/// Joins the workers, and gives the fault of the least that met one.
fn join_all<R: Threads>(
    rt: &R,
    threads: Vec<JoinHandle<Result<(), LogFault>>>,
) -> Result<(), Halted>
    ensures met { IfErr result (λ halted. halted ≢ Halted.NoThread) }
{
    let mut joined = Ok(());
    for thread in threads {
        let met = thread.join(rt);
        joined = first_of(joined, halted_by(met));
    }
    joined
}

/// The first of two faults, where there is one.
fn first_of(first: Result<(), Halted>, second: Result<(), Halted>) -> Result<(), Halted>
    ensures first { OnErr first (result ≡ first) }
    ensures second { OnOk first (result ≡ second) }
{
    first.and(second)
}

/// What a worker met, as what the workers were told to end by.
fn halted_by(met: Result<(), LogFault>) -> Result<(), Halted>
    ensures none { OnOk met (result ≡ Ok tt) }
    ensures fault { IfErr met (λ fault. result ≡ Err (Halted.Fault fault)) }
{
    met.map_err(|fault| Halted::Fault(fault))
}
