//! Stored steps.
ghost use Rattle.std.specs.Prelude.{◌≡◌, OnOk, OnErr, IfErr};
ghost use Rattle.unison_trace.specs.Histories.{HasRoom, and_step, new_log, without_last};
ghost use Rattle.unison_trace.specs.Refusals.{Refuses};

use crate::fault::LogFault;
use std::alloc::Global;
use std::marker::Model;
use unison_world::Step;

/// The greatest number of steps that are stored, or stand in a schedule.
pub const MOST_STEPS: u32 = 1_000_000;

/// Steps in order, no more than a limit.
#[derive(Drop)]
pub struct Stored {
    limit: u32,
    steps: Vec<Step>,
}

impl Model for Stored {
    ghost use Rattle.unison_trace.specs.Histories.{Log, IsWithin};

    ghost Value = { Log };

    ghost view = { λ s. record { limit = s.limit; steps = s.steps.items } };

    ghost invariant = { λ s. IsWithin (record { limit = s.limit; steps = s.steps.items }) };
}

/// No steps, where a limit is given, which is cut at 1,000,000.
pub fn new_log(alloc: Global, limit: Option<u32>) -> Option<Stored>
    ensures empty { result ≡ new_log limit }
{
    let limit = limit?;
    Some(Stored {
        limit: limit.min(MOST_STEPS),
        steps: Vec::new(alloc),
    })
}

impl Stored {
    /// The steps, in order.
    pub fn steps(&self) -> &[Step]
        ensures steps { result.now ≡ self.now.steps }
    {
        self.steps.as_slice()
    }

    /// The steps alone.
    pub fn into_steps(self) -> Vec<Step>
        ensures steps { result.items ≡ self.steps }
    {
        let Stored { limit: _, steps } = self;
        steps
    }
}

/// Stores a step at the end, where steps are stored.
pub fn store(log: &mut Option<Stored>, step: Step) -> Result<(), LogFault>
    ensures stored { OnOk result (log.new ≡ and_step log.old step) }
    ensures room { OnOk result (HasRoom log.old) }
    ensures unchanged { OnErr result (log.new ≡ log.old) }
    ensures refused { IfErr result (Refuses log.old) }
{
    let Some(log) = log else {
        return Ok(());
    };
    if log.steps.len() >= log.limit as usize {
        return Err(LogFault::TraceFull { limit: log.limit });
    }
    log.steps.push(step)?;
    Ok(())
}

/// Takes the last step back, where steps are stored.
pub fn take_back(log: &mut Option<Stored>)
    ensures { log.new ≡ without_last log.old }
{
    if let Some(log) = log {
        let _last = log.steps.pop();
    }
}
