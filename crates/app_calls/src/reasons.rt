//! Why a job is not done: the number of its first fault, and what is told of it for people.
ghost use Rattle.std.specs.Prelude.{◌≡◌, ◌≢◌, ◌≤◌, ◌<◌, true, false, length, IfErr, IfOk, OnErr, OnOk, MatchOption, option_map};
ghost use Rattle.app_jobs.specs.declared.fault.ServeFault.{ServeFault};
ghost use Rattle.app_jobs.specs.FirstFault.{IsFirstFault, IsUnrefused};
ghost use Rattle.app_why.specs.Given.{network_of, report_of, schedule_of};
ghost use Rattle.app_calls.specs.Answers.{report_in};
ghost use Rattle.app_calls.specs.Jobs.{HasJobWith, IsFirstNumber, IsJob};
ghost use Rattle.app_calls.specs.Refusals.{IsUnknownJob, is_job};
ghost use Rattle.app_calls.specs.Words.{with_front};

use crate::fault::{Fault, ending_number};
use crate::plans::{PlanTexts, report_in};
use crate::spelling::put_text;
use app_jobs::Job;
use app_why::{Named, Texts, why};
use std::alloc::{AllocError, Global};

/// What is told of a job: one value of the job and its texts, made before any room for it is seen.
#[derive(Drop)]
pub struct Reason {
    /// The number of the first fault with which it would end; 0 where nothing refuses it.
    pub fault: u32,
    /// What is wrong, where, and what to do; or that nothing is wrong.
    pub text: Vec<u8>,
}

/// The job of a number, its round or its stop being `number`.
fn job_of(job: u32, number: u32) -> Option<Job>
    ensures there { MatchOption result (is_job job ≡ false) (λ asked. (is_job job ≡ true) × IsJob job number asked) }
{
    match job {
        1 => Some(Job::Check),
        2 => Some(Job::Lockstep { rounds: number }),
        3 => Some(Job::Replay { stop: number }),
        _ => None,
    }
}

/// The text of a report to go on from, where there is one, under its name.
fn report<'a>(from: &'a [u8]) -> Option<Named<'a>>
    ensures text { option_map (λ named. named.text.now) result ≡ report_in from.now }
{
    let text = report_in(from)?;
    Some(Named {
        name: "report",
        text,
    })
}

/// The texts that a job reads, under their names: they are all that its first fault depends on.
fn texts_of<'a>(job: &Job, texts: &PlanTexts<'a>, schedule: &'a [u8]) -> Texts<'a>
    ensures first { (f : ServeFault) → IsFirstFault job.now result.program.text.now (network_of result) (report_of result) (schedule_of result) f → IsFirstFault job.now texts.now.program.now texts.now.network.now (report_in texts.now.from.now) schedule.now f }
    ensures unrefused { IsUnrefused job.now result.program.text.now (network_of result) (report_of result) (schedule_of result) → IsUnrefused job.now texts.now.program.now texts.now.network.now (report_in texts.now.from.now) schedule.now }
{
    let program = Named {
        name: "program",
        text: texts.program,
    };
    let network = Named {
        name: "network",
        text: texts.network,
    };
    let schedule = Named {
        name: "schedule",
        text: schedule,
    };
    match job {
        Job::Check => Texts {
            program,
            network: None,
            report: None,
            schedule: None,
        },
        Job::Replay { .. } => Texts {
            program,
            network: Some(network),
            report: report(texts.from),
            schedule: Some(schedule),
        },
        Job::Lockstep { .. } | Job::Run { .. } | Job::Compare { .. } => Texts {
            program,
            network: Some(network),
            report: report(texts.from),
            schedule: None,
        },
    }
}

/// What is told of a job on these texts.
fn reason_of(
    alloc: Global,
    job: &Job,
    texts: &PlanTexts<'_>,
    schedule: &[u8],
) -> Result<Reason, AllocError>
    ensures accepted { IfOk result (λ reason. reason.fault ≡ 0 → IsUnrefused job.now texts.now.program.now texts.now.network.now (report_in texts.now.from.now) schedule.now) }
    ensures first { IfOk result (λ reason. reason.fault ≢ 0 → IsFirstNumber job.now texts.now.program.now texts.now.network.now (report_in texts.now.from.now) schedule.now reason.fault) }
{
    let named = texts_of(job, texts, schedule);
    let finding = why(alloc, job, &named)?;
    Ok(Reason {
        fault: ending_number(finding.fault),
        text: finding.text.into_bytes(),
    })
}

/// What is told of the job of a number on these texts: the number of its first fault, or 0, and the text. `NoJob` where there
/// is no such job.
pub fn reason_for(
    alloc: Global,
    job: u32,
    texts: &PlanTexts<'_>,
    schedule: &[u8],
    number: u32,
) -> Result<Reason, Fault>
    ensures job { OnOk result (is_job job ≡ true) }
    ensures accepted { IfOk result (λ reason. reason.fault ≡ 0 → HasJobWith job number (λ asked. IsUnrefused asked texts.now.program.now texts.now.network.now (report_in texts.now.from.now) schedule.now)) }
    ensures first { IfOk result (λ reason. reason.fault ≢ 0 → HasJobWith job number (λ asked. IsFirstNumber asked texts.now.program.now texts.now.network.now (report_in texts.now.from.now) schedule.now reason.fault)) }
    ensures named { IfOk result (λ reason. reason.fault ≢ 0 → 16 ≤ reason.fault) }
    ensures refused { IfErr result (IsUnknownJob job) }
{
    let Some(job) = job_of(job, number) else {
        return Err(Fault::NoJob);
    };
    Ok(reason_of(alloc, &job, texts, schedule)?)
}

/// Writes what is told of a job: the number of its first fault, or 0, and its text to the front of the caller's text, and how
/// long that is. Where there is too little room, which is told as `Room`, how long it is alone.
pub fn write_reason(
    reason: &Reason,
    fault: &mut u32,
    text: &mut [u8],
    text_len: &mut usize,
) -> Result<(), Fault>
    ensures length { text_len.new ≡ length reason.now.text.items }
    ensures fits { OnOk result (length reason.now.text.items ≤ length text.old) }
    ensures written { OnOk result ((fault.new ≡ reason.now.fault) × (text.new ≡ with_front reason.now.text.items text.old)) }
    ensures kept { OnErr result ((fault.new ≡ fault.old) × (text.new ≡ text.old)) }
    ensures refused { IfErr result (λ f. (f ≡ Fault.Room) × (length text.old < length reason.now.text.items)) }
{
    put_text(&reason.text, text, text_len)?;
    *fault = reason.fault;
    Ok(())
}
