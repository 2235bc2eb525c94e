//! Jobs done: from the texts to the bytes that are written.
ghost use Rattle.std.specs.Prelude.{◌≡◌, ◌↔◌, ◌+◌, ◌≤◌, ◌<◌, ◌^◌, ℕ, List, length, take, true, false, None, Ok, Err, IfOk, IfErr, OnOk, IsTrue, MatchResult, option_map};
ghost use Rattle.std.specs.Arc.{arc_value};
ghost use Rattle.std.specs.Io.KnownBytes.{Appends};
ghost use Rattle.unison_trace.specs.declared.fault.ReplayFault.{ReplayFault as Refused};
ghost use Rattle.unison_trace.specs.ReplayFaults.{IsReplayed, IsReplayFault};
ghost use Rattle.app_jobs.specs.declared.job.Job.{Job};
ghost use Rattle.app_jobs.specs.Served.{HasTrace, IsDone, IsLongFirst, IsRefusal, IsServeRefusal, IsServed, IsUnscheduled, IsUnwritten, given, is_short};

use crate::fault::ServeFault;
use crate::job::Job;
use crate::plans::shared_plan;
use crate::texts::{Text, answer};
use report_text::{Cut, Tally, write_text};
use rounds_plan::Plan;
use std::alloc::Global;
use std::io::{Read, Write};
use std::sync::{Arc, Wait};
use std::thread::Threads;
use unison_trace::{ReplayFault, replay_over};

/// What a job that was done leaves: the status, 0 or 4 where two answers differ, and the text of a trace.
#[derive(Debug, Drop)]
pub struct Served {
    pub status: u8,
    pub trace: Option<Vec<u8>>,
}

/// Writes the answer of a job.
fn written<W: Write>(out: &mut Tally<W>, text: Text) -> Result<Served, ServeFault>
    requires unmarked { out.old.failed ≡ false }
    requires agrees { text.differs ≡ false }
    ensures status { IfOk result (λ s. (s.status ≡ 0) × (option_map (λ v. v.items) s.trace ≡ option_map (λ v. v.items) text.trace)) }
    ensures whole { OnOk result (Appends (W.contents out.old.inner) (W.contents out.new.inner) text.answer.items) }
    ensures cut { IfErr result (λ f. (written : ℕ) × (f ≡ ServeFault.Write written) × (written ≤ length text.answer.items)
        × Appends (W.contents out.old.inner) (W.contents out.new.inner) (take written text.answer.items)
        × (out.new.failed ≡ true)) }
    ensures marked { MatchResult result (λ _. out.new.failed ≡ false) (λ f. out.new.failed ≡ is_short f) }
{
    match write_text(out, &text.answer) {
        Ok(()) => Ok(Served {
            status: if text.differs { 4 } else { 0 },
            trace: text.trace,
        }),
        Err(Cut { written }) => Err(ServeFault::Write { written }),
    }
}

/// Replays the schedule on the plan, and writes the replay report.
fn replayed<R: Read, W: Write>(
    alloc: Global,
    plan: Arc<Plan>,
    stop: u32,
    schedule: &mut Tally<R>,
    out: &mut Tally<W>,
) -> Result<Served, ServeFault>
    requires unread { schedule.old.failed ≡ false }
    requires reads { schedule.old.calls < 2 ^ 63 }
    requires unmarked { out.old.failed ≡ false }
    requires writes { out.old.calls < 2 ^ 63 }
    ensures done { IfOk result (λ s. (s.status ≡ 0) × (s.trace ≡ None)) }
    ensures replayed { OnOk result (IsReplayed (arc_value plan) stop (R.remaining schedule.old.inner) (R.remaining schedule.new.inner) (W.contents out.old.inner) (W.contents out.new.inner)) }
    ensures refused { IfErr result (λ f. (fault : Refused) × (f ≡ ServeFault.Replay fault)
        × IsReplayFault (arc_value plan) stop (R.remaining schedule.old.inner) (R.remaining schedule.new.inner) (W.contents out.old.inner) (W.contents out.new.inner) fault) }
    ensures read { IsTrue schedule.new.failed ↔ (result ≡ Err (ServeFault.Replay ReplayFault.Read)) }
    ensures calls { schedule.new.calls ≤ schedule.old.calls + 27000001 }
    ensures turns { result ≡ Err (ServeFault.Replay ReplayFault.TooManyTurns) → schedule.new.calls ≡ schedule.old.calls + 27000001 }
    ensures marked { MatchResult result (λ _. out.new.failed ≡ false) (λ f. out.new.failed ≡ is_short f) }
    ensures quiet { IfErr result (λ f. IsUnwritten f → out.new ≡ out.old) }
{
    replay_over(alloc, plan, stop, schedule, out)?;
    Ok(Served {
        status: 0,
        trace: None,
    })
}

/// Replays the schedule on the plan of the texts, and writes the replay report.
fn serve_replay<R: Read, W: Write>(
    alloc: Global,
    program: &[u8],
    network: &[u8],
    from: Option<&[u8]>,
    stop: u32,
    schedule: &mut Tally<R>,
    out: &mut Tally<W>,
) -> Result<Served, ServeFault>
    requires unread { schedule.old.failed ≡ false }
    requires reads { schedule.old.calls < 2 ^ 63 }
    requires unmarked { out.old.failed ≡ false }
    requires writes { out.old.calls < 2 ^ 63 }
    ensures done { IfOk result (λ s. (s.status ≡ 0) × (s.trace ≡ None)) }
    ensures served { OnOk result (IsDone (Job.Replay stop) program.now network.now (given from.entry)
        (R.remaining schedule.old.inner) (R.remaining schedule.new.inner) (W.contents out.old.inner) (W.contents out.new.inner)) }
    ensures refused { IfErr result (IsServeRefusal (Job.Replay stop) program.now network.now (given from.entry)
        (R.remaining schedule.old.inner) (R.remaining schedule.new.inner) (W.contents out.old.inner) (W.contents out.new.inner)) }
    ensures long { IfErr result (IsLongFirst program.now) }
    ensures inside { IfErr result (λ f. (written : ℕ) → f ≡ ServeFault.Write written → ⊥) }
    ensures read { IsTrue schedule.new.failed ↔ (result ≡ Err (ServeFault.Replay ReplayFault.Read)) }
    ensures calls { schedule.new.calls ≤ schedule.old.calls + 27000001 }
    ensures turns { result ≡ Err (ServeFault.Replay ReplayFault.TooManyTurns) → schedule.new.calls ≡ schedule.old.calls + 27000001 }
    ensures marked { MatchResult result (λ _. out.new.failed ≡ false) (λ f. out.new.failed ≡ is_short f) }
    ensures quiet { IfErr result (λ f. IsUnwritten f → out.new ≡ out.old) }
{
    let plan = shared_plan(alloc, program, network, from)?;
    replayed(alloc, plan, stop, schedule, out)
}

/// Does a job that reads no schedule, and writes its answer.
fn serve_text<W: Write>(
    rt: &(impl Threads + Wait + Sync),
    alloc: Global,
    job: &Job,
    program: &[u8],
    network: &[u8],
    from: Option<&[u8]>,
    out: &mut Tally<W>,
) -> Result<Served, ServeFault>
    requires unscheduled { IsUnscheduled job.now }
    requires unmarked { out.old.failed ≡ false }
    ensures done { IfOk result (λ s. s.status ≡ 0) }
    ensures trace { IfOk result (λ s. HasTrace job.now program.now network.now (given from.entry) (option_map (λ v. v.items) s.trace)) }
    ensures served { OnOk result ((text : List ℕ)
        × IsServed job.now program.now network.now (given from.entry) text
        × Appends (W.contents out.old.inner) (W.contents out.new.inner) text) }
    ensures refused { IfErr result (IsRefusal job.now program.now network.now (given from.entry)) }
    ensures long { IfErr result (IsLongFirst program.now) }
    ensures cut { (written : ℕ) → result ≡ Err (ServeFault.Write written) → (text : List ℕ)
        × IsServed job.now program.now network.now (given from.entry) text
        × (written ≤ length text)
        × Appends (W.contents out.old.inner) (W.contents out.new.inner) (take written text) }
    ensures marked { MatchResult result (λ _. out.new.failed ≡ false) (λ f. out.new.failed ≡ is_short f) }
    ensures quiet { IfErr result (λ f. IsUnwritten f → out.new ≡ out.old) }
{
    let text = answer(rt, alloc, job, program, network, from)?;
    written(out, text)
}

/// Does a job: reads the program, checks it, reads the network, makes the plan, reads the report to go on from where
/// there is one, each where the job has it; makes the answer, and then writes it. `report` is the text of the
/// report to go on from; `check` uses the program alone, and `replay` alone reads the schedule.
///
/// The first fault on that way is answered, a program's text that is too long before memory is taken; before the answer is
/// whole nothing is written. `Write`, which with a
/// replay stands inside `Replay`, says how many of the answer's first bytes went out before the device refused.
pub fn serve<R: Read, W: Write>(
    rt: &(impl Threads + Wait + Sync),
    alloc: Global,
    job: &Job,
    program: &[u8],
    network: &[u8],
    report: Option<&[u8]>,
    schedule: &mut Tally<R>,
    out: &mut Tally<W>,
) -> Result<Served, ServeFault>
    requires unread { schedule.old.failed ≡ false }
    requires reads { schedule.old.calls < 2 ^ 63 }
    requires unmarked { out.old.failed ≡ false }
    requires writes { out.old.calls < 2 ^ 63 }
    ensures done { IfOk result (λ s. s.status ≡ 0) }
    ensures trace { IfOk result (λ s. HasTrace job.now program.now network.now (given report.entry) (option_map (λ v. v.items) s.trace)) }
    ensures served { OnOk result (IsDone job.now program.now network.now (given report.entry)
        (R.remaining schedule.old.inner) (R.remaining schedule.new.inner) (W.contents out.old.inner) (W.contents out.new.inner)) }
    ensures refused { IfErr result (IsServeRefusal job.now program.now network.now (given report.entry)
        (R.remaining schedule.old.inner) (R.remaining schedule.new.inner) (W.contents out.old.inner) (W.contents out.new.inner)) }
    ensures long { IfErr result (IsLongFirst program.now) }
    ensures quiet { IfErr result (λ f. IsUnwritten f → out.new ≡ out.old) }
    ensures marked { MatchResult result (λ _. out.new.failed ≡ false) (λ f. out.new.failed ≡ is_short f) }
    ensures cut { (written : ℕ) → result ≡ Err (ServeFault.Write written) → (text : List ℕ)
        × IsServed job.now program.now network.now (given report.entry) text
        × (written ≤ length text)
        × Appends (W.contents out.old.inner) (W.contents out.new.inner) (take written text) }
    ensures unasked { IsUnscheduled job.now → schedule.new ≡ schedule.old }
    ensures read { IsTrue schedule.new.failed ↔ (result ≡ Err (ServeFault.Replay ReplayFault.Read)) }
    ensures calls { schedule.new.calls ≤ schedule.old.calls + 27000001 }
    ensures turns { result ≡ Err (ServeFault.Replay ReplayFault.TooManyTurns) → schedule.new.calls ≡ schedule.old.calls + 27000001 }
{
    if let Job::Replay { stop } = *job {
        return serve_replay(alloc, program, network, report, stop, schedule, out);
    }
    serve_text(rt, alloc, job, program, network, report, out)
}
