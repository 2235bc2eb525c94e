//! A run by threads, from texts to the bytes that are written.
ghost use Rattle.std.specs.Prelude.{◌≡◌, ◌<◌, ◌^◌, IfErr, None, OnOk, false};
ghost use Rattle.app_jobs.specs.declared.job.Job.{Job};
ghost use Rattle.app_jobs.specs.Served.{IsRefusal};
ghost use Rattle.headline.specs.Headline.{IsLockstepReport};

use app_jobs::{Job, ServeFault, serve};
use report_text::Tally;
use std::alloc::Global;
use std::io;
use std::io::Write;
use std::sync::Wait;
use std::thread::Threads;

/// Runs the program of a text on the network of a text by so many workers, each in a thread of its own, up to a round, and
/// writes the report of this round.
///
/// The faults are those of `serve`, in its order. A run waits for its threads: it need not return, and what it promises
/// holds where it does.
pub fn run_report<W: Write>(
    rt: &(impl Threads + Wait + Sync),
    alloc: Global,
    program: &[u8],
    network: &[u8],
    round: u32,
    workers: u32,
    out: &mut Tally<W>,
) -> Result<(), ServeFault>
    requires unmarked { out.old.failed ≡ false }
    requires writes { out.old.calls < 2 ^ 63 }
    ensures report { OnOk result (IsLockstepReport program.now network.now round (W.contents out.old.inner) (W.contents out.new.inner)) }
    ensures refused { IfErr result (IsRefusal (Job.Run round workers false) program.now network.now None) }
{
    let job = Job::Run {
        rounds: round,
        workers,
        traced: false,
    };
    let mut schedule = Tally::new(io::empty());
    let _served = serve(rt, alloc, &job, program, network, None, &mut schedule, out)?;
    Ok(())
}
