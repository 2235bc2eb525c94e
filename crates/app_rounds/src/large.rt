//! `large`: rounds on networks of any size, by its old words.

use crate::large_request::LargeRequest;
use crate::large_watch::watch_rounds;
use crate::lockstep_request::LockstepRequest;
use crate::round_report::report_run;
use crate::settle::settle_run;
use crate::settle_request::SettleRequest;
use app_commands::{packed_source_at, read_run_once, show_info};
use app_files::Ending;
use std::thread::Threads;

/// Prints what is shown of the states after a round. The status with which the program ends.
fn report_round(
    rt: &HostRuntime,
    threads: &(impl Threads + Sync),
    asked: &LockstepRequest,
) -> Result<u8, Ending> {
    read_run_once(rt.alloc(), &asked.texts, "")?;
    let source = packed_source_at(rt, threads, &asked.texts)?;
    report_run(rt, threads, source, asked)
}

/// Tells from which round on nothing changes, or all states come again. The status with which the program ends.
fn settle_rounds(
    rt: &HostRuntime,
    threads: &(impl Threads + Sync),
    asked: &SettleRequest,
) -> Result<u8, Ending> {
    read_run_once(rt.alloc(), &asked.texts, "")?;
    let source = packed_source_at(rt, threads, &asked.texts)?;
    let ground = source.ground(rt, &asked.texts)?;
    settle_run(rt, threads, &ground, asked)
}

/// Does what `large` is asked for. The status with which the program ends.
fn serve_large(
    rt: &HostRuntime,
    threads: &(impl Threads + Sync),
    asked: &LargeRequest,
) -> Result<u8, Ending> {
    match asked {
        LargeRequest::Info { network } => show_info(rt, threads, network.as_str()),
        LargeRequest::Lockstep(asked) => report_round(rt, threads, asked),
        LargeRequest::Watch { texts, span, view } => watch_rounds(rt, threads, texts, span, view),
        LargeRequest::Settle(asked) => settle_rounds(rt, threads, asked),
    }
}

/// Does what `large` is asked for by these words, its own name first. The status with which the program ends.
pub fn run_large(
    rt: &HostRuntime,
    threads: &(impl Threads + Sync),
    words: &[String],
) -> Result<u8, Ending> {
    let asked = LargeRequest::parse(rt.alloc(), words)?;
    serve_large(rt, threads, &asked)
}
