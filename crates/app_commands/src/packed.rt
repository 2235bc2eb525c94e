//! Packed networks, and reports of rounds on them, that are read.

use app_files::{Ending, PackedNetwork, bytes_at, name_at, packed_with};
use large_net::{LargeNetwork, read_large};
use report_text::{ReportFault, read_states};
use rounds_plan::RoundStates;
use rule_check::Program;
use std::alloc::Global;
use std::thread::Threads;

/// The packed network of the bytes at a path.
pub fn packed_in(
    rt: &HostRuntime,
    threads: &impl Threads,
    path: &str,
    bytes: &[u8],
) -> Result<PackedNetwork, Ending> {
    let alloc = rt.alloc();
    packed_with(alloc, path, bytes, read_large(threads, alloc, bytes))
}

/// The ending where a text is no report of the program and the network.
fn no_report(alloc: Global, path: &str, fault: ReportFault) -> Ending {
    let name = name_at(path);
    match fault {
        ReportFault::BadLine { line } => Ending::refused(format!(in alloc;
            "report BadLine {line}\n{name}:{line}: expected this line of a report of the program on the network; unison lockstep prints such reports"
        )),
        ReportFault::TooManyRounds => Ending::refused(format!(in alloc;
            "report TooManyRounds\n{name}:1: {fault}; unison lockstep prints reports of lower ones"
        )),
        ReportFault::Memory => Ending::Memory,
    }
}

/// The report at a path, of a program on a network.
pub(crate) fn report_at(
    rt: &HostRuntime,
    path: &str,
    program: &Program,
    network: &LargeNetwork,
) -> Result<RoundStates, Ending> {
    let text = bytes_at(rt, path)?;
    match read_states(rt.alloc(), program, network.nodes(), &text) {
        Ok(report) => Ok(report),
        Err(fault) => Err(no_report(rt.alloc(), path, fault)),
    }
}
