//! Replays whose reader fails.

use crate::fixtures::devices::{Source, writer};
use crate::fixtures::networks::PAIR;
use crate::fixtures::programs::SWAP;
use crate::fixtures::{Refusal, shared_plan};
use lockstep::Tally;
use std::alloc::Global;
use std::io::ErrorKind;
use std::process::Abort;
use std::test::Fail;
use unison_trace::{ReplayFault, replay_over};

/// Each of two linked nodes reads the other and writes.
const ROUND: &[u8] = b"read 0 0\nwrite 0\nread 1 0\nwrite 1\n";

/// Asserts what comes of a schedule whose reader fails with an error of this kind after these bytes.
fn assert_failure(
    rt: &impl Abort,
    alloc: Global,
    kind: ErrorKind,
    bytes: &[u8],
) -> Result<(), Refusal> {
    let plan = shared_plan(alloc, SWAP, PAIR)?;
    let mut schedule = Tally::new(Source {
        rest: bytes,
        most: 1,
        end: Some(kind),
    });
    let mut out = Tally::new(writer(alloc, 1_000, 1_000, ErrorKind::BrokenPipe));
    let answer = replay_over(alloc, plan, 10, &mut schedule, &mut out);
    let len = bytes.len();
    assert_eq!(rt; answer, Err(ReplayFault::Read), "{len} bytes");
    assert_eq!(rt; out.calls(), 0);
    assert!(rt; schedule.failed() && !out.failed());
    Ok(())
}

/// Asserts what comes of a schedule whose reader fails after each number of its bytes.
fn assert_failures(rt: &impl Abort, alloc: Global, kind: ErrorKind) -> Result<(), Refusal> {
    for len in 0..=ROUND.len() {
        assert_failure(rt, alloc, kind, &ROUND[..len])?;
    }
    Ok(())
}

/// Where the reader fails, nothing is written, and the reader alone is marked. A fault that can be tried again is
/// a fault.
#[test]
fn reader_fails_after_each_number_of_bytes(rt: HostRuntime) -> Result<(), Fail> {
    assert_failures(&rt, rt.alloc(), ErrorKind::Interrupted)?;
    assert_failures(&rt, rt.alloc(), ErrorKind::BrokenPipe)?;
    Ok(())
}
