//! What is seen of nodes after single steps, and the report of a run by threads.

use crate::fixtures::devices::writer;
use crate::fixtures::networks::{PAIR, PATH};
use crate::fixtures::programs::{DISTANCE, SWAP};
use crate::fixtures::reports::PATH_AFTER_ONE;
use crate::fixtures::{read, shared_plan, write};
use headline::{Seen, after_steps, run_report};
use lockstep::Tally;
use std::io::ErrorKind;
use std::process::Abort;
use std::test::Fail;
use unison_world::{Answer, OpenFault};

/// Asserts what a node shows: how often it has moved, the number of its phase, and the first word of its state.
fn assert_shown(rt: &impl Abort, seen: &Seen, node: usize, wanted: (u32, u8, u32)) {
    let shown = seen.nodes.get(node);
    let shown = shown.map(|it| (it.moves, it.phase.number(), it.state.words[0]));
    assert_eq!(rt; shown, Some(wanted), "node {node}");
}

/// Of two linked nodes one moves, and then waits for the other.
#[test]
fn one_of_two_nodes_moves(rt: HostRuntime) -> Result<(), Fail> {
    let plan = shared_plan(rt.alloc(), SWAP, PAIR)?;
    let steps = [write(0), read(0, 0), write(0), read(0, 0)];
    let seen = after_steps(rt.alloc(), plan, 9, &steps)?;
    let wanted = [
        Answer::NotReady,
        Answer::Taken,
        Answer::Moved,
        Answer::Behind,
    ];
    assert_eq!(rt; seen.answers.as_slice(), wanted.as_slice());
    assert_shown(&rt, &seen, 0, (1, 1, 7));
    assert_shown(&rt, &seen, 1, (0, 0, 7));
    assert_eq!(rt; seen.nodes.len(), 2);
    Ok(())
}

/// A stop above the greatest round is refused.
#[test]
fn a_stop_is_refused(rt: HostRuntime) -> Result<(), Fail> {
    let plan = shared_plan(rt.alloc(), SWAP, PAIR)?;
    let fault = after_steps(rt.alloc(), plan, 1_000_000_001, &[]).err();
    assert_eq!(rt; fault, Some(OpenFault::StopTooLarge));
    Ok(())
}

/// Two threads drive the path of three nodes up to round 1.
#[test]
fn threads_report_a_round(rt: HostRuntime) -> Result<(), Fail> {
    let mut out = Tally::new(writer(rt.alloc(), 1_000, 1_000, ErrorKind::BrokenPipe));
    let (program, network) = (DISTANCE.as_bytes(), PATH.as_bytes());
    run_report(&rt, rt.alloc(), program, network, 1, 2, &mut out)?;
    assert_eq!(rt; out.inner().held.as_slice(), PATH_AFTER_ONE.as_bytes());
    Ok(())
}
