//! Plans: whether two are the same, and a configuration of another plan.

use crate::fixtures::networks::{ALONE, PATH};
use crate::fixtures::programs::{DISTANCE, ROUNDS, SWAP};
use crate::fixtures::{Refusal, config_after, plan_of};
use lockstep::{Plan, ResumeFault};
use std::alloc::Global;
use std::process::Abort;
use std::test::Fail;

/// A program and a network, and whether their plan is the one that they are compared with.
type Other = (&'static str, &'static str, bool);

/// Plans that differ in the spelling alone, in the phase, in a value, in the links and in the program.
const OTHERS: [Other; 5] = [
    (
        SWAP,
        "nodes = 2\nlinks = [[1, 0, 1]]\nphase = 0\n[set]\ns = [[1, 3], [0, 0]]\n",
        true,
    ),
    (
        SWAP,
        "nodes = 2\nlinks = [[0, 1]]\nphase = 1\n[set]\ns = [[1, 3]]\n",
        false,
    ),
    (
        SWAP,
        "nodes = 2\nlinks = [[0, 1]]\n[set]\ns = [[1, 4]]\n",
        false,
    ),
    (SWAP, "nodes = 2\nlinks = []\n[set]\ns = [[1, 3]]\n", false),
    (
        "field s = 0; next s = most n.s;",
        "nodes = 2\nlinks = [[0, 1]]\n[set]\ns = [[1, 3]]\n",
        false,
    ),
];

/// Asserts whether another plan is the same, from both sides.
fn assert_same(rt: &impl Abort, alloc: Global, one: &Plan, other: &Other) -> Result<(), Refusal> {
    let (program, network, same) = other;
    let plan = plan_of(alloc, program, network)?;
    assert_eq!(rt; one.same(&plan), *same, "{network:?}");
    assert_eq!(rt; plan.same(one), *same, "{network:?}");
    Ok(())
}

#[test]
fn same_plans(rt: HostRuntime) -> Result<(), Fail> {
    let network = "nodes = 2\nlinks = [[0, 1]]\n[set]\ns = [[1, 3]]\n";
    let one = plan_of(rt.alloc(), SWAP, network)?;
    for other in &OTHERS {
        assert_same(&rt, rt.alloc(), &one, other)?;
    }
    Ok(())
}

#[test]
fn configuration_of_another_plan(rt: HostRuntime) -> Result<(), Fail> {
    let config = config_after(rt.alloc(), ROUNDS, ALONE, 1)?;
    let plan = plan_of(rt.alloc(), DISTANCE, PATH)?;
    let fault = plan.resume(rt.alloc(), &config).err();
    assert_eq!(rt; fault, Some(ResumeFault::Foreign));
    Ok(())
}
