//! Configurations: looks at one, one of given states, and the first difference of two.

use crate::fixtures::networks::PAIR;
use crate::fixtures::programs::{SWAP, SWAP_AND_COUNT};
use crate::fixtures::{Refusal, config_after, difference, plan_of, report_of};
use lockstep::{Config, Difference, Plan, lockstep};
use rule_check::State;
use std::alloc::Global;
use std::process::Abort;
use std::test::Fail;

/// The state with these words in the first two fields.
fn state(first: u32, second: u32) -> State {
    State {
        words: [first, second, 0, 0, 0, 0, 0, 0],
    }
}

/// Asserts what a configuration says of itself: its rounds, and the states of two nodes with two fields.
fn assert_pair(rt: &impl Abort, config: &Config, rounds: u32, states: [State; 2]) {
    assert_eq!(rt; config.rounds(), rounds);
    assert_eq!(rt; config.nodes(), 2);
    assert_eq!(rt; config.fields(), 2);
    assert_eq!(rt; config.states(), states.as_slice());
}

/// Asserts the states of single nodes.
fn assert_nodes(rt: &impl Abort, config: &Config, nodes: &[(u32, Option<State>)]) {
    for (node, want) in nodes {
        assert_eq!(rt; config.state(*node), *want, "node {node}");
    }
}

#[test]
fn looks_at_a_configuration(rt: HostRuntime) -> Result<(), Fail> {
    let config = config_after(rt.alloc(), SWAP_AND_COUNT, PAIR, 3)?;
    let [first, second] = [state(7, 7), state(5, 7)];
    assert_pair(&rt, &config, 3, [first, second]);
    assert_nodes(
        &rt,
        &config,
        &[(0, Some(first)), (1, Some(second)), (2, None)],
    );
    Ok(())
}

/// The configuration with the states of another one, at a round of the plan.
fn made(alloc: Global, plan: &Plan, rounds: u32, like: &Config) -> Result<Config, Refusal> {
    let _round = like.rounds();
    if like.nodes() != plan.network().nodes() || rounds > 1_000_000_000 {
        return Err(Refusal::Shape);
    }
    if like.fields() != plan.program().field_count() {
        return Err(Refusal::Shape);
    }
    Ok(Config::of(plan, rounds, like.states().to_vec(alloc)?))
}

/// The pair after one round, said to be after the greatest number of rounds.
fn pair_at_the_end(alloc: Global, plan: &Plan) -> Result<Config, Refusal> {
    let first = lockstep(alloc, plan, 1)?;
    made(alloc, plan, 1_000_000_000, &first)
}

/// Asserts the report of a configuration of a plan.
fn assert_report(
    rt: &impl Abort,
    alloc: Global,
    plan: &Plan,
    config: &Config,
    want: &[u8],
) -> Result<(), Refusal> {
    let text = report_of(alloc, plan, config)?;
    assert_eq!(rt; text.as_slice(), want);
    Ok(())
}

#[test]
fn configuration_of_states(rt: HostRuntime) -> Result<(), Fail> {
    let plan = plan_of(rt.alloc(), SWAP_AND_COUNT, PAIR)?;
    let config = pair_at_the_end(rt.alloc(), &plan)?;
    assert_pair(&rt, &config, 1_000_000_000, [state(7, 5), state(5, 5)]);
    let want = b"round 1000000000\n0 s=7 t=5\n1 s=5 t=5\n";
    assert_report(&rt, rt.alloc(), &plan, &config, want)?;
    Ok(())
}

/// The first difference of the openings of two network texts.
fn difference_of(alloc: Global, left: &str, right: &str) -> Result<Option<Difference>, Refusal> {
    let left = config_after(alloc, SWAP_AND_COUNT, left, 0)?;
    let right = config_after(alloc, SWAP_AND_COUNT, right, 0)?;
    difference(&left, &right)
}

/// Three nodes without links, with the values that the others are compared with.
const BASE: &str = "nodes = 3\nlinks = []\n[set]\ns = [[0, 1], [1, 2], [2, 3]]\nt = [[1, 6]]\n";

/// Asserts the first difference of the base's opening and that of another network with these values.
fn assert_difference(
    rt: &impl Abort,
    alloc: Global,
    sets: &str,
    want: Option<Difference>,
) -> Result<(), Refusal> {
    let other = format!(in alloc; "nodes = 3\nlinks = [[0, 1]]\n[set]\n{sets}\n")?;
    let found = difference_of(alloc, BASE, other.as_str())?;
    assert_eq!(rt; found, want, "{sets:?}");
    Ok(())
}

/// Where a field's values differ.
fn differ(node: u32, field: u32, left: u32, right: u32) -> Option<Difference> {
    Some(Difference {
        node,
        field,
        left,
        right,
    })
}

/// The values of a network, and the first difference of the base's and its own: the node, the field and both values.
const DIFFERENCES: [(&str, (u32, u32, u32, u32)); 5] = [
    ("s = [[0, 1], [1, 2], [2, 9]]\nt = [[1, 8]]", (1, 1, 6, 8)),
    ("s = [[0, 1], [1, 0], [2, 9]]\nt = [[1, 8]]", (1, 0, 2, 0)),
    ("s = [[0, 1], [1, 2], [2, 9]]\nt = [[1, 6]]", (2, 0, 3, 9)),
    (
        "s = [[0, 1], [1, 0], [2, 3]]\nt = [[0, 5], [1, 6]]",
        (0, 1, 4, 5),
    ),
    ("s = [[1, 2], [2, 3]]\nt = [[0, 9], [1, 6]]", (0, 0, 1, 0)),
];

#[test]
fn first_difference(rt: HostRuntime) -> Result<(), Fail> {
    let same = "s = [[0, 1], [1, 2], [2, 3]]\nt = [[1, 6]]";
    assert_difference(&rt, rt.alloc(), same, None)?;
    for (sets, (node, field, left, right)) in &DIFFERENCES {
        let want = differ(*node, *field, *left, *right);
        assert_difference(&rt, rt.alloc(), sets, want)?;
    }
    Ok(())
}

/// The first difference of a plan's opening and what comes after so many rounds.
fn difference_after(
    alloc: Global,
    plan: &Plan,
    rounds: u32,
) -> Result<Option<Difference>, Refusal> {
    let opening = lockstep(alloc, plan, 0)?;
    let after = lockstep(alloc, plan, rounds)?;
    difference(&opening, &after)
}

#[test]
fn rounds_are_not_compared(rt: HostRuntime) -> Result<(), Fail> {
    let plan = plan_of(rt.alloc(), SWAP, PAIR)?;
    assert_eq!(rt; difference_after(rt.alloc(), &plan, 2)?, None);
    let want = differ(0, 0, 5, 7);
    assert_eq!(rt; difference_after(rt.alloc(), &plan, 1)?, want);
    Ok(())
}
