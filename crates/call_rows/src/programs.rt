//! Programs: the texts of their faults, whether two are the same, and steps by one neighbour after the other.

use crate::fixtures::{Refusal, program_of};
use rule_check::{CheckFault, Near, Program, State, Sums};
use rule_lang::LangFault;
use std::alloc::{AllocError, Global};
use std::fmt::Display;
use std::process::Abort;
use std::test::Fail;

/// Asserts the text of a fault.
fn assert_text(
    rt: &impl Abort,
    alloc: Global,
    fault: &impl Display,
    want: &str,
) -> Result<(), AllocError> {
    let text = fault.to_string(alloc)?;
    assert_eq!(rt; text.as_str(), want);
    Ok(())
}

/// Faults of texts, and their own texts.
const LANGUAGE_FAULTS: [(LangFault, &str); 4] = [
    (LangFault::TooLong, "TooLong"),
    (LangFault::Lex { at: 3 }, "Lex"),
    (LangFault::Syntax { at: 3 }, "Syntax"),
    (LangFault::Memory, "Memory"),
];

#[test]
fn texts_of_language_faults(rt: HostRuntime) -> Result<(), Fail> {
    for (fault, text) in &LANGUAGE_FAULTS {
        assert_text(&rt, rt.alloc(), fault, text)?;
    }
    Ok(())
}

/// Faults of programs, and their texts.
const PROGRAM_FAULTS: [(CheckFault, &str); 8] = [
    (CheckFault::TooManyFields, "TooManyFields"),
    (CheckFault::FieldTwice, "FieldTwice"),
    (CheckFault::NextTwice, "NextTwice"),
    (CheckFault::UnknownName, "UnknownName"),
    (CheckFault::NeighbourOutside, "NeighbourOutside"),
    (CheckFault::NestedAggregate, "NestedAggregate"),
    (CheckFault::TooManyAggregates, "TooManyAggregates"),
    (CheckFault::Memory, "Memory"),
];

#[test]
fn texts_of_program_faults(rt: HostRuntime) -> Result<(), Fail> {
    for (fault, text) in &PROGRAM_FAULTS {
        assert_text(&rt, rt.alloc(), fault, text)?;
    }
    Ok(())
}

/// The state with these words in the first two fields.
fn state(first: u32, second: u32) -> State {
    State {
        words: [first, second, 0, 0, 0, 0, 0, 0],
    }
}

/// A neighbour with these words in its first two fields.
fn near(id: u32, weight: u32, first: u32, second: u32) -> Near {
    Near {
        id,
        weight,
        state: state(first, second),
    }
}

/// A text with two fields and two rules.
const TWO_RULES: &[u8] = b"field s = 1; field t = 2; next s = any n.t; next t = (s + 1);";

/// Texts, and whether their programs are that of two rules.
const OTHERS: [(&str, bool); 10] = [
    (
        "next s=any n.t; field s=01; next t=(s+1); field t=2; # as before",
        true,
    ),
    (
        "field t = 2; field s = 1; next s = any n.t; next t = (s + 1);",
        false,
    ),
    (
        "field s = 1; field t = 2; next t = (s + 1); next s = any n.t;",
        false,
    ),
    (
        "field s = 1; field t = 3; next s = any n.t; next t = (s + 1);",
        false,
    ),
    (
        "field s = 1; field t = 2; next s = all n.t; next t = (s + 1);",
        false,
    ),
    (
        "field s = 1; field t = 2; next s = any n.s; next t = (s + 1);",
        false,
    ),
    (
        "field s = 1; field t = 2; next s = any n.t; next t = (1 + s);",
        false,
    ),
    ("field s = 1; field t = 2; next s = any n.t;", false),
    (
        "field s = 1; field u = 2; next s = any n.u; next u = (s + 1);",
        false,
    ),
    ("", false),
];

/// Asserts whether the program of a text is the same, from both sides.
fn assert_same(
    rt: &impl Abort,
    alloc: Global,
    one: &Program,
    text: &str,
    same: bool,
) -> Result<(), Refusal> {
    let other = program_of(alloc, text.as_bytes())?;
    assert_eq!(rt; one.same(&other), same, "{text:?}");
    assert_eq!(rt; other.same(one), same, "{text:?}");
    Ok(())
}

#[test]
fn same_programs(rt: HostRuntime) -> Result<(), Fail> {
    let one = program_of(rt.alloc(), TWO_RULES)?;
    for (text, same) in &OTHERS {
        assert_same(&rt, rt.alloc(), &one, text, *same)?;
    }
    Ok(())
}

/// What `start`, `take` and `finish` make of these neighbours, at node 4 in the step from round 2.
fn step_by_step(program: &Program, own: State, nears: &[Near; 3]) -> State {
    let mut sums: Sums = program.start();
    for near in nears {
        program.take(&mut sums, 4, 3, own, 2, near);
    }
    program.finish(4, 3, own, 2, &sums)
}

/// Asserts the state after a step, whose neighbours are taken in each of these orders.
fn assert_orders(rt: &impl Abort, program: &Program) {
    let one = near(3, 2, 10, 1);
    let two = near(5, 0, 7, 6);
    let three = near(9, 1, 10, 2);
    let own = state(10, 100);
    let want = state(30 + 3 + 6, 10 + 6 + 2);
    assert_eq!(rt; program.next(4, own, 2, &[one, two, three]), want);
    let orders = [
        [one, two, three],
        [three, one, two],
        [two, three, one],
        [three, two, one],
    ];
    for nears in &orders {
        assert_eq!(rt; step_by_step(program, own, nears), want);
    }
}

#[test]
fn neighbours_in_any_order(rt: HostRuntime) -> Result<(), Fail> {
    let text =
        b"field s = 0; field t = 0; next s = ((total (n.s * n.weight) + least n.id) + (degree * round)); next t = (s + (most n.t + count (n.s == s)));";
    assert_orders(&rt, &program_of(rt.alloc(), text)?);
    Ok(())
}
