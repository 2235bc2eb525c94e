//! The line of a difference, which no comparison of the programs comes to.

use crate::fixtures::networks::PAIR;
use crate::fixtures::programs::SWAP;
use app_jobs::{ServeFault, difference_line};
use link_net::read_network;
use lockstep::{Difference, Plan};
use rule_check::check;
use rule_lang::read_program;
use std::alloc::Global;
use std::process::Abort;
use std::test::Fail;

/// The plan of the texts of a program and a network.
fn plan_of(alloc: Global, program: &str, network: &str) -> Result<Plan, ServeFault> {
    let source = read_program(alloc, program.as_bytes())?;
    let program = check(alloc, &source)?;
    let file = read_network(alloc, network.as_bytes())?;
    Ok(Plan::new(alloc, program, file)?)
}

/// The line of a difference at node 1 in the second field.
fn told(alloc: Global, plan: &Plan) -> Result<Vec<u8>, Fail> {
    let difference = Difference {
        node: 1,
        field: 1,
        left: 5,
        right: 7,
    };
    let inside = difference.node < plan.network().nodes()
        && difference.field < plan.program().field_count();
    if !inside {
        return Err(Fail::from("no such place"));
    }
    Ok(difference_line(alloc, plan, &difference)?)
}

/// A difference is told with the node, the field's name and both values.
#[test]
fn told_difference(rt: HostRuntime) -> Result<(), Fail> {
    let plan = plan_of(rt.alloc(), "field dist = 0; field s = 0;", PAIR)?;
    let line = told(rt.alloc(), &plan)?;
    assert_eq!(rt;
        line.as_slice(),
        b"node 1 field s lockstep 5 run 7\n".as_slice()
    );
    Ok(())
}

/// Asserts the line of a difference at node 1 of the pair.
fn assert_line_of_pair(rt: &impl Abort, alloc: Global) -> Result<(), ServeFault> {
    let plan = plan_of(alloc, SWAP, PAIR)?;
    assert_eq!(rt; plan.network().nodes(), 2);
    assert_eq!(rt; plan.program().field_count(), 1);
    let difference = Difference {
        node: 1,
        field: 0,
        left: 5,
        right: 7,
    };
    let line = difference_line(alloc, &plan, &difference)?;
    assert_eq!(rt;
        line.as_slice(),
        b"node 1 field s lockstep 5 run 7\n".as_slice()
    );
    Ok(())
}

#[test]
fn difference_line_where_memory_is_refused(rt: HostRuntime) -> Result<(), Fail> {
    let said = match assert_line_of_pair(&rt, rt.alloc()) {
        Ok(()) => "answer",
        Err(fault) if fault.part_and_name() == ("memory", "Memory") => "memory",
        Err(fault) => return Err(Fail::from(fault)),
    };
    println!(rt; "{said}")?;
    Ok(())
}
