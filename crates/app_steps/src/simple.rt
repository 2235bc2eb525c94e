//! Plans on networks whose nodes can move at their own pace: those whose links lead both ways.

use app_files::{Ending, name_at};
use link_net::{NetRows, SimpleFault};
use rounds_plan::{PlanRef, SimplePlan};
use std::alloc::{AllocError, Global};

/// The name of a fault, and what is wrong.
type Told = (&'static str, String);

/// What is wrong where the neighbours of a node do not rise at a slot.
fn unordered_at(
    alloc: Global,
    rows: &NetRows<'_>,
    node: u32,
    slot: u32,
) -> Result<Told, AllocError> {
    let neighbour = rows.neighbour_of(node, slot);
    if neighbour == node {
        let told = format!(in alloc; "a link joins node {node} with itself")?;
        return Ok(("SelfLink", told));
    }
    if slot > 0 && rows.neighbour_of(node, slot - 1) == neighbour {
        let told = format!(in alloc; "two links join node {node} and node {neighbour}")?;
        return Ok(("LinkTwice", told));
    }
    let told = format!(in alloc; "the neighbours of node {node} do not stand by rising number")?;
    Ok(("Unordered", told))
}

/// What is wrong with rows.
fn told_of(alloc: Global, rows: &NetRows<'_>, fault: SimpleFault) -> Result<Told, AllocError> {
    match fault {
        SimpleFault::Unordered { node, slot } => unordered_at(alloc, rows, node, slot),
        SimpleFault::OneWay { node, slot } => {
            let neighbour = rows.neighbour_of(node, slot);
            let told = format!(in alloc;
                "node {node} has a link to node {neighbour} that node {neighbour} does not have, or has with another weight"
            )?;
            Ok(("OneWay", told))
        }
    }
}

/// The ending where the network at a path has rows that are no simple network.
fn not_simple(alloc: Global, path: &str, rows: &NetRows<'_>, fault: SimpleFault) -> Ending {
    let name = name_at(path);
    match told_of(alloc, rows, fault) {
        Ok((kind, told)) => Ending::refused(format!(in alloc;
            "network {kind}\n{name}: {told}; this command takes networks whose links lead both ways, with one weight, and join two nodes once"
        )),
        Err(_) => Ending::Memory,
    }
}

/// A plan on the network at a path, whose nodes are to move at their own pace.
pub(crate) fn simple_plan<'a>(
    alloc: Global,
    path: &str,
    plan: PlanRef<'a>,
) -> Result<SimplePlan<'a>, Ending> {
    let rows = plan.rows();
    match SimplePlan::new(plan) {
        Ok(plan) => Ok(plan),
        Err(fault) => Err(not_simple(alloc, path, &rows, fault)),
    }
}
