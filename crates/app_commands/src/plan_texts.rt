//! Plans of the texts that the words name.

use crate::arguments::PlanPaths;
use crate::notes::put_program_notes;
use app_files::{
    Ending, NamedProgram, bytes_where, named_program_at, network_at, path_in, program_at, read_once,
};
use app_jobs::plan_from;
use rounds_plan::{Plan, PlanRef};
use std::alloc::Global;
use std::sync::Arc;

/// Refuses standard input for more than one of the texts: those of a plan, and three others, each of which may be none, "".
pub fn read_plan_once(
    alloc: Global,
    plan: &PlanPaths,
    first: &str,
    second: &str,
    third: &str,
) -> Result<(), Ending> {
    let paths = [
        plan.program.as_str(),
        plan.network.as_str(),
        path_in(&plan.from),
        first,
        second,
        third,
    ];
    read_once(alloc, &paths)
}

/// The plan of these texts.
pub(crate) fn plan_of(
    alloc: Global,
    program: &[u8],
    network: &[u8],
    report: &Option<Vec<u8>>,
) -> Result<Plan, Ending> {
    let report = match report {
        Some(bytes) => Some(bytes.as_slice()),
        None => None,
    };
    match plan_from(alloc, program, network, report) {
        Ok(plan) => Ok(plan),
        Err(fault) => Err(Ending::Served(fault)),
    }
}

/// The plan of a program's text and of the network and the report at these paths.
pub(crate) fn plan_with(
    rt: &HostRuntime,
    paths: &PlanPaths,
    program: &[u8],
) -> Result<Plan, Ending> {
    let network = network_at(rt, paths.network.as_str())?;
    let report = bytes_where(rt, &paths.from)?;
    plan_of(rt.alloc(), program, &network, &report)
}

/// The plan of the texts at these paths.
pub fn plan_at(rt: &HostRuntime, paths: &PlanPaths) -> Result<Plan, Ending> {
    let program = program_at(rt, paths.program.as_str(), &paths.constants)?;
    plan_with(rt, paths, &program)
}

/// A plan, and the names of the values of its program's fields.
#[derive(Drop)]
pub struct NamedPlan {
    pub plan: Plan,
    /// For each field, in order, the names of its values, 0 and so on; none where it has no states.
    pub names: Vec<Vec<String>>,
}

/// The plan of this program and of the network and the report at these paths, with the names of the values of its fields.
fn named_plan_with(
    rt: &HostRuntime,
    paths: &PlanPaths,
    program: NamedProgram,
) -> Result<NamedPlan, Ending> {
    let plan = plan_with(rt, paths, &program.text)?;
    let NamedProgram { names, .. } = program;
    Ok(NamedPlan { plan, names })
}

/// The plan of this program and of the network and the report at these paths, where notes on the program are printed unless
/// they are left out.
fn noted_plan_with(
    rt: &HostRuntime,
    paths: &PlanPaths,
    program: NamedProgram,
    quiet: bool,
) -> Result<NamedPlan, Ending> {
    let plan = plan_with(rt, paths, &program.text)?;
    if !quiet {
        let path = paths.program.as_str();
        put_program_notes(rt, path, &program, &PlanRef::of_plan(&plan))?;
    }
    let NamedProgram { names, .. } = program;
    Ok(NamedPlan { plan, names })
}

/// The plan of the texts at these paths, with the names of the values of its program's fields. Notes on the program are
/// printed on standard error before anything is computed, unless they are left out.
pub fn noted_plan_at(
    rt: &HostRuntime,
    paths: &PlanPaths,
    quiet: bool,
) -> Result<NamedPlan, Ending> {
    let program = named_program_at(rt, paths.program.as_str(), &paths.constants)?;
    noted_plan_with(rt, paths, program, quiet)
}

/// The plan of the texts at these paths, with the names of the values of its program's fields.
pub fn named_plan_at(rt: &HostRuntime, paths: &PlanPaths) -> Result<NamedPlan, Ending> {
    let program = named_program_at(rt, paths.program.as_str(), &paths.constants)?;
    named_plan_with(rt, paths, program)
}

/// The plan of the texts at these paths, to be shared.
pub fn shared_plan(rt: &HostRuntime, paths: &PlanPaths) -> Result<Arc<Plan>, Ending> {
    let plan = plan_at(rt, paths)?;
    let plan = Arc::new(rt.alloc(), plan)?;
    Ok(plan)
}
