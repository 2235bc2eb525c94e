//! Plans: from the texts of a program and a network, and of a report where there is one.
ghost use Rattle.std.specs.Prelude.{◌≡◌, ℕ, List, Option, Some, IfOk, IfErr};
ghost use Rattle.std.specs.Arc.{arc_value};
ghost use Rattle.rule_check.specs.Items.{rules_of};
ghost use Rattle.app_jobs.specs.Served.{HasPlan, HasResumed, IsAccepted, IsLongFirst, IsReportRefusal, IsResumedAs, IsUnwritten, RefusesProgram, RefusesTexts, given};

use crate::fault::ServeFault;
use link_net::read_network;
use report_text::read_report;
use rounds_plan::{Plan, ResumeFault};
use rule_check::{Program, check};
use rule_lang::{Source, read_program};
use std::alloc::Global;
use std::sync::Arc;

/// The items of a program's text, and the program that they are.
pub fn program_of(alloc: Global, text: &[u8]) -> Result<(Source, Program), ServeFault>
    ensures accepted { IfOk result (λ x. IsAccepted text.now x.0 × (x.1 ≡ rules_of x.0)) }
    ensures refused { IfErr result (RefusesProgram text.now) }
    ensures long { IfErr result (IsLongFirst text.now) }
    ensures unwritten { IfErr result IsUnwritten }
{
    let source = read_program(alloc, text)?;
    let program = check(alloc, &source)?;
    Ok((source, program))
}

/// The plan of the texts of a program and a network.
fn plan_of_texts(alloc: Global, program: &[u8], network: &[u8]) -> Result<Plan, ServeFault>
    ensures plan { IfOk result (HasPlan program.now network.now) }
    ensures refused { (from : Option (List ℕ)) → IfErr result (RefusesTexts program.now network.now from) }
    ensures long { IfErr result (IsLongFirst program.now) }
    ensures unwritten { IfErr result IsUnwritten }
{
    let (_source, program) = program_of(alloc, program)?;
    let file = read_network(alloc, network)?;
    Ok(Plan::new(alloc, program, file)?)
}

/// The plan that goes on from the configuration whose report the text is.
fn resumed(alloc: Global, plan: Plan, text: &[u8]) -> Result<Plan, ServeFault>
    ensures plan { IfOk result (IsResumedAs plan (Some text.now)) }
    ensures refused { IfErr result (IsReportRefusal plan text.now) }
{
    let config = read_report(alloc, &plan, text)?;
    match plan.resume(alloc, &config) {
        Ok(plan) => Ok(plan),
        Err(ResumeFault::Memory) => Err(ServeFault::Memory),
        Err(ResumeFault::Foreign) => unreachable!(),
    }
}

/// The plan of the texts of a program and a network; with the text of a report, the plan that goes on from there.
///
/// The first fault on the way is answered: of reading the program (`Lang`) and checking it (`Check`), of reading the
/// network (`Net`), of making the plan (`Plan`), of reading the report (`Report`). A program's text that is too long takes
/// no memory.
pub fn plan_from(
    alloc: Global,
    program: &[u8],
    network: &[u8],
    from: Option<&[u8]>,
) -> Result<Plan, ServeFault>
    ensures plan { IfOk result (HasResumed program.now network.now (given from.entry)) }
    ensures refused { IfErr result (RefusesTexts program.now network.now (given from.entry)) }
    ensures long { IfErr result (IsLongFirst program.now) }
    ensures unwritten { IfErr result IsUnwritten }
{
    let plan = plan_of_texts(alloc, program, network)?;
    match from {
        None => Ok(plan),
        Some(text) => resumed(alloc, plan, text),
    }
}

/// The same plan, to be shared by a world and what reports it.
pub(crate) fn shared_plan(
    alloc: Global,
    program: &[u8],
    network: &[u8],
    from: Option<&[u8]>,
) -> Result<Arc<Plan>, ServeFault>
    ensures plan { IfOk result (λ p. HasResumed program.now network.now (given from.entry) (arc_value p)) }
    ensures refused { IfErr result (RefusesTexts program.now network.now (given from.entry)) }
    ensures long { IfErr result (IsLongFirst program.now) }
    ensures unwritten { IfErr result IsUnwritten }
{
    let plan = plan_from(alloc, program, network, from)?;
    Ok(Arc::new(alloc, plan)?)
}
