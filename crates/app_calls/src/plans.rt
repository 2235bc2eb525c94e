//! The plan of a call's texts, and its shape.
ghost use Rattle.std.specs.Prelude.{◌≡◌, ◌≤◌, IfOk, IfErr};
ghost use Rattle.app_jobs.specs.Served.{HasResumed, RefusesTexts, given};
ghost use Rattle.app_calls.specs.Answers.{HasShape, report_in};
ghost use Rattle.app_calls.specs.Refusals.{word_count};

use app_jobs::{ServeFault, plan_from};
use rounds_plan::Plan;
use std::alloc::Global;

/// The text of a report to go on from; an empty one is none.
pub(crate) fn report_in(from: &[u8]) -> Option<&[u8]>
    ensures { given result ≡ report_in from.now }
{
    if from.is_empty() { None } else { Some(from) }
}

/// The texts of a plan: a program, a network, and a report to go on from, which is empty where there is none.
#[derive(Clone, Copy)]
pub struct PlanTexts<'a> {
    pub program: &'a [u8],
    pub network: &'a [u8],
    pub from: &'a [u8],
}

/// The plan of the texts.
pub(crate) fn plan_of(alloc: Global, texts: &PlanTexts<'_>) -> Result<Plan, ServeFault>
    ensures plan { IfOk result (HasResumed texts.now.program.now texts.now.network.now (report_in texts.now.from.now)) }
    ensures refused { IfErr result (RefusesTexts texts.now.program.now texts.now.network.now (report_in texts.now.from.now)) }
{
    let plan = plan_from(alloc, texts.program, texts.network, report_in(texts.from))?;
    Ok(plan)
}

/// Writes how many nodes and fields the plan has.
pub(crate) fn put_shape(plan: &Plan, nodes: &mut u32, fields: &mut u32)
    ensures shape { HasShape plan.now nodes.new fields.new }
{
    *nodes = plan.network().nodes();
    *fields = plan.program().field_count();
}

/// How many words the plan's nodes have.
pub(crate) fn word_count(plan: &Plan) -> usize
    ensures count { result ≡ word_count plan.now }
    ensures few { result ≤ 524288 }
{
    // For the proof: what holds of every plan.
    let _phase = plan.phase();
    let nodes = plan.network().nodes() as usize;
    let fields = plan.program().field_count() as usize;
    nodes * fields
}
