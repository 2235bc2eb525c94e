//! What becomes of the rounds of a plan, as three numbers.
ghost use Rattle.std.specs.Prelude.{◌≡◌, IfErr, IfOk, OnErr, OnOk};
ghost use Rattle.app_calls.specs.Answers.{HasPlanOf, HasSettling, IsOnlySettling, IsTold};
ghost use Rattle.app_calls.specs.Refusals.{HasNoPlanOf, IsNoSettling};

use crate::fault::Fault;
use crate::plans::{PlanTexts, plan_of};
use rounds_walk::PlanRef;
use run_settle::{Settling, settle};
use std::alloc::Global;

/// What becomes of the rounds of the plan of the texts up to a limit.
fn settling_of(alloc: Global, texts: &PlanTexts<'_>, limit: u32) -> Result<Settling, Fault>
    ensures settling { IfOk result (λ s. HasPlanOf texts.now (λ p. IsOnlySettling p limit s)) }
    ensures refused { IfErr result (HasNoPlanOf texts.now (IsNoSettling limit)) }
{
    let plan = plan_of(alloc, texts)?;
    Ok(settle(alloc, &PlanRef::of_plan(&plan), limit)?)
}

/// Writes it as three numbers.
fn tell(settling: Settling, manner: &mut u32, round: &mut u32, period: &mut u32)
    ensures told { IsTold settling manner.new round.new period.new }
{
    match settling {
        Settling::Settles { round: first } => {
            *manner = 1;
            *round = first;
            *period = 0;
        }
        Settling::Repeats {
            round: first,
            period: rounds,
        } => {
            *manner = 2;
            *round = first;
            *period = rounds;
        }
        Settling::Open { limit } => {
            *manner = 3;
            *round = limit;
            *period = 0;
        }
    }
}

/// Writes what becomes of the rounds of the plan of the texts up to a limit.
pub fn write_settling(
    alloc: Global,
    texts: &PlanTexts<'_>,
    limit: u32,
    manner: &mut u32,
    round: &mut u32,
    period: &mut u32,
) -> Result<(), Fault>
    ensures written { OnOk result (HasPlanOf texts.now (λ p. HasSettling p limit manner.new round.new period.new)) }
    ensures kept { OnErr result ((manner.new ≡ manner.old) × (round.new ≡ round.old) × (period.new ≡ period.old)) }
    ensures refused { IfErr result (HasNoPlanOf texts.now (IsNoSettling limit)) }
{
    let settling = settling_of(alloc, texts, limit)?;
    tell(settling, manner, round, period);
    Ok(())
}
