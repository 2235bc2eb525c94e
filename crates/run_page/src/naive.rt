//! Pages of steps that are also made by nodes that do not wait.
ghost use Rattle.std.specs.Prelude.{◌≡◌, ◌≢◌, ◌≤◌, ◌<◌, ℕ, List, All, IfOk, IfErr, None, Some, fold, length, max};
ghost use Rattle.std.specs.Arc.{arc_value};
ghost use Rattle.rounds_plan.specs.Configs.{most_rounds};
ghost use Rattle.run_watch.specs.Spans.{rounds_in};
ghost use Rattle.serde_json.specs.Read.{read};
ghost use Rattle.serde_json.specs.View.{view};
ghost use Rattle.serde_json.specs.Written.{compact_text};
ghost use Rattle.unison_world.specs.View.{opened};
ghost use Rattle.run_page.specs.Pages.{naive_page, numbers as numbers_data, stepped_naively, writes_of, written_data};
ghost use Rattle.run_page.specs.Refusals.{IsFault, naive_refusal, opening_refusal};

use crate::fault::PageFault;
use crate::look::{Look, PageSteps};
use crate::parts::put_shown;
use crate::refusals::naive_values_refusal;
use crate::steps::{greatest_count, make, refusal, stepped};
use crate::text::text_of;
use rounds_plan::Plan;
use rule_check::State;
use run_naive::naive_writes;
use run_watch::Span;
use serde_json::{Value, put};
use std::alloc::{AllocError, Global};
use std::sync::Arc;
use std::thread::Threads;
use unison_world::{Step, World};

/// The shown values of the state to which a step moved its node, or nothing where it moved none.
fn written_value(alloc: Global, fields: &[u32], state: Option<State>) -> Result<Value, AllocError>
    ensures { IfOk result (λ v. view v ≡ written_data fields.now state) }
{
    let mut items = Vec::new(alloc);
    if let Some(state) = state {
        put_shown(&mut items, &state, fields)?;
    }
    Ok(Value::Array(items))
}

/// Those of each of these steps.
fn written_values(
    alloc: Global,
    fields: &[u32],
    states: &[Option<State>],
) -> Result<Value, AllocError>
    ensures { IfOk result (λ v. view v ≡ writes_of fields.now states.now) }
{
    let mut items = Vec::with_capacity(alloc, states.len())?;
    for state in states {
        let value = written_value(alloc, fields, *state)?;
        items.push(value)?;
    }
    Ok(Value::Array(items))
}

/// The rounds that nodes have reached: those of the world, and those that do not wait, which came up to this count.
fn reached_naively(world: &World, last: u32) -> Span
    requires few { last ≤ most_rounds }
    ensures span { result ≡ record { first = world.now.plan.start; last = max (fold max world.now.plan.start world.now.counts.moves) last; every = 1 } }
    ensures limit { result.last ≤ most_rounds }
{
    let last = greatest_count(world).max(last);
    Span::new(world.plan().start(), last, 1).unwrap()
}

/// The data of a plan's steps with these answers, and with these states to which they move nodes that do not wait.
#[tactic(auto, unfolding(crate::specs::Pages::stepped_naively, crate::specs::Pages::stepped, crate::specs::Pages::headed))]
fn page(
    rt: &(impl Threads + Sync),
    alloc: Global,
    plan: &Plan,
    shown: &PageSteps<'_>,
    answers: Value,
    states: &[Option<State>],
) -> Result<Value, AllocError>
    requires fields { All (λ place. place < length plan.now.program.fields) shown.now.look.now.fields.now }
    requires late { plan.now.start ≤ shown.now.span.now.first }
    requires few { shown.now.span.now.last ≤ most_rounds }
    ensures { IfOk result (λ v. (codes : List ℕ) → view answers ≡ numbers_data codes → view v ≡ stepped_naively plan.now shown.now.stop shown.now.steps.now shown.now.look.now codes (rounds_in shown.now.span.now) states.now) }
{
    let mut members = stepped(rt, alloc, plan, shown, answers)?;
    let written = written_values(alloc, shown.look.fields, states)?;
    put(&mut members, alloc, "written", written)?;
    Ok(Value::Object(members))
}

/// The text of steps that are made on a world before any step, and by nodes that do not wait.
#[tactic(auto, unfolding(crate::specs::Refusals::naive_refusal, crate::specs::Refusals::opening_refusal))]
fn text(
    rt: &(impl Threads + Sync),
    alloc: Global,
    world: &mut World,
    steps: &[Step],
    look: &Look<'_>,
) -> Result<Vec<u8>, PageFault>
    requires opened { world.old ≡ opened world.old.plan world.old.stop }
    requires fits { opening_refusal world.old.plan world.old.stop look.now ≡ None }
    ensures text { IfOk result (λ v. v.items ≡ compact_text (naive_page world.old.plan world.old.stop steps.now look.now)) }
    ensures reads_back { IfOk result (λ v. read v.items ≡ Some (naive_page world.old.plan world.old.stop steps.now look.now)) }
    ensures closed { IfOk result (λ v. All (λ b. b ≢ 60) v.items) }
    ensures fits { IfOk result (λ _. naive_refusal world.old.plan world.old.stop steps.now look.now ≡ None) }
    ensures refused { IfErr result (IsFault (opening_refusal world.old.plan world.old.stop look.now) (naive_refusal world.old.plan world.old.stop steps.now look.now)) }
{
    let writes = naive_writes(alloc, world.plan(), world.stop(), steps)?;
    let answers = make(alloc, world, steps)?;
    let span = reached_naively(world, writes.last);
    let rounds = span.steps() + 1;
    if let Some(fault) = naive_values_refusal(world.plan(), look, rounds, steps.len()) {
        return Err(fault);
    }
    let shown = PageSteps {
        stop: world.stop(),
        steps,
        span: &span,
        look,
    };
    let page = page(rt, alloc, world.plan(), &shown, answers, &writes.states)?;
    let text = text_of(alloc, &page)?;
    Ok(text)
}

/// The data of a page that shows steps as `steps_data` has them, and beside them the same steps by nodes that do not wait and keep
/// no state but the current one, as `run_naive` makes them.
///
/// The data is a JSON object with the members of `steps_data` and one more, `written`: for each step the shown values of the state
/// to which it moves its node where nodes do not wait, and nothing where it moves none. `rounds` go up to the greatest count that
/// nodes have after the steps, those that wait and those that do not. No byte of the data is a `<`.
///
/// `StopTooLarge` comes where the stop is above 1,000,000,000, else `StopBelowStart` where it lies before the plan's start, and
/// else `NoField` with the first place of those that are to be shown at which the program has no field, all before anything is
/// done; `TooManyValues` after the steps, where the steps, a state for each of them, and the values of the rounds are more than
/// 20,000,000 values together; `Memory` where memory was wanted and none of the first three holds.
#[tactic(auto, unfolding(crate::specs::Refusals::naive_refusal, crate::specs::Refusals::opening_refusal))]
pub fn naive_data(
    rt: &(impl Threads + Sync),
    alloc: Global,
    plan: Arc<Plan>,
    stop: u32,
    steps: &[Step],
    look: &Look<'_>,
) -> Result<Vec<u8>, PageFault>
    ensures text { IfOk result (λ v. v.items ≡ compact_text (naive_page (arc_value plan) stop steps.now look.now)) }
    ensures reads_back { IfOk result (λ v. read v.items ≡ Some (naive_page (arc_value plan) stop steps.now look.now)) }
    ensures closed { IfOk result (λ v. All (λ b. b ≢ 60) v.items) }
    ensures fits { IfOk result (λ _. naive_refusal (arc_value plan) stop steps.now look.now ≡ None) }
    ensures refused { IfErr result (IsFault (opening_refusal (arc_value plan) stop look.now) (naive_refusal (arc_value plan) stop steps.now look.now)) }
{
    if let Some(fault) = refusal(&plan, stop, look) {
        return Err(fault);
    }
    let mut world = World::new(alloc, plan, stop)?;
    let text = text(rt, alloc, &mut world, steps, look)?;
    Ok(text)
}
