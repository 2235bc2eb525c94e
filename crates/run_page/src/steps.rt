//! Pages of steps.
ghost use Rattle.std.specs.Prelude.{◌≡◌, ◌≢◌, ◌≤◌, ◌<◌, ℕ, List, All, IfOk, IfErr, None, OnOk, Some, fold, length, map, max};
ghost use Rattle.std.specs.Arc.{arc_value};
ghost use Rattle.rounds_plan.specs.Configs.{most_rounds};
ghost use Rattle.run_watch.specs.Spans.{rounds_in};
ghost use Rattle.serde_json.specs.Data.{no_members, object};
ghost use Rattle.serde_json.specs.Read.{read};
ghost use Rattle.serde_json.specs.View.{members_view, view};
ghost use Rattle.serde_json.specs.Written.{compact_text};
ghost use Rattle.unison_world.specs.Counting.{answers, run};
ghost use Rattle.unison_world.specs.View.{opened, with_counts};
ghost use Rattle.run_page.specs.Pages.{code_of, listed, numbers as numbers_data, reached, step_data, stepped, steps_page};
ghost use Rattle.run_page.specs.Refusals.{IsFault, opening_refusal, steps_refusal};

use crate::fault::PageFault;
use crate::head::put_head;
use crate::look::{Look, PageSteps};
use crate::parts::numbers;
use crate::refusals::{field_refusal, values_refusal};
use crate::states::{round_numbers, states};
use crate::text::text_of;
use rounds_plan::{MOST_ROUNDS, Plan};
use run_watch::{Progress, Span};
use serde_json::{Map, Value, put};
use std::alloc::{AllocError, Global};
use std::sync::Arc;
use std::thread::Threads;
use unison_world::{Answer, Step, World, moves};

/// Nobody is told how far the rounds are.
#[derive(Drop)]
struct Untold;

impl Progress for Untold {
    fn reached(&mut self, _round: u32) {}
}

/// Why there is no data, whatever memory there is, by what is known before the first step.
#[tactic(auto, unfolding(crate::specs::Refusals::opening_refusal))]
pub(crate) fn refusal(plan: &Plan, stop: u32, look: &Look<'_>) -> Option<PageFault>
    ensures { result ≡ opening_refusal plan.now stop look.now }
{
    if stop > MOST_ROUNDS {
        return Some(PageFault::StopTooLarge);
    }
    if stop < plan.start() {
        return Some(PageFault::StopBelowStart);
    }
    field_refusal(plan, look)
}

/// The number that stands for an answer.
fn code_of(answer: Answer) -> u32
    ensures { result ≡ code_of answer }
{
    match answer {
        Answer::Taken => 0,
        Answer::Moved => 1,
        Answer::Behind => 2,
        Answer::Already => 3,
        Answer::NotReady => 4,
        Answer::Stopped => 5,
        Answer::NoNode => 6,
        Answer::NoSlot => 7,
    }
}

/// Makes the steps; the numbers of their answers.
pub(crate) fn make(alloc: Global, world: &mut World, steps: &[Step]) -> Result<Value, AllocError>
    ensures answers { IfOk result (λ v. view v ≡ numbers_data (map code_of (answers world.old.plan.network world.old.stop world.old.counts steps.now))) }
    ensures made { OnOk result (world.new ≡ with_counts world.old (run world.old.plan.network world.old.stop world.old.counts steps.now)) }
{
    let mut items = Vec::with_capacity(alloc, steps.len())?;
    for step in steps {
        let answer = world.step(*step);
        items.push(Value::from(code_of(answer)))?;
    }
    Ok(Value::Array(items))
}

/// The greatest count, from the plan's start on.
pub(crate) fn greatest_count(world: &World) -> u32
    ensures count { result ≡ fold max world.now.plan.start world.now.counts.moves }
    ensures late { world.now.plan.start ≤ result }
    ensures limit { result ≤ most_rounds }
{
    // For the proof alone: the call tells what holds of every plan.
    let _phase = world.plan().phase();
    let mut greatest = world.plan().start();
    for node in 0..world.nodes() {
        greatest = greatest.max(moves(world, node));
    }
    greatest
}

/// The rounds that the nodes have reached.
fn reached(world: &World) -> Span
    ensures span { result ≡ record { first = world.now.plan.start; last = fold max world.now.plan.start world.now.counts.moves; every = 1 } }
    ensures limit { result.last ≤ most_rounds }
{
    Span::new(world.plan().start(), greatest_count(world), 1).unwrap()
}

/// A step.
fn step_value(alloc: Global, step: Step) -> Result<Value, AllocError>
    ensures { IfOk result (λ v. view v ≡ step_data step) }
{
    match step {
        Step::Read { node, slot } => numbers(alloc, &[node, slot]),
        Step::Write { node } => numbers(alloc, &[node]),
    }
}

/// The steps.
fn step_values(alloc: Global, steps: &[Step]) -> Result<Value, AllocError>
    ensures { IfOk result (λ v. view v ≡ listed (map step_data steps.now)) }
{
    let mut items = Vec::with_capacity(alloc, steps.len())?;
    for step in steps {
        let value = step_value(alloc, *step)?;
        items.push(value)?;
    }
    Ok(Value::Array(items))
}

/// Puts what is said of a plan's steps with these answers, where nothing is said yet.
#[tactic(auto, unfolding(crate::specs::Pages::stepped, crate::specs::Pages::headed))]
fn put_stepped(
    rt: &(impl Threads + Sync),
    members: &mut Map<String, Value>,
    alloc: Global,
    plan: &Plan,
    shown: &PageSteps<'_>,
    answers: Value,
) -> Result<(), AllocError>
    requires blank { members_view members.old.entries ≡ no_members }
    requires fields { All (λ place. place < length plan.now.program.fields) shown.now.look.now.fields.now }
    requires late { plan.now.start ≤ shown.now.span.now.first }
    requires few { shown.now.span.now.last ≤ most_rounds }
    ensures { OnOk result ((codes : List ℕ) → view answers ≡ numbers_data codes → members_view members.new.entries ≡ stepped plan.now shown.now.stop shown.now.steps.now shown.now.look.now codes (rounds_in shown.now.span.now) no_members) }
{
    put_head(members, alloc, plan, shown.look, "steps")?;
    put(members, alloc, "answers", answers)?;
    let rounds = round_numbers(alloc, shown.span)?;
    put(members, alloc, "rounds", rounds)?;
    let fields = shown.look.fields;
    let states = states(rt, alloc, plan, shown.span, fields, &mut Untold)?;
    put(members, alloc, "states", states)?;
    let steps = step_values(alloc, shown.steps)?;
    put(members, alloc, "steps", steps)?;
    put(members, alloc, "stop", Value::from(shown.stop))
}

/// What is said of a plan's steps with these answers.
pub(crate) fn stepped(
    rt: &(impl Threads + Sync),
    alloc: Global,
    plan: &Plan,
    shown: &PageSteps<'_>,
    answers: Value,
) -> Result<Map<String, Value>, AllocError>
    requires fields { All (λ place. place < length plan.now.program.fields) shown.now.look.now.fields.now }
    requires late { plan.now.start ≤ shown.now.span.now.first }
    requires few { shown.now.span.now.last ≤ most_rounds }
    ensures { IfOk result (λ m. (codes : List ℕ) → view answers ≡ numbers_data codes → members_view m.entries ≡ stepped plan.now shown.now.stop shown.now.steps.now shown.now.look.now codes (rounds_in shown.now.span.now) no_members) }
{
    let mut members = Map::new(alloc);
    put_stepped(rt, &mut members, alloc, plan, shown, answers)?;
    Ok(members)
}

/// The data of a plan's steps with these answers.
fn page(
    rt: &(impl Threads + Sync),
    alloc: Global,
    plan: &Plan,
    shown: &PageSteps<'_>,
    answers: Value,
) -> Result<Value, AllocError>
    requires fields { All (λ place. place < length plan.now.program.fields) shown.now.look.now.fields.now }
    requires late { plan.now.start ≤ shown.now.span.now.first }
    requires few { shown.now.span.now.last ≤ most_rounds }
    ensures { IfOk result (λ v. (codes : List ℕ) → view answers ≡ numbers_data codes → view v ≡ object (stepped plan.now shown.now.stop shown.now.steps.now shown.now.look.now codes (rounds_in shown.now.span.now) no_members)) }
{
    let members = stepped(rt, alloc, plan, shown, answers)?;
    Ok(Value::Object(members))
}

/// The text of steps that are made on a world before any step.
#[tactic(auto, unfolding(crate::specs::Refusals::steps_refusal, crate::specs::Refusals::opening_refusal))]
fn text(
    rt: &(impl Threads + Sync),
    alloc: Global,
    world: &mut World,
    steps: &[Step],
    look: &Look<'_>,
) -> Result<Vec<u8>, PageFault>
    requires opened { world.old ≡ opened world.old.plan world.old.stop }
    requires fits { opening_refusal world.old.plan world.old.stop look.now ≡ None }
    ensures text { IfOk result (λ v. v.items ≡ compact_text (steps_page world.old.plan world.old.stop steps.now look.now)) }
    ensures reads_back { IfOk result (λ v. read v.items ≡ Some (steps_page world.old.plan world.old.stop steps.now look.now)) }
    ensures closed { IfOk result (λ v. All (λ b. b ≢ 60) v.items) }
    ensures fits { IfOk result (λ _. steps_refusal world.old.plan world.old.stop steps.now look.now ≡ None) }
    ensures refused { IfErr result (IsFault (opening_refusal world.old.plan world.old.stop look.now) (steps_refusal world.old.plan world.old.stop steps.now look.now)) }
{
    let answers = make(alloc, world, steps)?;
    let span = reached(world);
    if let Some(fault) = values_refusal(world.plan(), look, span.steps() + 1, steps.len()) {
        return Err(fault);
    }
    let shown = PageSteps {
        stop: world.stop(),
        steps,
        span: &span,
        look,
    };
    let page = page(rt, alloc, world.plan(), &shown, answers)?;
    let text = text_of(alloc, &page)?;
    Ok(text)
}

/// The data of a page that shows steps, made in order on a world of the plan whose nodes move up to a stop. Answers that change
/// nothing do not stop it.
///
/// The data is a JSON object with the members of `rounds_data` but for `settling`, and three more, by rising name: `answers`, the
/// number of the answer to each step: 0 `Taken`, 1 `Moved`, 2 `Behind`, 3 `Already`, 4 `NotReady`, 5 `Stopped`, 6 `NoNode`,
/// 7 `NoSlot`; `manner` is the text `steps`; `rounds` are those from the plan's start up to the greatest count after the steps, and
/// `states` the states of the lockstep rounds: a node that has moved so many times shows its state of that round; `steps`, each
/// read as `[node, slot]` and each write as `[node]`; and `stop`. No byte of the data is a `<`.
///
/// `StopTooLarge` comes where the stop is above 1,000,000,000, else `StopBelowStart` where it lies before the plan's start, and
/// else `NoField` with the first place of those that are to be shown at which the program has no field, all before anything is
/// done; `TooManyValues` after the steps, where the steps and the values of the rounds are more than 20,000,000 together; `Memory`
/// where memory was wanted and none of the first three holds.
#[tactic(auto, unfolding(crate::specs::Refusals::steps_refusal, crate::specs::Refusals::opening_refusal))]
pub fn steps_data(
    rt: &(impl Threads + Sync),
    alloc: Global,
    plan: Arc<Plan>,
    stop: u32,
    steps: &[Step],
    look: &Look<'_>,
) -> Result<Vec<u8>, PageFault>
    ensures text { IfOk result (λ v. v.items ≡ compact_text (steps_page (arc_value plan) stop steps.now look.now)) }
    ensures reads_back { IfOk result (λ v. read v.items ≡ Some (steps_page (arc_value plan) stop steps.now look.now)) }
    ensures closed { IfOk result (λ v. All (λ b. b ≢ 60) v.items) }
    ensures fits { IfOk result (λ _. steps_refusal (arc_value plan) stop steps.now look.now ≡ None) }
    ensures refused { IfErr result (IsFault (opening_refusal (arc_value plan) stop look.now) (steps_refusal (arc_value plan) stop steps.now look.now)) }
{
    if let Some(fault) = refusal(&plan, stop, look) {
        return Err(fault);
    }
    let mut world = World::new(alloc, plan, stop)?;
    let text = text(rt, alloc, &mut world, steps, look)?;
    Ok(text)
}
