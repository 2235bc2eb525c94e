//! Pages of rounds.
ghost use Rattle.std.specs.Prelude.{◌≡◌, ◌≢◌, All, IfOk, IfErr, None, OnOk, Some};
ghost use Rattle.serde_json.specs.Data.{no_members};
ghost use Rattle.serde_json.specs.Read.{read};
ghost use Rattle.serde_json.specs.View.{members_view, view};
ghost use Rattle.serde_json.specs.Written.{compact_text};
ghost use Rattle.run_page.specs.Pages.{rounds_members, rounds_page};
ghost use Rattle.run_page.specs.Refusals.{IsFault, rounds_refusal};

use crate::fault::PageFault;
use crate::head::put_head;
use crate::look::PageRounds;
use crate::refusals::{field_refusal, values_refusal};
use crate::settled::settled;
use crate::states::{round_numbers, states};
use crate::text::text_of;
use rounds_plan::{MOST_ROUNDS, Plan};
use run_watch::Progress;
use serde_json::{Map, Value, put};
use std::alloc::{AllocError, Global};
use std::thread::Threads;

/// Why there is no data, whatever memory there is.
#[tactic(auto, unfolding(crate::specs::Refusals::rounds_refusal))]
fn refusal(plan: &Plan, shown: &PageRounds<'_>) -> Option<PageFault>
    ensures { result ≡ rounds_refusal plan.now shown.now }
{
    let (span, look) = (shown.span, shown.look);
    if span.last() > MOST_ROUNDS {
        return Some(PageFault::TooManyRounds);
    }
    if span.first() < plan.start() {
        return Some(PageFault::RoundsBelowStart);
    }
    match field_refusal(plan, look) {
        Some(fault) => Some(fault),
        None => values_refusal(plan, look, span.steps() + 1, 0),
    }
}

/// Puts what a page says of the rounds, where nothing is said yet and nothing refuses it.
#[tactic(auto, unfolding(crate::specs::Pages::rounds_members, crate::specs::Pages::headed, crate::specs::Refusals::rounds_refusal))]
fn put_rounds<P: Progress>(
    rt: &(impl Threads + Sync),
    members: &mut Map<String, Value>,
    alloc: Global,
    plan: &Plan,
    shown: &PageRounds<'_>,
    progress: &mut P,
) -> Result<(), AllocError>
    requires blank { members_view members.old.entries ≡ no_members }
    requires fits { rounds_refusal plan.now shown.now ≡ None }
    ensures { OnOk result (members_view members.new.entries ≡ rounds_members plan.now shown.now) }
{
    put_head(members, alloc, plan, shown.look, "rounds")?;
    let rounds = round_numbers(alloc, shown.span)?;
    put(members, alloc, "rounds", rounds)?;
    let settling = settled(alloc, shown.settling)?;
    put(members, alloc, "settling", settling)?;
    let states = states(rt, alloc, plan, shown.span, shown.look.fields, progress)?;
    put(members, alloc, "states", states)
}

/// The data, where nothing refuses it.
#[tactic(auto, unfolding(crate::specs::Pages::rounds_page))]
fn page<P: Progress>(
    rt: &(impl Threads + Sync),
    alloc: Global,
    plan: &Plan,
    shown: &PageRounds<'_>,
    progress: &mut P,
) -> Result<Value, AllocError>
    requires fits { rounds_refusal plan.now shown.now ≡ None }
    ensures { IfOk result (λ v. view v ≡ rounds_page plan.now shown.now) }
{
    let mut members = Map::new(alloc);
    put_rounds(rt, &mut members, alloc, plan, shown, progress)?;
    Ok(Value::Object(members))
}

/// Its text.
fn text<P: Progress>(
    rt: &(impl Threads + Sync),
    alloc: Global,
    plan: &Plan,
    shown: &PageRounds<'_>,
    progress: &mut P,
) -> Result<Vec<u8>, AllocError>
    requires fits { rounds_refusal plan.now shown.now ≡ None }
    ensures text { IfOk result (λ v. v.items ≡ compact_text (rounds_page plan.now shown.now)) }
    ensures reads_back { IfOk result (λ v. read v.items ≡ Some (rounds_page plan.now shown.now)) }
    ensures closed { IfOk result (λ v. All (λ b. b ≢ 60) v.items) }
{
    let page = page(rt, alloc, plan, shown, progress)?;
    text_of(alloc, &page)
}

/// The data of a page that shows the rounds of a span of a plan, in one pass over the rounds, each shared among as many
/// threads as there are processors where it has enough to compute for them.
///
/// The data is a JSON object with these members, by rising name: `fields`, the names of the shown fields in the order shown;
/// `grid`, how many nodes stand in a row, 0 where they are not drawn as a grid; `legend`, for each shown field the names of its
/// values 0, 1, 2, .., none where they have no names; `links`, each link once as its two nodes, the smaller one first, and its
/// weight, by rising numbers; `manner`, the text `rounds`; `names`, the names of the nodes; `nodes`, how many there are; `phase`,
/// at which they open; `rounds`, the rounds of the span; `settling`, what becomes of the rounds, as `["settles", round]`,
/// `["repeats", round, period]` or `["open", limit]`, and empty where it is not known; and `states`, for each of these rounds the
/// values of the shown fields, node by node. Names stand as the arrays of their bytes, so that no byte of the data is a `<`.
///
/// `TooManyRounds` comes where the last round is above 1,000,000,000, else `RoundsBelowStart` where the first lies before the
/// plan's start, else `NoField` with the first place of those that are to be shown at which the program has no field, and else
/// `TooManyValues` where the rounds have more than 20,000,000 values, one for each node and shown field (where none is shown, for
/// each node), all before anything is done; `Memory` only where none of them holds.
#[tactic(auto, unfolding(crate::specs::Refusals::rounds_refusal))]
pub fn rounds_data<P: Progress>(
    rt: &(impl Threads + Sync),
    alloc: Global,
    plan: &Plan,
    shown: &PageRounds<'_>,
    progress: &mut P,
) -> Result<Vec<u8>, PageFault>
    ensures text { IfOk result (λ v. v.items ≡ compact_text (rounds_page plan.now shown.now)) }
    ensures reads_back { IfOk result (λ v. read v.items ≡ Some (rounds_page plan.now shown.now)) }
    ensures closed { IfOk result (λ v. All (λ b. b ≢ 60) v.items) }
    ensures fits { IfOk result (λ _. rounds_refusal plan.now shown.now ≡ None) }
    ensures refused { IfErr result (IsFault (rounds_refusal plan.now shown.now) (rounds_refusal plan.now shown.now)) }
{
    if let Some(fault) = refusal(plan, shown) {
        return Err(fault);
    }
    let text = text(rt, alloc, plan, shown, progress)?;
    Ok(text)
}
