//! Rounds that are watched.
ghost use Rattle.std.specs.Prelude.{◌≡◌, ◌≢◌, ◌≤◌, ◌<◌, ◌++◌, [], All, Err, IfOk, IfErr, MatchOption, None, OnOk, Some, codes, length, slice_index_or, string_bytes};
ghost use Rattle.std.specs.List.{flat_map};
ghost use Rattle.rule_check.specs.Value.{names_of};
ghost use Rattle.rounds_plan.specs.Configs.{most_rounds};
ghost use Rattle.rounds_plan.specs.Lockstep.{lockstep_config};
ghost use Rattle.run_watch.specs.declared.fault.WatchFault.TheVariants.{Memory};
ghost use Rattle.run_watch.specs.Spans.{rounds_in};
ghost use Rattle.run_watch.specs.Watching.{missing_of, opening_text, part_text, parts_text, refusal_of, states_in, watch_text};

use crate::fault::WatchFault;
use crate::parts::put_part;
use crate::rows::name_at;
use crate::show::{Format, Show};
use crate::span::Span;
use crate::workers::Workers;
use rounds_plan::{MOST_ROUNDS, RoundStates};
use rounds_walk::{PlanRef, RoundWalk, Start};
use rule_check::{Program, State};
use std::alloc::{AllocError, Global};
use std::thread::Threads;

/// Who is told how far the rounds are.
pub trait Progress {
    /// The text of this round stands.
    fn reached(&mut self, round: u32);
}

/// The first of the places that is none of so many fields.
pub fn missing_of(count: u32, places: &[u32]) -> Option<u32>
    ensures { result ≡ missing_of count places.now }
{
    for place in places {
        if *place >= count {
            return Some(*place);
        }
    }
    None
}

/// Why the rounds cannot be watched, whatever memory there is.
fn refusal(plan: &PlanRef<'_>, span: &Span, show: &Show<'_>) -> Option<WatchFault>
    ensures { result ≡ refusal_of plan.now span.now show.now }
{
    if span.last() > MOST_ROUNDS {
        return Some(WatchFault::TooManyRounds);
    }
    if span.first() < plan.start() {
        return Some(WatchFault::RoundsBelowStart);
    }
    let place = missing_of(plan.program().field_count(), show.fields)?;
    Some(WatchFault::NoField { place })
}

/// The names of the shown fields.
fn put_names(out: &mut String, show: &Show<'_>, program: &Program) -> Result<(), AllocError>
    requires fields { All (λ place. place < length program.now.fields) show.now.fields.now }
    ensures text { OnOk result (string_bytes out.new ≡ string_bytes out.old ++ flat_map (λ k. codes "," ++ slice_index_or (names_of program.now) k []) show.now.fields.now) }
{
    for place in show.fields {
        out.push_str(",")?;
        out.push_str(name_at(program, *place))?;
    }
    Ok(())
}

/// The headings, in CSV.
fn put_opening(out: &mut String, show: &Show<'_>, program: &Program) -> Result<(), AllocError>
    requires fields { All (λ place. place < length program.now.fields) show.now.fields.now }
    ensures text { OnOk result (string_bytes out.new ≡ string_bytes out.old ++ opening_text show.now (names_of program.now)) }
{
    if show.format != Format::Csv {
        return Ok(());
    }
    out.push_str("round,node")?;
    put_names(out, show, program)?;
    out.push_str("\n")
}

/// The states of a configuration, or none.
fn states_in(config: &Option<RoundStates>) -> &[State]
    ensures { result.now ≡ states_in config.now }
{
    match config {
        Some(config) => config.states(),
        None => &[],
    }
}

/// Goes on to a round, and puts it as it is shown after what stands in the text. Its configuration.
fn put_round(
    rt: &(impl Threads + Sync),
    alloc: Global,
    out: &mut String,
    plan: &PlanRef<'_>,
    walk: &mut RoundWalk<'_>,
    round: u32,
    show: &Show<'_>,
    before: &[State],
) -> Result<RoundStates, AllocError>
    requires plan { walk.old.plan ≡ plan.now }
    requires late { walk.old.round ≤ round }
    requires few { round ≤ most_rounds }
    requires fields { All (λ place. place < length plan.now.program.fields) show.now.fields.now }
    ensures config { IfOk result (λ config. config ≡ lockstep_config plan.now round) }
    ensures text { OnOk result (string_bytes out.new ≡ string_bytes out.old ++ part_text show.now (names_of plan.now.program) before.now (lockstep_config plan.now round)) }
    ensures walk { OnOk result (walk.new ≡ record { plan = walk.old.plan; round = round }) }
{
    walk.go_to_shared(rt, round);
    let config = walk.round_states(alloc)?;
    put_part(out, show, plan.program(), before, &config)?;
    Ok(config)
}

/// Puts the rounds of a span after what stands in the text, in one pass.
fn put_rounds<P: Progress>(
    rt: &(impl Threads + Sync),
    alloc: Global,
    out: &mut String,
    plan: &PlanRef<'_>,
    walk: &mut RoundWalk<'_>,
    span: &Span,
    show: &Show<'_>,
    progress: &mut P,
) -> Result<(), AllocError>
    requires plan { walk.old.plan ≡ plan.now }
    requires late { walk.old.round ≤ span.now.first }
    requires few { span.now.last ≤ most_rounds }
    requires fields { All (λ place. place < length plan.now.program.fields) show.now.fields.now }
    ensures text { OnOk result (string_bytes out.new ≡ string_bytes out.old ++ parts_text plan.now show.now [] (rounds_in span.now)) }
{
    let mut before: Option<RoundStates> = None;
    for place in 0..span.steps() + 1 {
        let round = span.round_at(place);
        let config = put_round(rt, alloc, out, plan, walk, round, show, states_in(&before))?;
        progress.reached(round);
        before = Some(config);
    }
    Ok(())
}

/// The text of the rounds, by a walk that stands at the plan's start.
fn walk_text<P: Progress>(
    rt: &(impl Threads + Sync),
    alloc: Global,
    plan: &PlanRef<'_>,
    walk: &mut RoundWalk<'_>,
    span: &Span,
    show: &Show<'_>,
    progress: &mut P,
) -> Result<Vec<u8>, AllocError>
    requires fits { refusal_of plan.now span.now show.now ≡ None }
    requires start { walk.old ≡ record { plan = plan.now; round = plan.now.start } }
    ensures text { IfOk result (λ v. v.items ≡ watch_text plan.now span.now show.now) }
{
    let mut out = String::new(alloc);
    put_opening(&mut out, show, plan.program())?;
    put_rounds(rt, alloc, &mut out, plan, walk, span, show, progress)?;
    Ok(out.into_bytes())
}

/// The text of the rounds, where nothing refuses them.
fn text_of<R: Threads + Sync, P: Progress>(
    workers: &Workers<'_, R>,
    alloc: Global,
    plan: &PlanRef<'_>,
    span: &Span,
    show: &Show<'_>,
    progress: &mut P,
) -> Result<Vec<u8>, AllocError>
    requires fits { refusal_of plan.now span.now show.now ≡ None }
    ensures text { IfOk result (λ v. v.items ≡ watch_text plan.now span.now show.now) }
{
    let start = Start::new(alloc, plan)?;
    let mut walk = start.shared_walk(alloc, workers.count)?;
    walk_text(workers.rt, alloc, plan, &mut walk, span, show, progress)
}

/// The text of the rounds of a span of a plan, however many nodes it has, in one pass over the rounds: none is computed
/// twice. Each round is shared among the workers where it has enough to compute for them. What a reader of a line gets back,
/// `csv_is_read_back` and `json_is_read_back` say, and of a report `whole_parts_are_reports`.
///
/// `TooManyRounds` comes where the last round is above 1,000,000,000, else `RoundsBelowStart` where the first lies
/// before the plan's start, and else `NoField` with the first place of those that are to be shown at which the program
/// has no field, all before anything is done; `Memory` only where none of them holds.
pub fn watched<R: Threads + Sync, P: Progress>(
    workers: &Workers<'_, R>,
    alloc: Global,
    plan: &PlanRef<'_>,
    span: &Span,
    show: &Show<'_>,
    progress: &mut P,
) -> Result<Vec<u8>, WatchFault>
    ensures text { IfOk result (λ v. v.items ≡ watch_text plan.now span.now show.now) }
    ensures fits { IfOk result (λ _. refusal_of plan.now span.now show.now ≡ None) }
    ensures refused { IfErr result (λ fault. fault ≢ Memory → refusal_of plan.now span.now show.now ≡ Some fault) }
    ensures at_once { MatchOption (refusal_of plan.now span.now show.now) (Unit {0}) (λ fault. result ≡ Err fault) }
{
    if let Some(fault) = refusal(plan, span, show) {
        return Err(fault);
    }
    let text = text_of(workers, alloc, plan, span, show, progress)?;
    Ok(text)
}
