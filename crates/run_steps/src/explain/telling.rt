//! Lists of steps that are told.
ghost use Rattle.std.specs.Prelude.{◌≡◌, ◌++◌, ◌<◌, ◌^◌, Ok, IfOk, IfErr, OnOk, string_bytes};
ghost use Rattle.std.specs.Option.{option_map};
ghost use Rattle.unison_world.specs.Counting.{answers, run};
ghost use Rattle.unison_world.specs.Opening.{opening_of};
ghost use Rattle.unison_world.specs.View.{answer_in, opened, with_counts, world_after};
ghost use Rattle.run_steps.specs.explain.Differences.{greatest_difference};
ghost use Rattle.run_steps.specs.Previous.{HasPrevious};
ghost use Rattle.run_steps.specs.explain.Summaries.{answered_in, total};
ghost use Rattle.run_steps.specs.explain.Telling.{IsTellFault, counts_line, counts_part, slot_words, step_line, step_lines, step_words, told_text};

use crate::explain::answered::Answered;
use crate::explain::differences::difference_after;
use crate::explain::registers::make;
use crate::explain::sentences::tell_sentence;
use crate::explain::show::Show;
use crate::explain::summary::{Way, put_summary};
use crate::explain::words::{put_answer, put_step};
use crate::previous::opening_states;
use net_names::NodeNames;
use rounds_plan::SimplePlan;
use rule_check::State;
use std::alloc::{AllocError, Global};
use unison_world::{Answer, OpenFault, Step, WorldRef};

/// The line of all counts.
fn put_counts(out: &mut String, world: &WorldRef<'_>) -> Result<(), AllocError>
    ensures line { OnOk result (string_bytes out.new ≡ string_bytes out.old ++ counts_line world.now.counts) }
{
    out.push_str("  counts")?;
    for node in 0..world.nodes() {
        let count = world.moves(node);
        write!(out, " {count}")?;
    }
    out.push_str("\n")
}

/// The line of all counts, where it is asked for.
fn put_counts_asked(out: &mut String, world: &WorldRef<'_>, counts: bool) -> Result<(), AllocError>
    ensures part { OnOk result (string_bytes out.new ≡ string_bytes out.old ++ counts_part counts world.now.counts) }
{
    if counts {
        put_counts(out, world)
    } else {
        Ok(())
    }
}

/// A step by slots, and its answer by the counts before it; the step is made then.
fn tell_slots(
    out: &mut String,
    world: &mut WorldRef<'_>,
    previous: &mut [State],
    step: Step,
) -> Result<Answer, AllocError>
    requires previous { HasPrevious world.old previous.old }
    ensures words { OnOk result (string_bytes out.new ≡ string_bytes out.old ++ slot_words world.old.plan.network world.old.stop world.old.counts step) }
    ensures answer { IfOk result (λ answer. answer ≡ answer_in world.old step) }
    ensures after { OnOk result (world.new ≡ world_after world.old step) }
    ensures previous { OnOk result (HasPrevious world.new previous.new) }
{
    let answer = world.ask(step);
    put_step(out, step)?;
    out.push_str("  ")?;
    put_answer(out, world, step, answer)?;
    Ok(make(world, previous, step))
}

/// What a step does, which is made.
fn tell(
    out: &mut String,
    world: &mut WorldRef<'_>,
    previous: &mut [State],
    names: Option<&NodeNames>,
    show: Show,
    step: Step,
) -> Result<Answer, AllocError>
    requires previous { HasPrevious world.old previous.old }
    ensures words { OnOk result (string_bytes out.new ≡ string_bytes out.old ++ step_words (option_map (λ n. n.now) names.entry) show world.old.plan world.old.stop world.old.counts step) }
    ensures answer { IfOk result (λ answer. answer ≡ answer_in world.old step) }
    ensures after { OnOk result (world.new ≡ world_after world.old step) }
    ensures previous { OnOk result (HasPrevious world.new previous.new) }
{
    if show.slots {
        tell_slots(out, world, previous, step)
    } else {
        tell_sentence(out, world, previous, names, step)
    }
}

/// The line of a step with this number, which is made; its answer.
fn tell_step(
    out: &mut String,
    world: &mut WorldRef<'_>,
    previous: &mut [State],
    names: Option<&NodeNames>,
    show: Show,
    number: usize,
    step: Step,
) -> Result<Answer, AllocError>
    requires previous { HasPrevious world.old previous.old }
    ensures line { OnOk result (string_bytes out.new ≡ string_bytes out.old ++ step_line (option_map (λ n. n.now) names.entry) show world.old.plan world.old.stop number world.old.counts step) }
    ensures answer { IfOk result (λ answer. answer ≡ answer_in world.old step) }
    ensures after { OnOk result (world.new ≡ world_after world.old step) }
    ensures previous { OnOk result (HasPrevious world.new previous.new) }
{
    write!(out, "{number}  ")?;
    let answer = tell(out, world, previous, names, show, step)?;
    out.push_str("\n")?;
    Ok(answer)
}

/// The lines of steps, which are made, and what came of them.
fn tell_steps(
    out: &mut String,
    world: &mut WorldRef<'_>,
    previous: &mut [State],
    names: Option<&NodeNames>,
    show: Show,
    steps: &[Step],
) -> Result<Way, AllocError>
    requires previous { HasPrevious world.old previous.old }
    ensures lines { OnOk result (string_bytes out.new ≡ string_bytes out.old ++ step_lines (option_map (λ n. n.now) names.entry) show world.old.plan world.old.stop 1 world.old.counts steps.now) }
    ensures made { OnOk result (world.new ≡ with_counts world.old (run world.old.plan.network world.old.stop world.old.counts steps.now)) }
    ensures answered { IfOk result (λ way. way.answered ≡ answered_in (answers world.old.plan.network world.old.stop world.old.counts steps.now)) }
    ensures difference { IfOk result (λ way. way.difference ≡ greatest_difference world.old.plan.network world.old.stop world.old.counts steps.now) }
    ensures room { IfOk result (λ way. total way.answered < 2 ^ 64) }
{
    let mut answered = Answered::none();
    let mut difference: u32 = 0;
    for (index, step) in steps.iter().enumerate() {
        let answer = tell_step(out, world, previous, names, show, index + 1, *step)?;
        put_counts_asked(out, world, show.counts)?;
        answered = answered.and(answer);
        difference = difference.max(difference_after(world, *step, answer));
    }
    Ok(Way {
        answered,
        difference,
    })
}

/// The text of steps on a world before any step.
fn told_on(
    alloc: Global,
    mut world: WorldRef<'_>,
    names: Option<&NodeNames>,
    show: Show,
    steps: &[Step],
) -> Result<Vec<u8>, AllocError>
    requires opened { world ≡ opened world.plan world.stop }
    ensures text { IfOk result (λ v. v.items ≡ told_text (option_map (λ n. n.now) names.entry) show world.entry.plan world.entry.stop steps.now) }
{
    let mut previous = opening_states(alloc, &world)?;
    let mut out = String::new(alloc);
    let way = tell_steps(&mut out, &mut world, &mut previous, names, show, steps)?;
    put_summary(&mut out, &world, way)?;
    Ok(out.into_bytes())
}

/// The text of a list of steps that are made, in order, on a world of the plan whose nodes move up to a stop: a line
/// for each step, and a summary. Answers that change nothing do not stop it.
///
/// The line of a step has its number, counted from 1, and a sentence: which neighbour a node reads, whether that one has
/// moved as often, is one ahead or one behind, and the state that is taken, as in
/// `3  node 1 reads node 0, which is one ahead: takes s=1, its previous state (it holds s=2)`; the state to which a node
/// moves, as in `4  node 1 moves: s=3, its state of round 1`; or what it waits for. Nodes are called by their names, where
/// these are given. What is taken is the neighbour's state of the reader's own round: `reads_own_round`.
///
/// By slots, the line has the step as a schedule spells it, and its answer with the reason in the counts before it, as in
/// `3  write 1  NotReady: 2 of 3 neighbours read`.
///
/// Where the counts are asked for, a line of all counts after it follows each, by rising number of the node, as in
/// `  counts 0 1 0 2`. The summary comes after an empty line: how many steps there were, how many reads were taken, how
/// many nodes moved, how many steps were refused, and how many by each answer; the least and the greatest count at the
/// end; and how far the count of a node that had just moved was from a neighbour's, at most. That is never above 1:
/// `differ_by_one_at_most`.
///
/// `StopTooLarge` comes above 1,000,000,000, and else `StopBelowStart` below the plan's start, both before memory is
/// taken; `Memory` only where neither does.
pub fn told(
    alloc: Global,
    plan: SimplePlan<'_>,
    stop: u32,
    steps: &[Step],
    names: Option<&NodeNames>,
    show: Show,
) -> Result<Vec<u8>, OpenFault>
    ensures text { IfOk result (λ v. v.items ≡ told_text (option_map (λ n. n.now) names.entry) show plan.entry stop steps.now) }
    ensures opens { IfOk result (λ _. opening_of plan.entry stop ≡ Ok (opened plan.entry stop)) }
    ensures refused { IfErr result (IsTellFault plan.entry stop) }
{
    let world = WorldRef::new(alloc, plan, stop)?;
    let text = told_on(alloc, world, names, show, steps)?;
    Ok(text)
}
