//! Summaries.
ghost use Rattle.std.specs.Prelude.{◌≡◌, ◌++◌, ◌<◌, ◌^◌, OnOk, string_bytes};
ghost use Rattle.run_steps.specs.explain.Summaries.{answered_lines, counts_lines, number_line, refused_lines, summary_lines, total};

use crate::explain::answered::Answered;
use crate::explain::differences::{greatest_count, least_count};
use std::alloc::AllocError;
use unison_world::WorldRef;

/// What came of a list of steps: how many had each answer, and how far a node that had just moved was from a neighbour, at most.
#[derive(Clone, Copy)]
pub(crate) struct Way {
    pub answered: Answered,
    pub difference: u32,
}

/// A line of some words and a number.
fn put_number(out: &mut String, words: &str, number: u64) -> Result<(), AllocError>
    ensures line { OnOk result (string_bytes out.new ≡ string_bytes out.old ++ number_line words.now number) }
{
    write!(out, "{words}{number}\n")
}

/// How many steps were refused, by answer.
fn put_refused(out: &mut String, answered: Answered) -> Result<(), AllocError>
    requires room { total answered < 2 ^ 64 }
    ensures lines { OnOk result (string_bytes out.new ≡ string_bytes out.old ++ refused_lines answered) }
{
    put_number(out, "refused ", answered.refused())?;
    put_number(out, "  Behind ", answered.behind)?;
    put_number(out, "  Already ", answered.already)?;
    put_number(out, "  NotReady ", answered.not_ready)?;
    put_number(out, "  Stopped ", answered.stopped)?;
    put_number(out, "  NoNode ", answered.no_node)?;
    put_number(out, "  NoSlot ", answered.no_slot)?;
    Ok(())
}

/// How many steps there were, and how many had each answer.
fn put_answered(out: &mut String, answered: Answered) -> Result<(), AllocError>
    requires room { total answered < 2 ^ 64 }
    ensures lines { OnOk result (string_bytes out.new ≡ string_bytes out.old ++ answered_lines answered) }
{
    put_number(out, "steps ", answered.total())?;
    put_number(out, "reads ", answered.taken)?;
    put_number(out, "moves ", answered.moved)?;
    put_refused(out, answered)
}

/// The least and the greatest count, and the greatest difference.
fn put_counts(out: &mut String, world: &WorldRef<'_>, difference: u32) -> Result<(), AllocError>
    ensures lines { OnOk result (string_bytes out.new ≡ string_bytes out.old ++ counts_lines world.now.counts difference) }
{
    put_number(out, "least count ", least_count(world) as u64)?;
    put_number(out, "greatest count ", greatest_count(world) as u64)?;
    put_number(out, "greatest difference ", difference as u64)?;
    Ok(())
}

/// The summary of the steps that led to a world.
pub(crate) fn put_summary(
    out: &mut String,
    world: &WorldRef<'_>,
    way: Way,
) -> Result<(), AllocError>
    requires room { total way.answered < 2 ^ 64 }
    ensures lines { OnOk result (string_bytes out.new ≡ string_bytes out.old ++ summary_lines way.answered world.now.counts way.difference) }
{
    out.push_str("\n")?;
    put_answered(out, way.answered)?;
    put_counts(out, world, way.difference)?;
    Ok(())
}
