//! Steps and answers in words.
ghost use Rattle.std.specs.Prelude.{◌≡◌, ◌++◌, OnOk, codes, string_bytes};
ghost use Rattle.run_steps.specs.explain.Words.{answer_words, at_count, read_words, spelled, write_words};

use crate::explain::looks::slots_read;
use std::alloc::AllocError;
use unison_world::{Answer, Step, WorldRef};

/// A step as a schedule spells it.
pub(crate) fn put_step(out: &mut String, step: Step) -> Result<(), AllocError>
    ensures words { OnOk result (string_bytes out.new ≡ string_bytes out.old ++ spelled step) }
{
    match step {
        Step::Read { node, slot } => write!(out, "read {node} {slot}"),
        Step::Write { node } => write!(out, "write {node}"),
    }
}

/// A node and how often it has moved.
fn put_at_count(out: &mut String, world: &WorldRef<'_>, node: u32) -> Result<(), AllocError>
    ensures words { OnOk result (string_bytes out.new ≡ string_bytes out.old ++ at_count world.now.counts node) }
{
    let count = world.moves(node);
    write!(out, "{node} at count {count}")
}

/// That the neighbour at a slot has moved less often than the node.
fn put_behind(
    out: &mut String,
    world: &WorldRef<'_>,
    node: u32,
    neighbour: u32,
) -> Result<(), AllocError>
    ensures words { OnOk result (string_bytes out.new ≡ string_bytes out.old ++ (codes "Behind: neighbour " ++ (at_count world.now.counts neighbour ++ (codes ", node " ++ at_count world.now.counts node)))) }
{
    out.push_str("Behind: neighbour ")?;
    put_at_count(out, world, neighbour)?;
    out.push_str(", node ")?;
    put_at_count(out, world, node)
}

/// That the neighbour at a slot is read.
fn put_taken(out: &mut String, world: &WorldRef<'_>, neighbour: u32) -> Result<(), AllocError>
    ensures words { OnOk result (string_bytes out.new ≡ string_bytes out.old ++ (codes "Taken: neighbour " ++ at_count world.now.counts neighbour)) }
{
    out.push_str("Taken: neighbour ")?;
    put_at_count(out, world, neighbour)?;
    Ok(())
}

/// The answer to a read, with its reason.
fn put_read(
    out: &mut String,
    world: &WorldRef<'_>,
    node: u32,
    slot: u32,
    answer: Answer,
) -> Result<(), AllocError>
    ensures words { OnOk result (string_bytes out.new ≡ string_bytes out.old ++ read_words world.now.plan.network world.now.counts node slot answer) }
{
    let rows = world.plan().rows();
    let neighbour = rows.neighbour_of(node, slot);
    let slots = rows.degree_of(node);
    let nodes = rows.nodes();
    match answer {
        Answer::Taken => put_taken(out, world, neighbour),
        Answer::Behind => put_behind(out, world, node, neighbour),
        Answer::Already => write!(out, "Already: neighbour {neighbour} was read"),
        Answer::Stopped => write!(out, "Stopped: node {node} at the stop"),
        Answer::NoNode => write!(out, "NoNode: nodes are numbered below {nodes}"),
        Answer::NoSlot => write!(
            out,
            "NoSlot: slots of node {node} are numbered below {slots}"
        ),
        Answer::Moved => Ok(()),
        Answer::NotReady => Ok(()),
    }
}

/// How many of a node's neighbours were read.
fn put_not_ready(out: &mut String, world: &WorldRef<'_>, node: u32) -> Result<(), AllocError>
    ensures words { OnOk result (string_bytes out.new ≡ string_bytes out.old ++ write_words world.now.plan.network world.now.counts node Answer.NotReady) }
{
    let read = slots_read(world, node);
    let slots = world.plan().rows().degree_of(node);
    write!(out, "NotReady: {read} of {slots} neighbours read")
}

/// The answer to a write, with its reason.
fn put_write(
    out: &mut String,
    world: &WorldRef<'_>,
    node: u32,
    answer: Answer,
) -> Result<(), AllocError>
    ensures words { OnOk result (string_bytes out.new ≡ string_bytes out.old ++ write_words world.now.plan.network world.now.counts node answer) }
{
    let count = world.moves(node) + 1;
    let nodes = world.nodes();
    match answer {
        Answer::Moved => write!(out, "Moved: node {node} at count {count}"),
        Answer::NotReady => put_not_ready(out, world, node),
        Answer::Stopped => write!(out, "Stopped: node {node} at the stop"),
        Answer::NoNode => write!(out, "NoNode: nodes are numbered below {nodes}"),
        Answer::Taken => Ok(()),
        Answer::Behind => Ok(()),
        Answer::Already => Ok(()),
        Answer::NoSlot => Ok(()),
    }
}

/// The answer to a step, with its reason in the world before the step.
pub(crate) fn put_answer(
    out: &mut String,
    world: &WorldRef<'_>,
    step: Step,
    answer: Answer,
) -> Result<(), AllocError>
    ensures words { OnOk result (string_bytes out.new ≡ string_bytes out.old ++ answer_words world.now.plan.network world.now.counts step answer) }
{
    match step {
        Step::Read { node, slot } => put_read(out, world, node, slot, answer),
        Step::Write { node } => put_write(out, world, node, answer),
    }
}
