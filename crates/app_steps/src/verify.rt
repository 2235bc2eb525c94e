//! `verify PROGRAM NETWORK TRACE`: a trace of an asynchronous run that was made elsewhere, checked.

use crate::simple::simple_plan;
use crate::text_lines::line_at;
use crate::verify_request::VerifyRequest;
use app_commands::{asked_by, names_for, put_note, read_plan_once, source_at};
use app_files::{Ending, bytes_at, name_at, path_in, write_out};
use net_names::NodeNames;
use rounds_plan::SimplePlan;
use rule_check::Program;
use run_steps::verify::{Verified, VerifyFault, verify};
use std::alloc::{AllocError, Global};
use std::thread::Threads;

/// The most nodes of which each one's count is told.
const MOST_TOLD: usize = 16;

/// The status where a line does not hold.
const UNHELD: u8 = 1;

/// Puts what a node is called: its name, or `node` and its number.
fn put_node(out: &mut String, names: Option<&NodeNames>, node: u32) -> Result<(), AllocError> {
    match names {
        Some(names) => out.push_str(names.name(node).unwrap_or("")),
        None => write!(out, "node {node}"),
    }
}

/// Puts what a node is called and its count.
fn put_count(
    out: &mut String,
    names: Option<&NodeNames>,
    node: u32,
    count: u32,
) -> Result<(), AllocError> {
    put_node(out, names, node)?;
    write!(out, " has count {count}")
}

/// A node, and how often it has moved.
#[derive(Clone, Copy)]
struct Moves {
    node: u32,
    count: u32,
}

/// The first node with the least count, and the first with the greatest.
fn extremes_of(counts: &[u32]) -> (Moves, Moves) {
    let first = counts.first().copied().unwrap_or(0);
    let mut least = Moves {
        node: 0,
        count: first,
    };
    let mut greatest = least;
    let mut node: u32 = 0;
    for count in counts {
        let count = *count;
        if count < least.count {
            least = Moves { node, count };
        }
        if count > greatest.count {
            greatest = Moves { node, count };
        }
        node = node.saturating_add(1);
    }
    (least, greatest)
}

/// Puts the least and the greatest count, each with the first node that has it.
fn put_extremes(
    out: &mut String,
    names: Option<&NodeNames>,
    counts: &[u32],
) -> Result<(), AllocError> {
    let (least, greatest) = extremes_of(counts);
    write!(out, "least count {}: ", least.count)?;
    put_node(out, names, least.node)?;
    write!(out, "\ngreatest count {}: ", greatest.count)?;
    put_node(out, names, greatest.node)?;
    out.push_str("\n")
}

/// Puts the count of each node, a line each.
fn put_counts(
    out: &mut String,
    names: Option<&NodeNames>,
    counts: &[u32],
) -> Result<(), AllocError> {
    let mut node: u32 = 0;
    for count in counts {
        put_count(out, names, node, *count)?;
        out.push_str("\n")?;
        node = node.saturating_add(1);
    }
    Ok(())
}

/// What stands after the name of a thing of which there are so many.
fn plural(count: u64) -> &'static str {
    if count == 1 { "" } else { "s" }
}

/// How often all nodes have moved since a start at which each had moved so often.
fn moves_since(start: u32, counts: &[u32]) -> u64 {
    let mut moves: u64 = 0;
    for count in counts {
        moves = moves.saturating_add(u64::from(count.saturating_sub(start)));
    }
    moves
}

/// Puts how many steps hold, how many of them are reads and moves, and how many have values.
fn put_steps(out: &mut String, start: u32, found: &Verified) -> Result<(), AllocError> {
    let moves = moves_since(start, &found.counts);
    let reads = found.lines.saturating_sub(moves);
    let hold = if found.lines == 1 { "holds" } else { "hold" };
    let (s, of_reads, of_moves) = (plural(found.lines), plural(reads), plural(moves));
    write!(
        out,
        "{} step{s} {hold}: {reads} read{of_reads}, {moves} move{of_moves}; {} with values\n",
        found.lines, found.valued
    )
}

/// Puts the count of each node, a line each, where they are few.
fn put_few(out: &mut String, names: Option<&NodeNames>, counts: &[u32]) -> Result<(), AllocError> {
    if counts.len() <= MOST_TOLD {
        return put_counts(out, names, counts);
    }
    Ok(())
}

/// Puts what is told of a trace that holds.
fn put_held_text(
    out: &mut String,
    names: Option<&NodeNames>,
    start: u32,
    found: &Verified,
) -> Result<(), AllocError> {
    put_steps(out, start, found)?;
    put_extremes(out, names, &found.counts)?;
    put_few(out, names, &found.counts)
}

/// What is told of a trace that holds.
fn held_text(
    alloc: Global,
    names: Option<&NodeNames>,
    start: u32,
    found: &Verified,
) -> Result<String, AllocError> {
    let mut out = String::new(alloc);
    put_held_text(&mut out, names, start, found)?;
    Ok(out)
}

/// The first node that has moved less often than so often.
fn first_below(counts: &[u32], round: u32) -> Option<Moves> {
    let mut node: u32 = 0;
    for count in counts {
        let count = *count;
        if count < round {
            return Some(Moves { node, count });
        }
        node = node.saturating_add(1);
    }
    None
}

/// What is told where a node has not come to a round.
fn not_there_text(
    alloc: Global,
    names: Option<&NodeNames>,
    found: Moves,
    round: u32,
) -> Result<String, AllocError> {
    let mut out = String::new(alloc);
    put_count(&mut out, names, found.node, found.count)?;
    write!(
        out,
        ", and has not come to round {round}, which --until-round wants of every node\n"
    )?;
    Ok(out)
}

/// What a trace that holds leaves open: that it says nothing, or nothing of states.
fn held_note(found: &Verified) -> Option<&'static str> {
    if found.lines == 0 {
        return Some(
            "the trace has no steps, so nothing was checked; --until-round T wants each node to have come to round T",
        );
    }
    if found.valued == 0 {
        return Some(
            "no step gives a value, so the order of reads and moves was checked, and no state",
        );
    }
    None
}

/// The line of which a fault tells.
fn line_in(fault: VerifyFault) -> u64 {
    match fault {
        VerifyFault::NotUtf8 { line }
        | VerifyFault::ControlCharacter { line }
        | VerifyFault::LongLine { line }
        | VerifyFault::NoSuchLine { line }
        | VerifyFault::NotJson { line }
        | VerifyFault::NoStep { line }
        | VerifyFault::NoNode { line }
        | VerifyFault::NotNeighbour { line }
        | VerifyFault::BadField { line }
        | VerifyFault::FieldTwice { line }
        | VerifyFault::BadState { line }
        | VerifyFault::Stopped { line, .. }
        | VerifyFault::Already { line, .. }
        | VerifyFault::Behind { line, .. }
        | VerifyFault::NotReady { line, .. }
        | VerifyFault::Differs { line, .. } => line,
        VerifyFault::Memory => 0,
    }
}

/// What nodes and fields are called by.
#[derive(Clone, Copy)]
struct Telling<'a> {
    program: &'a Program,
    names: Option<&'a NodeNames>,
}

/// A value that a line gives and its state does not have.
#[derive(Clone, Copy)]
struct Difference {
    mover: u32,
    node: u32,
    count: u32,
    round: u32,
    field: u32,
    given: u32,
    due: u32,
}

/// The value that does not agree, where that is the fault.
fn difference_in(fault: VerifyFault) -> Option<Difference> {
    match fault {
        VerifyFault::Differs {
            mover,
            node,
            count,
            round,
            field,
            given,
            due,
            ..
        } => Some(Difference {
            mover,
            node,
            count,
            round,
            field,
            given,
            due,
        }),
        _ => None,
    }
}

impl Telling<'_> {
    /// Puts what a node is called.
    fn put_node(&self, out: &mut String, node: u32) -> Result<(), AllocError> {
        put_node(out, self.names, node)
    }

    /// Puts what a node is called and its count.
    fn put_count(&self, out: &mut String, node: u32, count: u32) -> Result<(), AllocError> {
        put_count(out, self.names, node, count)
    }

    /// Puts the counts of two nodes, on a line.
    fn put_both(
        &self,
        out: &mut String,
        node: u32,
        own: u32,
        neighbour: u32,
        other: u32,
    ) -> Result<(), AllocError> {
        self.put_count(out, node, own)?;
        out.push_str(", ")?;
        self.put_count(out, neighbour, other)?;
        out.push_str("\n")
    }

    /// Puts whose state a read takes, and after which round.
    fn put_read(&self, out: &mut String, found: Difference) -> Result<(), AllocError> {
        self.put_both(out, found.mover, found.round, found.node, found.count)?;
        self.put_node(out, found.mover)?;
        out.push_str(" reads the state of ")?;
        self.put_node(out, found.node)?;
        if found.count > found.round {
            out.push_str(" before its last move,")?;
        }
        write!(out, " after round {}", found.round)
    }

    /// Puts to which state a move leads.
    fn put_move(&self, out: &mut String, found: Difference) -> Result<(), AllocError> {
        self.put_count(out, found.mover, found.count)?;
        out.push_str("\n")?;
        self.put_node(out, found.mover)?;
        write!(out, " moves to its state after round {}", found.round)
    }

    /// Puts that a value is another one, and why.
    fn put_difference(&self, out: &mut String, found: Difference) -> Result<(), AllocError> {
        if found.mover == found.node {
            self.put_move(out, found)?;
        } else {
            self.put_read(out, found)?;
        }
        let field = self.program.field_name(found.field).unwrap_or("");
        let Difference { due, given, .. } = found;
        write!(out, ": {field}={due}, not {field}={given}\n")
    }

    /// Puts that a node has read, or has not read, a neighbour since it last moved.
    fn put_read_of(
        &self,
        out: &mut String,
        node: u32,
        verb: &str,
        neighbour: u32,
    ) -> Result<(), AllocError> {
        self.put_node(out, node)?;
        out.push_str(verb)?;
        self.put_node(out, neighbour)?;
        out.push_str(" since it last moved\n")
    }

    /// Puts that a neighbour is behind a node.
    fn put_behind(
        &self,
        out: &mut String,
        node: u32,
        own: u32,
        neighbour: u32,
        other: u32,
    ) -> Result<(), AllocError> {
        self.put_both(out, node, own, neighbour, other)?;
        self.put_node(out, neighbour)?;
        out.push_str(" is behind, and is read when it has moved again\n")
    }

    /// Puts that a node stands at the last round.
    fn put_stopped(&self, out: &mut String, node: u32) -> Result<(), AllocError> {
        self.put_node(out, node)?;
        out.push_str(" stands at round 1000000000, the last that there is\n")
    }

    /// Puts why a line does not hold. Whether it says a step at all.
    fn put_reason(&self, out: &mut String, fault: VerifyFault) -> Result<bool, AllocError> {
        match fault {
            VerifyFault::Stopped { node, .. } => self.put_stopped(out, node)?,
            VerifyFault::Already {
                node,
                neighbour,
                ..
            } => self.put_read_of(out, node, " has read ", neighbour)?,
            VerifyFault::NotReady {
                node,
                neighbour,
                ..
            } => self.put_read_of(out, node, " has not read ", neighbour)?,
            VerifyFault::Behind {
                node,
                neighbour,
                own,
                other,
                ..
            } => self.put_behind(out, node, own, neighbour, other)?,
            fault => match difference_in(fault) {
                Some(difference) => self.put_difference(out, difference)?,
                None => return Ok(false),
            },
        }
        Ok(true)
    }
}

/// Puts what is told of the first line that does not hold. Whether it says a step at all.
fn put_unheld_text(
    out: &mut String,
    telling: Telling<'_>,
    name: &str,
    text: &[u8],
    fault: VerifyFault,
) -> Result<bool, AllocError> {
    let line = line_in(fault);
    let said = line_at(text, line).trim_end();
    write!(out, "{name}:{line}: `{said}` does not hold\n")?;
    telling.put_reason(out, fault)
}

/// What is told of the first line that does not hold, where it says a step.
fn unheld_text(
    alloc: Global,
    telling: Telling<'_>,
    name: &str,
    text: &[u8],
    fault: VerifyFault,
) -> Result<Option<String>, AllocError> {
    let mut out = String::new(alloc);
    let is_step = put_unheld_text(&mut out, telling, name, text, fault)?;
    Ok(if is_step { Some(out) } else { None })
}

/// The ending where a line says no step.
fn no_step(alloc: Global, name: &str, text: &[u8], fault: VerifyFault) -> Ending {
    if fault == VerifyFault::Memory {
        return Ending::Memory;
    }
    let found = line_at(text, line_in(fault)).trim_end();
    Ending::refused(format!(in alloc; "trace\n{name}: {fault}, found `{found}`"))
}

/// Prints a text. The status, this one, with which the program ends.
fn put_with(rt: &HostRuntime, told: &str, status: u8) -> Result<u8, Ending> {
    write_out(rt, told.as_bytes())?;
    Ok(status)
}

/// Prints what is told of a trace that does not hold. The status with which the program ends.
fn put_unheld(
    rt: &HostRuntime,
    telling: Telling<'_>,
    name: &str,
    text: &[u8],
    fault: VerifyFault,
) -> Result<u8, Ending> {
    match unheld_text(rt.alloc(), telling, name, text, fault)? {
        Some(told) => put_with(rt, told.as_str(), UNHELD),
        None => Err(no_step(rt.alloc(), name, text, fault)),
    }
}

/// Prints what is told of a trace that holds, and in which a node has not come to the round that is asked for. The status
/// with which the program ends.
fn put_not_there(
    rt: &HostRuntime,
    names: Option<&NodeNames>,
    found: Moves,
    round: u32,
) -> Result<u8, Ending> {
    let told = not_there_text(rt.alloc(), names, found, round)?;
    put_with(rt, told.as_str(), UNHELD)
}

/// Prints what is told of a trace of which all lines hold. The status with which the program ends.
fn put_held(
    rt: &HostRuntime,
    asked: &VerifyRequest,
    names: Option<&NodeNames>,
    start: u32,
    found: &Verified,
) -> Result<u8, Ending> {
    if let Some(below) = first_below(&found.counts, asked.until_round) {
        return put_not_there(rt, names, below, asked.until_round);
    }
    let told = held_text(rt.alloc(), names, start, found)?;
    match held_note(found) {
        Some(note) if !asked.quiet => put_note(rt, note),
        _ => {}
    }
    put_with(rt, told.as_str(), 0)
}

/// Prints what is told of the trace that the text is. The status with which the program ends.
fn put_verdict(
    rt: &HostRuntime,
    plan: SimplePlan<'_>,
    asked: &VerifyRequest,
    names: Option<&NodeNames>,
    text: &[u8],
) -> Result<u8, Ending> {
    let name = name_at(asked.trace.as_str());
    let (program, start) = (plan.program(), plan.start());
    match verify(rt.alloc(), plan, names, text) {
        Ok(found) => put_held(rt, asked, names, start, &found),
        Err(fault) => put_unheld(rt, Telling { program, names }, name, text, fault),
    }
}

/// Prints what is told of the trace that is asked for, on a plan. The status with which the program ends.
fn put_trace(
    rt: &HostRuntime,
    plan: SimplePlan<'_>,
    asked: &VerifyRequest,
    names: Option<&NodeNames>,
) -> Result<u8, Ending> {
    let text = bytes_at(rt, asked.trace.as_str())?;
    put_verdict(rt, plan, asked, names, &text)
}

/// Prints what is told of a trace on a plan. The status with which the program ends.
fn put_told(rt: &HostRuntime, plan: SimplePlan<'_>, asked: &VerifyRequest) -> Result<u8, Ending> {
    let names = names_for(rt, &asked.names, plan.nodes())?;
    put_trace(rt, plan, asked, names.as_ref())
}

/// Prints what is told of the trace on the plan that is asked for. The status with which the program ends.
fn put_on(rt: &HostRuntime, threads: &impl Threads, asked: &VerifyRequest) -> Result<u8, Ending> {
    let source = source_at(rt, threads, &asked.texts)?;
    let ground = source.ground(rt, &asked.texts)?;
    let path = asked.texts.plan.network.as_str();
    let plan = simple_plan(rt.alloc(), path, ground.lent(rt.alloc())?)?;
    put_told(rt, plan, asked)
}

/// Checks the trace that the words name. The status with which the program ends.
pub fn verify_trace(
    rt: &HostRuntime,
    threads: &impl Threads,
    words: &[String],
) -> Result<u8, Ending> {
    let asked = asked_by(VerifyRequest::parse(rt.alloc(), words))?;
    let (names, trace) = (path_in(&asked.names), asked.trace.as_str());
    read_plan_once(rt.alloc(), &asked.texts.plan, names, trace, "")?;
    put_on(rt, threads, &asked)
}
