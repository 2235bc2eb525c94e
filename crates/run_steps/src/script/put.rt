//! Steps and open repeats that lines put after those before them.
ghost use Rattle.std.specs.Prelude.{◌≡◌, ◌≢◌, ◌≤◌, ◌+◌, ◌-◌, ◌<◌, ◌^◌, ◌++◌, ◌∷◌, [], length, OnOk, IfErr};
ghost use Rattle.std.specs.List.{repeat, slice_range};
ghost use Rattle.std.specs.Option.{option_map};
ghost use Rattle.link_net.specs.Neighbours.{degree};
ghost use Rattle.unison_trace.specs.Histories.{most_steps};
ghost use Rattle.run_steps.specs.declared.script.fault.StepTextFault.TheVariants.{Memory, TooManySteps, TooDeep};
ghost use Rattle.run_steps.specs.script.Texts.{reads_of, turn_of, made_by, most_deep};
ghost use Rattle.run_steps.specs.script.Runs.{IsAnswer, few_steps, repeated, last_open, ended, behind_line, behind_told};

use crate::script::action::Action;
use crate::script::fault::StepTextFault;
use crate::script::line::Line;
use crate::script::line_reader::line_at;
use crate::script::open_repeat::OpenRepeat;
use link_net::Network;
use net_names::NodeNames;
use std::alloc::AllocError;
use unison_trace::MOST_STEPS;
use unison_world::Step;

/// The most repeats that may be open.
const MOST_DEEP: usize = 64;

/// How many slots a node has.
fn degree(network: &Network, node: u32) -> u32
    ensures { result ≡ degree network.now node }
{
    network.degree(node).unwrap_or(0)
}

/// `TooManySteps` where there are more steps than may be with so many more.
fn check_room(steps: &[Step], more: u128, line: u64) -> Result<(), StepTextFault>
    requires more { more < 2 ^ 127 }
    ensures few { OnOk result (length steps.now + more ≤ most_steps) }
    ensures many { IfErr result (λ fault. (fault ≡ TooManySteps line) × (most_steps < length steps.now + more)) }
{
    if steps.len() as u128 + more > MOST_STEPS as u128 {
        return Err(StepTextFault::TooManySteps { line });
    }
    Ok(())
}

/// Puts a step after the others.
fn put_step(steps: &mut Vec<Step>, line: u64, step: Step) -> Result<(), StepTextFault>
    ensures put { IsAnswer (λ _. steps.new.items) (few_steps line (steps.old.items ++ step ∷ [])) result }
{
    check_room(steps, 1, line)?;
    steps.push(step)?;
    Ok(())
}

/// Puts a step for each slot of a node behind the others.
fn push_reads(steps: &mut Vec<Step>, network: &Network, node: u32) -> Result<(), AllocError>
    ensures put { OnOk result (steps.new.items ≡ steps.old.items ++ reads_of network.now node) }
{
    for slot in 0..degree(network, node) {
        steps.push(Step::Read { node, slot })?;
    }
    Ok(())
}

/// Puts the reads of all slots of a node behind the others.
fn put_reads(
    steps: &mut Vec<Step>,
    network: &Network,
    line: u64,
    node: u32,
) -> Result<(), StepTextFault>
    ensures put { IsAnswer (λ _. steps.new.items) (few_steps line (steps.old.items ++ reads_of network.now node)) result }
{
    check_room(steps, degree(network, node) as u128, line)?;
    push_reads(steps, network, node)?;
    Ok(())
}

/// Puts a turn of a node behind the others.
fn put_turn(
    steps: &mut Vec<Step>,
    network: &Network,
    line: u64,
    node: u32,
) -> Result<(), StepTextFault>
    ensures put { IsAnswer (λ _. steps.new.items) (few_steps line (steps.old.items ++ turn_of network.now node)) result }
{
    check_room(steps, degree(network, node) as u128 + 1, line)?;
    push_reads(steps, network, node)?;
    steps.push(Step::Write { node })?;
    Ok(())
}

/// Puts a turn of each node behind the others.
fn put_sweep(steps: &mut Vec<Step>, network: &Network, line: u64) -> Result<(), StepTextFault>
    requires few { length steps.old.items ≤ most_steps }
    ensures put { IsAnswer (λ _. steps.new.items) (few_steps line (steps.old.items ++ made_by network.now Action.Sweep)) result }
{
    for node in 0..network.nodes() {
        put_turn(steps, network, line, node)?;
    }
    Ok(())
}

/// Puts the steps of an action behind the others.
fn put_action(
    steps: &mut Vec<Step>,
    network: &Network,
    line: u64,
    action: Action,
) -> Result<(), StepTextFault>
    requires few { length steps.old.items ≤ most_steps }
    ensures put { IsAnswer (λ _. steps.new.items) (few_steps line (steps.old.items ++ made_by network.now action)) result }
{
    match action {
        Action::ReadSlot { node, slot } => put_step(steps, line, Step::Read { node, slot }),
        Action::ReadAll { node } => put_reads(steps, network, line, node),
        Action::Move { node } => put_step(steps, line, Step::Write { node }),
        Action::Turn { node } => put_turn(steps, network, line, node),
        Action::Sweep => put_sweep(steps, network, line),
    }
}

/// Puts the steps from a start on up to an end so many times more behind the others.
fn push_again(steps: &mut Vec<Step>, start: usize, end: usize, times: u32) -> Result<(), AllocError>
    requires start { start ≤ end }
    requires end { end ≤ length steps.old.items }
    ensures put { OnOk result (steps.new.items ≡ steps.old.items ++ repeat times (slice_range steps.old.items start end)) }
{
    for _time in 0..times {
        steps.extend_from_within(start..end)?;
    }
    Ok(())
}

/// Puts the steps since the start of a repeat behind the others, as many times more as it says.
fn put_again(steps: &mut Vec<Step>, line: u64, last: OpenRepeat) -> Result<(), StepTextFault>
    requires few { length steps.old.items ≤ most_steps }
    ensures put { IsAnswer (λ _. steps.new.items) (few_steps line (repeated steps.old.items last)) result }
{
    let end = steps.len();
    if last.start >= end {
        return Ok(());
    }
    let more = last.again as u128 * (end - last.start) as u128;
    check_room(steps, more, line)?;
    push_again(steps, last.start, end, last.again)?;
    Ok(())
}

/// Opens a repeat.
fn begin_repeat(
    opens: &mut Vec<OpenRepeat>,
    start: usize,
    line: u64,
    count: u32,
) -> Result<(), StepTextFault>
    ensures room { OnOk result (length opens.old.items < most_deep) }
    ensures opened { OnOk result (opens.new.items ≡ opens.old.items ++ (record { line = line; start = start; again = count - 1 }) ∷ []) }
    ensures refused { IfErr result (λ fault. fault ≢ Memory → (fault ≡ TooDeep line) × (most_deep ≤ length opens.old.items)) }
{
    if opens.len() >= MOST_DEEP {
        return Err(StepTextFault::TooDeep { line });
    }
    opens.push(OpenRepeat {
        line,
        start,
        again: count.saturating_sub(1),
    })?;
    Ok(())
}

/// Ends the last repeat that is open.
fn end_repeat(
    steps: &mut Vec<Step>,
    opens: &mut Vec<OpenRepeat>,
    line: u64,
) -> Result<(), StepTextFault>
    requires few { length steps.old.items ≤ most_steps }
    ensures put { IsAnswer (λ _. record { steps = steps.new.items; opens = opens.new.items }) (ended line (record { steps = steps.old.items; opens = opens.old.items }) (last_open opens.old.items)) result }
{
    let Some(last) = opens.pop() else {
        return Err(StepTextFault::EndWithoutRepeat { line });
    };
    put_again(steps, line, last)
}

/// Puts what a line says behind the others.
fn put_line(
    steps: &mut Vec<Step>,
    opens: &mut Vec<OpenRepeat>,
    network: &Network,
    number: u64,
    line: Line,
) -> Result<(), StepTextFault>
    requires few { length steps.old.items ≤ most_steps }
    ensures put { IsAnswer (λ _. record { steps = steps.new.items; opens = opens.new.items }) (behind_line network.now number (record { steps = steps.old.items; opens = opens.old.items }) line) result }
{
    match line {
        Line::Act { action } => put_action(steps, network, number, action),
        Line::Repeat { count } => begin_repeat(opens, steps.len(), number, count),
        Line::End => end_repeat(steps, opens, number),
    }
}

/// Reads a line, and puts what it says behind the others.
pub(crate) fn put_told(
    steps: &mut Vec<Step>,
    opens: &mut Vec<OpenRepeat>,
    network: &Network,
    names: Option<&NodeNames>,
    number: u64,
    bytes: &[u8],
) -> Result<(), StepTextFault>
    requires few { length steps.old.items ≤ most_steps }
    ensures put { IsAnswer (λ _. record { steps = steps.new.items; opens = opens.new.items }) (behind_told network.now (option_map (λ n. n.now) names.entry) (record { steps = steps.old.items; opens = opens.old.items }) (number, bytes.now)) result }
    ensures few { OnOk result (length steps.new.items ≤ most_steps) }
{
    let line = line_at(network, names, number, bytes)?;
    put_line(steps, opens, network, number, line)
}
