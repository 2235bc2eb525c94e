//! The axes of curves.
ghost use Rattle.std.specs.Prelude.{◌≡◌, ◌++◌, ◌<◌, ◌≤◌, OnOk, IfOk, string_bytes};
ghost use Rattle.std.specs.List.{flat_map};
ghost use Rattle.run_picture.specs.Curves.{count_line, count_lines, count_place, round_line, round_lines, round_place};
ghost use Rattle.run_picture.specs.Ticks.{first_step, lowest_times, multiples, step_over, ticks};

use run_watch::Span;
use std::alloc::{AllocError, Global};

/// The steps that an axis may have.
const AXIS_STEPS: [u32; 27] = [
    1,
    2,
    5,
    10,
    20,
    50,
    100,
    200,
    500,
    1_000,
    2_000,
    5_000,
    10_000,
    20_000,
    50_000,
    100_000,
    200_000,
    500_000,
    1_000_000,
    2_000_000,
    5_000_000,
    10_000_000,
    20_000_000,
    50_000_000,
    100_000_000,
    200_000_000,
    500_000_000,
];

/// The first of some steps of which ten reach over a distance, and 1,000,000,000 where none does.
fn first_step(steps: &[u32], distance: u32) -> u32
    ensures step { result ≡ first_step steps.now distance }
{
    for step in steps {
        if u64::from(distance) <= 10 * u64::from(*step) {
            return *step;
        }
    }
    1_000_000_000
}

/// The step of an axis that goes over a distance.
fn step_over(distance: u32) -> u32
    ensures step { result ≡ step_over distance }
    ensures some { 1 ≤ result }
{
    first_step(&AXIS_STEPS, distance)
}

/// How often a step goes into a number, rounded up.
fn lowest_times(step: u32, number: u32) -> u32
    requires step { 1 ≤ step }
    ensures times { result ≡ lowest_times step number }
{
    number.div_ceil(step)
}

/// The multiples of a step from a first number to a last one.
fn multiples(alloc: Global, step: u32, first: u32, last: u32) -> Result<Vec<u32>, AllocError>
    requires step { 1 ≤ step }
    ensures numbers { IfOk result (λ numbers. numbers.items ≡ multiples step first last) }
{
    let mut numbers = Vec::new(alloc);
    for times in lowest_times(step, first)..=last / step {
        numbers.push(times * step)?;
    }
    Ok(numbers)
}

/// The numbers that stand at an axis from a first number to a last one.
#[tactic(auto, unfolding(crate::specs::Ticks::ticks))]
fn ticks(alloc: Global, first: u32, last: u32) -> Result<Vec<u32>, AllocError>
    ensures numbers { IfOk result (λ numbers. numbers.items ≡ ticks first last) }
{
    multiples(alloc, step_over(last.saturating_sub(first)), first, last)
}

/// Where a round stands, in pixels from the left.
fn round_place(span: &Span, round: u32) -> u64
    requires wide { span.now.first < span.now.last }
    ensures place { result ≡ round_place span.now round }
{
    let along = u64::from(round.saturating_sub(span.first()));
    let across = u64::from(span.last() - span.first());
    64 + along * 640 / across
}

/// Where a number of nodes stands, in pixels from the top.
fn count_place(nodes: u32, count: u32) -> u64
    requires some { 1 ≤ nodes }
    ensures place { result ≡ count_place nodes count }
{
    let above = u64::from(count) * 320 / u64::from(nodes);
    344_u64.saturating_sub(above)
}

/// The line of a round, and the round below.
#[tactic(auto, unfolding(crate::specs::Curves::round_line))]
fn put_round_line(out: &mut String, place: u64, round: u32) -> Result<(), AllocError>
    ensures text { OnOk result (string_bytes out.new ≡ string_bytes out.old ++ round_line place round) }
{
    write!(
        out,
        "<path class=\"grid\" d=\"M{place} 24v320\"/><text x=\"{place}\" y=\"360\" text-anchor=\"middle\">{round}</text>\n"
    )
}

/// The line of a number of nodes, and the number beside it.
#[tactic(auto, unfolding(crate::specs::Curves::count_line))]
fn put_count_line(out: &mut String, place: u64, count: u32) -> Result<(), AllocError>
    requires place { place ≤ 344 }
    ensures text { OnOk result (string_bytes out.new ≡ string_bytes out.old ++ count_line place count) }
{
    let base = place + 4;
    write!(
        out,
        "<path class=\"grid\" d=\"M64 {place}h640\"/><text x=\"58\" y=\"{base}\" text-anchor=\"end\">{count}</text>\n"
    )
}

/// The lines of an axis of rounds.
pub(crate) fn put_round_lines(
    out: &mut String,
    alloc: Global,
    span: &Span,
) -> Result<(), AllocError>
    requires wide { span.now.first < span.now.last }
    ensures text { OnOk result (string_bytes out.new ≡ string_bytes out.old ++ round_lines span.now (ticks span.now.first span.now.last)) }
{
    let rounds = ticks(alloc, span.first(), span.last())?;
    for round in &rounds {
        put_round_line(out, round_place(span, *round), *round)?;
    }
    Ok(())
}

/// The lines of an axis of numbers of nodes.
pub(crate) fn put_count_lines(out: &mut String, alloc: Global, nodes: u32) -> Result<(), AllocError>
    requires some { 1 ≤ nodes }
    ensures text { OnOk result (string_bytes out.new ≡ string_bytes out.old ++ count_lines nodes (ticks 0 nodes)) }
{
    let counts = ticks(alloc, 0, nodes)?;
    for count in &counts {
        put_count_line(out, count_place(nodes, *count), *count)?;
    }
    Ok(())
}
