//! Lists of edges that threads read, each some of the lines.
ghost use Rattle.std.specs.Prelude.{◌≡◌, ◌+◌, ◌++◌, ◌<◌, ◌≤◌, ◌^◌, ℕ, List, length, IfSome};
ghost use Rattle.std.specs.List.{count_by};
ghost use denote.Param.Send.{IsSync};
ghost use Rattle.import_lines.specs.Texts.{is_line_feed, told_from};
ghost use Rattle.large_pack.specs.declared.edge_line.EdgeLine.{EdgeLine};
ghost use Rattle.large_pack.specs.declared.options.PackOptions.{PackOptions};
ghost use Rattle.large_pack.specs.Keys.{AreKeyed, IsReadOf};
ghost use Rattle.large_pack.specs.Surveys.{survey_of};

use crate::fault::PackFault;
use crate::keys::KeyedEdges;
use crate::options::PackOptions;
use crate::survey::{Reading, Survey, read_edges};
use import_lines::{Lines, split_line};
use std::alloc::Global;
use std::marker::Sync;
use std::thread::{Threads, join};

/// The fewest bytes that are worth a second thread.
const LEAST_BYTES: usize = 1_048_576;

/// How many line feeds stand in the bytes.
fn line_feeds(bytes: &[u8]) -> u64
    ensures exact { result ≡ count_by is_line_feed bytes.now }
    ensures few { result ≤ length bytes.now }
{
    let mut count: u64 = 0;
    for byte in bytes {
        count += (*byte == b'\n') as u64;
    }
    count
}

/// The lines that begin before a place, and those after them.
fn halves(lines: Lines<'_>, place: usize) -> (Lines<'_>, Lines<'_>)
    requires room { lines.passed + length lines.bytes.now < 2 ^ 64 }
    requires inside { place ≤ length lines.bytes.now }
    ensures room { result.0.passed + length result.0.bytes.now < 2 ^ 64 }
    ensures room_behind { result.1.passed + length result.1.bytes.now < 2 ^ 64 }
    ensures lines { told_from (lines.entry.passed + 1) lines.entry.bytes.now
        ≡ told_from (result.0.passed + 1) result.0.bytes.now ++ told_from (result.1.passed + 1) result.1.bytes.now }
{
    let (_, behind) = lines.bytes.split_at(place);
    let (last, bytes) = split_line(behind);
    if bytes.is_empty() {
        let passed = lines.passed;
        return (lines, Lines { passed, bytes });
    }
    let front = &lines.bytes[..place + last.len()];
    let passed = lines.passed + line_feeds(front) + 1;
    let first = Lines {
        passed: lines.passed,
        bytes: front,
    };
    (first, Lines { passed, bytes })
}

/// What edges tell together, those of one survey before those of another.
fn both_surveys(first: Survey, second: Survey) -> Survey
    ensures exact { (options : PackOptions) (es fs : List EdgeLine) → first ≡ survey_of options es → second ≡ survey_of options fs → result ≡ survey_of options (es ++ fs) }
{
    Survey {
        reach: first.reach.max(second.reach),
        outside: first.outside.or(second.outside),
        self_loop: first.self_loop.or(second.self_loop),
    }
}

/// The arcs of edges, those of some before those of others; none where those of either are not there or memory runs out.
fn both_keyed(first: Option<KeyedEdges>, second: Option<KeyedEdges>) -> Option<KeyedEdges>
    ensures keyed { (options : PackOptions) (es fs : List EdgeLine) → IfSome first (λ k. AreKeyed options es k) → IfSome second (λ k. AreKeyed options fs k)
        → IfSome result (λ k. AreKeyed options (es ++ fs) k) }
{
    let mut keyed = first?;
    let more = second?;
    keyed.lines = keyed.lines.checked_add(more.lines)?;
    keyed.dropped_loops = keyed.dropped_loops.checked_add(more.dropped_loops)?;
    let Ok(()) = keyed.keys.extend_from_slice(&more.keys) else {
        return None;
    };
    Some(keyed)
}

/// What was read of some lines and of those after them.
fn both_readings(
    first: Result<Reading, PackFault>,
    second: Result<Reading, PackFault>,
) -> Result<Reading, PackFault>
    ensures read { (options : PackOptions) (front back : List (ℕ × List ℕ)) → IsReadOf options front first → IsReadOf options back second → IsReadOf options (front ++ back) result }
{
    let front = first?;
    let back = second?;
    Ok(Reading {
        survey: both_surveys(front.survey, back.survey),
        keyed: both_keyed(front.keyed, back.keyed),
    })
}

/// What the edges of the lines that are left tell together, and their arcs, as `read_edges` does, in so many threads.
#[cycle(halves)]
pub(crate) fn read_shared<R: Threads + Sync>(
    rt: &R,
    alloc: Global,
    threads: usize,
    from: Lines<'_>,
    options: &PackOptions,
) -> Result<Reading, PackFault>
    requires room { from.passed + length from.bytes.now < 2 ^ 64 }
    ensures read { IsReadOf options.now (told_from (from.entry.passed + 1) from.entry.bytes.now) result }
{
    if threads < 2 || from.bytes.len() < LEAST_BYTES {
        return read_edges(alloc, from, options);
    }
    let half = threads / 2;
    let rest = threads - half;
    let (front, back) = halves(from, from.bytes.len() / threads * half);
    let before = move || -> Result<Reading, PackFault>
        requires { IsSync R.row × (front.passed + length front.bytes.now < 2 ^ 64) }
        ensures { IsReadOf options.entry.now (told_from (front.entry.passed + 1) front.entry.bytes.now) result }
    { read_shared(rt, alloc, half, front, options) };
    let behind = move || -> Result<Reading, PackFault>
        requires { IsSync R.row × (back.passed + length back.bytes.now < 2 ^ 64) }
        ensures { IsReadOf options.entry.now (told_from (back.entry.passed + 1) back.entry.bytes.now) result }
    { read_shared(rt, alloc, rest, back, options) };
    let (first, second) = join(rt, before, behind);
    both_readings(first, second)
}
