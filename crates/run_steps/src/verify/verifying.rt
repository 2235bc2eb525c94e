//! Traces that are checked.
ghost use Rattle.std.specs.Prelude.{◌≡◌, ◌≤◌, ◌+◌, ◌<◌, ◌^◌, cond, ℕ, List, [], length, IfOk, IfErr, OnOk};
ghost use Rattle.std.specs.List.{list_any};
ghost use Rattle.std.specs.Option.{option_map, is_some};
ghost use Rattle.import_lines.specs.Texts.{told_from};
ghost use Rattle.rounds_plan.specs.Configs.{most_rounds};
ghost use Rattle.unison_world.specs.Counting.{Counts};
ghost use Rattle.unison_world.specs.View.{opened};
ghost use Rattle.run_steps.specs.declared.verify.entry.Entry.{Entry};
ghost use Rattle.run_steps.specs.verify.Traces.{HoldsAs, IsFound, IsRefused, has_value};
ghost use Rattle.run_steps.specs.Previous.{HasPrevious};
ghost use Rattle.run_steps.specs.verify.Walks.{IsStopped, IsWalked, Walked};

use crate::previous::opening_states;
use crate::verify::entry::Entry;
use crate::verify::fault::VerifyFault;
use crate::verify::line_reader::entry_at;
use crate::verify::steps::hold;
use crate::verify::verified::Verified;
use import_lines::Lines;
use net_names::NodeNames;
use rounds_plan::{MOST_ROUNDS, SimplePlan};
use rule_check::State;
use std::alloc::{AllocError, Global};
use unison_world::{OpenFault, WorldRef};

/// Whether an entry gives a value.
fn has_value(entry: &Entry) -> bool
    ensures { result ≡ has_value entry.now }
{
    for value in &entry.given.values {
        if value.is_some() {
            return true;
        }
    }
    false
}

/// One for an entry that gives a value.
fn one_if_valued(entry: &Entry) -> u64
    ensures one { result ≡ cond (has_value entry.now) 1 0 }
    ensures most { result ≤ 1 }
{
    if has_value(entry) { 1 } else { 0 }
}

/// Makes the steps of all lines, where they hold; how many lines there are, and how many of them give a value.
fn walk(
    alloc: Global,
    world: &mut WorldRef<'_>,
    before: &mut [State],
    names: Option<&NodeNames>,
    text: &[u8],
) -> Result<(u64, u64), VerifyFault>
    requires opened { world.old ≡ opened world.old.plan most_rounds }
    requires before { HasPrevious world.old before.old }
    ensures walked { IfOk result (λ n. Walked world.old.plan (option_map (λ n. n.now) names.entry) (told_from 1 text.now) [] world.new.counts n.0 n.1) }
    ensures plan { OnOk result (world.new.plan ≡ world.old.plan) }
    ensures refused { IfErr result (IsStopped world.old.plan (option_map (λ n. n.now) names.entry) text.now) }
{
    let mut said = 0;
    let mut valued = 0;
    let mut lines = Lines::of(text);
    while let Some((number, bytes)) = lines.next_told() {
        let entry = entry_at(alloc, world.plan(), names, number, bytes)?;
        hold(world, before, number, &entry)?;
        said += 1;
        valued += one_if_valued(&entry);
    }
    Ok((said, valued))
}

/// The counts of all nodes.
fn counts_of(alloc: Global, world: &WorldRef<'_>) -> Result<Vec<u32>, AllocError>
    ensures counts { IfOk result (λ v. v.items ≡ world.now.counts.moves) }
{
    let mut counts = Vec::new(alloc);
    for node in 0..world.nodes() {
        counts.push(world.moves(node))?;
    }
    Ok(counts)
}

/// The world of a plan before any step, whose nodes may move as often as there are rounds.
fn opened<'a>(alloc: Global, plan: SimplePlan<'a>) -> Result<WorldRef<'a>, AllocError>
    ensures opened { IfOk result (λ world. world ≡ opened plan.entry most_rounds) }
{
    // For the proof alone: the call tells that no plan starts behind the last round.
    let _nodes = plan.nodes();
    match WorldRef::new(alloc, plan, MOST_ROUNDS) {
        Ok(world) => Ok(world),
        Err(_) => Err(AllocError),
    }
}

/// What is found of a trace of a run on a world before any step.
fn verify_on(
    alloc: Global,
    mut world: WorldRef<'_>,
    names: Option<&NodeNames>,
    text: &[u8],
) -> Result<Verified, VerifyFault>
    requires opened { world ≡ opened world.plan most_rounds }
    ensures found { IfOk result (IsWalked world.entry.plan (option_map (λ n. n.now) names.entry) text.now) }
    ensures refused { IfErr result (IsStopped world.entry.plan (option_map (λ n. n.now) names.entry) text.now) }
{
    let mut before = opening_states(alloc, &world)?;
    let (lines, valued) = walk(alloc, &mut world, &mut before, names, text)?;
    let counts = counts_of(alloc, &world)?;
    Ok(Verified {
        lines,
        valued,
        counts,
    })
}

/// What is found of a trace of a run that was made elsewhere, a line for each step, where all lines hold: they are a run of
/// the count machine from the plan's start, in which each read is taken and each move made, and each value that they give
/// is that of the lockstep state which the step shows.
///
/// A line ends at LF or at the end of the text. Its words are parted by blanks, tabs or commas, and a CR is taken as a
/// blank; a word that begins with `#` begins a comment, which goes to the end of the line. A line without words, or
/// whose first word begins with `#` or `%`, is passed over, whatever bytes stand in it. Each other line has one of
/// these forms:
///
/// - `NODE reads NODE: FIELD=VALUE ..`: the first node reads the second, its neighbour, whose state after as many rounds
/// as the first has moved has these values;
/// - `NODE moves: FIELD=VALUE ..` or `NODE turn: FIELD=VALUE ..`: the node moves, and its state after as many rounds as it
/// has moved then has these values.
///
/// The colon may be left out, and so may any field, and all. A node is called by its number, in decimal digits without
/// leading zeros, or, where names are given, by its name alone; a name that ends with a colon is written with one more
/// where it is read.
///
/// A line whose first word begins with `{` is a JSON object on that line, whole. It has a member `node` and either one
/// `reads`, whose value calls the neighbour, or one `moves` or `turn` with the value `true`; and, where values are given,
/// `state`, an object whose members are fields with numbers. A string calls a node as that word does, and a number by
/// itself where no names are given. Other members are passed over, and of members with one name the last counts.
///
/// The fault is that of the first line that says nothing of this, or does not hold behind those before it. `Memory` comes
/// only where memory runs out.
pub fn verify(
    alloc: Global,
    plan: SimplePlan<'_>,
    names: Option<&NodeNames>,
    text: &[u8],
) -> Result<Verified, VerifyFault>
    ensures found { IfOk result (IsFound plan.entry (option_map (λ n. n.now) names.entry) text.now) }
    ensures refused { IfErr result (IsRefused plan.entry (option_map (λ n. n.now) names.entry) text.now) }
    ensures accepted { (entries : List Entry) (counts : Counts) → HoldsAs plan.entry (option_map (λ n. n.now) names.entry) text.now entries counts → IfErr result (λ fault. fault ≡ VerifyFault.Memory) }
{
    // For the proof alone: the calls tell what holds of every plan, and that its fields have different names.
    let _nodes = plan.nodes();
    let _fields = plan.program().field_count();
    let world = opened(alloc, plan)?;
    verify_on(alloc, world, names, text)
}
