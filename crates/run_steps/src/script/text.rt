//! The steps of a text.
ghost use Rattle.std.specs.Prelude.{◌≡◌, ◌≢◌, ◌≤◌, List, length, IfOk, IfErr};
ghost use Rattle.std.specs.Option.{option_map};
ghost use Rattle.unison_world.specs.declared.step.Step.{Step};
ghost use Rattle.unison_trace.specs.Histories.{most_steps};
ghost use Rattle.run_steps.specs.script.Runs.{IsAnswer, closed, last_open, read_text};
ghost use Rattle.run_steps.specs.script.Texts.{Says};
ghost use Rattle.run_steps.specs.script.Refusals.{IsRefused};

use crate::script::fault::StepTextFault;
use crate::script::open_repeat::OpenRepeat;
use crate::script::put::put_told;
use import_lines::Lines;
use link_net::Network;
use net_names::NodeNames;
use std::alloc::Global;
use unison_world::Step;

/// The steps, where no repeat is open.
fn closed(steps: Vec<Step>, opens: &[OpenRepeat]) -> Result<Vec<Step>, StepTextFault>
    ensures { IsAnswer (λ v. v.items) (closed steps.items (last_open opens.now)) result }
{
    match opens.last() {
        None => Ok(steps),
        Some(last) => Err(StepTextFault::RepeatWithoutEnd { line: last.line }),
    }
}

/// The steps of all lines.
fn read_text(
    alloc: Global,
    network: &Network,
    names: Option<&NodeNames>,
    text: &[u8],
) -> Result<Vec<Step>, StepTextFault>
    ensures { IsAnswer (λ v. v.items) (read_text network.now (option_map (λ n. n.now) names.entry) text.now) result }
{
    let mut steps = Vec::new(alloc);
    let mut opens = Vec::new(alloc);
    let mut lines = Lines::of(text);
    while let Some((number, bytes)) = lines.next_told() {
        put_told(&mut steps, &mut opens, network, names, number, bytes)?;
    }
    closed(steps, &opens)
}

/// The steps that a text says, in order.
///
/// A line ends at LF or at the end of the text. Its words are parted by blanks, tabs or commas, and a CR is taken as a
/// blank; a word that begins with `#` begins a comment, which goes to the end of the line. A line without words, or
/// whose first word begins with `#` or `%`, is passed over, whatever bytes stand in it. Each other line has one of
/// these forms, and the first that fits is the line's:
///
/// - `sweep`: a turn of each node by rising number;
/// - `}`: the end of the last `repeat` that has none yet;
/// - `NODE moves`: the node moves;
/// - `NODE turn`: the node reads all its slots by rising number, and then it moves;
/// - `repeat COUNT {`: the lines up to the `}` that belongs to it come so many times, from 1 to 1,000,000; it may stand
/// inside 63 others;
/// - `NODE reads all`: the node reads all its slots by rising number;
/// - `NODE reads NODE`: the first node reads the slot at which it has the second as its neighbour.
///
/// A node is called by its number, in decimal digits without leading zeros. Where names are given, it is called by its
/// name alone, and numbers call nothing, except as names. So a node can't be called whose name has a blank or a comma
/// in it, or begins with `#`, or begins with `%` where it is the first word of a line; a node that is called `all` can't
/// be read by its name alone, nor can one that is called `{` by one that is called `repeat`.
///
/// The fault is that of the first line that can't stand after those before it; `RepeatWithoutEnd` comes where all
/// lines stand. There are at most 1,000,000 steps. `Memory` comes only where memory runs out.
pub fn written(
    alloc: Global,
    network: &Network,
    names: Option<&NodeNames>,
    text: &[u8],
) -> Result<Vec<Step>, StepTextFault>
    ensures steps { IfOk result (λ v. Says network.now (option_map (λ n. n.now) names.entry) text.now v.items) }
    ensures only { (steps : List Step) → Says network.now (option_map (λ n. n.now) names.entry) text.now steps → IfOk result (λ v. v.items ≡ steps) }
    ensures few { IfOk result (λ v. length v.items ≤ most_steps) }
    ensures refused { IfErr result (IsRefused network.now (option_map (λ n. n.now) names.entry) text.now) }
    ensures memory { (steps : List Step) → Says network.now (option_map (λ n. n.now) names.entry) text.now steps → IfErr result (λ fault. fault ≡ StepTextFault.Memory) }
{
    // For the proof alone: the call tells what holds of every network.
    let _nodes = network.nodes();
    let steps = read_text(alloc, network, names, text)?;
    Ok(steps)
}
