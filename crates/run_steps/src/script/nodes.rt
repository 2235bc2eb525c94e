//! Nodes, slots and counts that words call.
ghost use Rattle.std.specs.Prelude.{◌≡◌, ◌↔◌, ◌<◌, ◌^◌, ℕ, Some};
ghost use Rattle.std.specs.Fmt.{decimal};
ghost use Rattle.std.specs.Option.{option_map};
ghost use Rattle.run_steps.specs.script.Spelled.{Calls};
ghost use Rattle.run_steps.specs.script.Words.{number_in, called_in, node_called, node_at, slot_at, count_at};

use crate::script::fault::StepTextFault;
use link_net::{NetRows, Network};
use net_names::NodeNames;
use report_text::read_number;

/// The most times that lines may be repeated.
const MOST_REPEATS: u32 = 1_000_000;

/// The number from 0 to 4,294,967,295 whose spelling in decimal digits a word is, without leading zeros; none where it is no
/// number's.
pub fn number_in(word: &str) -> Option<u32>
    ensures exact { result ≡ number_in word.now }
    ensures spelled { (n : ℕ) → (result ≡ Some n) ↔ (n < 2 ^ 32) × (word.now ≡ decimal n) }
{
    let (number, rest) = read_number(word.as_bytes())?;
    if !rest.is_empty() {
        return None;
    }
    Some(number)
}

/// The number of the node that a word calls, where names are given by its name alone.
fn called_in(names: Option<&NodeNames>, word: &str) -> Option<u32>
    ensures { result ≡ called_in (option_map (λ n. n.now) names.entry) word.now }
{
    match names {
        Some(names) => names.number_of(word),
        None => number_in(word),
    }
}

/// The node of a network with these rows that a word calls: by its number, in decimal digits without leading zeros, or, where names are
/// given, by its name alone; none where it calls none.
pub fn node_called(rows: &NetRows<'_>, names: Option<&NodeNames>, word: &str) -> Option<u32>
    ensures exact { result ≡ node_called rows.now (option_map (λ n. n.now) names.entry) word.now }
    ensures calls { (u : ℕ) → (result ≡ Some u) ↔ Calls rows.now (option_map (λ n. n.now) names.entry) word.now u }
{
    let nodes = rows.nodes();
    let node = called_in(names, word)?;
    if node >= nodes {
        return None;
    }
    Some(node)
}

/// The node that a word calls, which is the word at this place of a line.
pub(crate) fn node_at(
    network: &Network,
    names: Option<&NodeNames>,
    line: u64,
    place: u32,
    word: &str,
) -> Result<u32, StepTextFault>
    ensures { result ≡ node_at network.now (option_map (λ n. n.now) names.entry) line place word.now }
{
    match node_called(&network.rows(), names, word) {
        Some(node) => Ok(node),
        None => Err(StepTextFault::NoNode { line, word: place }),
    }
}

/// The slot of a node at which a neighbour stands.
pub(crate) fn slot_at(
    network: &Network,
    line: u64,
    node: u32,
    neighbour: u32,
) -> Result<u32, StepTextFault>
    ensures { result ≡ slot_at network.now line node neighbour }
{
    match network.slot_of(node, neighbour) {
        Some(slot) => Ok(slot),
        None => Err(StepTextFault::NotNeighbour { line }),
    }
}

/// The count of a repeat.
pub(crate) fn count_at(line: u64, word: &str) -> Result<u32, StepTextFault>
    ensures { result ≡ count_at line word.now }
{
    match number_in(word) {
        Some(count) => {
            if count < 1 || count > MOST_REPEATS {
                return Err(StepTextFault::BadCount { line });
            }
            Ok(count)
        }
        None => Err(StepTextFault::BadCount { line }),
    }
}
