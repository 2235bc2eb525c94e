//! Lines that are read.
ghost use Rattle.std.specs.Prelude.{◌≡◌, ◌∷◌, [], MatchOption};
ghost use Rattle.std.specs.Option.{option_map};
ghost use Rattle.import_lines.specs.Parts.{shown};
ghost use Rattle.run_steps.specs.script.Words.{is_comment, words_in};
ghost use Rattle.run_steps.specs.script.Meaning.{fault_at, text_at, two_words, reads_line, three_words, one_word, long_line, line_of, line_at};

use crate::script::action::Action;
use crate::script::fault::StepTextFault;
use crate::script::line::Line;
use crate::script::nodes::{count_at, node_at, slot_at};
use import_lines::{WordsFault, line_text, next_word};
use link_net::Network;
use net_names::NodeNames;

/// Whether a word begins a comment.
fn is_comment(word: &str) -> bool
    ensures { result ≡ is_comment word.now }
{
    match word.as_bytes().first() {
        Some(byte) => *byte == b'#',
        None => false,
    }
}

/// The next word of a line, where it does not begin a comment, and what stands after it; none where no word is left or a
/// comment begins. Words are parted by blanks, tabs, CRs and commas.
pub fn next_said(text: &str) -> Option<(&str, &str)>
    ensures { MatchOption result (words_in text.now ≡ []) (λ x. words_in text.now ≡ x.0.now ∷ words_in x.1.now) }
{
    let (word, rest) = next_word(text)?;
    if is_comment(word) {
        return None;
    }
    Some((word, rest))
}

/// Why a line may not be shown.
fn fault_at(line: u64, fault: WordsFault) -> StepTextFault
    ensures { result ≡ fault_at line fault }
{
    match fault {
        WordsFault::NotUtf8 => StepTextFault::NotUtf8 { line },
        WordsFault::ControlCharacter => StepTextFault::ControlCharacter { line },
        WordsFault::LongLine => StepTextFault::LongLine { line },
        WordsFault::OneWord => StepTextFault::NoSuchLine { line },
        WordsFault::TooManyWords => StepTextFault::NoSuchLine { line },
    }
}

/// What a line of one word says.
fn one_word(line: u64, word: &str) -> Result<Line, StepTextFault>
    ensures { result ≡ one_word line word.now }
{
    if word == "sweep" {
        return Ok(Line::Act {
            action: Action::Sweep,
        });
    }
    if word == "}" {
        return Ok(Line::End);
    }
    Err(StepTextFault::NoSuchLine { line })
}

/// What a line of two words says.
fn two_words(
    network: &Network,
    names: Option<&NodeNames>,
    line: u64,
    first: &str,
    second: &str,
) -> Result<Action, StepTextFault>
    ensures { result ≡ two_words network.now (option_map (λ n. n.now) names.entry) line first.now second.now }
{
    if second == "moves" {
        let node = node_at(network, names, line, 1, first)?;
        return Ok(Action::Move { node });
    }
    if second == "turn" {
        let node = node_at(network, names, line, 1, first)?;
        return Ok(Action::Turn { node });
    }
    Err(StepTextFault::NoSuchLine { line })
}

/// What a line says by which a node reads.
fn reads_line(
    network: &Network,
    names: Option<&NodeNames>,
    line: u64,
    first: &str,
    third: &str,
) -> Result<Action, StepTextFault>
    ensures { result ≡ reads_line network.now (option_map (λ n. n.now) names.entry) line first.now third.now }
{
    let node = node_at(network, names, line, 1, first)?;
    if third == "all" {
        return Ok(Action::ReadAll { node });
    }
    let neighbour = node_at(network, names, line, 3, third)?;
    let slot = slot_at(network, line, node, neighbour)?;
    Ok(Action::ReadSlot { node, slot })
}

/// What a line of three words says.
fn three_words(
    network: &Network,
    names: Option<&NodeNames>,
    line: u64,
    first: &str,
    second: &str,
    third: &str,
) -> Result<Line, StepTextFault>
    ensures { result ≡ three_words network.now (option_map (λ n. n.now) names.entry) line first.now second.now third.now }
{
    if first == "repeat" && third == "{" {
        let count = count_at(line, second)?;
        return Ok(Line::Repeat { count });
    }
    if second == "reads" {
        let action = reads_line(network, names, line, first, third)?;
        return Ok(Line::Act { action });
    }
    Err(StepTextFault::NoSuchLine { line })
}

/// What a line says that has these two words and what stands after them.
fn long_line(
    network: &Network,
    names: Option<&NodeNames>,
    line: u64,
    first: &str,
    second: &str,
    rest: &str,
) -> Result<Line, StepTextFault>
    ensures { result ≡ long_line network.now (option_map (λ n. n.now) names.entry) line first.now second.now (words_in rest.now) }
{
    let Some((third, behind)) = next_said(rest) else {
        let action = two_words(network, names, line, first, second)?;
        return Ok(Line::Act { action });
    };
    if next_said(behind).is_some() {
        return Err(StepTextFault::NoSuchLine { line });
    }
    three_words(network, names, line, first, second, third)
}

/// What a line of these words says.
fn line_of(
    network: &Network,
    names: Option<&NodeNames>,
    line: u64,
    text: &str,
) -> Result<Line, StepTextFault>
    ensures { result ≡ line_of network.now (option_map (λ n. n.now) names.entry) line (words_in text.now) }
{
    let Some((first, rest)) = next_said(text) else {
        return Err(StepTextFault::NoSuchLine { line });
    };
    let Some((second, rest)) = next_said(rest) else {
        return one_word(line, first);
    };
    long_line(network, names, line, first, second, rest)
}

/// What a line says.
pub(crate) fn line_at(
    network: &Network,
    names: Option<&NodeNames>,
    line: u64,
    bytes: &[u8],
) -> Result<Line, StepTextFault>
    ensures { result ≡ line_at network.now (option_map (λ n. n.now) names.entry) (line, bytes.now) }
{
    match line_text(bytes) {
        Ok(text) => line_of(network, names, line, text),
        Err(fault) => Err(fault_at(line, fault)),
    }
}
