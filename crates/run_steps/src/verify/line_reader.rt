//! Lines that are read.
ghost use Rattle.std.specs.Prelude.{◌≡◌, IfOk};
ghost use Rattle.std.specs.Option.{option_map};
ghost use Rattle.rule_check.specs.Value.{names_of};
ghost use Rattle.run_steps.specs.script.Words.{words_in};
ghost use Rattle.run_steps.specs.verify.Meaning.{fault_at, without_colon, is_move, entry_of, move_entry, read_entry, reads_line, long_line, line_of, opens_object, begins_object, text_entry, entry_at};
ghost use Rattle.import_lines.specs.Texts.{words_of};
ghost use Rattle.run_steps.specs.verify.Fields.{IsAnswer};
ghost use Rattle.run_steps.specs.verify.Walks.{IsStepOf};

use crate::script::{next_said, node_called};
use crate::verify::entry::Entry;
use crate::verify::fault::VerifyFault;
use crate::verify::fields::values_in;
use crate::verify::nodes::{node_found, slot_found};
use crate::verify::objects::object_entry;
use import_lines::{WordsFault, line_text, next_word};
use net_names::NodeNames;
use rounds_plan::SimplePlan;
use std::alloc::Global;
use unison_world::Step;

/// Why a line may not be shown.
fn fault_at(line: u64, fault: WordsFault) -> VerifyFault
    ensures { result ≡ fault_at line fault }
{
    match fault {
        WordsFault::NotUtf8 => VerifyFault::NotUtf8 { line },
        WordsFault::ControlCharacter => VerifyFault::ControlCharacter { line },
        WordsFault::LongLine => VerifyFault::LongLine { line },
        WordsFault::OneWord => VerifyFault::NoSuchLine { line },
        WordsFault::TooManyWords => VerifyFault::NoSuchLine { line },
    }
}

/// A word without the colon at its end, where it has one.
fn without_colon(word: &str) -> &str
    ensures { result.now ≡ without_colon word.now }
{
    word.strip_suffix(':').unwrap_or(word)
}

/// Whether a word lets a node move.
fn is_move(word: &str) -> bool
    ensures { result ≡ is_move word.now }
{
    word == "moves" || word == "turn"
}

/// A step, and the values that the words of a text give.
fn entry_of(plan: &SimplePlan<'_>, line: u64, step: Step, text: &str) -> Result<Entry, VerifyFault>
    ensures exact { result ≡ entry_of (names_of plan.now.program) line step (words_in text.now) }
    ensures step { IfOk result (λ e. e.step ≡ step) }
{
    let given = values_in(plan.program(), line, text)?;
    Ok(Entry { step, given })
}

/// The entry of a line by which a node moves.
#[tactic(auto, unfolding(crate::specs::verify::Meaning::move_entry))]
fn move_entry(
    plan: &SimplePlan<'_>,
    names: Option<&NodeNames>,
    line: u64,
    first: &str,
    rest: &str,
) -> Result<Entry, VerifyFault>
    ensures exact { result ≡ move_entry plan.now (option_map (λ n. n.now) names.entry) line first.now (words_in rest.now) }
    ensures step { IfOk result (λ e. IsStepOf plan.now.network e.step) }
{
    let node = node_found(plan, line, node_called(&plan.rows(), names, first))?;
    entry_of(plan, line, Step::Write { node }, rest)
}

/// The entry of a line by which a node reads.
#[tactic(auto, unfolding(crate::specs::verify::Meaning::read_entry))]
fn read_entry(
    plan: &SimplePlan<'_>,
    names: Option<&NodeNames>,
    line: u64,
    first: &str,
    third: &str,
    rest: &str,
) -> Result<Entry, VerifyFault>
    ensures exact { result ≡ read_entry plan.now (option_map (λ n. n.now) names.entry) line first.now third.now (words_in rest.now) }
    ensures step { IfOk result (λ e. IsStepOf plan.now.network e.step) }
{
    let node = node_found(plan, line, node_called(&plan.rows(), names, first))?;
    let called = node_called(&plan.rows(), names, without_colon(third));
    let slot = slot_found(plan, line, node, called)?;
    entry_of(plan, line, Step::Read { node, slot }, rest)
}

/// The entry of a line whose second word is `reads`.
fn reads_line(
    plan: &SimplePlan<'_>,
    names: Option<&NodeNames>,
    line: u64,
    first: &str,
    rest: &str,
) -> Result<Entry, VerifyFault>
    ensures exact { result ≡ reads_line plan.now (option_map (λ n. n.now) names.entry) line first.now (words_in rest.now) }
    ensures step { IfOk result (λ e. IsStepOf plan.now.network e.step) }
{
    let Some((third, rest)) = next_said(rest) else {
        return Err(VerifyFault::NoSuchLine { line });
    };
    read_entry(plan, names, line, first, third, rest)
}

/// The entry of a line that has these two words and what stands after them.
fn long_line(
    plan: &SimplePlan<'_>,
    names: Option<&NodeNames>,
    line: u64,
    first: &str,
    second: &str,
    rest: &str,
) -> Result<Entry, VerifyFault>
    ensures exact { result ≡ long_line plan.now (option_map (λ n. n.now) names.entry) line first.now second.now (words_in rest.now) }
    ensures step { IfOk result (λ e. IsStepOf plan.now.network e.step) }
{
    if is_move(without_colon(second)) {
        return move_entry(plan, names, line, first, rest);
    }
    if second == "reads" {
        return reads_line(plan, names, line, first, rest);
    }
    Err(VerifyFault::NoSuchLine { line })
}

/// The entry of a line of these words.
fn line_of(
    plan: &SimplePlan<'_>,
    names: Option<&NodeNames>,
    line: u64,
    text: &str,
) -> Result<Entry, VerifyFault>
    ensures exact { result ≡ line_of plan.now (option_map (λ n. n.now) names.entry) line (words_in text.now) }
    ensures step { IfOk result (λ e. IsStepOf plan.now.network e.step) }
{
    let Some((first, rest)) = next_said(text) else {
        return Err(VerifyFault::NoSuchLine { line });
    };
    let Some((second, rest)) = next_said(rest) else {
        return Err(VerifyFault::NoSuchLine { line });
    };
    long_line(plan, names, line, first, second, rest)
}

/// Whether a word begins with `{`.
fn opens_object(word: &str) -> bool
    ensures { result ≡ opens_object word.now }
{
    match word.as_bytes().first() {
        Some(byte) => *byte == b'{',
        None => false,
    }
}

/// Whether the first word of a text begins with `{`.
fn begins_object(text: &str) -> bool
    ensures { result ≡ begins_object (words_of text.now) }
{
    match next_word(text) {
        Some((word, _)) => opens_object(word),
        None => false,
    }
}

/// What a line of this text says.
#[tactic(auto, unfolding(crate::specs::verify::Meaning::text_entry))]
fn text_entry(
    alloc: Global,
    plan: &SimplePlan<'_>,
    names: Option<&NodeNames>,
    line: u64,
    text: &str,
) -> Result<Entry, VerifyFault>
    ensures exact { IsAnswer (text_entry plan.now (option_map (λ n. n.now) names.entry) line text.now) result }
    ensures step { IfOk result (λ e. IsStepOf plan.now.network e.step) }
{
    if begins_object(text) {
        object_entry(alloc, plan, names, line, text)
    } else {
        line_of(plan, names, line, text)
    }
}

/// What a line says.
#[tactic(auto, unfolding(crate::specs::verify::Meaning::entry_at))]
pub(crate) fn entry_at(
    alloc: Global,
    plan: &SimplePlan<'_>,
    names: Option<&NodeNames>,
    line: u64,
    bytes: &[u8],
) -> Result<Entry, VerifyFault>
    ensures exact { IsAnswer (entry_at plan.now (option_map (λ n. n.now) names.entry) (line, bytes.now)) result }
    ensures step { IfOk result (λ e. IsStepOf plan.now.network e.step) }
{
    match line_text(bytes) {
        Ok(text) => text_entry(alloc, plan, names, line, text),
        Err(fault) => Err(fault_at(line, fault)),
    }
}
