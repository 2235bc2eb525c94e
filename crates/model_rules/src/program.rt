//! From the text of a model to that of its program.

ghost use Rattle.std.specs.Prelude.{◌≡◌, IfOk, IfErr, OnOk};
ghost use Rattle.std.specs.List.{AllByRecursion};
ghost use Rattle.rule_lang.specs.View.{items_of as rules_of};
ghost use Rattle.model_text.specs.View.{items_of};
ghost use Rattle.model_rules.specs.ScopeView.{givens_of};
ghost use Rattle.model_rules.specs.Lines.{lines_of};
ghost use Rattle.model_rules.specs.ProgramTexts.{IsExpanded, IsRefusedAs};
ghost use Rattle.model_rules.specs.Written.{text_made};
ghost use Rattle.rule_lang.specs.Numbers.{HasItemNumbers};

use crate::lines::rule_lines;
use crate::model::expand_model;
use crate::program_fault::ModelProgramFault;
use crate::scope::Given;
use crate::spelling::spelled;
use model_text::{Item, read_model};
use rule_lang::Item as Rule;
use std::alloc::{AllocError, Global};

/// The most bytes of a program text.
const MOST_BYTES: usize = 65536;

/// The text of the rules, each after a comment with the line of the model on which its name stands, where it then has no
/// more bytes than a program text may have, and else without comments.
#[tactic(auto, using(crate::proofs::ProgramTexts::plain_is))]
fn text_of(
    alloc: Global,
    text: &[u8],
    items: &[Item],
    rules: &[Rule],
) -> Result<Vec<u8>, AllocError>
    ensures exact { IfOk result (λ bytes. bytes.items ≡ text_made (lines_of text.now (items_of items.now)) (rules_of rules.now)) }
    ensures numbers { OnOk result (AllByRecursion HasItemNumbers (rules_of rules.now)) }
{
    let lines = rule_lines(alloc, text, items)?;
    let bytes = spelled(alloc, &lines, rules)?;
    if bytes.len() <= MOST_BYTES {
        return Ok(bytes);
    }
    let plain = spelled(alloc, &[], rules)?;
    Ok(plain)
}

/// The text of the program that the model of a text is expanded to, where the caller sets these constants: one line for
/// each field and each next value, in the model's order and in the canonical spelling, after a comment `# line 7` with the
/// line of the model, counted from 1, on which the name of the field or the next value stands. Where the text with its
/// comments would have more than 65,536 bytes, it has none. The program is the model's: it has its fields, and the next
/// state of each node is the model's, whatever the round, the number, the state and the neighbours are.
/// `ModelProgramFault` says when each error comes.
pub fn expanded(alloc: Global, text: &[u8], given: &[Given]) -> Result<Vec<u8>, ModelProgramFault>
    ensures program { IfOk result (λ bytes. IsExpanded text.now (givens_of given.now) bytes.items) }
    ensures refused { IfErr result (IsRefusedAs text.now (givens_of given.now)) }
{
    let items = read_model(alloc, text)?;
    let rules = expand_model(&items, given, alloc)?;
    let bytes = text_of(alloc, text, &items, &rules)?;
    Ok(bytes)
}
