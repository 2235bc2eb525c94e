//! A program that was read.

ghost use Rattle.std.specs.Prelude.{◌≡◌, ◌↔◌, ◌≤◌, List, ℕ, length, IfErr, IfOk, IfSome, IsTrue, Result, MatchResult};
ghost use Rattle.rule_lang.specs.Tree.{ItemTree};
ghost use Rattle.rule_lang.specs.View.{items_of};
ghost use Rattle.rule_lang.specs.Program.{HasProgram, IsExplained, IsProgram, IsReadAs, place_of};
ghost use Rattle.rule_lang.specs.Causes.{IsPlaced, IsReadBy};
ghost use Rattle.rule_lang.specs.Canonical.{program_text};
ghost use Rattle.rule_lang.specs.declared.fault.LangFault.{LangFault};

use crate::cause::{LangCause, Refusal};
use crate::fault::LangFault;
use crate::lex::{TEXT_LIMIT, tokens};
use crate::parse::items;
use crate::same::same_items;
use crate::tree::Item;
use std::alloc::{AllocError, Global};
use std::marker::Model;

/// The items of a program text: names are no reserved words, numbers are below 2^32, and each
/// expression has depth 64 at most.
#[derive(Drop)]
pub struct Source {
    items: Vec<Item>,
}

impl Model for Source {
    ghost use Rattle.std.specs.Prelude.{List};
    ghost use Rattle.rule_lang.specs.Program.{IsProgram};
    ghost use Rattle.rule_lang.specs.View.{items_of};
    ghost use Rattle.rule_lang.specs.Tree.{ItemTree};
    ghost use Rattle.rule_lang.specs.TreeCode.{coded_item};
    ghost use Rattle.std.specs.Coded.{codes};

    ghost Value = { List ItemTree };

    ghost coded = { Prim.hlevel (codes, coded_item) };

    ghost view = { λ s. items_of s.items.items };

    ghost invariant = { λ s. IsProgram (items_of s.items.items) };
}

impl Source {
    /// The items, in order.
    pub fn items(&self) -> &[Item]
        ensures same { items_of result.now ≡ self.now }
        ensures whole { IsProgram self.now }
    {
        self.items.as_slice()
    }

    /// Whether both have the same items in the same order.
    pub fn same(&self, other: &Source) -> bool
        ensures exact { IsTrue result ↔ (self.now ≡ other.now) }
    {
        same_items(&self.items, &other.items)
    }
}

/// The program that a text is, or why there is none.
fn read(alloc: Global, text: &[u8]) -> Result<Source, Refusal>
    ensures read { IsReadBy text.now (λ source. source) result }
    ensures place { IfErr result (IsPlaced (length text.now)) }
{
    if text.len() > TEXT_LIMIT {
        return Err(Refusal::Cause(LangCause::TooLong));
    }
    let lexemes = tokens(alloc, text)?;
    match items(alloc, &lexemes) {
        Ok(items) => Ok(Source { items }),
        Err(stuck) => Err(stuck.refusal(&lexemes, text.len() as u32)),
    }
}

/// The program that a text is: `Ok` exactly where the text has at most 65,536 bytes, a token list and a tree, running
/// out of memory aside. `LangFault` says when each error comes.
pub fn read_program(alloc: Global, text: &[u8]) -> Result<Source, LangFault>
    ensures read { IsReadAs text.now (λ source. source) result }
{
    match read(alloc, text) {
        Ok(source) => Ok(source),
        Err(refusal) => Err(refusal.fault()),
    }
}

/// Why a text is no program, and where: none exactly where `read_program` gives a program, running out of memory aside.
/// A text that is too long takes no memory.
pub fn diagnose(alloc: Global, text: &[u8]) -> Result<Option<LangCause>, AllocError>
    ensures agrees { IfOk result (IsExplained text.now) }
    ensures place { IfOk result (λ found. IfSome found (λ cause. place_of cause ≤ length text.now)) }
    ensures at_once { IfErr result (λ _. length text.now ≤ 65536) }
{
    match read(alloc, text) {
        Ok(_) => Ok(None),
        Err(Refusal::Cause(cause)) => Ok(Some(cause)),
        Err(Refusal::Memory) => Err(AllocError),
    }
}

/// A law, which does nothing when it runs: a text has the items of one program at most.
pub fn one_program()
    ensures one { (text : List ℕ) (left right : List ItemTree)
        → HasProgram text left → HasProgram text right → left ≡ right }
{}

/// A law, which does nothing when it runs: the canonical spelling of the items of a `Source` has these items; where it
/// has at most 65,536 bytes, `read_program` gives an equal `Source` for it, running out of memory aside.
pub fn canonical_is_read_back()
    ensures spelled { (items : List ItemTree) → IsProgram items → HasProgram (program_text items) items }
    // Any answer that `read_program` can give for the spelling, by its clause `read`.
    ensures read_back { (items : List ItemTree) (answer : Result (List ItemTree) LangFault)
        → IsProgram items → length (program_text items) ≤ 65536
        → IsReadAs (program_text items) (λ source. source) answer
        → MatchResult answer (λ source. source ≡ items) (λ fault. fault ≡ LangFault.Memory) }
{}
