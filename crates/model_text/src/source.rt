//! A model that was read.

ghost use Rattle.std.specs.Prelude.{◌≡◌, List, ℕ};
ghost use Rattle.model_text.specs.Tree.{ItemTree};
ghost use Rattle.model_text.specs.View.{items_of};
ghost use Rattle.model_text.specs.Models.{HasModel, IsReadAs};

use crate::fault::ModelFault;
use crate::items::items;
use crate::lex::tokens;
use crate::tree::Item;
use std::alloc::Global;

/// The longest text, in bytes.
const TEXT_LIMIT: usize = 65536;

/// The model that a text is: its items, in order. `Ok` exactly where the text has at most 65,536 bytes, a token list and
/// a tree, running out of memory aside. `ModelFault` says when each error comes.
pub fn read_model(alloc: Global, text: &[u8]) -> Result<Vec<Item>, ModelFault>
    ensures read { IsReadAs text.now (λ items. items_of items.items) result }
{
    if text.len() > TEXT_LIMIT {
        return Err(ModelFault::TooLong);
    }
    let lexemes = tokens(alloc, text)?;
    match items(alloc, &lexemes) {
        Ok(items) => Ok(items),
        Err(stuck) => Err(stuck.fault(&lexemes, text.len() as u32)),
    }
}

/// A law, which does nothing when it runs: a text is one model at most.
pub fn one_model()
    ensures one { (text : List ℕ) (left right : List ItemTree)
        → HasModel text left → HasModel text right → left ≡ right }
{}
