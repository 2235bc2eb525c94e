//! The members of states.

ghost use Rattle.std.specs.Prelude.{◌≡◌, IfOk, map, string_bytes};
ghost use Rattle.std.specs.Option.{option_map};
ghost use Rattle.model_text.specs.View.{items_of, name_of};
ghost use Rattle.model_rules.specs.States.{members_of, spellings, names_for};

use model_text::{Item, Name};
use std::alloc::{AllocError, Global};

/// The spellings of names.
fn spellings(alloc: Global, names: &[Name]) -> Result<Vec<String>, AllocError>
    ensures exact { IfOk result (λ texts. map string_bytes texts.items ≡ spellings (map name_of names.now)) }
{
    let mut texts = Vec::new(alloc);
    for name in names {
        texts.push(String::from_str(alloc, &name.name)?)?;
    }
    Ok(texts)
}

/// The members of the states of a name; none where no states have it.
fn members_of(alloc: Global, items: &[Item], name: &str) -> Result<Vec<String>, AllocError>
    ensures exact { IfOk result (λ texts. map string_bytes texts.items ≡ members_of (items_of items.now) name.now) }
{
    for item in items {
        if let Item::States {
            name: shared,
            members,
        } = item
        {
            if shared.name.as_str() == name {
                return spellings(alloc, members);
            }
        }
    }
    Ok(Vec::new(alloc))
}

/// The names of the values of a field that has these states, or none.
pub(crate) fn names_for(
    alloc: Global,
    items: &[Item],
    states: &Option<Name>,
) -> Result<Vec<String>, AllocError>
    ensures exact { IfOk result (λ texts. map string_bytes texts.items ≡ names_for (items_of items.now) (option_map name_of states.now)) }
{
    match states {
        None => Ok(Vec::new(alloc)),
        Some(shared) => members_of(alloc, items, &shared.name),
    }
}
