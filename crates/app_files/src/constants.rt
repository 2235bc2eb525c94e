//! Constants of a model that words give values: numbers, chances and names of states.

use crate::ending::Ending;
use model_rules::Given;
use model_text::{Expr, Item, ModelFault, Name, read_model};
use std::alloc::{AllocError, Global};

/// A value that a word gives a constant.
#[derive(Drop)]
pub enum ConstantValue {
    Number(u32),
    /// A chance, in billionths: 1,000,000,000 at most.
    Chance(u32),
    /// What may be the name of a state.
    State(String),
}

/// A constant, and the value that a word gives it.
#[derive(Drop)]
pub struct ConstantWord {
    pub name: String,
    pub value: ConstantValue,
}

/// Whether an expression is a chance, brackets round it aside.
fn is_chance(expr: &Expr) -> bool {
    match expr {
        Expr::Chance { .. } => true,
        Expr::Parens { part, .. } => is_chance(part),
        _ => false,
    }
}

/// Whether the constant of this name is something else than a chance.
fn is_no_chance(items: &[Item], constant: &str) -> bool {
    for item in items {
        match item {
            Item::Const { name, value } if name.name.as_str() == constant => {
                return !is_chance(value);
            }
            _ => {}
        }
    }
    false
}

/// The place of the state of this name among others.
fn place_of(members: &[Name], state: &str) -> Option<u32> {
    let mut place = 0u32;
    for member in members {
        if member.name.as_str() == state {
            return Some(place);
        }
        place = place.saturating_add(1);
    }
    None
}

/// The number of the state of this name.
fn state_in(items: &[Item], state: &str) -> Option<u32> {
    for item in items {
        if let Item::States { members, .. } = item {
            if let Some(place) = place_of(members, state) {
                return Some(place);
            }
        }
    }
    None
}

/// The ending where a constant that is no chance is given one.
fn no_chance(alloc: Global, constant: &str) -> Ending {
    Ending::usage(format!(in alloc;
        "--const: `{constant}` is no chance in the model, which would say {constant} = chance(..): expected a whole number from 0 to 4294967295, none, or the name of a state"
    ))
}

/// The ending where a constant is given a state that the model does not have.
fn no_state(alloc: Global, constant: &str, state: &str) -> Ending {
    Ending::usage(format!(in alloc;
        "--const: the model has no state `{state}`, which `{constant}` is given; expected a whole number from 0 to 4294967295, none, a chance as 0.05 or 5%, or the name of a state"
    ))
}

/// The number nearest to 65,536 times a chance in billionths, as `chance` of a model has it.
fn chance_number(billionths: u32) -> u32 {
    ((u64::from(billionths) * 131_072 + 1_000_000_000) / 2_000_000_000) as u32
}

impl ConstantWord {
    /// The value, as a number, in the model of these items.
    fn number_in(&self, alloc: Global, items: &[Item]) -> Result<u32, Ending> {
        let constant = self.name.as_str();
        match &self.value {
            ConstantValue::Number(value) => Ok(*value),
            ConstantValue::Chance(_) if is_no_chance(items, constant) => {
                Err(no_chance(alloc, constant))
            }
            ConstantValue::Chance(billionths) => Ok(chance_number(*billionths)),
            ConstantValue::State(state) => match state_in(items, state.as_str()) {
                Some(value) => Ok(value),
                None => Err(no_state(alloc, constant, state.as_str())),
            },
        }
    }
}

/// Puts the constant that a word gives a value after the others.
fn put_given(
    given: &mut Vec<Given>,
    alloc: Global,
    items: &[Item],
    word: &ConstantWord,
) -> Result<(), Ending> {
    let value = word.number_in(alloc, items)?;
    let name = word.name.clone()?;
    given.push(Given { name, value })?;
    Ok(())
}

/// The constants that words give values, in the model of these items.
fn given_in(alloc: Global, items: &[Item], words: &[ConstantWord]) -> Result<Vec<Given>, Ending> {
    let mut given = Vec::with_capacity(alloc, words.len())?;
    for word in words {
        put_given(&mut given, alloc, items, word)?;
    }
    Ok(given)
}

/// The constants that words give values, in the model of a text; none where the text is no model.
pub fn given_constants(
    alloc: Global,
    text: &[u8],
    words: &[ConstantWord],
) -> Result<Vec<Given>, Ending> {
    if words.is_empty() {
        return Ok(Vec::new(alloc));
    }
    match read_model(alloc, text) {
        Ok(items) => given_in(alloc, &items, words),
        Err(ModelFault::Memory) => Err(Ending::Memory),
        Err(_) => Ok(Vec::new(alloc)),
    }
}
