//! What a command line gives, and its values read by the table's arguments.
ghost use Rattle.std.specs.Prelude.{◌≡◌, ◌≤◌, IfOk, IfSome};
ghost use Rattle.app_table.specs.Values.{IsAllowed, IsAllowedOr};

use crate::draft::Draft;
use crate::fault::WordsFault;
use crate::parser::put_value;
use crate::table::{Argument, Choice, Kind, Value};
use std::alloc::{AllocError, Global};

/// The values of an argument, in their order; of a flag that is given its name.
#[derive(Drop)]
pub(crate) struct Given {
    pub(crate) name: &'static str,
    pub(crate) values: Vec<String>,
}

/// What a command line gives.
#[derive(Drop)]
pub struct Words {
    pub(crate) subcommand: String,
    pub(crate) given: Vec<Given>,
}

/// The number that decimal digits write, where it lies between the limits.
pub fn number(text: &str, least: u32, most: u32) -> Option<u32>
    ensures within { IfSome result (λ n. (least ≤ n) × (n ≤ most)) }
{
    if !text.bytes().all(|byte| byte.is_ascii_digit()) {
        return None;
    }
    let number = text.parse::<u32>().ok()?;
    if number < least || number > most {
        return None;
    }
    Some(number)
}

/// Adds how an argument is called where its value is refused: `--rounds`, or `N` for a positional one.
fn put_label(draft: &mut Draft, argument: &Argument) {
    if argument.kind == Kind::Positional {
        draft.put(argument.value_name);
    } else {
        draft.put("--");
        draft.put(argument.name);
    }
}

/// Adds the value that was found in the place of what was expected.
fn put_found(draft: &mut Draft, found: &str) {
    draft.put(", found `");
    draft.put(found);
    draft.put("`");
}

/// What is told of a value that is no number between the limits.
fn no_number(
    alloc: Global,
    argument: &Argument,
    least: u32,
    most: u32,
    found: &str,
) -> Result<String, AllocError> {
    let mut draft = Draft::new(alloc);
    put_label(&mut draft, argument);
    draft.put(": expected a whole number from ");
    draft.put_count(least as u64);
    draft.put(" to ");
    draft.put_count(most as u64);
    put_found(&mut draft, found);
    draft.end()
}

/// What stands before the name of the choice at this place among so many.
fn joint(place: usize, count: usize) -> &'static str {
    if place == 0 {
        ""
    } else if place.saturating_add(1) == count {
        " or "
    } else {
        ", "
    }
}

/// Adds the names of choices: `a, b or c`.
fn put_listed(draft: &mut Draft, choices: &[Choice]) {
    for (place, choice) in choices.iter().enumerate() {
        draft.put(joint(place, choices.len()));
        draft.put(choice.name);
    }
}

/// What is told of a value that is none of the choices.
fn no_choice(
    alloc: Global,
    argument: &Argument,
    choices: &[Choice],
    found: &str,
) -> Result<String, AllocError> {
    let mut draft = Draft::new(alloc);
    put_label(&mut draft, argument);
    draft.put(": expected ");
    put_listed(&mut draft, choices);
    put_found(&mut draft, found);
    draft.end()
}

/// The choice that a word names, by its name or an alias.
fn chosen(choices: &'static [Choice], word: &str) -> Option<&'static str> {
    for choice in choices {
        if choice.name == word || choice.aliases.contains(&word) {
            return Some(choice.name);
        }
    }
    None
}

impl Words {
    /// The name of the subcommand that is asked for; empty where the command has none.
    pub fn subcommand(&self) -> &str {
        self.subcommand.as_str()
    }

    /// The values of an argument, in their order.
    fn values(&self, argument: &Argument) -> &[String] {
        for given in &self.given {
            if given.name == argument.name {
                return given.values.as_slice();
            }
        }
        &[]
    }

    /// The first value of an argument.
    pub fn first(&self, argument: &Argument) -> Option<&str> {
        Some(self.values(argument).first()?.as_str())
    }

    /// Whether an argument is given.
    pub fn has(&self, argument: &Argument) -> bool {
        !self.values(argument).is_empty()
    }

    /// The first value of an argument, and `None` where it is not given.
    pub fn text(&self, alloc: Global, argument: &Argument) -> Result<Option<String>, AllocError> {
        match self.first(argument) {
            Some(text) => Ok(Some(String::from_str(alloc, text)?)),
            None => Ok(None),
        }
    }

    /// The value of an argument that has to be there; empty where it is not, which parsing refuses.
    pub fn needed_text(&self, alloc: Global, argument: &Argument) -> Result<String, AllocError> {
        String::from_str(alloc, self.first(argument).unwrap_or(""))
    }

    /// All values of an argument, in their order.
    pub fn texts(&self, alloc: Global, argument: &Argument) -> Result<Vec<String>, AllocError> {
        let mut texts = Vec::new(alloc);
        for value in self.values(argument) {
            put_value(&mut texts, alloc, value.as_str())?;
        }
        Ok(texts)
    }

    /// The number that an argument has, which lies within the table's limits, and `other` where it is not given. A value that
    /// is no such number is `Usage`, which names the argument.
    pub fn number_or(
        &self,
        alloc: Global,
        argument: &Argument,
        other: u32,
    ) -> Result<u32, WordsFault>
        ensures within { IfOk result (IsAllowedOr argument.now.value other) }
    {
        let (Value::Number { least, most }, Some(found)) = (argument.value, self.first(argument))
        else {
            return Ok(other);
        };
        match number(found, least, most) {
            Some(number) => Ok(number),
            None => Err(WordsFault::told(no_number(alloc, argument, least, most, found))),
        }
    }

    /// The name of the choice that an argument has, and `None` where it is not given. A word that is no choice is `Usage`,
    /// which names the argument.
    pub fn choice(
        &self,
        alloc: Global,
        argument: &Argument,
    ) -> Result<Option<&'static str>, WordsFault> {
        let (Value::Choice(choices), Some(found)) = (argument.value, self.first(argument)) else {
            return Ok(None);
        };
        match chosen(choices, found) {
            Some(name) => Ok(Some(name)),
            None => Err(WordsFault::told(no_choice(alloc, argument, choices, found))),
        }
    }
}
