//! What a command line gives, read value by value; the first fault is told at the end.
ghost use Rattle.std.specs.Prelude.{◌≡◌, IfOk, Some};
ghost use Rattle.app_table.specs.Values.{IsAllowedOr};

use crate::fault::WordsFault;
use crate::parser::parse;
use crate::table::{Argument, Command};
use crate::words::Words;
use std::alloc::{AllocError, Global};

/// What a command line gives, and the first fault that came up when values were read.
#[derive(Drop)]
pub struct Reading {
    alloc: Global,
    words: Words,
    fault: Option<WordsFault>,
}

impl Reading {
    /// What a command line gives of a command, the command's name first. `Help` and `Usage` as in `parse`.
    pub fn of(alloc: Global, command: &Command, line: &[String]) -> Result<Reading, WordsFault> {
        let words = parse(alloc, command, line)?;
        Ok(Reading {
            alloc,
            words,
            fault: None,
        })
    }

    /// The allocator.
    pub fn alloc(&self) -> Global {
        self.alloc
    }

    /// What the command line gives.
    pub fn words(&self) -> &Words {
        &self.words
    }

    /// Notes a fault, unless there is one already.
    pub fn refuse(&mut self, fault: WordsFault) {
        if self.fault.is_none() {
            self.fault = Some(fault);
        }
    }

    /// Notes invalid arguments, as this text says; running out of memory where it could not be made.
    pub fn refuse_as(&mut self, text: Result<String, AllocError>) {
        self.refuse(WordsFault::told(text));
    }

    /// Notes invalid arguments, as this text says.
    pub fn refuse_words(&mut self, text: &str) {
        self.refuse_as(String::from_str(self.alloc, text));
    }

    /// The name of the subcommand that is asked for; empty where the command has none.
    pub fn subcommand(&self) -> &str {
        self.words.subcommand()
    }

    /// Whether an argument is given.
    pub fn has(&self, argument: &Argument) -> bool {
        self.words.has(argument)
    }

    /// A text of one's own; the empty one where memory is wanting, which is noted.
    pub fn copied(&mut self, text: &str) -> String {
        match String::from_str(self.alloc, text) {
            Ok(text) => text,
            Err(_) => {
                self.refuse(WordsFault::Memory);
                String::new(self.alloc)
            }
        }
    }

    /// The first value of an argument, and `None` where it is not given.
    pub fn text(&mut self, argument: &Argument) -> Option<String> {
        match self.words.text(self.alloc, argument) {
            Ok(text) => text,
            Err(_) => {
                self.refuse(WordsFault::Memory);
                None
            }
        }
    }

    /// The value of an argument that has to be there; empty where it is not, which parsing refuses.
    pub fn needed_text(&mut self, argument: &Argument) -> String {
        match self.words.needed_text(self.alloc, argument) {
            Ok(text) => text,
            Err(_) => {
                self.refuse(WordsFault::Memory);
                String::new(self.alloc)
            }
        }
    }

    /// All values of an argument, in their order.
    pub fn texts(&mut self, argument: &Argument) -> Vec<String> {
        match self.words.texts(self.alloc, argument) {
            Ok(texts) => texts,
            Err(_) => {
                self.refuse(WordsFault::Memory);
                Vec::new(self.alloc)
            }
        }
    }

    /// The number that an argument has, which lies within the table's limits, and `other` where it is not given or is no such
    /// number, which is noted as an invalid argument.
    pub fn number_or(&mut self, argument: &Argument, other: u32) -> u32
        ensures within { IsAllowedOr argument.now.value other result }
    {
        match self.words.number_or(self.alloc, argument, other) {
            Ok(number) => number,
            Err(fault) => {
                self.refuse(fault);
                other
            }
        }
    }

    /// The name of the choice that an argument has, and `None` where it is not given or is no choice, which is noted as wrong
    /// words.
    pub fn choice(&mut self, argument: &Argument) -> Option<&'static str> {
        match self.words.choice(self.alloc, argument) {
            Ok(name) => name,
            Err(fault) => {
                self.refuse(fault);
                None
            }
        }
    }

    /// What was read, where no fault came up.
    pub fn end<T: Drop>(self, read: T) -> Result<T, WordsFault>
        ensures read { IfOk result (λ value. value ≡ read) }
    {
        let Reading { fault, .. } = self;
        match fault {
            None => Ok(read),
            Some(fault) => Err(fault),
        }
    }

    /// What was read, where something was and no fault came up.
    pub fn end_some<T: Drop>(self, read: Option<T>) -> Result<T, WordsFault>
        ensures read { IfOk result (λ value. read ≡ Some value) }
    {
        let Reading { fault, .. } = self;
        match (fault, read) {
            (Some(fault), _) => Err(fault),
            (None, Some(value)) => Ok(value),
            (None, None) => Err(WordsFault::Memory),
        }
    }
}
