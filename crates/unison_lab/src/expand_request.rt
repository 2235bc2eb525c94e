//! `expand`: the program that a model is expanded to.

use app_commands::{CONSTANT, FILE, constants_in};
use app_files::ConstantWord;
use app_table::{Argument, Command, Reading, WordsFault};
use std::alloc::Global;

const MODEL: Argument = Argument {
    name: "model",
    value_name: "MODEL",
    help: "The file of the model, or - for standard input",
    ..FILE
};

/// `MODEL`, as it is read.
static MODEL_ARGUMENT: Argument = MODEL;

const MODEL_CONSTANT: Argument = Argument {
    help: "Give a constant of the model this value, a whole number from 0 to 4294967295, none, the name of a state, or, where it is a chance, a decimal as 0.05 or percents as 5%; as often as wanted",
    ..CONSTANT
};

/// `expand` and what it takes.
static EXPAND: Command = Command {
    name: "expand",
    aliases: &[],
    called: "unison expand",
    about: "Expand a model to the program that it stands for",
    notes: "Prints the program text, each field and each next value after a comment with its line of the model. Where a command reads a program, a model may stand too, in a file whose name ends in .model.\nAn example: unison expand examples/models/majority.model\n",
    arguments: &[MODEL, MODEL_CONSTANT],
    subcommands: &[],
};

/// The table of `expand`.
pub fn expand_command() -> &'static Command {
    &EXPAND
}

/// What `expand` is asked for.
#[derive(Drop)]
pub struct ExpandRequest {
    /// The path of the model.
    pub model: String,
    /// The constants that words give values.
    pub constants: Vec<ConstantWord>,
}

/// What plain words ask for.
fn request_in(reading: &mut Reading) -> ExpandRequest {
    let model = reading.needed_text(&MODEL_ARGUMENT);
    let constants = constants_in(reading);
    ExpandRequest { model, constants }
}

impl ExpandRequest {
    /// What the words ask for, the command's name first.
    pub fn parse(alloc: Global, line: &[String]) -> Result<ExpandRequest, WordsFault> {
        let mut reading = Reading::of(alloc, expand_command(), line)?;
        let asked = request_in(&mut reading);
        reading.end(asked)
    }
}
