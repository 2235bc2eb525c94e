//! `cells`: the states of a report as a pattern of cells.
ghost use Rattle.std.specs.Prelude.{◌≤◌, IfOk};

use crate::window::{WINDOW, Window, window_in};
use app_commands::{FILE, QUIET, QUIET_ARGUMENT, WIDTH};
use app_table::{Argument, Choice, Command, Kind, OPTION, Reading, Value, WordsFault};
use link_net::MOST_NODES;
use std::alloc::Global;

const REPORT: Argument = Argument {
    name: "report",
    value_name: "REPORT",
    help: "A report, or a replay report, or - for standard input",
    ..FILE
};

/// `REPORT`, as it is read.
static REPORT_ARGUMENT: Argument = REPORT;

const GRID_WIDTH: Argument = Argument {
    name: "width",
    kind: Kind::Required,
    value: WIDTH,
    value_name: "W",
    help: "How many columns the grid or torus has: node W * row + column stands at a column and a row",
    ..OPTION
};

/// `GRID_WIDTH`, as it is read.
static GRID_WIDTH_ARGUMENT: Argument = GRID_WIDTH;

const FIELD: Argument = Argument {
    name: "field",
    value_name: "FIELD",
    help: "The field whose values are the states; may be left out where the report has one alone",
    ..OPTION
};

/// `FIELD`, as it is read.
static FIELD_ARGUMENT: Argument = FIELD;

const FORMAT: Argument = Argument {
    name: "format",
    value: Value::Choice(&[
        Choice {
            name: "rle",
            aliases: &[],
        },
        Choice {
            name: "text",
            aliases: &[],
        },
    ]),
    value_name: "FORMAT",
    help: "rle (the default), runs with values up to 255, or text, rows of . and O for 0 and 1",
    ..OPTION
};

/// `FORMAT`, as it is read.
static FORMAT_ARGUMENT: Argument = FORMAT;

const RULE: Argument = Argument {
    name: "rule",
    value_name: "RULE",
    help: "Write this rule into the header of runs, as Golly asks for it where there are more than two states: B3/S23, WireWorld, 345/3/6 and others",
    ..OPTION
};

/// `RULE`, as it is read.
static RULE_ARGUMENT: Argument = RULE;

/// `cells` and what it takes.
static CELLS: Command = Command {
    name: "cells",
    aliases: &[],
    called: "unison cells",
    about: "Print the states of a report on a grid as a pattern of cells",
    notes: "Prints a pattern as Golly reads it, and init --cells: runs (RLE) of two states where all values are 0 and 1, else of many, or rows of plain text.\nAn example: unison lockstep examples/life.rules examples/glider.toml --rounds 8 | unison cells - --width 8 > later.rle\n",
    arguments: &[REPORT, GRID_WIDTH, WINDOW, FIELD, FORMAT, RULE, QUIET],
    subcommands: &[],
};

/// The table of `cells`.
pub fn cells_command() -> &'static Command {
    &CELLS
}

/// How a pattern is written.
#[derive(Clone, Copy, PartialEq, Eq)]
pub enum CellsFormat {
    /// Runs, of two states or of many.
    Rle,
    /// Rows of plain text.
    Text,
}

/// What `cells` is asked for.
#[derive(Drop)]
pub struct CellsRequest {
    /// The path of the report.
    pub report: String,
    /// How many columns the grid has.
    pub width: u32,
    /// The part of the grid that is written, where it is not all of it.
    pub window: Option<Window>,
    /// The field whose values are the states, where one is named.
    pub field: Option<String>,
    pub format: CellsFormat,
    /// The rule that is written into the header of runs, where one is.
    pub rule: Option<String>,
    /// Whether notes are left out.
    pub quiet: bool,
}

/// The form in which they are written.
fn format_in(reading: &mut Reading) -> CellsFormat {
    match reading.choice(&FORMAT_ARGUMENT).unwrap_or("rle") {
        "text" => CellsFormat::Text,
        _ => CellsFormat::Rle,
    }
}

/// Whether a word can stand after `rule =` in the header of runs, which it does not end.
fn is_rule(word: &str) -> bool {
    !word.is_empty() && word.bytes().all(|byte| byte.is_ascii_graphic())
}

/// The rule that is written, where one is: only into runs.
fn rule_in(reading: &mut Reading, format: CellsFormat) -> Option<String> {
    let rule = reading.text(&RULE_ARGUMENT)?;
    if !is_rule(rule.as_str()) {
        reading.refuse_as(format!(in reading.alloc();
            "--rule: expected a rule as Golly names it, one word of printed characters, found `{rule}`"
        ));
    }
    if format == CellsFormat::Text {
        reading.refuse_words("--rule: rows of plain text name no rule; --format rle does");
    }
    Some(rule)
}

/// What plain words ask for.
fn request_in(reading: &mut Reading) -> CellsRequest
    ensures width { (1 ≤ result.width) × (result.width ≤ MOST_NODES) }
{
    let width = reading.number_or(&GRID_WIDTH_ARGUMENT, 1);
    let window = window_in(reading);
    let format = format_in(reading);
    let rule = rule_in(reading, format);
    let field = reading.text(&FIELD_ARGUMENT);
    let report = reading.needed_text(&REPORT_ARGUMENT);
    CellsRequest {
        report,
        width,
        window,
        field,
        format,
        rule,
        quiet: reading.has(&QUIET_ARGUMENT),
    }
}

impl CellsRequest {
    /// What the words ask for, the command's name first.
    pub fn parse(alloc: Global, line: &[String]) -> Result<CellsRequest, WordsFault>
        ensures width { IfOk result (λ r. (1 ≤ r.width) × (r.width ≤ MOST_NODES)) }
    {
        let mut reading = Reading::of(alloc, cells_command(), line)?;
        let asked = request_in(&mut reading);
        reading.end(asked)
    }
}
