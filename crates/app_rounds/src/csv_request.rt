//! `csv`: a report as CSV.

use app_commands::{FILE, FILE_OPTION};
use app_table::{Argument, Command, Kind, OPTION, Reading, WordsFault};
use std::alloc::Global;

const REPORT: Argument = Argument {
    name: "report",
    value_name: "REPORT",
    help: "A report, or a replay report, or - for standard input",
    ..FILE
};

/// `REPORT`, as it is read.
static REPORT_ARGUMENT: Argument = REPORT;

const NAMES: Argument = Argument {
    name: "names",
    kind: Kind::Required,
    help: "The names of the nodes, a line each, node 0 first, as import writes them",
    ..FILE_OPTION
};

/// `NAMES`, as it is read.
static NAMES_ARGUMENT: Argument = NAMES;

const NODE_FIELD: Argument = Argument {
    name: "node-field",
    kind: Kind::Repeated,
    value_name: "FIELD",
    help: "Print names for this field's values too, which are numbers of nodes, or 4294967295 for none; as often as wanted",
    ..OPTION
};

/// `NODE_FIELD`, as it is read.
static NODE_FIELD_ARGUMENT: Argument = NODE_FIELD;

/// `csv` and what it takes.
static CSV: Command = Command {
    name: "csv",
    aliases: &["names"],
    called: "unison csv",
    about: "Print a report as CSV, with names in place of numbers",
    notes: "Prints CSV: a line of headings, then a line for each node.\nAn example: unison csv report.txt --names friends.names --node-field parent > report.csv\n",
    arguments: &[REPORT, NAMES, NODE_FIELD],
    subcommands: &[],
};

/// The table of `csv`.
pub fn csv_command() -> &'static Command {
    &CSV
}

/// What `csv` is asked for.
#[derive(Drop)]
pub struct CsvRequest {
    /// The path of the report.
    pub report: String,
    /// The path of the names of the nodes.
    pub names: String,
    /// The fields whose values are numbers of nodes.
    pub node_fields: Vec<String>,
}

/// What plain words ask for.
fn request_in(reading: &mut Reading) -> CsvRequest {
    let report = reading.needed_text(&REPORT_ARGUMENT);
    let names = reading.needed_text(&NAMES_ARGUMENT);
    let node_fields = reading.texts(&NODE_FIELD_ARGUMENT);
    CsvRequest {
        report,
        names,
        node_fields,
    }
}

impl CsvRequest {
    /// What the words ask for, the command's name first.
    pub fn parse(alloc: Global, line: &[String]) -> Result<CsvRequest, WordsFault> {
        let mut reading = Reading::of(alloc, csv_command(), line)?;
        let asked = request_in(&mut reading);
        reading.end(asked)
    }
}
