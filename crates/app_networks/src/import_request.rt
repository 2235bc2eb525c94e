//! `import`: a network from another format.
ghost use Rattle.std.specs.Prelude.{◌≤◌, IfOk, IfSome};

use app_commands::{AS_PACKED, AS_PACKED_ARGUMENT, FILE, FILE_OPTION, FLAG};
use app_table::{
    Argument, Choice, Command, OPTION, Reading, Subcommand, Value, WordsFault, number,
};
use import_formats::edges::Separator;
use import_links::{Kept, Mending, ParallelLinks, SelfLoops};
use import_network::Making;
use large_pack::{PackOptions, Parallel};
use std::alloc::Global;

/// The greatest number of a column: a line has 65,536 bytes at most.
const MOST_COLUMN: u32 = 65_536;

pub(crate) const TEXT: Argument = Argument {
    name: "file",
    help: "The text to import, or - for standard input",
    ..FILE
};

/// `TEXT`, as it is read.
static TEXT_ARGUMENT: Argument = TEXT;

pub(crate) const SCALE: Argument = Argument {
    name: "scale",
    value: Value::Number {
        least: 1,
        most: 4_294_967_295,
    },
    value_name: "FACTOR",
    help: "Take decimal weights too, and multiply each weight by FACTOR, to the nearest whole number",
    ..OPTION
};

/// `SCALE`, as it is read.
static SCALE_ARGUMENT: Argument = SCALE;

pub(crate) const DROP_LOOPS: Argument = Argument {
    name: "drop-loops",
    help: "Drop edges of a node with itself, which are refused else",
    ..FLAG
};

/// `DROP_LOOPS`, as it is read.
static DROP_LOOPS_ARGUMENT: Argument = DROP_LOOPS;

pub(crate) const KEEP_LOOPS: Argument = Argument {
    name: "keep-loops",
    help: "Keep edges of a node with itself, which are refused else: the node is a neighbour of itself",
    ..FLAG
};

/// `KEEP_LOOPS` of a network that may be a network file, which has no such links.
const KEPT_LOOPS: Argument = Argument {
    needs: Some("packed"),
    ..KEEP_LOOPS
};

/// `KEPT_LOOPS`, as it is read.
static KEPT_LOOPS_ARGUMENT: Argument = KEPT_LOOPS;

pub(crate) const DIRECTED: Argument = Argument {
    name: "directed",
    help: "An edge a b gives a the neighbour b alone, so that a reads b; else it gives b the neighbour a, too",
    ..FLAG
};

/// `DIRECTED` of a network that may be a network file, whose links have no direction.
const ONE_WAY: Argument = Argument {
    needs: Some("packed"),
    ..DIRECTED
};

/// `ONE_WAY`, as it is read.
static ONE_WAY_ARGUMENT: Argument = ONE_WAY;

pub(crate) const REVERSE: Argument = Argument {
    name: "reverse",
    help: "Turn each edge round: an edge a b gives b the neighbour a, so that b reads a",
    needs: Some("directed"),
    ..FLAG
};

/// `REVERSE`, as it is read.
static REVERSE_ARGUMENT: Argument = REVERSE;

const PARALLEL: Argument = Argument {
    name: "parallel",
    aliases: &["merge-doubles"],
    value: Value::Choice(&[
        Choice {
            name: "min",
            aliases: &["least"],
        },
        Choice {
            name: "max",
            aliases: &["most"],
        },
        Choice {
            name: "first",
            aliases: &[],
        },
        Choice {
            name: "keep",
            aliases: &[],
        },
    ]),
    value_name: "WEIGHT",
    help: "Take edges between the same two nodes, which are refused else, as one with the least, the greatest or the first weight, or with --packed keep all: min, max, first or keep",
    ..OPTION
};

/// `PARALLEL`, as it is read.
static PARALLEL_ARGUMENT: Argument = PARALLEL;

const NAMES: Argument = Argument {
    name: "names",
    help: "Where to write the names of the nodes, a line each, node 0 first",
    ..FILE_OPTION
};

/// `NAMES`, as it is read.
static NAMES_ARGUMENT: Argument = NAMES;

pub(crate) const HEADER: Argument = Argument {
    name: "header",
    help: "Pass over the first line that is no comment",
    ..FLAG
};

/// `HEADER`, as it is read.
static HEADER_ARGUMENT: Argument = HEADER;

const NUMBERS: Argument = Argument {
    name: "numbers",
    help: "The names are the numbers of the nodes, from 0, as they stand",
    ..FLAG
};

/// `NUMBERS`, as it is read.
static NUMBERS_ARGUMENT: Argument = NUMBERS;

const DELIMITER: Argument = Argument {
    name: "delimiter",
    aliases: &["separator"],
    value: Value::Choice(&[
        Choice {
            name: "comma",
            aliases: &["csv"],
        },
        Choice {
            name: "tab",
            aliases: &[],
        },
        Choice {
            name: "any",
            aliases: &["blank", "blanks"],
        },
    ]),
    value_name: "SIGN",
    help: "What parts names and weights: comma, as in CSV, where a name may stand in double quotes; tab; or any, which is blanks, tabs and commas, as many as there are. Where it is left out, comma for a file whose name ends in .csv",
    ..OPTION
};

/// `DELIMITER`, as it is read.
static DELIMITER_ARGUMENT: Argument = DELIMITER;

const COLUMNS: Argument = Argument {
    name: "columns",
    value_name: "FROM,TO[,WEIGHT]",
    help: "Which columns are the two ends and the weight: their numbers, from 1, or their names in a line of headings, which is passed over then; other columns are passed over, too",
    ..OPTION
};

/// `COLUMNS`, as it is read.
static COLUMNS_ARGUMENT: Argument = COLUMNS;

pub(crate) const UNDIRECTED: Argument = Argument {
    name: "undirected",
    help: "Take directed edges as undirected ones",
    ..FLAG
};

/// `UNDIRECTED`, as it is read.
static UNDIRECTED_ARGUMENT: Argument = UNDIRECTED;

const FORMATS: [Subcommand; 4] = [
    Subcommand {
        name: "edges",
        about: "Lines of two names and a weight, which may be left out; blanks, tabs or commas between, comments after # or %",
        notes: "",
        arguments: &[
            TEXT, SCALE, DROP_LOOPS, KEPT_LOOPS, PARALLEL, NAMES, HEADER, NUMBERS, COLUMNS,
            DELIMITER, ONE_WAY, REVERSE,
        ],
    },
    Subcommand {
        name: "matrix-market",
        about: "Matrix Market's coordinate format: pattern, integer or real, general or symmetric; row 1 is node 0",
        notes: "",
        arguments: &[
            TEXT, SCALE, DROP_LOOPS, KEPT_LOOPS, PARALLEL, UNDIRECTED, ONE_WAY, REVERSE,
        ],
    },
    Subcommand {
        name: "dot",
        about: "Graphviz: nodes, edges, chains and weights; other attributes are passed over",
        notes: "",
        arguments: &[
            TEXT, SCALE, DROP_LOOPS, KEPT_LOOPS, PARALLEL, NAMES, UNDIRECTED,
        ],
    },
    Subcommand {
        name: "json",
        about: "NetworkX's node-link JSON: nodes, links and weights; other members are passed over",
        notes: "",
        arguments: &[
            TEXT, SCALE, DROP_LOOPS, KEPT_LOOPS, PARALLEL, NAMES, UNDIRECTED,
        ],
    },
];

/// `import` and what it takes.
static IMPORT: Command = Command {
    name: "import",
    aliases: &["take"],
    called: "unison import",
    about: "Import a network from a list of edges, a Matrix Market file, a graph of Graphviz or JSON",
    notes: "Prints a network file, or with --packed a packed network, of any size; nodes are numbered by the first appearance of their names.\nAn example: unison import edges friends.txt --names friends.names > friends.toml\nAnother one: unison import edges friends.csv --columns source,target > friends.toml\nAnother one: unison import matrix-market road.mtx --undirected --parallel min --packed > road.net\n",
    arguments: &[AS_PACKED],
    subcommands: &FORMATS,
};

/// The table of `import`.
pub fn import_command() -> &'static Command {
    &IMPORT
}

/// The format of a text to import.
#[derive(Clone, Copy)]
pub enum Format {
    /// Lines of two names and a weight.
    Edges,
    /// Matrix Market's coordinate format.
    MatrixMarket,
    /// The language of Graphviz.
    Dot,
    /// Node-link JSON.
    Json,
}

impl Format {
    /// Its name among the words.
    pub fn name(self) -> &'static str {
        match self {
            Format::Edges => "edges",
            Format::MatrixMarket => "matrix-market",
            Format::Dot => "dot",
            Format::Json => "json",
        }
    }

    /// The format of this name.
    fn named(name: &str) -> Format {
        match name {
            "edges" => Format::Edges,
            "matrix-market" => Format::MatrixMarket,
            "dot" => Format::Dot,
            _ => Format::Json,
        }
    }
}

/// A column of a text that is named.
#[derive(Drop)]
pub enum ColumnWord {
    /// By its number, counted from 1.
    Number(u32),
    /// By its name in a line of headings.
    Name(String),
}

/// The columns of the ends of edges, and of their weights where one has them.
#[derive(Drop)]
pub struct ColumnWords {
    pub first: ColumnWord,
    pub second: ColumnWord,
    pub weight: Option<ColumnWord>,
}

/// What parts the words of a line.
#[derive(Clone, Copy)]
pub enum Delimiter {
    /// This sign alone.
    Sign(Separator),
    /// Blanks, tabs and commas, as many as there are.
    Any,
    /// Blanks, tabs and commas, of which no two commas stand side by side: where nothing is said.
    Unsaid,
}

/// What `import` is asked for.
#[derive(Drop)]
pub struct ImportRequest {
    /// The format of the text.
    pub format: Format,
    /// The path of the text to import.
    pub path: String,
    /// The path to which the names of the nodes are written, where they are.
    pub names: Option<String>,
    /// Whether the text's first line is a header.
    pub header: bool,
    /// Whether the names are the numbers of the nodes.
    pub numbers: bool,
    /// What parts the words of a line.
    pub delimiter: Delimiter,
    /// Which columns are meant, where that is said.
    pub columns: Option<ColumnWords>,
    /// Whether directed edges are taken as undirected ones.
    pub undirected: bool,
    /// What weights are multiplied by, where they are.
    pub factor: Option<u32>,
    /// How the links of the text become the network that is written.
    pub making: Making,
}

/// The factor that the words name; it is 1 or more.
pub(crate) fn factor_in(reading: &mut Reading) -> Option<u32>
    ensures positive { IfSome result (λ factor. 1 ≤ factor) }
{
    let factor = reading.number_or(&SCALE_ARGUMENT, 0);
    if factor > 0 { Some(factor) } else { None }
}

/// What becomes of edges between the same two nodes in a packed network.
fn parallel_in(reading: &mut Reading) -> Parallel {
    match reading.choice(&PARALLEL_ARGUMENT) {
        None => Parallel::Refuse,
        Some("min") => Parallel::Least,
        Some("max") => Parallel::Greatest,
        Some("first") => Parallel::First,
        Some(_) => Parallel::Keep,
    }
}

/// Whether the name of a file ends in `.csv`, in letters of either case.
fn is_csv(path: &str) -> bool {
    matches!(
        path.as_bytes(),
        [.., b'.', b'c' | b'C', b's' | b'S', b'v' | b'V']
    )
}

/// What parts the words of the text at a path.
fn delimiter_in(reading: &mut Reading, path: &str) -> Delimiter {
    match reading.choice(&DELIMITER_ARGUMENT) {
        Some("tab") => Delimiter::Sign(Separator::Tab),
        Some("comma") => Delimiter::Sign(Separator::Comma),
        Some(_) => Delimiter::Any,
        None => {
            if is_csv(path) {
                Delimiter::Sign(Separator::Comma)
            } else {
                Delimiter::Unsaid
            }
        }
    }
}

/// The column that a word names, where it names one.
fn column_of(reading: &mut Reading, word: &str) -> Option<ColumnWord> {
    if word.is_empty() {
        return None;
    }
    if !word.bytes().all(|byte| byte.is_ascii_digit()) {
        return Some(ColumnWord::Name(reading.copied(word)));
    }
    match number(word, 1, MOST_COLUMN) {
        Some(column) => Some(ColumnWord::Number(column)),
        None => None,
    }
}

/// The columns of the ends that two words name, where they do.
fn columns_of(
    reading: &mut Reading,
    first: &str,
    second: &str,
    weight: Option<ColumnWord>,
) -> Option<ColumnWords> {
    let first = column_of(reading, first)?;
    let second = column_of(reading, second)?;
    Some(ColumnWords {
        first,
        second,
        weight,
    })
}

/// The columns that a text names, where it names two or three.
fn columns_among(reading: &mut Reading, text: &str) -> Option<ColumnWords> {
    let (first, rest) = text.split_once(',')?;
    match rest.split_once(',') {
        Some((second, weight)) if !weight.contains(',') => {
            let weight = column_of(reading, weight)?;
            columns_of(reading, first, second, Some(weight))
        }
        Some(_) => None,
        None => columns_of(reading, first, rest, None),
    }
}

/// Notes that a text names no columns.
fn refuse_columns(reading: &mut Reading, found: &str) {
    reading.refuse_as(format!(in reading.alloc();
        "--columns: expected FROM,TO or FROM,TO,WEIGHT, each the number of a column, from 1, or its name in a line of headings, found `{found}`"
    ));
}

/// The columns that are meant, where that is said.
fn columns_in(reading: &mut Reading) -> Option<ColumnWords> {
    let found = reading.text(&COLUMNS_ARGUMENT)?;
    let columns = columns_among(reading, found.as_str());
    if columns.is_none() {
        refuse_columns(reading, found.as_str());
    }
    columns
}

/// What becomes of edges of a node with itself in a packed network. They are not both dropped and kept.
fn self_loops_in(reading: &mut Reading) -> large_pack::SelfLoops {
    match (
        reading.has(&DROP_LOOPS_ARGUMENT),
        reading.has(&KEPT_LOOPS_ARGUMENT),
    ) {
        (false, false) => large_pack::SelfLoops::Refuse,
        (true, false) => large_pack::SelfLoops::Drop,
        (false, true) => large_pack::SelfLoops::Keep,
        (true, true) => {
            reading.refuse_words("--keep-loops cannot stand beside --drop-loops");
            large_pack::SelfLoops::Refuse
        }
    }
}

/// How the links of a packed network are made of edges.
fn packing_in(reading: &mut Reading, factor: Option<u32>) -> PackOptions {
    let self_loops = self_loops_in(reading);
    let parallel = parallel_in(reading);
    PackOptions {
        nodes: None,
        is_directed: reading.has(&ONE_WAY_ARGUMENT),
        reverse: reading.has(&REVERSE_ARGUMENT),
        factor,
        header: reading.has(&HEADER_ARGUMENT),
        self_loops,
        parallel,
    }
}

/// What becomes of links of a node with itself in a network file, where there they are treated so.
fn file_loops(self_loops: large_pack::SelfLoops) -> SelfLoops {
    match self_loops {
        large_pack::SelfLoops::Drop => SelfLoops::Dropped,
        large_pack::SelfLoops::Refuse | large_pack::SelfLoops::Keep => SelfLoops::Refused,
    }
}

/// What becomes of links that join the same two nodes in a network file, where there they are treated so.
fn file_parallel(parallel: Parallel) -> ParallelLinks {
    match parallel {
        Parallel::Least => ParallelLinks::Merged(Kept::Least),
        Parallel::Greatest => ParallelLinks::Merged(Kept::Most),
        Parallel::First => ParallelLinks::Merged(Kept::First),
        Parallel::Refuse | Parallel::Keep => ParallelLinks::Refused,
    }
}

/// What becomes of links that no network file has, by these options of a packed network.
pub(crate) fn file_mending(options: &PackOptions) -> Mending {
    Mending {
        self_loops: file_loops(options.self_loops),
        parallel: file_parallel(options.parallel),
    }
}

/// Refuses to keep all edges between the same two nodes in a network file.
fn check_parallel(reading: &mut Reading, options: &PackOptions) {
    if options.parallel == Parallel::Keep {
        reading.refuse_words(
            "--parallel keep: a network file has one link between two nodes at most (--packed writes a packed network, which has any number)",
        );
    }
}

/// Refuses both to keep a direction and to leave it aside.
fn check_direction(reading: &mut Reading) {
    if reading.has(&UNDIRECTED_ARGUMENT) && reading.has(&ONE_WAY_ARGUMENT) {
        reading.refuse_words("--directed cannot stand beside --undirected");
    }
}

/// How the links of the text become the network that is written.
fn making_in(reading: &mut Reading, factor: Option<u32>) -> Making {
    let options = packing_in(reading, factor);
    if reading.has(&AS_PACKED_ARGUMENT) {
        return Making::Packed(options);
    }
    check_parallel(reading, &options);
    Making::File(file_mending(&options))
}

/// Refuses `--names` beside `--numbers`: numbers have no other names.
fn check_names(reading: &mut Reading) {
    if reading.has(&NUMBERS_ARGUMENT) && reading.has(&NAMES_ARGUMENT) {
        reading.refuse_words(
            "--names cannot stand beside --numbers, where nodes have no names but their numbers",
        );
    }
}

/// What plain words ask for.
fn request_in(reading: &mut Reading) -> ImportRequest
    ensures positive { IfSome result.factor (λ factor. 1 ≤ factor) }
{
    check_names(reading);
    check_direction(reading);
    let factor = factor_in(reading);
    let making = making_in(reading, factor);
    let columns = columns_in(reading);
    let names = reading.text(&NAMES_ARGUMENT);
    let path = reading.needed_text(&TEXT_ARGUMENT);
    let delimiter = delimiter_in(reading, path.as_str());
    ImportRequest {
        format: Format::named(reading.subcommand()),
        path,
        names,
        header: reading.has(&HEADER_ARGUMENT),
        numbers: reading.has(&NUMBERS_ARGUMENT),
        delimiter,
        columns,
        undirected: reading.has(&UNDIRECTED_ARGUMENT),
        factor,
        making,
    }
}

impl ImportRequest {
    /// Whether a packed network is written in the place of a network file.
    pub fn is_packed(&self) -> bool {
        matches!(self.making, Making::Packed(_))
    }

    /// What the words ask for, the command's name first. Words that no format has, a factor that is no number from 1 to
    /// 4,294,967,295, and `--names` beside `--numbers` are `Usage`.
    pub fn parse(alloc: Global, line: &[String]) -> Result<ImportRequest, WordsFault>
        ensures positive { IfOk result (λ r. IfSome r.factor (λ factor. 1 ≤ factor)) }
    {
        let mut reading = Reading::of(alloc, import_command(), line)?;
        let asked = request_in(&mut reading);
        reading.end(asked)
    }
}
