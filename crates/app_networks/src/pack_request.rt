//! `pack`: networks of any size, as binary files.
ghost use Rattle.std.specs.Prelude.{◌≤◌, IfOk, IfSome};

use crate::generate_request::{
    DIAGONALS, DIAGONALS_ARGUMENT, GRID_HEIGHT, GRID_HEIGHT_ARGUMENT, GRID_WIDTH,
    GRID_WIDTH_ARGUMENT, LINKS, LINKS_ARGUMENT, LINKS_EACH, LINKS_EACH_ARGUMENT, NEAR,
    NEAR_ARGUMENT, NODES, NODES_ARGUMENT, REWIRE, RING_NODES, SEED, SEED_ARGUMENT, TORUS_HEIGHT,
    TORUS_WIDTH, check_name, rewire_in,
};
use crate::import_request::{
    DIRECTED, DROP_LOOPS, HEADER, KEEP_LOOPS, REVERSE, SCALE, TEXT, UNDIRECTED, factor_in,
};
use app_commands::{FILE_OPTION, FLAG, NETWORK, NETWORK_ARGUMENT, Portion};
use app_table::{Argument, Choice, Command, OPTION, Reading, Subcommand, Value, WordsFault};
use import_network::MatrixOptions;
use large_pack::{PackOptions, Parallel, SelfLoops};
use net_random::RandomNetwork;
use net_shapes::Shape;
use std::alloc::Global;

const EDGES: Argument = Argument {
    help: "The list of edges, or - for standard input",
    ..TEXT
};

/// `EDGES`, as it is read.
static EDGES_ARGUMENT: Argument = EDGES;

const MATRIX: Argument = Argument {
    help: "The Matrix Market file, or - for standard input",
    ..TEXT
};

/// `MATRIX`, as it is read.
static MATRIX_ARGUMENT: Argument = MATRIX;

const NAMES: Argument = Argument {
    name: "names",
    help: "The ends of edges are names, numbered as they first appear: where to write them, a line each, node 0 first",
    ..FILE_OPTION
};

/// `NAMES`, as it is read.
static NAMES_ARGUMENT: Argument = NAMES;

/// `UNDIRECTED`, as it is read.
static UNDIRECTED_ARGUMENT: Argument = UNDIRECTED;

/// `DROP_LOOPS`, as it is read.
static DROP_LOOPS_ARGUMENT: Argument = DROP_LOOPS;

/// `HEADER`, as it is read.
static HEADER_ARGUMENT: Argument = HEADER;

/// `KEEP_LOOPS`, as it is read.
static KEEP_LOOPS_ARGUMENT: Argument = KEEP_LOOPS;

const COUNT: Argument = Argument {
    name: "nodes",
    value: Value::Number {
        least: 1,
        most: 4_294_967_295,
    },
    value_name: "N",
    help: "How many nodes there are; else the greatest number that stands there, and one more",
    ..OPTION
};

/// `COUNT`, as it is read.
static COUNT_ARGUMENT: Argument = COUNT;

/// `DIRECTED`, as it is read.
static DIRECTED_ARGUMENT: Argument = DIRECTED;

/// `REVERSE`, as it is read.
static REVERSE_ARGUMENT: Argument = REVERSE;

const PARALLEL: Argument = Argument {
    name: "parallel",
    value: Value::Choice(&[
        Choice {
            name: "min",
            aliases: &["least"],
        },
        Choice {
            name: "max",
            aliases: &["most"],
        },
        Choice {
            name: "first",
            aliases: &[],
        },
        Choice {
            name: "keep",
            aliases: &[],
        },
    ]),
    value_name: "WEIGHT",
    help: "Take edges between the same two nodes, which are refused else, as one with the least, the greatest or the first weight, or keep all: min, max, first or keep",
    ..OPTION
};

/// `PARALLEL`, as it is read.
static PARALLEL_ARGUMENT: Argument = PARALLEL;

/// The number of links of a random network, of which there may be more than in a network file.
const MANY_LINKS: Argument = Argument {
    help: "The number of links, 2147483647 at most",
    ..LINKS
};

const FORMATS: [Subcommand; 10] = [
    Subcommand {
        name: "edges",
        about: "Lines of two numbers of nodes, from 0, or with --names of two names, and a weight, which may be left out; blanks, tabs or commas between, comments after # or %",
        notes: "",
        arguments: &[
            EDGES, COUNT, DIRECTED, REVERSE, SCALE, DROP_LOOPS, KEEP_LOOPS, PARALLEL, HEADER, NAMES,
        ],
    },
    Subcommand {
        name: "matrix-market",
        about: "Matrix Market's coordinate format: pattern, integer or real, general or symmetric; row 1 is node 0",
        notes: "",
        arguments: &[MATRIX, SCALE, DROP_LOOPS, KEEP_LOOPS, PARALLEL, UNDIRECTED],
    },
    Subcommand {
        name: "network",
        about: "A network file, a TOML document; its initial values are left out",
        notes: "",
        arguments: &[NETWORK],
    },
    Subcommand {
        name: "path",
        about: "Each node is linked with the next one",
        notes: "",
        arguments: &[NODES],
    },
    Subcommand {
        name: "ring",
        about: "Each node is linked with the next one, and the last with the first",
        notes: "",
        arguments: &[RING_NODES],
    },
    Subcommand {
        name: "grid",
        about: "Each node is linked with the one at its right and the one below it",
        notes: "",
        arguments: &[GRID_WIDTH, GRID_HEIGHT],
    },
    Subcommand {
        name: "torus",
        about: "A grid whose rows and columns are rings",
        notes: "",
        arguments: &[TORUS_WIDTH, TORUS_HEIGHT, DIAGONALS],
    },
    Subcommand {
        name: "random",
        about: "M links, all sets of so many links equally likely",
        notes: "",
        arguments: &[NODES, MANY_LINKS, SEED],
    },
    Subcommand {
        name: "preferential",
        about: "Each node is linked with K before it, rather with those that have many links",
        notes: "",
        arguments: &[NODES, LINKS_EACH, SEED],
    },
    Subcommand {
        name: "small-world",
        about: "A ring whose nodes are linked with the K that follow them; then some links are led elsewhere",
        notes: "",
        arguments: &[NODES, NEAR, REWIRE, SEED],
    },
];

/// `pack` and what it takes.
static PACK: Command = Command {
    name: "pack",
    aliases: &[],
    called: "unison pack",
    about: "Pack a network of any size into a binary file, for unison large",
    notes: "Prints the binary file; docs/formats.md says what stands in it.\nAn example: unison pack edges friends.txt --names friends.names --parallel min > friends.net\nAnother one: unison pack torus 1000 1000 --diagonals > torus.net\n",
    arguments: &[],
    subcommands: &FORMATS,
};

/// The table of `pack`.
pub fn pack_command() -> &'static Command {
    &PACK
}

/// What `pack` is asked for.
#[derive(Drop)]
pub enum PackRequest {
    /// A list of edges at a path. Where there is a path for names, the ends of edges are names, which are written there.
    Edges {
        path: String,
        options: PackOptions,
        names: Option<String>,
    },
    /// A Matrix Market file at a path.
    Matrix {
        path: String,
        options: MatrixOptions,
    },
    /// The network file at a path.
    Network {
        path: String,
    },
    /// A shape.
    Shape(Shape),
    /// A random network, and the seed by which it is drawn.
    Random {
        wanted: RandomNetwork,
        seed: u32,
    },
}

/// What becomes of edges between the same two nodes.
fn parallel_in(reading: &mut Reading) -> Parallel {
    match reading.choice(&PARALLEL_ARGUMENT) {
        None => Parallel::Refuse,
        Some("min") => Parallel::Least,
        Some("max") => Parallel::Greatest,
        Some("first") => Parallel::First,
        Some(_) => Parallel::Keep,
    }
}

/// What becomes of edges of a node with itself. They are not both dropped and kept.
fn self_loops_in(reading: &mut Reading) -> SelfLoops {
    match (
        reading.has(&DROP_LOOPS_ARGUMENT),
        reading.has(&KEEP_LOOPS_ARGUMENT),
    ) {
        (false, false) => SelfLoops::Refuse,
        (true, false) => SelfLoops::Drop,
        (false, true) => SelfLoops::Keep,
        (true, true) => {
            reading.refuse_words("--keep-loops cannot stand beside --drop-loops");
            SelfLoops::Refuse
        }
    }
}

/// The number of nodes that the words name, where they name one.
fn nodes_in(reading: &mut Reading) -> Option<u32>
    ensures some { IfSome result (λ nodes. 1 ≤ nodes) }
{
    let nodes = reading.number_or(&COUNT_ARGUMENT, 0);
    if nodes > 0 { Some(nodes) } else { None }
}

/// How a list of edges is packed.
fn options_in(reading: &mut Reading) -> PackOptions
    ensures nodes { IfSome result.nodes (λ nodes. 1 ≤ nodes) }
    ensures positive { IfSome result.factor (λ factor. 1 ≤ factor) }
{
    let nodes = nodes_in(reading);
    let factor = factor_in(reading);
    let self_loops = self_loops_in(reading);
    let parallel = parallel_in(reading);
    PackOptions {
        nodes,
        is_directed: reading.has(&DIRECTED_ARGUMENT),
        reverse: reading.has(&REVERSE_ARGUMENT),
        factor,
        header: reading.has(&HEADER_ARGUMENT),
        self_loops,
        parallel,
    }
}

/// Refuses `--nodes` beside `--names`: there are as many nodes as names.
fn check_names(reading: &mut Reading) {
    if reading.has(&COUNT_ARGUMENT) && reading.has(&NAMES_ARGUMENT) {
        reading.refuse_words(
            "--nodes cannot stand beside --names, where there are as many nodes as names",
        );
    }
}

/// The list of edges that the words name.
fn edges_in(reading: &mut Reading) -> PackRequest {
    check_names(reading);
    let options = options_in(reading);
    let names = reading.text(&NAMES_ARGUMENT);
    let path = reading.needed_text(&EDGES_ARGUMENT);
    PackRequest::Edges {
        path,
        options,
        names,
    }
}

/// The Matrix Market file that the words name.
fn matrix_in(reading: &mut Reading) -> PackRequest {
    let factor = factor_in(reading);
    let self_loops = self_loops_in(reading);
    let parallel = parallel_in(reading);
    let options = MatrixOptions {
        undirected: reading.has(&UNDIRECTED_ARGUMENT),
        factor,
        self_loops,
        parallel,
    };
    let path = reading.needed_text(&MATRIX_ARGUMENT);
    PackRequest::Matrix { path, options }
}

/// The columns and rows that the words name.
fn sides_in(reading: &mut Reading) -> (u32, u32) {
    let width = reading.number_or(&GRID_WIDTH_ARGUMENT, 0);
    let height = reading.number_or(&GRID_HEIGHT_ARGUMENT, 0);
    (width, height)
}

/// The shape that the words name.
fn shape_in(reading: &mut Reading) -> Shape {
    match reading.subcommand() {
        "path" => Shape::Path {
            nodes: reading.number_or(&NODES_ARGUMENT, 0),
        },
        "ring" => Shape::Ring {
            nodes: reading.number_or(&NODES_ARGUMENT, 0),
        },
        "grid" => {
            let (width, height) = sides_in(reading);
            Shape::Grid { width, height }
        }
        _ => {
            let (width, height) = sides_in(reading);
            let diagonals = reading.has(&DIAGONALS_ARGUMENT);
            Shape::Torus {
                width,
                height,
                diagonals,
            }
        }
    }
}

/// The random network that the words name.
fn random_in(reading: &mut Reading) -> RandomNetwork {
    let nodes = reading.number_or(&NODES_ARGUMENT, 0);
    match reading.subcommand() {
        "random" => RandomNetwork::Random {
            nodes,
            links: reading.number_or(&LINKS_ARGUMENT, 0),
        },
        "preferential" => RandomNetwork::Preferential {
            nodes,
            each: reading.number_or(&LINKS_EACH_ARGUMENT, 0),
        },
        _ => {
            let near = reading.number_or(&NEAR_ARGUMENT, 0);
            let Portion { times, of } = rewire_in(reading);
            RandomNetwork::SmallWorld {
                nodes,
                near,
                rewire: times,
                of,
            }
        }
    }
}

/// What plain words ask for.
fn request_in(reading: &mut Reading) -> PackRequest {
    match reading.subcommand() {
        "edges" => edges_in(reading),
        "matrix-market" => matrix_in(reading),
        "network" => PackRequest::Network {
            path: reading.needed_text(&NETWORK_ARGUMENT),
        },
        "random" | "preferential" | "small-world" => {
            let wanted = random_in(reading);
            let seed = reading.number_or(&SEED_ARGUMENT, 0);
            PackRequest::Random { wanted, seed }
        }
        _ => PackRequest::Shape(shape_in(reading)),
    }
}

impl PackRequest {
    /// What the words ask for, the command's name first. Words that no format has, `--keep-loops` beside
    /// `--drop-loops`, and `--nodes` beside `--names` are `Usage`.
    pub fn parse(alloc: Global, line: &[String]) -> Result<PackRequest, WordsFault> {
        check_name(alloc, pack_command(), line)?;
        let mut reading = Reading::of(alloc, pack_command(), line)?;
        let asked = request_in(&mut reading);
        reading.end(asked)
    }
}
