//! `generate`: a network of a shape, or at random.
ghost use Rattle.std.specs.Prelude.{◌≤◌, IfOk, IfSome};

use crate::block_request::{BETWEEN, SIZES, WITHIN, billionths_in, block_in};
use app_commands::{AS_PACKED, AS_PACKED_ARGUMENT, FLAG, NUMBER, Portion, no_share, percent_of};
use app_table::{Argument, Command, Draft, Kind, OPTION, Reading, Subcommand, WordsFault, number};
use net_random::{BlockChances, RandomNetwork};
use net_shapes::Shape;
use std::alloc::{AllocError, Global};

/// What a number at its place is made from.
const SIZE: Argument = Argument {
    kind: Kind::Positional,
    value: NUMBER,
    ..OPTION
};

/// What an option with a number, which has to be there, is made from.
const NEEDED: Argument = Argument {
    kind: Kind::Required,
    value: NUMBER,
    ..OPTION
};

pub(crate) const NODES: Argument = Argument {
    name: "N",
    value_name: "N",
    help: "The number of nodes",
    ..SIZE
};

/// `NODES`, as it is read.
pub(crate) static NODES_ARGUMENT: Argument = NODES;

pub(crate) const RING_NODES: Argument = Argument {
    help: "The number of nodes, 3 or more",
    ..NODES
};

const STAR_NODES: Argument = Argument {
    help: "The number of nodes, 4097 at most; with --packed any",
    ..NODES
};

const COMPLETE_NODES: Argument = Argument {
    help: "The number of nodes, 724 at most; with --packed any",
    ..NODES
};

const LEFT: Argument = Argument {
    name: "A",
    value_name: "A",
    help: "The number of nodes that come first",
    ..SIZE
};

/// `LEFT`, as it is read.
static LEFT_ARGUMENT: Argument = LEFT;

const RIGHT: Argument = Argument {
    name: "B",
    value_name: "B",
    help: "The number of the others",
    ..SIZE
};

/// `RIGHT`, as it is read.
static RIGHT_ARGUMENT: Argument = RIGHT;

const DIMENSION: Argument = Argument {
    name: "D",
    value_name: "D",
    help: "The number of digits, 15 at most; with --packed 31",
    ..SIZE
};

/// `DIMENSION`, as it is read.
static DIMENSION_ARGUMENT: Argument = DIMENSION;

pub(crate) const GRID_WIDTH: Argument = Argument {
    name: "W",
    value_name: "W",
    help: "The number of nodes in a row",
    ..SIZE
};

/// `GRID_WIDTH`, as it is read.
pub(crate) static GRID_WIDTH_ARGUMENT: Argument = GRID_WIDTH;

pub(crate) const GRID_HEIGHT: Argument = Argument {
    name: "H",
    value_name: "H",
    help: "The number of rows",
    ..SIZE
};

/// `GRID_HEIGHT`, as it is read.
pub(crate) static GRID_HEIGHT_ARGUMENT: Argument = GRID_HEIGHT;

pub(crate) const TORUS_WIDTH: Argument = Argument {
    help: "The number of nodes in a row, 3 or more",
    ..GRID_WIDTH
};

pub(crate) const TORUS_HEIGHT: Argument = Argument {
    help: "The number of rows, 3 or more",
    ..GRID_HEIGHT
};

const ARITY: Argument = Argument {
    name: "arity",
    value_name: "K",
    help: "The number of children of a node, as far as there are nodes",
    ..NEEDED
};

/// `ARITY`, as it is read.
static ARITY_ARGUMENT: Argument = ARITY;

pub(crate) const DIAGONALS: Argument = Argument {
    name: "diagonals",
    help: "Link each node with the four beside its corners, too",
    ..FLAG
};

/// `DIAGONALS`, as it is read.
pub(crate) static DIAGONALS_ARGUMENT: Argument = DIAGONALS;

pub(crate) const LINKS: Argument = Argument {
    name: "links",
    value_name: "M",
    help: "The number of links, 262144 at most; with --packed 2147483647",
    ..NEEDED
};

/// `LINKS`, as it is read.
pub(crate) static LINKS_ARGUMENT: Argument = LINKS;

pub(crate) const LINKS_EACH: Argument = Argument {
    name: "links-each",
    value_name: "K",
    help: "The number of nodes before it with which a node is linked",
    ..NEEDED
};

/// `LINKS_EACH`, as it is read.
pub(crate) static LINKS_EACH_ARGUMENT: Argument = LINKS_EACH;

const DEGREE: Argument = Argument {
    name: "degree",
    value_name: "D",
    help: "The number of neighbours of each node",
    ..NEEDED
};

/// `DEGREE`, as it is read.
static DEGREE_ARGUMENT: Argument = DEGREE;

pub(crate) const NEAR: Argument = Argument {
    name: "near",
    value_name: "K",
    help: "The number of nodes that follow it round the ring with which a node is linked at first",
    ..NEEDED
};

/// `NEAR`, as it is read.
pub(crate) static NEAR_ARGUMENT: Argument = NEAR;

pub(crate) const REWIRE: Argument = Argument {
    name: "rewire",
    kind: Kind::Required,
    value_name: "SHARE",
    help: "The share of links that are led to another node, as 5%: from 0% to 100%, with six decimals at most",
    ..OPTION
};

/// `REWIRE`, as it is read.
static REWIRE_ARGUMENT: Argument = REWIRE;

const PROBABILITY: Argument = Argument {
    name: "probability",
    kind: Kind::Required,
    value_name: "P",
    help: "The chance with which each pair of nodes is linked, from 0 to 1 with nine decimals at most, or as 5%",
    ..OPTION
};

/// `PROBABILITY`, as it is read.
static PROBABILITY_ARGUMENT: Argument = PROBABILITY;

/// The seed by which links are drawn.
pub(crate) const SEED: Argument = Argument {
    name: "seed",
    value_name: "S",
    help: "The same seed gives the same network on every machine",
    ..NEEDED
};

/// `SEED`, as it is read.
pub(crate) static SEED_ARGUMENT: Argument = SEED;

/// The weights of links that are drawn, which need a seed.
const WEIGHTS: Argument = Argument {
    name: "weights",
    value_name: "LOW..HIGH",
    help: "Draw the weight of each link, from LOW to HIGH, by the seed",
    needs: Some("seed"),
    ..OPTION
};

/// `WEIGHTS`, as it is read.
static WEIGHTS_ARGUMENT: Argument = WEIGHTS;

/// The seed of a shape, of which weights alone are drawn.
const SHAPE_SEED: Argument = Argument {
    kind: Kind::Optional,
    needs: Some("weights"),
    ..SEED
};

/// Shapes and random networks.
const SHAPES: [Subcommand; 17] = [
    Subcommand {
        name: "path",
        about: "Each node is linked with the next one",
        notes: "",
        arguments: &[NODES, SHAPE_SEED],
    },
    Subcommand {
        name: "ring",
        about: "A path whose last node is linked with the first",
        notes: "",
        arguments: &[RING_NODES, SHAPE_SEED],
    },
    Subcommand {
        name: "star",
        about: "Node 0 is linked with each other node",
        notes: "",
        arguments: &[STAR_NODES, SHAPE_SEED],
    },
    Subcommand {
        name: "complete",
        about: "Each node is linked with each other one",
        notes: "",
        arguments: &[COMPLETE_NODES, SHAPE_SEED],
    },
    Subcommand {
        name: "bipartite",
        about: "Each of A nodes is linked with each of B others",
        notes: "",
        arguments: &[LEFT, RIGHT, SHAPE_SEED],
    },
    Subcommand {
        name: "tree",
        about: "Each node has K children, numbered level by level",
        notes: "",
        arguments: &[NODES, ARITY, SHAPE_SEED],
    },
    Subcommand {
        name: "hypercube",
        about: "Nodes are linked whose numbers differ in one of D binary digits",
        notes: "",
        arguments: &[DIMENSION, SHAPE_SEED],
    },
    Subcommand {
        name: "grid",
        about: "Each node is linked with those beside it, above it and below it",
        notes: "",
        arguments: &[GRID_WIDTH, GRID_HEIGHT, DIAGONALS, SHAPE_SEED],
    },
    Subcommand {
        name: "hex",
        about: "Hexagonal cells in rows, of which each second one is shifted to the right by half a cell",
        notes: "",
        arguments: &[GRID_WIDTH, GRID_HEIGHT, SHAPE_SEED],
    },
    Subcommand {
        name: "torus",
        about: "A grid whose rows and columns are rings",
        notes: "",
        arguments: &[TORUS_WIDTH, TORUS_HEIGHT, DIAGONALS, SHAPE_SEED],
    },
    Subcommand {
        name: "random",
        about: "M links, all sets of so many links equally likely",
        notes: "",
        arguments: &[NODES, LINKS, SEED],
    },
    Subcommand {
        name: "gnp",
        about: "Each pair of nodes is linked with the chance P",
        notes: "",
        arguments: &[NODES, PROBABILITY, SEED],
    },
    Subcommand {
        name: "block",
        about: "Nodes stand in blocks, and two of one block are linked with another chance than two of different ones",
        notes: "",
        arguments: &[SIZES, WITHIN, BETWEEN, SEED],
    },
    Subcommand {
        name: "random-tree",
        about: "Each node but node 0 is linked with one before it",
        notes: "",
        arguments: &[NODES, SEED],
    },
    Subcommand {
        name: "preferential",
        about: "Each node is linked with K before it, rather with those that have many links",
        notes: "",
        arguments: &[NODES, LINKS_EACH, SEED],
    },
    Subcommand {
        name: "regular",
        about: "Each node has D neighbours",
        notes: "",
        arguments: &[NODES, DEGREE, SEED],
    },
    Subcommand {
        name: "small-world",
        about: "A ring whose nodes are linked with the K that follow them; then some links are led elsewhere",
        notes: "",
        arguments: &[NODES, NEAR, REWIRE, SEED],
    },
];

/// `generate` and what it takes.
static GENERATE: Command = Command {
    name: "generate",
    aliases: &["make"],
    called: "unison generate",
    about: "Make a network of a shape (path, ring, grid, torus, tree and more), or a random one",
    notes: "Prints a network file, or with --packed a packed network; its nodes are numbered from 0, row by row in a grid. All may have any size where they are packed, but gnp, regular and what has weights, which are packed where a network file may have them.\nAn example: unison generate torus 16 16 --diagonals > torus.toml\nAnother one: unison generate random 100000 --links 300000 --seed 7 --packed > random.net\n",
    arguments: &[WEIGHTS, AS_PACKED],
    subcommands: &SHAPES,
};

/// What networks are called elsewhere, and the name that they have here.
const OTHER_NAMES: [(&str, &str); 23] = [
    ("ba", "preferential"),
    ("barabasi-albert", "preferential"),
    ("scale-free", "preferential"),
    ("binomial", "gnp"),
    ("er", "gnp"),
    ("erdos-renyi", "gnp"),
    ("gilbert", "gnp"),
    ("sbm", "block"),
    ("stochastic-block-model", "block"),
    ("gnm", "random"),
    ("circle", "ring"),
    ("circular", "ring"),
    ("cycle", "ring"),
    ("clique", "complete"),
    ("full", "complete"),
    ("chain", "path"),
    ("line", "path"),
    ("lattice", "grid"),
    ("cube", "hypercube"),
    ("random-regular", "regular"),
    ("hexagonal", "hex"),
    ("watts-strogatz", "small-world"),
    ("ws", "small-world"),
];

/// The name here of a network that is called so elsewhere, where the command has it.
fn name_here(command: &Command, word: &str) -> Option<&'static str> {
    for (other, name) in OTHER_NAMES {
        if other == word && command.subcommands.iter().any(|row| row.name == name) {
            return Some(name);
        }
    }
    None
}

/// Refuses a word by which a network is called elsewhere, and tells its name here.
pub(crate) fn check_name(
    alloc: Global,
    command: &Command,
    line: &[String],
) -> Result<(), WordsFault> {
    let Some(word) = line.get(1) else {
        return Ok(());
    };
    let called = command.called;
    match name_here(command, word.as_str()) {
        Some(name) => Err(WordsFault::told(format!(in alloc;
            "{called}: `{word}` is called {name} here: {called} {name} --help tells its numbers"
        ))),
        None => Ok(()),
    }
}

/// The table of `generate`.
pub fn generate_command() -> &'static Command {
    &GENERATE
}

/// Of which network the file is.
#[derive(Drop)]
pub enum Topology {
    Shape(Shape),
    RandomNetwork(RandomNetwork),
    /// Each pair of so many nodes is linked with a chance of so many billionths.
    Chance {
        nodes: u32,
        billionths: u32,
    },
    /// Nodes stand in blocks of these sizes, and each pair of them is linked with a chance.
    Block {
        sizes: Vec<u32>,
        chances: BlockChances,
    },
}

/// Weights that are to be drawn, from a least to a greatest one, both included.
#[derive(Clone, Copy)]
pub struct Weights {
    pub low: u32,
    pub high: u32,
}

/// What `generate` is asked for.
#[derive(Drop)]
pub struct GenerateRequest {
    pub topology: Topology,
    /// The weights of the links, where they are to be drawn.
    pub weights: Option<Weights>,
    /// The seed by which is drawn; where nothing is drawn, 0.
    pub seed: u32,
    /// Whether a packed network is written in the place of a network file.
    pub packed: bool,
}

/// The number of an argument that has to be there.
fn size(reading: &mut Reading, argument: &Argument) -> u32 {
    reading.number_or(argument, 0)
}

/// A grid, with diagonals or without.
fn grid_in(reading: &mut Reading, width: u32, height: u32) -> Shape {
    if reading.has(&DIAGONALS_ARGUMENT) {
        return Shape::DiagonalGrid {
            width,
            height,
            hexagons: false,
        };
    }
    Shape::Grid { width, height }
}

/// A torus, with diagonals or without.
fn torus_in(reading: &mut Reading, width: u32, height: u32) -> Shape {
    let diagonals = reading.has(&DIAGONALS_ARGUMENT);
    Shape::Torus {
        width,
        height,
        diagonals,
    }
}

/// A grid, hexagonal cells, or a torus, whichever is named.
fn rows_in(reading: &mut Reading) -> Shape {
    let width = size(reading, &GRID_WIDTH_ARGUMENT);
    let height = size(reading, &GRID_HEIGHT_ARGUMENT);
    match reading.subcommand() {
        "grid" => grid_in(reading, width, height),
        "hex" => Shape::DiagonalGrid {
            width,
            height,
            hexagons: true,
        },
        _ => torus_in(reading, width, height),
    }
}

/// A shape of two sides.
fn bipartite_in(reading: &mut Reading) -> Shape {
    let left = size(reading, &LEFT_ARGUMENT);
    let right = size(reading, &RIGHT_ARGUMENT);
    Shape::Bipartite { left, right }
}

/// A tree.
fn tree_in(reading: &mut Reading) -> Shape {
    let nodes = size(reading, &NODES_ARGUMENT);
    let arity = size(reading, &ARITY_ARGUMENT);
    Shape::Tree { nodes, arity }
}

/// A hypercube.
fn hypercube_in(reading: &mut Reading) -> Shape {
    let dimension = size(reading, &DIMENSION_ARGUMENT);
    Shape::Hypercube { dimension }
}

/// A shape that has one number, that of its nodes.
fn simple_in(reading: &mut Reading) -> Shape {
    let nodes = size(reading, &NODES_ARGUMENT);
    match reading.subcommand() {
        "path" => Shape::Path { nodes },
        "ring" => Shape::Ring { nodes },
        "star" => Shape::Star { nodes },
        _ => Shape::Complete { nodes },
    }
}

/// The shape that is named, with its numbers.
fn shape_in(reading: &mut Reading) -> Shape {
    match reading.subcommand() {
        "bipartite" => bipartite_in(reading),
        "tree" => tree_in(reading),
        "grid" | "hex" | "torus" => rows_in(reading),
        "hypercube" => hypercube_in(reading),
        _ => simple_in(reading),
    }
}

/// The share that percents write; where `%` is left out, 0 alone.
fn rewired_of(word: &str) -> Option<Portion> {
    if let Some(percents) = word.strip_suffix('%') {
        return percent_of(percents);
    }
    match percent_of(word) {
        Some(Portion { times: 0, of }) => Some(Portion { times: 0, of }),
        _ => None,
    }
}

/// The share of links that are led elsewhere. Where the words name none, an invalid argument is noted.
pub(crate) fn rewire_in(reading: &mut Reading) -> Portion {
    let found = reading.needed_text(&REWIRE_ARGUMENT);
    match rewired_of(found.as_str()) {
        Some(share) => share,
        None => {
            reading.refuse_as(no_share(reading.alloc(), REWIRE_ARGUMENT.name, found.as_str()));
            Portion { times: 0, of: 1 }
        }
    }
}

/// A small world of so many nodes.
fn small_world_in(reading: &mut Reading, nodes: u32) -> RandomNetwork {
    let near = size(reading, &NEAR_ARGUMENT);
    let Portion { times, of } = rewire_in(reading);
    RandomNetwork::SmallWorld {
        nodes,
        near,
        rewire: times,
        of,
    }
}

/// A network each of whose pairs is linked with a chance. Where the words name none, an invalid argument is noted.
fn chance_in(reading: &mut Reading) -> Topology {
    let nodes = size(reading, &NODES_ARGUMENT);
    let billionths = billionths_in(reading, &PROBABILITY_ARGUMENT);
    Topology::Chance { nodes, billionths }
}

/// The random network that is named, with its numbers.
fn random_network_in(reading: &mut Reading) -> RandomNetwork {
    let nodes = size(reading, &NODES_ARGUMENT);
    match reading.subcommand() {
        "random" => {
            let links = size(reading, &LINKS_ARGUMENT);
            RandomNetwork::Random { nodes, links }
        }
        "preferential" => {
            let each = size(reading, &LINKS_EACH_ARGUMENT);
            RandomNetwork::Preferential { nodes, each }
        }
        "regular" => {
            let degree = size(reading, &DEGREE_ARGUMENT);
            RandomNetwork::Regular { nodes, degree }
        }
        "small-world" => small_world_in(reading, nodes),
        _ => RandomNetwork::Tree { nodes },
    }
}

/// The network that is named.
fn topology_in(reading: &mut Reading) -> Topology {
    match reading.subcommand() {
        "gnp" => chance_in(reading),
        "block" => block_in(reading),
        "random" | "random-tree" | "preferential" | "regular" | "small-world" => {
            let random = random_network_in(reading);
            Topology::RandomNetwork(random)
        }
        _ => {
            let shape = shape_in(reading);
            Topology::Shape(shape)
        }
    }
}

/// The weights that a text names, where it names some.
fn weights_of(text: &str) -> Option<Weights>
    ensures ordered { IfSome result (λ w. w.low ≤ w.high) }
{
    let (low, high) = text.split_once("..")?;
    let low = number(low, 0, 4_294_967_295)?;
    let high = number(high, low, 4_294_967_295)?;
    Some(Weights { low, high })
}

/// Notes that a text names no weights.
fn refuse_weights(reading: &mut Reading, found: &str) {
    reading.refuse_as(format!(in reading.alloc();
        "--weights: expected LOW..HIGH, two whole numbers from 0 to 4294967295 of which the first is not the greater one, found `{found}`"
    ));
}

/// The weights that the words ask for, where they ask for some. A text that names none is noted as an invalid argument.
fn weights_in(reading: &mut Reading) -> Option<Weights>
    ensures ordered { IfSome result (λ w. w.low ≤ w.high) }
{
    let found = reading.text(&WEIGHTS_ARGUMENT)?;
    let weights = weights_of(found.as_str());
    if weights.is_none() {
        refuse_weights(reading, found.as_str());
    }
    weights
}

/// What plain words ask for.
fn request_in(reading: &mut Reading) -> GenerateRequest
    ensures ordered { IfSome result.weights (λ w. w.low ≤ w.high) }
{
    let topology = topology_in(reading);
    let weights = weights_in(reading);
    let seed = reading.number_or(&SEED_ARGUMENT, 0);
    GenerateRequest {
        topology,
        weights,
        seed,
        packed: reading.has(&AS_PACKED_ARGUMENT),
    }
}

impl GenerateRequest {
    /// What the words ask for, the command's name first. A number that is none, or above 4,294,967,295, is `Usage`; whether a
    /// network of that size is there, its making says.
    pub fn parse(alloc: Global, line: &[String]) -> Result<GenerateRequest, WordsFault>
        ensures ordered { IfOk result (λ r. IfSome r.weights (λ w. w.low ≤ w.high)) }
    {
        check_name(alloc, generate_command(), line)?;
        let mut reading = Reading::of(alloc, generate_command(), line)?;
        let asked = request_in(&mut reading);
        reading.end(asked)
    }
}
