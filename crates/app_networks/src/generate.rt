//! `generate SHAPE NUMBERS..`: a network of a shape, or at random, as a network file or packed.

use crate::generate_request::{GenerateRequest, Topology, Weights};
use crate::pack::{block_bytes, chance_bytes, random_bytes, shape_bytes, text_bytes, undrawn};
use app_commands::{asked_by, check_output};
use app_files::{Ending, print_out};
use net_random::{
    BlockChances, RandomFault, RandomNetwork, WeightDraw, WeightFault, block_list, block_text,
    block_total, chance_list, chance_text, drawn, drawn_text, large_random_refusal, weighted_text,
};
use net_shapes::{Shape, ShapeFault, large_refusal, links_of, made_text};
use net_text::LinkList;
use std::alloc::Global;

/// How many nodes a shape has.
fn size_text(shape: &Shape) -> &'static str {
    match shape {
        Shape::Path { .. } | Shape::Star { .. } | Shape::Complete { .. } =>
            "there are 1 to 65536 nodes",
        Shape::Ring { .. } => "a ring has 3 to 65536 nodes",
        Shape::Bipartite { .. } => "each side has a node, and both together have 65536 at most",
        Shape::Tree { .. } => "a tree has 1 to 65536 nodes, and an arity of 1 or more",
        Shape::Hypercube { .. } => "a hypercube has 0 to 15 digits",
        Shape::Grid { .. } | Shape::DiagonalGrid { .. } => {
            "a grid has a row and a column, and 65536 nodes at most"
        }
        Shape::Torus { .. } => "a torus has 3 rows and 3 columns or more, and 65536 nodes at most",
    }
}

/// The ending where a shape has no network.
fn no_network(alloc: Global, shape: &Shape, fault: ShapeFault) -> Ending {
    let text = match fault {
        ShapeFault::NodeCount => size_text(shape),
        ShapeFault::TooManyLinks => "a network has 262144 links at most, and this shape has more",
        ShapeFault::TooManyNeighbours =>
            "a node has 4096 neighbours at most, and a node of this shape has more",
        ShapeFault::Memory => return Ending::Memory,
    };
    Ending::usage(String::from_str(alloc, text))
}

/// The ending where a random network cannot be drawn.
fn no_random(alloc: Global, fault: RandomFault) -> Ending {
    let text = match fault {
        RandomFault::NodeCount => "there are 1 to 65536 nodes",
        RandomFault::TooManyLinks =>
            "a network has 262144 links at most, and no more than there are pairs of nodes: a node has fewer neighbours than there are nodes",
        fault => return undrawn(alloc, fault),
    };
    Ending::usage(String::from_str(alloc, text))
}

/// The ending where no network is drawn each of whose pairs is linked with a chance.
fn no_chance(alloc: Global, fault: RandomFault) -> Ending {
    let text = match fault {
        RandomFault::NodeCount => "there are 1 to 65536 nodes",
        RandomFault::TooManyLinks =>
            "--probability: more than 262144 links came out, which a network may not have: take a smaller one",
        RandomFault::TooManyNeighbours =>
            "--probability: a node came out with more than 4096 neighbours: take another seed, or a smaller one",
        RandomFault::OddEnds | RandomFault::Undrawn | RandomFault::Memory => return Ending::Memory,
    };
    Ending::usage(String::from_str(alloc, text))
}

/// The ending where no network of blocks is drawn.
fn no_block(alloc: Global, fault: RandomFault) -> Ending {
    let text = match fault {
        RandomFault::NodeCount => "all blocks together have 1 to 65536 nodes",
        RandomFault::TooManyLinks =>
            "--within, --between: more than 262144 links came out, which a network may not have: take smaller ones",
        RandomFault::TooManyNeighbours =>
            "--within, --between: a node came out with more than 4096 neighbours: take another seed, or smaller ones",
        RandomFault::OddEnds | RandomFault::Undrawn | RandomFault::Memory => return Ending::Memory,
    };
    Ending::usage(String::from_str(alloc, text))
}

/// The ending where links get no weights.
fn no_weights(alloc: Global, fault: WeightFault) -> Ending {
    match fault {
        WeightFault::NoWeight => Ending::usage(String::from_str(
            alloc,
            "--weights: the first number is above the second one",
        )),
        WeightFault::Memory => Ending::Memory,
    }
}

/// The links of a shape.
fn shape_links(alloc: Global, shape: &Shape) -> Result<LinkList, Ending> {
    match links_of(alloc, shape) {
        Ok(links) => Ok(links),
        Err(fault) => Err(no_network(alloc, shape, fault)),
    }
}

/// The links of a random network.
fn random_links(alloc: Global, random: &RandomNetwork, seed: u32) -> Result<LinkList, Ending> {
    match drawn(alloc, random, seed as u64) {
        Ok(links) => Ok(links),
        Err(fault) => Err(no_random(alloc, fault)),
    }
}

/// The links of the pairs that are drawn with a chance.
fn chance_links(alloc: Global, nodes: u32, billionths: u32, seed: u32) -> Result<LinkList, Ending> {
    match chance_list(alloc, nodes, billionths, seed as u64) {
        Ok(links) => Ok(links),
        Err(fault) => Err(no_chance(alloc, fault)),
    }
}

/// The links that are drawn between the nodes of blocks.
fn block_links(
    alloc: Global,
    sizes: &[u32],
    chances: BlockChances,
    seed: u32,
) -> Result<LinkList, Ending> {
    match block_list(alloc, sizes, chances, seed as u64) {
        Ok(links) => Ok(links),
        Err(fault) => Err(no_block(alloc, fault)),
    }
}

/// The links that are asked for, all with weight 1.
fn links_for(alloc: Global, asked: &GenerateRequest) -> Result<LinkList, Ending> {
    match &asked.topology {
        Topology::Shape(shape) => shape_links(alloc, shape),
        Topology::RandomNetwork(random) => random_links(alloc, random, asked.seed),
        Topology::Chance { nodes, billionths } => {
            chance_links(alloc, *nodes, *billionths, asked.seed)
        }
        Topology::Block { sizes, chances } => block_links(alloc, sizes, *chances, asked.seed),
    }
}

/// The seed by which weights are drawn, apart from the links: it is 2 to the power of 32 greater.
fn weight_seed(seed: u32) -> u64 {
    seed as u64 + 4_294_967_296
}

/// The network file of the links with weights that are drawn.
fn weighted(
    alloc: Global,
    links: &LinkList,
    weights: &Weights,
    seed: u32,
) -> Result<Vec<u8>, Ending> {
    match weighted_text(alloc, links, weights.low, weights.high, weight_seed(seed)) {
        Ok(text) => Ok(text),
        Err(fault) => Err(no_weights(alloc, fault)),
    }
}

/// The network file of a shape, all of whose links have weight 1.
fn shape_text(alloc: Global, shape: &Shape) -> Result<Vec<u8>, Ending> {
    match made_text(alloc, shape) {
        Ok(text) => Ok(text),
        Err(fault) => Err(no_network(alloc, shape, fault)),
    }
}

/// The network file of a random network, all of whose links have weight 1.
fn random_text(alloc: Global, random: &RandomNetwork, seed: u32) -> Result<Vec<u8>, Ending> {
    match drawn_text(alloc, random, seed as u64) {
        Ok(text) => Ok(text),
        Err(fault) => Err(no_random(alloc, fault)),
    }
}

/// The network file of the pairs that are drawn with a chance, all of whose links have weight 1.
fn chance_file(alloc: Global, nodes: u32, billionths: u32, seed: u32) -> Result<Vec<u8>, Ending> {
    match chance_text(alloc, nodes, billionths, seed as u64) {
        Ok(text) => Ok(text),
        Err(fault) => Err(no_chance(alloc, fault)),
    }
}

/// The network file of links that are drawn between the nodes of blocks, all of weight 1.
fn block_file(
    alloc: Global,
    sizes: &[u32],
    chances: BlockChances,
    seed: u32,
) -> Result<Vec<u8>, Ending> {
    match block_text(alloc, sizes, chances, seed as u64) {
        Ok(text) => Ok(text),
        Err(fault) => Err(no_block(alloc, fault)),
    }
}

/// The network file with weights that are drawn.
fn weighted_for(
    alloc: Global,
    asked: &GenerateRequest,
    weights: &Weights,
) -> Result<Vec<u8>, Ending> {
    let links = links_for(alloc, asked)?;
    weighted(alloc, &links, weights, asked.seed)
}

/// The network file that is asked for.
fn text_for(alloc: Global, asked: &GenerateRequest) -> Result<Vec<u8>, Ending> {
    if let Some(weights) = &asked.weights {
        return weighted_for(alloc, asked, weights);
    }
    match &asked.topology {
        Topology::Shape(shape) => shape_text(alloc, shape),
        Topology::RandomNetwork(random) => random_text(alloc, random, asked.seed),
        Topology::Chance { nodes, billionths } => {
            chance_file(alloc, *nodes, *billionths, asked.seed)
        }
        Topology::Block { sizes, chances } => block_file(alloc, sizes, *chances, asked.seed),
    }
}

/// Whether a packed network has what is asked for, where no network file has it; a shape without weights.
fn fits_packed_alone(asked: &GenerateRequest) -> bool {
    match &asked.topology {
        Topology::Shape(shape) => large_refusal(shape).is_none(),
        Topology::RandomNetwork(random) => large_random_refusal(random).is_none(),
        Topology::Chance { nodes, .. } => *nodes > 0,
        Topology::Block { sizes, .. } => block_total(sizes, u32::MAX).is_some(),
    }
}

/// Whether what is asked for has the size of a network file at most where it is packed: a shape with weights.
fn is_weighted_shape(asked: &GenerateRequest) -> bool {
    asked.weights.is_some() && matches!(asked.topology, Topology::Shape(_))
}

/// What is told beside where no network file is made: the way to a packed network, where there is one.
fn way_of(asked: &GenerateRequest) -> &'static str {
    if !fits_packed_alone(asked) {
        return "";
    }
    match (asked.packed, is_weighted_shape(asked)) {
        (false, false) => "\nwith --packed it is written as a packed network, of any size",
        (false, true) => "",
        (true, _) =>
            "\nwith --weights a packed network of a shape has the size of a network file at most",
    }
}

/// The ending where no network file is made.
fn no_file(alloc: Global, asked: &GenerateRequest, ending: Ending) -> Ending {
    let way = way_of(asked);
    match ending {
        Ending::Usage(text) => Ending::usage(format!(in alloc; "{text}{way}")),
        ending => ending,
    }
}

/// The network file that is asked for, or the ending with the way to a packed network, where there is one.
fn file_for(alloc: Global, asked: &GenerateRequest) -> Result<Vec<u8>, Ending> {
    match text_for(alloc, asked) {
        Ok(text) => Ok(text),
        Err(ending) => Err(no_file(alloc, asked, ending)),
    }
}

/// How the weights of links are drawn that may be of any number, where that is asked.
fn weight_draw(asked: &GenerateRequest) -> Option<WeightDraw> {
    let weights = asked.weights.as_ref()?;
    Some(WeightDraw {
        low: weights.low,
        high: weights.high,
        seed: weight_seed(asked.seed),
    })
}

/// The packed network that is asked for, where it may have any size.
fn large_for(alloc: Global, asked: &GenerateRequest) -> Option<Result<Vec<u8>, Ending>> {
    if is_weighted_shape(asked) {
        return None;
    }
    match &asked.topology {
        Topology::Shape(shape) => Some(shape_bytes(alloc, shape)),
        Topology::RandomNetwork(random) => {
            Some(random_bytes(alloc, random, weight_draw(asked), asked.seed))
        }
        Topology::Chance { nodes, billionths } => {
            Some(chance_bytes(alloc, *nodes, *billionths, weight_draw(asked), asked.seed))
        }
        Topology::Block { sizes, chances } => {
            Some(block_bytes(alloc, sizes, *chances, weight_draw(asked), asked.seed))
        }
    }
}

/// The packed network that is asked for: of any size where there is such a form, else that of the network file.
fn packed_for(alloc: Global, asked: &GenerateRequest) -> Result<Vec<u8>, Ending> {
    if let Some(bytes) = large_for(alloc, asked) {
        return bytes;
    }
    let text = file_for(alloc, asked)?;
    text_bytes(alloc, &text)
}

/// Prints the packed network that is asked for. The status with which the program ends.
fn print_packed(rt: &HostRuntime, asked: &GenerateRequest) -> Result<u8, Ending> {
    check_output(rt)?;
    let bytes = packed_for(rt.alloc(), asked)?;
    print_out(rt, &bytes)
}

/// Prints the network file of a shape or a random network, or the packed network. The status with which the program ends.
pub fn generate_network(rt: &HostRuntime, words: &[String]) -> Result<u8, Ending> {
    let asked = asked_by(GenerateRequest::parse(rt.alloc(), words))?;
    if asked.packed {
        return print_packed(rt, &asked);
    }
    let text = file_for(rt.alloc(), &asked)?;
    print_out(rt, &text)
}
