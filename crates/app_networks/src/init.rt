//! `init NETWORK --set FIELD=NODE:VALUE ..`: the network with other initial values.

use crate::init_cells::put_cells;
use crate::init_request::{InitRequest, RangeWord};
use crate::init_values::{ModelFields, fields_at, value_for};
use app_commands::{RandomWord, SetWord, amounts_of, asked_by, check_output, names_at};
use app_files::{
    Ending, NodeCalls, PackedNetwork, bytes_at, drawn_parts, file_at, file_of, is_packed,
    list_path, listed_nodes, next_draw, packed_of, path_in, print_out, read_once,
};
use app_table::number;
use large_net::{LargeNetwork, large_bytes, tailed_bytes};
use link_net::{Name, NetFile};
use net_initial::{Chosen, OpenFault, Opening, Values, drawn_values, opened_settings, opened_text};
use net_names::NodeNames;
use std::alloc::{AllocError, Global};

/// How far the seed of the first word of `--random` is above that of the first word of `--set-random`.
const RANDOM_SEEDS: u64 = 1 << 63;

/// The name of a field.
fn name_of(alloc: Global, field: &str) -> Result<Name, AllocError> {
    let text = String::from_str(alloc, field)?;
    Ok(Name::new(text))
}

/// Puts the opening of the field of this name after the others.
fn put_named(openings: &mut Vec<Opening>, field: Name, values: Values) -> Result<(), AllocError> {
    openings.push(Opening { field, values })?;
    Ok(())
}

/// Puts the opening of a field after the others.
fn put_opening(
    openings: &mut Vec<Opening>,
    alloc: Global,
    field: &str,
    values: Values,
) -> Result<(), Ending> {
    let field = name_of(alloc, field)?;
    put_named(openings, field, values).map_err(Ending::from)
}

/// Puts the opening that gives a field the same value at some nodes after the others.
pub(crate) fn put_same(
    openings: &mut Vec<Opening>,
    alloc: Global,
    field: &str,
    nodes: Chosen,
    value: u32,
) -> Result<(), Ending> {
    put_opening(openings, alloc, field, Values::Same { nodes, value })
}

/// What a node is called by.
fn kind_of(names: &Option<NodeNames>) -> &'static str {
    match names {
        Some(_) => "a name that stands in the file of names",
        None => "a node's number",
    }
}

/// The ending where a word names no node of the network.
fn no_node(alloc: Global, word: &SetWord, kind: &str) -> Ending {
    let found = word.node.as_str();
    let field = word.field.as_str();
    Ending::usage(format!(in alloc; "--set: {field}: expected {kind}, or *, found `{found}`"))
}

/// The number of the node that a word names, where it names one.
fn node_in(names: &Option<NodeNames>, word: &str) -> Option<u32> {
    match names {
        Some(names) => names.number_of(word),
        None => number(word, 0, u32::MAX - 1),
    }
}

/// The nodes that a word of `--set` names besides those that it lists, where it names some.
fn nodes_in(names: &Option<NodeNames>, word: &str) -> Option<Chosen> {
    if word == "*" {
        return Some(Chosen::Every);
    }
    let node = node_in(names, word)?;
    Some(Chosen::One(node))
}

/// The nodes that a word of `--set` that lists none names.
fn named_nodes(alloc: Global, names: &Option<NodeNames>, word: &SetWord) -> Result<Chosen, Ending> {
    match nodes_in(names, word.node.as_str()) {
        Some(chosen) => Ok(chosen),
        None => Err(no_node(alloc, word, kind_of(names))),
    }
}

/// The nodes that a word of `--set` names.
fn nodes_for(
    rt: &HostRuntime,
    nodes: u32,
    names: &Option<NodeNames>,
    word: &SetWord,
) -> Result<Chosen, Ending> {
    let calls = NodeCalls {
        nodes,
        names: names.as_ref(),
    };
    match listed_nodes(rt, &calls, word.field.as_str(), word.node.as_str())? {
        Some(chosen) => Ok(chosen),
        None => named_nodes(rt.alloc(), names, word),
    }
}

/// What words of initial values name: nodes by names or numbers, and values by the states of a model's fields.
#[derive(Drop)]
struct Calls {
    names: Option<NodeNames>,
    fields: Option<ModelFields>,
}

/// Puts the opening that a word of `--set` asks for.
fn put_set_word(
    openings: &mut Vec<Opening>,
    rt: &HostRuntime,
    nodes: u32,
    calls: &Calls,
    word: &SetWord,
) -> Result<(), Ending> {
    let (alloc, field) = (rt.alloc(), word.field.as_str());
    let value = value_for(alloc, &calls.fields, "--set", field, &word.value)?;
    let chosen = nodes_for(rt, nodes, &calls.names, word)?;
    put_same(openings, alloc, field, chosen, value)
}

/// Puts the openings that the words of `--set` ask for.
fn put_set(
    openings: &mut Vec<Opening>,
    rt: &HostRuntime,
    nodes: u32,
    calls: &Calls,
    words: &[SetWord],
) -> Result<(), Ending> {
    for word in words {
        put_set_word(openings, rt, nodes, calls, word)?;
    }
    Ok(())
}

/// The nodes that each word of `--set-random` draws, of so many.
fn drawn_for(alloc: Global, nodes: u32, asked: &InitRequest) -> Result<Vec<Vec<u32>>, Ending> {
    let amounts = amounts_of(alloc, &asked.random)?;
    drawn_parts(alloc, nodes, &amounts, asked.seed, asked.overlap)
}

/// Puts the opening that a word of `--set-random` asks for, which draws these nodes.
fn put_random_word(
    openings: &mut Vec<Opening>,
    alloc: Global,
    calls: &Calls,
    word: &RandomWord,
    drawn: Vec<u32>,
) -> Result<(), Ending> {
    let field = word.field.as_str();
    let value = value_for(alloc, &calls.fields, "--set-random", field, &word.value)?;
    put_same(openings, alloc, field, Chosen::These(drawn), value)
}

/// Puts the openings that the words of `--set-random` ask for.
fn put_random(
    openings: &mut Vec<Opening>,
    alloc: Global,
    nodes: u32,
    calls: &Calls,
    asked: &InitRequest,
) -> Result<(), Ending> {
    let drawn = drawn_for(alloc, nodes, asked)?;
    for (word, part) in asked.random.iter().zip(drawn) {
        put_random_word(openings, alloc, calls, word, part)?;
    }
    Ok(())
}

/// The ending where no number lies between the two of a word of `--random`.
fn no_range(alloc: Global, word: &RangeWord) -> Ending {
    let (field, low, high) = (word.field.as_str(), word.low, word.high);
    Ending::usage(format!(in alloc;
        "--random: {field}: expected LOW..HIGH with LOW not above HIGH, found `{low}..{high}`"
    ))
}

/// Puts the opening that a word of `--random` asks for, of numbers that are drawn by this seed.
fn put_range(
    openings: &mut Vec<Opening>,
    alloc: Global,
    nodes: u32,
    word: &RangeWord,
    seed: u64,
) -> Result<(), Ending> {
    if word.low > word.high {
        return Err(no_range(alloc, word));
    }
    let values = drawn_values(alloc, nodes, word.low, word.high, seed)?;
    put_opening(openings, alloc, word.field.as_str(), Values::Each(values))
}

/// Puts the openings that the words of `--random` ask for.
fn put_ranges(
    openings: &mut Vec<Opening>,
    alloc: Global,
    nodes: u32,
    asked: &InitRequest,
) -> Result<(), Ending> {
    let mut seed = RANDOM_SEEDS + asked.seed as u64;
    for word in &asked.values {
        seed = next_draw(seed);
        put_range(openings, alloc, nodes, word, seed)?;
    }
    Ok(())
}

/// Puts the name of a field after the others.
fn put_name(names: &mut Vec<Name>, alloc: Global, field: &str) -> Result<(), AllocError> {
    let name = name_of(alloc, field)?;
    names.push(name)?;
    Ok(())
}

/// The fields whose values in the file are left aside.
fn cleared_by(alloc: Global, asked: &InitRequest) -> Result<Vec<Name>, AllocError> {
    let mut cleared = Vec::with_capacity(alloc, asked.cleared.len())?;
    for field in &asked.cleared {
        put_name(&mut cleared, alloc, field.as_str())?;
    }
    Ok(cleared)
}

/// The ending where openings make no network file.
fn no_opening(alloc: Global, fault: OpenFault) -> Ending {
    let text = match fault {
        OpenFault::BadPhase => "--phase: expected 0, 1 or 2",
        OpenFault::BadName =>
            "--set: a field's name is one that a program can declare: a letter, then letters, digits and _, and no word of the language",
        OpenFault::BadClear =>
            "--clear: a field's name is one that a program can declare: a letter, then letters, digits and _, and no word of the language",
        OpenFault::NoNode => "--set: the network has no node of this number",
        OpenFault::BadSet =>
            "--set: what the file gives this field is no opening: a number that is no node, a value above 4294967295, or a node twice",
        OpenFault::Memory => return Ending::Memory,
    };
    Ending::usage(String::from_str(alloc, text))
}

/// Puts the paths of the files that the words name.
fn put_paths<'a>(paths: &mut Vec<&'a str>, asked: &'a InitRequest) -> Result<(), AllocError> {
    paths.push(asked.network.as_str())?;
    paths.push(path_in(&asked.names))?;
    paths.push(path_in(&asked.model))?;
    for word in &asked.cells {
        paths.push(word.path.as_str())?;
    }
    put_list_paths(paths, asked.sets.as_slice())
}

/// Puts the paths of the lists that words of `--set` name.
fn put_list_paths<'a>(paths: &mut Vec<&'a str>, words: &'a [SetWord]) -> Result<(), AllocError> {
    for word in words {
        paths.push(list_path(word.node.as_str()).unwrap_or(""))?;
    }
    Ok(())
}

/// The paths of the files that the words name.
fn paths_of<'a>(alloc: Global, asked: &'a InitRequest) -> Result<Vec<&'a str>, AllocError> {
    let mut paths = Vec::new(alloc);
    put_paths(&mut paths, asked)?;
    Ok(paths)
}

/// Refuses standard input for more than one of the texts.
fn check_paths(alloc: Global, asked: &InitRequest) -> Result<(), Ending> {
    let paths = paths_of(alloc, asked)?;
    read_once(alloc, &paths)
}

/// Puts the openings that the words ask for of a network of so many nodes, in the order in which they count.
fn put_openings(
    openings: &mut Vec<Opening>,
    rt: &HostRuntime,
    asked: &InitRequest,
    nodes: u32,
    calls: &Calls,
) -> Result<(), Ending> {
    put_ranges(openings, rt.alloc(), nodes, asked)?;
    put_random(openings, rt.alloc(), nodes, calls, asked)?;
    put_cells(openings, rt, nodes, asked)?;
    put_set(openings, rt, nodes, calls, asked.sets.as_slice())
}

/// What the words of initial values name.
fn calls_for(rt: &HostRuntime, asked: &InitRequest) -> Result<Calls, Ending> {
    let names = names_at(rt, &asked.names)?;
    let fields = fields_at(rt, &asked.model)?;
    Ok(Calls { names, fields })
}

/// The openings that the words ask for of a network of so many nodes, in the order in which they count.
fn openings_for(rt: &HostRuntime, asked: &InitRequest, nodes: u32) -> Result<Vec<Opening>, Ending> {
    let calls = calls_for(rt, asked)?;
    let mut openings = Vec::new(rt.alloc());
    put_openings(&mut openings, rt, asked, nodes, &calls)?;
    Ok(openings)
}

/// The network file with these openings, over the file's values but for those of the fields that are cleared.
fn opened(
    alloc: Global,
    file: &NetFile,
    cleared: &[Name],
    openings: &[Opening],
    phase: Option<u8>,
) -> Result<Vec<u8>, Ending> {
    match opened_text(alloc, file, cleared, openings, phase) {
        Ok(text) => Ok(text),
        Err(fault) => Err(no_opening(alloc, fault)),
    }
}

/// The network file with these openings, over the file's values but for those that the words leave aside.
fn opened_by(
    alloc: Global,
    asked: &InitRequest,
    file: &NetFile,
    openings: &[Opening],
) -> Result<Vec<u8>, Ending> {
    let cleared = cleared_by(alloc, asked)?;
    opened(alloc, file, &cleared, openings, asked.phase)
}

/// The network file with the openings that the words ask for.
fn opened_for(rt: &HostRuntime, asked: &InitRequest, file: &NetFile) -> Result<Vec<u8>, Ending> {
    let openings = openings_for(rt, asked, file.network().nodes())?;
    opened_by(rt.alloc(), asked, file, &openings)
}

/// The packed network of these bytes, or the network of a network file with what that sets.
fn network_of(alloc: Global, path: &str, bytes: &[u8]) -> Result<PackedNetwork, Ending> {
    if is_packed(bytes) {
        return packed_of(alloc, path, bytes);
    }
    let settings = file_of(alloc, bytes)?;
    let network = LargeNetwork::of_network(alloc, settings.network())?;
    Ok(PackedNetwork { network, settings })
}

/// The packed network at a path, or that of the network file there.
fn network_in(rt: &HostRuntime, path: &str) -> Result<PackedNetwork, Ending> {
    let bytes = bytes_at(rt, path)?;
    network_of(rt.alloc(), path, &bytes)
}

/// What a packed network with these openings says beside its rows, over the values of the network but for those of the fields
/// that are cleared.
fn settings_with(
    alloc: Global,
    nodes: u32,
    settings: &NetFile,
    asked: &InitRequest,
    openings: &[Opening],
) -> Result<Option<Vec<u8>>, Ending> {
    let cleared = cleared_by(alloc, asked)?;
    match opened_settings(alloc, nodes, settings, &cleared, openings, asked.phase) {
        Ok(text) => Ok(text),
        Err(fault) => Err(no_opening(alloc, fault)),
    }
}

/// The packed network with the openings that the words ask for.
fn packed_for(rt: &HostRuntime, asked: &InitRequest) -> Result<Vec<u8>, Ending> {
    let PackedNetwork { network, settings } = network_in(rt, asked.network.as_str())?;
    let openings = openings_for(rt, asked, network.nodes())?;
    let settings = settings_with(rt.alloc(), network.nodes(), &settings, asked, &openings)?;
    packed_bytes(rt.alloc(), &network, &settings)
}

/// The packed network of these rows, with what stands after them.
fn packed_bytes(
    alloc: Global,
    network: &LargeNetwork,
    settings: &Option<Vec<u8>>,
) -> Result<Vec<u8>, Ending> {
    match settings {
        Some(text) => Ok(tailed_bytes(alloc, network, text)?),
        None => Ok(large_bytes(alloc, network)?),
    }
}

/// The network file that the words ask for.
fn text_for(rt: &HostRuntime, asked: &InitRequest) -> Result<Vec<u8>, Ending> {
    let file = file_at(rt, asked.network.as_str())?;
    opened_for(rt, asked, &file)
}

/// The network that the words ask for, as a network file or packed.
fn bytes_for(rt: &HostRuntime, asked: &InitRequest) -> Result<Vec<u8>, Ending> {
    if asked.packed {
        check_output(rt)?;
        return packed_for(rt, asked);
    }
    text_for(rt, asked)
}

/// Prints the network that is asked for. The status with which the program ends.
fn put_network(rt: &HostRuntime, asked: &InitRequest) -> Result<u8, Ending> {
    check_paths(rt.alloc(), asked)?;
    let bytes = bytes_for(rt, asked)?;
    print_out(rt, &bytes)
}

/// Prints the network with other initial values. The status with which the program ends.
pub fn init_network(rt: &HostRuntime, words: &[String]) -> Result<u8, Ending> {
    let asked = asked_by(InitRequest::parse(rt.alloc(), words))?;
    put_network(rt, &asked)
}
