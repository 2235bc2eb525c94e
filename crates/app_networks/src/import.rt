//! `import FORMAT FILE`: a network from another format, as a network file or packed, and the names of its nodes.

use crate::import_columns::{columns_for, looks_headed, names_headings};
use crate::import_packed::{packed_beyond, packed_file, threaded_options};
use crate::import_refusals::{is_too_large, refusal};
use crate::import_request::{Delimiter, Format, ImportRequest, file_mending};
use crate::json_refusals::json_refusal;
use app_commands::{asked_by, check_output};
use app_files::{Ending, bytes_at, name_at, put_note, write_file, write_out};
use app_table::Draft;
use import_formats::edges::{Columns, Separator, TableReading};
use import_formats::json::JsonReading;
use import_formats::matrix_market::Direction;
use import_lines::all_digits;
use import_network::{
    ImportFault, Imported, Making, network_from_dot, network_from_edges, network_from_json,
    network_from_matrix, network_from_numbers, network_from_table, network_from_table_numbers,
};
use large_pack::PackOptions;
use std::alloc::{AllocError, Global};
use std::io;
use std::thread::Threads;

/// The network of a table of edges.
fn table_network(
    alloc: Global,
    text: &[u8],
    asked: &ImportRequest,
    separator: Separator,
    columns: Option<Columns>,
    making: Making,
) -> Result<Imported, ImportFault> {
    let reading = TableReading {
        separator,
        header: asked.header || names_headings(asked),
        columns,
        factor: asked.factor,
    };
    if asked.numbers {
        network_from_table_numbers(alloc, text, &reading, making)
    } else {
        network_from_table(alloc, text, &reading, making)
    }
}

/// The network of a list of edges, where places between commas may be empty or not.
fn list_network(
    alloc: Global,
    text: &[u8],
    asked: &ImportRequest,
    gaps: bool,
    columns: Option<Columns>,
    making: Making,
) -> Result<Imported, ImportFault> {
    let reading = import_formats::edges::Reading {
        header: asked.header || names_headings(asked),
        columns,
        gaps,
        factor: asked.factor,
    };
    if asked.numbers {
        network_from_numbers(alloc, text, &reading, making)
    } else {
        network_from_edges(alloc, text, &reading, making)
    }
}

/// The network of lines of edges, of which these columns are meant.
fn edges_network(
    alloc: Global,
    text: &[u8],
    asked: &ImportRequest,
    columns: Option<Columns>,
    making: Making,
) -> Result<Imported, ImportFault> {
    match asked.delimiter {
        Delimiter::Sign(separator) => table_network(alloc, text, asked, separator, columns, making),
        Delimiter::Any => list_network(alloc, text, asked, true, columns, making),
        Delimiter::Unsaid => list_network(alloc, text, asked, false, columns, making),
    }
}

/// What is done with the direction of a matrix's edges: it is kept where links are to lead one way.
fn direction_in(asked: &ImportRequest) -> Direction {
    match asked.making {
        _ if asked.undirected => Direction::LeftAside,
        Making::Packed(options) if options.is_directed => Direction::Kept,
        _ => Direction::Refused,
    }
}

/// The network of a text, of whose lines these columns are meant where they say edges.
fn network_in(
    alloc: Global,
    text: &[u8],
    asked: &ImportRequest,
    columns: Option<Columns>,
    making: Making,
) -> Result<Imported, ImportFault> {
    let factor = asked.factor;
    let undirected = asked.undirected;
    match asked.format {
        Format::Edges => edges_network(alloc, text, asked, columns, making),
        Format::MatrixMarket => {
            network_from_matrix(alloc, text, direction_in(asked), factor, making)
        }
        Format::Dot => {
            let reading = import_formats::dot::Reading { factor, undirected };
            network_from_dot(alloc, text, &reading, making)
        }
        Format::Json => {
            let reading = JsonReading { factor, undirected };
            network_from_json(alloc, text, &reading, making)
        }
    }
}

/// Whether a line is three whole numbers.
fn is_triple(line: &[u8]) -> bool {
    let mut words: usize = 0;
    for word in line.split(|byte| matches!(*byte, b' ' | b'\t' | b'\r' | b',')) {
        if !all_digits(word) {
            return false;
        }
        if !word.is_empty() {
            words = words.saturating_add(1);
        }
    }
    words == 3
}

/// Whether three whole numbers stand in a line of a text.
fn has_triple(text: &[u8]) -> bool {
    for line in text.split(|byte| *byte == b'\n') {
        if is_triple(line) {
            return true;
        }
    }
    false
}

/// Whether a third number was taken for a weight, and no word says that it is one: it may be an end, and the first a time.
fn guesses_weights(asked: &ImportRequest, text: &[u8]) -> bool {
    matches!(asked.format, Format::Edges)
        && asked.columns.is_none()
        && asked.factor.is_none()
        && has_triple(text)
}

/// Whether the first line was taken for an edge, and looks like headings.
fn guesses_edge(alloc: Global, asked: &ImportRequest, text: &[u8]) -> Result<bool, AllocError> {
    match asked.format {
        Format::Edges => looks_headed(alloc, asked, text),
        _ => Ok(false),
    }
}

/// What was made of a text, and what was guessed: that the first line is an edge, that weights stand in it.
#[derive(Drop)]
struct Outcome {
    made: Imported,
    guesses_edge: bool,
    guesses_weights: bool,
}

/// Writes the names into their file, where there is one.
fn keep_names(rt: &HostRuntime, asked: &ImportRequest, made: &Imported) -> Result<(), Ending> {
    match &asked.names {
        Some(path) => write_file(rt, path.as_str(), made.names.as_slice()),
        None => Ok(()),
    }
}

/// Adds what was guessed as a line, where it was.
fn put_guess(draft: &mut Draft, was_guessed: bool, told: &str) {
    if was_guessed {
        draft.put(if draft.is_empty() { "" } else { "\n" });
        draft.put(told);
    }
}

/// How many edges were dropped or merged, and how many weights rounded; and what was guessed. Nothing where nothing was.
fn notes_text(alloc: Global, outcome: &Outcome) -> Result<String, AllocError> {
    let mut draft = Draft::new(alloc);
    let made = &outcome.made;
    put_note(
        &mut draft,
        "dropped",
        made.dropped,
        "edge",
        " of a node with itself",
    );
    put_note(
        &mut draft,
        "merged",
        made.merged,
        "edge",
        " into an earlier one",
    );
    put_note(&mut draft, "rounded", made.rounded, "weight", "");
    put_guess(
        &mut draft,
        outcome.guesses_edge,
        "the first line looks like headings, and was taken for an edge (--header passes over it)",
    );
    put_guess(
        &mut draft,
        outcome.guesses_weights,
        "of three numbers in a line the third was taken for a weight (--columns FROM,TO[,WEIGHT] says which are meant)",
    );
    draft.end()
}

/// Tells on standard error what was dropped, merged or rounded.
fn tell_notes(rt: &HostRuntime, notes: &str) -> io::Result<()> {
    if !notes.is_empty() {
        eprintln!(rt; "{notes}")?;
    }
    Ok(())
}

/// What is told beside where a text is too large for a network file: the way to a packed network.
fn way_of(asked: &ImportRequest, fault: ImportFault) -> &'static str {
    if is_too_large(fault) && !asked.is_packed() {
        "; with --packed any number of nodes and links is taken"
    } else {
        ""
    }
}

/// What is told where a text has no network.
fn refusal_text(
    alloc: Global,
    asked: &ImportRequest,
    text: &[u8],
    fault: ImportFault,
) -> Result<String, AllocError> {
    let name = name_at(asked.path.as_str());
    let is_packed = asked.is_packed();
    let way = way_of(asked, fault);
    match asked.format {
        Format::Json => json_refusal(alloc, name, text, is_packed, fault, way),
        _ => refusal(alloc, asked.format, name, is_packed, fault, way),
    }
}

/// The ending where a text has no network.
fn no_network(alloc: Global, asked: &ImportRequest, text: &[u8], fault: ImportFault) -> Ending {
    Ending::refused(refusal_text(alloc, asked, text, fault))
}

/// The packed network of a list of edges between numbers that threads read: where a network file has it, by way of that, and
/// else by the lines once more.
fn threaded(
    rt: &HostRuntime,
    threads: &(impl Threads + Sync),
    asked: &ImportRequest,
    text: &[u8],
    options: &PackOptions,
) -> Result<Imported, Ending> {
    let alloc = rt.alloc();
    let making = Making::File(file_mending(options));
    match network_in(alloc, text, asked, None, making) {
        Ok(imported) => packed_file(alloc, imported),
        Err(fault) if is_too_large(fault) => packed_beyond(alloc, threads, asked, text, options),
        Err(fault) => Err(no_network(alloc, asked, text, fault)),
    }
}

/// The network of this text, or what is told where it has none.
fn made_from(
    rt: &HostRuntime,
    threads: &(impl Threads + Sync),
    asked: &ImportRequest,
    text: &[u8],
) -> Result<Imported, Ending> {
    if let Some(options) = threaded_options(asked) {
        return threaded(rt, threads, asked, text, &options);
    }
    let columns = columns_for(rt.alloc(), asked, text)?;
    match network_in(rt.alloc(), text, asked, columns, asked.making) {
        Ok(imported) => Ok(imported),
        Err(fault) => Err(no_network(rt.alloc(), asked, text, fault)),
    }
}

/// What is made of this text, or what is told where it has no network.
fn import_from(
    rt: &HostRuntime,
    threads: &(impl Threads + Sync),
    asked: &ImportRequest,
    text: &[u8],
) -> Result<Outcome, Ending> {
    let made = made_from(rt, threads, asked, text)?;
    let guesses_edge = guesses_edge(rt.alloc(), asked, text)?;
    Ok(Outcome {
        made,
        guesses_edge,
        guesses_weights: guesses_weights(asked, text),
    })
}

/// What is made of the text that is asked for, or what is told where it has no network.
fn import_for(
    rt: &HostRuntime,
    threads: &(impl Threads + Sync),
    asked: &ImportRequest,
) -> Result<Outcome, Ending> {
    let text = bytes_at(rt, asked.path.as_str())?;
    import_from(rt, threads, asked, &text)
}

/// Writes the names of the nodes, and prints the network.
fn put_texts(rt: &HostRuntime, asked: &ImportRequest, made: &Imported) -> Result<(), Ending> {
    keep_names(rt, asked, made)?;
    write_out(rt, made.network.as_slice())
}

/// Writes the names of the nodes, prints the network, and tells these notes. The status with which the program ends.
fn put_noted(
    rt: &HostRuntime,
    asked: &ImportRequest,
    made: &Imported,
    notes: &str,
) -> Result<u8, Ending> {
    put_texts(rt, asked, made)?;
    let _ = tell_notes(rt, notes);
    Ok(0)
}

/// Writes the names of the nodes, prints the network, and tells what was done to make it. The status with which the program
/// ends.
fn put_import(rt: &HostRuntime, asked: &ImportRequest, outcome: &Outcome) -> Result<u8, Ending> {
    let notes = notes_text(rt.alloc(), outcome)?;
    put_noted(rt, asked, &outcome.made, notes.as_str())
}

/// Refuses a terminal as standard output, where a packed network is asked for.
fn check_packed(rt: &HostRuntime, asked: &ImportRequest) -> Result<(), Ending> {
    if asked.is_packed() {
        return check_output(rt);
    }
    Ok(())
}

/// Does what is asked for. The status with which the program ends.
fn import(
    rt: &HostRuntime,
    threads: &(impl Threads + Sync),
    asked: &ImportRequest,
) -> Result<u8, Ending> {
    check_packed(rt, asked)?;
    let outcome = import_for(rt, threads, asked)?;
    put_import(rt, asked, &outcome)
}

/// Prints the network of a text in another format, and writes the names of its nodes before. The status with which the
/// program ends.
pub fn import_network(
    rt: &HostRuntime,
    threads: &(impl Threads + Sync),
    words: &[String],
) -> Result<u8, Ending> {
    let asked = asked_by(ImportRequest::parse(rt.alloc(), words))?;
    import(rt, threads, &asked)
}
