//! `init .. --cells FIELD=FILE@X,Y --width W`: patterns of cells as initial values.

use crate::init::put_same;
use crate::init_request::{CellsWord, InitRequest};
use app_commands::{put_note, told_text};
use app_files::{Ending, Told, bytes_at, name_at};
use net_initial::{Chosen, Opening};
use net_patterns::{
    Cell, Corner, Grid, PatternFault, PlaceFault, cells_of_state, placed, read_pattern,
};
use std::alloc::Global;

/// Where a text is no pattern, and why.
fn pattern_told(fault: PatternFault) -> Told {
    match fault {
        PatternFault::NoPattern => (
            None,
            "NoPattern",
            "expected runs, which begin with a line as `x = 3, y = 3`, or rows of . and O; found neither",
        ),
        PatternFault::BadCell { line } => (
            Some(line),
            "BadCell",
            "expected in runs b, o, $, ! or a state's letters from A to yO, with a number before it or without, and in rows . or O",
        ),
        PatternFault::BadCount { line } => (
            Some(line),
            "BadCount",
            "a number in runs is from 1 to 999999999, and a cell or $ stands right after it",
        ),
        PatternFault::NoEnd => (
            None,
            "NoEnd",
            "runs end with !, and here they go on to the end of the text",
        ),
        PatternFault::TooLarge { line } => (
            Some(line),
            "TooLarge",
            "a live cell stands beyond column or row 65535, or is more than the 65536th",
        ),
        PatternFault::Memory => (None, "Memory", ""),
    }
}

/// The ending where the text of this name is no pattern.
fn no_pattern(alloc: Global, name: &str, fault: PatternFault) -> Ending {
    Ending::refused(told_text(alloc, "pattern", name, pattern_told(fault)))
}

/// The live cells of the pattern of this text, which has this name.
fn cells_of(alloc: Global, name: &str, text: &[u8]) -> Result<Vec<Cell>, Ending> {
    match read_pattern(alloc, text) {
        Ok(cells) => Ok(cells),
        Err(fault) => Err(no_pattern(alloc, name, fault)),
    }
}

/// The rule that a line names, where it is the header of runs that names one: `x = 3, y = 3, rule = B3/S23`.
fn rule_in(line: &str) -> Option<&str> {
    if !line.starts_with('x') {
        return None;
    }
    let (_, behind) = line.split_once("rule")?;
    let (_, rule) = behind.split_once('=')?;
    Some(rule.trim())
}

/// The rule that a pattern of this text names, where it names one.
fn rule_of(text: &[u8]) -> Option<&str> {
    let text = str::from_utf8(text).ok()?;
    for line in text.lines() {
        if let Some(rule) = rule_in(line.trim()) {
            return Some(rule);
        }
    }
    None
}

/// Prints a note on the rule that a pattern of this name names, which no rule of a program follows from.
fn note_rule(rt: &HostRuntime, name: &str, text: &[u8]) -> Result<(), Ending> {
    if let Some(rule) = rule_of(text) {
        let note = format!(in rt.alloc();
            "{name} is a pattern for the rule {rule}; it is the program that says by which rule its cells live"
        )?;
        put_note(rt, note.as_str());
    }
    Ok(())
}

/// The live cells of the pattern at a path.
fn cells_at(rt: &HostRuntime, path: &str, quiet: bool) -> Result<Vec<Cell>, Ending> {
    let bytes = bytes_at(rt, path)?;
    let cells = cells_of(rt.alloc(), name_at(path), &bytes)?;
    if !quiet {
        note_rule(rt, name_at(path), &bytes)?;
    }
    Ok(cells)
}

/// The ending where a pattern has no place on the grid.
fn no_place(alloc: Global, grid: &Grid, name: &str, fault: PlaceFault) -> Ending {
    let PlaceFault::Outside { cell } = fault else {
        return Ending::Memory;
    };
    let Cell { column, row, .. } = cell;
    let Grid { width, nodes } = *grid;
    let rows = nodes.checked_div(width).unwrap_or(0);
    Ending::usage(format!(in alloc;
        "--cells: {name}: the live cell at column {column} and row {row} of the pattern would stand outside the grid of {width} columns and {rows} rows"
    ))
}

/// The nodes that cells are, put where a word of `--cells` says.
fn nodes_under(
    alloc: Global,
    grid: &Grid,
    word: &CellsWord,
    cells: &[Cell],
) -> Result<Vec<u32>, Ending> {
    let corner = Corner {
        column: word.column,
        row: word.row,
    };
    match placed(alloc, cells, grid, &corner) {
        Ok(nodes) => Ok(nodes),
        Err(fault) => Err(no_place(alloc, grid, name_at(word.path.as_str()), fault)),
    }
}

/// The grid of so many nodes whose width the words name, where that makes whole rows of them.
fn grid_of(alloc: Global, nodes: u32, width: u32) -> Result<Grid, Ending> {
    if width < 1 || nodes % width != 0 {
        return Err(Ending::usage(format!(in alloc;
            "--width: the network's {nodes} nodes make no whole rows of {width}"
        )));
    }
    Ok(Grid { width, nodes })
}

/// Puts the opening that these cells of a state ask for.
fn put_alike(
    openings: &mut Vec<Opening>,
    alloc: Global,
    grid: &Grid,
    word: &CellsWord,
    cells: &[Cell],
    state: u8,
) -> Result<(), Ending> {
    let nodes = nodes_under(alloc, grid, word, cells)?;
    let (field, value) = (word.field.as_str(), u32::from(state));
    put_same(openings, alloc, field, Chosen::These(nodes), value)
}

/// Puts the opening that the cells of a state ask for, where there are some, or no cells at all.
fn put_state(
    openings: &mut Vec<Opening>,
    alloc: Global,
    grid: &Grid,
    word: &CellsWord,
    cells: &[Cell],
    state: u8,
) -> Result<(), Ending> {
    let alike = cells_of_state(alloc, cells, state)?;
    if alike.is_empty() && !cells.is_empty() {
        return Ok(());
    }
    put_alike(openings, alloc, grid, word, &alike, state)
}

/// The greatest state of cells; 0 where there are none.
fn greatest_state(cells: &[Cell]) -> u8 {
    let mut greatest: u8 = 0;
    for cell in cells {
        greatest = greatest.max(cell.state);
    }
    greatest
}

/// Refuses cells one of which has no place, put where a word of `--cells` says.
fn check_places(
    alloc: Global,
    grid: &Grid,
    word: &CellsWord,
    cells: &[Cell],
) -> Result<(), Ending> {
    match nodes_under(alloc, grid, word, cells) {
        Ok(_nodes) => Ok(()),
        Err(ending) => Err(ending),
    }
}

/// Puts the openings that these cells of a word of `--cells` ask for, one for each state, and where there are none one of no
/// node.
fn put_states(
    openings: &mut Vec<Opening>,
    alloc: Global,
    grid: &Grid,
    word: &CellsWord,
    cells: &[Cell],
) -> Result<(), Ending> {
    check_places(alloc, grid, word, cells)?;
    for state in 1..=greatest_state(cells).max(1) {
        put_state(openings, alloc, grid, word, cells, state)?;
    }
    Ok(())
}

/// Puts the openings that a word of `--cells` asks for, one for each state of its pattern, and where it has no live cell one of
/// no node.
fn put_word(
    openings: &mut Vec<Opening>,
    rt: &HostRuntime,
    grid: &Grid,
    word: &CellsWord,
    quiet: bool,
) -> Result<(), Ending> {
    let cells = cells_at(rt, word.path.as_str(), quiet)?;
    put_states(openings, rt.alloc(), grid, word, &cells)
}

/// Puts the openings that the words of `--cells` ask for.
pub(crate) fn put_cells(
    openings: &mut Vec<Opening>,
    rt: &HostRuntime,
    nodes: u32,
    asked: &InitRequest,
) -> Result<(), Ending> {
    let grid = grid_of(rt.alloc(), nodes, asked.width)?;
    for word in &asked.cells {
        put_word(openings, rt, &grid, word, asked.quiet)?;
    }
    Ok(())
}
