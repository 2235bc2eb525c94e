//! Cells that change from frame to frame, as SVG.
ghost use Rattle.std.specs.Prelude.{◌≡◌, ◌++◌, ◌≤◌, ◌<◌, ◌*◌, OnOk, IfOk, length, slice_index, string_bytes};
ghost use Rattle.run_picture.specs.Keys.{key_of};
ghost use Rattle.run_picture.specs.Moving.{animate_text, begins, changing_text, clock_text, course_text, fills_text, fraction_text, last_text, most_frames, moving_cells, moving_group, moving_sheet, moving_text, node_cell, node_text, place_text, times_text, turn_text};

use crate::changes::{Change, changes_of, classes_of};
use crate::chosen::CellShape;
use crate::colour::put_fill;
use crate::film::{Film, Pace};
use crate::key::{Key, key_of};
use crate::legend::put_legend;
use crate::sheet::{
    Cell, lattice, legend_top, outline, put_cell, put_opening, put_style, sheet_height,
    sheet_width, side_of,
};
use crate::styles::ValueStyles;
use std::alloc::{AllocError, Global};

/// When a frame begins, in millionths of the whole.
fn begins(frames: u32, frame: u32) -> u64
    requires some { 1 ≤ frames }
    ensures { result ≡ begins frames frame }
{
    u64::from(frame) * 1_000_000 / u64::from(frames)
}

/// A number of millionths as a decimal fraction.
fn put_fraction(out: &mut String, part: u64) -> Result<(), AllocError>
    ensures text { OnOk result (string_bytes out.new ≡ string_bytes out.old ++ fraction_text part) }
{
    let first = part / 100_000 % 10;
    let second = part / 10_000 % 10;
    let third = part / 1000 % 10;
    let fourth = part / 100 % 10;
    let fifth = part / 10 % 10;
    let last = part % 10;
    write!(out, "0.{first}{second}{third}{fourth}{fifth}{last}")
}

/// When changes come.
fn put_times(out: &mut String, frames: u32, changes: &[Change]) -> Result<(), AllocError>
    requires some { 1 ≤ frames }
    ensures text { OnOk result (string_bytes out.new ≡ string_bytes out.old ++ times_text frames changes.now) }
{
    for change in changes {
        out.push_str(";")?;
        put_fraction(out, begins(frames, change.frame))?;
    }
    Ok(())
}

/// The colours of changes.
fn put_fills(out: &mut String, key: &Key<'_>, changes: &[Change]) -> Result<(), AllocError>
    ensures text { OnOk result (string_bytes out.new ≡ string_bytes out.old ++ fills_text key.now changes.now) }
{
    for change in changes {
        out.push_str(";")?;
        put_fill(out, key, change.class)?;
    }
    Ok(())
}

/// What stands first in what a cell's colour goes through: how long it takes, and that it comes over and over.
#[tactic(auto, unfolding(crate::specs::Moving::turn_text))]
fn put_turn(out: &mut String, pace: Pace) -> Result<(), AllocError>
    ensures text { OnOk result (string_bytes out.new ≡ string_bytes out.old ++ turn_text pace.frames pace.time) }
{
    let turn = u64::from(pace.frames) * u64::from(pace.time);
    write!(
        out,
        "<animate attributeName=\"fill\" calcMode=\"discrete\" dur=\"{turn}ms\" repeatCount=\"indefinite\" values=\""
    )
}

/// The same, and the end of the element.
#[tactic(auto, unfolding(crate::specs::Moving::last_text))]
fn put_last(out: &mut String, frames: u32, changes: &[Change]) -> Result<(), AllocError>
    requires some { 1 ≤ frames }
    ensures text { OnOk result (string_bytes out.new ≡ string_bytes out.old ++ last_text frames changes.now) }
{
    put_times(out, frames, changes)?;
    out.push_str("\"/>")
}

/// When all colours come: the first at once, the others when their changes do.
#[tactic(auto, unfolding(crate::specs::Moving::clock_text))]
fn put_clock(out: &mut String, frames: u32, changes: &[Change]) -> Result<(), AllocError>
    requires some { 1 ≤ frames }
    ensures text { OnOk result (string_bytes out.new ≡ string_bytes out.old ++ clock_text frames changes.now) }
{
    out.push_str("\" keyTimes=\"0")?;
    put_last(out, frames, changes)
}

/// The colours of changes, and when they come.
#[tactic(auto, unfolding(crate::specs::Moving::course_text))]
fn put_course(
    out: &mut String,
    key: &Key<'_>,
    frames: u32,
    changes: &[Change],
) -> Result<(), AllocError>
    requires some { 1 ≤ frames }
    ensures text { OnOk result (string_bytes out.new ≡ string_bytes out.old ++ course_text key.now frames changes.now) }
{
    put_fills(out, key, changes)?;
    put_clock(out, frames, changes)
}

/// What a cell's colour goes through.
#[tactic(auto, unfolding(crate::specs::Moving::animate_text))]
pub(crate) fn put_animate(
    out: &mut String,
    key: &Key<'_>,
    pace: Pace,
    class: usize,
    changes: &[Change],
) -> Result<(), AllocError>
    requires some { 1 ≤ pace.frames }
    ensures text { OnOk result (string_bytes out.new ≡ string_bytes out.old ++ animate_text key.now pace.frames pace.time class changes.now) }
{
    put_turn(out, pace)?;
    put_fill(out, key, class)?;
    put_course(out, key, pace.frames, changes)
}

/// What stands first in a cell that changes.
#[tactic(auto, unfolding(crate::specs::Moving::place_text))]
fn put_place(out: &mut String, shape: CellShape, cell: Cell) -> Result<(), AllocError>
    ensures text { OnOk result (string_bytes out.new ≡ string_bytes out.old ++ place_text shape cell.class cell.column cell.row) }
{
    let Cell { class, column, row } = cell;
    let outline = outline(shape, row);
    write!(
        out,
        "<path class=\"c{class}\" d=\"M{column} {row}{outline}\">"
    )
}

/// A cell that changes.
#[tactic(auto, unfolding(crate::specs::Moving::changing_text))]
fn put_changing(
    out: &mut String,
    key: &Key<'_>,
    pace: Pace,
    cell: Cell,
    changes: &[Change],
) -> Result<(), AllocError>
    requires some { 1 ≤ pace.frames }
    ensures text { OnOk result (string_bytes out.new ≡ string_bytes out.old ++ changing_text key.now pace.frames pace.time cell.class cell.column cell.row changes.now) }
{
    put_place(out, key.styles().shape(), cell)?;
    put_animate(out, key, pace, cell.class, changes)?;
    out.push_str("</path>\n")
}

/// A cell with its changes.
fn put_moving(
    out: &mut String,
    key: &Key<'_>,
    pace: Pace,
    cell: Cell,
    changes: &[Change],
) -> Result<(), AllocError>
    requires some { 1 ≤ pace.frames }
    ensures text { OnOk result (string_bytes out.new ≡ string_bytes out.old ++ moving_text key.now pace.frames pace.time cell.class cell.column cell.row changes.now) }
{
    match changes {
        [] => put_cell(out, key.styles().shape(), cell),
        _ => put_changing(out, key, pace, cell, changes),
    }
}

/// The cell of a node in rows of a width, with these colours frame by frame.
fn put_colours(
    out: &mut String,
    alloc: Global,
    film: &Film<'_>,
    width: u32,
    node: u32,
    classes: &[usize],
) -> Result<(), AllocError>
    requires width { 1 ≤ width }
    requires some { 1 ≤ film.now.pace.frames }
    requires few { length classes.now ≤ most_frames }
    ensures text { OnOk result (string_bytes out.new ≡ string_bytes out.old ++ node_cell film.now.key.now film.now.pace.frames film.now.pace.time width node classes.now) }
{
    let changes = changes_of(alloc, classes)?;
    let class = classes.first().copied().unwrap_or(0);
    let (column, row) = (node % width, node / width);
    let cell = Cell { class, column, row };
    put_moving(out, film.key, film.pace, cell, &changes)
}

/// The cell of a node in rows of a width.
fn put_node(
    out: &mut String,
    alloc: Global,
    film: &Film<'_>,
    width: u32,
    node: u32,
) -> Result<(), AllocError>
    requires width { 1 ≤ width }
    requires some { 1 ≤ film.now.pace.frames }
    requires few { film.now.pace.frames ≤ most_frames }
    ensures text { OnOk result (string_bytes out.new ≡ string_bytes out.old ++ node_text film.now.key.now film.now.pace.frames film.now.pace.time width film.now.nodes film.now.values.now node) }
{
    let classes = classes_of(alloc, film, node)?;
    put_colours(out, alloc, film, width, node, &classes)
}

/// All cells, in rows of a width.
fn put_cells(out: &mut String, alloc: Global, film: &Film<'_>, width: u32) -> Result<(), AllocError>
    requires width { 1 ≤ width }
    requires some { 1 ≤ film.now.pace.frames }
    requires few { film.now.pace.frames ≤ most_frames }
    ensures text { OnOk result (string_bytes out.new ≡ string_bytes out.old ++ moving_cells film.now.key.now film.now.pace.frames film.now.pace.time width film.now.nodes film.now.values.now) }
{
    for node in 0..film.nodes {
        put_node(out, alloc, film, width, node)?;
    }
    Ok(())
}

/// The same, as large as they are to be.
#[tactic(auto, unfolding(crate::specs::Moving::moving_group))]
fn put_group(out: &mut String, alloc: Global, film: &Film<'_>, width: u32) -> Result<(), AllocError>
    requires width { 1 ≤ width }
    requires some { 1 ≤ film.now.pace.frames }
    requires few { film.now.pace.frames ≤ most_frames }
    ensures text { OnOk result (string_bytes out.new ≡ string_bytes out.old ++ moving_group film.now.key.now film.now.pace.frames film.now.pace.time width film.now.nodes film.now.values.now) }
{
    let side = side_of(width, film.nodes);
    let lattice = lattice(film.key.styles().shape());
    write!(out, "<g transform=\"scale({side}){lattice}\">\n")?;
    put_cells(out, alloc, film, width)?;
    out.push_str("</g>\n")
}

/// The moving picture of the values of so many nodes, frame by frame, in rows of a width.
pub(crate) fn moving_of(
    alloc: Global,
    styles: &ValueStyles<'_>,
    pace: Pace,
    width: u32,
    nodes: u32,
    values: &[u32],
) -> Result<Vec<u8>, AllocError>
    requires width { 1 ≤ width }
    requires some { 1 ≤ pace.frames }
    requires few { pace.frames ≤ most_frames }
    requires nodes { nodes ≤ 1000000 }
    ensures text { IfOk result (λ v. v.items ≡ moving_sheet (key_of styles.now values.now) pace.frames pace.time width nodes values.now) }
{
    let key = key_of(alloc, styles, values)?;
    let film = Film {
        key: &key,
        pace,
        nodes,
        values,
    };
    let mut out = String::new(alloc);
    put_opening(
        &mut out,
        sheet_width(&key, width, nodes),
        sheet_height(&key, width, nodes),
    )?;
    put_style(&mut out, &key)?;
    put_group(&mut out, alloc, &film, width)?;
    put_legend(&mut out, &key, legend_top(width, nodes))?;
    out.push_str("</svg>\n")?;
    Ok(out.into_bytes())
}
