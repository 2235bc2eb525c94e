//! Cells in rows, as SVG.
ghost use Rattle.std.specs.Prelude.{◌≡◌, ◌++◌, ◌≤◌, OnOk, IfOk, length, string_bytes};
ghost use Rattle.std.specs.List.{flat_map};
ghost use Rattle.link_net.specs.Neighbours.{numbers_below};
ghost use Rattle.run_picture.specs.Keys.{key_of};
ghost use Rattle.run_picture.specs.Shades.{class_total};
ghost use Rattle.run_picture.specs.Sheets.{cell_text, cells_text, class_style, columns_of, lattice, legend_top, opening_text, outline, overhang, rows_of, rows_text, sheet_height, sheet_text, sheet_width, side_of, style_text};

use crate::chosen::CellShape;
use crate::colour::{class_of, class_total, put_fill};
use crate::key::{Key, key_of};
use crate::legend::{legend_lines, legend_width, put_legend};
use crate::styles::ValueStyles;
use std::alloc::{AllocError, Global};

/// How many columns cells fill that stand in rows of a width.
fn columns_of(width: u32, count: u32) -> u32
    ensures columns { result ≡ columns_of width count }
    ensures few { result ≤ count }
{
    width.min(count)
}

/// How many rows they fill.
fn rows_of(width: u32, count: u32) -> u32
    requires width { 1 ≤ width }
    ensures rows { result ≡ rows_of width count }
    ensures few { result ≤ count }
{
    count.div_ceil(width)
}

/// The side of a cell in pixels.
pub(crate) fn side_of(width: u32, count: u32) -> u32
    requires width { 1 ≤ width }
    ensures side { result ≡ side_of width count }
    ensures small { result ≤ 24 }
{
    let longer = columns_of(width, count).max(rows_of(width, count)).max(1);
    (960 / longer).min(24).max(1)
}

/// Where the legend begins.
pub(crate) fn legend_top(width: u32, count: u32) -> u32
    requires width { 1 ≤ width }
    requires count { count ≤ 1000000 }
    ensures top { result ≡ legend_top width count }
    ensures small { result ≤ 24000008 }
{
    side_of(width, count) * rows_of(width, count) + 8
}

/// The first line, for a size in pixels.
#[tactic(auto, unfolding(crate::specs::Sheets::opening_text))]
pub(crate) fn put_opening(out: &mut String, width: u32, height: u32) -> Result<(), AllocError>
    ensures text { OnOk result (string_bytes out.new ≡ string_bytes out.old ++ opening_text width height) }
{
    write!(
        out,
        "<svg xmlns=\"http://www.w3.org/2000/svg\" viewBox=\"0 0 {width} {height}\" width=\"{width}\" height=\"{height}\" shape-rendering=\"crispEdges\">\n"
    )
}

/// How far a row may stand out to the right, in pixels, where a cell has this side.
fn overhang(shape: CellShape, side: u32) -> u32
    requires side { side ≤ 24 }
    ensures overhang { result ≡ overhang shape side }
    ensures small { result ≤ 12 }
{
    match shape {
        CellShape::Square => 0,
        CellShape::Hexagon => (side + 1) / 2,
    }
}

/// The size of the whole in pixels across.
pub(crate) fn sheet_width(key: &Key<'_>, width: u32, count: u32) -> u32
    requires width { 1 ≤ width }
    requires count { count ≤ 1000000 }
    ensures { result ≡ sheet_width key.now width count }
{
    let side = side_of(width, count);
    let hangs = overhang(key.styles().shape(), side);
    (side * columns_of(width, count) + hangs).max(legend_width(key))
}

/// The size of the whole in pixels from the top to the bottom.
pub(crate) fn sheet_height(key: &Key<'_>, width: u32, count: u32) -> u32
    requires width { 1 ≤ width }
    requires count { count ≤ 1000000 }
    ensures { result ≡ sheet_height key.now width count }
{
    legend_top(width, count) + 18 * legend_lines(key)
}

/// The style of a class.
#[tactic(auto, unfolding(crate::specs::Sheets::class_style))]
fn put_class_style(out: &mut String, key: &Key<'_>, class: usize) -> Result<(), AllocError>
    ensures text { OnOk result (string_bytes out.new ≡ string_bytes out.old ++ class_style key.now class) }
{
    write!(out, ".c{class}{{fill:")?;
    put_fill(out, key, class)?;
    out.push_str("}")
}

/// The styles of so many classes.
fn put_styles(out: &mut String, key: &Key<'_>, count: usize) -> Result<(), AllocError>
    ensures text { OnOk result (string_bytes out.new ≡ string_bytes out.old ++ flat_map (class_style key.now) (numbers_below count)) }
{
    for class in 0..count {
        put_class_style(out, key, class)?;
    }
    Ok(())
}

/// The styles of all classes.
fn put_class_styles(out: &mut String, key: &Key<'_>) -> Result<(), AllocError>
    ensures text { OnOk result (string_bytes out.new ≡ string_bytes out.old ++ flat_map (class_style key.now) (numbers_below (class_total key.now))) }
{
    let count = class_total(key);
    put_styles(out, key, count)
}

/// The styles, and a white ground.
#[tactic(auto, unfolding(crate::specs::Sheets::style_text))]
pub(crate) fn put_style(out: &mut String, key: &Key<'_>) -> Result<(), AllocError>
    ensures text { OnOk result (string_bytes out.new ≡ string_bytes out.old ++ style_text key.now) }
{
    out.push_str("<style>text{font:12px sans-serif}.key{stroke:#888888}")?;
    put_class_styles(out, key)?;
    out.push_str("</style>\n<rect width=\"100%\" height=\"100%\" fill=\"#ffffff\"/>\n")
}

/// The outline of a cell in a row.
pub(crate) fn outline(shape: CellShape, row: u32) -> &'static str
    ensures outline { result.now ≡ outline shape row }
{
    match shape {
        CellShape::Square => "h1v1h-1z",
        CellShape::Hexagon if row % 2 == 1 => {
            "m1-.16667l.5 .33333v.66667l-.5 .33333-.5-.33333v-.66667z"
        }
        CellShape::Hexagon => "m.5-.16667l.5 .33333v.66667l-.5 .33333-.5-.33333v-.66667z",
    }
}

/// How cells lie that are 1 wide and 1 apart.
pub(crate) fn lattice(shape: CellShape) -> &'static str
    ensures lattice { result.now ≡ lattice shape }
{
    match shape {
        CellShape::Square => "",
        CellShape::Hexagon => { " scale(1 .86603) translate(0 .16667)\" shape-rendering=\"auto" }
    }
}

/// A cell: the number of its colour, and where it stands.
#[derive(Clone, Copy)]
pub(crate) struct Cell {
    pub(crate) class: usize,
    pub(crate) column: u32,
    pub(crate) row: u32,
}

/// A cell of a shape.
#[tactic(auto, unfolding(crate::specs::Sheets::cell_text))]
pub(crate) fn put_cell(out: &mut String, shape: CellShape, cell: Cell) -> Result<(), AllocError>
    ensures text { OnOk result (string_bytes out.new ≡ string_bytes out.old ++ cell_text shape cell.class cell.column cell.row) }
{
    let Cell { class, column, row } = cell;
    let outline = outline(shape, row);
    write!(
        out,
        "<path class=\"c{class}\" d=\"M{column} {row}{outline}\"/>\n"
    )
}

/// Cells in rows of a width.
fn put_rows(out: &mut String, key: &Key<'_>, width: u32, cells: &[u32]) -> Result<(), AllocError>
    requires width { 1 ≤ width }
    requires count { length cells.now ≤ 1000000 }
    ensures text { OnOk result (string_bytes out.new ≡ string_bytes out.old ++ rows_text key.now width 0 cells.now) }
{
    for (place, value) in cells.iter().enumerate() {
        let place = place as u32;
        let class = class_of(key, *value);
        let (column, row) = (place % width, place / width);
        put_cell(out, key.styles().shape(), Cell { class, column, row })?;
    }
    Ok(())
}

/// The same, as large as they are to be.
#[tactic(auto, unfolding(crate::specs::Sheets::cells_text))]
fn put_cells(out: &mut String, key: &Key<'_>, width: u32, cells: &[u32]) -> Result<(), AllocError>
    requires width { 1 ≤ width }
    requires count { length cells.now ≤ 1000000 }
    ensures text { OnOk result (string_bytes out.new ≡ string_bytes out.old ++ cells_text key.now width cells.now) }
{
    let side = side_of(width, cells.len() as u32);
    let lattice = lattice(key.styles().shape());
    write!(out, "<g transform=\"scale({side}){lattice}\">\n")?;
    put_rows(out, key, width, cells)?;
    out.push_str("</g>\n")
}

/// The picture of values in rows of a width, coloured by a key.
pub(crate) fn sheet_of(
    alloc: Global,
    key: &Key<'_>,
    width: u32,
    values: &[u32],
) -> Result<Vec<u8>, AllocError>
    requires width { 1 ≤ width }
    requires count { length values.now ≤ 1000000 }
    ensures text { IfOk result (λ v. v.items ≡ sheet_text key.now width values.now) }
{
    let count = values.len() as u32;
    let mut out = String::new(alloc);
    put_opening(
        &mut out,
        sheet_width(key, width, count),
        sheet_height(key, width, count),
    )?;
    put_style(&mut out, key)?;
    put_cells(&mut out, key, width, values)?;
    put_legend(&mut out, key, legend_top(width, count))?;
    out.push_str("</svg>\n")?;
    Ok(out.into_bytes())
}

/// The same, coloured by a key of its own.
pub(crate) fn picture_of(
    alloc: Global,
    styles: &ValueStyles<'_>,
    width: u32,
    values: &[u32],
) -> Result<Vec<u8>, AllocError>
    requires width { 1 ≤ width }
    requires count { length values.now ≤ 1000000 }
    ensures text { IfOk result (λ v. v.items ≡ sheet_text (key_of styles.now values.now) width values.now) }
{
    let key = key_of(alloc, styles, values)?;
    sheet_of(alloc, &key, width, values)
}
