//! Curves of counts, as SVG.
ghost use Rattle.std.specs.Prelude.{◌≡◌, ◌++◌, ◌<◌, ◌≤◌, OnOk, IfOk, string_bytes};
ghost use Rattle.std.specs.List.{flat_map};
ghost use Rattle.run_picture.specs.Curves.{axes_text, curve_text, curves_height, curves_text, line_text, plot_text, plotted, point_text, points_text, styles_text, title_text, view_text};
ghost use Rattle.run_picture.specs.Keys.{key_of};
ghost use Rattle.run_picture.specs.Ticks.{ticks};

use crate::axes::{put_count_lines, put_round_lines};
use crate::colour::{class_of, fill_of};
use crate::key::{Key, key_of};
use crate::legend::{legend_lines, put_legend, put_value};
use crate::sheet::{put_opening, put_style};
use crate::styles::ValueStyles;
use run_counts::{Row, count_in};
use run_watch::Span;
use std::alloc::{AllocError, Global};

/// Where the legend begins, in pixels from the top.
const LEGEND_TOP: u32 = 388;

/// A point: a round, and a number of nodes.
#[tactic(auto, unfolding(crate::specs::Curves::point_text))]
fn put_point(out: &mut String, round: u32, nodes: u64) -> Result<(), AllocError>
    ensures text { OnOk result (string_bytes out.new ≡ string_bytes out.old ++ point_text round nodes) }
{
    write!(out, "{round},{nodes} ")
}

/// The points of a value.
fn put_points(out: &mut String, rows: &[Row], value: u32) -> Result<(), AllocError>
    ensures text { OnOk result (string_bytes out.new ≡ string_bytes out.old ++ points_text rows.now value) }
{
    for row in rows {
        put_point(out, row.round(), count_in(row.counts(), value))?;
    }
    Ok(())
}

/// The value of a curve.
#[tactic(auto, unfolding(crate::specs::Curves::title_text))]
fn put_title(out: &mut String, key: &Key<'_>, value: u32) -> Result<(), AllocError>
    ensures text { OnOk result (string_bytes out.new ≡ string_bytes out.old ++ title_text key.now value) }
{
    out.push_str("<title>")?;
    put_value(out, key, value)?;
    out.push_str("</title>")
}

/// The points of a value as a line, with an attribute.
#[tactic(auto, unfolding(crate::specs::Curves::line_text))]
fn put_line(
    out: &mut String,
    name: &str,
    attribute: &str,
    rows: &[Row],
    value: u32,
) -> Result<(), AllocError>
    ensures text { OnOk result (string_bytes out.new ≡ string_bytes out.old ++ line_text name.now attribute.now rows.now value) }
{
    write!(out, "<polyline {name}=\"{attribute}\" points=\"")?;
    put_points(out, rows, value)?;
    out.push_str("\"/>")
}

/// The curve of a value: an edge, and on it a line in the colour of the value.
#[tactic(auto, unfolding(crate::specs::Curves::curve_text))]
fn put_curve(
    out: &mut String,
    alloc: Global,
    key: &Key<'_>,
    rows: &[Row],
    value: u32,
) -> Result<(), AllocError>
    ensures text { OnOk result (string_bytes out.new ≡ string_bytes out.old ++ curve_text key.now rows.now value) }
{
    let fill = fill_of(alloc, key, class_of(key, value))?;
    out.push_str("<g>")?;
    put_title(out, key, value)?;
    put_line(out, "class", "edge", rows, value)?;
    put_line(out, "stroke", fill.as_str(), rows, value)?;
    out.push_str("</g>\n")
}

/// The curves of values, one after the other.
fn put_each(
    out: &mut String,
    alloc: Global,
    key: &Key<'_>,
    rows: &[Row],
    values: &[u32],
) -> Result<(), AllocError>
    ensures text { OnOk result (string_bytes out.new ≡ string_bytes out.old ++ flat_map (curve_text key.now rows.now) values.now) }
{
    for value in values {
        put_curve(out, alloc, key, rows, *value)?;
    }
    Ok(())
}

/// What stands before the curves: where they are drawn.
#[tactic(auto, unfolding(crate::specs::Curves::view_text))]
fn put_view(out: &mut String, first: u32, across: u32, nodes: u32) -> Result<(), AllocError>
    ensures text { OnOk result (string_bytes out.new ≡ string_bytes out.old ++ view_text first across nodes) }
{
    write!(
        out,
        "<svg x=\"64\" y=\"24\" width=\"640\" height=\"320\" viewBox=\"{first} 0 {across} {nodes}\" preserveAspectRatio=\"none\" overflow=\"visible\"><g transform=\"translate(0 {nodes}) scale(1 -1)\">\n"
    )
}

/// What a plot shows: the curves of these values in counted rounds, in the colours of a key.
#[derive(Clone, Copy)]
struct Plot<'a> {
    /// The rounds, which go to the right.
    span: &'a Span,
    /// How many nodes there are, which go upwards.
    nodes: u32,
    key: &'a Key<'a>,
    rows: &'a [Row],
    values: &'a [u32],
}

/// The curves of values, over the plot.
fn put_curves(out: &mut String, alloc: Global, plot: &Plot<'_>) -> Result<(), AllocError>
    ensures text { OnOk result (string_bytes out.new ≡ string_bytes out.old ++ curves_text plot.now.span.now plot.now.nodes plot.now.key.now plot.now.rows.now plot.now.values.now) }
{
    let span = plot.span;
    put_view(out, span.first(), span.last() - span.first(), plot.nodes)?;
    put_each(out, alloc, plot.key, plot.rows, plot.values)?;
    out.push_str("</g></svg>\n")
}

/// The two axes.
fn put_axes(out: &mut String) -> Result<(), AllocError>
    ensures text { OnOk result (string_bytes out.new ≡ string_bytes out.old ++ axes_text) }
{
    out.push_str(
        "<path class=\"axis\" d=\"M64 24v320h640\"/><text x=\"58\" y=\"14\" text-anchor=\"end\">nodes</text><text x=\"384\" y=\"378\" text-anchor=\"middle\">round</text>\n",
    )
}

/// The plot: its axes, and the curves.
#[tactic(auto, unfolding(crate::specs::Curves::plot_text))]
fn put_plot(out: &mut String, alloc: Global, plot: &Plot<'_>) -> Result<(), AllocError>
    requires wide { plot.now.span.now.first < plot.now.span.now.last }
    requires some { 1 ≤ plot.now.nodes }
    ensures text { OnOk result (string_bytes out.new ≡ string_bytes out.old ++ plot_text plot.now.span.now plot.now.nodes (ticks plot.now.span.now.first plot.now.span.now.last) (ticks 0 plot.now.nodes) plot.now.key.now plot.now.rows.now plot.now.values.now) }
{
    put_round_lines(out, alloc, plot.span)?;
    put_count_lines(out, alloc, plot.nodes)?;
    put_axes(out)?;
    put_curves(out, alloc, plot)
}

/// The styles of all that is drawn.
#[tactic(auto, unfolding(crate::specs::Curves::styles_text))]
fn put_styles(out: &mut String, key: &Key<'_>) -> Result<(), AllocError>
    ensures text { OnOk result (string_bytes out.new ≡ string_bytes out.old ++ styles_text key.now) }
{
    put_style(out, key)?;
    out.push_str(
        "<style>polyline{fill:none;stroke-width:2;stroke-linejoin:round;shape-rendering:auto;vector-effect:non-scaling-stroke}.edge{stroke:#888888;stroke-width:4}.grid{stroke:#dddddd}.axis{fill:none;stroke:#000000}</style>\n",
    )
}

/// The size of the whole in pixels from the top to the bottom.
fn curves_height(key: &Key<'_>) -> u32
    ensures height { result ≡ curves_height key.now }
{
    LEGEND_TOP + 18 * legend_lines(key)
}

/// The plot in the colours of a key, and the legend of the key.
#[tactic(auto, unfolding(crate::specs::Curves::plotted))]
fn put_sheet(out: &mut String, alloc: Global, plot: &Plot<'_>) -> Result<(), AllocError>
    requires wide { plot.now.span.now.first < plot.now.span.now.last }
    requires some { 1 ≤ plot.now.nodes }
    ensures text { OnOk result (string_bytes out.new ≡ string_bytes out.old ++ plotted plot.now.span.now plot.now.nodes (ticks plot.now.span.now.first plot.now.span.now.last) (ticks 0 plot.now.nodes) plot.now.key.now plot.now.rows.now plot.now.values.now) }
{
    put_opening(out, 744, curves_height(plot.key))?;
    put_styles(out, plot.key)?;
    put_plot(out, alloc, plot)?;
    put_legend(out, plot.key, LEGEND_TOP)?;
    out.push_str("</svg>\n")
}

/// The picture of the curves of values in the rounds of a span.
pub(crate) fn curves_picture(
    alloc: Global,
    styles: &ValueStyles<'_>,
    span: &Span,
    nodes: u32,
    rows: &[Row],
    values: &[u32],
) -> Result<Vec<u8>, AllocError>
    requires wide { span.now.first < span.now.last }
    requires some { 1 ≤ nodes }
    ensures text { IfOk result (λ v. v.items ≡ plotted span.now nodes (ticks span.now.first span.now.last) (ticks 0 nodes) (key_of styles.now values.now) rows.now values.now) }
{
    let key = key_of(alloc, styles, values)?;
    let plot = Plot {
        span,
        nodes,
        key: &key,
        rows,
        values,
    };
    let mut out = String::new(alloc);
    put_sheet(&mut out, alloc, &plot)?;
    Ok(out.into_bytes())
}
