//! Cuts as they are told.
ghost use Rattle.std.specs.Prelude.{◌≡◌, ◌++◌, OnOk, string_bytes, slice_get};
ghost use Rattle.std.specs.Option.{option_map};
ghost use Rattle.run_cuts.specs.Texts.{count_member, cut_line, cut_member, first_members, kind_text, label_of, limit_of as limit_of_lem, lines_text, members_text, nothing_line, occasion_text, place_text, site_at as site_at_lem, site_members, symbol_of as symbol_of_lem, times_text, told_json, told_text};

use crate::cut::{Cut, Kind};
use std::alloc::AllocError;

/// Where an operator stands in a program's text.
#[derive(Clone, Copy)]
pub struct Site {
    /// The number of its line, counted from 1.
    pub line: usize,
    /// The number of its column, counted from 1.
    pub column: usize,
}

/// What is told beside the cuts.
#[derive(Clone, Copy)]
pub struct Telling<'a> {
    /// The name of the program's text.
    pub name: &'a str,
    /// Where the `+`, `-`, `*` and `total` of the text stand, in its order.
    pub sites: &'a [Site],
    /// What stands for a node, by its number; for a node past the last its number.
    pub labels: &'a [String],
    /// The last round that was looked at.
    pub rounds: u32,
    /// Whether differences were asked for.
    pub below: bool,
}

/// An operator as it is written.
fn symbol_of(kind: Kind) -> &'static str
    ensures text { result.now ≡ symbol_of_lem kind }
{
    match kind {
        Kind::Sum => "+",
        Kind::Difference => "-",
        Kind::Product => "*",
        Kind::Total => "total",
    }
}

/// The value at which it was cut.
fn limit_of(kind: Kind) -> &'static str
    ensures text { result.now ≡ limit_of_lem kind }
{
    match kind {
        Kind::Difference => "0",
        _ => "4294967295",
    }
}

/// Where an operator stands; at the front where that is not known.
fn site_at(sites: &[Site], operator: usize) -> Site
    ensures exact { result ≡ site_at_lem sites.now operator }
{
    match sites.get(operator) {
        Some(site) => *site,
        None => Site { line: 1, column: 1 },
    }
}

/// What stands for a node.
fn put_label(out: &mut String, labels: &[String], node: u32) -> Result<(), AllocError>
    ensures text { OnOk result (string_bytes out.new ≡ string_bytes out.old ++ label_of (option_map string_bytes (slice_get labels.now node)) node) }
{
    match labels.get(node as usize) {
        Some(label) => out.push_str(label.as_str()),
        None => write!(out, "{node}"),
    }
}

/// How often it was cut.
fn put_times(out: &mut String, times: u64) -> Result<(), AllocError>
    ensures text { OnOk result (string_bytes out.new ≡ string_bytes out.old ++ times_text times) }
{
    if times == 1 {
        return out.push_str("once\n");
    }
    write!(out, "{times} times in all\n")
}

/// The place of an operator.
fn put_place(out: &mut String, name: &str, site: Site) -> Result<(), AllocError>
    ensures text { OnOk result (string_bytes out.new ≡ string_bytes out.old ++ place_text name.now site) }
{
    let line = site.line;
    let column = site.column;
    out.push_str(name)?;
    write!(out, ":{line}:{column}: `")
}

/// The operator, and the value at which it was cut.
fn put_kind(out: &mut String, kind: Kind) -> Result<(), AllocError>
    ensures text { OnOk result (string_bytes out.new ≡ string_bytes out.old ++ kind_text kind) }
{
    out.push_str(symbol_of(kind))?;
    out.push_str("` was cut at ")?;
    out.push_str(limit_of(kind))
}

/// Where it was cut first.
fn put_occasion(
    out: &mut String,
    labels: &[String],
    round: u32,
    node: u32,
) -> Result<(), AllocError>
    ensures text { OnOk result (string_bytes out.new ≡ string_bytes out.old ++ occasion_text labels.now round node) }
{
    write!(out, ": first in round {round} at node ")?;
    put_label(out, labels, node)?;
    out.push_str(", ")
}

/// The line of an operator that was cut.
fn put_line(out: &mut String, telling: &Telling<'_>, cut: &Cut) -> Result<(), AllocError>
    ensures text { OnOk result (string_bytes out.new ≡ string_bytes out.old ++ cut_line telling.now cut.now) }
{
    put_place(out, telling.name, site_at(telling.sites, cut.operator))?;
    put_kind(out, cut.kind)?;
    put_occasion(out, telling.labels, cut.round, cut.node)?;
    put_times(out, cut.times)
}

/// The line that says that nothing was cut.
fn put_nothing(out: &mut String, telling: &Telling<'_>) -> Result<(), AllocError>
    ensures text { OnOk result (string_bytes out.new ≡ string_bytes out.old ++ nothing_line telling.now) }
{
    let rounds = telling.rounds;
    if telling.below {
        return write!(
            out,
            "nothing was cut at 4294967295 or at 0 up to round {rounds}\n"
        );
    }
    write!(out, "nothing was cut at 4294967295 up to round {rounds}\n")
}

/// A line for each of the cuts.
fn put_lines(out: &mut String, telling: &Telling<'_>, cuts: &[Cut]) -> Result<(), AllocError>
    ensures text { OnOk result (string_bytes out.new ≡ string_bytes out.old ++ lines_text telling.now cuts.now) }
{
    for cut in cuts {
        put_line(out, telling, cut)?;
    }
    Ok(())
}

/// Cuts as a text for people: a line for each operator, or the one that says that nothing was cut.
pub fn put_text(out: &mut String, telling: &Telling<'_>, cuts: &[Cut]) -> Result<(), AllocError>
    ensures text { OnOk result (string_bytes out.new ≡ string_bytes out.old ++ told_text telling.now cuts.now) }
{
    if cuts.is_empty() {
        return put_nothing(out, telling);
    }
    put_lines(out, telling, cuts)
}

/// The members of a place, up to the operator.
fn put_site(out: &mut String, site: Site) -> Result<(), AllocError>
    ensures text { OnOk result (string_bytes out.new ≡ string_bytes out.old ++ site_members site) }
{
    let line = site.line;
    let column = site.column;
    out.push_str("{\"line\":")?;
    write!(out, "{line},\"column\":{column},\"operator\":\"")
}

/// The members of a first occasion.
fn put_first(out: &mut String, labels: &[String], round: u32, node: u32) -> Result<(), AllocError>
    ensures text { OnOk result (string_bytes out.new ≡ string_bytes out.old ++ first_members labels.now round node) }
{
    write!(out, "\",\"round\":{round},\"node\":")?;
    put_label(out, labels, node)
}

/// The member of a count, and the end.
fn put_count(out: &mut String, times: u64) -> Result<(), AllocError>
    ensures text { OnOk result (string_bytes out.new ≡ string_bytes out.old ++ count_member times) }
{
    write!(out, ",\"times\":{times}")?;
    out.push_str("}")
}

/// The object of an operator that was cut.
fn put_member(out: &mut String, telling: &Telling<'_>, cut: &Cut) -> Result<(), AllocError>
    ensures text { OnOk result (string_bytes out.new ≡ string_bytes out.old ++ cut_member telling.now cut.now) }
{
    put_site(out, site_at(telling.sites, cut.operator))?;
    out.push_str(symbol_of(cut.kind))?;
    put_first(out, telling.labels, cut.round, cut.node)?;
    put_count(out, cut.times)
}

/// The objects of the cuts, with commas between.
fn put_members(out: &mut String, telling: &Telling<'_>, cuts: &[Cut]) -> Result<(), AllocError>
    ensures text { OnOk result (string_bytes out.new ≡ string_bytes out.old ++ members_text telling.now 0 cuts.now) }
{
    for (number, cut) in cuts.iter().enumerate() {
        if number > 0 {
            out.push_str(",")?;
        }
        put_member(out, telling, cut)?;
    }
    Ok(())
}

/// Cuts as a JSON object on a line. Labels of nodes are JSON values.
pub fn put_json(out: &mut String, telling: &Telling<'_>, cuts: &[Cut]) -> Result<(), AllocError>
    ensures text { OnOk result (string_bytes out.new ≡ string_bytes out.old ++ told_json telling.now cuts.now) }
{
    let rounds = telling.rounds;
    out.push_str("{\"rounds\":")?;
    write!(out, "{rounds},\"cuts\":[")?;
    put_members(out, telling, cuts)?;
    out.push_str("]}\n")
}
