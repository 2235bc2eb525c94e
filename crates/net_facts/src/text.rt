//! What one wants to know of a network, as lines.
ghost use Rattle.std.specs.Prelude.{◌≡◌, ◌++◌, IfOk, OnOk, string_bytes};
ghost use Rattle.net_facts.specs.Lines.{diameter_line, facts_lines, number_line, range_line, weights_line};

use crate::facts::{Facts, Range};
use std::alloc::{AllocError, Global};

/// Adds a line with a number.
fn put_number(out: &mut String, word: &str, number: u32) -> Result<(), AllocError>
    ensures line { OnOk result (string_bytes out.new ≡ string_bytes out.old ++ number_line word.now number) }
{
    write!(out, "{word} {number}\n")
}

/// Adds a line with a range.
fn put_range(out: &mut String, word: &str, range: Range) -> Result<(), AllocError>
    ensures line { OnOk result (string_bytes out.new ≡ string_bytes out.old ++ range_line word.now range) }
{
    let least = range.least;
    let greatest = range.greatest;
    write!(out, "{word} {least} to {greatest}\n")
}

/// Adds the line of the diameter, where it was found.
fn put_diameter(out: &mut String, diameter: Option<u32>) -> Result<(), AllocError>
    ensures line { OnOk result (string_bytes out.new ≡ string_bytes out.old ++ diameter_line diameter) }
{
    match diameter {
        Some(diameter) => put_number(out, "diameter", diameter),
        None => Ok(()),
    }
}

/// Adds the line of the weights, where there are links.
fn put_weights(out: &mut String, weights: Option<Range>) -> Result<(), AllocError>
    ensures line { OnOk result (string_bytes out.new ≡ string_bytes out.old ++ weights_line weights) }
{
    match weights {
        Some(weights) => put_range(out, "weights", weights),
        None => Ok(()),
    }
}

/// The facts, a line each: `nodes`, `links`, `degrees`, `components`, `diameter` where it was found, and `weights`
/// where there are links.
pub fn facts_text(alloc: Global, facts: &Facts) -> Result<String, AllocError>
    ensures lines { IfOk result (λ s. string_bytes s ≡ facts_lines facts.now) }
{
    let mut out = String::new(alloc);
    put_number(&mut out, "nodes", facts.nodes)?;
    put_number(&mut out, "links", facts.links)?;
    put_range(&mut out, "degrees", facts.degrees)?;
    put_number(&mut out, "components", facts.components)?;
    put_diameter(&mut out, facts.diameter)?;
    put_weights(&mut out, facts.weights)?;
    Ok(out)
}
