//! Colours that are chosen for values.
ghost use Rattle.std.specs.Prelude.{◌≡◌, ◌++◌, OnOk, string_bytes};
ghost use Rattle.run_picture.specs.Chosen.{hex_text, is_dim, own_place, pair_text};

use std::alloc::AllocError;

/// The shape of cells.
#[derive(Clone, Copy, Debug, PartialEq, Eq)]
pub enum CellShape {
    /// Squares, in columns.
    Square,
    /// Hexagons that stand on a corner; each second row, from the one below the first on, is shifted to the right by half
    /// a cell.
    Hexagon,
}

/// A colour, by its parts of red, green and blue.
#[derive(Clone, Copy)]
pub struct Colour {
    pub red: u8,
    pub green: u8,
    pub blue: u8,
}

/// A value that has a colour of its own.
#[derive(Clone, Copy)]
pub struct ValueColour {
    pub value: u32,
    pub colour: Colour,
}

/// How many values with colours of their own stand before this one; all of them where it is none of them.
pub(crate) fn own_place(colours: &[ValueColour], value: u32) -> usize
    ensures place { result ≡ own_place colours.now value }
{
    for (place, own) in colours.iter().enumerate() {
        if own.value == value {
            return place;
        }
    }
    colours.len()
}

/// Whether black is not read on this colour.
pub(crate) fn is_dim(colour: Colour) -> bool
    ensures { result ≡ is_dim colour }
{
    299 * u32::from(colour.red) + 587 * u32::from(colour.green) + 114 * u32::from(colour.blue)
        < 100_000
}

/// A part of a colour as two hexadecimal digits.
#[tactic(auto, unfolding(crate::specs::Chosen::pair_text))]
fn put_pair(out: &mut String, part: u8) -> Result<(), AllocError>
    ensures text { OnOk result (string_bytes out.new ≡ string_bytes out.old ++ pair_text part) }
{
    let high = part / 16;
    let low = part % 16;
    write!(out, "{high:x}{low:x}")
}

/// A colour as text.
#[tactic(auto, unfolding(crate::specs::Chosen::hex_text))]
pub(crate) fn put_hex(out: &mut String, colour: Colour) -> Result<(), AllocError>
    ensures text { OnOk result (string_bytes out.new ≡ string_bytes out.old ++ hex_text colour) }
{
    out.push_str("#")?;
    put_pair(out, colour.red)?;
    put_pair(out, colour.green)?;
    put_pair(out, colour.blue)
}
