//! Notes on standard error on colours that two values have, or may have.

use app_commands::put_note;
use app_files::Ending;
use run_picture::{Colour, ValueColour, is_in_palette};
use std::alloc::{AllocError, Global};

/// Whether two colours are the same.
fn is_same(one: Colour, other: Colour) -> bool {
    one.red == other.red && one.green == other.green && one.blue == other.blue
}

/// The first of these values that has this colour for itself.
fn value_with(colours: &[ValueColour], colour: Colour) -> Option<u32> {
    for own in colours {
        if is_same(own.colour, colour) {
            return Some(own.value);
        }
    }
    None
}

/// The note on a colour that a value after others has for itself, where another value has it, too.
fn colour_note(
    alloc: Global,
    before: &[ValueColour],
    own: ValueColour,
) -> Result<Option<String>, AllocError> {
    let value = own.value;
    if let Some(other) = value_with(before, own.colour) {
        let note = format!(in alloc;
            "--colours: the values {other} and {value} have the same colour"
        )?;
        return Ok(Some(note));
    }
    if is_in_palette(alloc, own.colour)? {
        let note = format!(in alloc;
            "--colours: the colour of the value {value} stands in the palette, too: another value may have it"
        )?;
        return Ok(Some(note));
    }
    Ok(None)
}

/// Prints a note for each colour that a value has for itself, and that another value has, or may have, too.
pub(crate) fn put_colour_notes(rt: &HostRuntime, colours: &[ValueColour]) -> Result<(), Ending> {
    for (place, own) in colours.iter().enumerate() {
        if let Some(note) = colour_note(rt.alloc(), &colours[..place], *own)? {
            put_note(rt, note.as_str());
        }
    }
    Ok(())
}
