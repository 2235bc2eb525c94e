//! `--colours`: values that have colours of their own.
ghost use Rattle.std.specs.Prelude.{◌≤◌, IfSome};

use app_commands::value_word;
use app_files::{Ending, VALUE_WORDS, ValueWord};
use app_table::{Argument, OPTION, Reading, WordsFault};
use run_picture::{Colour, MOST_COLOURS, ValueColour};
use std::alloc::Global;

pub(crate) const COLOURS: Argument = Argument {
    name: "colours",
    value_name: "VALUE:COLOUR,..",
    help: "Show values, numbers, none or names of states, in colours of their own, 64 at most: #rrggbb, or black, silver, gray, white, maroon, red, purple, fuchsia, green, lime, olive, yellow, navy, blue, teal or aqua",
    ..OPTION
};

/// `COLOURS`, as it is read.
static COLOURS_ARGUMENT: Argument = COLOURS;

/// A colour by its parts.
fn mixed(red: u8, green: u8, blue: u8) -> Option<Colour> {
    Some(Colour { red, green, blue })
}

/// One of the sixteen basic colours of CSS.
fn named_colour(name: &str) -> Option<Colour> {
    match name {
        "black" => mixed(0, 0, 0),
        "silver" => mixed(192, 192, 192),
        "gray" => mixed(128, 128, 128),
        "white" => mixed(255, 255, 255),
        "maroon" => mixed(128, 0, 0),
        "red" => mixed(255, 0, 0),
        "purple" => mixed(128, 0, 128),
        "fuchsia" => mixed(255, 0, 255),
        "green" => mixed(0, 128, 0),
        "lime" => mixed(0, 255, 0),
        "olive" => mixed(128, 128, 0),
        "yellow" => mixed(255, 255, 0),
        "navy" => mixed(0, 0, 128),
        "blue" => mixed(0, 0, 255),
        "teal" => mixed(0, 128, 128),
        "aqua" => mixed(0, 255, 255),
        _ => None,
    }
}

/// What a hexadecimal digit stands for.
fn hex_digit(byte: u8) -> Option<u8>
    ensures small { IfSome result (λ digit. digit ≤ 15) }
{
    if b'0' <= byte && byte <= b'9' {
        return Some(byte - b'0');
    }
    if b'a' <= byte && byte <= b'f' {
        return Some(byte - b'a' + 10);
    }
    if b'A' <= byte && byte <= b'F' {
        return Some(byte - b'A' + 10);
    }
    None
}

/// What two hexadecimal digits stand for.
fn hex_pair(high: u8, low: u8) -> Option<u8> {
    let high = hex_digit(high)?;
    let low = hex_digit(low)?;
    Some(high * 16 + low)
}

/// The colour of `#rrggbb`, or of a name.
fn colour_of(word: &str) -> Option<Colour> {
    let [b'#', r, red, g, green, b, blue] = word.as_bytes() else {
        return named_colour(word);
    };
    let red = hex_pair(*r, *red)?;
    let green = hex_pair(*g, *green)?;
    let blue = hex_pair(*b, *blue)?;
    mixed(red, green, blue)
}

/// A value as it is written, and its colour.
#[derive(Drop)]
pub struct ColourWord {
    value: ValueWord,
    colour: Colour,
}

/// The value and the colour of `VALUE:COLOUR`.
fn colour_word(reading: &mut Reading, part: &str) -> Option<ColourWord> {
    let (value, word) = part.split_once(':')?;
    let colour = colour_of(word)?;
    let value = value_word(reading, value)?;
    Some(ColourWord { value, colour })
}

/// Notes that a part has not its value and its colour.
fn refuse_colour(reading: &mut Reading, part: &str) {
    reading.refuse_as(format!(in reading.alloc();
        "--colours: expected VALUE:COLOUR, {VALUE_WORDS}, and #rrggbb or one of black, silver, gray, white, maroon, red, purple, fuchsia, green, lime, olive, yellow, navy, blue, teal and aqua, with a comma between two; found `{part}`"
    ))
}

/// Notes that too many values are given colours.
fn refuse_many(reading: &mut Reading) {
    reading.refuse_as(format!(in reading.alloc();
        "--colours: at most {MOST_COLOURS} values have colours of their own"
    ));
}

/// Puts the value and the colour of a part after the others.
fn put_colour_word(colours: &mut Vec<ColourWord>, reading: &mut Reading, part: &str) {
    let Some(word) = colour_word(reading, part) else {
        return refuse_colour(reading, part);
    };
    if colours.len() >= MOST_COLOURS {
        return refuse_many(reading);
    }
    if colours.push(word).is_err() {
        reading.refuse(WordsFault::Memory);
    }
}

/// The values and colours between the commas of a text.
fn colours_from(reading: &mut Reading, text: &str) -> Vec<ColourWord> {
    let mut colours = Vec::new(reading.alloc());
    for part in text.split(',') {
        put_colour_word(&mut colours, reading, part);
    }
    colours
}

/// The values that `--colours` gives colours of their own, and these.
pub(crate) fn colours_in(reading: &mut Reading) -> Vec<ColourWord> {
    match reading.text(&COLOURS_ARGUMENT) {
        Some(text) => colours_from(reading, text.as_str()),
        None => Vec::new(reading.alloc()),
    }
}

/// The field by which is coloured.
#[derive(Clone, Copy)]
pub(crate) struct ColouredField<'a> {
    pub(crate) place: u32,
    pub(crate) name: &'a str,
    /// The names of its values, 0 and so on; none where it has no states.
    pub(crate) values: &'a [String],
}

/// The ending where a value is given two colours.
fn given_twice(alloc: Global, value: u32) -> Ending {
    Ending::usage(format!(in alloc; "--colours: the value {value} is given two colours"))
}

/// Whether one of these values has a colour already.
fn is_given(colours: &[ValueColour], value: u32) -> bool {
    for own in colours {
        if own.value == value {
            return true;
        }
    }
    false
}

/// Puts the colour of the value of a field that a word names after the others.
fn put_colour(
    colours: &mut Vec<ValueColour>,
    alloc: Global,
    field: ColouredField<'_>,
    word: &ColourWord,
) -> Result<(), Ending> {
    let value = word
        .value
        .value(alloc, "--colours", field.name, field.values)?;
    if is_given(colours, value) {
        return Err(given_twice(alloc, value));
    }
    let colour = word.colour;
    colours.push(ValueColour { value, colour })?;
    Ok(())
}

/// The values of a field that words give colours of their own, none twice.
pub(crate) fn colours_for(
    alloc: Global,
    field: ColouredField<'_>,
    words: &[ColourWord],
) -> Result<Vec<ValueColour>, Ending> {
    let mut colours = Vec::new(alloc);
    for word in words {
        put_colour(&mut colours, alloc, field, word)?;
    }
    Ok(colours)
}
