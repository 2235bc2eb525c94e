//! The colours of values.
ghost use Rattle.std.specs.Prelude.{◌≡◌, ◌++◌, ◌≤◌, IfOk, OnOk, length, slice_get, string_bytes};
ghost use Rattle.run_picture.specs.Chosen.{own_place};
ghost use Rattle.std.specs.List.{list_any, range_with_len};
ghost use Rattle.std.specs.Str.{bytes_eq};
ghost use Rattle.run_picture.specs.Shades.{is_in_palette as in_palette, class_count, class_of, class_total, colour_of, fill_of, ink_of, is_dark, own_fill, own_is_dark, shade_is_dark, shade_of, step_of};

use crate::chosen::{Colour, ValueColour, is_dim, own_place, put_hex};
use crate::key::{Key, NO_VALUE, rank};
use std::alloc::{AllocError, Global};

/// How many colours the palette has.
pub(crate) const CLASS_COUNT: usize = 25;

/// The step of a value, of 16 even ones from the least to the greatest.
fn step_of(key: &Key<'_>, value: u32) -> usize
    ensures { result ≡ step_of key.now value }
{
    let least = key.least();
    let above = value.saturating_sub(least) as u64;
    let range = key.greatest().saturating_sub(least) as u64 + 1;
    (above * 16 / range).min(15) as usize
}

/// The number of a value's colour in the palette.
fn shade_of(key: &Key<'_>, value: u32) -> usize
    ensures shade { result ≡ shade_of key.now value }
{
    if value == NO_VALUE {
        return 24;
    }
    if key.greatest() <= 1 {
        return value as usize;
    }
    if key.is_few() {
        return rank(key.values(), value);
    }
    8 + step_of(key, value)
}

/// The number of a value's colour: those of the palette first, then those that values have for themselves.
pub(crate) fn class_of(key: &Key<'_>, value: u32) -> usize
    ensures class { result ≡ class_of key.now value }
{
    let colours = key.styles().colours();
    let place = own_place(colours, value);
    if place < colours.len() {
        return CLASS_COUNT + place;
    }
    shade_of(key, value)
}

/// How many colours there are: those of the palette, and those that values have for themselves.
pub(crate) fn class_total(key: &Key<'_>) -> usize
    ensures total { result ≡ class_total key.now }
    ensures few { result ≤ 89 }
{
    CLASS_COUNT + key.styles().colours().len()
}

/// The colour of a number in the palette.
fn colour_of(class: usize) -> &'static str
    ensures colour { result.now ≡ colour_of class }
{
    match class {
        0 => "#f0f0f0",
        1 => "#000000",
        2 => "#e69f00",
        3 => "#56b4e9",
        4 => "#009e73",
        5 => "#f0e442",
        6 => "#0072b2",
        7 => "#d55e00",
        8 => "#440154",
        9 => "#481a6c",
        10 => "#472f7d",
        11 => "#414487",
        12 => "#39568c",
        13 => "#31688e",
        14 => "#2a788e",
        15 => "#23888e",
        16 => "#1f988b",
        17 => "#22a884",
        18 => "#35b779",
        19 => "#54c568",
        20 => "#7ad151",
        21 => "#a5db36",
        22 => "#d2e21b",
        23 => "#fde725",
        _ => "#bbbbbb",
    }
}

/// Whether the palette has a colour of this text.
fn has_text(text: &str) -> bool
    ensures { result ≡ list_any (λ n. bytes_eq (colour_of n) text.now) (range_with_len 0 class_count) }
{
    for class in 0..CLASS_COUNT {
        if colour_of(class) == text {
            return true;
        }
    }
    false
}

/// Whether the palette has this colour, so that another value may be shown in it.
pub fn is_in_palette(alloc: Global, colour: Colour) -> Result<bool, AllocError>
    ensures exact { IfOk result (λ found. found ≡ in_palette colour) }
{
    let mut text = String::new(alloc);
    put_hex(&mut text, colour)?;
    Ok(has_text(text.as_str()))
}

/// Puts the colour that the value at a place has for itself.
fn put_own_fill(out: &mut String, colours: &[ValueColour], place: usize) -> Result<(), AllocError>
    ensures text { OnOk result (string_bytes out.new ≡ string_bytes out.old ++ own_fill (slice_get colours.now place)) }
{
    match colours.get(place) {
        Some(own) => put_hex(out, own.colour),
        None => out.push_str("#bbbbbb"),
    }
}

/// Puts the colour of a number.
pub(crate) fn put_fill(out: &mut String, key: &Key<'_>, class: usize) -> Result<(), AllocError>
    ensures text { OnOk result (string_bytes out.new ≡ string_bytes out.old ++ fill_of key.now class) }
{
    if class < CLASS_COUNT {
        return out.push_str(colour_of(class));
    }
    put_own_fill(out, key.styles().colours(), class - CLASS_COUNT)
}

/// The colour of a number.
pub(crate) fn fill_of(alloc: Global, key: &Key<'_>, class: usize) -> Result<String, AllocError>
    ensures fill { IfOk result (λ fill. string_bytes fill ≡ fill_of key.now class) }
{
    let mut fill = String::new(alloc);
    put_fill(&mut fill, key, class)?;
    Ok(fill)
}

/// Whether black is not read on a colour of the palette.
fn shade_is_dark(class: usize) -> bool
    ensures { result ≡ shade_is_dark class }
{
    class == 1 || class == 6 || (8 <= class && class <= 14)
}

/// Whether black is not read on the colour that the value at a place has for itself.
fn own_is_dark(colours: &[ValueColour], place: usize) -> bool
    ensures { result ≡ own_is_dark (slice_get colours.now place) }
{
    match colours.get(place) {
        Some(own) => is_dim(own.colour),
        None => false,
    }
}

/// Whether black is not read on this colour.
fn is_dark(key: &Key<'_>, class: usize) -> bool
    ensures { result ≡ is_dark key.now class }
{
    if class < CLASS_COUNT {
        return shade_is_dark(class);
    }
    own_is_dark(key.styles().colours(), class - CLASS_COUNT)
}

/// A colour of writing that is read on this colour.
pub(crate) fn ink_of(key: &Key<'_>, class: usize) -> &'static str
    ensures ink { result.now ≡ ink_of key.now class }
{
    if is_dark(key, class) {
        "#ffffff"
    } else {
        "#000000"
    }
}
