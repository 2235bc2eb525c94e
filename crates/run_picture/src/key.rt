//! What the colours of cells follow from.
ghost use Rattle.std.specs.Prelude.{◌≡◌, OnOk, IfOk, take};
ghost use Rattle.run_picture.specs.Keys.{blank_key, is_among, key_of, state_key, with_cell, with_value};
ghost use Rattle.run_picture.specs.Shades.{is_few, least_of, rank, state_count};

use crate::styles::ValueStyles;
use std::alloc::{AllocError, AllocFailed, Global};
use std::marker::Model;

/// The value that says that there is none.
pub(crate) const NO_VALUE: u32 = 4_294_967_295;

/// The most states of a field.
const MOST_STATES: usize = 256;

/// So many values at most have a colour each; one more is kept, so that it is known whether there are more.
const MOST_KEPT: usize = 9;

/// What the colours of cells follow from. A contract sees how values are shown, the states and the values in the cells, the
/// greatest, and whether a cell has none.
#[derive(Drop)]
pub(crate) struct Key<'a> {
    styles: &'a ValueStyles<'a>,
    values: Vec<u32>,
    greatest: u32,
    none: bool,
}

impl<'a> Model for Key<'a> {
    ghost use Rattle.run_picture.specs.Shades.{KeyView};

    ghost Value = { KeyView };

    ghost view = { λ k. record { styles = k.styles.now; values = k.values.items; greatest = k.greatest; none = k.none } };
}

/// How many of rising values are below this one.
pub(crate) fn rank(values: &[u32], value: u32) -> usize
    ensures rank { result ≡ rank values.now value }
{
    for (place, known) in values.iter().enumerate() {
        if *known >= value {
            return place;
        }
    }
    values.len()
}

/// Whether a value is one of these.
fn is_among(values: &[u32], value: u32) -> bool
    ensures { result ≡ is_among values.now value }
{
    for known in values {
        if *known == value {
            return true;
        }
    }
    false
}

/// Puts a value at its place among rising ones, where it is not there.
fn put_value(values: &mut Vec<u32>, value: u32) -> Result<(), AllocFailed<u32>>
    ensures { OnOk result (values.new.items ≡ with_value values.old.items value) }
{
    if is_among(values, value) {
        return Ok(());
    }
    let place = rank(values, value);
    values.insert(place, value)?;
    Ok(())
}

/// The same, where only the least are kept.
fn keep_value(values: &mut Vec<u32>, value: u32) -> Result<(), AllocFailed<u32>>
    ensures { OnOk result (values.new.items ≡ take 9 (with_value values.old.items value)) }
{
    put_value(values, value)?;
    values.truncate(MOST_KEPT);
    Ok(())
}

impl<'a> Key<'a> {
    /// The key where there are no cells.
    fn new(alloc: Global, styles: &'a ValueStyles<'a>) -> Key<'a>
        ensures { result ≡ blank_key styles.now }
    {
        Key {
            styles,
            values: Vec::new(alloc),
            greatest: 0,
            none: false,
        }
    }

    /// Takes a cell in.
    fn add(&mut self, value: u32) -> Result<(), AllocError>
        ensures { OnOk result (self.new ≡ with_cell self.old value) }
    {
        if value == NO_VALUE {
            self.none = true;
            return Ok(());
        }
        keep_value(&mut self.values, value)?;
        self.greatest = self.greatest.max(value);
        Ok(())
    }

    /// How values are shown.
    pub(crate) fn styles(&self) -> &'a ValueStyles<'a>
        ensures { result.now ≡ self.now.styles }
    {
        self.styles
    }

    /// The states and the values in the cells, rising, the least nine of them.
    pub(crate) fn values(&self) -> &[u32]
        ensures { result.now ≡ self.now.values }
    {
        self.values.as_slice()
    }

    /// The least value, or 0.
    pub(crate) fn least(&self) -> u32
        ensures { result ≡ least_of self.now }
    {
        self.values.first().copied().unwrap_or(0)
    }

    /// The greatest value, or 0.
    pub(crate) fn greatest(&self) -> u32
        ensures { result ≡ self.now.greatest }
    {
        self.greatest
    }

    /// Whether there is none in a cell.
    pub(crate) fn has_none(&self) -> bool
        ensures { result ≡ self.now.none }
    {
        self.none
    }

    /// Whether each value has a colour of its own.
    pub(crate) fn is_few(&self) -> bool
        ensures { result ≡ is_few self.now }
    {
        self.values.len() < MOST_KEPT
    }
}

/// How many states a field has whose values are shown in these styles.
fn state_count(styles: &ValueStyles<'_>) -> u32
    ensures count { result ≡ state_count styles.now }
{
    styles.names().len().min(MOST_STATES) as u32
}

/// The key of the states, whether or not a cell has one.
fn state_key<'a>(alloc: Global, styles: &'a ValueStyles<'a>) -> Result<Key<'a>, AllocError>
    ensures key { IfOk result (λ key. key ≡ state_key styles.now) }
{
    let mut key = Key::new(alloc, styles);
    for state in 0..state_count(styles) {
        key.add(state)?;
    }
    Ok(key)
}

/// The key of cells whose values are shown in these styles.
pub(crate) fn key_of<'a>(
    alloc: Global,
    styles: &'a ValueStyles<'a>,
    cells: &[u32],
) -> Result<Key<'a>, AllocError>
    ensures key { IfOk result (λ key. key ≡ key_of styles.now cells.now) }
{
    let mut key = state_key(alloc, styles)?;
    for cell in cells {
        key.add(*cell)?;
    }
    Ok(key)
}
