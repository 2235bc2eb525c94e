//! How the values of a field are shown.
ghost use Rattle.std.specs.Prelude.{◌≡◌, ◌≢◌, ◌≤◌, ◌+◌, ◌∷◌, ◌++◌, [], Err, IfErr, MatchOption, None, OnOk, Some, length, map, string_bytes};
ghost use Rattle.run_picture.specs.declared.styles.StylesFault.TheVariants.{Memory};
ghost use Rattle.run_picture.specs.Chosen.{most_colours};
ghost use Rattle.run_picture.specs.Styling.{colour_refusal};

use crate::chosen::{CellShape, Colour, ValueColour, own_place};
use std::alloc::{AllocError, AllocFailed, Global};
use std::marker::Model;
use thiserror::Error;

/// The most values with colours of their own.
pub const MOST_COLOURS: usize = 64;

/// Why a value gets no colour of its own. Where several hold, the first in this order; `Memory` comes only where no other
/// holds.
#[derive(Clone, Copy, Debug, PartialEq, Eq, Error)]
pub enum StylesFault {
    /// The value has a colour of its own already.
    #[error("TwoColours")]
    TwoColours,
    /// 64 values have colours of their own already.
    #[error("TooManyColours")]
    TooManyColours,
    /// Out of memory.
    #[error("Memory")]
    Memory,
}

impl From<AllocError> for StylesFault {
    ghost from_gives = { λ _ e. e ≡ Memory };

    fn from(_error: AllocError) -> StylesFault {
        StylesFault::Memory
    }
}

/// How the values of a field are shown: a value below the number of the names has its name, and any other its number; some
/// values have colours of their own, and all others those of the palette; cells have a shape. A contract sees the names, these
/// colours and the shape.
#[derive(Drop)]
pub struct ValueStyles<'a> {
    names: &'a [String],
    colours: Vec<ValueColour>,
    shape: CellShape,
}

impl<'a> Model for ValueStyles<'a> {
    ghost use Rattle.std.specs.Prelude.{◌≤◌, length, map, string_bytes};
    ghost use Rattle.run_picture.specs.Chosen.{StylesView, most_colours};

    ghost Value = { StylesView };

    ghost view = { λ s. record { names = map string_bytes s.names.now; colours = s.colours.items; shape = s.shape } };

    ghost invariant = { λ s. length s.colours.items ≤ most_colours };
}

impl<'a> ValueStyles<'a> {
    /// The values 0, 1, 2 and so on by these names, all in the colours of the palette, in cells of this shape.
    pub fn new(alloc: Global, names: &'a [String], shape: CellShape) -> ValueStyles<'a>
        ensures styles { result ≡ record { names = map string_bytes names.now; colours = []; shape = shape } }
    {
        ValueStyles {
            names,
            colours: Vec::new(alloc),
            shape,
        }
    }

    /// The shape of cells.
    pub(crate) fn shape(&self) -> CellShape
        ensures shape { result ≡ self.now.shape }
    {
        self.shape
    }

    /// The names of the values 0, 1, 2 and so on.
    pub(crate) fn names(&self) -> &'a [String]
        ensures names { map string_bytes result.now ≡ self.now.names }
    {
        self.names
    }

    /// The values that have colours of their own.
    pub(crate) fn colours(&self) -> &[ValueColour]
        ensures colours { result.now ≡ self.now.colours }
        ensures few { length self.now.colours ≤ most_colours }
    {
        self.colours.as_slice()
    }

    /// Why a value gets no colour of its own, whatever memory there is.
    fn refusal(&self, value: u32) -> Option<StylesFault>
        ensures refusal { result ≡ colour_refusal self.now value }
        ensures room { result ≡ None → length self.now.colours + 1 ≤ most_colours }
    {
        if own_place(&self.colours, value) < self.colours.len() {
            return Some(StylesFault::TwoColours);
        }
        if self.colours.len() >= MOST_COLOURS {
            return Some(StylesFault::TooManyColours);
        }
        None
    }

    /// Gives a value a colour of its own.
    ///
    /// `TwoColours` comes where the value has one already, else `TooManyColours` where 64 values have one; `Memory` only
    /// where neither holds. Nothing is changed then.
    pub fn add(&mut self, value: u32, colour: Colour) -> Result<(), StylesFault>
        ensures added { OnOk result (self.new ≡ record { names = self.old.names; colours = self.old.colours ++ record { value = value; colour = colour } ∷ []; shape = self.old.shape }) }
        ensures kept { IfErr result (λ _. self.new ≡ self.old) }
        ensures refused { IfErr result (λ fault. fault ≢ Memory → colour_refusal self.old value ≡ Some fault) }
        ensures at_once { MatchOption (colour_refusal self.old value) (Unit {0}) (λ fault. result ≡ Err fault) }
    {
        if let Some(fault) = self.refusal(value) {
            return Err(fault);
        }
        match self.colours.push(ValueColour { value, colour }) {
            Ok(()) => Ok(()),
            Err(_) => Err(StylesFault::Memory),
        }
    }
}
