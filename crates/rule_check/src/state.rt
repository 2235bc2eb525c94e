//! What a node holds and sees.
ghost use Rattle.std.specs.Prelude.{◌≡◌, slice_index};

/// What a node holds: one word for each field, 0 for a field that is not declared.
#[derive(Clone, Copy, Debug, PartialEq, Eq)]
pub struct State {
    pub words: [u32; 8],
}

impl State {
    /// The value of a field, and 0 for one that states do not have.
    pub fn value(&self, field: u32) -> u32
        ensures exact { result ≡ slice_index self.now.words field }
    {
        self.words.get(field as usize).copied().unwrap_or(0)
    }
}

/// A neighbour: its number, the weight of the link to it, and its state.
#[derive(Clone, Copy, Debug, PartialEq, Eq)]
pub struct Near {
    pub id: u32,
    pub weight: u32,
    pub state: State,
}

/// What the aggregates of a program have gathered so far, in the text's order, and 0 past the last.
#[derive(Clone, Copy, Debug, PartialEq, Eq)]
pub struct Sums {
    pub words: [u32; 16],
}
