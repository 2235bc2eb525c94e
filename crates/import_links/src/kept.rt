//! Which weight is kept of two.
ghost use Rattle.std.specs.Prelude.{◌≡◌};
ghost use Rattle.import_links.specs.Merging.{kept_of};

/// Which weight is kept where several links join the same two nodes.
#[derive(Clone, Copy)]
pub enum Kept {
    /// The least.
    Least,
    /// The greatest.
    Most,
    /// That of the first link.
    First,
}

impl Kept {
    /// The weight that is kept of two, of which the first came earlier.
    pub(crate) fn of(self, earlier: u32, later: u32) -> u32
        ensures { result ≡ kept_of self earlier later }
    {
        match self {
            Kept::Least => earlier.min(later),
            Kept::Most => earlier.max(later),
            Kept::First => earlier,
        }
    }
}
