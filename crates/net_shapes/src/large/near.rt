//! The places near one.
ghost use Rattle.std.specs.Prelude.{◌≤◌};

/// A place and those beside it, by rising number.
#[derive(Clone, Copy)]
pub(crate) struct Near {
    places: [u32; 3],
    /// How many of them are filled in.
    count: usize,
    ghost filled: { count ≤ 3 },
}

impl Near {
    ghost use Rattle.std.specs.Prelude.{◌≡◌, take};
    ghost use Rattle.net_shapes.specs.Frames.{near_places};

    /// The first so many of these places.
    pub(crate) fn new(places: [u32; 3], count: usize) -> Near
        requires { count ≤ 3 }
        ensures { near_places result ≡ take count places }
    {
        Near { places, count }
    }

    /// The places.
    pub(crate) fn places(&self) -> &[u32]
        ensures { result.now ≡ near_places self.now }
    {
        &self.places[..self.count]
    }
}
