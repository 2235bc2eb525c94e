//! Places in a line, or on a ring.
ghost use Rattle.std.specs.Prelude.{◌≡◌, ◌<◌, ◌≤◌, true, false};
ghost use Rattle.net_shapes.specs.Frames.{AreNear, IsAxis, near_places};

use crate::large::near::Near;

/// Places in a line, or on a ring, where the last is beside the first.
#[derive(Clone, Copy)]
pub(crate) struct Axis {
    pub(crate) places: u32,
    pub(crate) closed: bool,
}

/// The places near one of a line.
fn near_in_line(places: u32, place: u32) -> Near
    requires low { place < places }
    ensures { AreNear (record { places = places; closed = false }) place (near_places result) }
{
    let first = place.saturating_sub(1);
    let last = (place + 1).min(places - 1);
    Near::new([first, first + 1, first + 2], (last - first + 1) as usize)
}

/// The places near one of a ring.
fn near_on_ring(places: u32, place: u32) -> Near
    requires some { 3 ≤ places }
    requires low { place < places }
    ensures { AreNear (record { places = places; closed = true }) place (near_places result) }
{
    let places = if place == 0 {
        [0, 1, places - 1]
    } else if place + 1 == places {
        [0, place - 1, place]
    } else {
        [place - 1, place, place + 1]
    };
    Near::new(places, 3)
}

impl Axis {
    /// A line.
    pub(crate) fn line(places: u32) -> Axis
        ensures { result ≡ record { places = places; closed = false } }
    {
        Axis {
            places,
            closed: false,
        }
    }

    /// A ring.
    pub(crate) fn ring(places: u32) -> Axis
        ensures { result ≡ record { places = places; closed = true } }
    {
        Axis {
            places,
            closed: true,
        }
    }

    /// The places near one.
    pub(crate) fn near(self, place: u32) -> Near
        requires axis { IsAxis self }
        requires low { place < self.places }
        ensures { AreNear self place (near_places result) }
    {
        if self.closed {
            near_on_ring(self.places, place)
        } else {
            near_in_line(self.places, place)
        }
    }
}
