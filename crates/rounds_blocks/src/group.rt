//! Which slots of a batch are taken at once.
ghost use Rattle.std.specs.Prelude.{◌≡◌, ◌<◌, ◌≤◌, ◌-◌, ◌*◌, length, slice_index_or};
ghost use Rattle.rounds_code.specs.declared.slot.Slot.{Slot};
ghost use Rattle.rounds_blocks.specs.Batches.{AreAlike};

use rounds_code::Slot;

/// In how many lanes neighbours are taken at once.
const LANES: usize = 256;

/// How many slots that follow on each other have to be alike for several of them to be taken at once. To spread what a
/// block has of its nodes over the lanes of several slots costs about as much as to take some slots one by one.
const FEWEST_ALIKE: usize = 8;

/// The end of the slots from this one on that have as many neighbours as it, so many, but no further than a limit.
pub fn alike_end(slots: &[Slot], at: usize, count: usize, limit: usize) -> usize
    requires some { at < limit }
    requires inside { limit ≤ length slots.now }
    requires count { (d : Slot) → length (slice_index_or slots.now at d).neighbours ≡ count }
    ensures some { at < result }
    ensures few { result ≤ limit }
    ensures alike { AreAlike slots.now at result count }
{
    for place in at + 1..limit {
        if slots[place].neighbours.count() != count {
            return place;
        }
    }
    limit
}

/// The end of the slots that are taken at once, from this one on, which has so many neighbours: of slots that are alike
/// as many as fit in the lanes, where there are enough of them, and else this slot alone.
pub fn group_end(slots: &[Slot], at: usize, count: usize) -> usize
    requires there { at < length slots.now }
    requires count { (d : Slot) → length (slice_index_or slots.now at d).neighbours ≡ count }
    requires few { count ≤ 256 }
    ensures some { at < result }
    ensures inside { result ≤ length slots.now }
    ensures alike { AreAlike slots.now at result count }
    ensures room { (result - at) * count ≤ 256 }
{
    if count == 0 || count > LANES / 2 {
        return at + 1;
    }
    let most = LANES / count;
    let ahead = most.max(FEWEST_ALIKE).min(slots.len() - at);
    let end = alike_end(slots, at, count, at + ahead);
    if end - at < FEWEST_ALIKE {
        return at + 1;
    }
    end.min(at + most)
}
