//! Which batches a round has to compute.
ghost use Rattle.std.specs.Prelude.{◌≡◌, ◌≢◌, ◌<◌, ◌≤◌, ℕ, All, IfOk, false, true, length, slice_index, slice_index_or};
ghost use Rattle.std.specs.List.{Contains};
ghost use Rattle.link_net.specs.Neighbours.{Neighbours};
ghost use Rattle.rounds_code.specs.Block.{state_at, Covers};
ghost use Rattle.rounds_blocks.specs.declared.batch.Batch.{Batch};
ghost use Rattle.rounds_blocks.specs.declared.near.Near.{Near};
ghost use Rattle.rounds_blocks.specs.Batches.{IsBatch};
ghost use Rattle.rounds_blocks.specs.Nears.{HaveNear, IsDue, IsWithin, SleepNear, Sleeps};
ghost use Rattle.rounds_blocks.specs.Rounds.{HaveWords};
ghost use Rattle.rounds_blocks.specs.Walks.{IsAsBefore, Moved, HasMoved, IsActivity};

use crate::batch::Batch;
use crate::near::Near;
use std::alloc::{AllocError, Global};

/// Which batches the next round has to compute. Where the program doesn't read the number of the round, these are
/// those in which a node, or a neighbour of one, changed in the last round; else all of them.
#[derive(Drop)]
pub struct Activity<'a> {
    pub nears: &'a [Near],
    pub settles: bool,
    pub due: Vec<bool>,
    pub changed: Vec<bool>,
}

/// Whether one of these nodes has another word in the one column than in the other.
fn words_differ(left: &[u32], right: &[u32], nodes: &[u32]) -> bool
    requires within_left { All (λ u. u < length left.now) nodes.now }
    requires within_right { All (λ u. u < length right.now) nodes.now }
    ensures same { result ≡ false → All (λ u. slice_index left.now u ≡ slice_index right.now u) nodes.now }
    ensures apart { result ≡ true → (u : ℕ) × Contains nodes.now u × (slice_index left.now u ≢ slice_index right.now u) }
{
    for node in nodes {
        let place = *node as usize;
        if left[place] != right[place] {
            return true;
        }
    }
    false
}

/// Whether one of these nodes has another state by the one columns than by the other.
fn states_differ(left: &[Vec<u32>], right: &[Vec<u32>], nodes: &[u32]) -> bool
    requires few { length left.now ≤ 8 }
    requires fields { length left.now ≡ length right.now }
    requires within_left { Covers left.now nodes.now }
    requires within_right { Covers right.now nodes.now }
    ensures same { result ≡ false → All (λ u. state_at left.now u ≡ state_at right.now u) nodes.now }
    ensures apart { result ≡ true → (u : ℕ) × Contains nodes.now u × (state_at left.now u ≢ state_at right.now u) }
{
    for (k, column) in left.iter().enumerate() {
        if words_differ(column, &right[k], nodes) {
            return true;
        }
    }
    false
}

/// Whether a node of a batch changed, where the batch was computed.
fn has_changed(batch: &Batch, was_due: bool, from: &[Vec<u32>], to: &[Vec<u32>]) -> bool
    requires few { length from.now ≤ 8 }
    requires fields { length to.now ≡ length from.now }
    requires within { Covers from.now batch.now.nodes }
    requires within_next { Covers to.now batch.now.nodes }
    ensures same { result ≡ false → was_due ≡ true → All (IsAsBefore from.now to.now) batch.now.nodes }
    ensures moved { result ≡ true → (u : ℕ) × Contains batch.now.nodes u × Moved from.now to.now u }
{
    was_due && states_differ(to, from, batch.nodes.as_slice())
}

/// Notes of each batch whether a node of it changed, as far as it was computed, and answers whether any did.
fn note(
    changed: &mut [bool],
    due: &[bool],
    batches: &[Batch],
    from: &[Vec<u32>],
    to: &[Vec<u32>],
) -> bool
    requires flags { length due.now ≡ length batches.now }
    requires changes { length changed.old ≡ length batches.now }
    requires few { length from.now ≤ 8 }
    requires fields { length to.now ≡ length from.now }
    requires within { All (λ batch. Covers from.now batch.nodes) batches.now }
    requires within_next { All (λ batch. Covers to.now batch.nodes) batches.now }
    ensures noted { (i : ℕ) (d : Batch) → i < length batches.now → Sleeps changed.new i → IsDue due.now i → All (IsAsBefore from.now to.now) (slice_index_or batches.now i d).nodes }
    ensures none { result ≡ false → (i : ℕ) → i < length batches.now → Sleeps changed.new i }
    ensures some { result ≡ true → HasMoved batches.now from.now to.now }
{
    let mut moved = false;
    for (i, batch) in batches.iter().enumerate() {
        let has_moved = has_changed(batch, due[i], from, to);
        changed[i] = has_moved;
        moved = moved || has_moved;
    }
    moved
}

/// Whether one of these batches changed.
fn is_any_changed(places: &[usize], changed: &[bool]) -> bool
    requires within { All (λ i. i < length changed.now) places.now }
    ensures none { result ≡ false → All (Sleeps changed.now) places.now }
{
    for batch in places {
        if changed[*batch] {
            return true;
        }
    }
    false
}

/// Whether one of the batches near a batch changed, or may have, where it is known whether any did.
fn is_near_changed(near: &Near, changed: &[bool], moved: bool) -> bool
    requires within { IsWithin (length changed.now) near.now }
    requires still { moved ≡ false → (i : ℕ) → i < length changed.now → Sleeps changed.now i }
    ensures none { result ≡ false → SleepNear changed.now near.now }
{
    match near {
        Near::Any => moved,
        Near::Listed(places) => is_any_changed(places, changed),
    }
}

/// Marks the batches near which a batch changed, where it is known whether any did.
fn wake(due: &mut [bool], nears: &[Near], changed: &[bool], moved: bool)
    requires count { length nears.now ≡ length due.old }
    requires within { All (IsWithin (length changed.now)) nears.now }
    requires still { moved ≡ false → (i : ℕ) → i < length changed.now → Sleeps changed.now i }
    ensures awake { (i : ℕ) (d : Near) → i < length due.old → Sleeps due.new i → SleepNear changed.now (slice_index_or nears.now i d) }
{
    for i in 0..due.len() {
        due[i] = is_near_changed(&nears[i], changed, moved);
    }
}

/// All batches have to be computed.
pub fn all_due(alloc: Global, nears: &[Near], settles: bool) -> Result<Activity<'_>, AllocError>
    ensures nears { IfOk result (λ activity. activity.nears.now ≡ nears.now) }
    ensures settles { IfOk result (λ activity. activity.settles ≡ settles) }
    ensures flags { IfOk result (λ activity. length activity.due.items ≡ length nears.now) }
    ensures changes { IfOk result (λ activity. length activity.changed.items ≡ length nears.now) }
    ensures all { IfOk result (λ activity. (i : ℕ) → i < length nears.now → IsDue activity.due.items i) }
{
    let due = vec![in alloc; true; nears.len()]?;
    let changed = vec![in alloc; false; nears.len()]?;
    Ok(Activity {
        nears,
        settles,
        due,
        changed,
    })
}

impl Activity<'_> {
    /// Notes which batches the round from the one to the other columns changed, and so which the next one has to
    /// compute. Answers whether a node changed, where the program doesn't read the number of the round, and else true.
    pub fn look(&mut self, batches: &[Batch], from: &[Vec<u32>], to: &[Vec<u32>]) -> bool
        requires activity { (network : Neighbours) × IsActivity network batches.now self.old }
        requires few { length from.now ≤ 8 }
        requires fields { length to.now ≡ length from.now }
        requires within { All (λ batch. Covers from.now batch.nodes) batches.now }
        requires within_next { All (λ batch. Covers to.now batch.nodes) batches.now }
        ensures nears { self.new.nears.now ≡ self.old.nears.now }
        ensures settles { self.new.settles ≡ self.old.settles }
        ensures flags { length self.new.due.items ≡ length batches.now }
        ensures changes { length self.new.changed.items ≡ length batches.now }
        ensures all { self.old.settles ≡ false → (i : ℕ) → i < length batches.now → IsDue self.new.due.items i }
        ensures noted { self.old.settles ≡ true → (i : ℕ) (d : Batch) → i < length batches.now → Sleeps self.new.changed.items i → IsDue self.old.due.items i → All (IsAsBefore from.now to.now) (slice_index_or batches.now i d).nodes }
        ensures awake { self.old.settles ≡ true → (i : ℕ) (d : Near) → i < length batches.now → Sleeps self.new.due.items i → SleepNear self.new.changed.items (slice_index_or self.old.nears.now i d) }
        ensures some { result ≡ true → self.old.settles ≡ true → HasMoved batches.now from.now to.now }
        ensures none { result ≡ false → (self.old.settles ≡ true) × ((i : ℕ) → i < length batches.now → Sleeps self.new.changed.items i) }
    {
        if !self.settles {
            return true;
        }
        let moved = note(&mut self.changed, &self.due, batches, from, to);
        wake(&mut self.due, self.nears, &self.changed, moved);
        moved
    }
}
