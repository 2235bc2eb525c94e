//! What bounds the numbers that a network gives to a program.
ghost use Rattle.std.specs.Prelude.{◌≤◌, ◌<◌, ℕ, All, List, length};
ghost use Rattle.rule_check.specs.declared.state.State.{State};
ghost use Rattle.rule_check.specs.Table.{M};
ghost use Rattle.rule_ranges.specs.declared.range.Range.{Range};
ghost use Rattle.rule_ranges.specs.States.{IsNodeWithin, IsStateWithin};
ghost use Rattle.link_net.specs.Neighbours.{IsNetwork, Neighbours, degree, row};
ghost use Rattle.rounds_plan.specs.Configs.{most_rounds};
ghost use Rattle.rounds_plan.specs.Rounds.{nears_in};

use link_net::{MOST_NEIGHBOURS, MOST_NODES, NetRows};
use rounds_plan::MOST_ROUNDS;
use rule_ranges::Bounds;

/// The greatest of some numbers and of one more.
fn greatest(first: u32, numbers: &[u32]) -> u32
    ensures first { first ≤ result }
    ensures each { All (λ number. number ≤ result) numbers.now }
{
    let mut greatest = first;
    for number in numbers {
        greatest = greatest.max(*number);
    }
    greatest
}

/// The greatest number of neighbours of a node.
fn greatest_degree(rows: &NetRows<'_>) -> u32
    ensures each { (u : ℕ) → degree rows.now u ≤ result }
{
    let mut greatest = 0;
    for node in 0..rows.nodes() {
        greatest = greatest.max(rows.degree_of(node));
    }
    greatest
}

/// The greatest weight of a link, 0 where there are no links.
fn greatest_weight(rows: &NetRows<'_>) -> u32
    ensures each { (u : ℕ) → All (λ arc. arc.1 ≤ result) (row rows.now u) }
{
    let mut found = 0;
    for node in 0..rows.nodes() {
        found = greatest(found, rows.weights_of(node));
    }
    found
}

/// What bounds the numbers that a program reads at the nodes of a network of any size, in each round.
pub(crate) fn bounds_of(rows: &NetRows<'_>) -> Bounds
    ensures within { (fields round u : ℕ) (ranges : List Range) (at : ℕ → State) → u < length rows.now → round ≤ most_rounds → ((v : ℕ) → v < length rows.now → IsStateWithin fields ranges (at v))
        → IsNodeWithin result fields ranges round u (at u) (nears_in rows.now at u) }
    ensures degree { (u : ℕ) → degree rows.now u ≤ result.degree }
{
    Bounds {
        id: rows.nodes().saturating_sub(1),
        degree: greatest_degree(rows),
        weight: greatest_weight(rows),
        round: MOST_ROUNDS,
    }
}

/// What bounds them in each network that a file can describe, whose weights are words.
pub(crate) fn bounds_of_any() -> Bounds
    ensures within { (network : Neighbours) (fields round u : ℕ) (ranges : List Range) (at : ℕ → State) → IsNetwork network → All (λ arc. arc.1 ≤ M) (row network u) → u < length network → round ≤ most_rounds
        → ((v : ℕ) → v < length network → IsStateWithin fields ranges (at v)) → IsNodeWithin result fields ranges round u (at u) (nears_in network at u) }
    ensures degree { (network : Neighbours) (u : ℕ) → IsNetwork network → degree network u ≤ result.degree }
{
    Bounds {
        id: MOST_NODES - 1,
        degree: MOST_NEIGHBOURS as u32,
        weight: u32::MAX,
        round: MOST_ROUNDS,
    }
}
