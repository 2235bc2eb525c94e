//! What rounds cost.

use crate::sharing::Costs;
use rule_check::{Gatherer, Program, Rule};

/// The least work of a round, in instructions, that threads have to save, if the round is shared. To share a round of
/// 65,536 nodes costs 0.3 to 0.7 ms on four idle cores, and more on busy ones: threads start and join, read columns that
/// another core wrote, and their columns are copied together. One thread does as much work as this in about 1.5 ms.
/// Rounds in which threads save less gain a quarter at most on idle cores, and take up to twice as long on busy ones;
/// docs/speed.md has the figures.
const LEAST_SAVING: u64 = 5_898_240;

/// How many neighbours the nodes of a block have together at most: half of the most of a network file, so that two
/// threads can share the work of the largest hubs. Smaller blocks cost light programs more than they save, since what is
/// done slot by slot is done anew for each block.
pub const MOST_ENDS: u32 = 262_144;

/// The same for rounds that threads share, of programs with long aggregates: these have more to share, and to them a slot
/// more is little.
const MOST_ENDS_TO_SHARE: u32 = 131_072;

/// From how many instructions on the aggregates of a program are long.
const LONG: u64 = 64;

/// How many instructions the rules have.
fn rules_length(rules: &[Rule]) -> u64 {
    let mut sum: u64 = 0;
    for rule in rules {
        sum = sum.saturating_add(rule.code.len() as u64);
    }
    sum
}

/// How many instructions the aggregates have.
fn aggregates_length(aggregates: &[Gatherer]) -> u64 {
    let mut sum: u64 = 0;
    for aggregate in aggregates {
        sum = sum.saturating_add(aggregate.code.len() as u64);
    }
    sum
}

/// What a round of a program costs: the rules' instructions at each node, and the aggregates' at each end of a link.
pub fn costs_of(program: &Program) -> Costs {
    Costs {
        node: rules_length(program.rules()),
        end: aggregates_length(program.aggregates()),
        least_saving: LEAST_SAVING,
    }
}

/// How many neighbours the nodes of a block have together at most, where threads share the rounds of a program.
pub fn most_ends_to_share(program: &Program) -> u32 {
    if aggregates_length(program.aggregates()) < LONG {
        MOST_ENDS
    } else {
        MOST_ENDS_TO_SHARE
    }
}

/// The work of a whole round over so many nodes, which have so many neighbours together, in instructions.
fn work_of(nodes: u64, ends: u64, costs: &Costs) -> u64 {
    let at_nodes = costs.node.saturating_mul(nodes);
    let at_ends = costs.end.saturating_mul(ends);
    at_nodes.saturating_add(at_ends)
}

/// Whether a whole round of a program over so many nodes, which have so many neighbours together, has as much work as
/// threads have to save.
pub fn is_worth_sharing(program: &Program, nodes: u64, ends: u64) -> bool {
    work_of(nodes, ends, &costs_of(program)) >= LEAST_SAVING
}
