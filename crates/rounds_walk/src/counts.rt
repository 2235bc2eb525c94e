//! What there is to count in the states of many nodes.
ghost use Rattle.std.specs.Prelude.{◌≡◌, length, zip, IfOk};
ghost use Rattle.std.specs.List.{filter};
ghost use Rattle.std.specs.BTreeMap.{get};
ghost use Rattle.std.specs.Ordering.{nat_cmp};
ghost use Rattle.rounds_walk.specs.Counts.{AreCounts, has_moved, IsTally};

use rule_check::State;
use std::alloc::{AllocError, Global};
use std::collections::BTreeMap;

/// How many of the states have each value of a field.
fn tally(alloc: Global, states: &[State], field: u32) -> Result<BTreeMap<u32, u64>, AllocError>
    ensures tally { IfOk result (λ counts. IsTally field states.now (get nat_cmp counts)) }
{
    let mut counts = BTreeMap::new(alloc);
    for state in states {
        *counts.entry(state.value(field))?.or_insert(0) += 1;
    }
    Ok(counts)
}

/// How many of the states have each value of a field that occurs, by rising value. Fields are counted from 0; one that
/// states do not have is 0 in each of them.
pub fn count_values(
    alloc: Global,
    states: &[State],
    field: u32,
) -> Result<Vec<(u32, u64)>, AllocError>
    ensures counts { IfOk result (λ counts. AreCounts field states.now counts.items) }
{
    let counts = tally(alloc, states, field)?;
    let counts = counts.into_iter().collect(alloc)?;
    Ok(counts)
}

/// How many nodes have another state in the new list than in the old one. Where one list is longer, the nodes that stand in
/// it alone are not counted.
pub fn changed_nodes(old: &[State], new: &[State]) -> usize
    ensures count { result ≡ length (filter has_moved (zip old.now new.now)) }
{
    old.iter().zip(new).filter(|pair| pair.0 != pair.1).count()
}
