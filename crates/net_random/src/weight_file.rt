//! The network file of links with drawn weights.
ghost use Rattle.std.specs.Prelude.{◌≡◌, ◌≤◌, IfOk, IfErr};
ghost use Rattle.net_random.specs.Weights.{IsWeighted, IsFaultOf};

use crate::WeightFault;
use crate::weight_draw::weighted;
use link_net::FieldSet;
use net_text::{LinkList, write_network};
use std::alloc::Global;

/// The text of the network file of these links, with weights from `low` to `high`, both included, that the seed draws,
/// in phase 0, without initial values. `NoWeight` where `low` is above `high`; `Memory` only where memory runs out, and
/// not where there is no weight.
pub fn weighted_text(
    alloc: Global,
    list: &LinkList,
    low: u32,
    high: u32,
    seed: u64,
) -> Result<Vec<u8>, WeightFault>
    ensures weighted { IfOk result (λ text. IsWeighted list.now low high text.items) }
    ensures fits { IfOk result (λ _. low ≤ high) }
    ensures refused { IfErr result (IsFaultOf low high) }
{
    let drawn = weighted(alloc, list, low, high, seed)?;
    let none: Vec<FieldSet> = Vec::new(alloc);
    let text = write_network(alloc, &drawn, 0, &none)?;
    Ok(text)
}
