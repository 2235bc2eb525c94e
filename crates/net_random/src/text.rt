//! The network file of a random network.
ghost use Rattle.std.specs.Prelude.{◌≡◌, None, IfOk, IfErr};
ghost use Rattle.net_random.specs.Drawn.{IsDrawn};
ghost use Rattle.net_random.specs.Sizes.{refusal_of, IsFaultOf};

use crate::draw::drawn;
use crate::{RandomFault, RandomNetwork};
use link_net::FieldSet;
use net_text::write_network;
use std::alloc::Global;

/// The text of the network file of a random network, with phase 0 and no initial values, or why it cannot be drawn. The same seed
/// gives the same text on every machine. `Memory` comes only where memory runs out, and where the sizes refuse nothing.
pub fn drawn_text(alloc: Global, wanted: &RandomNetwork, seed: u64) -> Result<Vec<u8>, RandomFault>
    ensures drawn { IfOk result (λ text. IsDrawn wanted.now text.items) }
    ensures fits { IfOk result (λ _. refusal_of wanted.now ≡ None) }
    ensures refused { IfErr result (IsFaultOf wanted.now) }
{
    let list = drawn(alloc, wanted, seed)?;
    let none: Vec<FieldSet> = Vec::new(alloc);
    let text = write_network(alloc, &list, 0, &none)?;
    Ok(text)
}
