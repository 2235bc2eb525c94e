//! The network file of a shape.
ghost use Rattle.std.specs.Prelude.{◌≡◌, None, IfOk, IfErr};
ghost use Rattle.net_shapes.specs.Made.{IsMade};
ghost use Rattle.net_shapes.specs.Sizes.{refusal_of, refused_by};

use crate::maker::links_of;
use crate::{Shape, ShapeFault};
use link_net::FieldSet;
use net_text::write_network;
use std::alloc::Global;

/// The text of the network file of a shape, with phase 0 and no initial values, or why it has no network. `Memory`
/// comes only where memory runs out, and where nothing refuses.
pub fn made_text(alloc: Global, shape: &Shape) -> Result<Vec<u8>, ShapeFault>
    ensures made { IfOk result (λ text. IsMade shape.now text.items) }
    ensures fits { IfOk result (λ _. refusal_of shape.now ≡ None) }
    ensures refused { IfErr result (λ fault. refusal_of shape.now ≡ refused_by fault) }
{
    let list = links_of(alloc, shape)?;
    let none: Vec<FieldSet> = Vec::new(alloc);
    let text = write_network(alloc, &list, 0, &none)?;
    Ok(text)
}
