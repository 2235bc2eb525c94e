//! The names of nodes that a text names.
ghost use Rattle.std.specs.Prelude.{◌≡◌, ◌≤◌, [], length, IfOk, IfErr};
ghost use Rattle.net_names.specs.Naming.{AreNames};
ghost use Rattle.import_links.specs.Joining.{names_in, names_of};
ghost use Rattle.import_links.specs.Refusals.{IsMentionRefusal};

use crate::JoinFault;
use crate::ends::number;
use import_lines::Mention;
use net_names::NodeNames;
use std::alloc::Global;

/// The names of the nodes that a text names, each once, in the order of their first appearance, so many at most. Else
/// the fault of the first that has no number; `Memory` comes only where memory runs out.
pub fn mentioned(alloc: Global, mentions: &[Mention], most: u32) -> Result<NodeNames, JoinFault>
    ensures named { IfOk result (λ names. names ≡ names_in [] (names_of mentions.now)) }
    ensures are_names { IfOk result (λ names. AreNames names) }
    ensures few { IfOk result (λ names. length names ≤ most) }
    ensures refused { IfErr result (IsMentionRefusal most mentions.now) }
{
    let mut names = NodeNames::new(alloc);
    for mention in mentions {
        number(&mut names, mention.name, mention.line, most)?;
    }
    Ok(names)
}
