//! The text of a network file with other initial values.
ghost use Rattle.std.specs.Prelude.{◌≡◌, ◌≢◌, ◌≤◌, length, Some, None, Ok, Err, IfOk, IfErr, IfSome};
ghost use Rattle.link_net.specs.Names.{AreRising};
ghost use Rattle.link_net.specs.Reading.{reading_of};
ghost use Rattle.std.specs.Option.{option_map, unwrap_or};
ghost use Rattle.net_initial.specs.Opened.{AreOpened, kept_sets};
ghost use Rattle.net_initial.specs.Texts.{asking_fault, fault_on, fault_of, AreSettings, AreSettingsOpened, IsOpened};

use crate::asking::asking_fault;
use crate::field_sets::sets_anew;
use crate::network_links::listed;
use crate::{OpenFault, Opening};
use link_net::{FieldSet, Name, NetFile};
use net_text::{LinkList, write_network};
use std::alloc::{AllocError, Global};

/// What a packed network says beside its rows, which begins in a phase and has these field sets: nothing in phase 0 without
/// sets, and else a network file of one node, without links.
fn settings_text(alloc: Global, phase: u8, sets: &[FieldSet]) -> Result<Option<Vec<u8>>, AllocError>
    requires phase { phase ≤ 2 }
    requires rising { AreRising sets.now }
    ensures said { IfOk result (λ text. AreSettings phase sets.now (option_map (λ v. v.items) text)) }
{
    if phase == 0 && sets.is_empty() {
        return Ok(None);
    }
    let one = LinkList::sound(1, Vec::new(alloc));
    let text = write_network(alloc, &one, phase, sets)?;
    Ok(Some(text))
}

/// The text of a network file with the network of a file, a phase and field sets.
fn written(
    alloc: Global,
    file: &NetFile,
    phase: u8,
    sets: &[FieldSet],
) -> Result<Vec<u8>, AllocError>
    requires phase { phase ≤ 2 }
    requires rising { AreRising sets.now }
    ensures { IfOk result (λ text. reading_of text.items ≡ Ok (record { network = file.now.network; phase = phase; sets = sets.now })) }
{
    let list = listed(alloc, file.network())?;
    write_network(alloc, &list, phase, sets)
}

/// The phase that is asked for or else the file's, and the sets that openings make of those of a file on so many nodes; or
/// the first fault in the order of [`OpenFault`].
fn opened_on(
    alloc: Global,
    nodes: u32,
    file: &NetFile,
    cleared: &[Name],
    openings: &[Opening],
    phase: Option<u8>,
) -> Result<(u8, Vec<FieldSet>), OpenFault>
    ensures opened { IfOk result (λ r. AreOpened nodes (kept_sets cleared.now file.now.sets) openings.now r.1.items) }
    ensures phase { IfOk result (λ r. r.0 ≡ unwrap_or phase file.now.phase) }
    ensures low { IfOk result (λ r. r.0 ≤ 2) }
    ensures faultless { IfOk result (λ _. fault_on nodes file.now.sets cleared.now openings.now phase ≡ None) }
    ensures refused { IfErr result (λ fault. fault ≢ OpenFault.Memory → fault_on nodes file.now.sets cleared.now openings.now phase ≡ Some fault) }
    ensures at_once { IfSome (asking_fault nodes cleared.now openings.now phase) (λ fault. result ≡ Err fault) }
{
    if let Some(fault) = asking_fault(nodes, cleared, openings, phase) {
        return Err(fault);
    }
    let sets = sets_anew(alloc, nodes, file.sets(), cleared, openings)?;
    let phase = phase.unwrap_or(file.phase());
    Ok((phase, sets))
}

/// The text of the network file that openings make of a file, or the first fault in the order of [`OpenFault`]. The file's
/// sets of the fields that are cleared are left aside. It has the same network, the phase that is asked for or else the
/// file's, and for each field that openings name a set with the value that the last opening of the field gives a node, or
/// else the file's; the other sets stand as they are. `Memory` comes only where memory runs out, and only where what is
/// asked for has no fault.
pub fn opened_text(
    alloc: Global,
    file: &NetFile,
    cleared: &[Name],
    openings: &[Opening],
    phase: Option<u8>,
) -> Result<Vec<u8>, OpenFault>
    ensures opened { IfOk result (λ text. IsOpened file.now cleared.now openings.now phase text.items) }
    ensures faultless { IfOk result (λ _. fault_of file.now cleared.now openings.now phase ≡ None) }
    ensures refused { IfErr result (λ fault. fault ≢ OpenFault.Memory → fault_of file.now cleared.now openings.now phase ≡ Some fault) }
    ensures at_once { IfSome (asking_fault (length file.now.network) cleared.now openings.now phase) (λ fault. result ≡ Err fault) }
{
    let nodes = file.network().nodes();
    let (phase, sets) = opened_on(alloc, nodes, file, cleared, openings, phase)?;
    let text = written(alloc, file, phase, sets.as_slice())?;
    Ok(text)
}

/// What openings make of the phase and the sets of a file, for a network of any size, or the first fault in the order of
/// [`OpenFault`]: `None` where the network begins in phase 0 and sets nothing, and else a network file of one node, without
/// links, with that phase and these sets. They are made as `opened_text` makes them, whatever network the file has.
/// `Memory` comes only where memory runs out, and only where what is asked for has no fault.
pub fn opened_settings(
    alloc: Global,
    nodes: u32,
    file: &NetFile,
    cleared: &[Name],
    openings: &[Opening],
    phase: Option<u8>,
) -> Result<Option<Vec<u8>>, OpenFault>
    ensures opened { IfOk result (λ text. AreSettingsOpened nodes file.now cleared.now openings.now phase (option_map (λ v. v.items) text)) }
    ensures faultless { IfOk result (λ _. fault_on nodes file.now.sets cleared.now openings.now phase ≡ None) }
    ensures refused { IfErr result (λ fault. fault ≢ OpenFault.Memory → fault_on nodes file.now.sets cleared.now openings.now phase ≡ Some fault) }
    ensures at_once { IfSome (asking_fault nodes cleared.now openings.now phase) (λ fault. result ≡ Err fault) }
{
    let (phase, sets) = opened_on(alloc, nodes, file, cleared, openings, phase)?;
    let text = settings_text(alloc, phase, sets.as_slice())?;
    Ok(text)
}
