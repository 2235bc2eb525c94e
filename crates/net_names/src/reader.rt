//! Files of names that are read.
ghost use Rattle.std.specs.Prelude.{◌≡◌, ◌++◌, ◌∷◌, [], List, ℕ, IfOk, IfErr, OnOk};
ghost use Rattle.net_names.specs.declared.fault.NamesFileFault.TheVariants.{Memory};
ghost use Rattle.net_names.specs.Naming.{AreNames};
ghost use Rattle.net_names.specs.NamesFiles.{HasNames, IsLineFault, IsFirstBadLine, at_line};

use crate::lines::first_line;
use crate::{NamesFault, NamesFileFault, NodeNames};
use std::alloc::Global;
use std::str;

/// The fault of a line that has no number.
fn at_line(fault: NamesFault, line: u64) -> NamesFileFault
    ensures { result ≡ at_line line fault }
{
    match fault {
        NamesFault::BadName => NamesFileFault::BadName { line },
        NamesFault::TooManyNames => NamesFileFault::TooManyNames { line },
        NamesFault::Memory => NamesFileFault::Memory,
    }
}

/// Puts the name that a line is after the others.
fn read_line(names: &mut NodeNames, bytes: &[u8]) -> Result<(), NamesFileFault>
    ensures put { OnOk result (names.new ≡ names.old ++ bytes.now ∷ []) }
    ensures are_names { OnOk result (AreNames names.new) }
    ensures were_names { AreNames names.old }
    ensures refused { IfErr result (IsLineFault names.old bytes.now) }
{
    let line = names.count() as u64 + 1;
    let Ok(name) = str::from_utf8(bytes) else {
        return Err(NamesFileFault::BadName { line });
    };
    if let Some(place) = names.number_of(name) {
        return Err(NamesFileFault::NameTwice {
            line,
            first: place as u64 + 1,
        });
    }
    match names.number(name, u32::MAX) {
        Ok(_) => Ok(()),
        Err(fault) => Err(at_line(fault, line)),
    }
}

/// The names on the lines of a file: the name on line k + 1 is that of node k. A line ends with LF, or with CR and LF;
/// a last line without an end counts where it is not empty. Else the fault of the first line that is no new name;
/// `Memory` comes only where memory runs out.
pub fn read_names(alloc: Global, bytes: &[u8]) -> Result<NodeNames, NamesFileFault>
    ensures names { IfOk result (λ names. HasNames bytes.now names) }
    ensures refused { IfErr result (IsFirstBadLine bytes.now) }
    ensures only { (names : List (List ℕ)) → HasNames bytes.now names → IfErr result (λ fault. fault ≡ Memory) }
{
    let mut names = NodeNames::new(alloc);
    let mut rest = bytes;
    while !rest.is_empty() {
        let (line, more) = first_line(rest);
        read_line(&mut names, line)?;
        rest = more;
    }
    Ok(names)
}
