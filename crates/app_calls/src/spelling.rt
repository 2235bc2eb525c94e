//! The canonical spelling of a program, and texts that are put in front of a caller's memory.
ghost use Rattle.std.specs.Prelude.{◌≡◌, ◌≢◌, ◌≤◌, ◌<◌, List, length, IfOk, IfErr, OnErr, OnOk};
ghost use Rattle.rule_lang.specs.Canonical.{program_text};
ghost use Rattle.rule_lang.specs.Tree.{ItemTree};
ghost use Rattle.app_calls.specs.Answers.{IsSpelled};
ghost use Rattle.app_calls.specs.Refusals.{IsLongFault, IsUnspelled};
ghost use Rattle.app_calls.specs.Words.{with_front};
ghost use Rattle.app_jobs.specs.Served.{IsAccepted, IsLongFirst, RefusesProgram};

use crate::fault::Fault;
use crate::words::put_bytes;
use app_jobs::ServeFault;
use rule_check::check;
use rule_lang::{read_program, write_program};
use std::alloc::Global;

/// The canonical spelling of a program.
fn canonical(alloc: Global, program: &[u8]) -> Result<Vec<u8>, ServeFault>
    ensures spelled { IfOk result (λ v. (items : List ItemTree) × IsAccepted program.now items × (v.items ≡ program_text items)) }
    ensures refused { IfErr result (RefusesProgram program.now) }
    ensures long { IfErr result (IsLongFirst program.now) }
{
    let source = read_program(alloc, program)?;
    let _program = check(alloc, &source)?;
    Ok(write_program(alloc, &source)?)
}

/// Writes how long a text is, and puts it in front where there is room.
pub(crate) fn put_text(text: &[u8], out: &mut [u8], len: &mut usize) -> Result<(), Fault>
    ensures len { len.new ≡ length text.now }
    ensures put { OnOk result (out.new ≡ with_front text.now out.old) }
    ensures fits { OnOk result (length text.now ≤ length out.old) }
    ensures kept { OnErr result (out.new ≡ out.old) }
    ensures refused { IfErr result (λ fault. (fault ≡ Fault.Room) × (length out.old < length text.now)) }
{
    *len = text.len();
    if out.len() < text.len() {
        return Err(Fault::Room);
    }
    put_bytes(text, out);
    Ok(())
}

/// Writes the canonical spelling of a program to the front of the text, and how long it is.
pub fn write_spelling(
    alloc: Global,
    program: &[u8],
    text: &mut [u8],
    len: &mut usize,
) -> Result<(), Fault>
    ensures written { OnOk result (IsSpelled program.now text.old text.new len.new) }
    ensures kept { OnErr result (text.new ≡ text.old) }
    ensures sized { IfErr result (λ fault. fault ≢ Fault.Room → len.new ≡ len.old) }
    ensures refused { IfErr result (IsUnspelled program.now (length text.old) len.new) }
    ensures long { IfErr result (IsLongFault program.now) }
{
    let spelling = canonical(alloc, program)?;
    put_text(&spelling, text, len)
}
