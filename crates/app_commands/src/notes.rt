//! Notes on standard error, beside what a command prints: on what is accepted and may not be meant.

use app_files::{Ending, NamedProgram, name_at, program_name, slips_in};
use app_why::{Named, cut_note};
use rounds_plan::PlanRef;
use std::alloc::{AllocError, Global};

/// Prints a note of one line on standard error; where that refuses, the command goes on without it.
pub fn put_note(rt: &impl Eprint, note: &str) {
    let _ = eprintln!(rt; "note: {note}");
}

/// The note on products and totals that can be cut, of a program's text, which stands at a path, in the run of its plan.
fn note_of(
    alloc: Global,
    path: &str,
    program: &[u8],
    plan: &PlanRef<'_>,
) -> Result<Option<String>, AllocError> {
    let name = program_name(alloc, path)?;
    let named = Named {
        name: name.as_str(),
        text: program,
    };
    cut_note(alloc, named, plan)
}

/// The text that was given for a program: of a model its own, not that to which it is expanded.
fn given_text(program: &NamedProgram) -> &[u8] {
    match &program.model {
        Some(model) => model,
        None => &program.text,
    }
}

/// Prints notes on what is accepted in the program or the model at a path and rarely meant, a line for each.
fn put_slip_notes(rt: &HostRuntime, path: &str, program: &NamedProgram) -> Result<(), Ending> {
    let named = Named {
        name: name_at(path),
        text: given_text(program),
    };
    let slips = slips_in(rt.alloc(), named)?;
    if let Some(lines) = slips.as_str().strip_suffix('\n') {
        let _ = eprintln!(rt; "{lines}");
    }
    Ok(())
}

/// Prints a note where products or totals of a program can be cut in the run of its plan, so that it may have other values than the
/// program seems to say.
fn put_cut_note(
    rt: &HostRuntime,
    path: &str,
    program: &[u8],
    plan: &PlanRef<'_>,
) -> Result<(), Ending> {
    if let Some(note) = note_of(rt.alloc(), path, program, plan)? {
        put_note(rt, note.as_str());
    }
    Ok(())
}

/// Prints the notes on a program or a model at a path, in the run of its plan.
pub(crate) fn put_program_notes(
    rt: &HostRuntime,
    path: &str,
    program: &NamedProgram,
    plan: &PlanRef<'_>,
) -> Result<(), Ending> {
    put_slip_notes(rt, path, program)?;
    put_cut_note(rt, path, &program.text, plan)
}
