//! Standard output, and files that are written.

use crate::ending::Ending;
use crate::files::unserved;
use std::fs::File;
use std::io::{ErrorKind, Write};
use std::rt::Files;
use std::{fs, io};

/// The ending where standard output refused. A reader that has closed its pipe, as `head` does, has what it wants.
fn unwritten(error: &io::Error) -> Ending {
    match error.kind() {
        ErrorKind::BrokenPipe => Ending::Unread,
        _ => Ending::Output,
    }
}

/// Writes bytes on standard output, whole. No memory is asked for, so that a file that was written before never stands
/// beside a command that ran out of it.
pub fn write_out(rt: &impl Print, bytes: &[u8]) -> Result<(), Ending> {
    let mut output = io::writer(rt);
    match output.write_all(bytes) {
        Ok(()) => Ok(()),
        Err(error) => Err(unwritten(&error)),
    }
}

/// Prints bytes on standard output, whole. The status with which the program ends.
pub fn print_out(rt: &impl Print, bytes: &[u8]) -> Result<u8, Ending> {
    write_out(rt, bytes)?;
    Ok(0)
}

/// Writes a file, whole.
pub fn write_file(rt: &(impl Files + AllocGlobal), path: &str, text: &[u8]) -> Result<(), Ending> {
    let Err(error) = fs::write(rt, path, text) else {
        return Ok(());
    };
    Err(unserved(rt, path, &error))
}

/// The ending where something is at the path of a file that is to be new.
fn is_there(rt: &impl AllocGlobal, path: &str) -> Ending {
    match format!(in rt.alloc();
        "{path}: it is there already, and no file is written over: remove it, or name another folder"
    ) {
        Ok(text) => Ending::File(text),
        Err(_) => Ending::Memory,
    }
}

/// Refuses a path at which there is something already.
pub fn check_new(rt: &(impl Files + AllocGlobal), path: &str) -> Result<(), Ending> {
    match fs::exists(rt, path) {
        Ok(true) => Err(is_there(rt, path)),
        Ok(false) => Ok(()),
        Err(error) => Err(unserved(rt, path, &error)),
    }
}

/// Makes a folder where there is nothing at its path; the folder in which it stands has to be there.
pub fn make_folder(rt: &(impl Files + AllocGlobal), path: &str) -> Result<(), Ending> {
    let Err(error) = fs::create_dir(rt, path) else {
        return Ok(());
    };
    match error.kind() {
        ErrorKind::AlreadyExists => Ok(()),
        _ => Err(unserved(rt, path, &error)),
    }
}

/// Makes a file of these bytes, where there is none.
fn make_file(rt: &impl Files, path: &str, text: &[u8]) -> io::Result<()> {
    let mut file = File::create_new(rt, path)?;
    file.write_all(text)
}

/// Writes a file that is new, whole: where there is one already, it is left as it is.
pub fn write_new(rt: &(impl Files + AllocGlobal), path: &str, text: &[u8]) -> Result<(), Ending> {
    match make_file(rt, path, text) {
        Ok(()) => Ok(()),
        Err(error) => Err(unserved(rt, path, &error)),
    }
}
