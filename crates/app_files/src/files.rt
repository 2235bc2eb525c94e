//! Files that are read, and standard input where the path is `-`.

use crate::ending::{Ending, refused};
use std::alloc::Global;
use std::io::Read;
use std::rt::Files;
use std::{fs, io};

/// The text of a file, with the name under which people know it.
#[derive(Drop)]
pub struct Text {
    pub name: String,
    pub bytes: Vec<u8>,
}

/// The ending where a path could not be read or written: the path and the system's reason.
pub fn unserved(rt: &impl AllocGlobal, path: &str, error: &io::Error) -> Ending {
    match format!(in rt.alloc(); "{path}: {error}") {
        Ok(text) => refused(error, Ending::File(text)),
        Err(_) => Ending::Memory,
    }
}

/// All of standard input.
fn input_bytes(rt: &(impl Input + AllocGlobal)) -> io::Result<Vec<u8>> {
    let mut bytes = Vec::new(rt.alloc());
    rt.reader().read_to_end(&mut bytes)?;
    Ok(bytes)
}

/// The bytes at a path; for `-` those of standard input.
fn read_at(rt: &(impl Files + Input + AllocGlobal), path: &str) -> io::Result<Vec<u8>> {
    if path == "-" {
        input_bytes(rt)
    } else {
        fs::read(rt, path)
    }
}

/// How people know the text at a path.
pub fn name_at(path: &str) -> &str {
    if path == "-" { "standard input" } else { path }
}

/// The bytes of the text at a path; for `-` those of standard input.
pub fn bytes_at(rt: &(impl Files + Input + AllocGlobal), path: &str) -> Result<Vec<u8>, Ending> {
    match read_at(rt, path) {
        Ok(bytes) => Ok(bytes),
        Err(error) => Err(unserved(rt, name_at(path), &error)),
    }
}

/// The text at a path; for `-` that of standard input.
pub fn text_at(rt: &(impl Files + Input + AllocGlobal), path: &str) -> Result<Text, Ending> {
    let bytes = bytes_at(rt, path)?;
    let name = String::from_str(rt.alloc(), name_at(path))?;
    Ok(Text { name, bytes })
}

/// The text at a path, where there is a path.
pub fn text_where(
    rt: &(impl Files + Input + AllocGlobal),
    path: &Option<String>,
) -> Result<Option<Text>, Ending> {
    let Some(path) = path else {
        return Ok(None);
    };
    let text = text_at(rt, path.as_str())?;
    Ok(Some(text))
}

/// The bytes of the text at a path, where there is a path.
pub fn bytes_where(
    rt: &(impl Files + Input + AllocGlobal),
    path: &Option<String>,
) -> Result<Option<Vec<u8>>, Ending> {
    let Some(path) = path else {
        return Ok(None);
    };
    let bytes = bytes_at(rt, path.as_str())?;
    Ok(Some(bytes))
}

/// The ending where more than one of the paths is `-`.
fn read_twice(alloc: Global) -> Ending {
    Ending::usage(String::from_str(alloc, "standard input, -, can be read once"))
}

/// Refuses standard input, `-`, where more than one of the paths is it.
pub fn read_once(alloc: Global, paths: &[&str]) -> Result<(), Ending> {
    let mut is_read = false;
    for path in paths {
        if *path == "-" {
            if is_read {
                return Err(read_twice(alloc));
            }
            is_read = true;
        }
    }
    Ok(())
}

/// The path, and where there is none the empty text.
pub fn path_in(path: &Option<String>) -> &str {
    path.as_ref().map_or("", |path| path.as_str())
}
