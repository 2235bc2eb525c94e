//! `image --frames FOLDER`: a file for the picture of each round.

use app_files::{Ending, check_new, make_folder, print_out, write_new};
use run_watch::Span;
use std::alloc::{AllocError, Global};

/// The last round whose files have names of six digits; where there are later ones, all have ten.
const LAST_OF_SIX_DIGITS: u32 = 999_999;

/// The path of the file of a round, by names that sort as the rounds up to a last one do.
fn path_of(alloc: Global, folder: &str, last: u32, round: u32) -> Result<String, AllocError> {
    if last > LAST_OF_SIX_DIGITS {
        return format!(in alloc; "{folder}/round_{round:010}.svg");
    }
    format!(in alloc; "{folder}/round_{round:06}.svg")
}

/// Puts the path of the file of a round after the others.
fn put_path(
    paths: &mut Vec<String>,
    alloc: Global,
    folder: &str,
    last: u32,
    round: u32,
) -> Result<(), AllocError> {
    let path = path_of(alloc, folder, last, round)?;
    paths.push(path)?;
    Ok(())
}

/// The paths of the files of these rounds, in order.
fn paths_in(alloc: Global, folder: &str, span: &Span) -> Result<Vec<String>, AllocError> {
    let mut paths = Vec::new(alloc);
    for place in 0..=span.steps() {
        put_path(&mut paths, alloc, folder, span.last(), span.round_at(place))?;
    }
    Ok(paths)
}

/// Refuses paths at one of which is a file already.
fn check_all_new(rt: &HostRuntime, paths: &[String]) -> Result<(), Ending> {
    for path in paths {
        check_new(rt, path.as_str())?;
    }
    Ok(())
}

/// The same paths, at none of which is a file.
fn new_paths(rt: &HostRuntime, folder: &str, span: &Span) -> Result<Vec<String>, Ending> {
    let paths = paths_in(rt.alloc(), folder, span)?;
    check_all_new(rt, &paths)?;
    Ok(paths)
}

/// The files into which the pictures of rounds go, none of which was there before.
#[derive(Drop)]
pub(crate) struct RoundFiles {
    folder: String,
    paths: Vec<String>,
}

impl RoundFiles {
    /// The files of these rounds in a folder. `File` comes where one of them is there already.
    pub(crate) fn new(rt: &HostRuntime, folder: &str, span: &Span) -> Result<RoundFiles, Ending> {
        let paths = new_paths(rt, folder, span)?;
        let folder = String::from_str(rt.alloc(), folder)?;
        Ok(RoundFiles { folder, paths })
    }

    /// A line that tells how many files there are, and which.
    fn line(&self, alloc: Global) -> Result<String, AllocError> {
        match self.paths.as_slice() {
            [] => Ok(String::new(alloc)),
            [path] => format!(in alloc; "1 file: {path}\n"),
            [first, .., last] => {
                let count = self.paths.len();
                format!(in alloc; "{count} files: {first} to {last}\n")
            }
        }
    }

    /// Writes the pictures into the files, in order.
    fn put(&self, rt: &HostRuntime, texts: &[Vec<u8>]) -> Result<(), Ending> {
        make_folder(rt, self.folder.as_str())?;
        for (path, text) in self.paths.iter().zip(texts) {
            write_new(rt, path.as_str(), text.as_slice())?;
        }
        Ok(())
    }

    /// Writes the pictures into the files, in order, and prints a line. The status with which the program ends.
    fn put_and_tell(&self, rt: &HostRuntime, texts: &[Vec<u8>], line: &str) -> Result<u8, Ending> {
        self.put(rt, texts)?;
        print_out(rt, line.as_bytes())
    }

    /// Makes the folder where it is not there, writes the pictures into the files, in order, and tells which. All that is
    /// written is made before. The status with which the program ends.
    pub(crate) fn write(&self, rt: &HostRuntime, texts: &[Vec<u8>]) -> Result<u8, Ending> {
        let line = self.line(rt.alloc())?;
        self.put_and_tell(rt, texts, line.as_str())
    }
}
