//! The words of the command line.

use crate::ending::{Ending, refused};
use std::env;
use std::rt::Env;

/// The words of the command line. One that is no UTF-8 is an invalid argument.
pub fn words_of(rt: &(impl Env + AllocGlobal)) -> Result<Vec<String>, Ending> {
    match env::args(rt) {
        Ok(words) => Ok(words.collect(rt.alloc())?),
        Err(error) => {
            let text = String::from_str(rt.alloc(), "a word is not UTF-8")?;
            Err(refused(&error, Ending::Usage(text)))
        }
    }
}
