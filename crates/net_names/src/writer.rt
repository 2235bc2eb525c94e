//! Files of names that are written.
ghost use Rattle.std.specs.Prelude.{◌≡◌, ◌++◌, [], ◌∷◌, map, string_bytes, IfOk, OnOk};
ghost use Rattle.net_names.specs.NamesFiles.{text_of, HasNames};

use crate::{NameList, NodeNames};
use std::alloc::{AllocError, Global};

/// Writes a name and the end of its line.
fn put_line(out: &mut String, name: &str) -> Result<(), AllocError>
    ensures { OnOk result (string_bytes out.new ≡ string_bytes out.old ++ (name.now ++ 10 ∷ [])) }
{
    out.push_str(name)?;
    out.push_str("\n")
}

/// Writes a line for each text.
fn put_lines(out: &mut String, texts: &[String]) -> Result<(), AllocError>
    ensures { OnOk result (string_bytes out.new ≡ string_bytes out.old ++ text_of (map string_bytes texts.now)) }
{
    for text in texts {
        put_line(out, text.as_str())?;
    }
    Ok(())
}

/// The file of names: each name and LF, in the order of their numbers.
pub fn names_text(alloc: Global, names: &NodeNames) -> Result<Vec<u8>, AllocError>
    ensures text { IfOk result (λ bytes. bytes.items ≡ text_of names.now) }
    ensures reads_back { IfOk result (λ bytes. HasNames bytes.items names.now) }
{
    let mut out = String::new(alloc);
    put_lines(&mut out, names.texts())?;
    Ok(out.into_bytes())
}

/// The names of a list, each and LF, in the order of their numbers. The error says that memory ran out.
pub fn list_text(alloc: Global, names: &NameList) -> Result<Vec<u8>, AllocError>
    ensures text { IfOk result (λ bytes. bytes.items ≡ text_of names.now) }
{
    let mut out = String::new(alloc);
    put_lines(&mut out, names.texts())?;
    Ok(out.into_bytes())
}
