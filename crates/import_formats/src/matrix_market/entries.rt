//! The entries of a text, one after another.
ghost use Rattle.std.specs.Prelude.{◌≡◌, ◌==◌, nat_lt, if◌then◌else◌, ◌+◌, ◌<◌, ◌≤◌, ◌^◌, ◌∷◌, List, ℕ, length, IfOk, IfSome, OnErr, MatchResult, Ok, Err};
ghost use Rattle.import_formats.specs.declared.matrix_market.fault.MatrixFault.TheVariants.{TooManyEntries, TooFewEntries};
ghost use Rattle.import_formats.specs.matrix_market.Matrices.{link_of, lines_left, links_left, with_next};

use crate::matrix_market::entry::{EntryForm, read_entry};
use crate::matrix_market::fault::MatrixFault;
use import_lines::Lines;
use import_links::PlacedLink;

/// The entries of a text that are not read yet.
#[derive(Clone, Copy)]
pub struct Entries<'a> {
    /// What they are like.
    pub form: EntryForm,
    /// How many entries the text is said to have.
    pub said: u64,
    /// How many are read.
    pub found: u64,
    /// Where the others stand.
    pub lines: Lines<'a>,
}

/// The link of a line, before which so many were found.
fn read_next(
    form: EntryForm,
    said: u64,
    found: u64,
    number: u64,
    line: &[u8],
) -> Result<PlacedLink, MatrixFault>
    ensures link { result ≡ (if found == said then Err (TooManyEntries number said) else link_of form (number, line.now)) }
    ensures first { IfOk result (λ link. link.link.0 < form.nodes) }
    ensures second { IfOk result (λ link. link.link.1 < form.nodes) }
    ensures line { IfOk result (λ link. link.line ≡ number) }
{
    if found == said {
        return Err(MatrixFault::TooManyEntries { line: number, said });
    }
    match read_entry(form, number, line) {
        Ok(link) => Ok(link),
        Err(fault) => Err(MatrixFault::BadLine {
            line: number,
            fault,
        }),
    }
}

/// `TooFewEntries` where fewer entries were found than were said.
fn check_found(said: u64, found: u64) -> Result<(), MatrixFault>
    ensures { result ≡ (if nat_lt found said then Err (TooFewEntries said found) else Ok tt) }
{
    if found < said {
        return Err(MatrixFault::TooFewEntries { said, found });
    }
    Ok(())
}

impl<'a> Entries<'a> {
    /// The link of the next entry, None after the last one; or what is wrong there, and then nothing is read.
    pub fn next_link(&mut self) -> Result<Option<PlacedLink>, MatrixFault>
        requires room { self.old.lines.passed + length self.old.lines.bytes.now < 2 ^ 64 }
        requires most { self.old.found ≤ self.old.said }
        ensures room { self.new.lines.passed + length self.new.lines.bytes.now < 2 ^ 64 }
        ensures most { self.new.found ≤ self.new.said }
        ensures form { self.new.form ≡ self.old.form }
        ensures link { MatchResult result (λ next. links_left self.old ≡ with_next next (links_left self.new)) (λ fault. links_left self.old ≡ Err fault) }
        ensures line { IfOk result (λ next. IfSome next (λ link. (text : List ℕ) × (lines_left self.old ≡ (link.line, text) ∷ lines_left self.new))) }
        ensures first { IfOk result (λ next. IfSome next (λ link. link.link.0 < self.old.form.nodes)) }
        ensures second { IfOk result (λ next. IfSome next (λ link. link.link.1 < self.old.form.nodes)) }
        ensures unread { OnErr result (self.new ≡ self.old) }
    {
        let mut lines = self.lines;
        let Some((number, line)) = lines.next_told() else {
            check_found(self.said, self.found)?;
            return Ok(None);
        };
        let link = read_next(self.form, self.said, self.found, number, line)?;
        self.found += 1;
        self.lines = lines;
        Ok(Some(link))
    }
}
