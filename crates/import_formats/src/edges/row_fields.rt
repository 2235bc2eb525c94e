//! The fields of a line.
ghost use Rattle.std.specs.Prelude.{◌≡◌, false, None, option_map, IfOk};
ghost use Rattle.std.specs.Str.Lines.{strip_carriage_return};
ghost use Rattle.csv.specs.Reading.{strip_bom, source_of, reader_config, reader_trim, reader_state, reader_headers, names_headers};
ghost use Rattle.csv.specs.Records.{fields_of};
ghost use Rattle.csv.specs.declared.parser.State.TheVariants as state;
ghost use Rattle.csv.specs.declared.reader.Trim.TheVariants as trim;
ghost use Rattle.import_formats.specs.edges.Tables.{config_of, fields_in};

use csv::{ByteRecord, Reader, ReaderBuilder, Terminator};
use std::alloc::{AllocError, Global};
use std::io::Read;

/// What parts the fields of a line.
#[derive(Clone, Copy, Debug, PartialEq, Eq)]
pub enum Separator {
    /// Tabs alone; a quote is a character like another.
    Tab,
    /// Commas, and a field may stand in double quotes, in which a comma is a character like another and two quotes are
    /// one.
    Comma,
}

/// A reader of the records of one line.
fn line_reader<R: Read>(alloc: Global, separator: Separator, line: R) -> Reader<R>
    ensures config { reader_config result ≡ config_of separator }
    ensures trim { reader_trim result ≡ trim.None }
    ensures plain { names_headers result ≡ false }
    ensures headers { reader_headers result ≡ None }
    ensures state { reader_state result ≡ state.StartRecord }
    ensures source { source_of R.remaining result ≡ option_map strip_bom (R.remaining line) }
{
    match separator {
        Separator::Tab => ReaderBuilder::new()
            .has_headers(false)
            .terminator(Terminator::Any(b'\n'))
            .delimiter(b'\t')
            .quoting(false)
            .from_reader(alloc, line),
        Separator::Comma => ReaderBuilder::new()
            .has_headers(false)
            .terminator(Terminator::Any(b'\n'))
            .from_reader(alloc, line),
    }
}

/// A line without the CR at its end, where it has one.
fn without_return(line: &[u8]) -> &[u8]
    ensures { result.now ≡ strip_carriage_return line.now }
{
    match line {
        [front @ .., b'\r'] => front,
        _ => line,
    }
}

/// The fields of a line.
pub(crate) fn fields_in(
    alloc: Global,
    separator: Separator,
    line: &[u8],
) -> Result<ByteRecord, AllocError>
    ensures { IfOk result (λ fields. fields_of fields ≡ fields_in separator line.now) }
{
    let ended = without_return(line).chain(b"\n".as_slice());
    let mut reader = line_reader(alloc, separator, ended);
    let mut fields = ByteRecord::new(alloc);
    match reader.read_byte_record(&mut fields) {
        Ok(true) => Ok(fields),
        Ok(false) => Ok(ByteRecord::new(alloc)),
        Err(_) => Err(AllocError),
    }
}
