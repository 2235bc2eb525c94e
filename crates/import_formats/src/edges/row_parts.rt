//! The parts of a record of two or three fields.
ghost use Rattle.std.specs.Prelude.{◌≡◌, slice_get};
ghost use Rattle.std.specs.List.{list_any};
ghost use Rattle.std.specs.Option.{option_copied};
ghost use Rattle.csv.specs.Records.{fields_of};
ghost use Rattle.import_lines.specs.Parts.{IsGiven, parts_of};
ghost use Rattle.import_lines.specs.Texts.{is_line_feed};
ghost use Rattle.import_formats.specs.edges.Columns.{column_where, parts_at, parts_in};
ghost use Rattle.import_formats.specs.declared.edges.row_fault.RowFault.TheVariants.{Words as BadWords, NoColumn};
ghost use Rattle.import_formats.specs.edges.Tables.{is_unclosed, has_line_feed_at};

use crate::edges::Columns;
use crate::edges::row_fault::RowFault;
use csv::ByteRecord;
use import_lines::WordsFault;

/// The fields of a record that has two or three.
#[derive(Clone, Copy)]
pub(crate) struct FieldParts<'a> {
    /// The first field.
    pub(crate) first: &'a [u8],
    /// The second field.
    pub(crate) second: &'a [u8],
    /// The third field, where there is one.
    pub(crate) third: Option<&'a [u8]>,
}

/// Whether a LF stands in the bytes.
fn has_line_feed(bytes: &[u8]) -> bool
    ensures { result ≡ list_any is_line_feed bytes.now }
{
    for byte in bytes {
        if *byte == b'\n' {
            return true;
        }
    }
    false
}

/// Whether a LF stands in the field at a place.
fn has_line_feed_at(fields: &ByteRecord, place: usize) -> bool
    ensures { result ≡ has_line_feed_at (fields_of fields.now) place }
{
    match fields.get(place) {
        Some(field) => has_line_feed(field),
        None => false,
    }
}

/// Whether a quote that begins a field is not closed: the field has the line's LF.
pub(crate) fn is_unclosed(fields: &ByteRecord) -> bool
    ensures { result ≡ is_unclosed (fields_of fields.now) }
{
    for place in 0..fields.len() {
        if has_line_feed_at(fields, place) {
            return true;
        }
    }
    false
}

/// The two or three fields of a record: `OneWord` or `TooManyWords` where it has another number.
fn two_or_three(fields: &ByteRecord) -> Result<FieldParts<'_>, WordsFault>
    ensures { IsGiven (λ p. (p.first.now, p.second.now, option_copied p.third)) (parts_of (fields_of fields.now)) result }
{
    let Some(first) = fields.get(0) else {
        return Err(WordsFault::OneWord);
    };
    let Some(second) = fields.get(1) else {
        return Err(WordsFault::OneWord);
    };
    if fields.get(3).is_some() {
        return Err(WordsFault::TooManyWords);
    }
    Ok(FieldParts {
        first,
        second,
        third: fields.get(2),
    })
}

/// The field in a column.
pub(crate) fn field_in(fields: &ByteRecord, column: usize) -> Option<&[u8]>
    ensures { option_copied result ≡ slice_get (fields_of fields.now) column }
{
    fields.get(column)
}

/// The field in a column, where there is such a column.
fn field_where(fields: &ByteRecord, column: Option<usize>) -> Option<&[u8]>
    ensures { option_copied result ≡ column_where column (fields_of fields.now) }
{
    match column {
        Some(column) => field_in(fields, column),
        None => None,
    }
}

/// The fields of a record in these columns.
fn column_parts(fields: &ByteRecord, columns: Columns) -> Result<FieldParts<'_>, RowFault>
    ensures { IsGiven (λ p. (p.first.now, p.second.now, option_copied p.third)) (parts_at NoColumn columns (fields_of fields.now)) result }
{
    let Some(first) = field_in(fields, columns.first) else {
        return Err(RowFault::NoColumn);
    };
    let Some(second) = field_in(fields, columns.second) else {
        return Err(RowFault::NoColumn);
    };
    Ok(FieldParts {
        first,
        second,
        third: field_where(fields, columns.weight),
    })
}

/// The fields of a record that are the ends of its edge and its weight: those in these columns, or all of two or three.
pub(crate) fn field_parts(
    fields: &ByteRecord,
    columns: Option<Columns>,
) -> Result<FieldParts<'_>, RowFault>
    ensures { IsGiven (λ p. (p.first.now, p.second.now, option_copied p.third)) (parts_in BadWords NoColumn columns (fields_of fields.now)) result }
{
    match columns {
        Some(columns) => column_parts(fields, columns),
        None => match two_or_three(fields) {
            Ok(parts) => Ok(parts),
            Err(fault) => Err(RowFault::Words(fault)),
        },
    }
}
