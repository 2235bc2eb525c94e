//! Which fields of a table hold numbers of nodes.
ghost use Rattle.std.specs.Prelude.{◌≡◌, length, map, MatchOption, IfOk, IfErr};
ghost use Rattle.std.specs.String.{string_bytes};
ghost use Rattle.report_files.specs.tables.Csv.{IsFirstPlace, HasField, AreMarks, IsMarksFault};

use crate::tables::CsvFault;
use std::alloc::Global;

/// The place of the first field of this name.
fn place_of(fields: &[&str], name: &str) -> Option<usize>
    ensures place { MatchOption result (HasField (map (λ f. f.now) fields.now) name.now → ⊥) (IsFirstPlace (map (λ f. f.now) fields.now) name.now) }
{
    for (place, field) in fields.iter().enumerate() {
        if *field == name {
            return Some(place);
        }
    }
    None
}

/// Which of the table's fields are among those that are asked to hold nodes.
pub(crate) fn marks_of(
    alloc: Global,
    fields: &[&str],
    asked: &[String],
) -> Result<Vec<bool>, CsvFault>
    ensures marks { IfOk result (λ v. AreMarks (map (λ f. f.now) fields.now) (map string_bytes asked.now) v.items) }
    ensures refused { IfErr result (IsMarksFault (map (λ f. f.now) fields.now) (map string_bytes asked.now)) }
{
    let mut marks = vec![in alloc; false; fields.len()]?;
    for (place, name) in asked.iter().enumerate() {
        let Some(at) = place_of(fields, name.as_str()) else {
            return Err(CsvFault::UnknownField { place });
        };
        marks[at] = true;
    }
    Ok(marks)
}
