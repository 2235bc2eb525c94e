//! The fields of a node's line, where their names are known.
ghost use Rattle.std.specs.Prelude.{◌≡◌, ◌≤◌, ◌<◌, ◌++◌, ◌∷◌, ◌^◌, [], length, map};
ghost use Rattle.std.specs.Option.{option_map};
ghost use Rattle.report_text.specs.Front.{IsFront, Ends, Anything};
ghost use Rattle.report_text.specs.Report.{field_text, fields_text};
ghost use Rattle.report_text.specs.ReadReport.{IsStateOf};

use crate::number::{behind, read_number};
use rule_check::State;

/// The value of the field of this name, and what stands after it.
fn read_value<'a>(name: &str, bytes: &'a [u8]) -> Option<(u32, &'a [u8])>
    ensures front { IsFront (field_text name.now) (λ n. n < 2 ^ 32) Ends bytes.now (option_map (λ x. (x.0, x.1.now)) result) }
{
    let named = behind(b" ", bytes)?;
    let equal = behind(name.as_bytes(), named)?;
    let value = behind(b"=", equal)?;
    read_number(value)
}

/// The state that the fields of these names give, and what stands after them.
fn read_values<'a>(fields: &[&str], bytes: &'a [u8]) -> Option<(State, &'a [u8])>
    requires few { length fields.now ≤ 8 }
    requires ends { Ends bytes.now }
    ensures front { IsFront (λ s. fields_text (map (λ f. f.now) fields.now) s.words) (IsStateOf (length fields.now)) Ends bytes.now (option_map (λ x. (x.0, x.1.now)) result) }
{
    let mut words = [0; 8];
    let mut rest = bytes;
    for place in 0..fields.len() {
        let (value, more) = read_value(fields[place], rest)?;
        words[place] = value;
        rest = more;
    }
    Some((State { words }, rest))
}

/// The state that the fields of these names give, to the end of their line, and what stands after the line.
pub fn read_state<'a>(fields: &[&str], bytes: &'a [u8]) -> Option<(State, &'a [u8])>
    requires few { length fields.now ≤ 8 }
    requires ends { Ends bytes.now }
    ensures front { IsFront (λ s. fields_text (map (λ f. f.now) fields.now) s.words ++ 10 ∷ []) (IsStateOf (length fields.now)) Anything bytes.now (option_map (λ x. (x.0, x.1.now)) result) }
{
    let (state, end) = read_values(fields, bytes)?;
    let more = behind(b"\n", end)?;
    Some((state, more))
}
