//! Values of fields that words give.
ghost use Rattle.std.specs.Prelude.{◌≡◌, ◌<◌, IfSome};
ghost use Rattle.std.specs.Option.{option_map};
ghost use Rattle.rule_check.specs.Value.{names_of};
ghost use Rattle.run_steps.specs.script.Words.{words_in};
ghost use Rattle.run_steps.specs.verify.Fields.{field_called, given_by, if_once, none_gathered, split_equals, with_word, with_words};
ghost use Rattle.run_steps.specs.verify.Given.{value_given};

use crate::script::{next_said, number_in};
use crate::verify::entry::{Gathered, Given};
use crate::verify::fault::VerifyFault;
use rule_check::Program;

/// The place of the field of this name, where a program has one.
fn field_called(program: &Program, name: &str) -> Option<u32>
    ensures exact { result ≡ field_called (names_of program.now) name.now }
    ensures few { IfSome result (λ k. k < 8) }
{
    // For the proof alone: the call tells that there are at most 8 fields.
    let _fields = program.field_count();
    program.field_index(name)
}

/// What stands before the first `=` of a word, and behind it, where it has one.
fn split_equals(word: &str) -> Option<(&str, &str)>
    ensures { option_map (λ x. (x.0.now, x.1.now)) result ≡ split_equals word.now }
{
    word.split_once('=')
}

/// The place of a field, and its value, that a word `FIELD=VALUE` gives.
fn given_by(program: &Program, word: &str) -> Option<(u32, u32)>
    ensures exact { result ≡ given_by (names_of program.now) word.now }
    ensures few { IfSome result (λ p. p.0 < 8) }
{
    let (name, number) = split_equals(word)?;
    let field = field_called(program, name)?;
    let value = number_in(number)?;
    Some((field, value))
}

/// The value that is given of a field.
fn value_given(given: &Given, field: u32) -> Option<u32>
    requires few { field < 8 }
    ensures { result ≡ value_given given.now field }
{
    given.values[field as usize]
}

/// What words have given so far, and with the next one.
fn with_word(
    program: &Program,
    line: u64,
    gathered: Gathered,
    word: &str,
) -> Result<Gathered, VerifyFault>
    ensures { result ≡ with_word line gathered (given_by (names_of program.now) word.now) }
{
    let Some((field, value)) = given_by(program, word) else {
        return Err(VerifyFault::BadField { line });
    };
    let mut given = gathered.given;
    if value_given(&given, field).is_some() {
        return Ok(Gathered { given, twice: true });
    }
    given.values[field as usize] = Some(value);
    Ok(Gathered {
        given,
        twice: gathered.twice,
    })
}

/// The values, where none is of a field that has one already.
fn if_once(line: u64, gathered: Gathered) -> Result<Given, VerifyFault>
    ensures { result ≡ if_once line gathered }
{
    if gathered.twice {
        return Err(VerifyFault::FieldTwice { line });
    }
    Ok(gathered.given)
}

/// The values that the words of a text give: all words are looked at before a field that has two values is told.
pub(crate) fn values_in(program: &Program, line: u64, text: &str) -> Result<Given, VerifyFault>
    ensures { result ≡ with_words (names_of program.now) line none_gathered (words_in text.now) }
{
    let mut gathered = Gathered {
        given: Given { values: [None; 8] },
        twice: false,
    };
    let mut rest = text;
    while let Some((word, behind)) = next_said(rest) {
        gathered = with_word(program, line, gathered, word)?;
        rest = behind;
    }
    if_once(line, gathered)
}
