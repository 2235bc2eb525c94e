//! Words and signs of other languages, and what is written in their place: in programs of the rule language and in models.

use crate::found::{is_sign, sign_text};
use rule_lang::{Sign, Token};

/// Of two tests, both.
const BOTH: &str =
    "for two tests write (A min B), which is 0 where one of them is 0; (A & B) goes bit by bit";

/// Of two tests, one.
const EITHER: &str =
    "for two tests write (A max B), which is 0 only where both are 0; (A | B) goes bit by bit";

/// The lesser of two, and the least of many.
const LEAST: &str =
    "(A min B) is the lesser of two values; the least over the neighbours is: least n.NAME";

/// The same in models.
const LEAST_OF: &str =
    "min(a, b) is the lesser of two values; the least over the neighbours is least(n.NAME)";

/// The greater of two, and the greatest of many.
const MOST: &str =
    "(A max B) is the greater of two values; the greatest over the neighbours is: most n.NAME";

/// The same in models.
const MOST_OF: &str =
    "max(a, b) is the greater of two values; the greatest over the neighbours is most(n.NAME)";

/// There is no mean.
const MEAN: &str =
    "there is no mean: divide the total by the count, as in (total n.NAME / count 1), which rounds down";

/// The same in models.
const MEAN_OF: &str =
    "there is no mean: divide the total by the count, as in total(n.NAME) / degree, which rounds down";

/// There is no value that most neighbours have.
const MODE: &str =
    "count the neighbours that have each value, and compare, as in (count (n.NAME == 1) > count (n.NAME == 0))";

/// The same in models.
const MODE_OF: &str =
    "count the neighbours that have each value, and compare, as in count(n.NAME == 1) > count(n.NAME == 0)";

/// There is no power.
const POWER: &str = "there is no power: multiply, as in (A * A)";

/// The same in models.
const POWER_OF: &str = "there is no power: multiply, as in a * a";

/// There is no chance in programs.
const RANDOM: &str =
    "there are no random numbers: compute one from `id` and `round`, as in docs/cookbook.md, A random number";

/// How random numbers are called in models.
const RANDOM_OF: &str =
    "random(k) is a whole number from 0 to k - 1; for a link it is link_random(k)";

/// How comments are written.
const COMMENT: &str = "a comment begins with `#` and goes on to the end of the line";

/// How the quotient is written in models, and comments.
const QUOTIENT: &str =
    "the quotient, rounded down, is a / b; a comment begins with `#` and goes on to the end of the line";

/// The signs that compare.
const COMPARISONS: &str = "comparisons are written `==`, `!=`, `<`, `<=`, `>` and `>=`";

/// A test that holds, and one that does not.
const TRUE: &str = "a test that holds is 1: write 1";

const FALSE: &str = "a test that does not hold is 0: write 0";

/// How many neighbours there are.
const NEIGHBOURS: &str = "the number of neighbours is `degree`";

/// The greatest number.
const GREATEST: &str = "write the greatest number: 4294967295";

/// The same in models.
const GREATEST_OF: &str = "the greatest number is `none`, 4294967295";

/// What `n` by itself is not.
const SELF: &str = "a neighbour's field is n.NAME, and the number of neighbours is `degree`";

/// What a neighbour does not show.
const NEAR_DEGREE: &str =
    "a neighbour has its fields, n.id and n.weight: keep its degree in a field, as in: next deg = degree;";

/// A word, and what to do about it in a program and in a model; nothing where it stands in the notation.
type Known = (&'static str, &'static str, &'static str);

/// Words that stand between two parts or before one.
const WORDS: [Known; 25] = [
    ("and", BOTH, ""),
    ("or", EITHER, ""),
    (
        "xor",
        "for two tests that are 0 or 1 write (A != B); (A ^ B) goes bit by bit",
        "for two tests that are 0 or 1 write a != b; a ^ b goes bit by bit",
    ),
    ("mod", "the remainder is (A % B)", "the remainder is a % b"),
    (
        "div",
        "the quotient, rounded down, is (A / B)",
        "the quotient, rounded down, is a / b",
    ),
    ("pow", POWER, POWER_OF),
    (
        "abs",
        "no difference is below 0: how far apart two values are is ((A - B) max (B - A))",
        "no difference is below 0: how far apart two values are is difference(a, b)",
    ),
    ("min", LEAST, LEAST_OF),
    ("minimum", LEAST, LEAST_OF),
    ("max", MOST, MOST_OF),
    ("maximum", MOST, MOST_OF),
    ("sum", "the word is `total`, as in: total n.NAME", ""),
    ("mean", MEAN, MEAN_OF),
    ("average", MEAN, MEAN_OF),
    ("avg", MEAN, MEAN_OF),
    ("mode", MODE, MODE_OF),
    ("median", MODE, MODE_OF),
    (
        "argmin",
        "which neighbour has the least value, if values are below 65536: (least ((n.NAME * 65536) + n.id) % 65536); see argmin in docs/cookbook.md",
        "which neighbour has the least value, if values are below 65536: least(n.NAME * 65536 + n.id) % 65536; see argmin in docs/cookbook.md",
    ),
    (
        "argmax",
        "which neighbour has the greatest value, if values are below 65536: (most ((n.NAME * 65536) + n.id) % 65536); see argmin in docs/cookbook.md",
        "which neighbour has the greatest value, if values are below 65536: most(n.NAME * 65536 + n.id) % 65536; see argmin in docs/cookbook.md",
    ),
    (
        "exists",
        "the word is `any`, as in: any n.NAME",
        "the word is `any`, as in any(n.NAME)",
    ),
    (
        "forall",
        "the word is `all`, as in: all n.NAME",
        "the word is `all`, as in all(n.NAME)",
    ),
    (
        "weight",
        "the weight of the link to a neighbour is n.weight, in an aggregate, as in: total n.weight",
        "the weight of the link to a neighbour is n.weight, in an aggregate, as in total(n.weight)",
    ),
    ("random", RANDOM, ""),
    ("rand", RANDOM, RANDOM_OF),
    ("randint", RANDOM, RANDOM_OF),
];

/// Words that stand for a value.
const VALUES: [Known; 12] = [
    ("random", RANDOM, ""),
    ("rand", RANDOM, RANDOM_OF),
    ("true", TRUE, TRUE),
    ("True", TRUE, TRUE),
    ("false", FALSE, FALSE),
    ("False", FALSE, FALSE),
    (
        "M",
        "M stands in the documents for the greatest number: write 4294967295",
        "M stands in the documents for the greatest number: write `none`",
    ),
    ("inf", GREATEST, GREATEST_OF),
    ("infinity", GREATEST, GREATEST_OF),
    ("n", SELF, SELF),
    ("neighbours", NEIGHBOURS, NEIGHBOURS),
    ("neighbors", NEIGHBOURS, NEIGHBOURS),
];

/// Signs that stand side by side, and what to do about them in a program and in a model.
const PAIRS: [(Sign, Sign, &str, &str); 15] = [
    (Sign::Slash, Sign::Slash, COMMENT, QUOTIENT),
    (Sign::Slash, Sign::Star, COMMENT, COMMENT),
    (
        Sign::Ampersand,
        Sign::Ampersand,
        BOTH,
        "write `and` in place of `&&`",
    ),
    (Sign::Bar, Sign::Bar, EITHER, "write `or` in place of `||`"),
    (Sign::Star, Sign::Star, POWER, POWER_OF),
    (Sign::Assign, Sign::Assign, COMPARISONS, COMPARISONS),
    (Sign::Assign, Sign::Less, COMPARISONS, COMPARISONS),
    (Sign::Assign, Sign::Greater, COMPARISONS, COMPARISONS),
    (Sign::Less, Sign::Assign, COMPARISONS, COMPARISONS),
    (Sign::Greater, Sign::Assign, COMPARISONS, COMPARISONS),
    (Sign::Less, Sign::Greater, COMPARISONS, COMPARISONS),
    (Sign::Equal, Sign::Assign, COMPARISONS, COMPARISONS),
    (Sign::Differ, Sign::Assign, COMPARISONS, COMPARISONS),
    (
        Sign::Less,
        Sign::Less,
        "there are no shifts: multiply, as in (A * 2)",
        "there are no shifts: multiply, as in a * 2",
    ),
    (
        Sign::Greater,
        Sign::Greater,
        "there are no shifts: divide, as in (A / 2)",
        "there are no shifts: divide, as in a / 2",
    ),
];

/// What to do, where there is something.
fn said(text: &'static str) -> Option<&'static str> {
    if text.is_empty() { None } else { Some(text) }
}

/// The row of a word in a table.
fn row_of(table: &[Known], word: &str) -> Option<Known> {
    for row in table {
        if row.0 == word {
            return Some(*row);
        }
    }
    None
}

/// What to do in a program about a word that is to join two parts, or to make a value of one.
pub(crate) fn word_hint(word: &str) -> Option<&'static str> {
    said(row_of(&WORDS, word)?.1)
}

/// What to do in a program about a word that is to be a value.
pub(crate) fn value_hint(word: &str) -> Option<&'static str> {
    said(row_of(&VALUES, word)?.1)
}

/// What to do in a model about a word of another language.
pub fn model_word_hint(word: &str) -> Option<&'static str> {
    match row_of(&VALUES, word) {
        Some(row) => said(row.2),
        None => said(row_of(&WORDS, word)?.2),
    }
}

/// What to do in a program about two tokens, one after the other, that are signs which another language writes so.
pub(crate) fn pair_hint(first: Option<Token>, second: Option<Token>) -> Option<&'static str> {
    for (one, other, hint, _) in &PAIRS {
        if is_sign(first, *one) && is_sign(second, *other) {
            return Some(*hint);
        }
    }
    None
}

/// Whether two signs stand in a text so that the second begins at a byte, or the first.
fn stand_at(text: &[u8], at: usize, one: &str, other: &str) -> bool {
    let (front, back) = text.split_at(at.min(text.len()));
    if front.ends_with(one.as_bytes()) {
        return back.starts_with(other.as_bytes());
    }
    match back.strip_prefix(one.as_bytes()) {
        Some(behind) => behind.starts_with(other.as_bytes()),
        None => false,
    }
}

/// What to do in a model about signs at a byte of its text which another language writes so.
pub fn model_sign_hint(text: &[u8], at: usize) -> Option<&'static str> {
    for (one, other, _, hint) in &PAIRS {
        if stand_at(text, at, sign_text(*one), sign_text(*other)) {
            return Some(*hint);
        }
    }
    None
}

/// What to do, in a program and in a model, where the degree of a neighbour is asked for.
pub fn near_degree_hint() -> &'static str {
    NEAR_DEGREE
}
