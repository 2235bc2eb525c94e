//! Why a token cannot stand at its place.

use crate::foreign::{near_degree_hint, pair_hint, value_hint, word_hint};
use crate::found::{index_at, is_operator, is_sign, keyword, token, token_before, token_text};
use crate::items::{declares, is_aggregate};
use crate::near::nearest;
use crate::told::{Part, Told};
use rule_lang::{Expected, Keyword, Lexeme, Sign, Token, read_tokens};
use std::alloc::{AllocError, Global};

/// What brackets are for.
const BRACKETS: &str = "an operator stands between two parts in brackets: (A + B)";

/// No value is negative.
const NEGATIVE: &str = "no value is negative: numbers go from 0 to 4294967295, and (0 - 1) is 0";

/// What could stand at the place.
fn expected_text(expected: Expected) -> &'static str {
    match expected {
        Expected::Item => "`field` or `next`",
        Expected::Name => "a name",
        Expected::Assign => "`=`",
        Expected::Number => "a number",
        Expected::Semicolon => "`;`",
        Expected::Operator => "an operator",
        Expected::Close => "`)`",
        Expected::Then => "`then`",
        Expected::Else => "`else`",
        Expected::Expression => "an expression",
        Expected::Shallower => "nothing deeper",
        Expected::NearForm => "a name, `id` or `weight` behind `n.`",
    }
}

/// The aggregates.
const AGGREGATES: [&str; 6] = ["total", "least", "most", "count", "any", "all"];

/// The tokens at a place, before it and after it.
#[derive(Clone, Copy)]
struct Around<'a> {
    before: Option<Token<'a>>,
    found: Option<Token<'a>>,
    behind: Option<Token<'a>>,
    /// Whether a `field` item declares the name before the place.
    follows_field: bool,
    /// Whether a `field` item declares the name at the place.
    finds_field: bool,
}

/// Whether an expression stands before the place, which could go on or end there.
fn follows_expression(expected: Expected) -> bool {
    matches!(
        expected,
        Expected::Operator | Expected::Close | Expected::Then | Expected::Else | Expected::Semicolon
    )
}

/// Whether an expression begins with the token.
fn begins_expression(token: Token) -> bool {
    match token {
        Token::Near(_) | Token::Number(_) => true,
        Token::Sign(sign) => sign == Sign::Open,
        Token::Word(_) => {
            is_aggregate(token)
                || matches!(
                    keyword(Some(token)),
                    None | Some(
                        Keyword::Id | Keyword::Degree | Keyword::Round | Keyword::Not | Keyword::If
                    )
                )
        }
    }
}

/// What to do about a word of another language, between two parts or where an expression is wanted.
fn foreign_word_hint(expected: Expected, around: &Around) -> Option<&'static str> {
    let Some(Token::Word(word)) = around.found else {
        return None;
    };
    let fits = match keyword(around.found) {
        Some(_) => expected == Expected::Expression,
        None => follows_expression(expected),
    };
    if fits { word_hint(word) } else { None }
}

/// What to do where signs or words of another language stand.
fn foreign_hint(expected: Expected, around: &Around) -> Option<&'static str> {
    let pair = pair_hint(around.found, around.behind).or(pair_hint(around.before, around.found));
    if pair.is_some() {
        return pair;
    }
    if is_sign(around.found, Sign::Assign) && follows_expression(expected) {
        return Some("`=` gives a field its value: to compare write (A == B)");
    }
    foreign_word_hint(expected, around)
}

/// Whether the token stands after the word of an aggregate, as in `least n.dist` and `least (n.dist + 1)`, or in other
/// languages after that of a function.
fn is_called(token: Option<Token>) -> bool {
    matches!(token, Some(Token::Near(_) | Token::Sign(Sign::Open)))
}

/// What to do where the end of an item is wanted.
fn semicolon_hint(around: &Around) -> &'static str {
    if is_operator(around.found) || is_called(around.found) {
        return BRACKETS;
    }
    "each item ends with `;`"
}

/// What to do where an operator is wanted.
fn operator_hint(around: &Around) -> &'static str {
    if is_sign(around.found, Sign::Close) {
        return "brackets stand round two parts with an operator between, (A + B), and nowhere else: not round one part, as in (s), (not s), (if ..) or total(n.s)";
    }
    BRACKETS
}

/// What to do where a closing bracket is wanted.
fn close_hint(around: &Around) -> &'static str {
    if is_operator(around.found) {
        return "each operator has brackets of its own: ((A + B) + C)";
    }
    BRACKETS
}

/// What to do where `then` or `else` is wanted.
fn choice_hint(around: &Around) -> &'static str {
    if is_operator(around.found) {
        return BRACKETS;
    }
    "a choice is written: if A then B else C"
}

/// What to do where a name is wanted.
fn name_hint(around: &Around) -> &'static str {
    match keyword(around.found) {
        Some(_) => "this word is reserved: take another name",
        None => "a name is a letter, then letters, digits and `_`",
    }
}

/// What to do where a number is wanted.
fn number_hint(around: &Around) -> &'static str {
    if is_sign(around.found, Sign::Minus) {
        return NEGATIVE;
    }
    if let Some(Token::Word(word)) = around.found {
        if let Some(text) = value_hint(word) {
            return text;
        }
    }
    "a field opens with a number, 0 to 4294967295; what is computed stands in a `next` item"
}

/// What to do where an expression is wanted.
fn expression_hint(around: &Around) -> &'static str {
    if is_sign(around.found, Sign::Minus) {
        return NEGATIVE;
    }
    "an expression is a number, a name, `id`, `degree`, `round`, (A + B), not A, if A then B else C, or an aggregate such as least n.NAME"
}

/// What to do where a neighbour's word is none.
fn near_hint(around: &Around) -> &'static str {
    match around.found {
        Some(Token::Near("degree")) => near_degree_hint(),
        _ => "a neighbour has its fields, n.id and n.weight",
    }
}

/// What to do where something was expected.
fn hint(expected: Expected, around: &Around) -> &'static str {
    if let Some(text) = foreign_hint(expected, around) {
        return text;
    }
    match expected {
        Expected::Item => "an item is: field NAME = NUMBER; or: next NAME = EXPRESSION;",
        Expected::Name => name_hint(around),
        Expected::Assign => "an item is: field NAME = NUMBER; or: next NAME = EXPRESSION;",
        Expected::Number => number_hint(around),
        Expected::Semicolon => semicolon_hint(around),
        Expected::Operator => operator_hint(around),
        Expected::Close => close_hint(around),
        Expected::Then | Expected::Else => choice_hint(around),
        Expected::Expression => expression_hint(around),
        Expected::Shallower =>
            "expressions are 64 deep at most: compute a part in a field of its own, a round earlier",
        Expected::NearForm => near_hint(around),
    }
}

/// What to do about a word with which no item begins: the word that is wanted before it, or the nearest word with which
/// an item begins.
fn item_hint(alloc: Global, around: &Around) -> Result<Option<String>, AllocError> {
    let Some(Token::Word(word)) = around.found else {
        return Ok(None);
    };
    if around.finds_field {
        return Ok(Some(format!(in alloc; "a rule begins with `next`: next {word} = EXPRESSION;")?));
    }
    match nearest(alloc, word, &["field", "next"])? {
        Some(near) => Ok(Some(format!(in alloc; "did you mean `{near}`?")?)),
        None => Ok(None),
    }
}

/// What to do about a word before a bracket or a neighbour's field that is no aggregate: the nearest one, or which there
/// are.
fn aggregate_hint(alloc: Global, word: &str) -> Result<String, AllocError> {
    match nearest(alloc, word, &AGGREGATES)? {
        Some(near) => format!(in alloc; "did you mean `{near}`?"),
        None => String::from_str(
            alloc,
            "there are no functions, and the aggregates are `total`, `least`, `most`, `count`, `any` and `all`",
        ),
    }
}

/// What to do about a name before a part, where it seems to stand there as the word of an aggregate or a function.
fn call_hint(alloc: Global, around: &Around) -> Result<Option<String>, AllocError> {
    let (Some(Token::Word(word)), Some(found)) = (around.before, around.found) else {
        return Ok(None);
    };
    let calls = is_called(around.found);
    let is_strange = keyword(around.before).is_none() && !around.follows_field;
    match word_hint(word) {
        Some(text) if calls || is_strange && begins_expression(found) => Ok(Some(String::from_str(
            alloc, text,
        )?)),
        None if calls && is_strange => Ok(Some(aggregate_hint(alloc, word)?)),
        _ => Ok(None),
    }
}

/// What to do about the names at a place.
fn names_hint(
    alloc: Global,
    expected: Expected,
    around: &Around,
) -> Result<Option<String>, AllocError> {
    if expected == Expected::Item {
        return item_hint(alloc, around);
    }
    if follows_expression(expected) {
        return call_hint(alloc, around);
    }
    Ok(None)
}

/// What to do, in a text of its own.
fn hint_text(alloc: Global, expected: Expected, around: &Around) -> Result<String, AllocError> {
    match names_hint(alloc, expected, around)? {
        Some(text) => Ok(text),
        None => String::from_str(alloc, hint(expected, around)),
    }
}

/// What was found, as people read it.
fn found_text(alloc: Global, found: Option<Token>) -> Result<String, AllocError> {
    match found {
        Some(token) => token_text(alloc, token),
        None => String::from_str(alloc, "the end of the text"),
    }
}

/// What is wrong at a place.
fn what_text(alloc: Global, expected: Expected, around: &Around) -> Result<String, AllocError> {
    if expected == Expected::Shallower {
        return String::from_str(alloc, "the expression is deeper than 64");
    }
    let wanted = expected_text(expected);
    let found = found_text(alloc, around.found)?;
    format!(in alloc; "expected {wanted}, found {found}")
}

/// Whether the token is a name that a `field` item declares.
fn is_field(lexemes: &[Lexeme], token: Option<Token>) -> bool {
    match token {
        Some(Token::Word(word)) => keyword(token).is_none() && declares(lexemes, word),
        _ => false,
    }
}

/// The tokens at the byte `at`.
fn tokens_at<'a>(lexemes: &[Lexeme<'a>], at: u32) -> Around<'a> {
    let index = index_at(lexemes, at);
    let before = token_before(lexemes, index);
    let found = token(lexemes, index);
    Around {
        before,
        found,
        behind: token(lexemes, index.saturating_add(1)),
        follows_field: is_field(lexemes, before),
        finds_field: is_field(lexemes, found),
    }
}

/// What is told of a program's text whose token at a byte cannot stand there.
pub(crate) fn tell_syntax(
    alloc: Global,
    text: &[u8],
    at: u32,
    expected: Expected,
) -> Result<Told, AllocError> {
    let lexemes = read_tokens(alloc, text)?.unwrap_or(Vec::new(alloc));
    let around = tokens_at(&lexemes, at);
    Ok(Told {
        part: Some(Part::Program),
        at: Some(at as usize),
        what: what_text(alloc, expected, &around)?,
        hint: hint_text(alloc, expected, &around)?,
    })
}
