//! What a token says.
ghost use Rattle.std.specs.Prelude.{◌≡◌, ◌+◌, ◌<◌, ◌^◌, length};
ghost use Rattle.std.specs.List.{list_any};
ghost use Rattle.import_formats.specs.dot.Graphs.{is_backslash, is_control, plain_name, mention_in, said, at_line, token_turn};
ghost use Rattle.import_formats.specs.dot.View.{IsGiven, token_of, tokens_left, mention_of, event_of};

use crate::dot::fault::{DotFault, DotLineFault};
use crate::dot::grammar::turn_at;
use crate::dot::state::{Act, State};
use crate::dot::token_kind::TokenKind;
use crate::dot::tokens::{Token, Tokens};
use import_lines::{Mention, Weight, read_weight};

/// What a token says.
#[derive(Clone, Copy)]
pub(crate) enum Event<'a> {
    /// Nothing.
    Nothing,
    /// The first node of a statement.
    Begins(Mention<'a>),
    /// The next node of a chain.
    Joins(Mention<'a>),
    /// The weight of a statement's edges.
    Weighs(Weight),
}

/// Whether a backslash stands in the bytes.
fn has_backslash(bytes: &[u8]) -> bool
    ensures { result ≡ list_any is_backslash bytes.now }
{
    for byte in bytes {
        if *byte == b'\\' {
            return true;
        }
    }
    false
}

/// Whether a control character stands in the bytes.
fn has_control(bytes: &[u8]) -> bool
    ensures { result ≡ list_any is_control bytes.now }
{
    for byte in bytes {
        if *byte < 32 || *byte == 127 {
            return true;
        }
    }
    false
}

/// A node's name without backslashes and control characters.
fn plain_name(text: &str, line: u64) -> Result<Mention<'_>, DotLineFault>
    ensures { IsGiven mention_of (plain_name text.now line) result }
{
    if has_backslash(text.as_bytes()) {
        return Err(DotLineFault::Escape);
    }
    if has_control(text.as_bytes()) {
        return Err(DotLineFault::ControlCharacter);
    }
    Ok(Mention { name: text, line })
}

/// The node that a token names.
fn mention(kind: TokenKind, text: &str, line: u64) -> Result<Mention<'_>, DotLineFault>
    ensures { IsGiven mention_of (mention_in kind text.now line) result }
{
    match kind {
        TokenKind::Html => Err(DotLineFault::HtmlName),
        _ => plain_name(text, line),
    }
}

/// What a token says by what it does.
fn said(
    factor: Option<u32>,
    act: Act,
    kind: TokenKind,
    text: &str,
    line: u64,
) -> Result<Event<'_>, DotLineFault>
    ensures { IsGiven event_of (said factor act kind text.now line) result }
{
    match act {
        Act::Pass => Ok(Event::Nothing),
        Act::Begin => Ok(Event::Begins(mention(kind, text, line)?)),
        Act::More => Ok(Event::Joins(mention(kind, text, line)?)),
        Act::Weigh => match read_weight(text, factor) {
            Ok(weight) => Ok(Event::Weighs(weight)),
            Err(fault) => Err(DotLineFault::Weight(fault)),
        },
    }
}

/// The state after a token, and what the token says; or its fault.
fn token_turn<'a>(
    undirected: bool,
    factor: Option<u32>,
    state: State,
    token: Token<'a>,
    ahead: Tokens<'a>,
) -> Result<(State, Event<'a>), DotLineFault>
    requires { ahead.line + length ahead.bytes.now < 2 ^ 64 }
    ensures { IsGiven (λ x. (x.0, event_of x.1)) (token_turn undirected factor state (token_of token.entry) (tokens_left ahead.entry)) result }
{
    let kind = token.kind?;
    let (next, act) = turn_at(undirected, state, kind, token.text, ahead)?;
    let event = said(factor, act, kind, token.text, token.line)?;
    Ok((next, event))
}

/// The same, a fault beside its line.
pub(crate) fn turn<'a>(
    undirected: bool,
    factor: Option<u32>,
    state: State,
    token: Token<'a>,
    ahead: Tokens<'a>,
) -> Result<(State, Event<'a>), DotFault>
    requires { ahead.line + length ahead.bytes.now < 2 ^ 64 }
    ensures { IsGiven (λ x. (x.0, event_of x.1)) (at_line token.entry.line (token_turn undirected factor state (token_of token.entry) (tokens_left ahead.entry))) result }
{
    match token_turn(undirected, factor, state, token, ahead) {
        Ok(told) => Ok(told),
        Err(fault) => Err(DotFault::BadLine {
            line: token.line,
            fault,
        }),
    }
}
