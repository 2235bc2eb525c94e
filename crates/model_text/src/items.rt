//! From tokens to the items of a model.

ghost use Rattle.std.specs.Prelude.{◌≡◌, ◌++◌, ◌∷◌, [], Some, map};
ghost use Rattle.std.specs.Option.{option_map};
ghost use Rattle.model_text.specs.View.{tree_of, name_of, item_of, items_of, placed_all};
ghost use Rattle.model_text.specs.Causes.{Gives};
ghost use Rattle.model_text.specs.Models.{IsTreeOf};
ghost use Rattle.model_text.specs.Reading.{another_at, names_at, list_at, shallow_at, body_at, states_at, parameters_at, const_item_at, states_item_at, field_item_at, let_item_at, next_item_at, item_at};

use crate::depth::is_within;
use crate::expect::{Ending, assign, behind_comma, brace_open, list_end, name, semicolon};
use crate::fault::Expected;
use crate::keyword::Keyword;
use crate::parse::expression;
use crate::stuck::Stuck;
use crate::token::{Lexeme, Sign, Token};
use crate::tree::{Expr, Item, Name};
use std::alloc::Global;

/// The greatest depth of an expression.
const NESTING: u32 = 100;

/// The name after a comma, where a comma stands here.
#[tactic(auto, unfolding(crate::specs::Reading::another_at))]
fn another<'a>(alloc: Global, tokens: &[Lexeme<'a>]) -> Result<Option<Name>, Stuck>
    ensures { Gives (λ x. option_map name_of x) result (another_at (placed_all tokens.now)) }
{
    let Some(rest) = behind_comma(tokens) else {
        return Ok(None);
    };
    let (next, _) = name(alloc, rest)?;
    Ok(Some(next))
}

/// Names after names, each after a comma, to the closing bracket.
fn names<'t, 'a>(
    alloc: Global,
    end: Ending,
    found: Vec<Name>,
    tokens: &'t [Lexeme<'a>],
) -> Result<(Vec<Name>, &'t [Lexeme<'a>]), Stuck>
    ensures { Gives (λ x. (map name_of x.0.items, placed_all x.1.now)) result (names_at end (map name_of found.items) (placed_all tokens.now)) }
{
    let mut found = found;
    let mut at = 0;
    while let Some(next) = another(alloc, &tokens[at..])? {
        found.push(next)?;
        at += 2;
    }
    let rest = list_end(end, &tokens[at..])?;
    Ok((found, rest))
}

/// Names, to the closing bracket.
#[tactic(auto, unfolding(crate::specs::Reading::list_at))]
fn list<'t, 'a>(
    alloc: Global,
    end: Ending,
    tokens: &'t [Lexeme<'a>],
) -> Result<(Vec<Name>, &'t [Lexeme<'a>]), Stuck>
    ensures { Gives (λ x. (map name_of x.0.items, placed_all x.1.now)) result (list_at end (placed_all tokens.now)) }
{
    let (first, rest) = name(alloc, tokens)?;
    let mut found = Vec::new(alloc);
    found.push(first)?;
    names(alloc, end, found, rest)
}

/// An expression that is no deeper than one of an item may be, and the tokens after it.
#[tactic(auto, unfolding(crate::specs::Reading::shallow_at))]
fn shallow<'t, 'a>(
    alloc: Global,
    tokens: &'t [Lexeme<'a>],
) -> Result<(Expr, &'t [Lexeme<'a>]), Stuck>
    ensures { Gives (λ x. (tree_of x.0, placed_all x.1.now)) result (shallow_at (placed_all tokens.now)) }
{
    let (body, rest) = expression(alloc, NESTING, 0, tokens)?;
    if !is_within(&body, NESTING) {
        return Err(Stuck::before(tokens, Expected::Shallower));
    }
    Ok((body, rest))
}

/// `=`, an expression and `;`.
#[tactic(auto, unfolding(crate::specs::Reading::body_at))]
fn body<'t, 'a>(alloc: Global, tokens: &'t [Lexeme<'a>]) -> Result<(Expr, &'t [Lexeme<'a>]), Stuck>
    ensures { Gives (λ x. (tree_of x.0, placed_all x.1.now)) result (body_at (placed_all tokens.now)) }
{
    let rest = assign(tokens)?;
    let (body, rest) = shallow(alloc, rest)?;
    let rest = semicolon(rest)?;
    Ok((body, rest))
}

/// `: states`, where it stands.
#[tactic(auto, unfolding(crate::specs::Reading::states_at))]
fn states<'t, 'a>(
    alloc: Global,
    tokens: &'t [Lexeme<'a>],
) -> Result<(Option<Name>, &'t [Lexeme<'a>]), Stuck>
    ensures { Gives (λ x. (option_map name_of x.0, placed_all x.1.now)) result (states_at (placed_all tokens.now)) }
{
    match tokens {
        [
            Lexeme {
                token: Token::Sign(Sign::Colon),
                ..
            },
            rest @ ..,
        ] => {
            let (states, rest) = name(alloc, rest)?;
            Ok((Some(states), rest))
        }
        _ => Ok((None, tokens)),
    }
}

/// The parameters of a let, where they stand.
#[tactic(auto, unfolding(crate::specs::Reading::parameters_at))]
fn parameters<'t, 'a>(
    alloc: Global,
    tokens: &'t [Lexeme<'a>],
) -> Result<(Vec<Name>, &'t [Lexeme<'a>]), Stuck>
    ensures { Gives (λ x. (map name_of x.0.items, placed_all x.1.now)) result (parameters_at (placed_all tokens.now)) }
{
    match tokens {
        [
            Lexeme {
                token: Token::Sign(Sign::Open),
                ..
            },
            rest @ ..,
        ] => list(alloc, Ending::Round, rest),
        _ => Ok((Vec::new(alloc), tokens)),
    }
}

/// What follows `const`.
#[tactic(auto, unfolding(crate::specs::Reading::const_item_at))]
fn const_item<'t, 'a>(
    alloc: Global,
    tokens: &'t [Lexeme<'a>],
) -> Result<(Item, &'t [Lexeme<'a>]), Stuck>
    ensures { Gives (λ x. (item_of x.0, placed_all x.1.now)) result (const_item_at (placed_all tokens.now)) }
{
    let (name, rest) = name(alloc, tokens)?;
    let (value, rest) = body(alloc, rest)?;
    Ok((Item::Const { name, value }, rest))
}

/// What follows `states`.
#[tactic(auto, unfolding(crate::specs::Reading::states_item_at))]
fn states_item<'t, 'a>(
    alloc: Global,
    tokens: &'t [Lexeme<'a>],
) -> Result<(Item, &'t [Lexeme<'a>]), Stuck>
    ensures { Gives (λ x. (item_of x.0, placed_all x.1.now)) result (states_item_at (placed_all tokens.now)) }
{
    let (name, rest) = name(alloc, tokens)?;
    let rest = brace_open(rest)?;
    let (members, rest) = list(alloc, Ending::Brace, rest)?;
    Ok((Item::States { name, members }, rest))
}

/// What follows `field`.
#[tactic(auto, unfolding(crate::specs::Reading::field_item_at))]
fn field_item<'t, 'a>(
    alloc: Global,
    tokens: &'t [Lexeme<'a>],
) -> Result<(Item, &'t [Lexeme<'a>]), Stuck>
    ensures { Gives (λ x. (item_of x.0, placed_all x.1.now)) result (field_item_at (placed_all tokens.now)) }
{
    let (name, rest) = name(alloc, tokens)?;
    let (states, rest) = states(alloc, rest)?;
    let (initial, rest) = body(alloc, rest)?;
    let field = Item::Field {
        name,
        states,
        initial,
    };
    Ok((field, rest))
}

/// What follows `let`.
#[tactic(auto, unfolding(crate::specs::Reading::let_item_at))]
fn let_item<'t, 'a>(
    alloc: Global,
    tokens: &'t [Lexeme<'a>],
) -> Result<(Item, &'t [Lexeme<'a>]), Stuck>
    ensures { Gives (λ x. (item_of x.0, placed_all x.1.now)) result (let_item_at (placed_all tokens.now)) }
{
    let (name, rest) = name(alloc, tokens)?;
    let (parameters, rest) = parameters(alloc, rest)?;
    let (body, rest) = body(alloc, rest)?;
    let item = Item::Let {
        name,
        parameters,
        body,
    };
    Ok((item, rest))
}

/// What follows `next`.
#[tactic(auto, unfolding(crate::specs::Reading::next_item_at))]
fn next_item<'t, 'a>(
    alloc: Global,
    tokens: &'t [Lexeme<'a>],
) -> Result<(Item, &'t [Lexeme<'a>]), Stuck>
    ensures { Gives (λ x. (item_of x.0, placed_all x.1.now)) result (next_item_at (placed_all tokens.now)) }
{
    let (name, rest) = name(alloc, tokens)?;
    let (body, rest) = body(alloc, rest)?;
    Ok((Item::Next { name, body }, rest))
}

/// An item, and the tokens after it.
#[tactic(auto, unfolding(crate::specs::Reading::item_at))]
fn item<'t, 'a>(alloc: Global, tokens: &'t [Lexeme<'a>]) -> Result<(Item, &'t [Lexeme<'a>]), Stuck>
    ensures { Gives (λ x. (item_of x.0, placed_all x.1.now)) result (item_at (placed_all tokens.now)) }
{
    let [first, rest @ ..] = tokens else {
        return Err(Stuck::before(tokens, Expected::Item));
    };
    match first.token {
        Token::Keyword(Keyword::Const) => const_item(alloc, rest),
        Token::Keyword(Keyword::States) => states_item(alloc, rest),
        Token::Keyword(Keyword::Field) => field_item(alloc, rest),
        Token::Keyword(Keyword::Let) => let_item(alloc, rest),
        Token::Keyword(Keyword::Next) => next_item(alloc, rest),
        _ => Err(Stuck::before(tokens, Expected::Item)),
    }
}

/// The items that these tokens spell, all of the tokens.
pub fn items<'a>(alloc: Global, tokens: &[Lexeme<'a>]) -> Result<Vec<Item>, Stuck>
    ensures { IsTreeOf (placed_all tokens.now) (λ v. items_of v.items) result }
{
    let mut items = Vec::new(alloc);
    let mut at = 0;
    while at < tokens.len() {
        let (next, rest) = item(alloc, &tokens[at..])?;
        items.push(next)?;
        at = tokens.len() - rest.len();
    }
    Ok(items)
}
