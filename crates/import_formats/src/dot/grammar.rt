//! What may stand where in a graph.
ghost use Rattle.std.specs.Prelude.{◌≡◌, ◌+◌, ◌<◌, ◌^◌, length};
ghost use Rattle.import_formats.specs.dot.Grammar.{refused, to, is_assign, assigns, opened, closed, joined, named, defaults, begun, at_start, at_strict, at_title, at_titled, at_statement, at_done, at_closed, at_subgraph, at_subgraph_titled, at_sided, at_ported, at_node, at_any, at_edge_end, at_key, at_brackets, is_weight, keyed, at_list, at_list_key, valued, at_value, is_separator, at_valued, at_listed, at_over, turn_at};
ghost use Rattle.import_formats.specs.dot.View.{tokens_left};

use crate::dot::fault::DotLineFault;
use crate::dot::state::{Act, Owner, Place, State};
use crate::dot::token_kind::TokenKind;
use crate::dot::tokens::Tokens;

/// Subgraphs are nested so deep at most.
const MOST_DEPTH: u32 = 64;

/// To a place.
fn to(state: State, place: Place) -> Result<(State, Act), DotLineFault>
    ensures { result ≡ to state place }
{
    Ok((State { place, ..state }, Act::Pass))
}

/// A token that may not stand here.
fn refused(kind: TokenKind) -> Result<(State, Act), DotLineFault>
    ensures { result ≡ refused kind }
{
    match kind {
        TokenKind::End => Err(DotLineFault::UnclosedGraph),
        _ => Err(DotLineFault::Syntax { found: kind }),
    }
}

/// Whether the next token is `=`.
fn assigns(ahead: Tokens<'_>) -> bool
    requires { ahead.line + length ahead.bytes.now < 2 ^ 64 }
    ensures { result ≡ assigns (tokens_left ahead.entry) }
{
    let mut rest = ahead;
    match rest.next_token() {
        Some(token) => match token.kind {
            Ok(TokenKind::Assign) => true,
            _ => false,
        },
        None => false,
    }
}

/// A brace opens a subgraph.
fn opened(state: State) -> Result<(State, Act), DotLineFault>
    ensures { result ≡ opened state }
{
    if state.depth < MOST_DEPTH {
        let deeper = State {
            place: Place::Statement,
            depth: state.depth + 1,
            ..state
        };
        Ok((deeper, Act::Pass))
    } else {
        Err(DotLineFault::TooDeep)
    }
}

/// A brace closes a subgraph, or the graph.
fn closed(state: State) -> Result<(State, Act), DotLineFault>
    ensures { result ≡ closed state }
{
    if state.depth == 0 {
        return to(state, Place::Over);
    }
    let higher = State {
        place: Place::Closed,
        depth: state.depth - 1,
        ..state
    };
    Ok((higher, Act::Pass))
}

/// The sign of an edge in a directed graph, or in one that is not.
fn joined(state: State, directed: bool) -> Result<(State, Act), DotLineFault>
    ensures { result ≡ joined state directed }
{
    if directed == state.directed {
        to(state, Place::EdgeEnd)
    } else {
        Err(DotLineFault::WrongEdge)
    }
}

/// A name at the beginning of a statement.
fn named(state: State, ahead: Tokens<'_>) -> Result<(State, Act), DotLineFault>
    requires { ahead.line + length ahead.bytes.now < 2 ^ 64 }
    ensures { result ≡ named state (tokens_left ahead.entry) }
{
    if assigns(ahead) {
        return to(state, Place::Key);
    }
    let node = State {
        place: Place::Node,
        owner: Owner::Node,
        ..state
    };
    Ok((node, Act::Begin))
}

/// Brackets that say how what stands after them looks.
fn defaults(state: State, owner: Owner) -> Result<(State, Act), DotLineFault>
    ensures { result ≡ defaults state owner }
{
    let brackets = State {
        place: Place::Brackets,
        owner,
        ..state
    };
    Ok((brackets, Act::Pass))
}

/// A graph of this kind.
fn begun(state: State, directed: bool) -> Result<(State, Act), DotLineFault>
    ensures { result ≡ begun state directed }
{
    let title = State {
        place: Place::Title,
        directed,
        ..state
    };
    Ok((title, Act::Pass))
}

/// At the text's start.
fn at_start(undirected: bool, state: State, kind: TokenKind) -> Result<(State, Act), DotLineFault>
    ensures { result ≡ at_start undirected state kind }
{
    match kind {
        TokenKind::Strict => to(state, Place::Strict),
        TokenKind::Graph => begun(state, false),
        TokenKind::Digraph => {
            if undirected {
                begun(state, true)
            } else {
                Err(DotLineFault::Directed)
            }
        }
        _ => refused(kind),
    }
}

/// Behind `strict`.
fn at_strict(undirected: bool, state: State, kind: TokenKind) -> Result<(State, Act), DotLineFault>
    ensures { result ≡ at_strict undirected state kind }
{
    match kind {
        TokenKind::Strict => refused(kind),
        _ => at_start(undirected, state, kind),
    }
}

/// Behind `graph`: its name, or its opening brace.
fn at_title(state: State, kind: TokenKind) -> Result<(State, Act), DotLineFault>
    ensures { result ≡ at_title state kind }
{
    match kind {
        TokenKind::BraceOpen => to(state, Place::Statement),
        _ => at_any(state, Place::Titled, kind),
    }
}

/// Behind the graph's name.
fn at_titled(state: State, kind: TokenKind) -> Result<(State, Act), DotLineFault>
    ensures { result ≡ at_titled state kind }
{
    match kind {
        TokenKind::BraceOpen => to(state, Place::Statement),
        _ => refused(kind),
    }
}

/// A name or a value, whatever it is.
fn at_any(state: State, place: Place, kind: TokenKind) -> Result<(State, Act), DotLineFault>
    ensures { result ≡ at_any state place kind }
{
    match kind {
        TokenKind::Name | TokenKind::Quoted | TokenKind::Html => to(state, place),
        _ => refused(kind),
    }
}

/// A statement, or a closing brace.
fn at_statement(
    state: State,
    ahead: Tokens<'_>,
    kind: TokenKind,
) -> Result<(State, Act), DotLineFault>
    requires { ahead.line + length ahead.bytes.now < 2 ^ 64 }
    ensures { result ≡ at_statement state (tokens_left ahead.entry) kind }
{
    match kind {
        TokenKind::Name | TokenKind::Quoted | TokenKind::Html => named(state, ahead),
        TokenKind::Graph | TokenKind::Node => defaults(state, Owner::Other),
        TokenKind::Edge => defaults(state, Owner::EdgeDefault),
        TokenKind::Subgraph => to(state, Place::Subgraph),
        TokenKind::BraceOpen => opened(state),
        TokenKind::BraceClose => closed(state),
        _ => refused(kind),
    }
}

/// Behind a statement.
fn at_done(state: State, ahead: Tokens<'_>, kind: TokenKind) -> Result<(State, Act), DotLineFault>
    requires { ahead.line + length ahead.bytes.now < 2 ^ 64 }
    ensures { result ≡ at_done state (tokens_left ahead.entry) kind }
{
    match kind {
        TokenKind::Semicolon => to(state, Place::Statement),
        _ => at_statement(state, ahead, kind),
    }
}

/// Behind a subgraph.
fn at_closed(state: State, ahead: Tokens<'_>, kind: TokenKind) -> Result<(State, Act), DotLineFault>
    requires { ahead.line + length ahead.bytes.now < 2 ^ 64 }
    ensures { result ≡ at_closed state (tokens_left ahead.entry) kind }
{
    match kind {
        TokenKind::Dashes | TokenKind::Arrow => Err(DotLineFault::SubgraphEnd),
        _ => at_done(state, ahead, kind),
    }
}

/// Behind `subgraph`: its name, or its opening brace.
fn at_subgraph(state: State, kind: TokenKind) -> Result<(State, Act), DotLineFault>
    ensures { result ≡ at_subgraph state kind }
{
    match kind {
        TokenKind::BraceOpen => opened(state),
        _ => at_any(state, Place::SubgraphTitled, kind),
    }
}

/// Behind a subgraph's name.
fn at_subgraph_titled(state: State, kind: TokenKind) -> Result<(State, Act), DotLineFault>
    ensures { result ≡ at_subgraph_titled state kind }
{
    match kind {
        TokenKind::BraceOpen => opened(state),
        _ => refused(kind),
    }
}

/// Behind a node with all of its ports.
fn at_sided(state: State, ahead: Tokens<'_>, kind: TokenKind) -> Result<(State, Act), DotLineFault>
    requires { ahead.line + length ahead.bytes.now < 2 ^ 64 }
    ensures { result ≡ at_sided state (tokens_left ahead.entry) kind }
{
    match kind {
        TokenKind::Dashes => joined(state, false),
        TokenKind::Arrow => joined(state, true),
        TokenKind::BracketOpen => to(state, Place::List),
        _ => at_done(state, ahead, kind),
    }
}

/// Behind a node's first port.
fn at_ported(state: State, ahead: Tokens<'_>, kind: TokenKind) -> Result<(State, Act), DotLineFault>
    requires { ahead.line + length ahead.bytes.now < 2 ^ 64 }
    ensures { result ≡ at_ported state (tokens_left ahead.entry) kind }
{
    match kind {
        TokenKind::Colon => to(state, Place::Side),
        _ => at_sided(state, ahead, kind),
    }
}

/// Behind a node's name.
fn at_node(state: State, ahead: Tokens<'_>, kind: TokenKind) -> Result<(State, Act), DotLineFault>
    requires { ahead.line + length ahead.bytes.now < 2 ^ 64 }
    ensures { result ≡ at_node state (tokens_left ahead.entry) kind }
{
    match kind {
        TokenKind::Colon => to(state, Place::Port),
        _ => at_sided(state, ahead, kind),
    }
}

/// Behind an edge's sign: a node.
fn at_edge_end(state: State, kind: TokenKind) -> Result<(State, Act), DotLineFault>
    ensures { result ≡ at_edge_end state kind }
{
    match kind {
        TokenKind::Name | TokenKind::Quoted | TokenKind::Html => {
            let node = State {
                place: Place::Node,
                owner: Owner::Edge,
                ..state
            };
            Ok((node, Act::More))
        }
        TokenKind::Subgraph | TokenKind::BraceOpen => Err(DotLineFault::SubgraphEnd),
        _ => refused(kind),
    }
}

/// Behind a name where `=` stands.
fn at_key(state: State, kind: TokenKind) -> Result<(State, Act), DotLineFault>
    ensures { result ≡ at_key state kind }
{
    match kind {
        TokenKind::Assign => to(state, Place::Setting),
        _ => refused(kind),
    }
}

/// Before the brackets of attributes of all nodes, of all edges, or of the graph.
fn at_brackets(state: State, kind: TokenKind) -> Result<(State, Act), DotLineFault>
    ensures { result ≡ at_brackets state kind }
{
    match kind {
        TokenKind::BracketOpen => to(state, Place::List),
        _ => refused(kind),
    }
}

/// An attribute that is the weight, or another.
fn keyed(state: State, weighs: bool) -> Result<(State, Act), DotLineFault>
    ensures { result ≡ keyed state weighs }
{
    if weighs && matches!(state.owner, Owner::EdgeDefault) {
        return Err(DotLineFault::DefaultWeight);
    }
    let key = State {
        place: Place::ListKey,
        weighs,
        ..state
    };
    Ok((key, Act::Pass))
}

/// In brackets.
fn at_list(state: State, text: &str, kind: TokenKind) -> Result<(State, Act), DotLineFault>
    ensures { result ≡ at_list state text.now kind }
{
    match kind {
        TokenKind::Name | TokenKind::Quoted => keyed(state, text == "weight"),
        TokenKind::Html => keyed(state, false),
        TokenKind::BracketClose => to(state, Place::Listed),
        _ => refused(kind),
    }
}

/// Behind an attribute's name.
fn at_list_key(state: State, kind: TokenKind) -> Result<(State, Act), DotLineFault>
    ensures { result ≡ at_list_key state kind }
{
    match kind {
        TokenKind::Assign => to(state, Place::Value),
        TokenKind::End => Err(DotLineFault::UnclosedGraph),
        _ => Err(DotLineFault::NoValue),
    }
}

/// An attribute's value is given.
fn valued(state: State) -> Result<(State, Act), DotLineFault>
    ensures { result ≡ valued state }
{
    let behind = State {
        place: Place::Valued,
        ..state
    };
    if state.weighs && matches!(state.owner, Owner::Edge) {
        Ok((behind, Act::Weigh))
    } else {
        Ok((behind, Act::Pass))
    }
}

/// Behind an attribute's `=`.
fn at_value(state: State, kind: TokenKind) -> Result<(State, Act), DotLineFault>
    ensures { result ≡ at_value state kind }
{
    match kind {
        TokenKind::Name | TokenKind::Quoted | TokenKind::Html => valued(state),
        _ => refused(kind),
    }
}

/// Whether a token is a semicolon or a comma.
fn is_separator(kind: TokenKind) -> bool
    ensures { result ≡ is_separator kind }
{
    matches!(kind, TokenKind::Semicolon | TokenKind::Comma)
}

/// Behind an attribute.
fn at_valued(state: State, text: &str, kind: TokenKind) -> Result<(State, Act), DotLineFault>
    ensures { result ≡ at_valued state text.now kind }
{
    if is_separator(kind) {
        to(state, Place::List)
    } else {
        at_list(state, text, kind)
    }
}

/// Behind a closing bracket.
fn at_listed(state: State, ahead: Tokens<'_>, kind: TokenKind) -> Result<(State, Act), DotLineFault>
    requires { ahead.line + length ahead.bytes.now < 2 ^ 64 }
    ensures { result ≡ at_listed state (tokens_left ahead.entry) kind }
{
    match kind {
        TokenKind::BracketOpen => to(state, Place::List),
        _ => at_done(state, ahead, kind),
    }
}

/// Behind the graph.
fn at_over(state: State, kind: TokenKind) -> Result<(State, Act), DotLineFault>
    ensures { result ≡ at_over state kind }
{
    match kind {
        TokenKind::End => to(state, Place::Finish),
        _ => refused(kind),
    }
}

/// One token, of this kind and text, with those after it.
pub(crate) fn turn_at(
    undirected: bool,
    state: State,
    kind: TokenKind,
    text: &str,
    ahead: Tokens<'_>,
) -> Result<(State, Act), DotLineFault>
    requires { ahead.line + length ahead.bytes.now < 2 ^ 64 }
    ensures { result ≡ turn_at state.place undirected state kind text.now (tokens_left ahead.entry) }
{
    match state.place {
        Place::Start => at_start(undirected, state, kind),
        Place::Strict => at_strict(undirected, state, kind),
        Place::Title => at_title(state, kind),
        Place::Titled => at_titled(state, kind),
        Place::Statement => at_statement(state, ahead, kind),
        Place::Done => at_done(state, ahead, kind),
        Place::Closed => at_closed(state, ahead, kind),
        Place::Subgraph => at_subgraph(state, kind),
        Place::SubgraphTitled => at_subgraph_titled(state, kind),
        Place::Node => at_node(state, ahead, kind),
        Place::Port => at_any(state, Place::Ported, kind),
        Place::Ported => at_ported(state, ahead, kind),
        Place::Side => at_any(state, Place::Sided, kind),
        Place::Sided => at_sided(state, ahead, kind),
        Place::EdgeEnd => at_edge_end(state, kind),
        Place::Key => at_key(state, kind),
        Place::Setting => at_any(state, Place::Done, kind),
        Place::Brackets => at_brackets(state, kind),
        Place::List => at_list(state, text, kind),
        Place::ListKey => at_list_key(state, kind),
        Place::Value => at_value(state, kind),
        Place::Valued => at_valued(state, text, kind),
        Place::Listed => at_listed(state, ahead, kind),
        Place::Over => at_over(state, kind),
        Place::Finish => refused(kind),
    }
}
