//! The kinds of tokens.
ghost use Rattle.std.specs.Prelude.{◌≡◌};
ghost use Rattle.import_formats.specs.dot.Lexing.{word_kind};

/// The kind of a token of a DOT text.
#[derive(Clone, Copy, Debug, PartialEq, Eq)]
pub enum TokenKind {
    /// A word that is no keyword, or a numeral.
    Name,
    /// A string in double quotes.
    Quoted,
    /// A string in angle brackets.
    Html,
    /// The keyword `strict`.
    Strict,
    /// The keyword `graph`.
    Graph,
    /// The keyword `digraph`.
    Digraph,
    /// The keyword `node`.
    Node,
    /// The keyword `edge`.
    Edge,
    /// The keyword `subgraph`.
    Subgraph,
    /// `{`
    BraceOpen,
    /// `}`
    BraceClose,
    /// `[`
    BracketOpen,
    /// `]`
    BracketClose,
    /// `;`
    Semicolon,
    /// `,`
    Comma,
    /// `=`
    Assign,
    /// `:`
    Colon,
    /// `--`
    Dashes,
    /// `->`
    Arrow,
    /// The end of the text.
    End,
}

/// The kind of a word: a keyword, in any case, or a name.
pub(crate) fn word_kind(word: &[u8]) -> TokenKind
    ensures { result ≡ word_kind word.now }
{
    if word.eq_ignore_ascii_case(b"strict") {
        TokenKind::Strict
    } else if word.eq_ignore_ascii_case(b"graph") {
        TokenKind::Graph
    } else if word.eq_ignore_ascii_case(b"digraph") {
        TokenKind::Digraph
    } else if word.eq_ignore_ascii_case(b"node") {
        TokenKind::Node
    } else if word.eq_ignore_ascii_case(b"edge") {
        TokenKind::Edge
    } else if word.eq_ignore_ascii_case(b"subgraph") {
        TokenKind::Subgraph
    } else {
        TokenKind::Name
    }
}
