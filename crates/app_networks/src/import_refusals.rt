//! What is told of a text of another format that has no network.

use crate::import_request::Format;
use crate::json_refusals::json_told;
use app_files::{
    Told, edges_told, heading_told, matrix_told, on_line, put_matrix_detail, put_place,
    weight_told, words_told,
};
use app_table::Draft;
use import_formats::dot::{DotFault, DotLineFault, TokenKind};
use import_formats::edges::{EdgeFault, LineFault, RowFault, TableFault};
use import_formats::json::{JsonFault, NodeFault};
use import_formats::matrix_market::{MatrixFault, MatrixLineFault};
use import_lines::{WeightFault, WordsFault};
use import_links::{JoinFault, NumberFault, SettleFault};
use import_network::ImportFault;
use large_pack::PackFault;
use link_net::NetFault;
use std::alloc::{AllocError, Global};

/// What is wrong with the fields of a row of a table.
fn fields_told(fault: WordsFault) -> (&'static str, &'static str) {
    match fault {
        WordsFault::OneWord => (
            "OneField",
            "expected two names and, where it has one, a weight; found one field (--delimiter says what parts them: comma or tab)",
        ),
        WordsFault::TooManyWords => (
            "TooManyFields",
            "expected two names and, where it has one, a weight; found more than three fields (--columns FROM,TO[,WEIGHT] says which are meant)",
        ),
        WordsFault::LongLine => ("LongField", "a field has 65536 bytes at most"),
        _ => words_told(fault),
    }
}

/// What is wrong with a row of a table.
fn row_told(fault: RowFault) -> (&'static str, &'static str) {
    match fault {
        RowFault::Heading => heading_told(),
        RowFault::NoColumn => (
            "NoColumn",
            "the row has fewer fields than --columns asks for",
        ),
        RowFault::UnclosedQuote => (
            "UnclosedQuote",
            "a field that begins with a quote has no closing quote in its line; a quote inside is written twice",
        ),
        RowFault::Words(fault) => fields_told(fault),
        RowFault::Weight(WeightFault::BadWeight) => (
            "BadWeight",
            "the weight is no number; blanks around it count too (--header passes over a line of headings)",
        ),
        RowFault::Weight(fault) => weight_told(fault),
    }
}

/// What is wrong with a list of edges.
fn list_told(fault: EdgeFault) -> Told {
    match fault {
        EdgeFault::BadLine {
            line,
            fault: LineFault::Words(WordsFault::TooManyWords),
        } => (
            Some(line),
            "TooManyWords",
            "expected two names and, where it has one, a weight; found more than three words (--columns FROM,TO[,WEIGHT] says which are meant)",
        ),
        fault => edges_told(fault),
    }
}

/// What is wrong with a table.
fn table_told(fault: TableFault) -> Told {
    match fault {
        TableFault::BadRow { line, fault } => on_line(line, row_told(fault)),
        TableFault::Memory => (None, "Memory", ""),
    }
}

/// What is wrong with the bytes of a text in Graphviz's language.
fn bytes_told(fault: DotLineFault) -> (&'static str, &'static str) {
    match fault {
        DotLineFault::BadByte { .. } => (
            "BadByte",
            "no part of a graph begins with this byte; a name with such bytes stands in quotes, and a comment line has # as its first character",
        ),
        DotLineFault::BadNumeral => (
            "BadNumeral",
            "this begins as a number and is none; a name or a number like this stands in quotes",
        ),
        DotLineFault::NotUtf8 => ("NotUtf8", "a name or a string is not UTF-8"),
        DotLineFault::UnclosedString => (
            "UnclosedString",
            "the string that begins here has no closing quote",
        ),
        DotLineFault::UnclosedComment => (
            "UnclosedComment",
            "the comment that begins here has no `*/`",
        ),
        DotLineFault::UnclosedHtml => (
            "UnclosedHtml",
            "the string that begins here has no closing `>`",
        ),
        DotLineFault::HtmlName => ("HtmlName", "a name in angle brackets is not taken"),
        DotLineFault::Escape => ("Escape", "a name with a backslash is not taken"),
        _ => ("ControlCharacter", "a control character stands in the name"),
    }
}

/// What is wrong with the statements of a text in Graphviz's language.
fn statements_told(fault: DotLineFault) -> (&'static str, &'static str) {
    match fault {
        DotLineFault::UnclosedGraph => (
            "UnclosedGraph",
            "the text ends before the graph does: expected `}`",
        ),
        DotLineFault::Directed => (
            "Directed",
            "the edges of a digraph have a direction (--undirected leaves it aside, and --parallel takes both directions as one)",
        ),
        DotLineFault::WrongEdge => (
            "WrongEdge",
            "an edge is `--` in a graph, and `->` in a digraph",
        ),
        DotLineFault::SubgraphEnd => (
            "SubgraphEnd",
            "a subgraph as an end of an edge is not taken: write an edge for each node",
        ),
        DotLineFault::TooDeep => ("TooDeep", "subgraphs stand in one another 64 deep at most"),
        DotLineFault::NoValue => (
            "NoValue",
            "expected `=` and a value after an attribute's name",
        ),
        DotLineFault::DefaultWeight => (
            "DefaultWeight",
            "a weight for all edges is not taken: write it after each edge",
        ),
        DotLineFault::Syntax { .. } => ("Syntax", "this may not stand here: found "),
        DotLineFault::Weight(fault) => weight_told(fault),
        _ => bytes_told(fault),
    }
}

/// What is wrong with a text in Graphviz's language.
fn dot_told(fault: DotFault) -> Told {
    match fault {
        DotFault::BadLine { line, fault } => on_line(line, statements_told(fault)),
        DotFault::Memory => (None, "Memory", ""),
    }
}

/// The words for a packed network, or those for a network file.
pub(crate) fn by_form(is_packed: bool, file: &'static str, packed: &'static str) -> &'static str {
    if is_packed { packed } else { file }
}

/// What is wrong with the names of nodes.
fn join_told(is_packed: bool, fault: JoinFault) -> Told {
    match fault {
        JoinFault::BadName { line } => (
            Some(line),
            "BadName",
            "a name has 1 to 65536 bytes, and no control character",
        ),
        JoinFault::TooManyNodes { line } => (
            Some(line),
            "TooManyNodes",
            by_form(
                is_packed,
                "with this name there are more than 65536 nodes",
                "with this name there are more than 4294967295 nodes",
            ),
        ),
        JoinFault::Memory => (None, "Memory", ""),
    }
}

/// What is wrong with names that are to be numbers.
fn numbers_told(is_packed: bool, fault: NumberFault) -> Told {
    match fault {
        NumberFault::NoNumber { line } => (
            Some(line),
            "NoNumber",
            "with --numbers a name is a whole number, the number of a node",
        ),
        NumberFault::NumberTooLarge { line } => (
            Some(line),
            "NumberTooLarge",
            by_form(
                is_packed,
                "the number of a node is 65535 at most",
                "the number of a node is 4294967294 at most",
            ),
        ),
        NumberFault::Memory => (None, "Memory", ""),
    }
}

/// What is wrong with the links of a network.
fn net_told(fault: NetFault) -> Told {
    match fault {
        NetFault::NodeCount => (None, "NoNodes", "there are no nodes"),
        NetFault::TooManyLinks => (None, "TooManyLinks", "a network has 262144 links at most"),
        NetFault::TooManyNeighbours => (
            None,
            "TooManyNeighbours",
            "a node has 4096 neighbours at most",
        ),
        _ => (None, "BadLink", "a link is none of the network"),
    }
}

/// What is wrong with self-loops, parallel edges and links.
fn settle_told(fault: SettleFault) -> Told {
    match fault {
        SettleFault::SelfLoop { line } => (
            Some(line),
            "SelfLoop",
            "a node is joined with itself (--drop-loops drops such edges)",
        ),
        SettleFault::ParallelEdge { line, .. } => (
            Some(line),
            "ParallelEdge",
            "an earlier edge joins these two nodes (--parallel min, max or first keeps one)",
        ),
        SettleFault::Net(fault) => net_told(fault),
        SettleFault::Memory => (None, "Memory", ""),
    }
}

/// What is wrong with the edges of a packed network.
fn packing_told(fault: PackFault) -> Told {
    match fault {
        PackFault::NoNode => (None, "NoNodes", "there are no nodes"),
        PackFault::TooManyEdges => (
            None,
            "TooManyLinks",
            "the nodes would have more than 4294967295 neighbours together",
        ),
        PackFault::Memory => (None, "Memory", ""),
        _ => (None, "BadLink", "a link is none of the network"),
    }
}

/// What is wrong with a text that is to have a network of this form.
pub(crate) fn told_of(is_packed: bool, fault: ImportFault) -> Told {
    match fault {
        ImportFault::Edges(fault) => list_told(fault),
        ImportFault::Table(fault) => table_told(fault),
        ImportFault::Matrix(fault) => matrix_told(
            fault,
            by_form(
                is_packed,
                "a network has 65536 nodes at most",
                "a network has 4294967295 nodes at most",
            ),
        ),
        ImportFault::Dot(fault) => dot_told(fault),
        ImportFault::Json(fault) => json_told(is_packed, fault),
        ImportFault::Join(fault) => join_told(is_packed, fault),
        ImportFault::Numbers(fault) => numbers_told(is_packed, fault),
        ImportFault::Settle(fault) => settle_told(fault),
        ImportFault::Packing(fault) => packing_told(fault),
        ImportFault::Memory => (None, "Memory", ""),
    }
}

/// What a part of a graph is for people.
fn token_text(kind: TokenKind) -> &'static str {
    match kind {
        TokenKind::Name => "a name",
        TokenKind::Quoted => "a string in quotes",
        TokenKind::Html => "a string in angle brackets",
        TokenKind::Strict => "`strict`",
        TokenKind::Graph => "`graph`",
        TokenKind::Digraph => "`digraph`",
        TokenKind::Node => "`node`",
        TokenKind::Edge => "`edge`",
        TokenKind::Subgraph => "`subgraph`",
        TokenKind::BraceOpen => "`{`",
        TokenKind::BraceClose => "`}`",
        TokenKind::BracketOpen => "`[`",
        TokenKind::BracketClose => "`]`",
        TokenKind::Semicolon => "`;`",
        TokenKind::Comma => "`,`",
        TokenKind::Assign => "`=`",
        TokenKind::Colon => "`:`",
        TokenKind::Dashes => "`--`",
        TokenKind::Arrow => "`->`",
        TokenKind::End => "the end",
    }
}

/// Adds what is told beside: the earlier edge of two, how many entries there are, and what was found.
fn put_detail(draft: &mut Draft, fault: ImportFault) {
    match fault {
        ImportFault::Settle(SettleFault::ParallelEdge { first, .. }) => {
            draft.put("; it stands on line ");
            draft.put_count(first);
        }
        ImportFault::Matrix(fault) => put_matrix_detail(draft, fault),
        ImportFault::Dot(
            DotFault::BadLine {
                fault: DotLineFault::Syntax { found },
                ..
            },
        ) => draft.put(token_text(found)),
        _ => {}
    }
}

/// Whether a text says more than a network file may have.
pub(crate) fn is_too_large(fault: ImportFault) -> bool {
    match fault {
        ImportFault::Join(JoinFault::TooManyNodes { .. })
        | ImportFault::Numbers(NumberFault::NumberTooLarge { .. })
        | ImportFault::Settle(
            SettleFault::Net(NetFault::TooManyLinks | NetFault::TooManyNeighbours),
        )
        | ImportFault::Matrix(
            MatrixFault::BadLine {
                fault: MatrixLineFault::TooManyNodes,
                ..
            },
        )
        | ImportFault::Json(
            JsonFault::BadNode {
                fault: NodeFault::TooManyNodes,
                ..
            },
        ) => true,
        _ => false,
    }
}

/// What is told where a text of this format has no network, and after it the way to one, where there is a way.
pub(crate) fn refusal(
    alloc: Global,
    format: Format,
    name: &str,
    is_packed: bool,
    fault: ImportFault,
    way: &str,
) -> Result<String, AllocError> {
    let (line, kind, why) = told_of(is_packed, fault);
    if kind == "Memory" {
        return Err(AllocError);
    }
    let mut draft = Draft::new(alloc);
    draft.put(format.name());
    draft.put(" ");
    draft.put(kind);
    draft.put("\n");
    put_place(&mut draft, name, line);
    draft.put(": ");
    draft.put(why);
    put_detail(&mut draft, fault);
    draft.put(way);
    draft.end()
}
