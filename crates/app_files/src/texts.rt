//! What is told of lists of edges and of Matrix Market files.

use crate::lines::{weight_told, words_told};
use app_table::Draft;
use import_formats::edges::{EdgeFault, LineFault};
use import_formats::matrix_market::{MatrixFault, MatrixLineFault};
use import_lines::WordsFault;

/// The line of a fault where it has one, the fault's name, and what is wrong and what to do.
pub type Told = (Option<u64>, &'static str, &'static str);

/// A fault of a line.
pub fn on_line(line: u64, told: (&'static str, &'static str)) -> Told {
    (Some(line), told.0, told.1)
}

/// What is told of headings over numbers.
pub fn heading_told() -> (&'static str, &'static str) {
    (
        "Heading",
        "names stand over numbers here, as headings do (--header passes over this line, --columns 1,2 takes it for an edge)",
    )
}

/// What is wrong with a line of a list of edges.
fn edge_line_told(fault: LineFault) -> (&'static str, &'static str) {
    match fault {
        LineFault::Heading => heading_told(),
        LineFault::Words(fault) => words_told(fault),
        LineFault::EmptyPlace => (
            "EmptyPlace",
            "a place between commas is empty (--delimiter any takes any number of blanks and commas as one)",
        ),
        LineFault::NoColumn => (
            "NoColumn",
            "the line has fewer words than --columns asks for",
        ),
        LineFault::Weight(fault) => weight_told(fault),
    }
}

/// What is wrong with a list of edges.
pub fn edges_told(fault: EdgeFault) -> Told {
    match fault {
        EdgeFault::BadLine { line, fault } => on_line(line, edge_line_told(fault)),
        EdgeFault::Memory => (None, "Memory", ""),
    }
}

/// What is wrong with the header of a Matrix Market file.
fn header_told(fault: MatrixLineFault) -> (&'static str, &'static str) {
    match fault {
        MatrixLineFault::ArrayFormat => (
            "ArrayFormat",
            "expected the format `coordinate`; `array` has a value for each two nodes, and is not taken",
        ),
        MatrixLineFault::UnknownField => (
            "UnknownField",
            "expected the field `pattern`, `integer` or `real`",
        ),
        MatrixLineFault::UnknownSymmetry => (
            "UnknownSymmetry",
            "expected the symmetry `symmetric` or `general`",
        ),
        MatrixLineFault::Directed => (
            "Directed",
            "the edges of a general matrix have a direction (--undirected leaves it aside, and --parallel takes both directions as one; --packed --directed keeps it)",
        ),
        _ => (
            "NoHeader",
            "expected `%%MatrixMarket matrix coordinate FIELD SYMMETRY`",
        ),
    }
}

/// What is wrong with the size line of a Matrix Market file, beside what is told where there are too many nodes.
fn size_told(fault: MatrixLineFault, too_many: &'static str) -> (&'static str, &'static str) {
    match fault {
        MatrixLineFault::NotSquare => (
            "NotSquare",
            "the matrix of a network has as many columns as rows",
        ),
        MatrixLineFault::NoNodes => ("NoNodes", "a network has a node or more"),
        MatrixLineFault::TooManyNodes => ("TooManyNodes", too_many),
        _ => (
            "BadSize",
            "expected the numbers of rows, columns and entries",
        ),
    }
}

/// What is wrong with an entry of a Matrix Market file.
fn entry_told(fault: MatrixLineFault) -> (&'static str, &'static str) {
    match fault {
        MatrixLineFault::Words(WordsFault::OneWord) => (
            "OneWord",
            "expected a row and a column; found one word",
        ),
        MatrixLineFault::Words(WordsFault::TooManyWords) => (
            "TooManyWords",
            "expected a row, a column and a value; found more than three words",
        ),
        MatrixLineFault::Words(fault) => words_told(fault),
        MatrixLineFault::Value(fault) => weight_told(fault),
        MatrixLineFault::NoValue => ("NoValue", "expected a value after the row and the column"),
        MatrixLineFault::ValueInPattern => (
            "ValueInPattern",
            "the entries of a pattern are a row and a column; found a value",
        ),
        _ => (
            "BadIndex",
            "a row or a column is a number from 1 to the number of rows",
        ),
    }
}

/// What is wrong with a line of a Matrix Market file.
fn matrix_line_told(
    fault: MatrixLineFault,
    too_many: &'static str,
) -> (&'static str, &'static str) {
    match fault {
        MatrixLineFault::NoHeader
        | MatrixLineFault::ArrayFormat
        | MatrixLineFault::UnknownField
        | MatrixLineFault::UnknownSymmetry
        | MatrixLineFault::Directed => header_told(fault),
        MatrixLineFault::BadSize
        | MatrixLineFault::NotSquare
        | MatrixLineFault::NoNodes
        | MatrixLineFault::TooManyNodes => size_told(fault, too_many),
        _ => entry_told(fault),
    }
}

/// What is wrong with a Matrix Market file; too_many is told where it has too many nodes.
pub fn matrix_told(fault: MatrixFault, too_many: &'static str) -> Told {
    match fault {
        MatrixFault::BadLine { line, fault } => on_line(line, matrix_line_told(fault, too_many)),
        MatrixFault::NoSize => (
            None,
            "NoSize",
            "expected a line with the numbers of rows, columns and entries after the header",
        ),
        MatrixFault::TooManyEntries { line, .. } => (
            Some(line),
            "TooManyEntries",
            "there are more entries than the size line says",
        ),
        MatrixFault::TooFewEntries { .. } => (
            None,
            "TooFewEntries",
            "there are fewer entries than the size line says",
        ),
        MatrixFault::Memory => (None, "Memory", ""),
    }
}

/// Adds what is told beside a fault of a Matrix Market file: how many entries there are.
pub fn put_matrix_detail(draft: &mut Draft, fault: MatrixFault) {
    match fault {
        MatrixFault::TooManyEntries { said, .. } => {
            draft.put(": ");
            draft.put_count(said);
        }
        MatrixFault::TooFewEntries { said, found } => {
            draft.put(": ");
            draft.put_count(found);
            draft.put(", and ");
            draft.put_count(said);
            draft.put(" were said");
        }
        _ => {}
    }
}
