//! Rows of tables.

use rule_check::State;

/// What a table says of a node: how often it has moved, in a replay report alone, and the values of its fields, in
/// order, which are the front of the state's words.
#[derive(Clone, Copy)]
pub struct Row {
    pub moves: Option<u32>,
    pub state: State,
}
