//! Live cells side by side.

/// Live cells of one state side by side in a row: so many, the first of them in this column.
#[derive(Clone, Copy)]
pub struct Span {
    pub state: u8,
    pub row: u32,
    pub column: u32,
    pub count: u32,
}
