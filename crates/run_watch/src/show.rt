//! How rounds are shown.

/// The form of the text.
#[derive(Clone, Copy)]
pub enum Format {
    /// Reports, one after the other.
    Report,
    /// CSV: a record of headings, `round`, `node` and the fields, and a record for each node in each round.
    Csv,
    /// A JSON object on each line, for each node in each round: its members are `round`, `node` and the fields.
    Json,
}

/// What is shown of each round.
#[derive(Clone, Copy)]
pub struct Show<'a> {
    /// The form of the text.
    pub format: Format,
    /// The places of the fields that are shown, in this order.
    pub fields: &'a [u32],
    /// What stands for a node, by its number; for a node past the last its number.
    pub labels: &'a [String],
    /// In CSV and JSON, what stands for a value of a field: for each field of the program, in order, words that name its
    /// values, 0 and so on. A value past the last of them is its number, as are all of a field past the last.
    pub names: &'a [Vec<String>],
    /// Whether, from the second round that is shown on, only nodes are shown that have another value in a shown field than in the
    /// round that was shown before. In reports a line tells how many nodes are shown.
    pub changes: bool,
}
