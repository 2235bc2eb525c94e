//! Tables.
ghost use Rattle.std.specs.Prelude.{◌≡◌, map};

use crate::tables::row::Row;
use std::marker::Model;

/// What a report or a replay report says: its round, the names of the fields, and a row for each node.
#[derive(Drop)]
pub struct Table<'a> {
    round: Option<u32>,
    fields: Vec<&'a str>,
    rows: Vec<Row>,
}

impl<'a> Model for Table<'a> {
    ghost use Rattle.std.specs.Prelude.{map};
    ghost use Rattle.report_files.specs.tables.Tables.{TableView};

    ghost Value = { TableView };

    ghost view = { λ a. record { round = a.round; fields = map (λ f. f.now) a.fields.items; rows = a.rows.items } };
}

impl<'a> Table<'a> {
    /// A table of these parts.
    pub(crate) fn new(round: Option<u32>, fields: Vec<&'a str>, rows: Vec<Row>) -> Table<'a>
        ensures parts { result ≡ record { round = round; fields = map (λ f. f.now) fields.entry.items; rows = rows.items } }
    {
        Table {
            round,
            fields,
            rows,
        }
    }

    /// The round of a report; a replay report has none.
    pub fn round(&self) -> Option<u32>
        ensures round { result ≡ self.now.round }
    {
        self.round
    }

    /// The names of the fields, in order.
    pub fn fields(&self) -> &[&'a str]
        ensures fields { map (λ f. f.now) result.now ≡ self.now.fields }
    {
        &self.fields
    }

    /// The rows of the nodes, by rising number from 0.
    pub fn rows(&self) -> &[Row]
        ensures rows { result.now ≡ self.now.rows }
    {
        &self.rows
    }
}
