//! Live cells of a grid, written span by span.
ghost use Rattle.std.specs.Prelude.{◌≡◌, ◌≤◌, ◌+◌, ◌++◌, ◌∷◌, [], List, ℕ, true, length, string_bytes, nat_le, OnOk, IfOk};
ghost use Rattle.std.specs.List.{list_all};
ghost use Rattle.net_patterns.specs.declared.span.Span.{Span};
ghost use Rattle.net_patterns.specs.OnGrids.{goes_on, no_span, span_at, spans_from, spelling_of};
ghost use Rattle.net_patterns.specs.Written.{column_at, written_from};

use crate::span::Span;
use crate::spelling::{Kind, put_alive, put_dead, put_ending, put_row_ends};
use std::alloc::AllocError;

/// A span of no cell, at the top left.
const NO_SPAN: Span = Span {
    state: 1,
    row: 0,
    column: 0,
    count: 0,
};

/// A text that is written so far.
#[derive(Drop)]
pub(crate) struct Writer {
    /// What stands there.
    pub(crate) out: String,
    /// Its kind.
    pub(crate) kind: Kind,
    /// The column and the row where what follows stands.
    pub(crate) column: u32,
    pub(crate) row: u32,
}

/// The column where a text goes on in a span's row.
fn column_at(column: u32, row: u32, span: &Span) -> u32
    ensures { result ≡ column_at column row span.now }
{
    if span.row == row { column } else { 0 }
}

/// A span that a live cell at a node begins.
fn span_at(width: u32, node: u32, value: u32) -> Span
    requires width { 1 ≤ width }
    requires value { value ≤ 255 }
    ensures { result ≡ span_at width node value }
{
    Span {
        state: value as u8,
        row: node / width,
        column: node % width,
        count: 1,
    }
}

/// Whether a live cell at a node goes on with a span.
fn goes_on(width: u32, node: u32, value: u32, span: &Span) -> bool
    requires width { 1 ≤ width }
    requires near { span.now.column + span.now.count ≤ 65536 }
    ensures { result ≡ goes_on width node value span.now }
{
    node / width == span.row
        && node % width == span.column + span.count
        && value == u32::from(span.state)
}

impl Writer {
    /// Writes a span.
    fn put_span(&mut self, span: &Span) -> Result<(), AllocError>
        requires state { 1 ≤ span.now.state }
        requires near { span.now.column + span.now.count ≤ 65536 }
        ensures kind { self.new.kind ≡ self.old.kind }
        ensures text { OnOk result ((spans : List Span) → string_bytes self.new.out ++ written_from (spelling_of self.old.kind) self.new.column self.new.row spans ≡ string_bytes self.old.out ++ written_from (spelling_of self.old.kind) self.old.column self.old.row (span.now ∷ spans)) }
    {
        let begin = column_at(self.column, self.row, span);
        let kind = self.kind;
        put_row_ends(&mut self.out, kind, span.row.saturating_sub(self.row))?;
        put_dead(&mut self.out, kind, span.column.saturating_sub(begin))?;
        put_alive(&mut self.out, kind, span.state, span.count)?;
        self.column = span.column + span.count;
        self.row = span.row;
        Ok(())
    }

    /// Takes the value of a node after a span that may go on, and writes the span where it does not. The span that may
    /// go on then.
    fn put_value(
        &mut self,
        span: Span,
        width: u32,
        node: u32,
        value: u32,
    ) -> Result<Span, AllocError>
        requires width { 1 ≤ width }
        requires node { node ≤ 65535 }
        requires value { value ≤ 255 }
        requires state { 1 ≤ span.state }
        requires near { span.column + span.count ≤ 65536 }
        ensures kind { self.new.kind ≡ self.old.kind }
        ensures state { IfOk result (λ next. 1 ≤ next.state) }
        ensures near { IfOk result (λ next. next.column + next.count ≤ 65536) }
        ensures text { IfOk result (λ next. (values : List ℕ) → string_bytes self.new.out ++ written_from (spelling_of self.old.kind) self.new.column self.new.row (spans_from width (node + 1) next values) ≡ string_bytes self.old.out ++ written_from (spelling_of self.old.kind) self.old.column self.old.row (spans_from width node span (value ∷ values))) }
    {
        if value == 0 {
            return Ok(span);
        }
        if goes_on(width, node, value, &span) {
            return Ok(Span {
                count: span.count + 1,
                ..span
            });
        }
        self.put_span(&span)?;
        Ok(span_at(width, node, value))
    }

    /// Writes the last span, and the end.
    fn put_last(&mut self, span: &Span) -> Result<(), AllocError>
        requires state { 1 ≤ span.now.state }
        requires near { span.now.column + span.now.count ≤ 65536 }
        ensures text { OnOk result (string_bytes self.new.out ≡ string_bytes self.old.out ++ written_from (spelling_of self.old.kind) self.old.column self.old.row (span.now ∷ [])) }
    {
        self.put_span(span)?;
        put_ending(&mut self.out, self.kind)?;
        Ok(())
    }

    /// Writes the cells of the values of all nodes, and the end.
    pub(crate) fn put_cells(&mut self, values: &[u32], width: u32) -> Result<(), AllocError>
        requires width { 1 ≤ width }
        requires nodes { length values.now ≤ 65536 }
        requires states { list_all (λ v. nat_le v 255) values.now ≡ true }
        ensures text { OnOk result (string_bytes self.new.out ≡ string_bytes self.old.out ++ written_from (spelling_of self.old.kind) self.old.column self.old.row (spans_from width 0 no_span values.now)) }
    {
        let mut span = NO_SPAN;
        for (node, value) in values.iter().enumerate() {
            span = self.put_value(span, width, node as u32, *value)?;
        }
        self.put_last(&span)
    }
}
