//! How much of a run a page can hold.

use app_files::Ending;
use app_table::Draft;
use run_page::MOST_VALUES;
use run_watch::Span;
use std::alloc::{AllocError, Global};

/// What is told of rounds with too many values.
fn rounds_too_many(
    alloc: Global,
    span: &Span,
    cells: u64,
    nodes: u64,
) -> Result<String, AllocError> {
    let rounds = span.steps() as u64 + 1;
    let every = ((span.last() - span.first()) as u64) / (MOST_VALUES / cells.max(1)).max(1) + 1;
    let fields = MOST_VALUES / nodes.saturating_mul(rounds).max(1);
    let mut draft = Draft::new(alloc);
    draft.put("page TooManyValues\n");
    draft.put_count(rounds);
    draft.put(" rounds of ");
    draft.put_count(cells);
    draft.put(" values are more than the ");
    draft.put_count(MOST_VALUES);
    draft.put(" of a page; --every ");
    draft.put_count(every);
    draft.put(" fits");
    if fields > 0 {
        draft.put(", and so does --only with at most ");
        draft.put_count(fields);
        draft.put(" of the fields");
    }
    draft.end()
}

/// Refuses rounds whose nodes have together more values of the shown fields than a page holds.
pub(crate) fn check_size(
    alloc: Global,
    nodes: u32,
    span: &Span,
    fields: usize,
) -> Result<(), Ending> {
    let nodes = nodes as u64;
    let cells = nodes.saturating_mul(fields.max(1) as u64);
    let rounds = span.steps() as u64 + 1;
    if cells.saturating_mul(rounds) > MOST_VALUES {
        return Err(Ending::refused(rounds_too_many(alloc, span, cells, nodes)));
    }
    Ok(())
}

/// The ending where steps and the rounds that they show have too many values.
pub(crate) fn steps_too_many(alloc: Global) -> Ending {
    Ending::refused(format!(in alloc;
        "page TooManyValues\nthe steps and the states that they show are more than the {MOST_VALUES} values of a page; take a schedule with fewer steps, a lower --stop, or --only with fewer fields"
    ))
}
