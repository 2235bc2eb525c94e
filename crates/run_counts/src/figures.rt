//! Sums and extremes of the values of a field.
ghost use Rattle.std.specs.Prelude.{◌≡◌, ◌<◌, ◌^◌, IfOk, length, sum};
ghost use Rattle.rule_lang.specs.declared.tree.Agg.TheVariants as agg;
ghost use Rattle.rule_check.specs.Table.{gather};
ghost use Rattle.rounds_walk.specs.Columns.{column};
ghost use Rattle.run_counts.specs.Figures.{figure_of, figures_of};

use crate::asked::{Figure, FigureKind};
use rule_check::State;
use std::alloc::{AllocError, Global};

/// The sum of the values of a field.
fn sum_of(states: &[State], field: u32) -> u64
    requires few { length states.now < 2 ^ 32 }
    ensures sum { result ≡ sum (column field states.now) }
{
    let mut total: u64 = 0;
    for state in states {
        total += u64::from(state.value(field));
    }
    total
}

/// The least value of a field.
fn least_of(states: &[State], field: u32) -> u32
    ensures least { result ≡ gather agg.Least (column field states.now) }
{
    let mut least = u32::MAX;
    for state in states {
        least = least.min(state.value(field));
    }
    least
}

/// The greatest value of a field.
fn most_of(states: &[State], field: u32) -> u32
    ensures most { result ≡ gather agg.Most (column field states.now) }
{
    let mut most = 0;
    for state in states {
        most = most.max(state.value(field));
    }
    most
}

/// A figure of a round in which the nodes have these states.
fn figure_of(states: &[State], figure: Figure) -> u64
    requires few { length states.now < 2 ^ 32 }
    ensures number { result ≡ figure_of states.now figure }
{
    match figure.kind {
        FigureKind::Sum => sum_of(states, figure.field),
        FigureKind::Least => u64::from(least_of(states, figure.field)),
        FigureKind::Most => u64::from(most_of(states, figure.field)),
    }
}

/// The figures of a round in which the nodes have these states, each beside what it is.
pub(crate) fn figures_of(
    alloc: Global,
    states: &[State],
    figures: &[Figure],
) -> Result<Vec<(Figure, u64)>, AllocError>
    requires few { length states.now < 2 ^ 32 }
    ensures numbers { IfOk result (λ numbers. numbers.items ≡ figures_of states.now figures.now) }
{
    let mut numbers = Vec::new(alloc);
    for figure in figures {
        numbers.push((*figure, figure_of(states, *figure)))?;
    }
    Ok(numbers)
}
