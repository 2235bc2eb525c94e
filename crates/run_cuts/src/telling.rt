//! Which operators are counted, and what is told of them.
ghost use Rattle.std.specs.Prelude.{◌≡◌, map, IfOk};
ghost use Rattle.std.specs.List.{enumerate_from, filter, flat_map};
ghost use Rattle.run_cuts.specs.Cuts.{is_asked as is_asked_lem, kind_of as kind_of_lem};
ghost use Rattle.run_cuts.specs.Counting.{form_of, fresh, told_by};

use crate::cut::{Cut, Kind};
use crate::operators::{Form, Operator};
use crate::tally::{Counted, Tally};
use std::alloc::{AllocError, Global};

/// Which operator this is.
fn kind_of(form: Form<'_>) -> Kind
    ensures exact { result ≡ kind_of_lem (form_of form.entry) }
{
    match form {
        Form::Sum(_, _) => Kind::Sum,
        Form::Difference(_, _) => Kind::Difference,
        Form::Product(_, _) => Kind::Product,
        Form::Total(_) => Kind::Total,
    }
}

/// Whether it is told.
fn is_asked(below: bool, form: Form<'_>) -> bool
    ensures exact { result ≡ is_asked_lem below (form_of form.entry) }
{
    match form {
        Form::Difference(_, _) => below,
        _ => true,
    }
}

/// The operators that are asked for, each with its number and without an occasion.
pub(crate) fn counted_of<'a>(
    alloc: Global,
    operators: &[Operator<'a>],
    below: bool,
) -> Result<Vec<Counted<'a>>, AllocError>
    ensures asked { IfOk result (λ v. v.items ≡ map fresh (filter (λ x. is_asked_lem below (form_of x.1.form)) (enumerate_from 0 operators.now))) }
{
    let mut counted = Vec::new(alloc);
    for (number, operator) in operators.iter().enumerate() {
        if is_asked(below, operator.form) {
            counted.push(Counted {
                number,
                operator: *operator,
                tally: Tally {
                    times: 0,
                    round: 0,
                    node: 0,
                },
            })?;
        }
    }
    Ok(counted)
}

/// What is told of the operators that were cut.
pub(crate) fn told(alloc: Global, counted: &[Counted<'_>]) -> Result<Vec<Cut>, AllocError>
    ensures told { IfOk result (λ v. v.items ≡ flat_map told_by counted.now) }
{
    let mut cuts = Vec::new(alloc);
    for each in counted {
        if each.tally.times != 0 {
            cuts.push(Cut {
                operator: each.number,
                kind: kind_of(each.operator.form),
                round: each.tally.round,
                node: each.tally.node,
                times: each.tally.times,
            })?;
        }
    }
    Ok(cuts)
}
