//! The runs of an ensemble, each counted by itself.
ghost use Rattle.std.specs.Prelude.{◌≡◌, All, IfOk, None};
ghost use Rattle.std.specs.List.{AllZip};
ghost use Rattle.run_counts.specs.Counts.{refusal_of};
ghost use Rattle.run_counts.specs.Ensembles.{IsRunOf};

use crate::asked::Counting;
use crate::ensemble::{Setting, Variant};
use crate::rows::rows_of;
use crate::table::Row;
use rayon::prelude::*;
use rounds_walk::Start;
use run_watch::{Progress, Span};
use std::alloc::{AllocError, Global};
use std::marker::Model;
use std::thread::Threads;

/// The rounds of a run, as they are counted. A contract sees its parts.
#[derive(Drop)]
pub(crate) struct Run<'a> {
    settings: &'a [Setting],
    rows: Vec<Row>,
}

impl<'a> Model for Run<'a> {
    ghost use Rattle.run_counts.specs.Ensembles.{RunView};

    ghost Value = { RunView };

    ghost view = { λ r. record { settings = r.settings.now; rows = r.rows.items } };
}

impl<'a> Run<'a> {
    /// What varies, with its values.
    pub(crate) fn settings(&self) -> &'a [Setting]
        ensures settings { result.now ≡ self.now.settings }
    {
        self.settings
    }

    /// The rounds, in order.
    pub(crate) fn rows(&self) -> &[Row]
        ensures rows { result.now ≡ self.now.rows }
    {
        self.rows.as_slice()
    }
}

/// Who is told how many of several runs are made.
pub trait RunsProgress {
    /// One more run is made. Threads that make runs side by side may tell it at once.
    fn made(&self);
}

/// Nobody is told how far the rounds are.
#[derive(Drop)]
struct Silent;

impl Progress for Silent {
    fn reached(&mut self, _round: u32) {}
}

/// The run of a variant, in one thread.
fn run_of<'a, P: RunsProgress>(
    rt: &(impl Threads + Sync),
    alloc: Global,
    variant: &Variant<'a>,
    span: &Span,
    counting: &Counting<'_>,
    progress: &P,
) -> Result<Run<'a>, AllocError>
    requires fits { refusal_of variant.now.plan.now span.now counting.now ≡ None }
    ensures run { IfOk result (IsRunOf span.now counting.now variant.now) }
{
    let start = Start::new(alloc, variant.plan)?;
    let mut walk = start.walk(alloc)?;
    let rows = rows_of(rt, alloc, &mut walk, span, counting, &mut Silent)?;
    progress.made();
    Ok(Run {
        settings: variant.settings,
        rows,
    })
}

/// The runs of variants, in their order, made side by side by as many threads as there are processors.
pub(crate) fn runs_of<'a, R: Threads + Sync, P: RunsProgress + Sync>(
    rt: &R,
    alloc: Global,
    variants: &[Variant<'a>],
    span: &Span,
    counting: &Counting<'_>,
    progress: &P,
) -> Result<Vec<Run<'a>>, AllocError>
    requires fits { All (λ v. refusal_of v.plan.now span.now counting.now ≡ None) variants.now }
    ensures runs { IfOk result (λ runs. AllZip (IsRunOf span.now counting.now) variants.now runs.items) }
{
    let runs = variants
        .par_iter()
        .with_min_len(1)
        .map(
            |variant: &Variant<'_>| -> Result<Run<'_>, AllocError>
                requires { refusal_of variant.now.plan.now span.now counting.now ≡ None }
                ensures { IfOk result (IsRunOf span.entry.now counting.entry.now variant.now) }
            { run_of(rt, alloc, variant, span, counting, progress) },
        )
        .collect::<Result<Vec<Run<'_>>, AllocError>>(rt, alloc)?;
    runs
}
