//! The text of runs that are counted together.
ghost use Rattle.std.specs.Prelude.{◌≡◌, ◌++◌, IfOk, OnOk, string_bytes};
ghost use Rattle.std.specs.List.{flat_map};
ghost use Rattle.rule_check.specs.Value.{names_of};
ghost use Rattle.run_counts.specs.RunTables.{run_text, runs_opening, runs_text};

use crate::asked::{CountFormat, Counting};
use crate::columns::put_opening;
use crate::ensemble::Setting;
use crate::lines::put_rows;
use crate::runs::Run;
use crate::settings::{head_of, put_names};
use rule_check::Program;
use std::alloc::{AllocError, Global};

/// The table of runs: what varies, what is counted in runs of this program, and which values occur.
#[derive(Clone, Copy)]
pub(crate) struct RunsTable<'a> {
    pub(crate) settings: &'a [Setting],
    pub(crate) program: &'a Program,
    pub(crate) counting: &'a Counting<'a>,
    pub(crate) values: &'a [u32],
}

/// The line of the headings, in CSV.
fn put_runs_opening(
    out: &mut String,
    settings: &[Setting],
    program: &Program,
    counting: &Counting<'_>,
    values: &[u32],
) -> Result<(), AllocError>
    ensures text { OnOk result (string_bytes out.new ≡ string_bytes out.old ++ runs_opening counting.now.format counting.now.names.now settings.now (names_of program.now) counting.now.figures.now values.now) }
{
    if counting.format == CountFormat::Csv {
        put_names(out, settings)?;
    }
    put_opening(out, program, counting, values)
}

/// The lines of a run.
fn put_run(
    alloc: Global,
    out: &mut String,
    table: &RunsTable<'_>,
    run: &Run<'_>,
) -> Result<(), AllocError>
    ensures text { OnOk result (string_bytes out.new ≡ string_bytes out.old ++ run_text table.now.counting.now.format table.now.counting.now.names.now (names_of table.now.program.now) table.now.values.now run.now) }
{
    let head = head_of(alloc, table.counting.format, run.settings())?;
    put_rows(
        out,
        table.counting,
        head.as_str(),
        table.program,
        table.values,
        run.rows(),
    )
}

/// The lines of all runs.
fn put_runs(
    alloc: Global,
    out: &mut String,
    table: &RunsTable<'_>,
    runs: &[Run<'_>],
) -> Result<(), AllocError>
    ensures text { OnOk result (string_bytes out.new ≡ string_bytes out.old ++ flat_map (run_text table.now.counting.now.format table.now.counting.now.names.now (names_of table.now.program.now) table.now.values.now) runs.now) }
{
    for run in runs {
        put_run(alloc, out, table, run)?;
    }
    Ok(())
}

/// The text of runs in which these values occur.
pub(crate) fn runs_table(
    alloc: Global,
    table: &RunsTable<'_>,
    runs: &[Run<'_>],
) -> Result<Vec<u8>, AllocError>
    ensures text { IfOk result (λ v. v.items ≡ runs_text table.now.counting.now.format table.now.counting.now.names.now table.now.settings.now (names_of table.now.program.now) table.now.counting.now.figures.now table.now.values.now runs.now) }
{
    let mut out = String::new(alloc);
    put_runs_opening(
        &mut out,
        table.settings,
        table.program,
        table.counting,
        table.values,
    )?;
    put_runs(alloc, &mut out, table, runs)?;
    Ok(out.into_bytes())
}
