//! `count` of several runs of a model: one for each choice of the values of its constants that have several.
ghost use Rattle.std.specs.Prelude.{◌≡◌, ◌≤◌, IfOk, length};
ghost use Rattle.app_rounds.specs.Requests.{HasRuns, IsMeanSize};

use crate::count::Counted;
use crate::count_request::CountRequest;
use crate::runs_telling::RunsTelling;
use crate::sweep::{Constants, Sweep, places_at, seed_among, settings_at};
use app_commands::{
    Ground, PlanPaths, ProgramText, RunNetwork, RunTexts, ground_on, no_rounds, run_network,
};
use app_files::{Ending, bytes_at, check_model, expanded_by, state_names};
use model_rules::Given;
use rounds_walk::PlanRef;
use run_counts::{Counting, Ensemble, Group, Setting, Variant, counted_runs, mean_counts};
use std::alloc::{AllocError, Global};
use std::thread::Threads;

/// The texts of all runs, each read once.
#[derive(Drop)]
struct Texts {
    model: Vec<u8>,
    /// For each field of the model, in order, the names of its values.
    names: Vec<Vec<String>>,
    constants: Constants,
    network: RunNetwork,
}

/// A run that can be made.
#[derive(Drop)]
struct Run<'a> {
    /// The constants that have several values, with those that they have in it.
    settings: Vec<Setting>,
    ground: Ground<'a>,
}

/// The texts at these paths; the program is to be a model.
fn texts_at(
    rt: &HostRuntime,
    threads: &impl Threads,
    paths: &PlanPaths,
    sweep: &Sweep,
) -> Result<Texts, Ending> {
    check_model(rt.alloc(), paths.program.as_str())?;
    let model = bytes_at(rt, paths.program.as_str())?;
    let network = run_network(rt, threads, paths)?;
    let constants = Constants::of(rt.alloc(), &model, &paths.constants, &sweep.varied)?;
    let names = state_names(rt.alloc(), paths.program.as_str(), &model)?;
    Ok(Texts {
        model,
        names,
        constants,
        network,
    })
}

/// What a run goes over in which the constants have these values.
fn ground_for<'a>(
    rt: &HostRuntime,
    asked: &RunTexts,
    texts: &'a Texts,
    constants: &[Given],
) -> Result<Ground<'a>, Ending> {
    let path = asked.plan.program.as_str();
    let program = expanded_by(rt.alloc(), path, &texts.model, constants)?;
    let text = ProgramText {
        text: &program,
        names: &texts.names,
        seed: asked.start.seed.or(seed_among(constants)).unwrap_or(0),
    };
    ground_on(rt, asked, text, &texts.network)
}

/// The run of a sweep at a place, counted from 0.
fn run_at<'a>(
    rt: &HostRuntime,
    asked: &RunTexts,
    texts: &'a Texts,
    sweep: &Sweep,
    place: usize,
) -> Result<Run<'a>, Ending> {
    let places = places_at(rt.alloc(), sweep, place)?;
    let settings = settings_at(rt.alloc(), &sweep.varied, &places)?;
    let constants = texts.constants.at(rt.alloc(), &places)?;
    let ground = ground_for(rt, asked, texts, &constants)?;
    Ok(Run { settings, ground })
}

/// The runs of a sweep, in their order.
fn runs_of<'a>(
    rt: &HostRuntime,
    asked: &RunTexts,
    texts: &'a Texts,
    sweep: &Sweep,
) -> Result<Vec<Run<'a>>, Ending>
    ensures each { IfOk result (λ runs. length runs.items ≡ sweep.now.runs) }
{
    let mut runs = Vec::new(rt.alloc());
    for place in 0..sweep.runs {
        let run = run_at(rt, asked, texts, sweep, place)?;
        runs.push(run)?;
    }
    Ok(runs)
}

/// A run, lent.
#[derive(Drop)]
struct LentRun<'a> {
    settings: &'a [Setting],
    plan: PlanRef<'a>,
}

/// The runs, lent.
fn lent_runs<'a>(alloc: Global, runs: &'a [Run<'_>]) -> Result<Vec<LentRun<'a>>, Ending>
    ensures each { IfOk result (λ lent. length lent.items ≡ length runs.now) }
{
    let mut lent = Vec::with_capacity(alloc, runs.len())?;
    for run in runs {
        let settings = run.settings.as_slice();
        let plan = run.ground.lent(alloc)?;
        lent.push(LentRun { settings, plan })?;
    }
    Ok(lent)
}

/// The runs as they are counted together.
fn variants_of<'a>(alloc: Global, runs: &'a [LentRun<'a>]) -> Result<Vec<Variant<'a>>, AllocError>
    ensures each { IfOk result (λ variants. length variants.items ≡ length runs.now) }
{
    let mut variants = Vec::with_capacity(alloc, runs.len())?;
    for run in runs {
        let settings = run.settings;
        let plan = &run.plan;
        variants.push(Variant { settings, plan })?;
    }
    Ok(variants)
}

/// The settings without the last one, over whose values means are.
fn without_last(settings: &[Setting]) -> &[Setting] {
    match settings {
        [others @ .., _] => others,
        [] => &[],
    }
}

/// The groups of so many runs each of which means are.
fn groups_of<'a>(
    alloc: Global,
    runs: &[LentRun<'a>],
    size: usize,
) -> Result<Vec<Group<'a>>, AllocError>
    requires some { 1 ≤ size }
{
    let mut groups = Vec::new(alloc);
    for (place, run) in runs.iter().enumerate() {
        if place % size == 0 {
            let settings = without_last(run.settings);
            groups.push(Group { settings })?;
        }
    }
    Ok(groups)
}

/// The text of runs, each counted so.
fn runs_counted<R: Threads + Sync>(
    rt: &HostRuntime,
    threads: &R,
    asked: &CountRequest,
    counting: &Counting<'_>,
    variants: &[Variant<'_>],
) -> Result<Vec<u8>, Ending>
    requires some { 1 ≤ length variants.now }
{
    let ensemble = Ensemble {
        variants,
        groups: &[],
        size: 0,
        quantiles: &[],
    };
    let telling = RunsTelling::new(rt, variants.len());
    let text = counted_runs(
        threads,
        rt.alloc(),
        &ensemble,
        &asked.span,
        counting,
        &telling,
    );
    telling.end();
    text.map_err(no_rounds)
}

/// The text of the means of so many runs each, counted so.
fn means_counted<R: Threads + Sync>(
    rt: &HostRuntime,
    threads: &R,
    asked: &CountRequest,
    counting: &Counting<'_>,
    ensemble: &Ensemble<'_>,
) -> Result<Vec<u8>, Ending>
    requires some { 1 ≤ length ensemble.now.variants.now }
    requires size { IsMeanSize ensemble.now.size }
{
    let telling = RunsTelling::new(rt, ensemble.variants.len());
    let text = mean_counts(
        threads,
        rt.alloc(),
        ensemble,
        &asked.span,
        counting,
        &telling,
    );
    telling.end();
    text.map_err(no_rounds)
}

/// Whether one of the names is that of a constant.
fn has_setting(names: &[String], settings: &[Setting]) -> bool {
    for setting in settings {
        if names
            .iter()
            .any(|name| name.as_str() == setting.name.as_str())
        {
            return true;
        }
    }
    false
}

/// The names by which columns are called: none where a constant, whose column stands before them, has one of them.
fn column_names<'a>(names: &'a [String], settings: &[Setting]) -> &'a [String] {
    if has_setting(names, settings) {
        return &[];
    }
    names
}

/// The text of the means of these runs, of so many each, counted so.
fn groups_text<'a, R: Threads + Sync>(
    rt: &HostRuntime,
    threads: &R,
    asked: &CountRequest,
    counting: &Counting<'_>,
    runs: &'a [LentRun<'a>],
    size: usize,
) -> Result<Vec<u8>, Ending>
    requires some { 1 ≤ length runs.now }
    requires size { IsMeanSize size }
{
    let variants = variants_of(rt.alloc(), runs)?;
    let groups = groups_of(rt.alloc(), runs, size)?;
    let ensemble = Ensemble {
        variants: &variants,
        groups: &groups,
        size,
        quantiles: &asked.quantiles,
    };
    means_counted(rt, threads, asked, counting, &ensemble)
}

/// The text of these runs, counted so.
fn variants_text<'a, R: Threads + Sync>(
    rt: &HostRuntime,
    threads: &R,
    asked: &CountRequest,
    counting: &Counting<'_>,
    runs: &'a [LentRun<'a>],
) -> Result<Vec<u8>, Ending>
    requires some { 1 ≤ length runs.now }
{
    let variants = variants_of(rt.alloc(), runs)?;
    runs_counted(rt, threads, asked, counting, &variants)
}

/// The text of these runs of a sweep, of which the first says which fields there are; their values have these names.
fn text_of<R: Threads + Sync>(
    rt: &HostRuntime,
    threads: &R,
    asked: &CountRequest,
    sweep: &Sweep,
    names: &[Vec<String>],
    runs: &[Run<'_>],
) -> Result<Vec<u8>, Ending>
    requires some { 1 ≤ length runs.now }
    requires runs { HasRuns sweep.now }
{
    let lent = lent_runs(rt.alloc(), runs)?;
    let found = Counted::of(rt.alloc(), lent[0].plan.program(), names, asked)?;
    let counting = found.counting(column_names(found.names_among(names), lent[0].settings));
    match sweep.means {
        Some(size) => groups_text(rt, threads, asked, &counting, &lent, size),
        None => variants_text(rt, threads, asked, &counting, &lent),
    }
}

/// The text of the runs of a sweep of these texts.
fn texts_text<R: Threads + Sync>(
    rt: &HostRuntime,
    threads: &R,
    asked: &CountRequest,
    sweep: &Sweep,
    texts: &Texts,
) -> Result<Vec<u8>, Ending>
    requires runs { HasRuns sweep.now }
{
    let runs = runs_of(rt, &asked.runs.texts, texts, sweep)?;
    text_of(rt, threads, asked, sweep, &texts.names, &runs)
}

/// The text of the runs that are asked for, one for each choice of the values of the constants that have several.
pub(crate) fn runs_text<R: Threads + Sync>(
    rt: &HostRuntime,
    threads: &R,
    asked: &CountRequest,
    sweep: &Sweep,
) -> Result<Vec<u8>, Ending>
    requires runs { HasRuns sweep.now }
{
    let texts = texts_at(rt, threads, &asked.runs.texts.plan, sweep)?;
    texts_text(rt, threads, asked, sweep, &texts)
}
