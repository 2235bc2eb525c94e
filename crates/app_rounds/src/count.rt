//! `count PROGRAM NETWORK --rounds FIRST..LAST`: how many nodes have each value, round by round.
ghost use Rattle.std.specs.Prelude.{IfSome};
ghost use Rattle.app_rounds.specs.Requests.{HasRuns};

use crate::count_request::{CountRequest, FigureWord, UntilWord};
use crate::count_runs::runs_text;
use app_commands::{Telling, no_rounds, put_note, read_run_once, source_at, threads_for};
use app_files::{Ending, coloured_field, field_place, names_of_field, print_out};
use rounds_walk::PlanRef;
use rule_check::Program;
use run_counts::{CountFormat, Counting, Figure, FigureKind, Holders, Until, counted};
use run_watch::Workers;
use std::alloc::Global;
use std::thread::Threads;

/// The option that asks for a column of this kind.
fn option_of(kind: FigureKind) -> &'static str {
    match kind {
        FigureKind::Sum => "--sum",
        FigureKind::Least => "--least",
        FigureKind::Most => "--most",
    }
}

/// Puts the column that a word asks for after the others.
fn put_figure(
    figures: &mut Vec<Figure>,
    alloc: Global,
    program: &Program,
    word: &FigureWord,
) -> Result<(), Ending> {
    let kind = word.kind;
    let field = field_place(alloc, program, option_of(kind), word.field.as_str())?;
    figures.push(Figure { kind, field })?;
    Ok(())
}

/// The columns that words ask for.
fn figures_for(
    alloc: Global,
    program: &Program,
    words: &[FigureWord],
) -> Result<Vec<Figure>, Ending> {
    let mut figures = Vec::new(alloc);
    for word in words {
        put_figure(&mut figures, alloc, program, word)?;
    }
    Ok(figures)
}

/// When the rounds end by a word of `--until`; the values of fields have these names.
fn until_of(
    alloc: Global,
    program: &Program,
    names: &[Vec<String>],
    word: &UntilWord,
) -> Result<Option<Until>, Ending> {
    let field = field_place(alloc, program, "--until", word.field.as_str())?;
    let names = names_of_field(names, field);
    let value = word
        .value
        .value(alloc, "--until", word.field.as_str(), names)?;
    let holders = word.holders.unwrap_or(Holders::NoNode);
    Ok(Some(Until {
        holders,
        field,
        value,
    }))
}

/// When the rounds end early, where they may; the values of fields have these names.
fn until_for(
    alloc: Global,
    program: &Program,
    names: &[Vec<String>],
    word: &Option<UntilWord>,
) -> Result<Option<Until>, Ending> {
    match word {
        Some(word) => until_of(alloc, program, names, word),
        None => Ok(None),
    }
}

/// How many states a field has whose values have these names: a model has 256 at most.
fn states_in(names: &[String]) -> u32 {
    names.len().min(256) as u32
}

/// What is counted, where fields have their places.
#[derive(Drop)]
pub(crate) struct Counted {
    format: CountFormat,
    field: u32,
    /// How many states the counted field has.
    states: u32,
    figures: Vec<Figure>,
    until: Option<Until>,
}

impl Counted {
    /// What is asked for, where this is the program, and the values of its fields have these names.
    pub(crate) fn of(
        alloc: Global,
        program: &Program,
        names: &[Vec<String>],
        asked: &CountRequest,
    ) -> Result<Counted, Ending> {
        let field = coloured_field(alloc, program, &asked.field)?;
        let figures = figures_for(alloc, program, &asked.figures)?;
        let until = until_for(alloc, program, names, &asked.until)?;
        Ok(Counted {
            format: asked.format,
            field,
            states: states_in(names_of_field(names, field)),
            figures,
            until,
        })
    }

    /// The names of the values that are counted, of those of all fields.
    pub(crate) fn names_among<'a>(&self, names: &'a [Vec<String>]) -> &'a [String] {
        names_of_field(names, self.field)
    }

    /// The same, as rounds are counted by it, where the values that are counted have these names.
    pub(crate) fn counting<'a>(&'a self, names: &'a [String]) -> Counting<'a> {
        Counting {
            format: self.format,
            field: self.field,
            states: self.states,
            names,
            figures: &self.figures,
            until: self.until,
        }
    }
}

/// The text of the rounds, counted so.
fn counted_text(
    rt: &HostRuntime,
    threads: &(impl Threads + Sync),
    plan: &PlanRef<'_>,
    asked: &CountRequest,
    counting: &Counting<'_>,
) -> Result<Vec<u8>, Ending> {
    let (alloc, span) = (rt.alloc(), &asked.span);
    let workers = Workers {
        rt: threads,
        count: threads_for(threads, &asked.runs.texts),
    };
    let mut telling = Telling::new(rt, span, plan.nodes());
    let text = counted(&workers, alloc, plan, span, counting, &mut telling);
    telling.end();
    text.map_err(no_rounds)
}

/// The text of the rounds of this plan.
fn plan_text(
    rt: &HostRuntime,
    threads: &(impl Threads + Sync),
    plan: &PlanRef<'_>,
    names: &[Vec<String>],
    asked: &CountRequest,
) -> Result<Vec<u8>, Ending> {
    let found = Counted::of(rt.alloc(), plan.program(), names, asked)?;
    let counting = found.counting(found.names_among(names));
    counted_text(rt, threads, plan, asked, &counting)
}

/// The text of the rounds of one run.
fn run_text(
    rt: &HostRuntime,
    threads: &(impl Threads + Sync),
    asked: &CountRequest,
) -> Result<Vec<u8>, Ending> {
    let texts = &asked.runs.texts;
    let source = source_at(rt, threads, texts)?;
    let ground = source.noted_ground(rt, texts, asked.quiet)?;
    let plan = ground.lent(rt.alloc())?;
    plan_text(rt, threads, &plan, &source.program.names, asked)
}

/// The text of the rounds that are asked for.
fn text_for<R: Threads + Sync>(
    rt: &HostRuntime,
    threads: &R,
    asked: &CountRequest,
) -> Result<Vec<u8>, Ending>
    requires runs { IfSome asked.now.runs.sweep HasRuns }
{
    match &asked.runs.sweep {
        None => run_text(rt, threads, asked),
        Some(sweep) => runs_text(rt, threads, asked, sweep),
    }
}

/// Prints a note where a word of `--until` leaves out at which nodes the value is to stand.
fn note_holders(rt: &HostRuntime, word: &UntilWord) -> Result<(), Ending> {
    if word.holders.is_none() {
        let field = word.field.as_str();
        let note = format!(in rt.alloc();
            "--until {field}=.. ends where no node has this value, and none:{field}=.. says so; all:{field}=.. ends where every node has it"
        )?;
        put_note(rt, note.as_str());
    }
    Ok(())
}

/// Prints notes on the words, unless they are left out.
fn note_words(rt: &HostRuntime, asked: &CountRequest) -> Result<(), Ending> {
    match &asked.until {
        Some(word) if !asked.quiet => note_holders(rt, word),
        _ => Ok(()),
    }
}

/// Prints the counts that are asked for. The status with which the program ends.
fn put_counts<R: Threads + Sync>(
    rt: &HostRuntime,
    threads: &R,
    asked: &CountRequest,
) -> Result<u8, Ending>
    requires runs { IfSome asked.now.runs.sweep HasRuns }
{
    read_run_once(rt.alloc(), &asked.runs.texts, "")?;
    note_words(rt, asked)?;
    let text = text_for(rt, threads, asked)?;
    print_out(rt, &text)
}

/// Counts the nodes that have each value, round by round, in one run or in several. The status with which the program ends.
pub fn count_rounds<R: Threads + Sync>(
    rt: &HostRuntime,
    threads: &R,
    words: &[String],
) -> Result<u8, Ending> {
    let asked = CountRequest::parse(rt.alloc(), words)?;
    put_counts(rt, threads, &asked)
}
