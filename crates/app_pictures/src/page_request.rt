//! `page`: an HTML page on which a run is stepped through.
ghost use Rattle.std.specs.Prelude.{◌≤◌, IfOk, IfSome};
ghost use Rattle.app_commands.specs.Requests.{IsWidthWithin};
ghost use Rattle.app_pictures.specs.Requests.{IsRunWithin};

use app_commands::{
    CONSTANT, EVERY, EVERY_ARGUMENT, FILE_OPTION, FLAG, FROM, GridWidth, NAMES, NAMES_ARGUMENT,
    NETWORK, ONLY, PROGRAM, PlanPaths, ROUND, ROUNDS, grid_in, only_in, span_in, with_lone,
};
use app_table::{Argument, Command, Kind, OPTION, Reading, WordsFault};
use run_watch::Span;
use std::alloc::Global;

const SHOWN_ROUNDS: Argument = Argument {
    kind: Kind::Optional,
    ..ROUNDS
};

/// `SHOWN_ROUNDS`, as it is read.
static SHOWN_ROUNDS_ARGUMENT: Argument = SHOWN_ROUNDS;

const STEPS: Argument = Argument {
    name: "steps",
    value_name: "SCHEDULE",
    help: "Show the single steps of this schedule, or - for standard input",
    ..FILE_OPTION
};

/// `STEPS`, as it is read.
static STEPS_ARGUMENT: Argument = STEPS;

const STOP: Argument = Argument {
    name: "stop",
    value: ROUND,
    value_name: "T",
    help: "With --steps, the round at which a node stops, counted from round 0: 0 to 1000000000",
    ..OPTION
};

/// `STOP`, as it is read.
static STOP_ARGUMENT: Argument = STOP;

const NAIVE: Argument = Argument {
    name: "naive",
    help: "With --steps, show beside them the same steps by nodes that do not wait",
    ..FLAG
};

/// `NAIVE`, as it is read.
static NAIVE_ARGUMENT: Argument = NAIVE;

const GRID: Argument = Argument {
    name: "grid",
    value_name: "WIDTH",
    help: "Draw the nodes as cells, so many across, node 0 first: 1 to 65536; with no WIDTH as many as the links show",
    ..OPTION
};

/// `GRID`, as it is read.
static GRID_ARGUMENT: Argument = GRID;

const NODE_FIELD: Argument = Argument {
    name: "node-field",
    kind: Kind::Repeated,
    value_name: "FIELD",
    help: "With --names, show names for this field's values too, which are numbers of nodes; as often as wanted",
    ..OPTION
};

/// `NODE_FIELD`, as it is read.
static NODE_FIELD_ARGUMENT: Argument = NODE_FIELD;

const VIEWER: Argument = Argument {
    name: "viewer",
    help: "The viewer into which the run is put; unison names that of its own folder, viewer/page.html",
    ..FILE_OPTION
};

/// `VIEWER`, as it is read.
static VIEWER_ARGUMENT: Argument = VIEWER;

/// `page` and what it takes.
static PAGE: Command = Command {
    name: "page",
    aliases: &[],
    called: "unison page",
    about: "Make an HTML page on which rounds, or single steps, are stepped through",
    notes: "Prints one HTML file, which any browser opens without a connection: rounds with --rounds, or the single steps of a schedule with --steps and --stop.\nAn example: unison page examples/distance.rules examples/path.toml --rounds 0..2 > run.html\nAnother one: unison page examples/swap.rules examples/pair.toml --steps examples/schedules/ahead.txt --stop 10 > run.html\n",
    arguments: &[
        PROGRAM,
        NETWORK,
        SHOWN_ROUNDS,
        EVERY,
        STEPS,
        STOP,
        NAIVE,
        ONLY,
        NAMES,
        NODE_FIELD,
        GRID,
        FROM,
        CONSTANT,
        VIEWER,
    ],
    subcommands: &[],
};

/// The table of `page`.
pub fn page_command() -> &'static Command {
    &PAGE
}

/// The run that a page shows.
#[derive(Drop)]
pub enum PageRun {
    /// These lockstep rounds.
    Rounds {
        span: Span,
    },
    /// The steps of the schedule at a path, of nodes that stop at a round; naively, beside them the same steps by nodes that do
    /// not wait.
    Steps {
        schedule: String,
        stop: u32,
        naive: bool,
    },
}

/// How a run is shown on a page.
#[derive(Drop)]
pub struct PageView {
    /// The fields that are shown, where not all are.
    pub only: Option<Vec<String>>,
    /// The path of the names of the nodes, where they are shown.
    pub names: Option<String>,
    /// The fields whose values are shown by the names of the nodes.
    pub node_fields: Vec<String>,
    /// How many nodes stand in a row of the grid, where there is one.
    pub grid: Option<GridWidth>,
}

/// What `page` is asked for.
#[derive(Drop)]
pub struct PageRequest {
    pub plan: PlanPaths,
    pub run: PageRun,
    pub view: PageView,
    /// The path of the viewer into which the run is put.
    pub viewer: String,
}

/// Rounds, of which words for steps are not given; none where no rounds are named.
fn rounds_in(reading: &mut Reading) -> Option<PageRun>
    ensures within { IfSome result IsRunWithin }
{
    if reading.has(&STOP_ARGUMENT) {
        reading.refuse_words(
            "--stop goes with --steps; the last of the rounds stands in --rounds FIRST..LAST",
        );
    }
    if reading.has(&NAIVE_ARGUMENT) {
        reading.refuse_words("--naive goes with --steps");
    }
    let span = span_in(reading)?;
    Some(PageRun::Rounds { span })
}

/// Refuses words for rounds beside steps, and steps with no round at which nodes stop.
fn check_steps(reading: &mut Reading) {
    if reading.has(&EVERY_ARGUMENT) {
        reading.refuse_words("--every goes with --rounds");
    }
    if !reading.has(&STOP_ARGUMENT) {
        reading.refuse_words("--steps: the round at which nodes stop is wanted too: --stop T");
    }
}

/// Steps, with the round at which nodes stop.
fn steps_in(reading: &mut Reading) -> PageRun
    ensures within { IsRunWithin result }
{
    check_steps(reading);
    let stop = reading.number_or(&STOP_ARGUMENT, 0);
    let schedule = reading.needed_text(&STEPS_ARGUMENT);
    let naive = reading.has(&NAIVE_ARGUMENT);
    PageRun::Steps {
        schedule,
        stop,
        naive,
    }
}

/// The run that is shown, where one is named.
fn run_in(reading: &mut Reading) -> Option<PageRun>
    ensures within { IfSome result IsRunWithin }
{
    match (
        reading.has(&SHOWN_ROUNDS_ARGUMENT),
        reading.has(&STEPS_ARGUMENT),
    ) {
        (true, false) => rounds_in(reading),
        (false, true) => Some(steps_in(reading)),
        _ => {
            reading.refuse_words(
                "what the page shows is wanted, once: --rounds FIRST..LAST, or --steps SCHEDULE --stop T",
            );
            None
        }
    }
}

/// The fields whose values are shown by the names of the nodes, which are given then.
fn node_fields_in(reading: &mut Reading) -> Vec<String> {
    if reading.has(&NODE_FIELD_ARGUMENT) && !reading.has(&NAMES_ARGUMENT) {
        reading.refuse_words("--node-field goes with --names");
    }
    reading.texts(&NODE_FIELD_ARGUMENT)
}

/// How the run is shown.
fn view_in(reading: &mut Reading) -> PageView
    ensures within { IfSome result.grid IsWidthWithin }
{
    let grid = grid_in(reading, &GRID_ARGUMENT);
    let only = only_in(reading);
    let names = reading.text(&NAMES_ARGUMENT);
    let node_fields = node_fields_in(reading);
    PageView {
        only,
        names,
        node_fields,
        grid,
    }
}

/// The path of the viewer, which has to be there.
fn viewer_in(reading: &mut Reading) -> String {
    if !reading.has(&VIEWER_ARGUMENT) {
        reading.refuse_words(
            "--viewer FILE is wanted: the viewer's page, viewer/page.html of the repository; ./unison page names it by itself",
        );
    }
    reading.needed_text(&VIEWER_ARGUMENT)
}

/// What plain words ask for, where they name a run.
fn request_in(reading: &mut Reading) -> Option<PageRequest>
    ensures run { IfSome result (λ r. IsRunWithin r.run) }
    ensures grid { IfSome result (λ r. IfSome r.view.grid IsWidthWithin) }
{
    let run = run_in(reading)?;
    let view = view_in(reading);
    let viewer = viewer_in(reading);
    let plan = PlanPaths::of(reading);
    Some(PageRequest {
        plan,
        run,
        view,
        viewer,
    })
}

impl PageRequest {
    /// What the words ask for, the command's name first.
    pub fn parse(alloc: Global, line: &[String]) -> Result<PageRequest, WordsFault>
        ensures run { IfOk result (λ r. IsRunWithin r.run) }
        ensures grid { IfOk result (λ r. IfSome r.view.grid IsWidthWithin) }
    {
        let words = with_lone(alloc, line, "--grid")?;
        let mut reading = Reading::of(alloc, page_command(), &words)?;
        let asked = request_in(&mut reading);
        reading.end_some(asked)
    }
}
