//! What rounds go over: a program on the network of a network file or of a packed one, and how the nodes begin.

use crate::arguments::PlanPaths;
use crate::initial::{StartProgram, put_start};
use crate::notes::put_program_notes;
use crate::packed::{packed_in, report_at};
use crate::plan_texts::{NamedPlan, plan_of};
use crate::set_words::SetWord;
use crate::start::RunTexts;
use app_files::{
    ConstantValue, ConstantWord, Ending, NamedProgram, PackedNetwork, bytes_at, bytes_where,
    is_packed, list_path, named_program_at, network_at, path_in, read_once,
};
use app_jobs::{ServeFault, program_of};
use large_net::LargeNetwork;
use link_net::FieldSet;
use rayon::current_num_threads;
use rounds_plan::{Plan, PlanRef, StartFault, begun_with, opening_states};
use rule_check::{Program, State};
use std::alloc::{AllocError, Global};
use std::thread::Threads;

/// The network that rounds go over, read once.
#[derive(Drop)]
pub enum RunNetwork {
    /// A network file, and the report from which the rounds go on, where they do.
    File {
        text: Vec<u8>,
        report: Option<Vec<u8>>,
    },
    /// A packed network.
    Packed(PackedNetwork),
}

/// The states of all nodes after a round, counted from round 0.
#[derive(Drop)]
struct Opening {
    round: u32,
    states: Vec<State>,
}

/// A program on a packed network, whose nodes begin so.
#[derive(Drop)]
pub struct PackedPlan<'a> {
    program: Program,
    network: &'a LargeNetwork,
    opening: Opening,
}

/// A program on a network, and how the nodes begin.
#[derive(Drop)]
pub enum Ground<'a> {
    /// That of a network file.
    File(Plan),
    /// That of a packed network.
    Packed(PackedPlan<'a>),
}

/// The ending where there is no such plan.
fn no_plan(alloc: Global, fault: StartFault) -> Ending {
    Ending::refused(format!(in alloc; "{fault}"))
}

impl PackedPlan<'_> {
    /// The plan, lent.
    fn lent(&self, alloc: Global) -> Result<PlanRef<'_>, Ending> {
        let (rows, opening) = (self.network.rows(), &self.opening);
        match PlanRef::new(&self.program, rows, &opening.states, opening.round) {
            Ok(plan) => Ok(plan),
            Err(fault) => Err(no_plan(alloc, fault)),
        }
    }
}

impl Ground<'_> {
    /// The plan, lent.
    pub fn lent(&self, alloc: Global) -> Result<PlanRef<'_>, Ending> {
        match self {
            Ground::File(plan) => Ok(PlanRef::of_plan(plan)),
            Ground::Packed(packed) => packed.lent(alloc),
        }
    }
}

/// The text of a program, as a run begins with it.
#[derive(Clone, Copy)]
pub struct ProgramText<'a> {
    pub text: &'a [u8],
    /// For each field, in order, the names of its values; none where it has no states.
    pub names: &'a [Vec<String>],
    /// By what nodes are drawn that begin with other values.
    pub seed: u32,
}

impl<'a> ProgramText<'a> {
    /// The program, as the nodes of a run begin with it.
    fn start(&self, program: &'a Program) -> StartProgram<'a> {
        StartProgram {
            program,
            names: self.names,
            seed: self.seed,
        }
    }
}

/// The texts that rounds are made of, read once: the program, and the network.
#[derive(Drop)]
pub struct RunSource {
    /// The program, with the names of the values of its fields.
    pub program: NamedProgram,
    network: RunNetwork,
}

/// Among how many threads rounds are shared: as many as the words say, and where they say nothing as there are processors.
pub fn threads_for(threads: &(impl Threads + Sync), texts: &RunTexts) -> usize {
    match texts.threads {
        Some(count) => count as usize,
        None => current_num_threads(threads),
    }
}

/// Puts the paths of the lists that words of `--set` name.
fn put_list_paths<'a>(paths: &mut Vec<&'a str>, words: &'a [SetWord]) -> Result<(), AllocError> {
    for word in words {
        paths.push(list_path(word.node.as_str()).unwrap_or(""))?;
    }
    Ok(())
}

/// Puts the paths of the files that the words name.
fn put_paths<'a>(paths: &mut Vec<&'a str>, texts: &'a RunTexts) -> Result<(), AllocError> {
    paths.push(texts.plan.program.as_str())?;
    paths.push(texts.plan.network.as_str())?;
    paths.push(path_in(&texts.plan.from))?;
    paths.push(path_in(&texts.start.names))?;
    for word in &texts.start.files {
        paths.push(word.path.as_str())?;
    }
    put_list_paths(paths, texts.start.sets.as_slice())
}

/// Refuses standard input for more than one of the files: those that the words of a run name, and another one, which may be
/// none, "".
pub fn read_run_once(alloc: Global, texts: &RunTexts, other: &str) -> Result<(), Ending> {
    let mut paths = Vec::new(alloc);
    put_paths(&mut paths, texts)?;
    paths.push(other)?;
    read_once(alloc, &paths)
}

/// The program of a text.
pub fn program_in(alloc: Global, text: &[u8]) -> Result<Program, Ending> {
    match program_of(alloc, text) {
        Ok((_source, program)) => Ok(program),
        Err(fault) => Err(Ending::Served(fault)),
    }
}

/// The initial states of so many nodes of a program, with the values that a packed network sets.
fn set_states(
    alloc: Global,
    program: &Program,
    nodes: u32,
    sets: &[FieldSet],
) -> Result<Vec<State>, Ending> {
    match opening_states(alloc, program, nodes, sets) {
        Ok(states) => Ok(states),
        Err(fault) => Err(Ending::Served(ServeFault::from(fault))),
    }
}

/// The initial states of the nodes of a program on a packed network: with the values that the network sets, and those that the
/// words ask for over them.
fn states_for(
    rt: &HostRuntime,
    start: StartProgram<'_>,
    packed: &PackedNetwork,
    texts: &RunTexts,
) -> Result<Vec<State>, Ending> {
    let nodes = packed.network.nodes();
    let mut states = set_states(rt.alloc(), start.program, nodes, packed.settings.sets())?;
    put_start(&mut states, rt, start, nodes, &texts.start)?;
    Ok(states)
}

/// Refuses values that a packed network sets and that are none of the program's, though a report has other states.
fn check_settings(alloc: Global, program: &Program, packed: &PackedNetwork) -> Result<(), Ending> {
    let sets = packed.settings.sets();
    if sets.is_empty() {
        return Ok(());
    }
    let _states = set_states(alloc, program, packed.network.nodes(), sets)?;
    Ok(())
}

/// With what the nodes of a packed network begin: the states and the round of a report, where the words name one, and else
/// their initial states at round 0.
fn opening_for(
    rt: &HostRuntime,
    start: StartProgram<'_>,
    packed: &PackedNetwork,
    texts: &RunTexts,
) -> Result<Opening, Ending> {
    let Some(path) = &texts.plan.from else {
        let states = states_for(rt, start, packed, texts)?;
        return Ok(Opening { round: 0, states });
    };
    check_settings(rt.alloc(), start.program, packed)?;
    let report = report_at(rt, path.as_str(), start.program, &packed.network)?;
    Ok(Opening {
        round: report.rounds(),
        states: report.into_states(),
    })
}

/// The plan of the program of a text on a packed network.
fn packed_plan<'a>(
    rt: &HostRuntime,
    texts: &RunTexts,
    text: ProgramText<'_>,
    packed: &'a PackedNetwork,
) -> Result<PackedPlan<'a>, Ending> {
    let program = program_in(rt.alloc(), text.text)?;
    let opening = opening_for(rt, text.start(&program), packed, texts)?;
    Ok(PackedPlan {
        program,
        network: &packed.network,
        opening,
    })
}

/// The states with which the nodes of a plan begin, with the values that the words ask for.
fn begun_states(
    rt: &HostRuntime,
    plan: &Plan,
    texts: &RunTexts,
    text: ProgramText<'_>,
) -> Result<Vec<State>, Ending> {
    let (start, nodes) = (text.start(plan.program()), plan.network().nodes());
    let mut states = plan.openings().to_vec(rt.alloc())?;
    put_start(&mut states, rt, start, nodes, &texts.start)?;
    Ok(states)
}

/// A plan, with the initial values that the words ask for.
fn begun_plan(
    rt: &HostRuntime,
    plan: Plan,
    texts: &RunTexts,
    text: ProgramText<'_>,
) -> Result<Plan, Ending> {
    if texts.start.is_empty() {
        return Ok(plan);
    }
    let states = begun_states(rt, &plan, texts, text)?;
    match begun_with(plan, states) {
        Ok(plan) => Ok(plan),
        Err(fault) => Err(no_plan(rt.alloc(), fault)),
    }
}

/// The plan of the program of a text on the network of a network file, with the report that the words name.
fn file_plan(
    rt: &HostRuntime,
    texts: &RunTexts,
    text: ProgramText<'_>,
    network: &[u8],
    report: &Option<Vec<u8>>,
) -> Result<Plan, Ending> {
    let plan = plan_of(rt.alloc(), text.text, network, report)?;
    begun_plan(rt, plan, texts, text)
}

/// The plan of the program of a text on a network.
pub fn ground_on<'a>(
    rt: &HostRuntime,
    texts: &RunTexts,
    text: ProgramText<'_>,
    network: &'a RunNetwork,
) -> Result<Ground<'a>, Ending> {
    match network {
        RunNetwork::File { text: file, report } => {
            let plan = file_plan(rt, texts, text, file, report)?;
            Ok(Ground::File(plan))
        }
        RunNetwork::Packed(packed) => {
            let plan = packed_plan(rt, texts, text, packed)?;
            Ok(Ground::Packed(plan))
        }
    }
}

/// The packed network of the bytes at a path.
fn packed_network(
    rt: &HostRuntime,
    threads: &impl Threads,
    path: &str,
    bytes: &[u8],
) -> Result<RunNetwork, Ending> {
    let packed = packed_in(rt, threads, path, bytes)?;
    Ok(RunNetwork::Packed(packed))
}

/// The network and the report at these paths.
pub fn run_network(
    rt: &HostRuntime,
    threads: &impl Threads,
    paths: &PlanPaths,
) -> Result<RunNetwork, Ending> {
    let path = paths.network.as_str();
    let text = bytes_at(rt, path)?;
    if is_packed(&text) {
        return packed_network(rt, threads, path, &text);
    }
    let report = bytes_where(rt, &paths.from)?;
    Ok(RunNetwork::File { text, report })
}

/// The program that the words of a run name.
fn program_for(rt: &HostRuntime, texts: &RunTexts) -> Result<NamedProgram, Ending> {
    named_program_at(rt, texts.plan.program.as_str(), &texts.plan.constants)
}

/// The number that words of `--const` give the constant `seed`, where they give it one.
pub fn given_seed(constants: &[ConstantWord]) -> Option<u32> {
    for constant in constants {
        if let ("seed", ConstantValue::Number(seed)) = (constant.name.as_str(), &constant.value) {
            return Some(*seed);
        }
    }
    None
}

/// By what the one run of these words draws nodes: `--seed`, and without it the constant `seed` of the program.
fn single_seed(texts: &RunTexts) -> u32 {
    let given = given_seed(&texts.plan.constants);
    texts.start.seed.or(given).unwrap_or(0)
}

/// The program, as the one run of these words begins with it.
fn single_text<'a>(program: &'a NamedProgram, texts: &RunTexts) -> ProgramText<'a> {
    ProgramText {
        text: &program.text,
        names: &program.names,
        seed: single_seed(texts),
    }
}

/// The texts that the words of a run name; the network is a network file or a packed one.
pub fn source_at(
    rt: &HostRuntime,
    threads: &impl Threads,
    texts: &RunTexts,
) -> Result<RunSource, Ending> {
    let program = program_for(rt, texts)?;
    let network = run_network(rt, threads, &texts.plan)?;
    Ok(RunSource { program, network })
}

/// The texts that the words of a run name; the network is a packed one.
pub fn packed_source_at(
    rt: &HostRuntime,
    threads: &impl Threads,
    texts: &RunTexts,
) -> Result<RunSource, Ending> {
    let program = program_for(rt, texts)?;
    let path = texts.plan.network.as_str();
    let bytes = bytes_at(rt, path)?;
    let network = packed_network(rt, threads, path, &bytes)?;
    Ok(RunSource { program, network })
}

impl RunSource {
    /// What rounds go over by these words.
    pub fn ground(&self, rt: &HostRuntime, texts: &RunTexts) -> Result<Ground<'_>, Ending> {
        ground_on(rt, texts, single_text(&self.program, texts), &self.network)
    }

    /// The same. Notes on the program are printed on standard error before anything is computed, unless they are left out.
    pub fn noted_ground(
        &self,
        rt: &HostRuntime,
        texts: &RunTexts,
        quiet: bool,
    ) -> Result<Ground<'_>, Ending> {
        let ground = self.ground(rt, texts)?;
        if !quiet {
            self.put_notes(rt, texts, &ground)?;
        }
        Ok(ground)
    }

    /// Prints notes on the program, in the run of its plan.
    fn put_notes(
        &self,
        rt: &HostRuntime,
        texts: &RunTexts,
        ground: &Ground<'_>,
    ) -> Result<(), Ending> {
        let plan = ground.lent(rt.alloc())?;
        let path = texts.plan.program.as_str();
        put_program_notes(rt, path, &self.program, &plan)
    }
}

/// The plan of these words on a network that a network file says, which may be packed, with the names of the values of its
/// program's fields.
pub fn file_run_at(rt: &HostRuntime, texts: &RunTexts) -> Result<NamedPlan, Ending> {
    let program = program_for(rt, texts)?;
    let network = network_at(rt, texts.plan.network.as_str())?;
    let report = bytes_where(rt, &texts.plan.from)?;
    let plan = file_plan(rt, texts, single_text(&program, texts), &network, &report)?;
    let NamedProgram { names, .. } = program;
    Ok(NamedPlan { plan, names })
}
