//! Why a job was not done: the statuses and the fault lines.
ghost use Rattle.std.specs.Prelude.{◌≡◌};
ghost use Rattle.app_jobs.specs.declared.fault.ServeFault.TheVariants.{Lang, Check, Net, Plan as PlanRefused, Report as ReportRefused, Round, Run, Replay, Memory};
ghost use Rattle.app_jobs.specs.Status.{replay_status, status_of};

use link_net::NetFault;
use report_text::ReportFault;
use rounds_plan::{PlanFault, RoundFault};
use rule_check::CheckFault;
use rule_lang::LangFault;
use std::alloc::{AllocError, AllocFailed};
use unison_pool::RunFault;
use unison_trace::{ReplayFault, ScheduleFault};
use unison_world::OpenFault;

/// The first fault on the way from the texts to the answer.
#[derive(Clone, Copy, Debug, PartialEq, Eq)]
pub enum ServeFault {
    /// The program text was refused.
    Lang(LangFault),
    /// The program is not well formed.
    Check(CheckFault),
    /// The network text was refused.
    Net(NetFault),
    /// The program and the network make no plan.
    Plan(PlanFault),
    /// The text to go on from is no report of the plan.
    Report(ReportFault),
    /// The round asked for was refused.
    Round(RoundFault),
    /// The run by workers gave no configuration.
    Run(RunFault),
    /// The replay was refused.
    Replay(ReplayFault),
    /// The device refused after the first `written` bytes of the answer.
    Write { written: u64 },
    /// Out of memory.
    Memory,
}

impl From<AllocError> for ServeFault {
    ghost from_gives = { λ _ e. e ≡ Memory };

    fn from(_error: AllocError) -> ServeFault {
        ServeFault::Memory
    }
}

impl From<LangFault> for ServeFault {
    ghost from_gives = { λ fault e. e ≡ Lang fault };

    fn from(fault: LangFault) -> ServeFault {
        ServeFault::Lang(fault)
    }
}

impl From<CheckFault> for ServeFault {
    ghost from_gives = { λ fault e. e ≡ Check fault };

    fn from(fault: CheckFault) -> ServeFault {
        ServeFault::Check(fault)
    }
}

impl From<NetFault> for ServeFault {
    ghost from_gives = { λ fault e. e ≡ Net fault };

    fn from(fault: NetFault) -> ServeFault {
        ServeFault::Net(fault)
    }
}

impl From<PlanFault> for ServeFault {
    ghost from_gives = { λ fault e. e ≡ PlanRefused fault };

    fn from(fault: PlanFault) -> ServeFault {
        ServeFault::Plan(fault)
    }
}

impl From<ReportFault> for ServeFault {
    ghost from_gives = { λ fault e. e ≡ ReportRefused fault };

    fn from(fault: ReportFault) -> ServeFault {
        ServeFault::Report(fault)
    }
}

impl From<RoundFault> for ServeFault {
    ghost from_gives = { λ fault e. e ≡ Round fault };

    fn from(fault: RoundFault) -> ServeFault {
        ServeFault::Round(fault)
    }
}

impl From<RunFault> for ServeFault {
    ghost from_gives = { λ fault e. e ≡ Run fault };

    fn from(fault: RunFault) -> ServeFault {
        ServeFault::Run(fault)
    }
}

impl From<ReplayFault> for ServeFault {
    ghost from_gives = { λ fault e. e ≡ Replay fault };

    fn from(fault: ReplayFault) -> ServeFault {
        ServeFault::Replay(fault)
    }
}

impl<T: Drop> From<AllocFailed<T>> for ServeFault {
    ghost from_gives = { λ _ e. e ≡ Memory };

    fn from(_error: AllocFailed<T>) -> ServeFault {
        ServeFault::Memory
    }
}

impl ServeFault {
    /// The status with which the program ends: 1 for running out of memory, a device's fault and a fault of a run, 3
    /// for a refused program, network, plan, report or schedule.
    pub fn status(&self) -> u8
        ensures status { result ≡ status_of self.now }
    {
        match self {
            ServeFault::Lang(LangFault::Memory)
            | ServeFault::Check(CheckFault::Memory)
            | ServeFault::Net(NetFault::Memory)
            | ServeFault::Plan(PlanFault::Memory)
            | ServeFault::Report(ReportFault::Memory)
            | ServeFault::Round(_)
            | ServeFault::Run(_)
            | ServeFault::Write { .. }
            | ServeFault::Memory => 1,
            ServeFault::Replay(fault) => replay_status(*fault),
            ServeFault::Lang(_)
            | ServeFault::Check(_)
            | ServeFault::Net(_)
            | ServeFault::Plan(_)
            | ServeFault::Report(_) => 3,
        }
    }

    /// The number of the line of a report or a schedule that the fault names, where it names one.
    pub fn bad_line(&self) -> Option<u64> {
        match self {
            ServeFault::Report(ReportFault::BadLine { line })
            | ServeFault::Replay(ReplayFault::Schedule(ScheduleFault::BadLine { line })) => {
                Some(*line)
            }
            _ => None,
        }
    }

    /// The part and the name of the fault line.
    pub fn part_and_name(&self) -> (&'static str, &'static str) {
        match self {
            ServeFault::Lang(fault) => named("program", lang_name(*fault)),
            ServeFault::Check(fault) => named("program", check_name(*fault)),
            ServeFault::Net(fault) => named("network", net_name(*fault)),
            ServeFault::Plan(fault) => named("plan", plan_name(*fault)),
            ServeFault::Report(fault) => named("report", report_name(*fault)),
            ServeFault::Round(fault) => named("run", round_name(*fault)),
            ServeFault::Run(fault) => named("run", run_name(*fault)),
            ServeFault::Replay(fault) => replay_line(*fault),
            ServeFault::Write { .. } => ("device", "Write"),
            ServeFault::Memory => ("memory", "Memory"),
        }
    }
}

/// The status for a refused replay: 3 for a refused schedule, else 1.
fn replay_status(fault: ReplayFault) -> u8
    ensures status { result ≡ replay_status fault }
{
    match fault {
        ReplayFault::Schedule(ScheduleFault::Memory)
        | ReplayFault::Read
        | ReplayFault::Opening(_)
        | ReplayFault::Write { .. }
        | ReplayFault::Memory => 1,
        ReplayFault::TooManyTurns | ReplayFault::Schedule(_) => 3,
    }
}

/// The part with the name, or running out of memory where there is no name.
fn named(part: &'static str, name: Option<&'static str>) -> (&'static str, &'static str) {
    match name {
        Some(name) => (part, name),
        None => ("memory", "Memory"),
    }
}

/// The name that the fault line has for a refused program text; none where memory ran out.
fn lang_name(fault: LangFault) -> Option<&'static str> {
    match fault {
        LangFault::TooLong => Some("TooLong"),
        LangFault::Lex { .. } => Some("Lex"),
        LangFault::Syntax { .. } => Some("Syntax"),
        LangFault::Memory => None,
    }
}

/// The name that the fault line has for a program that is not well formed; none where memory ran out.
fn check_name(fault: CheckFault) -> Option<&'static str> {
    match fault {
        CheckFault::TooManyFields => Some("TooManyFields"),
        CheckFault::FieldTwice => Some("FieldTwice"),
        CheckFault::NextTwice => Some("NextTwice"),
        CheckFault::UnknownName => Some("UnknownName"),
        CheckFault::NeighbourOutside => Some("NeighbourOutside"),
        CheckFault::NestedAggregate => Some("NestedAggregate"),
        CheckFault::TooManyAggregates => Some("TooManyAggregates"),
        CheckFault::Memory => None,
    }
}

/// The name that the fault line has for a refused network; none where memory ran out.
fn net_name(fault: NetFault) -> Option<&'static str> {
    match fault {
        NetFault::NotToml => Some("NotToml"),
        NetFault::UnknownKey => Some("UnknownKey"),
        NetFault::BadShape => Some("BadShape"),
        NetFault::NodeCount => Some("NodeCount"),
        NetFault::BadLink => Some("BadLink"),
        NetFault::SelfLink => Some("SelfLink"),
        NetFault::LinkTwice => Some("LinkTwice"),
        NetFault::TooManyLinks => Some("TooManyLinks"),
        NetFault::TooManyNeighbours => Some("TooManyNeighbours"),
        NetFault::BadPhase => Some("BadPhase"),
        NetFault::BadWeight => Some("BadWeight"),
        NetFault::Memory => None,
    }
}

/// The name that the fault line has for a refused plan; none where memory ran out.
fn plan_name(fault: PlanFault) -> Option<&'static str> {
    match fault {
        PlanFault::UnknownField => Some("UnknownField"),
        PlanFault::BadNode => Some("BadNode"),
        PlanFault::BadValue => Some("BadValue"),
        PlanFault::SetTwice => Some("SetTwice"),
        PlanFault::Memory => None,
    }
}

/// The name that the fault line has for a refused report; none where memory ran out.
fn report_name(fault: ReportFault) -> Option<&'static str> {
    match fault {
        ReportFault::BadLine { .. } => Some("BadLine"),
        ReportFault::TooManyRounds => Some("TooManyRounds"),
        ReportFault::Memory => None,
    }
}

/// The name that the fault line has for a refused round; none where memory ran out.
fn round_name(fault: RoundFault) -> Option<&'static str> {
    match fault {
        RoundFault::TooManyRounds => Some("TooManyRounds"),
        RoundFault::RoundsBelowStart => Some("RoundsBelowStart"),
        RoundFault::Memory => None,
    }
}

/// The name that the fault line has for a refused run; none where memory ran out.
fn run_name(fault: RunFault) -> Option<&'static str> {
    match fault {
        RunFault::WorkerCount => Some("WorkerCount"),
        RunFault::StopTooLarge => Some("StopTooLarge"),
        RunFault::NoThread => Some("NoThread"),
        RunFault::TraceFull { .. } => Some("TraceFull"),
        RunFault::Foreign => Some("Foreign"),
        RunFault::Unfinished { .. } => Some("Unfinished"),
        RunFault::Memory => None,
        RunFault::StopBelowStart => Some("StopBelowStart"),
    }
}

/// The line of a refused replay: a schedule's fault, that of a run's opening, or a device's.
fn replay_line(fault: ReplayFault) -> (&'static str, &'static str) {
    match fault {
        ReplayFault::Read => ("device", "Read"),
        ReplayFault::TooManyTurns => ("schedule", "TooManyTurns"),
        ReplayFault::Schedule(fault) => named("schedule", schedule_name(fault)),
        ReplayFault::Opening(fault) => named("run", open_name(fault)),
        ReplayFault::Write { .. } => ("device", "Write"),
        ReplayFault::Memory => ("memory", "Memory"),
    }
}

/// The name that the fault line has for a refused schedule; none where memory ran out.
fn schedule_name(fault: ScheduleFault) -> Option<&'static str> {
    match fault {
        ScheduleFault::BadLine { .. } => Some("BadLine"),
        ScheduleFault::TooManySteps => Some("TooManySteps"),
        ScheduleFault::Memory => None,
    }
}

/// The name that the fault line has for a world that is not opened; none where memory ran out.
fn open_name(fault: OpenFault) -> Option<&'static str> {
    match fault {
        OpenFault::StopTooLarge => Some("StopTooLarge"),
        OpenFault::StopBelowStart => Some("StopBelowStart"),
        OpenFault::Memory => None,
    }
}
