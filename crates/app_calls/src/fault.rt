//! Why a call was not done, and the numbers of the faults.
ghost use Rattle.std.specs.Prelude.{◌≡◌, ◌<◌, IfSome, IsNone};
ghost use Rattle.app_calls.specs.declared.fault.Fault.TheVariants.{Texts, Round, Replay, Settle, Memory};
ghost use Rattle.app_calls.specs.Jobs.{ending_of};
ghost use Rattle.app_calls.specs.Numbers.{check_number, lang_number, net_number, number_of, opening_number, plan_number, replay_number, report_number, round_number, schedule_number, settle_number, texts_number};

use app_jobs::ServeFault;
use link_net::NetFault;
use report_text::ReportFault;
use rounds_plan::{PlanFault, RoundFault};
use rule_check::CheckFault;
use rule_lang::LangFault;
use run_settle::SettleFault;
use std::alloc::{AllocError, AllocFailed};
use unison_trace::{ReplayFault, ScheduleFault};
use unison_world::OpenFault;

/// The first fault on the way from the texts to the answer.
#[derive(Clone, Copy, Debug, PartialEq, Eq)]
pub enum Fault {
    /// The texts were refused: they have no program, or no plan.
    Texts(ServeFault),
    /// A round that was asked for was refused.
    Round(RoundFault),
    /// The replay was refused.
    Replay(ReplayFault),
    /// It was not found out what becomes of the rounds.
    Settle(SettleFault),
    /// A round of a list is not above the one before it.
    NotRising,
    /// There is no job of this number.
    NoJob,
    /// There is too little room.
    Room,
    /// Out of memory.
    Memory,
}

impl From<AllocError> for Fault {
    ghost from_gives = { λ _ e. e ≡ Memory };

    fn from(_error: AllocError) -> Fault {
        Fault::Memory
    }
}

impl<T: Drop> From<AllocFailed<T>> for Fault {
    ghost from_gives = { λ _ e. e ≡ Memory };

    fn from(_error: AllocFailed<T>) -> Fault {
        Fault::Memory
    }
}

impl From<ServeFault> for Fault {
    ghost from_gives = { λ fault e. e ≡ Texts fault };

    fn from(fault: ServeFault) -> Fault {
        Fault::Texts(fault)
    }
}

impl From<RoundFault> for Fault {
    ghost from_gives = { λ fault e. e ≡ Round fault };

    fn from(fault: RoundFault) -> Fault {
        Fault::Round(fault)
    }
}

impl From<ReplayFault> for Fault {
    ghost from_gives = { λ fault e. e ≡ Replay fault };

    fn from(fault: ReplayFault) -> Fault {
        Fault::Replay(fault)
    }
}

impl From<SettleFault> for Fault {
    ghost from_gives = { λ fault e. e ≡ Settle fault };

    fn from(fault: SettleFault) -> Fault {
        Fault::Settle(fault)
    }
}

impl Fault {
    /// The fault with which a job ends, as a fault of the calls.
    fn of_job(fault: ServeFault) -> Fault
        ensures ending { result ≡ ending_of fault }
    {
        match fault {
            ServeFault::Round(fault) => Fault::Round(fault),
            ServeFault::Replay(fault) => Fault::Replay(fault),
            ServeFault::Lang(_)
            | ServeFault::Check(_)
            | ServeFault::Net(_)
            | ServeFault::Plan(_)
            | ServeFault::Report(_)
            | ServeFault::Run(_)
            | ServeFault::Write { .. }
            | ServeFault::Memory => Fault::Texts(fault),
        }
    }

    /// The number of the fault, from 1 on. 3 stands for faults that no call answers.
    pub fn number(&self) -> u32
        ensures number { result ≡ number_of self.now }
        ensures some { 0 < result }
    {
        match self {
            Fault::Texts(fault) => texts_number(*fault),
            Fault::Round(fault) => round_number(*fault),
            Fault::Replay(fault) => replay_number(*fault),
            Fault::Settle(fault) => settle_number(*fault),
            Fault::NotRising => 4,
            Fault::NoJob => 5,
            Fault::Room => 2,
            Fault::Memory => 1,
        }
    }
}

/// The number of the fault with which a job ends: 0 where it has none.
pub(crate) fn ending_number(fault: Option<ServeFault>) -> u32
    ensures none { IsNone fault → result ≡ 0 }
    ensures number { IfSome fault (λ f. result ≡ number_of (ending_of f)) }
    ensures some { IfSome fault (λ f. 0 < result) }
{
    match fault {
        None => 0,
        Some(fault) => Fault::of_job(fault).number(),
    }
}

/// The number of why texts were refused.
fn texts_number(fault: ServeFault) -> u32
    ensures number { result ≡ texts_number fault }
    ensures some { 0 < result }
{
    match fault {
        ServeFault::Lang(fault) => lang_number(fault),
        ServeFault::Check(fault) => check_number(fault),
        ServeFault::Net(fault) => net_number(fault),
        ServeFault::Plan(fault) => plan_number(fault),
        ServeFault::Report(fault) => report_number(fault),
        ServeFault::Memory => 1,
        ServeFault::Round(_)
        | ServeFault::Run(_)
        | ServeFault::Replay(_)
        | ServeFault::Write { .. } => 3,
    }
}

/// The number of why a program's text was refused.
fn lang_number(fault: LangFault) -> u32
    ensures number { result ≡ lang_number fault }
    ensures some { 0 < result }
{
    match fault {
        LangFault::Memory => 1,
        LangFault::TooLong => 16,
        LangFault::Lex { .. } => 17,
        LangFault::Syntax { .. } => 18,
    }
}

/// The number of why a program is not well formed.
fn check_number(fault: CheckFault) -> u32
    ensures number { result ≡ check_number fault }
    ensures some { 0 < result }
{
    match fault {
        CheckFault::Memory => 1,
        CheckFault::TooManyFields => 32,
        CheckFault::FieldTwice => 33,
        CheckFault::NextTwice => 34,
        CheckFault::UnknownName => 35,
        CheckFault::NeighbourOutside => 36,
        CheckFault::NestedAggregate => 37,
        CheckFault::TooManyAggregates => 38,
    }
}

/// The number of why a network was refused.
fn net_number(fault: NetFault) -> u32
    ensures number { result ≡ net_number fault }
    ensures some { 0 < result }
{
    match fault {
        NetFault::Memory => 1,
        NetFault::NotToml => 48,
        NetFault::UnknownKey => 49,
        NetFault::BadShape => 50,
        NetFault::NodeCount => 51,
        NetFault::BadLink => 52,
        NetFault::SelfLink => 53,
        NetFault::LinkTwice => 54,
        NetFault::TooManyLinks => 55,
        NetFault::TooManyNeighbours => 56,
        NetFault::BadPhase => 57,
        NetFault::BadWeight => 58,
    }
}

/// The number of why there is no plan.
fn plan_number(fault: PlanFault) -> u32
    ensures number { result ≡ plan_number fault }
    ensures some { 0 < result }
{
    match fault {
        PlanFault::Memory => 1,
        PlanFault::UnknownField => 64,
        PlanFault::BadNode => 65,
        PlanFault::BadValue => 66,
        PlanFault::SetTwice => 67,
    }
}

/// The number of why a round was refused.
fn round_number(fault: RoundFault) -> u32
    ensures number { result ≡ round_number fault }
    ensures some { 0 < result }
{
    match fault {
        RoundFault::Memory => 1,
        RoundFault::TooManyRounds => 80,
        RoundFault::RoundsBelowStart => 81,
    }
}

/// The number of why a replay was refused.
fn replay_number(fault: ReplayFault) -> u32
    ensures number { result ≡ replay_number fault }
    ensures some { 0 < result }
{
    match fault {
        ReplayFault::Memory => 1,
        ReplayFault::Schedule(fault) => schedule_number(fault),
        ReplayFault::Opening(fault) => opening_number(fault),
        ReplayFault::Read | ReplayFault::TooManyTurns | ReplayFault::Write { .. } => 3,
    }
}

/// The number of why a text is no schedule.
fn schedule_number(fault: ScheduleFault) -> u32
    ensures number { result ≡ schedule_number fault }
    ensures some { 0 < result }
{
    match fault {
        ScheduleFault::Memory => 1,
        ScheduleFault::BadLine { .. } => 96,
        ScheduleFault::TooManySteps => 97,
    }
}

/// The number of why no world was opened.
fn opening_number(fault: OpenFault) -> u32
    ensures number { result ≡ opening_number fault }
    ensures some { 0 < result }
{
    match fault {
        OpenFault::Memory => 1,
        OpenFault::StopTooLarge => 98,
        OpenFault::StopBelowStart => 99,
    }
}

/// The number of why the text of a report was refused.
fn report_number(fault: ReportFault) -> u32
    ensures number { result ≡ report_number fault }
    ensures some { 0 < result }
{
    match fault {
        ReportFault::Memory => 1,
        ReportFault::BadLine { .. } => 112,
        ReportFault::TooManyRounds => 113,
    }
}

/// The number of why it was not found out what becomes of the rounds.
fn settle_number(fault: SettleFault) -> u32
    ensures number { result ≡ settle_number fault }
    ensures some { 0 < result }
{
    match fault {
        SettleFault::Memory => 1,
        SettleFault::ReadsRound => 128,
        SettleFault::LimitTooLarge => 129,
        SettleFault::LimitBelowStart => 130,
    }
}
