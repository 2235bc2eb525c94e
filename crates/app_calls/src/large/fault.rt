//! Why a call was not done, and the numbers of the faults.
ghost use Rattle.std.specs.Prelude.{◌≡◌, ◌<◌};
ghost use Rattle.app_calls.specs.declared.fault.Fault.TheVariants as call;
ghost use Rattle.app_calls.specs.declared.large.fault.LargeCallFault.TheVariants.{Call, Lists, Part};
ghost use Rattle.app_calls.specs.ListNumbers.{large_number_of, lists_number, part_number, place_of, rows_number};

use crate::Fault;
use app_jobs::ServeFault;
use large_net::LargeFault;
use rounds_plan::RoundFault;
use rounds_walk::part_rounds::PartFault;
use std::alloc::AllocError;

/// Why the lists of a network are refused.
#[derive(Clone, Copy, Debug, PartialEq, Eq)]
pub enum ListsFault {
    /// They are no rows.
    Rows(LargeFault),
    /// There are so many weights, and as many neighbours as another number.
    WeightCount { weights: u64 },
}

/// The first fault on the way from the text and the lists to the answer.
#[derive(Clone, Copy, Debug, PartialEq, Eq)]
pub enum LargeCallFault {
    /// The program or the round was refused, or memory ran out, as with the calls on texts.
    Call(Fault),
    /// The lists of the network were refused.
    Lists(ListsFault),
    /// There is not one word for each field of each node.
    WordCount,
    /// Numbers, words or room do not fit the rows of a part.
    Part(PartFault),
    /// The program lacks the field that is to be counted.
    NoField,
    /// There are more values than are counted.
    TooManyValues,
}

impl From<ServeFault> for LargeCallFault {
    ghost from_gives = { λ fault e. e ≡ Call (call.Texts fault) };

    fn from(fault: ServeFault) -> LargeCallFault {
        LargeCallFault::Call(Fault::Texts(fault))
    }
}

impl From<Fault> for LargeCallFault {
    ghost from_gives = { λ fault e. e ≡ Call fault };

    fn from(fault: Fault) -> LargeCallFault {
        LargeCallFault::Call(fault)
    }
}

impl From<RoundFault> for LargeCallFault {
    ghost from_gives = { λ fault e. e ≡ Call (call.Round fault) };

    fn from(fault: RoundFault) -> LargeCallFault {
        LargeCallFault::Call(Fault::Round(fault))
    }
}

impl From<ListsFault> for LargeCallFault {
    ghost from_gives = { λ fault e. e ≡ Lists fault };

    fn from(fault: ListsFault) -> LargeCallFault {
        LargeCallFault::Lists(fault)
    }
}

impl From<PartFault> for LargeCallFault {
    ghost from_gives = { λ fault e. e ≡ Part fault };

    fn from(fault: PartFault) -> LargeCallFault {
        LargeCallFault::Part(fault)
    }
}

impl From<AllocError> for LargeCallFault {
    ghost from_gives = { λ _ e. e ≡ Call call.Memory };

    fn from(_error: AllocError) -> LargeCallFault {
        LargeCallFault::Call(Fault::Memory)
    }
}

impl LargeCallFault {
    /// The number of the fault, from 1 on. 3 stands for faults that no call answers.
    pub fn number(&self) -> u32
        ensures number { result ≡ large_number_of self.now }
        ensures some { 0 < result }
    {
        match self {
            LargeCallFault::Call(fault) => fault.number(),
            LargeCallFault::Lists(fault) => fault.number(),
            LargeCallFault::WordCount => 149,
            LargeCallFault::Part(fault) => part_number(*fault),
            LargeCallFault::NoField => 152,
            LargeCallFault::TooManyValues => 153,
        }
    }
}

impl ListsFault {
    /// The number of the fault, from 1 on. 3 stands for faults that no call answers.
    pub fn number(&self) -> u32
        ensures number { result ≡ lists_number self.now }
        ensures some { 0 < result }
    {
        match self {
            ListsFault::Rows(fault) => rows_number(*fault),
            ListsFault::WeightCount { .. } => 148,
        }
    }

    /// Where the fault lies: the place in the list of offsets or of neighbours, the node that has too many neighbours, or,
    /// where a list has another length than it should, how many nodes or weights there are.
    pub fn place(&self) -> u64
        ensures place { result ≡ place_of self.now }
    {
        match self {
            ListsFault::Rows(LargeFault::NodeCount { nodes }) => *nodes,
            ListsFault::Rows(LargeFault::Offsets { node }) => *node,
            ListsFault::Rows(LargeFault::TooManyNeighbours { node }) => *node,
            ListsFault::Rows(LargeFault::Neighbour { end }) => *end,
            ListsFault::WeightCount { weights } => *weights,
            ListsFault::Rows(
                LargeFault::Magic
                | LargeFault::Header
                | LargeFault::Length { .. }
                | LargeFault::Memory,
            ) => 0,
        }
    }
}

/// The number of what does not fit the rows of a part.
fn part_number(fault: PartFault) -> u32
    ensures number { result ≡ part_number fault }
    ensures some { 0 < result }
{
    match fault {
        PartFault::WordCount => 149,
        PartFault::NumberCount => 150,
        PartFault::RoomCount => 151,
    }
}

/// The number of why lists are no rows.
fn rows_number(fault: LargeFault) -> u32
    ensures number { result ≡ rows_number fault }
    ensures some { 0 < result }
{
    match fault {
        LargeFault::Memory => 1,
        LargeFault::NodeCount { .. } => 144,
        LargeFault::Offsets { .. } => 145,
        LargeFault::TooManyNeighbours { .. } => 146,
        LargeFault::Neighbour { .. } => 147,
        LargeFault::Magic | LargeFault::Header | LargeFault::Length { .. } => 3,
    }
}
