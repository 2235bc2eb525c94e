//! Why a trace does not hold.
ghost use Rattle.std.specs.Prelude.{◌≡◌};
ghost use Rattle.run_steps.specs.declared.verify.fault.VerifyFault.TheVariants.{Memory};

use std::alloc::{AllocError, AllocFailed};
use thiserror::Error;
use unison_world::OpenFault;

/// Why a trace does not hold: the fault of its first line that says nothing a line may say, or that does not hold behind
/// those before it. Lines are counted from 1. Where several faults hold of a line, the first in this order.
#[derive(Clone, Copy, Debug, PartialEq, Eq, Error)]
pub enum VerifyFault {
    /// The line is not UTF-8.
    #[error("line {line}: expected UTF-8")]
    NotUtf8 {
        line: u64,
    },
    /// A control character stands in the line: a byte below 32 other than TAB and CR, or the byte 127.
    #[error("line {line}: expected no control character but TAB and CR")]
    ControlCharacter {
        line: u64,
    },
    /// The line has more than 65,536 bytes, its LF not counted.
    #[error("line {line}: expected at most 65536 bytes")]
    LongLine {
        line: u64,
    },
    /// The line does not begin with `{`, and has none of the forms.
    #[error("line {line}: expected `NODE reads NODE: FIELD=VALUE ..`, `NODE moves: FIELD=VALUE ..` or a JSON object")]
    NoSuchLine {
        line: u64,
    },
    /// The line begins with `{`, and is no JSON.
    #[error("line {line}: expected a JSON object on one line")]
    NotJson {
        line: u64,
    },
    /// The object has neither `reads` nor one of `moves` and `turn` with the value `true`, or it has both.
    #[error("line {line}: expected an object with `reads` and a node, or with `moves` and the value true")]
    NoStep {
        line: u64,
    },
    /// What reads or moves is no node of the network.
    #[error("line {line}: expected a node of the network as the one that reads or moves")]
    NoNode {
        line: u64,
    },
    /// What is read is no neighbour of the node that reads.
    #[error("line {line}: expected a neighbour of the node that reads as the one that is read")]
    NotNeighbour {
        line: u64,
    },
    /// A word after the step is no `FIELD=VALUE` with a field of the program and a number from 0 to 4,294,967,295.
    #[error("line {line}: expected `FIELD=VALUE`, with a field of the program and a number from 0 to 4294967295")]
    BadField {
        line: u64,
    },
    /// The line gives a field two values.
    #[error("line {line}: expected each field once")]
    FieldTwice {
        line: u64,
    },
    /// The `state` of the object is no object of fields of the program with numbers from 0 to 4,294,967,295.
    #[error("line {line}: expected as `state` an object of fields of the program, with numbers from 0 to 4294967295")]
    BadState {
        line: u64,
    },
    /// The node stands at round 1,000,000,000, the last that there is.
    #[error("line {line}: node {node} stands at round 1000000000, the last that there is")]
    Stopped {
        line: u64,
        node: u32,
    },
    /// The node has read the neighbour since it last moved.
    #[error("line {line}: node {node} has read node {neighbour} since it last moved")]
    Already {
        line: u64,
        node: u32,
        neighbour: u32,
    },
    /// The neighbour has moved less often than the node that reads: it is behind.
    #[error("line {line}: node {node} is at count {own}, and node {neighbour} at count {other}: it is behind")]
    Behind {
        line: u64,
        node: u32,
        neighbour: u32,
        own: u32,
        other: u32,
    },
    /// The node moves, and has not read this neighbour since it last moved, the first of those.
    #[error("line {line}: node {node} has not read node {neighbour} since it last moved")]
    NotReady {
        line: u64,
        node: u32,
        neighbour: u32,
    },
    /// The step of this node shows the lockstep state of a node after a round, which has another value in the field at
    /// this place, the first of those; the other node's count is that before the step.
    #[error("line {line}: node {node} after round {round} has the value {due} in field {field}, found {given}")]
    Differs {
        line: u64,
        mover: u32,
        node: u32,
        count: u32,
        round: u32,
        field: u32,
        given: u32,
        due: u32,
    },
    /// Memory ran out.
    #[error("not enough memory")]
    Memory,
}

impl From<AllocError> for VerifyFault {
    ghost from_gives = { λ _ e. e ≡ Memory };

    fn from(_error: AllocError) -> VerifyFault {
        VerifyFault::Memory
    }
}

impl<T: Drop> From<AllocFailed<T>> for VerifyFault {
    ghost from_gives = { λ _ e. e ≡ Memory };

    fn from(_error: AllocFailed<T>) -> VerifyFault {
        VerifyFault::Memory
    }
}
