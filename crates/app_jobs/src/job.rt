//! What is to be done.

/// What is to be done. Rounds are counted from round 0.
#[derive(Clone, Copy, Debug, PartialEq, Eq)]
pub enum Job {
    /// Print the canonical spelling of a program.
    Check,
    /// Print the report of a round.
    Lockstep {
        rounds: u32,
    },
    /// Run workers to a round and print its report; `traced` asks for the trace.
    Run {
        rounds: u32,
        workers: u32,
        traced: bool,
    },
    /// Make the steps of a schedule, up to the stop, and print the replay report.
    Replay {
        stop: u32,
    },
    /// Print whether the workers' run and the lockstep rounds agree.
    Compare {
        rounds: u32,
        workers: u32,
    },
}
