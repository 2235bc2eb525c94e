//! What is told of a fault.

/// A text, with the name under which people know it: the path of its file.
#[derive(Clone, Copy)]
pub struct Named<'a> {
    pub name: &'a str,
    pub text: &'a [u8],
}

/// The texts of a job; one that the job does not read is not there.
#[derive(Clone, Copy)]
pub struct Texts<'a> {
    pub program: Named<'a>,
    pub network: Option<Named<'a>>,
    /// The report to go on from.
    pub report: Option<Named<'a>>,
    pub schedule: Option<Named<'a>>,
}

/// One of the texts of a job.
#[derive(Clone, Copy)]
pub(crate) enum Part {
    Program,
    Network,
    Report,
    Schedule,
}

/// What is told of a fault: in which text it lies and at which byte, what is wrong, and what to do.
#[derive(Drop)]
pub(crate) struct Told {
    /// The text; none where the fault lies in no text.
    pub(crate) part: Option<Part>,
    /// The byte, counted from 0, where it is known.
    pub(crate) at: Option<usize>,
    /// What is wrong, in one line.
    pub(crate) what: String,
    /// What to do: lines with LF between, or nothing.
    pub(crate) hint: String,
}
