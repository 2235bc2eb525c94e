//! What is counted, and how it is shown.
ghost use Rattle.std.specs.Prelude.{◌≡◌};
ghost use Rattle.run_counts.specs.Figures.{kind_name};

/// The form of the text.
#[derive(Clone, Copy)]
pub enum CountFormat {
    /// CSV: a record of headings, and records of numbers.
    Csv,
    /// A JSON object on each line, for each record of CSV: its members are named by the headings.
    Json,
}

/// What a figure is of the values that all nodes have in a field.
#[derive(Clone, Copy)]
pub enum FigureKind {
    /// Their sum.
    Sum,
    /// The least of them.
    Least,
    /// The greatest of them.
    Most,
}

impl FigureKind {
    /// What it is called, as the option of `count` that asks for it: `sum`, `least` or `most`.
    pub fn name(self) -> &'static str
        ensures name { result.now ≡ kind_name self }
    {
        match self {
            FigureKind::Sum => "sum",
            FigureKind::Least => "least",
            FigureKind::Most => "most",
        }
    }
}

/// A further number of each round.
#[derive(Clone, Copy)]
pub struct Figure {
    pub kind: FigureKind,
    /// The place of the field whose values it is of.
    pub field: u32,
}

/// At which nodes a value stands where rounds end by it.
#[derive(Clone, Copy)]
pub enum Holders {
    /// At no node.
    NoNode,
    /// At every node.
    EveryNode,
}

/// When rounds end early: after the first round that is shown in which the nodes that have this value in the field at
/// this place are these.
#[derive(Clone, Copy)]
pub struct Until {
    pub holders: Holders,
    pub field: u32,
    pub value: u32,
}

/// What is counted of each round.
#[derive(Clone, Copy)]
pub struct Counting<'a> {
    /// The form of the text.
    pub format: CountFormat,
    /// The place of the field whose values are counted.
    pub field: u32,
    /// How many states it has: each of the values below this has a column, also where no node has it.
    pub states: u32,
    /// What its values are called, 0 and so on, by words; a value past the last is its number.
    pub names: &'a [String],
    /// The further numbers, in this order.
    pub figures: &'a [Figure],
    /// When the rounds end before the last one, where they may.
    pub until: Option<Until>,
}
