//! Runs that are counted together.

use rounds_walk::PlanRef;

/// A value of what varies from run to run.
#[derive(Drop)]
pub enum SettingValue {
    Number(u32),
    /// A decimal, as it is written: digits with a point between them.
    Decimal(String),
    /// A name: a letter, and then letters, digits and `_`.
    Name(String),
}

/// What varies from run to run, and its value in some of them.
#[derive(Drop)]
pub struct Setting {
    /// How it is called above its values: letters, digits and `_`.
    pub name: String,
    pub value: SettingValue,
}

/// A run of an ensemble.
#[derive(Clone, Copy)]
pub struct Variant<'a> {
    /// What varies, with its value in this run, in the order in which it is shown.
    pub settings: &'a [Setting],
    /// Its program on its network, of any size, with the states from which it starts.
    pub plan: &'a PlanRef<'a>,
}

/// Runs of which there is one mean.
#[derive(Clone, Copy)]
pub struct Group<'a> {
    /// What these runs have in common of what varies, in the order in which it is shown.
    pub settings: &'a [Setting],
}

/// Runs that are counted together: those of a program with other constants, say, or from other initial states.
#[derive(Clone, Copy)]
pub struct Ensemble<'a> {
    /// The runs, in the order in which they are shown. The fields are called as in the program of the first of them, and
    /// what varies as in it.
    pub variants: &'a [Variant<'a>],
    /// The groups of runs of which there are means, in the order of their runs: the first runs are those of the first group.
    pub groups: &'a [Group<'a>],
    /// How many runs each group has.
    pub size: usize,
    /// Of which quantiles there are columns beside the means, in percents from 0 to 100; a greater one is as 100.
    pub quantiles: &'a [u8],
}
