//! Several runs of a model: one for each choice of the values of its constants that have several.
ghost use Rattle.std.specs.Prelude.{IfOk, IfSome};
ghost use Rattle.app_rounds.specs.Requests.{HasRuns, IsMeanSize};

use crate::varied::{MOST_SWEPT, Varied};
use app_commands::{FLAG, decimal_of};
use app_files::{ConstantValue, ConstantWord, Ending, given_constants};
use app_table::{Argument, OPTION, Reading, WordsFault};
use model_rules::Given;
use run_counts::{MOST_RUNS, Setting, SettingValue};
use std::alloc::{AllocError, Global};

pub(crate) const MEAN: Argument = Argument {
    name: "mean",
    help: "In place of each run the means over the values of seed, or of the one constant that has several: for each round how many runs there are, with --until how many of them go on to it, and for each column the mean and the standard deviation of the sample; a run that has ended keeps its last numbers. Where other constants have several values, too, there are means for each choice of theirs",
    ..FLAG
};

/// `MEAN`, as it is read.
static MEAN_ARGUMENT: Argument = MEAN;

pub(crate) const OVER: Argument = Argument {
    name: "over",
    value_name: "NAME",
    help: "The constant over whose values the means are, where it is not seed",
    needs: Some("mean"),
    ..OPTION
};

/// `OVER`, as it is read.
static OVER_ARGUMENT: Argument = OVER;

/// The runs of a model that are counted together: one for each choice of a value of each constant that has several.
#[derive(Drop)]
pub struct Sweep {
    /// The constants that have several values, in the order in which they are shown. The last one changes from each run to
    /// the next, the one before it where that begins again, and so on.
    pub varied: Vec<Varied>,
    /// How many runs there are: one at least.
    pub runs: usize,
    /// How many of them each mean is of, one at least, where means are shown in place of each run: as many as the last
    /// constant has values.
    pub means: Option<usize>,
}

/// How many runs there are of these constants, where they can be counted together.
fn runs_of(varied: &[Varied]) -> Option<usize> {
    let mut runs = 1usize;
    for constant in varied {
        runs = runs.checked_mul(constant.words.len())?;
        if runs > MOST_SWEPT {
            return None;
        }
    }
    Some(runs)
}

/// What is told where there are more choices of values than runs are counted together.
fn too_many_runs(alloc: Global) -> WordsFault {
    WordsFault::told(format!(in alloc;
        "--const: there are more than {MOST_SWEPT} choices of the values; at most {MOST_SWEPT} runs are counted together"
    ))
}

/// The runs of constants that have several values, with means of so many of them where they are asked for.
fn sweep_of(alloc: Global, varied: Vec<Varied>, means: Option<usize>) -> Result<Sweep, WordsFault>
    requires means { IfSome means IsMeanSize }
    ensures runs { IfOk result HasRuns }
{
    match runs_of(&varied) {
        Some(runs) if runs > 0 => Ok(Sweep {
            varied,
            runs,
            means,
        }),
        _ => Err(too_many_runs(alloc)),
    }
}

/// The place of the constant of this name.
fn place_of(varied: &[Varied], name: &str) -> Option<usize> {
    varied
        .iter()
        .position(|constant| constant.name.as_str() == name)
}

/// What is told where means are over a constant that has not several values.
fn no_several(alloc: Global, name: &str) -> WordsFault {
    WordsFault::told(format!(in alloc;
        "--over: `{name}` has not several values, over which the means could be; --const {name}=FIRST..LAST gives it some"
    ))
}

/// What is told where it is not said over which constant means are.
fn which_over(alloc: Global, one: &str, other: &str) -> WordsFault {
    WordsFault::told(format!(in alloc;
        "--mean: `{one}` and `{other}` have several values each; --over NAME says over which of them the means are"
    ))
}

/// The place of the constant over whose values means are.
fn averaged(alloc: Global, varied: &[Varied], over: &Option<String>) -> Result<usize, WordsFault> {
    if let Some(name) = over {
        return match place_of(varied, name.as_str()) {
            Some(place) => Ok(place),
            None => Err(no_several(alloc, name.as_str())),
        };
    }
    match (varied, place_of(varied, "seed")) {
        (_, Some(place)) => Ok(place),
        ([one, other, ..], None) => Err(which_over(alloc, one.name.as_str(), other.name.as_str())),
        _ => Ok(0),
    }
}

/// What is told where a mean would be over too many runs.
fn too_many_in_mean(alloc: Global, values: usize) -> WordsFault {
    WordsFault::told(format!(in alloc;
        "--mean: a mean is over {MOST_RUNS} runs at most, and there are {values} values"
    ))
}

/// The constants with the one at a place last, and how many values that has; none where there is none at the place.
fn with_last(mut varied: Vec<Varied>, place: usize) -> Result<(Vec<Varied>, usize), AllocError> {
    if place >= varied.len() {
        return Ok((varied, 0));
    }
    let last = varied.remove(place);
    let values = last.words.len();
    varied.push(last)?;
    Ok((varied, values))
}

/// The runs whose means are shown, over the values of one of the constants.
fn mean_sweep(
    alloc: Global,
    varied: Vec<Varied>,
    over: &Option<String>,
) -> Result<Sweep, WordsFault>
    ensures runs { IfOk result HasRuns }
{
    let place = averaged(alloc, &varied, over)?;
    let (varied, values) = with_last(varied, place)?;
    if values < 1 || values > MOST_RUNS {
        return Err(too_many_in_mean(alloc, values));
    }
    sweep_of(alloc, varied, Some(values))
}

/// The runs of these constants, where some have several values.
fn asked_sweep(
    alloc: Global,
    varied: Vec<Varied>,
    means: bool,
    over: &Option<String>,
) -> Result<Option<Sweep>, WordsFault>
    ensures runs { IfOk result (λ sweep. IfSome sweep HasRuns) }
{
    match (varied.is_empty(), means) {
        (true, false) => Ok(None),
        (true, true) => Err(WordsFault::told(String::from_str(
            alloc,
            "--mean: there are means of several runs alone; --const NAME=FIRST..LAST asks for them",
        ))),
        (false, false) => Ok(Some(sweep_of(alloc, varied, None)?)),
        (false, true) => Ok(Some(mean_sweep(alloc, varied, over)?)),
    }
}

/// The runs of these constants that are asked for, where some have several values.
pub(crate) fn sweep_in(reading: &mut Reading, varied: Vec<Varied>) -> Option<Sweep>
    ensures runs { IfSome result HasRuns }
{
    let means = reading.has(&MEAN_ARGUMENT);
    let over = reading.text(&OVER_ARGUMENT);
    match asked_sweep(reading.alloc(), varied, means, &over) {
        Ok(sweep) => sweep,
        Err(fault) => {
            reading.refuse(fault);
            None
        }
    }
}

/// The places of the values that the constants have in a run.
pub(crate) fn places_at(
    alloc: Global,
    sweep: &Sweep,
    run: usize,
) -> Result<Vec<usize>, AllocError> {
    let mut places = Vec::new(alloc);
    let mut others = sweep.runs;
    for constant in &sweep.varied {
        let values = constant.words.len().max(1);
        others /= values;
        places.push(run / others.max(1) % values)?;
    }
    Ok(places)
}

/// The value of a constant, as it is shown.
fn setting_value(alloc: Global, value: &ConstantValue) -> Result<SettingValue, AllocError> {
    match value {
        ConstantValue::Number(number) => Ok(SettingValue::Number(*number)),
        ConstantValue::Chance(billionths) => {
            let text = decimal_of(alloc, *billionths)?;
            Ok(SettingValue::Decimal(text))
        }
        ConstantValue::State(name) => {
            let name = String::from_str(alloc, name.as_str())?;
            Ok(SettingValue::Name(name))
        }
    }
}

/// Puts a constant with its value after the others.
fn put_setting(
    settings: &mut Vec<Setting>,
    alloc: Global,
    word: &ConstantWord,
) -> Result<(), AllocError> {
    let value = setting_value(alloc, &word.value)?;
    let name = String::from_str(alloc, word.name.as_str())?;
    settings.push(Setting { name, value })?;
    Ok(())
}

/// The constants that have several values, with those at these places.
pub(crate) fn settings_at(
    alloc: Global,
    varied: &[Varied],
    places: &[usize],
) -> Result<Vec<Setting>, AllocError> {
    let mut settings = Vec::new(alloc);
    for (constant, place) in varied.iter().zip(places) {
        if let Some(word) = constant.words.get(*place) {
            put_setting(&mut settings, alloc, word)?;
        }
    }
    Ok(settings)
}

/// The constants of the model of a text, as numbers: those that have one value, and each of the values of the others.
#[derive(Drop)]
pub(crate) struct Constants {
    given: Vec<Given>,
    varied: Vec<Vec<Given>>,
}

impl Constants {
    /// The constants that words give values in the model of a text.
    pub(crate) fn of(
        alloc: Global,
        text: &[u8],
        given: &[ConstantWord],
        varied: &[Varied],
    ) -> Result<Constants, Ending> {
        let mut constants = Constants {
            given: given_constants(alloc, text, given)?,
            varied: Vec::new(alloc),
        };
        for constant in varied {
            let numbers = given_constants(alloc, text, &constant.words)?;
            constants.varied.push(numbers)?;
        }
        Ok(constants)
    }

    /// The constants of a run: those that have one value, and the others with the values at these places.
    pub(crate) fn at(&self, alloc: Global, places: &[usize]) -> Result<Vec<Given>, AllocError> {
        let mut chosen = Vec::new(alloc);
        for constant in &self.given {
            put_given(&mut chosen, alloc, constant)?;
        }
        self.put_chosen(&mut chosen, alloc, places)?;
        Ok(chosen)
    }

    /// Puts the constants that have several values, with those at these places, after the others.
    fn put_chosen(
        &self,
        chosen: &mut Vec<Given>,
        alloc: Global,
        places: &[usize],
    ) -> Result<(), AllocError> {
        for (values, place) in self.varied.iter().zip(places) {
            if let Some(constant) = values.get(*place) {
                put_given(chosen, alloc, constant)?;
            }
        }
        Ok(())
    }
}

/// Puts a constant after the others.
fn put_given(
    constants: &mut Vec<Given>,
    alloc: Global,
    constant: &Given,
) -> Result<(), AllocError> {
    let name = String::from_str(alloc, constant.name.as_str())?;
    let value = constant.value;
    constants.push(Given { name, value })?;
    Ok(())
}

/// The value of the constant `seed`, where it is among these.
pub(crate) fn seed_among(constants: &[Given]) -> Option<u32> {
    for constant in constants {
        if constant.name.as_str() == "seed" {
            return Some(constant.value);
        }
    }
    None
}
