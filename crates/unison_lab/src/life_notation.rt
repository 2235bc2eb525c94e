//! Rules of cells that count their living neighbours, as others write them: Life-like ones, as `B36/S23`, Generations, as
//! `345/2/4`, and both over hexagons and the four nearest cells.

use app_table::number;

/// The most states that the cells of a model have.
pub(crate) const MOST_STATES: u32 = 256;

/// Which cells are neighbours of a cell.
#[derive(Clone, Copy, PartialEq, Eq)]
pub(crate) enum Neighbourhood {
    /// The eight around it (Moore's).
    Eight,
    /// The six around a hexagon: a rule ends in `H`.
    Hexagonal,
    /// The four beside, above and below it (von Neumann's): a rule ends in `V`.
    Four,
}

impl Neighbourhood {
    /// How many neighbours a cell has.
    pub(crate) fn cells(self) -> u32 {
        match self {
            Neighbourhood::Eight => 8,
            Neighbourhood::Hexagonal => 6,
            Neighbourhood::Four => 4,
        }
    }
}

/// Some of the numbers of neighbours that a cell may have.
#[derive(Clone, Copy)]
pub(crate) struct Numbers {
    /// A bit for each number that is there.
    bits: u32,
    /// The greatest number of neighbours.
    most: u32,
}

impl Numbers {
    /// The greatest number of neighbours.
    pub(crate) fn most(self) -> u32 {
        self.most
    }

    /// Whether a number is there.
    pub(crate) fn has(self, count: u32) -> bool {
        count < 32 && self.bits >> count & 1 == 1
    }

    /// Whether none is there.
    pub(crate) fn is_empty(self) -> bool {
        self.bits == 0
    }

    /// Whether all are there.
    pub(crate) fn is_all(self) -> bool {
        self.has(0) && self.last_from(0) == self.most
    }

    /// The last of the numbers that follow one another from one that is there.
    pub(crate) fn last_from(self, first: u32) -> u32 {
        for count in first..self.most {
            if !self.has(count.saturating_add(1)) {
                return count;
            }
        }
        self.most
    }

    /// The same with the number of neighbours that a digit names.
    fn with_digit(self, digit: u8) -> Result<Numbers, NotationFault> {
        if !digit.is_ascii_digit() {
            return Err(letter_fault(self, digit));
        }
        let count = u32::from(digit - b'0');
        if count > self.most {
            return Err(NotationFault::TooMany);
        }
        Ok(Numbers {
            bits: self.bits | 1 << count,
            most: self.most,
        })
    }

    /// The numbers that digits name, of so many neighbours at most.
    fn of(digits: &str, most: u32) -> Result<Numbers, NotationFault> {
        let mut numbers = Numbers { bits: 0, most };
        for digit in digits.bytes() {
            numbers = numbers.with_digit(digit)?;
        }
        Ok(numbers)
    }
}

/// What is wrong with a character that is no digit, after such numbers.
fn letter_fault(numbers: Numbers, letter: u8) -> NotationFault {
    if !numbers.is_empty() && (letter.is_ascii_lowercase() || letter == b'-') {
        NotationFault::Arrangements
    } else {
        NotationFault::NoForm
    }
}

/// A rule of cells that count their living neighbours.
#[derive(Clone, Copy)]
pub(crate) struct LifeRule {
    /// With how many living neighbours a dead cell is born.
    pub(crate) born: Numbers,
    /// With how many living neighbours a cell stays alive.
    pub(crate) stays: Numbers,
    /// How many states a cell has: dead, alive, and above 2 those through which it goes when it dies.
    pub(crate) states: u32,
    pub(crate) neighbourhood: Neighbourhood,
}

/// What is wrong with the notation of a rule.
#[derive(Clone, Copy, PartialEq, Eq)]
pub(crate) enum NotationFault {
    /// It has none of the forms.
    NoForm,
    /// A letter stands after a number, which names some arrangements of so many neighbours.
    Arrangements,
    /// A number of neighbours is greater than cells have.
    TooMany,
    /// There are fewer than 2 states, or more than `MOST_STATES`.
    States,
}

/// The neighbourhood that a word's last letter names, and the word without it.
fn neighbourhood_in(word: &str) -> (&str, Neighbourhood) {
    if let Some(rest) = word.strip_suffix('H').or(word.strip_suffix('h')) {
        return (rest, Neighbourhood::Hexagonal);
    }
    match word.strip_suffix('V').or(word.strip_suffix('v')) {
        Some(rest) => (rest, Neighbourhood::Four),
        None => (word, Neighbourhood::Eight),
    }
}

/// What stands after one of two letters at the front of a word.
fn after_letter(word: &str, upper: char, lower: char) -> Option<&str> {
    word.strip_prefix(upper).or(word.strip_prefix(lower))
}

/// The parts of a rule: numbers with which cells are born, those with which they stay alive, and how many states there are.
type Parts<'a> = (&'a str, &'a str, Option<&'a str>);

/// The parts of what stands after `B`: `3/S23`, `3S23`, `2/S/C3` or `2/S/3`.
fn lettered_parts(rest: &str) -> Option<Parts<'_>> {
    let (born, rest) = rest.split_once('S').or(rest.split_once('s'))?;
    let born = born.strip_suffix('/').unwrap_or(born);
    match rest.split_once('/') {
        Some((stays, states)) => {
            let states = after_letter(states, 'C', 'c').unwrap_or(states);
            Some((born, stays, Some(states)))
        }
        None => Some((born, rest, None)),
    }
}

/// The parts of a rule without letters: `23/3` or `345/2/4`, those with which cells stay alive first.
fn plain_parts(word: &str) -> Option<Parts<'_>> {
    let (stays, rest) = word.split_once('/')?;
    match rest.split_once('/') {
        Some((born, states)) => Some((born, stays, Some(states))),
        None => Some((rest, stays, None)),
    }
}

/// The parts of a rule.
fn parts_of(word: &str) -> Option<Parts<'_>> {
    match after_letter(word, 'B', 'b') {
        Some(rest) => lettered_parts(rest),
        None => plain_parts(word),
    }
}

/// How many states a word names; two where there is none.
fn states_of(word: Option<&str>) -> Result<u32, NotationFault> {
    let Some(word) = word else {
        return Ok(2);
    };
    match number(word, 2, MOST_STATES) {
        Some(states) => Ok(states),
        None if number(word, 0, u32::MAX).is_some() => Err(NotationFault::States),
        None => Err(NotationFault::NoForm),
    }
}

impl LifeRule {
    /// The rule that a word writes.
    pub(crate) fn of(word: &str) -> Result<LifeRule, NotationFault> {
        let (word, neighbourhood) = neighbourhood_in(word);
        let Some((born, stays, states)) = parts_of(word) else {
            return Err(NotationFault::NoForm);
        };
        let most = neighbourhood.cells();
        Ok(LifeRule {
            born: Numbers::of(born, most)?,
            stays: Numbers::of(stays, most)?,
            states: states_of(states)?,
            neighbourhood,
        })
    }
}
