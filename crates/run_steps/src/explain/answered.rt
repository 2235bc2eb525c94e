//! How many steps have had each answer.
ghost use Rattle.std.specs.Prelude.{◌≡◌, ◌+◌, ◌<◌, ◌^◌};

use unison_world::Answer;

/// How many steps have had each answer.
#[derive(Clone, Copy)]
pub(crate) struct Answered {
    pub taken: u64,
    pub moved: u64,
    pub behind: u64,
    pub already: u64,
    pub not_ready: u64,
    pub stopped: u64,
    pub no_node: u64,
    pub no_slot: u64,
}

impl Answered {
    ghost use Rattle.run_steps.specs.explain.Summaries.{none_answered, refused_in, total, with_answer};

    /// No answers.
    pub(crate) fn none() -> Answered
        ensures { result ≡ none_answered }
    {
        Answered {
            taken: 0,
            moved: 0,
            behind: 0,
            already: 0,
            not_ready: 0,
            stopped: 0,
            no_node: 0,
            no_slot: 0,
        }
    }

    /// These and one answer more.
    pub(crate) fn and(self, answer: Answer) -> Answered
        requires room { total self + 1 < 2 ^ 64 }
        ensures more { result ≡ with_answer self answer }
        ensures one { total result ≡ total self + 1 }
    {
        let mut answered = self;
        match answer {
            Answer::Taken => answered.taken += 1,
            Answer::Moved => answered.moved += 1,
            Answer::Behind => answered.behind += 1,
            Answer::Already => answered.already += 1,
            Answer::NotReady => answered.not_ready += 1,
            Answer::Stopped => answered.stopped += 1,
            Answer::NoNode => answered.no_node += 1,
            Answer::NoSlot => answered.no_slot += 1,
        }
        answered
    }

    /// How many answers refuse their step.
    pub(crate) fn refused(self) -> u64
        requires room { total self < 2 ^ 64 }
        ensures { result ≡ refused_in self }
    {
        self.behind + self.already + self.not_ready + self.stopped + self.no_node + self.no_slot
    }

    /// How many answers there are.
    pub(crate) fn total(self) -> u64
        requires room { total self < 2 ^ 64 }
        ensures { result ≡ total self }
    {
        self.taken + self.moved + self.refused()
    }
}
