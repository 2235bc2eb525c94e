//! All commands of the program, in groups.

use crate::expand_request::expand_command;
use crate::life_rule::life_rule_command;
use app_networks::{generate_command, import_command, info_command, init_command, pack_command};
use app_pictures::{dot_command, image_command, page_command};
use app_rounds::{
    cells_command, count_command, csv_command, cuts_command, large_command, lockstep_command,
    settle_command, watch_command,
};
use app_steps::{explain_command, naive_command, schedule_command, verify_command};
use app_table::{Command, Subcommand, WordsFault, parse};
use std::alloc::Global;

/// `why`, the words of which are those of one of the five commands.
static WHY: Command = Command {
    name: "why",
    aliases: &[],
    called: "unison why",
    about: "Tell why a command refuses its texts: the place, what is wrong, what to do",
    notes: "",
    arguments: &[],
    subcommands: &[],
};

/// `completion` and the shells that it knows.
static COMPLETION: Command = Command {
    name: "completion",
    aliases: &[],
    called: "unison completion",
    about: "Print a script by which a shell completes these words",
    notes: "An example, in a shell's start file: source <(unison completion bash)\n",
    arguments: &[],
    subcommands: &[Subcommand {
        name: "bash",
        about: "For Bash 4 or later",
        notes: "",
        arguments: &[],
    }],
};

/// `manual`.
static MANUAL: Command = Command {
    name: "manual",
    aliases: &[],
    called: "unison manual",
    about: "Print the page of the manual about all commands",
    notes: "An example: unison manual | man -l -\n",
    arguments: &[],
    subcommands: &[],
};

/// What a command does.
#[derive(Clone, Copy)]
pub enum Task {
    Cells,
    Completion,
    Count,
    Csv,
    Cuts,
    Dot,
    Expand,
    Explain,
    Generate,
    Image,
    Import,
    Info,
    Init,
    Large,
    LifeRule,
    Lockstep,
    Manual,
    Naive,
    Pack,
    Page,
    Schedule,
    Settle,
    Verify,
    Watch,
    Why,
}

/// Commands that belong together.
#[derive(Clone, Copy)]
pub struct Group {
    pub title: &'static str,
    pub tasks: &'static [Task],
}

/// The commands of this program, in groups.
pub const GROUPS: [Group; 5] = [
    Group {
        title: "Models",
        tasks: &[Task::Expand, Task::LifeRule],
    },
    Group {
        title: "Runs in detail",
        tasks: &[
            Task::Watch,
            Task::Count,
            Task::Settle,
            Task::Cuts,
            Task::Schedule,
            Task::Explain,
            Task::Naive,
            Task::Verify,
        ],
    },
    Group {
        title: "Pictures",
        tasks: &[Task::Page, Task::Image, Task::Dot],
    },
    Group {
        title: "Networks",
        tasks: &[
            Task::Generate,
            Task::Import,
            Task::Init,
            Task::Info,
            Task::Csv,
            Task::Cells,
        ],
    },
    Group {
        title: "Help",
        tasks: &[Task::Why, Task::Completion, Task::Manual],
    },
];

/// Commands of this program that no text lists with the others: `lockstep` stands among those of another program, and for
/// what `pack` and `large` do there are others.
static UNLISTED: Group = Group {
    title: "",
    tasks: &[Task::Lockstep, Task::Pack, Task::Large],
};

impl Group {
    /// The command of this group that has this name or alias, where one has.
    fn named(&self, word: &str) -> Option<Task> {
        for task in self.tasks {
            if task.command().is_called(word) {
                return Some(*task);
            }
        }
        None
    }
}

impl Task {
    /// The table of the command.
    pub fn command(self) -> &'static Command {
        match self {
            Task::Cells => cells_command(),
            Task::Completion => &COMPLETION,
            Task::Count => count_command(),
            Task::Csv => csv_command(),
            Task::Cuts => cuts_command(),
            Task::Dot => dot_command(),
            Task::Expand => expand_command(),
            Task::Explain => explain_command(),
            Task::Generate => generate_command(),
            Task::Image => image_command(),
            Task::Import => import_command(),
            Task::Info => info_command(),
            Task::Init => init_command(),
            Task::Large => large_command(),
            Task::LifeRule => life_rule_command(),
            Task::Lockstep => lockstep_command(),
            Task::Manual => &MANUAL,
            Task::Naive => naive_command(),
            Task::Pack => pack_command(),
            Task::Page => page_command(),
            Task::Schedule => schedule_command(),
            Task::Settle => settle_command(),
            Task::Verify => verify_command(),
            Task::Watch => watch_command(),
            Task::Why => &WHY,
        }
    }

    /// What the command does that has this name or alias, where one has.
    pub fn named(word: &str) -> Option<Task> {
        for group in &GROUPS {
            if let Some(task) = group.named(word) {
                return Some(task);
            }
        }
        UNLISTED.named(word)
    }
}

/// Reads the words of `completion`, which name a shell: `Usage` where they name none that it knows.
pub fn check_completion(alloc: Global, line: &[String]) -> Result<(), WordsFault> {
    let _words = parse(alloc, &COMPLETION, line)?;
    Ok(())
}

/// Reads the words of `manual`, which takes none: `Usage` where there are some.
pub fn check_manual(alloc: Global, line: &[String]) -> Result<(), WordsFault> {
    let _words = parse(alloc, &MANUAL, line)?;
    Ok(())
}
