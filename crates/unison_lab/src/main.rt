//! Unison's other commands, beside the five of `unison_cli`.
#![tactic(auto)]

mod commands;
mod expand;
mod expand_request;
mod help;
mod life_notation;
mod life_rule;
mod why;

use crate::commands::Task;
use crate::expand::expand_model;
use crate::help::{help_text, print_completion, print_manual};
use crate::life_rule::print_life_rule;
use crate::why::why_command;
use app_files::{Ending, print_ending, words_of};
use app_networks::{generate_network, import_network, init_network, pack_network, show_info};
use app_pictures::{make_dot, make_image, make_page};
use app_rounds::{
    count_rounds, print_cells, print_csv, report_round, run_large, settle_rounds, tell_cuts,
    watch_rounds,
};
use app_steps::{explain_schedule, make_schedule, tell_naive, verify_trace};
use std::process::ExitCode;
use std::thread::Threads;

/// The ending where a word is no command.
fn no_command(rt: &HostRuntime, word: &str) -> Result<u8, Ending> {
    let text = format!(in rt.alloc();
        "there is no command `{word}`: unison --help tells which there are"
    )?;
    Err(Ending::Usage(text))
}

/// Does what a command does by these words, its own name first. The status with which the program ends.
fn run_task(
    rt: &HostRuntime,
    threads: &(impl Threads + Sync),
    task: Task,
    words: &[String],
) -> Result<u8, Ending> {
    match task {
        Task::Cells => print_cells(rt, words),
        Task::Completion => print_completion(rt, words),
        Task::Count => count_rounds(rt, threads, words),
        Task::Csv => print_csv(rt, words),
        Task::Cuts => tell_cuts(rt, threads, words),
        Task::Dot => make_dot(rt, threads, words),
        Task::Expand => expand_model(rt, words),
        Task::Explain => explain_schedule(rt, threads, words),
        Task::Generate => generate_network(rt, words),
        Task::Image => make_image(rt, threads, words),
        Task::Import => import_network(rt, threads, words),
        Task::Info => show_info(rt, threads, words),
        Task::Init => init_network(rt, words),
        Task::Large => run_large(rt, threads, words),
        Task::LifeRule => print_life_rule(rt, words),
        Task::Lockstep => report_round(rt, threads, words),
        Task::Manual => print_manual(rt, words),
        Task::Naive => tell_naive(rt, words),
        Task::Pack => pack_network(rt, threads, words),
        Task::Page => make_page(rt, threads, words),
        Task::Schedule => make_schedule(rt, words),
        Task::Settle => settle_rounds(rt, threads, words),
        Task::Verify => verify_trace(rt, threads, words),
        Task::Watch => watch_rounds(rt, threads, words),
        Task::Why => why_command(rt, words),
    }
}

/// The ending where no command of the table is named: the help, where that is asked for.
fn no_task(rt: &HostRuntime, word: &str) -> Result<u8, Ending> {
    match word {
        "help" | "--help" | "-h" => Err(Ending::Help(help_text(rt.alloc())?)),
        word => no_command(rt, word),
    }
}

/// The ending where there is no word.
fn no_word(rt: &HostRuntime) -> Result<u8, Ending> {
    Err(Ending::Usage(help_text(rt.alloc())?))
}

/// Does what these words ask for, the name of a command first. The status with which the program ends.
fn run_words(
    rt: &HostRuntime,
    threads: &(impl Threads + Sync),
    words: &[String],
) -> Result<u8, Ending> {
    let Some(command) = words.first() else {
        return no_word(rt);
    };
    match Task::named(command.as_str()) {
        Some(task) => run_task(rt, threads, task, words),
        None => no_task(rt, command.as_str()),
    }
}

/// The words after the first one.
fn behind_first(words: &[String]) -> &[String] {
    if words.is_empty() { words } else { &words[1..] }
}

/// Does what the command line asks for. The status with which the program ends.
fn run(rt: &HostRuntime, threads: &(impl Threads + Sync)) -> Result<u8, Ending> {
    let words = words_of(rt)?;
    run_words(rt, threads, behind_first(&words))
}

/// Prints why the program ends so. The status with which it ends.
fn told(rt: &HostRuntime, ending: &Ending) -> u8 {
    let _ = print_ending(rt, ending);
    ending.status()
}

/// Does what the command line asks for. The status with which the program ends, which is told where it is an ending.
fn status_of(rt: &HostRuntime, threads: &(impl Threads + Sync)) -> u8 {
    match run(rt, threads) {
        Ok(status) => status,
        Err(ending) => told(rt, &ending),
    }
}

/// Does what the command line asks for, and ends with its status.
fn main(rt: HostRuntime) -> ExitCode {
    ExitCode::from(status_of(&rt, &rt))
}
