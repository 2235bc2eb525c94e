//! What the program tells of its commands: help, the completion of a shell, and the page of the manual.

use crate::commands::{GROUPS, Group, check_completion, check_manual};
use app_files::{Ending, print_out};
use app_table::{Draft, completion, manual};
use app_words::five_commands;
use std::alloc::{AllocError, Global};

/// What the program is.
const ABOUT: &str = "Synchronous programs on networks whose nodes move at their own pace";

/// The title of the five commands.
const FIVE: &str = "Rounds and runs";

/// Adds a command and the line about it.
fn put_command(draft: &mut Draft, name: &str, about: &str) {
    draft.put("  ");
    draft.put_column(name);
    draft.put(about);
    draft.put("\n");
}

/// Adds a group of commands.
fn put_group(draft: &mut Draft, group: &Group) {
    draft.put("\n");
    draft.put(group.title);
    draft.put(":\n");
    for task in group.tasks {
        let command = task.command();
        put_command(draft, command.name, command.about);
    }
}

/// Adds the five commands.
fn put_five(draft: &mut Draft) {
    draft.put(FIVE);
    draft.put(":\n");
    for command in five_commands() {
        put_command(draft, command.name, command.about);
    }
}

/// Adds all groups.
fn put_groups(draft: &mut Draft) {
    for group in &GROUPS {
        put_group(draft, group);
    }
}

/// The commands, in groups, a line each.
pub(crate) fn help_text(alloc: Global) -> Result<String, AllocError> {
    let mut draft = Draft::new(alloc);
    draft.put(ABOUT);
    draft.put("\n\nUsage: unison COMMAND WORDS..\n\n");
    put_five(&mut draft);
    put_groups(&mut draft);
    draft.put(
        "\nThe words of a command: unison COMMAND --help\nAn example: unison lockstep examples/distance.rules examples/path.toml --rounds 2\n",
    );
    draft.end()
}

/// Adds the names of a group's commands to the script.
fn put_names(draft: &mut Draft, group: &Group) {
    for task in group.tasks {
        completion::put_word(draft, task.command().name);
    }
}

/// Adds the names of all groups' commands to the script.
fn put_all_names(draft: &mut Draft) {
    for group in &GROUPS {
        put_names(draft, group);
    }
    completion::put_names_end(draft);
}

/// Adds what a group's commands take to the script.
fn put_words(draft: &mut Draft, group: &Group) {
    for task in group.tasks {
        completion::put_command(draft, task.command());
    }
}

/// Adds what all groups' commands take to the script.
fn put_all_words(draft: &mut Draft) {
    for group in &GROUPS {
        put_words(draft, group);
    }
    completion::put_tail(draft);
}

/// The script by which Bash completes the words.
fn completion_text(alloc: Global) -> Result<String, AllocError> {
    let mut draft = Draft::new(alloc);
    completion::put_head(&mut draft, five_commands());
    put_all_names(&mut draft);
    completion::put_plain_commands(&mut draft, five_commands());
    put_all_words(&mut draft);
    draft.end()
}

/// Prints the script by which Bash completes the words. The status with which the program ends.
pub(crate) fn print_completion(rt: &HostRuntime, words: &[String]) -> Result<u8, Ending> {
    check_completion(rt.alloc(), words)?;
    let text = completion_text(rt.alloc())?;
    print_out(rt, text.as_bytes())
}

/// Adds a group's commands to the page of the manual.
fn put_pages(draft: &mut Draft, group: &Group) {
    manual::put_title(draft, group.title);
    for task in group.tasks {
        manual::put_command(draft, task.command());
    }
}

/// Adds all groups' commands to the page of the manual.
fn put_all_pages(draft: &mut Draft) {
    for group in &GROUPS {
        put_pages(draft, group);
    }
}

/// The page of the manual.
fn manual_text(alloc: Global) -> Result<String, AllocError> {
    let mut draft = Draft::new(alloc);
    manual::put_head(&mut draft, ABOUT);
    manual::put_plain_commands(&mut draft, FIVE, five_commands());
    put_all_pages(&mut draft);
    draft.end()
}

/// Prints the page of the manual. The status with which the program ends.
pub(crate) fn print_manual(rt: &HostRuntime, words: &[String]) -> Result<u8, Ending> {
    check_manual(rt.alloc(), words)?;
    let text = manual_text(rt.alloc())?;
    print_out(rt, text.as_bytes())
}
