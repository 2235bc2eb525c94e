//! A page of the manual, for `man`: each command with its arguments.

use crate::draft::Draft;
use crate::table::{Argument, Command, Kind, Subcommand};

/// Adds a character so that `man` shows it as it is.
fn put_char(draft: &mut Draft, c: char) {
    match c {
        '-' => draft.put("\\-"),
        '\\' => draft.put("\\e"),
        _ => draft.put_char(c),
    }
}

/// Adds a text so that `man` shows it as it is.
fn put_text(draft: &mut Draft, text: &str) {
    for c in text.chars() {
        put_char(draft, c);
    }
}

/// Adds a line of text. What stands before it keeps a point at its head from being read as a request.
fn put_line(draft: &mut Draft, text: &str) {
    draft.put("\\&");
    put_text(draft, text);
    draft.put("\n");
}

/// Adds the head of the page and what the program is.
pub fn put_head(draft: &mut Draft, about: &str) {
    draft.put(".TH UNISON 1\n.SH NAME\nunison \\- ");
    put_text(draft, about);
    draft.put("\n.SH SYNOPSIS\n.B unison\n.I COMMAND WORDS..\n");
}

/// Adds the title of a group of commands.
pub fn put_title(draft: &mut Draft, title: &str) {
    draft.put(".SH ");
    draft.put(title);
    draft.put("\n");
}

/// Adds the name of a command, with that of a subcommand where there is one, and the line about it.
fn put_name(draft: &mut Draft, name: &str, subcommand: &str, about: &str) {
    draft.put(".SS ");
    put_text(draft, name);
    if !subcommand.is_empty() {
        draft.put(" ");
        put_text(draft, subcommand);
    }
    draft.put("\n");
    put_line(draft, about);
}

/// Adds an option's name, in bold type.
fn put_option(draft: &mut Draft, name: &str) {
    draft.put("\\fB\\-\\-");
    put_text(draft, name);
    draft.put("\\fR");
}

/// Adds what stands for a value, in italics.
fn put_value(draft: &mut Draft, name: &str) {
    draft.put("\\fI");
    put_text(draft, name);
    draft.put("\\fR");
}

/// Adds an option's name, and what stands for its value where it has one.
fn put_option_label(draft: &mut Draft, argument: &Argument) {
    put_option(draft, argument.name);
    if argument.kind != Kind::Flag {
        draft.put(" ");
        put_value(draft, argument.value_name);
    }
}

/// Adds an argument's names: of its option, and of its value where it has one.
fn put_label(draft: &mut Draft, argument: &Argument) {
    if argument.kind == Kind::Positional {
        put_value(draft, argument.value_name);
    } else {
        put_option_label(draft, argument);
    }
}

/// Adds arguments with their help.
fn put_arguments(draft: &mut Draft, arguments: &[Argument]) {
    for argument in arguments {
        draft.put(".TP\n");
        put_label(draft, argument);
        draft.put("\n");
        put_line(draft, argument.help);
    }
}

/// Adds what stands after the help, a paragraph for each line.
fn put_notes(draft: &mut Draft, notes: &str) {
    for line in notes.lines() {
        draft.put(".PP\n");
        put_line(draft, line);
    }
}

/// Adds a subcommand of a command, with the arguments that all of them share.
fn put_subcommand(draft: &mut Draft, command: &Command, row: &Subcommand) {
    put_name(draft, command.name, row.name, row.about);
    put_arguments(draft, row.arguments);
    put_arguments(draft, command.arguments);
    put_notes(draft, row.notes);
}

/// Adds a command with its subcommands.
pub fn put_command(draft: &mut Draft, command: &Command) {
    put_name(draft, command.name, "", command.about);
    put_arguments(draft, command.own_arguments());
    put_notes(draft, command.notes);
    for subcommand in command.subcommands {
        put_subcommand(draft, command, subcommand);
    }
}

/// Adds an argument of a command without forms: the name by which its value is found, in bold type for an option.
fn put_plain_label(draft: &mut Draft, argument: &Argument) {
    if argument.kind == Kind::Positional {
        put_value(draft, argument.name);
    } else {
        put_option(draft, argument.name);
    }
}

/// Adds a command without forms, its arguments by their names alone.
fn put_plain_command(draft: &mut Draft, row: &Subcommand) {
    put_name(draft, row.name, "", row.about);
    for argument in row.arguments {
        draft.put(".TP\n");
        put_plain_label(draft, argument);
        draft.put("\n");
        put_line(draft, argument.help);
    }
}

/// Adds a group of commands without forms.
pub fn put_plain_commands(draft: &mut Draft, title: &str, rows: &[Subcommand]) {
    put_title(draft, title);
    for row in rows {
        put_plain_command(draft, row);
    }
}
