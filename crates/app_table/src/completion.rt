//! A script by which Bash completes words: commands and their subcommands, options, choices, and else files.

use crate::draft::Draft;
use crate::table::{Argument, Choice, Command, Kind, Subcommand, Value};

/// What stands before the words of each command.
const HEAD: &str = r#"# Completes the words of unison in Bash: source <(unison completion bash)
_unison() {
  local at=1 current=${COMP_WORDS[COMP_CWORD]} previous=${COMP_WORDS[COMP_CWORD - 1]}
  local command= form= words= options=
  if [ "$COMP_CWORD" -gt 1 ] && [ "${COMP_WORDS[1]}" = why ]; then at=2; fi
  if [ "$COMP_CWORD" -gt "$at" ]; then command=${COMP_WORDS[at]}; fi
  if [ "$COMP_CWORD" -gt $((at + 1)) ]; then form=${COMP_WORDS[at + 1]}; fi
  case $command:$form in
"#;

/// What stands after them.
const TAIL: &str = r#"  esac
  case $current in
  -*) COMPREPLY=($(compgen -W "$options --help" -- "$current")) ;;
  *) COMPREPLY=($(compgen -W "$words" -- "$current")) ;;
  esac
}
complete -o default -F _unison unison
"#;

/// Adds a word to those of a string, with a blank between two.
pub fn put_word(draft: &mut Draft, word: &str) {
    if !draft.ends_with('"') {
        draft.put(" ");
    }
    draft.put(word);
}

/// Adds an option to those of a string, with a blank between two.
fn put_option(draft: &mut Draft, name: &str) {
    put_word(draft, "--");
    draft.put(name);
}

/// Adds the names of subcommands.
fn put_names(draft: &mut Draft, rows: &[Subcommand]) {
    for row in rows {
        put_word(draft, row.name);
    }
}

/// Adds the head of the script and the names of commands without forms, after which other names may be added by `put_word`.
pub fn put_head(draft: &mut Draft, rows: &[Subcommand]) {
    draft.put(HEAD);
    draft.put("  :) words=\"");
    put_names(draft, rows);
}

/// Adds the end of the names.
pub fn put_names_end(draft: &mut Draft) {
    draft.put("\" ;;\n");
}

/// Adds the names of the options among arguments.
fn put_option_names(draft: &mut Draft, arguments: &[Argument]) {
    for argument in arguments {
        if argument.kind != Kind::Positional {
            put_option(draft, argument.name);
        }
    }
}

/// Adds the options of a command without forms.
fn put_plain_command(draft: &mut Draft, row: &Subcommand) {
    draft.put("  ");
    draft.put(row.name);
    draft.put(":*) options=\"");
    put_option_names(draft, row.arguments);
    draft.put("\" ;;\n");
}

/// Adds the options of commands without forms.
pub fn put_plain_commands(draft: &mut Draft, rows: &[Subcommand]) {
    for row in rows {
        put_plain_command(draft, row);
    }
}

/// Adds a form of a command that is called so.
fn put_form(draft: &mut Draft, name: &str, form: &str) {
    draft.put(name);
    draft.put(":");
    draft.put(form);
}

/// Adds the pattern for a command, by its name and its aliases, and a form, `*` for any.
fn put_pattern(draft: &mut Draft, command: &Command, form: &str) {
    draft.put("  ");
    put_form(draft, command.name, form);
    for alias in command.aliases {
        draft.put(" | ");
        put_form(draft, alias, form);
    }
    draft.put(")\n");
}

/// Adds the options among a command's own arguments, and among those that it shares with others.
fn put_options(draft: &mut Draft, own: &[Argument], shared: &[Argument]) {
    draft.put("    options=\"");
    put_option_names(draft, own);
    put_option_names(draft, shared);
    draft.put("\"\n");
}

/// Adds the names of choices.
fn put_choice_names(draft: &mut Draft, choices: &[Choice]) {
    for choice in choices {
        put_word(draft, choice.name);
    }
}

/// Adds the choices of an argument, where it has some.
fn put_choices(draft: &mut Draft, argument: &Argument) {
    if let Value::Choice(choices) = argument.value {
        draft.put("    [ \"$previous\" = --");
        draft.put(argument.name);
        draft.put(" ] && words=\"");
        put_choice_names(draft, choices);
        draft.put("\"\n");
    }
}

/// Adds the choices of those arguments that have some.
fn put_all_choices(draft: &mut Draft, arguments: &[Argument]) {
    for argument in arguments {
        put_choices(draft, argument);
    }
}

/// Adds the options among a command's own arguments and among those that it shares with others, and their choices.
fn put_arguments(draft: &mut Draft, own: &[Argument], shared: &[Argument]) {
    put_options(draft, own, shared);
    put_all_choices(draft, own);
    put_all_choices(draft, shared);
    draft.put("    ;;\n");
}

/// Adds what a command's subcommands take.
fn put_subcommands(draft: &mut Draft, command: &Command) {
    for subcommand in command.subcommands {
        put_pattern(draft, command, subcommand.name);
        put_arguments(draft, subcommand.arguments, command.arguments);
    }
}

/// Adds what a command takes.
pub fn put_command(draft: &mut Draft, command: &Command) {
    put_subcommands(draft, command);
    put_pattern(draft, command, "*");
    draft.put("    words=\"");
    put_names(draft, command.subcommands);
    draft.put("\"\n");
    put_arguments(draft, command.own_arguments(), &[]);
}

/// Adds the end of the script.
pub fn put_tail(draft: &mut Draft) {
    draft.put(TAIL);
}
