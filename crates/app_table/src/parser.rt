//! Tables as commands of `clap`, and its matches as plain data.

use crate::fault::WordsFault;
use crate::table::{Argument, Command, Kind, Subcommand};
use crate::words::{Given, Words};
use clap::error::ErrorKind;
use clap::{Arg, ArgAction, ArgMatches};
use std::alloc::{AllocError, Global};

/// A command as `clap` has it.
type Parser<'a> = clap::Command<'a>;

/// What a parser does with the value of an option of this kind.
fn action_of(kind: Kind) -> ArgAction {
    if kind == Kind::Repeated {
        ArgAction::Append
    } else {
        ArgAction::Set
    }
}

/// The parser of an argument, but for what it needs and its other names.
fn plain_arg<'a>(alloc: Global, row: &Argument) -> Arg<'a> {
    let arg = Arg::new(alloc, row.name).help(row.help);
    match row.kind {
        Kind::Positional => arg
            .value_name(row.value_name)
            .required(true)
            .action(ArgAction::Set),
        Kind::Flag => arg.long(row.name).action(ArgAction::SetTrue),
        kind => arg
            .long(row.name)
            .value_name(row.value_name)
            .required(kind == Kind::Required)
            .action(action_of(kind)),
    }
}

/// The parser of an argument.
fn arg_of<'a>(alloc: Global, row: &Argument) -> Result<Arg<'a>, AllocError> {
    plain_arg(alloc, row)
        .aliases(row.aliases)?
        .requires_all(row.needs.as_slice())
}

/// Puts the parser of an argument after the others.
fn put_arg<'a>(args: &mut Vec<Arg<'a>>, alloc: Global, row: &Argument) -> Result<(), AllocError> {
    let arg = arg_of(alloc, row)?;
    args.push(arg)?;
    Ok(())
}

/// Puts the parsers of arguments after the others.
fn put_args<'a>(
    args: &mut Vec<Arg<'a>>,
    alloc: Global,
    rows: &[Argument],
) -> Result<(), AllocError> {
    for row in rows {
        put_arg(args, alloc, row)?;
    }
    Ok(())
}

/// The parsers of a command's own arguments, and of those that it shares with others.
fn args_of<'a>(
    alloc: Global,
    own: &[Argument],
    shared: &[Argument],
) -> Result<Vec<Arg<'a>>, AllocError> {
    let mut args = Vec::new(alloc);
    put_args(&mut args, alloc, own)?;
    put_args(&mut args, alloc, shared)?;
    Ok(args)
}

/// The parser of a subcommand, which takes the shared arguments, too.
fn subcommand_parser<'a>(
    alloc: Global,
    row: &Subcommand,
    shared: &[Argument],
) -> Result<Parser<'a>, AllocError> {
    let args = args_of(alloc, row.arguments, shared)?;
    Parser::new(alloc, row.name)
        .about(row.about)
        .after_help(row.notes)
        .args(args)
}

/// Puts the parser of a subcommand after the others.
fn put_subcommand<'a>(
    parsers: &mut Vec<Parser<'a>>,
    alloc: Global,
    row: &Subcommand,
    shared: &[Argument],
) -> Result<(), AllocError> {
    let parser = subcommand_parser(alloc, row, shared)?;
    parsers.push(parser)?;
    Ok(())
}

/// The parsers of subcommands, which take the shared arguments, too.
fn subcommand_parsers<'a>(
    alloc: Global,
    rows: &[Subcommand],
    shared: &[Argument],
) -> Result<Vec<Parser<'a>>, AllocError> {
    let mut parsers = Vec::new(alloc);
    for row in rows {
        put_subcommand(&mut parsers, alloc, row, shared)?;
    }
    Ok(parsers)
}

/// The parser of a command that takes nothing. One of its subcommands has to be named where there are any.
fn bare_parser<'a>(alloc: Global, row: &Command) -> Result<Parser<'a>, AllocError> {
    Parser::new(alloc, row.name)
        .about(row.about)
        .after_help(row.notes)
        .subcommand_required(!row.subcommands.is_empty())
        .bin_name(row.called)
}

/// The parser of a command with its own arguments.
fn plain_parser<'a>(alloc: Global, row: &Command) -> Result<Parser<'a>, AllocError> {
    let args = args_of(alloc, row.own_arguments(), &[])?;
    bare_parser(alloc, row)?.args(args)
}

/// The parser of a command.
fn parser_of<'a>(alloc: Global, row: &Command) -> Result<Parser<'a>, AllocError> {
    let subcommands = subcommand_parsers(alloc, row.subcommands, row.arguments)?;
    plain_parser(alloc, row)?.subcommands(subcommands)
}

/// Puts a value after the others.
pub(crate) fn put_value(
    values: &mut Vec<String>,
    alloc: Global,
    value: &str,
) -> Result<(), AllocError> {
    values.push(String::from_str(alloc, value)?)?;
    Ok(())
}

/// The values of an argument that has them.
fn values_at(
    alloc: Global,
    matches: &ArgMatches<'_>,
    name: &str,
) -> Result<Vec<String>, AllocError> {
    let mut values = Vec::new(alloc);
    for value in matches.get_strs(name).unwrap_or(&[]) {
        put_value(&mut values, alloc, value)?;
    }
    Ok(values)
}

/// The name of a flag where it is given.
fn flag_at(alloc: Global, is_given: bool, name: &str) -> Result<Vec<String>, AllocError> {
    let mut values = Vec::new(alloc);
    if is_given {
        put_value(&mut values, alloc, name)?;
    }
    Ok(values)
}

/// The values of an argument; of a flag that is given its name.
fn values_in(
    alloc: Global,
    matches: &ArgMatches<'_>,
    row: &Argument,
) -> Result<Vec<String>, AllocError> {
    if row.kind == Kind::Flag {
        flag_at(alloc, matches.get_flag(row.name), row.name)
    } else {
        values_at(alloc, matches, row.name)
    }
}

/// Puts what is given of an argument after the others.
fn put_given(
    alloc: Global,
    given: &mut Vec<Given>,
    matches: &ArgMatches<'_>,
    row: &Argument,
) -> Result<(), AllocError> {
    let values = values_in(alloc, matches, row)?;
    given.push(Given {
        name: row.name,
        values,
    })?;
    Ok(())
}

/// Puts what is given of arguments after the others.
fn put_all_given(
    alloc: Global,
    given: &mut Vec<Given>,
    matches: &ArgMatches<'_>,
    rows: &[Argument],
) -> Result<(), AllocError> {
    for row in rows {
        put_given(alloc, given, matches, row)?;
    }
    Ok(())
}

/// What is given of a command's own arguments, and of those that it shares with others.
fn given_in(
    alloc: Global,
    matches: &ArgMatches<'_>,
    own: &[Argument],
    shared: &[Argument],
) -> Result<Vec<Given>, AllocError> {
    let mut given = Vec::new(alloc);
    put_all_given(alloc, &mut given, matches, own)?;
    put_all_given(alloc, &mut given, matches, shared)?;
    Ok(given)
}

/// The own arguments of the subcommand of this name.
fn arguments_of(name: &str, rows: &[Subcommand]) -> &'static [Argument] {
    for row in rows {
        if row.name == name {
            return row.arguments;
        }
    }
    &[]
}

/// What is given of arguments, and the name of the subcommand that has them.
fn given_words(
    alloc: Global,
    name: &str,
    matches: &ArgMatches<'_>,
    own: &[Argument],
    shared: &[Argument],
) -> Result<Words, WordsFault> {
    let given = given_in(alloc, matches, own, shared)?;
    let subcommand = String::from_str(alloc, name)?;
    Ok(Words { subcommand, given })
}

/// What the matches give of a command.
fn words_in(alloc: Global, row: &Command, matches: &ArgMatches<'_>) -> Result<Words, WordsFault> {
    match matches.subcommand() {
        Some((name, inner)) => {
            let own = arguments_of(name, row.subcommands);
            given_words(alloc, name, inner, own, row.arguments)
        }
        None => given_words(alloc, "", matches, row.own_arguments(), &[]),
    }
}

/// What the parser's own error says: help, invalid arguments, or running out of memory.
fn fault_of(alloc: Global, error: &clap::Error) -> WordsFault {
    if error.kind() == ErrorKind::OutOfMemory {
        return WordsFault::Memory;
    }
    match error.to_string(alloc) {
        Err(_) => WordsFault::Memory,
        Ok(text) => {
            if error.kind() == ErrorKind::DisplayHelp {
                WordsFault::Help { text }
            } else {
                WordsFault::Usage { text }
            }
        }
    }
}

/// What the words mean by a parser.
fn matches_of<'a>(
    alloc: Global,
    parser: Parser<'a>,
    words: &'a [String],
) -> Result<ArgMatches<'a>, WordsFault> {
    match parser.try_get_matches_from(words) {
        Ok(matches) => Ok(matches),
        Err(error) => Err(fault_of(alloc, &error)),
    }
}

/// What the words mean by a command.
fn matches_by<'a>(
    alloc: Global,
    command: &Command,
    words: &'a [String],
) -> Result<ArgMatches<'a>, WordsFault> {
    let parser = parser_of(alloc, command)?;
    matches_of(alloc, parser, words)
}

/// What a command line gives of a command, the command's name first: `Help` where it asks for help, `Usage` where words are
/// missing or are none of the command.
pub fn parse(alloc: Global, command: &Command, words: &[String]) -> Result<Words, WordsFault> {
    let matches = matches_by(alloc, command, words)?;
    words_in(alloc, command, &matches)
}
