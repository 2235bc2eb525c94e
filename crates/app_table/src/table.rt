//! Tables of commands, as plain data.

/// How an argument stands among the words of a command.
#[derive(Clone, Copy, PartialEq, Eq)]
pub enum Kind {
    /// A word at its place, which has to be there.
    Positional,
    /// `--NAME VALUE`, which has to be there.
    Required,
    /// `--NAME VALUE`, which may be left out.
    Optional,
    /// `--NAME VALUE`, as often as wanted.
    Repeated,
    /// `--NAME`, which has no value.
    Flag,
}

/// One of the words that an argument chooses from.
#[derive(Clone, Copy)]
pub struct Choice {
    pub name: &'static str,
    /// Words that stand for it, too, which no text lists.
    pub aliases: &'static [&'static str],
}

/// What the value of an argument is.
#[derive(Clone, Copy)]
pub enum Value {
    /// Any text.
    Text,
    /// The path of a file.
    File,
    /// A whole number in decimal digits, both limits included.
    Number { least: u32, most: u32 },
    /// One of these words.
    Choice(&'static [Choice]),
}

/// An argument of a command.
#[derive(Clone, Copy)]
pub struct Argument {
    /// The name of its option without the dashes; of a positional argument what its value is found by.
    pub name: &'static str,
    /// Other names of its option, which no text lists.
    pub aliases: &'static [&'static str],
    pub kind: Kind,
    pub value: Value,
    /// What stands for its value in usage and help, as `FILE`; empty for a flag.
    pub value_name: &'static str,
    pub help: &'static str,
    /// The name of another argument without which it is refused.
    pub needs: Option<&'static str>,
}

/// A form of a command that has several, as `torus` of `generate`.
#[derive(Clone, Copy)]
pub struct Subcommand {
    pub name: &'static str,
    pub about: &'static str,
    /// What stands after its help; lines end with a line feed.
    pub notes: &'static str,
    pub arguments: &'static [Argument],
}

/// A command: its own arguments, or subcommands with theirs.
#[derive(Clone, Copy)]
pub struct Command {
    pub name: &'static str,
    /// Other names, which no text lists.
    pub aliases: &'static [&'static str],
    /// How it is called in usage and help, as `unison generate`.
    pub called: &'static str,
    pub about: &'static str,
    /// What stands after its help; lines end with a line feed.
    pub notes: &'static str,
    /// What it takes; where it has subcommands, what each of them takes after its own arguments.
    pub arguments: &'static [Argument],
    /// One of them has to be named where there are any.
    pub subcommands: &'static [Subcommand],
}

impl Command {
    /// Whether a word is its name or one of its aliases.
    pub fn is_called(&self, word: &str) -> bool {
        self.name == word || self.aliases.contains(&word)
    }

    /// The arguments that stand right after its name: none where it has subcommands, after the names of which they stand.
    pub(crate) fn own_arguments(&self) -> &'static [Argument] {
        if self.subcommands.is_empty() {
            self.arguments
        } else {
            &[]
        }
    }
}

/// What an option that may be left out is made from.
pub const OPTION: Argument = Argument {
    name: "",
    aliases: &[],
    kind: Kind::Optional,
    value: Value::Text,
    value_name: "",
    help: "",
    needs: None,
};
