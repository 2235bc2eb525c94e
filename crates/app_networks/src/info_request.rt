//! `info`: what one wants to know of a network.

use app_commands::{NETWORK, NETWORK_ARGUMENT};
use app_table::{Command, Reading, WordsFault};
use std::alloc::Global;

/// `info` and what it takes.
static INFO: Command = Command {
    name: "info",
    aliases: &["show"],
    called: "unison info",
    about: "Show what one wants to know of a network before a run",
    notes: "An example: unison info examples/ring.toml; - is standard input, as in: unison generate torus 8 8 | unison info -\n",
    arguments: &[NETWORK],
    subcommands: &[],
};

/// The table of `info`.
pub fn info_command() -> &'static Command {
    &INFO
}

/// What `info` is asked for.
#[derive(Drop)]
pub struct InfoRequest {
    /// The path of the network.
    pub network: String,
}

impl InfoRequest {
    /// What the words ask for, the command's name first.
    pub fn parse(alloc: Global, line: &[String]) -> Result<InfoRequest, WordsFault> {
        let mut reading = Reading::of(alloc, info_command(), line)?;
        let network = reading.needed_text(&NETWORK_ARGUMENT);
        reading.end(InfoRequest { network })
    }
}
