//! Binary files on standard output.

use app_files::Ending;
use std::io::IsTerminal;

/// Refuses a terminal as standard output, for which a binary file is nothing.
pub fn check_output(rt: &HostRuntime) -> Result<(), Ending> {
    if rt.stdout().is_terminal() {
        return Err(Ending::usage(String::from_str(
            rt.alloc(),
            "the file is binary: put > and the name of a file after the words",
        )));
    }
    Ok(())
}
