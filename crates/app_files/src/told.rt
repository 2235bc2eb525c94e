//! How an ending is told.

use crate::ending::Ending;
use crate::usage::around_advice;
use app_jobs::ServeFault;
use std::io;

/// What tells more of a fault of this part, where something does.
fn hint(part: &str) -> Option<&'static str> {
    match part {
        "memory" | "device" => None,
        "schedule" => Some(
            "unison why tells where and what to do: unison why replay PROGRAM NETWORK SCHEDULE --stop 0",
        ),
        "run" | "replay" => Some(
            "rounds and stops lie between the plan's start, which is 0 or the round of the report that --from names, and 1000000000",
        ),
        _ => Some(
            "unison why tells where and what to do: unison why lockstep PROGRAM NETWORK --rounds 0, with --from REPORT where there is one",
        ),
    }
}

/// Prints the line of a fault on standard error, as the command would.
pub fn print_fault(rt: &impl Eprint, fault: &ServeFault) -> io::Result<()> {
    let (part, name) = fault.part_and_name();
    match fault.bad_line() {
        Some(line) => eprintln!(rt; "fault: {part} {name} {line}"),
        None => eprintln!(rt; "fault: {part} {name}"),
    }
}

/// Prints the line of a fault that one of the five commands has, too, and what tells more.
fn print_served(rt: &impl Eprint, fault: &ServeFault) -> io::Result<()> {
    print_fault(rt, fault)?;
    let (part, _) = fault.part_and_name();
    match hint(part) {
        Some(text) => eprintln!(rt; "{text}"),
        None => Ok(()),
    }
}

/// Prints the line of invalid arguments, and what is told of them.
fn print_usage(rt: &impl Eprint, text: &str) -> io::Result<()> {
    match around_advice(text) {
        Some((front, back)) => eprintln!(rt; "fault: usage\n{front}\n\n{back}"),
        None => eprintln!(rt; "fault: usage\n{text}"),
    }
}

/// Prints the help, or the fault's line on standard error.
pub fn print_ending(rt: &(impl Print + Eprint), ending: &Ending) -> io::Result<()> {
    match ending {
        Ending::Help(text) => print!(rt; "{text}"),
        Ending::Usage(text) => print_usage(rt, text.as_str()),
        Ending::File(text) => eprintln!(rt; "fault: file\n{text}"),
        Ending::Network(fault) => eprintln!(rt;
            "fault: network {fault}\nunison why tells where: unison why lockstep PROGRAM NETWORK --rounds 0"
        ),
        Ending::Served(fault) => print_served(rt, fault),
        Ending::Refused(text) => eprintln!(rt; "fault: {text}"),
        Ending::Output => eprintln!(rt; "fault: device Write"),
        Ending::Unread => Ok(()),
        Ending::Memory => eprintln!(rt; "fault: memory Memory"),
    }
}
