//! `why COMMAND WORDS..`: why a command refuses its texts.

use app_commands::{PlanPaths, asked_by, constants_among, noted_plan_at};
use app_files::{
    ConstantWord, Ending, ModelRefusal, Text, check_constants, given_constants, is_model,
    network_where, path_in, print_fault, program_name, read_once, refusal_of, slips_in, text_at,
    text_where, write_out,
};
use app_jobs::ServeFault;
use app_why::{Finding, Named, Texts, why};
use app_words::{Request, UsageFault, command_as, job_by};
use model_rules::{Given, ModelProgramFault, expanded};
use std::alloc::{AllocError, Global};

/// What stands after the help of `why`.
const EXAMPLE: &str =
    "The words are those of the command; - is standard input where a file is read.\nAn example: unison why lockstep examples/distance.rules examples/path.toml --rounds 2\n";

/// The status of a command whose program is refused.
const BAD_PROGRAM: u8 = 3;

/// What an option's number may be.
fn allowed(option: &str) -> &'static str {
    match option {
        "workers" => "a whole number from 1 to 64",
        _ => "a whole number from 0 to 1000000000",
    }
}

/// The value that the words give to an option: the word after `--OPTION`, or what stands after `--OPTION=`.
pub(crate) fn value_of<'w>(words: &'w [String], option: &str) -> Option<&'w str> {
    for (index, word) in words.iter().enumerate() {
        let Some(named) = word.as_str().strip_prefix("--") else {
            continue;
        };
        match named.strip_prefix(option) {
            Some("") => return words.get(index + 1).map(|value| value.as_str()),
            Some(rest) if rest.starts_with('=') => return rest.strip_prefix("="),
            _ => {}
        }
    }
    None
}

/// What is told of a number outside the limits of its option.
fn option_text(alloc: Global, option: &str, value: &str) -> Result<String, AllocError> {
    let allowed = allowed(option);
    format!(in alloc; "--{option}: expected {allowed}, found `{value}`")
}

/// What is told of invalid arguments: for a number outside its limits the option, what was given, and what is allowed.
fn usage_text(alloc: Global, words: &[String], text: String) -> Result<String, AllocError> {
    match value_of(words, text.as_str()) {
        Some(value) => option_text(alloc, text.as_str(), value),
        None => Ok(text),
    }
}

/// The ending where the words make no request.
fn no_request(alloc: Global, words: &[String], fault: UsageFault) -> Ending {
    match fault {
        UsageFault::Usage { text } => Ending::usage(usage_text(alloc, words, text)),
        fault => Ending::from(fault),
    }
}

/// The request that the words make.
fn request_of(alloc: Global, words: &[String]) -> Result<Request, Ending> {
    let command = command_as(
        "unison why",
        "Tell why a command refuses its texts",
        EXAMPLE,
    );
    match job_by(alloc, &command, words) {
        Ok(request) => Ok(request),
        Err(fault) => Err(no_request(alloc, words, fault)),
    }
}

/// Refuses standard input, `-`, for more than one of the texts of a request.
fn check_paths(alloc: Global, request: &Request) -> Result<(), Ending> {
    let paths = [
        request.program.as_str(),
        path_in(&request.network),
        path_in(&request.from),
        path_in(&request.schedule),
    ];
    read_once(alloc, &paths)
}

/// The texts of a request.
#[derive(Drop)]
struct ReadTexts {
    program: Text,
    network: Option<Text>,
    report: Option<Text>,
    schedule: Option<Text>,
}

/// Reads the texts of a request beside the program, in the order in which its command reads them.
fn read_rest(rt: &HostRuntime, request: &Request, read: &mut ReadTexts) -> Result<(), Ending> {
    read.network = network_where(rt, &request.network)?;
    read.report = text_where(rt, &request.from)?;
    read.schedule = text_where(rt, &request.schedule)?;
    Ok(())
}

/// The texts of a request, of which that of the program is this, the others being read.
fn read_with(rt: &HostRuntime, request: &Request, program: Text) -> Result<ReadTexts, Ending> {
    let mut read = ReadTexts {
        program,
        network: None,
        report: None,
        schedule: None,
    };
    read_rest(rt, request, &mut read)?;
    Ok(read)
}

/// The texts of a request, read in the order in which its command reads them.
fn read(rt: &HostRuntime, request: &Request) -> Result<ReadTexts, Ending> {
    let program = text_at(rt, request.program.as_str())?;
    read_with(rt, request, program)
}

/// A text as it is looked at.
fn named(text: &Text) -> Named<'_> {
    Named {
        name: text.name.as_str(),
        text: text.bytes.as_slice(),
    }
}

/// A text as it is looked at, where there is one.
fn named_where(text: &Option<Text>) -> Option<Named<'_>> {
    match text {
        Some(text) => Some(named(text)),
        None => None,
    }
}

/// What is found in the texts, of which that of the program is this.
fn finding_of(
    alloc: Global,
    request: &Request,
    program: &Text,
    read: &ReadTexts,
) -> Result<Finding, AllocError> {
    let texts = Texts {
        program: named(program),
        network: named_where(&read.network),
        report: named_where(&read.report),
        schedule: named_where(&read.schedule),
    };
    why(alloc, &request.job, &texts)
}

/// What is found: in the texts of a job, or in the model that its program is.
#[derive(Drop)]
enum Found {
    Job(Finding),
    Model { refusal: ModelRefusal, text: String },
}

/// What is found in a model that has no program.
fn found_in_model(
    alloc: Global,
    program: &Text,
    constants: &[Given],
    fault: ModelProgramFault,
) -> Result<Found, AllocError> {
    let refusal = refusal_of(alloc, &program.bytes, constants, fault)?;
    let text = refusal.found(alloc, named(program))?;
    Ok(Found::Model { refusal, text })
}

/// The program that a model is expanded to, with its name.
fn program_text(
    alloc: Global,
    path: &str,
    text: &[u8],
    constants: &[Given],
) -> Result<Text, ModelProgramFault> {
    let bytes = expanded(alloc, text, constants)?;
    let name = program_name(alloc, path)?;
    Ok(Text { name, bytes })
}

/// What is found in the texts that were read for a request, of which that of the program is this.
fn found_with(
    alloc: Global,
    request: &Request,
    program: &Text,
    read: &ReadTexts,
) -> Result<Found, AllocError> {
    finding_of(alloc, request, program, read).map(Found::Job)
}

/// What is found in the texts that were read for a request whose program is a model.
fn found_by_model(
    alloc: Global,
    request: &Request,
    constants: &[Given],
    read: &ReadTexts,
) -> Result<Found, AllocError> {
    let path = request.program.as_str();
    match program_text(alloc, path, &read.program.bytes, constants) {
        Ok(program) => found_with(alloc, request, &program, read),
        Err(fault) => found_in_model(alloc, &read.program, constants, fault),
    }
}

/// What is found in the texts that were read for a request.
fn found_in(
    alloc: Global,
    request: &Request,
    constants: &[Given],
    read: &ReadTexts,
) -> Result<Found, AllocError> {
    if is_model(request.program.as_str()) {
        return found_by_model(alloc, request, constants, read);
    }
    found_with(alloc, request, &read.program, read)
}

/// The same with notes on what is accepted in the program's text and rarely meant.
fn noted(alloc: Global, finding: Finding, program: &Text) -> Result<Finding, AllocError> {
    if finding.fault.is_some() {
        return Ok(finding);
    }
    let slips = slips_in(alloc, named(program))?;
    let mut found = finding;
    found.text.push_str(slips.as_str())?;
    Ok(found)
}

/// What is found with notes on the program's text, where nothing is wrong.
fn with_notes(alloc: Global, found: Found, program: &Text) -> Result<Found, AllocError> {
    match found {
        Found::Job(finding) => {
            let finding = noted(alloc, finding, program)?;
            Ok(Found::Job(finding))
        }
        found => Ok(found),
    }
}

/// What is found in the texts that were read for a request, with notes on the program's text.
fn noted_in(
    alloc: Global,
    request: &Request,
    constants: &[Given],
    read: &ReadTexts,
) -> Result<Found, AllocError> {
    let found = found_in(alloc, request, constants, read)?;
    with_notes(alloc, found, &read.program)
}

/// What is found in the texts of a request.
fn found_for(
    rt: &HostRuntime,
    request: &Request,
    constants: &[ConstantWord],
) -> Result<Found, Ending> {
    check_paths(rt.alloc(), request)?;
    check_constants(rt.alloc(), request.program.as_str(), constants)?;
    let read = read(rt, request)?;
    let constants = given_constants(rt.alloc(), &read.program.bytes, constants)?;
    noted_in(rt.alloc(), request, &constants, &read).map_err(Ending::from)
}

/// The status with which a command would end that has this fault, which is printed, or none.
fn status_of(rt: &HostRuntime, fault: &Option<ServeFault>) -> u8 {
    match fault {
        Some(fault) => {
            let _ = print_fault(rt, fault);
            fault.status()
        }
        None => 0,
    }
}

/// Prints what is found. The status with which the command would end.
fn put_found(rt: &HostRuntime, found: &Found) -> Result<u8, Ending> {
    match found {
        Found::Job(finding) => {
            write_out(rt, finding.text.as_bytes())?;
            Ok(status_of(rt, &finding.fault))
        }
        Found::Model { refusal, text } => {
            write_out(rt, text.as_bytes())?;
            let kind = refusal.kind;
            let _ = eprintln!(rt; "fault: model {kind}");
            Ok(BAD_PROGRAM)
        }
    }
}

/// Tells what is found in the texts of a request. The status with which its command would end.
fn put_request(
    rt: &HostRuntime,
    request: &Request,
    constants: &[ConstantWord],
) -> Result<u8, Ending> {
    let found = found_for(rt, request, constants)?;
    put_found(rt, &found)
}

/// Tells what is found in the texts of the request that these words make. The status with which its command would end.
fn put_words(rt: &HostRuntime, words: &[String], constants: &[ConstantWord]) -> Result<u8, Ending> {
    let request = request_of(rt.alloc(), words)?;
    put_request(rt, &request, constants)
}

/// The paths of the plan of a request, where its command has a network, and none of its texts comes from standard input.
fn plan_paths(request: Request, constants: Vec<ConstantWord>) -> Option<PlanPaths> {
    let Request {
        program,
        network,
        from,
        ..
    } = request;
    let network = network?;
    if program.as_str() == "-" || network.as_str() == "-" || path_in(&from) == "-" {
        return None;
    }
    Some(PlanPaths {
        program,
        constants,
        network,
        from,
    })
}

/// Prints the notes on a plan, where there is one: what refuses it is told by the command itself.
fn put_plan_notes(rt: &HostRuntime, paths: &PlanPaths) {
    match noted_plan_at(rt, paths, false) {
        Ok(_named) => {}
        Err(_ending) => {}
    }
}

/// Prints the notes on what a command accepts, on standard error, and nothing besides. The status is 0.
fn put_notes(
    rt: &HostRuntime,
    words: &[String],
    constants: Vec<ConstantWord>,
) -> Result<u8, Ending> {
    let request = request_of(rt.alloc(), words)?;
    if let Some(paths) = plan_paths(request, constants) {
        put_plan_notes(rt, &paths);
    }
    Ok(0)
}

/// The words without the second one, where that is `--notes`.
fn without_notes(words: &[String]) -> Option<&[String]> {
    match words.get(1) {
        Some(word) if word.as_str() == "--notes" => words.get(1..),
        _ => None,
    }
}

/// Tells why a command refuses its texts. The status with which that command would end. After `--notes`, which no help
/// lists, the notes on what the command accepts are printed alone: so `./unison` tells them of the five commands.
pub(crate) fn why_command(rt: &HostRuntime, words: &[String]) -> Result<u8, Ending> {
    let (constants, words) = asked_by(constants_among(rt.alloc(), words))?;
    match without_notes(&words) {
        Some(words) => put_notes(rt, words, constants),
        None => put_words(rt, &words, &constants),
    }
}
