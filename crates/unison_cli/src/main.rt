//! Unison: synchronous programs on networks whose nodes move at their own pace.
#![tactic(auto)]

pub use app_jobs::{Job, ServeFault, Served, serve};
use app_words::job_of;
pub use app_words::{Request, UsageFault};
use report_text::Tally;
use std::alloc::AllocError;
use std::fs::File;
use std::io::{BufWriter, ErrorKind, Read, Write};
use std::process::ExitCode;
use std::sync::Wait;
use std::thread::Threads;
use std::{env, fs, io};

/// Why the program ends with a status other than 0, or after help.
#[derive(Drop)]
enum Ending {
    Help(String),
    Usage(String),
    /// A file could not be read or written.
    File,
    /// Standard output refused what the buffer held.
    Output,
    Serve(ServeFault),
}

impl Ending {
    /// The status with which the program ends.
    fn status(&self) -> u8 {
        match self {
            Ending::Help(_) => 0,
            Ending::Usage(_) => 2,
            Ending::File | Ending::Output => 1,
            Ending::Serve(fault) => fault.status(),
        }
    }
}

impl From<UsageFault> for Ending {
    fn from(fault: UsageFault) -> Ending {
        match fault {
            UsageFault::Help { text } => Ending::Help(text),
            UsageFault::Usage { text } => Ending::Usage(text),
            UsageFault::Memory => Ending::Serve(ServeFault::Memory),
        }
    }
}

impl From<ServeFault> for Ending {
    fn from(fault: ServeFault) -> Ending {
        Ending::Serve(fault)
    }
}

impl From<AllocError> for Ending {
    fn from(_error: AllocError) -> Ending {
        Ending::Serve(ServeFault::Memory)
    }
}

/// Running out of memory where that is the error, else this ending.
fn refused(error: &io::Error, ending: Ending) -> Ending {
    if error.kind() == ErrorKind::OutOfMemory {
        Ending::Serve(ServeFault::Memory)
    } else {
        ending
    }
}

/// The words of the command line. One that is no UTF-8 is an invalid argument.
fn words_of(rt: &HostRuntime) -> Result<Vec<String>, Ending> {
    match env::args(rt) {
        Ok(words) => Ok(words.collect(rt.alloc())?),
        Err(error) => {
            let text = String::from_str(rt.alloc(), "a word is not UTF-8")?;
            Err(refused(&error, Ending::Usage(text)))
        }
    }
}

/// The request of the command line.
fn request_of(rt: &HostRuntime) -> Result<Request, Ending> {
    let words = words_of(rt)?;
    let request = job_of(rt.alloc(), words.as_slice())?;
    Ok(request)
}

/// The ending where a file refuses, or where memory does.
fn file_fault(error: &io::Error) -> Ending {
    refused(error, Ending::File)
}

/// The bytes of a file.
fn file(rt: &HostRuntime, path: &str) -> Result<Vec<u8>, Ending> {
    match fs::read(rt, path) {
        Ok(bytes) => Ok(bytes),
        Err(error) => Err(file_fault(&error)),
    }
}

/// The bytes of a file, where there is a path.
fn file_at(rt: &HostRuntime, path: &Option<String>) -> Result<Option<Vec<u8>>, Ending> {
    let Some(path) = path else {
        return Ok(None);
    };
    let bytes = file(rt, path.as_str())?;
    Ok(Some(bytes))
}

/// A file that is open for reading, or nothing to read.
#[derive(Drop)]
enum Input {
    Nothing,
    Opened(File),
}

impl Read for Input {
    fn read(&mut self, buffer: &mut [u8]) -> io::Result<usize> {
        match self {
            Input::Nothing => Ok(0),
            Input::Opened(file) => file.read(buffer),
        }
    }
}

/// The opened file.
fn opened(rt: &HostRuntime, path: &str) -> Result<Input, Ending> {
    match File::open(rt, path) {
        Ok(file) => Ok(Input::Opened(file)),
        Err(error) => Err(file_fault(&error)),
    }
}

/// The opened file, where there is a path.
fn input_at(rt: &HostRuntime, path: &Option<String>) -> Result<Input, Ending> {
    match path {
        Some(path) => opened(rt, path.as_str()),
        None => Ok(Input::Nothing),
    }
}

/// The bytes of the files of a request.
#[derive(Drop)]
struct Texts {
    program: Vec<u8>,
    /// Of a job without a network there are none.
    network: Option<Vec<u8>>,
    /// The report to go on from.
    report: Option<Vec<u8>>,
}

/// The bytes of the files of a request.
fn texts_of(rt: &HostRuntime, request: &Request) -> Result<Texts, Ending> {
    let program = file(rt, request.program.as_str())?;
    let network = file_at(rt, &request.network)?;
    let report = file_at(rt, &request.from)?;
    Ok(Texts {
        program,
        network,
        report,
    })
}

/// Prints the help, or the fault's line on standard error.
fn print_ending(rt: &HostRuntime, ending: &Ending) -> io::Result<()> {
    match ending {
        Ending::Help(text) => print!(rt; "{text}"),
        Ending::Usage(text) => eprintln!(rt; "fault: usage\n{text}"),
        Ending::File => eprintln!(rt; "fault: file"),
        Ending::Output => eprintln!(rt; "fault: device Write"),
        Ending::Serve(fault) => {
            let (part, name) = fault.part_and_name();
            match fault.bad_line() {
                Some(line) => eprintln!(rt; "fault: {part} {name} {line}"),
                None => eprintln!(rt; "fault: {part} {name}"),
            }
        }
    }
}

/// The status with which the program ends, its ending printed.
fn end(rt: &HostRuntime, ending: &Ending) -> ExitCode {
    let _ = print_ending(rt, ending);
    ExitCode::from(ending.status())
}

/// The bytes, where there are some.
fn bytes_in(bytes: &Option<Vec<u8>>) -> Option<&[u8]> {
    match bytes {
        Some(bytes) => Some(bytes.as_slice()),
        None => None,
    }
}

/// Does a job by these texts, and hands the buffer's last bytes to standard output.
fn answer(
    rt: &HostRuntime,
    threads: &(impl Threads + Wait + Sync),
    job: &Job,
    texts: &Texts,
    schedule: &mut Input,
) -> Result<Served, Ending> {
    let mut schedule = Tally::new(schedule);
    let mut output = match BufWriter::new(rt.alloc(), io::writer(rt)) {
        Ok(output) => output,
        Err(error) => return Err(refused(&error, Ending::Output)),
    };
    let mut out = Tally::new(&mut output);
    let served = serve(
        threads,
        rt.alloc(),
        job,
        &texts.program,
        bytes_in(&texts.network).unwrap_or(&[]),
        bytes_in(&texts.report),
        &mut schedule,
        &mut out,
    )?;
    match output.flush() {
        Ok(()) => Ok(served),
        Err(_) => Err(Ending::Output),
    }
}

/// Writes the trace into its file, where there are both.
fn keep_trace(
    rt: &HostRuntime,
    path: &Option<String>,
    trace: &Option<Vec<u8>>,
) -> Result<(), Ending> {
    let (Some(path), Some(trace)) = (path, trace) else {
        return Ok(());
    };
    match fs::write(rt, path.as_str(), trace.as_slice()) {
        Ok(()) => Ok(()),
        Err(error) => Err(file_fault(&error)),
    }
}

/// Does a request's job by these texts. The status with which the program ends.
fn run_with(
    rt: &HostRuntime,
    threads: &(impl Threads + Wait + Sync),
    request: &Request,
    texts: &Texts,
) -> Result<u8, Ending> {
    let mut schedule = input_at(rt, &request.schedule)?;
    let served = answer(rt, threads, &request.job, texts, &mut schedule)?;
    keep_trace(rt, &request.trace, &served.trace)?;
    Ok(served.status)
}

/// Does what a request asks for. The status with which the program ends.
fn run_request(
    rt: &HostRuntime,
    threads: &(impl Threads + Wait + Sync),
    request: &Request,
) -> Result<u8, Ending> {
    let texts = texts_of(rt, request)?;
    run_with(rt, threads, request, &texts)
}

/// Does what the command line asks for. The status with which the program ends.
fn run(rt: &HostRuntime, threads: &(impl Threads + Wait + Sync)) -> Result<u8, Ending> {
    let request = request_of(rt)?;
    run_request(rt, threads, &request)
}

/// Does what the command line asks for, and ends with its status.
fn main(rt: HostRuntime) -> ExitCode {
    match run(&rt, &rt) {
        Ok(status) => ExitCode::from(status),
        Err(ending) => end(&rt, &ending),
    }
}
