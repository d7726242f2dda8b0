//! The program: it makes the objects that the top call works on, and tells how it ended.
#![tactic(auto)]

use gl_base::Text;
use gl_cli::{Command, Status, command_of, run_command};
use gl_node::Log;
use gl_patterns::RegexShop;
use gl_system::{FileDisk, ReaderSource, WriterSink};
use std::alloc::{AllocError, Global};
use std::fs::File;
use std::process::ExitCode;
use std::{env, io};

const VERSION: &str = "0.1.0";

/// The words behind the program's name. A word that isn't UTF-8 makes them no command.
fn words(rt: &HostRuntime) -> Result<Vec<Text>, Status> {
    let args = match env::args(rt) {
        Ok(args) => args,
        Err(error) if error.kind() == io::ErrorKind::InvalidData => return Err(Status::Usage),
        Err(_) => return Err(Status::OutOfMemory),
    };
    let mut words = Vec::new(rt.alloc());
    for word in args.skip(1) {
        if words.push(Text::from_string(word)).is_err() {
            return Err(Status::OutOfMemory);
        }
    }
    Ok(words)
}

/// The folder of the store that the words name; none where they name no store.
fn folder(alloc: Global, words: &[Text]) -> Result<String, AllocError> {
    match command_of(alloc, words)? {
        Command::Session { store, .. } | Command::Check { store, .. } => {
            String::from_str(alloc, store.as_str())
        }
        Command::Usage => Ok(String::new(alloc)),
    }
}

/// Three files that hold what no store may get. The system gives the lowest free descriptor to the file that is opened next,
/// so an area that is opened while a standard stream is closed would be that stream: answers would be written over it, or it
/// would be read as the script. These files fill such gaps, and are behind them else.
fn hold_streams(rt: &HostRuntime) -> io::Result<(File, File, File)> {
    Ok((
        File::open(rt, NOTHING)?,
        File::open(rt, NOTHING)?,
        File::open(rt, NOTHING)?,
    ))
}

/// A file that gives nothing and can't be written to, since it is opened for reading.
const NOTHING: &str = "/dev/null";

/// Runs the words' command and tells how it ended. Where the standard streams couldn't be held, no store is opened.
fn run(rt: HostRuntime, words: &[Text], not_held: Option<io::Error>) -> Status {
    let alloc = rt.alloc();
    let Ok(folder) = folder(alloc, words) else {
        return told(&rt, Status::OutOfMemory);
    };
    if let Some(error) = not_held {
        if !folder.is_empty() {
            return tell_not_held(&rt, error);
        }
    }
    let mut disk = FileDisk::new(rt, alloc, folder);
    let mut shop = RegexShop::new(alloc);
    let mut source = ReaderSource::new(rt.stdin());
    let mut sink = WriterSink::new(rt.stdout());
    let status = run_command(alloc, words, &mut disk, &mut shop, &mut source, &mut sink);
    told(&rt, status);
    if let Some(fault) = disk.first_fault() {
        let _ = eprintln!(rt; "{fault}");
    }
    status
}

/// The exit status that stands for a status.
fn exit_code(status: Status) -> u8 {
    match status {
        Status::Done => 0,
        Status::Usage => 2,
        Status::SourceFault => 3,
        Status::SinkFault => 4,
        Status::DiskFault => 5,
        Status::BadScript { .. } => 6,
        Status::Damaged { .. } => 7,
        Status::OutOfMemory => 8,
        Status::PatternFault => 9,
        Status::ScriptTooLong => 10,
    }
}

/// Tells a status that isn't `Done` as one line on standard error. Where that can't be written to, the exit status still tells.
fn told(rt: &HostRuntime, status: Status) -> Status {
    let _ = tell(rt, status);
    status
}

fn tell(rt: &HostRuntime, status: Status) -> io::Result<()> {
    match status {
        Status::Done => Ok(()),
        Status::Usage => tell_usage(rt),
        Status::SourceFault => eprintln!(rt; "graylog: SourceFault"),
        Status::SinkFault => eprintln!(rt; "graylog: SinkFault"),
        Status::DiskFault => eprintln!(rt; "graylog: DiskFault"),
        Status::BadScript { line } => eprintln!(rt; "graylog: BadScript {line}"),
        Status::Damaged { log, area, at } => {
            let name = match log {
                Log::Journal => "journal",
                Log::Index => "index",
            };
            eprintln!(rt; "graylog: Damaged {name} {area} {at}")
        }
        Status::OutOfMemory => eprintln!(rt; "graylog: OutOfMemory"),
        Status::PatternFault => eprintln!(rt; "graylog: PatternFault"),
        Status::ScriptTooLong => eprintln!(rt; "graylog: ScriptTooLong"),
    }
}

/// Tells a faulty command line, and which words there are.
fn tell_usage(rt: &HostRuntime) -> io::Result<()> {
    eprintln!(rt; "graylog: Usage")?;
    eprintln!(rt;
        "usage: graylog session STORE    run the script on standard input on the store in the folder STORE"
    )?;
    eprintln!(rt; "       graylog check STORE      say what the store holds, once it was opened")?;
    eprintln!(rt;
        "graylog {VERSION}; docs/SCRIPT.md has the script's lines, the answers and the exit statuses"
    )
}

/// Tells that the standard streams can't be held.
fn tell_not_held(rt: &HostRuntime, error: io::Error) -> Status {
    told(rt, Status::DiskFault);
    let _ = eprintln!(rt; "{NOTHING}: open: {error}");
    Status::DiskFault
}

fn main(rt: HostRuntime) -> ExitCode {
    // First of all, and until the end.
    let held = hold_streams(&rt);
    let not_held = match &held {
        Ok(_) => None,
        Err(error) => Some(*error),
    };
    let status = match words(&rt) {
        Ok(words) => run(rt, &words, not_held),
        Err(status) => told(&rt, status),
    };
    ExitCode::from(exit_code(status))
}
