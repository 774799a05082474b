//! The program: `ram_drive run IMAGE` answers the script on standard input over an image file, and writes the report
//! to standard output; `ram_drive generate IMAGE N` answers one that is drawn from a number; `--help` and `--version`
//! tell of the program. The exit status tells how the run ended.
#![tactic(auto)]

use ram_bytes::Budget;
use ram_machine::status::Status;
use ram_outside::{BothEnds, FileOpener, LockFile, StdSink, StdSource};
use ram_run::rooms::{MOST_BYTES, Rooms};
use ram_run::run::run;
use std::fs::File;
use std::os::unix::fs::FileExt;
use std::process::ExitCode;
use std::rt::{Env, Files};
use std::{env, io};

fn main(rt: HostRuntime) -> ExitCode {
    let status = match hold_descriptors(&rt) {
        Ok(_descriptors) => answer(&rt),
        Err(_) => Status::ImageFault,
    };
    ExitCode::from(status.exit_number())
}

/// The places of the standard streams that were closed when the program began, each held by the null device.
#[derive(Drop)]
struct HeldDescriptors<F: Drop> {
    input: F,
    output: F,
    errors: F,
}

/// Opens the null device for reading, once for each standard stream. The system gives each file the lowest number that is
/// free, so that no image comes to stand in the place of a closed stream: a closed input is then an empty script, and
/// a closed output takes nothing.
fn hold_descriptors<R: Files>(rt: &R) -> io::Result<HeldDescriptors<R::File>> {
    Ok(HeldDescriptors {
        input: File::open(rt, "/dev/null")?,
        output: File::open(rt, "/dev/null")?,
        errors: File::open(rt, "/dev/null")?,
    })
}

/// Runs the program's words over the standard streams and files.
fn answer<R: Input + Print + Files + Env + AllocGlobal>(rt: &R) -> Status
where
    R::File: FileExt + LockFile,
{
    match run_words(rt) {
        Ok(status) => status,
        Err(error) => refusal(&error),
    }
}

/// Takes the program's words, and the rooms that they ask for, and runs them.
fn run_words<R: Input + Print + Files + Env + AllocGlobal>(rt: &R) -> io::Result<Status>
where
    R::File: FileExt + LockFile,
{
    let words: Vec<String> = env::args(rt)?.skip(1).collect(rt.alloc())?;
    let mut texts = Vec::with_capacity(rt.alloc(), words.len())?;
    for word in &words {
        texts.push(word.as_str())?;
    }
    let mut budget = Budget::new(rt.alloc(), MOST_BYTES);
    let rooms = match Rooms::new(&mut budget, texts.as_slice()) {
        Ok(rooms) => rooms,
        Err(_) => return Ok(Status::NoMemory),
    };
    let mut talk = BothEnds::new(StdSource::new(rt), StdSink::new(rt));
    let mut opener = FileOpener::new(rt);
    Ok(run(rooms, texts.as_slice(), &mut talk, &mut opener))
}

/// The status where the words or their rooms could not be taken: there was no memory, or one of the words is no text.
fn refusal(error: &io::Error) -> Status {
    match error.kind() {
        io::ErrorKind::OutOfMemory => Status::NoMemory,
        _ => Status::Usage,
    }
}
