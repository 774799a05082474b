//! One run over objects in memory, and what it leaves.
use ram_bytes::Budget;
use ram_machine::status::Status;
use ram_outside::{BothEnds, Conversation, MemImage, MemOpener, MemSink, MemSource, Opener};
use ram_run::rooms::Rooms;
use ram_run::run::run;
use std::alloc::{AllocError, Global};

/// The words of the program in each run.
const WORDS: [&str; 2] = ["run", "disc"];

/// How many bytes the image of a disc of one zone, scale 1 and four primary spares has.
pub const IMAGE_BYTES: usize = 1_343_545;

/// Room for the longest report.
const REPORT_BYTES: usize = 1_000_000;

/// How many bytes source and sink move at once, where nothing else is said.
pub const PIECE: usize = 65_536;

/// What fails in a run.
#[derive(Clone, Copy, Debug, PartialEq, Eq)]
pub enum Outside {
    Source,
    Sink,
    Opener,
    Image,
}

/// The call, counted from 1 on, at which something fails.
#[derive(Clone, Copy, Debug, PartialEq, Eq)]
pub struct Failure {
    pub of: Outside,
    pub call: u64,
}

/// How often each object was called, of the calls that may fail.
#[derive(Clone, Copy, Debug, PartialEq, Eq)]
pub struct CallCounts {
    pub source: u64,
    pub sink: u64,
    pub image: u64,
}

/// How a run ended, and what it leaves: its report, and the bytes of the image that was handed back, none where no
/// image was.
#[derive(Drop)]
pub struct Ran {
    pub status: Status,
    pub report: Vec<u8>,
    pub image: Vec<u8>,
    pub calls: CallCounts,
}

impl Ran {
    /// Whether the run has this status and this report.
    pub fn has(&self, status: Status, report: &[u8]) -> bool {
        self.status == status && self.report.as_slice() == report
    }
}

/// Runs a script over an image of these bytes. The source gives and the sink takes at most this many bytes at once.
pub fn run_script(
    alloc: Global,
    script: &[u8],
    image: &[u8],
    (given, taken): (usize, usize),
    failure: Option<Failure>,
) -> Result<Ran, AllocError> {
    let script = source(alloc, script, given, failure)?;
    let report = sink(alloc, taken, failure)?;
    let opener = opener(alloc, image, failure)?;
    run_over(alloc, &WORDS, script, report, opener)
}

/// Runs the words of the program, with a bar between them, over an empty script and an empty image.
pub fn run_words(alloc: Global, words: &str, failure: Option<Failure>) -> Result<Ran, AllocError> {
    let words: Vec<&str> = words.split('|').collect(alloc)?;
    let script = source(alloc, b"", PIECE, failure)?;
    let report = sink(alloc, PIECE, failure)?;
    let opener = opener(alloc, b"", failure)?;
    run_over(alloc, &words, script, report, opener)
}

/// Runs the words of the program. It stands between `run` and its callers, so that these see nothing of its contract.
fn run_program<T: Conversation, O: Opener>(
    alloc: Global,
    words: &[&str],
    talk: &mut T,
    opener: &mut O,
) -> Result<Status, AllocError> {
    let rooms = Rooms::new(&mut Budget::ample(alloc), words)?;
    Ok(run(rooms, words, talk, opener))
}

/// Runs the script of a conversation over the image that the opener gives.
pub fn run_in<T: Conversation, O: Opener>(
    alloc: Global,
    talk: &mut T,
    opener: &mut O,
) -> Result<Status, AllocError> {
    run_program(alloc, &WORDS, talk, opener)
}

/// Runs the words of the program over a script and the image that the opener gives.
fn run_over(
    alloc: Global,
    words: &[&str],
    script: MemSource,
    report: MemSink,
    opener: MemOpener,
) -> Result<Ran, AllocError> {
    let (mut talk, mut opener) = (BothEnds::new(script, report), opener);
    let status = run_program(alloc, words, &mut talk, &mut opener)?;
    let (script, report) = talk.into_parts();
    what_is_left(alloc, status, script.calls(), &report, &opener)
}

fn what_is_left(
    alloc: Global,
    status: Status,
    takes: u64,
    report: &MemSink,
    opener: &MemOpener,
) -> Result<Ran, AllocError> {
    let (image, calls) = match opener.returned() {
        Some(image) => (image.bytes(), image.calls()),
        None => (b"".as_slice(), 0),
    };
    let calls = CallCounts {
        source: takes,
        sink: report.calls(),
        image: calls,
    };
    let report = report.bytes().to_vec(alloc)?;
    let image = image.to_vec(alloc)?;
    Ok(Ran {
        status,
        report,
        image,
        calls,
    })
}

/// A source of these bytes.
pub fn source(
    alloc: Global,
    script: &[u8],
    piece: usize,
    failure: Option<Failure>,
) -> Result<MemSource, AllocError> {
    let calls = failing(alloc, failure, Outside::Source)?;
    Ok(MemSource::new(script.to_vec(alloc)?, piece.max(1), calls))
}

/// A sink with room for the longest report.
pub fn sink(alloc: Global, piece: usize, failure: Option<Failure>) -> Result<MemSink, AllocError> {
    let mut report = MemSink::new(alloc, piece.max(1), failing(alloc, failure, Outside::Sink)?);
    report.reserve(REPORT_BYTES)?;
    Ok(report)
}

/// An opener of an image of these bytes, with room for those of a disc.
pub fn opener(
    alloc: Global,
    image: &[u8],
    failure: Option<Failure>,
) -> Result<MemOpener, AllocError> {
    let mut bytes = Vec::with_capacity(alloc, IMAGE_BYTES)?;
    bytes.extend_from_slice(image)?;
    let image = MemImage::new(bytes, failing(alloc, failure, Outside::Image)?);
    Ok(MemOpener::new(image, failing(alloc, failure, Outside::Opener)?))
}

/// The numbers of the calls of this object that fail.
fn failing(alloc: Global, failure: Option<Failure>, of: Outside) -> Result<Vec<u64>, AllocError> {
    let mut calls = Vec::new(alloc);
    if let Some(failure) = failure {
        if failure.of == of {
            calls.push(failure.call)?;
        }
    }
    Ok(calls)
}
