//! A row: what is run, over which image, and what is told of it.
use crate::asking::answer_asking;
use crate::failing::answer_each;
use crate::generated::answer_generated;
use crate::orders::obey;
use crate::runs::{Failure, Outside, PIECE, Ran, run_script, run_words};
use crate::shorthand::add_line;
use crate::telling::tell;
use std::alloc::{AllocError, Global};

/// What is run.
#[derive(Clone, Copy, PartialEq, Eq)]
pub enum Runs {
    /// The script.
    Script,
    /// The script, once for each call of this object, which fails there; it has more calls than this.
    EachFailure { of: Outside, more_than: u64 },
    /// The script, in a conversation that keeps how it stood whenever more was asked for.
    Asking,
    /// The words of the program, and no script.
    Words,
    /// The script that is drawn from this number, and its summary.
    Generated { number: u64 },
}

/// What is told beside the report and the exit status.
#[derive(Clone, Copy)]
pub struct Told {
    /// The report has this many lines at most, which are its last ones, or its first ones.
    pub last: Option<usize>,
    pub first: Option<usize>,
    /// How often the sink was called.
    pub puts: bool,
    /// Whether source and sink were called seldom.
    pub few: bool,
}

/// A row, as far as its lines came.
#[derive(Drop)]
pub struct Row {
    /// Whether it has something to run.
    pub is_begun: bool,
    pub runs: Runs,
    pub script: String,
    /// What is run over the image that each failure left, and whether lines go there.
    pub later: String,
    pub is_later: bool,
    pub words: String,
    pub image: Vec<u8>,
    /// How many bytes the source gives and the sink takes at once.
    pub given: usize,
    pub taken: usize,
    pub failure: Option<Failure>,
    pub told: Told,
}

impl Row {
    /// A row with nothing to run yet, over an empty image.
    pub fn new(alloc: Global) -> Row {
        Row {
            is_begun: false,
            runs: Runs::Script,
            script: String::new(alloc),
            later: String::new(alloc),
            is_later: false,
            words: String::new(alloc),
            image: Vec::new(alloc),
            given: PIECE,
            taken: PIECE,
            failure: None,
            told: Told {
                last: None,
                first: None,
                puts: false,
                few: false,
            },
        }
    }

    /// Adds a line: an order, or a line of the script in short forms.
    pub fn add(&mut self, alloc: Global, line: &str) -> Result<(), AllocError> {
        if let Some(order) = line.strip_prefix("@ ") {
            return obey(alloc, self, order);
        }
        if self.is_later {
            return add_line(&mut self.later, line);
        }
        self.is_begun = true;
        add_line(&mut self.script, line)
    }
}

/// Runs a row that is one run.
fn ran(alloc: Global, row: &Row) -> Result<Ran, AllocError> {
    match row.runs {
        Runs::Words => run_words(alloc, row.words.as_str(), row.failure),
        _ => run_script(
            alloc,
            row.script.as_bytes(),
            &row.image,
            (row.given, row.taken),
            row.failure,
        ),
    }
}

/// Adds what a row is answered, and gives the image that it leaves.
pub fn answer_row(alloc: Global, row: &Row, answer: &mut String) -> Result<Vec<u8>, AllocError> {
    match row.runs {
        Runs::EachFailure { of, more_than } => answer_each(alloc, row, of, more_than, answer)?,
        Runs::Asking => answer_asking(alloc, row, answer)?,
        Runs::Generated { number } => answer_generated(alloc, number, answer)?,
        _ => {
            let ran = ran(alloc, row)?;
            tell(row, &ran, answer)?;
            return Ok(ran.image);
        }
    }
    Ok(Vec::new(alloc))
}
