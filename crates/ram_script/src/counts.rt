//! The answers to commands, counted by what they are.
ghost use Rattle.std.specs.Prelude.{◌≡◌, ◌<◌, ◌-◌, ◌^◌, None, [], All, map};
ghost use Rattle.ram_script.specs.Counting.{is_same_sense, counts_in, raised_by, with_reply, AreAtMost};

use ram_machine::Reply;
use ram_mmc::Answer;
use ram_sense::Sense;
use ram_sense::codes::{
    ADDRESS_OUT_OF_RANGE, DEFECT_LIST_UPDATE_FAILURE, FORMAT_COMMAND_FAILED,
    INVALID_FIELD_IN_COMMAND, INVALID_FIELD_IN_PARAMETERS, INVALID_OPERATION_CODE,
    MEDIUM_FORMAT_CORRUPTED, MEDIUM_NOT_PRESENT, PARAMETER_LIST_LENGTH_ERROR, POWER_ON_OCCURRED,
    REMOVAL_PREVENTED, SAVING_NOT_SUPPORTED, no_spare_location, unrecovered_read_error,
};

/// How often a sense came as the answer to a command.
#[derive(Clone, Copy, Debug, PartialEq, Eq)]
pub struct SenseCount {
    /// The sense, without information.
    pub sense: Sense,
    /// How often it came, with whatever information.
    pub times: u64,
}

/// How the commands so far were answered.
#[derive(Clone, Copy, Debug, PartialEq, Eq)]
pub struct AnswerCounts {
    /// How many were done.
    pub good: u64,
    /// In how many the power was cut.
    pub cut: u64,
    /// How many found the power off.
    pub off: u64,
    /// How often each sense came, in rising order of key, code and qualifier.
    pub checks: [SenseCount; 14],
}

impl AnswerCounts {
    /// No command was answered yet. The senses are all that a command may be answered with. (After INCITS MMC.)
    pub fn new() -> AnswerCounts
        ensures { result ≡ counts_in [] }
    {
        AnswerCounts {
            good: 0,
            cut: 0,
            off: 0,
            checks: [
                never(MEDIUM_NOT_PRESENT),
                never(unrecovered_read_error(0)),
                never(MEDIUM_FORMAT_CORRUPTED),
                never(FORMAT_COMMAND_FAILED),
                never(no_spare_location(0)),
                never(DEFECT_LIST_UPDATE_FAILURE),
                never(PARAMETER_LIST_LENGTH_ERROR),
                never(INVALID_OPERATION_CODE),
                never(ADDRESS_OUT_OF_RANGE),
                never(INVALID_FIELD_IN_COMMAND),
                never(INVALID_FIELD_IN_PARAMETERS),
                never(SAVING_NOT_SUPPORTED),
                never(REMOVAL_PREVENTED),
                never(POWER_ON_OCCURRED),
            ],
        }
    }

    /// Counts one reply more, where it is that of a command.
    ///
    /// # Clauses
    ///
    /// - Each count is how many lines were answered so (`counts_in`).
    pub fn count(&mut self, reply: &Reply)
        requires { AreAtMost self.old (2 ^ 63) }
        ensures { self.new ≡ with_reply self.old reply.now }
    {
        let Reply::Command { answer, .. } = reply else {
            return;
        };
        match answer {
            Answer::Good => self.good += 1,
            Answer::Check(sense) => raise(&mut self.checks, sense),
            Answer::Cut => self.cut += 1,
            Answer::Off => self.off += 1,
            Answer::Fault => {}
        }
    }
}

/// A sense that did not come so far, without its information.
fn never(given: Sense) -> SenseCount
    ensures { result ≡ record { sense = record given { info = None }; times = 0 } }
{
    let sense = Sense {
        key: given.key,
        asc: given.asc,
        ascq: given.ascq,
        info: None,
    };
    SenseCount { sense, times: 0 }
}

/// Counts this sense once more.
fn raise(rows: &mut [SenseCount], sense: &Sense)
    requires { All (λ row. row.times < 2 ^ 64 - 1) rows.old }
    ensures { rows.new ≡ map (raised_by sense.now) rows.old }
{
    for row in rows.iter_mut() {
        *row = raised_by(*row, sense);
    }
}

/// The count of a sense after this one came.
fn raised_by(row: SenseCount, given: &Sense) -> SenseCount
    requires { row.times < 2 ^ 64 - 1 }
    ensures { result ≡ raised_by given.now row }
{
    if !is_same_sense(&row.sense, given) {
        return row;
    }
    SenseCount {
        sense: row.sense,
        times: row.times + 1,
    }
}

/// Whether both have the same key, code and qualifier.
fn is_same_sense(a: &Sense, b: &Sense) -> bool
    ensures { result ≡ is_same_sense a.now b.now }
{
    a.key == b.key && a.asc == b.asc && a.ascq == b.ascq
}
