//! The answers to commands: `good`, a check with its sense, `cut`, `off`. Text alone.
ghost use Rattle.std.specs.Prelude.{◌≡◌, ◌<◌, ◌++◌, codes, slice_index};
ghost use Rattle.hex.specs.Hex.{lower_digits};
ghost use Rattle.ram_report.specs.Reports.{Prints, PutsText};
ghost use Rattle.ram_report.specs.ReportLines.{numbered, sense_code, info_words, answer_words, answer_text, IsPrinted, IsAddressed};

use crate::gathered::{Print, SinkFailed, printed};
use crate::printing::data::print_reply;
use crate::printing::parts::print_counted;
use crate::report::ReportWriter;
use ram_bytes::Cdb;
use ram_outside::Sink;
use ram_sense::{Answer, Sense};

/// Prints the answer to a command, and behind `good` its reply: a line for each sector that was read, or one line
/// of data where there are some. A sector is looked at in one pass to tell whether it is of one byte; the digits
/// of each line are made 2,048 bytes at a time.
///
/// # Clauses
///
/// - `Prints`: Exactly their text is due, and the sink counted nothing; or a prefix of it, and the sink's count rose.
///   `print_answer` is for answers that are printed: all but a fault, and with `good` of a READ for command blocks of at least 6
///   bytes.
///
/// # Answers
///
/// What is due is what the sink has written, and then what is gathered for it.
///
/// - `Done`: the whole text is due. Then: it stands behind what was due. (`IsPut`)
/// - `Failed`: the sink counted a failure. Then: a prefix of the text stands behind what was due. (`IsCutShort`)
pub fn print_answer<K: Sink>(
    writer: &mut ReportWriter,
    sink: &mut K,
    number: u64,
    answer: &Answer,
    cdb: &Cdb,
    reply: &[u8],
) -> Print
    requires printed { IsPrinted answer.now }
    requires addressed { IsAddressed answer.now cdb.now }
    ensures { Prints K.Sink writer.old sink.old writer.new sink.new
        (answer_text number answer.now cdb.now reply.now) result }
{
    printed(put_answer(writer, sink, number, answer, cdb, reply))
}

/// The same, by how it went.
fn put_answer<K: Sink>(
    writer: &mut ReportWriter,
    sink: &mut K,
    number: u64,
    answer: &Answer,
    cdb: &Cdb,
    reply: &[u8],
) -> Result<(), SinkFailed>
    requires printed { IsPrinted answer.now }
    requires addressed { IsAddressed answer.now cdb.now }
    ensures { PutsText K.Sink writer.old sink.old writer.new sink.new
        (answer_text number answer.now cdb.now reply.now) result }
{
    print_words_of(writer, sink, number, answer)?;
    print_reply(writer, sink, answer, cdb, reply)
}

/// Prints the first line of an answer to a command.
fn print_words_of<K: Sink>(
    writer: &mut ReportWriter,
    sink: &mut K,
    number: u64,
    answer: &Answer,
) -> Result<(), SinkFailed>
    requires { IsPrinted answer.now }
    ensures { PutsText K.Sink writer.old sink.old writer.new sink.new
        (numbered number (answer_words answer.now)) result }
{
    writer.put_number(sink, number)?;
    print_words(writer, sink, answer)
}

/// Prints the words of an answer to a command, after a space, and ends the line.
fn print_words<K: Sink>(
    writer: &mut ReportWriter,
    sink: &mut K,
    answer: &Answer,
) -> Result<(), SinkFailed>
    requires { IsPrinted answer.now }
    ensures { PutsText K.Sink writer.old sink.old writer.new sink.new
        (codes " " ++ answer_words answer.now ++ codes "\n") result }
{
    match answer {
        Answer::Good => writer.put(sink, b" good\n"),
        Answer::Check(sense) => print_check(writer, sink, sense),
        Answer::Cut => writer.put(sink, b" cut\n"),
        Answer::Off => writer.put(sink, b" off\n"),
        Answer::Fault => unreachable!(),
    }
}

/// Prints why a command was not done, after a space, and ends the line.
fn print_check<K: Sink>(
    writer: &mut ReportWriter,
    sink: &mut K,
    sense: &Sense,
) -> Result<(), SinkFailed>
    ensures { PutsText K.Sink writer.old sink.old writer.new sink.new
        (codes " check " ++ (sense_code sense.now ++ (info_words sense.now.info ++ codes "\n"))) result }
{
    writer.put(sink, b" check ")?;
    print_sense(writer, sink, sense)
}

/// Prints the code of sense data and its information, and ends the line.
fn print_sense<K: Sink>(
    writer: &mut ReportWriter,
    sink: &mut K,
    sense: &Sense,
) -> Result<(), SinkFailed>
    ensures { PutsText K.Sink writer.old sink.old writer.new sink.new
        (sense_code sense.now ++ (info_words sense.now.info ++ codes "\n")) result }
{
    writer.put(sink, &digits_of(sense))?;
    print_info(writer, sink, sense.info)
}

/// Prints the information of sense data, where there is some, and ends the line.
fn print_info<K: Sink>(
    writer: &mut ReportWriter,
    sink: &mut K,
    info: Option<u32>,
) -> Result<(), SinkFailed>
    ensures { PutsText K.Sink writer.old sink.old writer.new sink.new (info_words info ++ codes "\n") result }
{
    match info {
        Some(lba) => print_counted(writer, sink, b" info ", lba as u64),
        None => writer.put(sink, b"\n"),
    }
}

/// The key, the code and its qualifier of a sense in lower-case hexadecimal digits, parted by slashes: `K/AA/QQ`. (This
/// project's own, of the numbers of INCITS MMC.)
pub fn digits_of(sense: &Sense) -> [u8; 7]
    ensures { result ≡ sense_code sense.now }
{
    [
        digit_of(sense.key % 16),
        b'/',
        digit_of(sense.asc / 16),
        digit_of(sense.asc % 16),
        b'/',
        digit_of(sense.ascq / 16),
        digit_of(sense.ascq % 16),
    ]
}

/// The lower-case hexadecimal digit of this value.
fn digit_of(value: u8) -> u8
    requires { value < 16 }
    ensures { result ≡ slice_index lower_digits value }
{
    if value < 10 {
        b'0' + value
    } else {
        b'a' + (value - 10)
    }
}
