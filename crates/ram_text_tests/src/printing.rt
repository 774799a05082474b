//! Rows on what is printed: the text of one answer, of one last line, or of a line.
ghost use Rattle.std.specs.Prelude.{IfSome};
ghost use Rattle.ram_report.specs.ReportLines.{IsPrinted};

use crate::data::data_of;
use crate::lines::number_of;
use ram_bytes::{Budget, Cdb};
use ram_outside::{MemSink, Sink};
use ram_report::{
    Event, LastLine, Print, ReportWriter, print_answer, print_event, print_last, print_line,
};
use ram_sense::codes::{INVALID_FIELD_IN_PARAMETERS, POWER_ON_OCCURRED, unrecovered_read_error};
use ram_sense::{Answer, Sense};
use std::alloc::{AllocError, Global};
use std::fmt::Write;

/// How many bytes the longest text has for which a sink has room.
const TEXT_BYTES: usize = 65_536;

/// The event of these words.
fn event_of(words: &str) -> Option<Event> {
    match words {
        "pressed" => Some(Event::Pressed),
        "not pressed" => Some(Event::NotPressed),
        "not formatted" => Some(Event::NotFormatted),
        "cut" => Some(Event::Cut),
        "failed" => Some(Event::Failed),
        "no such block" => Some(Event::NoSuchBlock),
        "armed" => Some(Event::Armed),
        "full" => Some(Event::Full),
        "idle" => Some(Event::Idle),
        "off" => Some(Event::Off),
        "check 3/32/01" => Some(Event::NoUpdate),
        _ => numbered_of(words),
    }
}

/// The event of these words, which end with a number.
fn numbered_of(words: &str) -> Option<Event> {
    if let Some(lba) = words.strip_prefix("written ") {
        return Some(Event::Written {
            lba: lba.parse().ok()?,
        });
    }
    if let Some(lba) = words.strip_prefix("check 3/32/00 info ") {
        return Some(Event::NoSpare {
            lba: lba.parse().ok()?,
        });
    }
    if let Some(lba) = words.strip_prefix("readable ") {
        return Some(Event::Readable {
            lba: lba.parse().ok()?,
        });
    }
    if let Some(lba) = words.strip_prefix("unreadable ") {
        return Some(Event::Unreadable {
            lba: lba.parse().ok()?,
        });
    }
    Some(Event::Ready {
        capacity: words.strip_prefix("ready ")?.parse().ok()?,
    })
}

/// The last line of this kind.
fn last_of(kind: &str, number: u64) -> Option<LastLine> {
    match kind {
        "end" => Some(LastLine::End { answered: number }),
        "not-in-language" => Some(LastLine::NotInLanguage { line: number }),
        "line-too-long" => Some(LastLine::LineTooLong { line: number }),
        "script-too-long" => Some(LastLine::ScriptTooLong),
        "not-a-disc" => Some(LastLine::NotADisc { line: number }),
        _ => None,
    }
}

/// A byte of two hexadecimal digits.
fn byte_of(word: &str) -> Option<u8> {
    u8::from_str_radix(word, 16).ok()
}

/// The sense of these words: one of three names, or its three numbers and its information.
fn sense_of(words: &[&str]) -> Option<Sense> {
    match *words {
        ["power-on"] => Some(POWER_ON_OCCURRED),
        ["invalid-parameters"] => Some(INVALID_FIELD_IN_PARAMETERS),
        ["unrecovered-read", lba] => Some(unrecovered_read_error(lba.parse().ok()?)),
        [key, asc, ascq, info] => Some(Sense {
            key: byte_of(key)?,
            asc: byte_of(asc)?,
            ascq: byte_of(ascq)?,
            info: Some(info.parse().ok()?),
        }),
        _ => None,
    }
}

/// The answer of these words.
fn answer_of(words: &[&str]) -> Option<Answer>
    ensures { IfSome result IsPrinted }
{
    match words {
        ["good"] => Some(Answer::Good),
        ["cut"] => Some(Answer::Cut),
        ["off"] => Some(Answer::Off),
        ["check", sense @ ..] => Some(Answer::Check(sense_of(sense)?)),
        _ => None,
    }
}

/// The command block of these hexadecimal digits.
fn cdb_of(alloc: Global, digits: &str) -> Option<Cdb> {
    Cdb::from_bytes(&hex::decode(alloc, digits).ok()?)
}

/// What is printed.
#[derive(Clone, Copy)]
enum Printed<'a> {
    Event(Event),
    Found(&'a str),
    Last(LastLine),
    Line(&'a str),
}

/// What these words say is printed, with the number of its line.
fn printed_of<'a>(words: &'a str) -> Option<(u64, Printed<'a>)> {
    let (kind, rest) = words.split_once(' ')?;
    let (first, rest_of_rest) = rest.split_once(' ').unwrap_or((rest, ""));
    match kind {
        "found" => Some((number_of(first), Printed::Found(rest_of_rest))),
        "event" => Some((number_of(first), Printed::Event(event_of(rest_of_rest)?))),
        "last" => Some((0, Printed::Last(last_of(first, number_of(rest_of_rest))?))),
        "line" => Some((0, Printed::Line(rest))),
        _ => None,
    }
}

/// Prints it. Behind how many blocks were found these are told.
fn print<K: Sink>(
    writer: &mut ReportWriter,
    sink: &mut K,
    number: u64,
    printed: &Printed,
    found: &[u32],
) -> Print {
    match printed {
        Printed::Event(event) => print_event(writer, sink, number, event, found),
        Printed::Found(_) => {
            let count = found.len() as u64;
            print_event(writer, sink, number, &Event::Found { count }, found)
        }
        Printed::Last(last) => print_last(writer, sink, last),
        Printed::Line(line) => print_line(writer, sink, line.as_bytes()),
    }
}

/// The blocks of these words.
fn blocks_of(alloc: Global, printed: &Printed) -> Result<Vec<u32>, AllocError> {
    let mut blocks = Vec::new(alloc);
    if let Printed::Found(words) = printed {
        for word in words.split(' ') {
            if let Ok(block) = word.parse() {
                blocks.push(block)?;
            }
        }
    }
    Ok(blocks)
}

/// Prints the answer to a command, unless it is done and its command block has too few bytes for the sectors it reads.
fn print_reply<K: Sink>(
    writer: &mut ReportWriter,
    sink: &mut K,
    number: u64,
    answer: &Answer,
    cdb: &Cdb,
    reply: &[u8],
) -> Print
    requires { IsPrinted answer.now }
{
    match cdb.operation_code() {
        0x12 | 0xad => print_answer(writer, sink, number, answer, cdb, reply),
        _ if cdb.len() >= 6 => print_answer(writer, sink, number, answer, cdb, reply),
        _ => Print::Failed,
    }
}

/// Prints the answer of these words, if it is one.
fn print_words<K: Sink>(
    alloc: Global,
    writer: &mut ReportWriter,
    sink: &mut K,
    words: &[&str],
) -> Result<Print, AllocError> {
    let [number, digits, data, answer @ ..] = words else {
        return Ok(Print::Failed);
    };
    let reply = data_of(alloc, data)?;
    match (cdb_of(alloc, digits), answer_of(answer)) {
        (Some(cdb), Some(answer)) => Ok(print_reply(
            writer,
            sink,
            number_of(number),
            &answer,
            &cdb,
            &reply,
        )),
        _ => Ok(Print::Failed),
    }
}

/// Prints what these words say.
fn print_row<K: Sink>(
    alloc: Global,
    writer: &mut ReportWriter,
    sink: &mut K,
    words: &str,
) -> Result<Print, AllocError> {
    if let Some(words) = words.strip_prefix("answer ") {
        let words: Vec<&str> = words.split(' ').collect(alloc)?;
        return print_words(alloc, writer, sink, &words);
    }
    match printed_of(words) {
        Some((number, printed)) => {
            let found = blocks_of(alloc, &printed)?;
            Ok(print(writer, sink, number, &printed, &found))
        }
        None => Ok(Print::Failed),
    }
}

/// Adds what a sink has after this was printed and handed over, without its last line feed.
pub fn answer_print(alloc: Global, words: &str, answer: &mut String) -> Result<(), AllocError> {
    let mut writer = ReportWriter::new(&mut Budget::ample(alloc))?;
    let mut sink = MemSink::new(alloc, TEXT_BYTES, Vec::new(alloc));
    let printed = print_row(alloc, &mut writer, &mut sink, words)?;
    let flushed = writer.flush(&mut sink);
    let text = str::from_utf8(sink.bytes()).unwrap_or("no text");
    answer.push_str(text.strip_suffix('\n').unwrap_or("no line"))?;
    if printed != Print::Done || flushed != Print::Done {
        write!(answer, " {printed:?} {flushed:?}")?;
    }
    Ok(())
}
