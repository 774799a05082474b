//! What goes out behind `good`: a line for each sector that was read, or one line of data. Text alone.
ghost use Rattle.std.specs.Prelude.{◌≡◌, ◌<◌, ◌≤◌, ◌/◌, ◌++◌, ◌∷◌, [], drop, length, codes, decimal};
ghost use Rattle.hex.specs.Hex.{encode_lower};
ghost use Rattle.model_commands.specs.Commands.{operation_of};
ghost use Rattle.ram_report.specs.Reports.{PutsText};
ghost use Rattle.ram_report.specs.ReportLines.{reply_text, IsAddressed, is_read, is_one_byte, sector_text, sectors_text, data_text};

use crate::gathered::SinkFailed;
use crate::printing::parts::print_labelled;
use crate::report::ReportWriter;
use itoa::write_digits;
use model_commands::Operation;
use ram_bytes::{Cdb, SECTOR_BYTES, encode_hex, get_u32};
use ram_cdb::operation;
use ram_outside::Sink;
use ram_sense::Answer;

/// What the line of a sector begins with.
const LABEL: &[u8; 7] = b"sector ";

/// Prints the reply of a command that was done.
pub(crate) fn print_reply<K: Sink>(
    writer: &mut ReportWriter,
    sink: &mut K,
    answer: &Answer,
    cdb: &Cdb,
    reply: &[u8],
) -> Result<(), SinkFailed>
    requires { IsAddressed answer.now cdb.now }
    ensures { PutsText K.Sink writer.old sink.old writer.new sink.new
        (reply_text answer.now cdb.now reply.now) result }
{
    match answer {
        Answer::Good => {}
        Answer::Check(_) | Answer::Cut | Answer::Off | Answer::Fault => {
            return Ok(());
        }
    }
    if reads(cdb) {
        print_sectors(writer, sink, get_u32(cdb.bytes(), 2), reply)
    } else {
        print_data(writer, sink, reply)
    }
}

/// Whether the command reads sectors.
fn reads(cdb: &Cdb) -> bool
    ensures { result ≡ is_read (operation_of cdb.now) }
{
    match operation(cdb.operation_code()) {
        Some(Operation::Read10) | Some(Operation::Read12) => true,
        _ => false,
    }
}

/// Prints a line for each whole sector of these, the first of which is sector `lba`.
pub(crate) fn print_sectors<K: Sink>(
    writer: &mut ReportWriter,
    sink: &mut K,
    lba: u32,
    sectors: &[u8],
) -> Result<(), SinkFailed>
    ensures { PutsText K.Sink writer.old sink.old writer.new sink.new
        (sectors_text lba sectors.now (length sectors.now / 2048)) result }
{
    for k in 0..sectors.len() / SECTOR_BYTES {
        let sector = &sectors[SECTOR_BYTES * k..SECTOR_BYTES * (k + 1)];
        print_sector(writer, sink, lba as u64 + k as u64, sector)?;
    }
    Ok(())
}

/// Prints the line of a sector that was read.
fn print_sector<K: Sink>(
    writer: &mut ReportWriter,
    sink: &mut K,
    lba: u64,
    sector: &[u8],
) -> Result<(), SinkFailed>
    requires { length sector.now ≡ SECTOR_BYTES }
    ensures { PutsText K.Sink writer.old sink.old writer.new sink.new (sector_text lba sector.now) result }
{
    if is_fill(sector) {
        let mut line = [0u8; 40];
        let start = fill_line(lba, sector[0], &mut line);
        writer.put(sink, &line[start..])
    } else {
        print_bytes(writer, sink, lba, sector)
    }
}

/// Makes the line of a sector whose bytes are all this one, at the end of `line`. Where it begins there. It is made in one
/// piece, and in place, since most sectors of a disc are such.
fn fill_line(lba: u64, byte: u8, line: &mut [u8; 40]) -> usize
    ensures inside { result ≤ 40 }
    ensures line { drop result line.new ≡ codes "sector " ++ decimal lba ++ codes " fill "
        ++ encode_lower (byte ∷ []) ++ codes "\n" }
{
    *line = *b"                                fill 00\n";
    encode_hex(&[byte], &mut line[37..39]);
    let digits = write_digits(lba, line, 31);
    let start = digits - LABEL.len();
    line[start..digits].copy_from_slice(LABEL);
    start
}

/// Whether all bytes of the sector are equal. The fold has no early exit, so the compiler can look at many bytes at once.
fn is_fill(sector: &[u8]) -> bool
    requires { 0 < length sector.now }
    ensures { result ≡ is_one_byte sector.now }
{
    let first = sector[0];
    let differences = sector.iter().fold(0, |found, byte| found | (byte ^ first));
    differences == 0
}

/// Prints a sector's line with all its bytes.
fn print_bytes<K: Sink>(
    writer: &mut ReportWriter,
    sink: &mut K,
    lba: u64,
    bytes: &[u8],
) -> Result<(), SinkFailed>
    requires { length bytes.now ≤ SECTOR_BYTES }
    ensures { PutsText K.Sink writer.old sink.old writer.new sink.new
        (codes "sector " ++ decimal lba ++ codes " hex " ++ encode_lower bytes.now ++ codes "\n") result }
{
    print_labelled(writer, sink, LABEL, lba)?;
    writer.put(sink, b" hex ")?;
    writer.put_hex(sink, bytes)?;
    writer.put(sink, b"\n")
}

/// Prints the line of a reply, where there is one.
fn print_data<K: Sink>(
    writer: &mut ReportWriter,
    sink: &mut K,
    reply: &[u8],
) -> Result<(), SinkFailed>
    ensures { PutsText K.Sink writer.old sink.old writer.new sink.new (data_text reply.now) result }
{
    if reply.is_empty() {
        return Ok(());
    }
    print_labelled(writer, sink, b"data ", reply.len() as u64)?;
    print_data_digits(writer, sink, reply)
}

/// Prints the bytes in hexadecimal digits, after a space, and ends the line.
fn print_data_digits<K: Sink>(
    writer: &mut ReportWriter,
    sink: &mut K,
    reply: &[u8],
) -> Result<(), SinkFailed>
    ensures { PutsText K.Sink writer.old sink.old writer.new sink.new
        (codes " " ++ encode_lower reply.now ++ codes "\n") result }
{
    writer.put(sink, b" ")?;
    print_digits(writer, sink, reply)?;
    writer.put(sink, b"\n")
}

/// Prints the bytes in hexadecimal digits, 2,048 bytes at a time.
fn print_digits<K: Sink>(
    writer: &mut ReportWriter,
    sink: &mut K,
    bytes: &[u8],
) -> Result<(), SinkFailed>
    ensures { PutsText K.Sink writer.old sink.old writer.new sink.new (encode_lower bytes.now) result }
{
    for k in 0..bytes.len().div_ceil(SECTOR_BYTES) {
        let start = SECTOR_BYTES * k;
        let end = bytes.len().min(start + SECTOR_BYTES);
        writer.put_hex(sink, &bytes[start..end])?;
    }
    Ok(())
}
