//! The writer of a report: texts, numbers and hexadecimal digits, behind what is due. It touches what is gathered,
//! and the sink by `put` alone.
ghost use Rattle.std.specs.Prelude.{◌≡◌, ◌+◌, ◌*◌, ◌≤◌, [], decimal, length, vec_len, IfOk};
ghost use Rattle.hex.specs.Hex.{encode_lower};
ghost use Rattle.ram_report.specs.declared.gathered.TheConstants.{GATHERED_ROOM};
ghost use Rattle.ram_report.specs.declared.report.TheConstants.{WRITER_MEMORY};

use crate::gathered::{GATHERED_ROOM, Gathered, Print, SinkFailed};
use crate::hexadecimal::encode_prefix;
use itoa::Buffer;
use ram_bytes::{Budget, MemoryRefused, SECTOR_BYTES};
use ram_outside::Sink;

/// How many bytes a writer asks for: room for the text that is gathered, and for the digits of a sector.
pub const WRITER_MEMORY: usize = GATHERED_ROOM + 2 * SECTOR_BYTES;

/// Writes a report to a sink. Texts are gathered, and handed over when 64 KiB are full or when told to. At all
/// times what the sink has written is a prefix of the text that is due. Its room is taken when it is made.
#[derive(Drop)]
pub struct ReportWriter {
    gathered: Gathered,
    digits: Vec<u8>,

    /// No more is gathered than there is room for.
    pub ghost few: { length gathered ≤ GATHERED_ROOM },
    /// There is room for the digits of a sector.
    ghost row: { vec_len digits ≡ 4096 },
}

impl ReportWriter {
    ghost use Rattle.ram_report.specs.Reports.{PutsText, HandsOver, gathered_in};

    /// A writer with nothing gathered.
    ///
    /// # Clauses
    ///
    /// - `left`, `empty`: It asks for at most `WRITER_MEMORY` bytes of a budget that has as many. Nothing is gathered.
    ///
    /// # Answers
    ///
    /// - `Ok`: nothing is gathered. (clause)
    /// - `Err`: the system refused memory that was asked for within the budget. (clause)
    pub fn new(budget: &mut Budget) -> Result<ReportWriter, MemoryRefused>
        requires free { WRITER_MEMORY ≤ budget.old }
        ensures left { budget.old ≤ budget.new + WRITER_MEMORY }
        ensures empty { IfOk result (λ writer. gathered_in writer ≡ []) }
    {
        Ok(ReportWriter {
            gathered: Gathered::new(budget)?,
            digits: budget.zeros(2 * SECTOR_BYTES)?,
        })
    }

    /// Puts a text behind what is due. Where the sink fails, a prefix of the text is.
    ///
    /// # Clauses
    ///
    /// - `PutsText`: The same of a part of a line. What was written and what is gathered are together what is due: no byte is
    ///   lost, doubled or out of order.
    ///
    /// # Answers
    ///
    /// - `Ok`: the whole text is due. (`IsPut`)
    /// - `Err`: the sink counted a failure; a prefix of the text is due. (`IsCutShort`)
    pub fn put<K: Sink>(&mut self, sink: &mut K, text: &[u8]) -> Result<(), SinkFailed>
        ensures { PutsText K.Sink self.old sink.old self.new sink.new text.now result }
    {
        self.gathered.put(sink, text)
    }

    /// Hands the sink what is gathered.
    ///
    /// # Clauses
    ///
    /// - `HandsOver`: What is due stays as it was. Nothing is gathered any more, and the sink counted nothing; or the sink's
    ///   count rose.
    ///
    /// # Answers
    ///
    /// - `Done`: all was handed over. Then: what is due is as before; nothing is gathered. (`FlushRule`)
    /// - `Failed`: the sink counted a failure. Then: what is due is as before. (`FlushRule`)
    pub fn flush<K: Sink>(&mut self, sink: &mut K) -> Print
        ensures { HandsOver K.Sink self.old sink.old self.new sink.new result }
    {
        self.gathered.flush(sink)
    }

    /// Puts a number in decimal digits behind what is due.
    ///
    /// # Clauses
    ///
    /// - `PutsText`: The same of a part of a line. What was written and what is gathered are together what is due: no byte is
    ///   lost, doubled or out of order.
    ///
    /// # Answers
    ///
    /// - `Ok`: the digits of the number are due. (`IsPut`)
    /// - `Err`: the sink counted a failure; a prefix of them is due. (`IsCutShort`)
    pub fn put_number<K: Sink>(&mut self, sink: &mut K, number: u64) -> Result<(), SinkFailed>
        ensures { PutsText K.Sink self.old sink.old self.new sink.new (decimal number) result }
    {
        let mut buffer = Buffer::new();
        self.gathered.put(sink, buffer.format(number).as_bytes())
    }

    /// Puts bytes in lower-case hexadecimal digits behind what is due, at most a sector's.
    ///
    /// # Clauses
    ///
    /// - `PutsText`: The same of a part of a line. What was written and what is gathered are together what is due: no byte is
    ///   lost, doubled or out of order.
    ///
    /// # Answers
    ///
    /// - `Ok`: the digits of the bytes are due. (`IsPut`)
    /// - `Err`: the sink counted a failure; a prefix of them is due. (`IsCutShort`)
    pub fn put_hex<K: Sink>(&mut self, sink: &mut K, bytes: &[u8]) -> Result<(), SinkFailed>
        requires { length bytes.now ≤ SECTOR_BYTES }
        ensures { PutsText K.Sink self.old sink.old self.new sink.new (encode_lower bytes.now) result }
    {
        let len = 2 * bytes.len();
        encode_prefix(bytes, &mut self.digits);
        self.gathered.put(sink, &self.digits[..len])
    }
}
