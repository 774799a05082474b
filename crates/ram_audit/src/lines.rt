//! Lines of a certificate, as their text. No call but `new` takes memory.

ghost use Rattle.std.specs.Prelude.{◌≤◌, length, vec_capacity};
ghost use Rattle.ram_audit.specs.declared.telling.TheConstants.{TEXT_ROOM};

use crate::telling::{TEXT_ROOM, put_line};
use model_audit::CertificateLine;
use ram_bytes::{Budget, MemoryRefused};

/// Lines of a certificate, as their text, and how many they are. There is room for the text of any disc.
#[derive(Drop)]
pub struct Lines {
    text: Vec<u8>,
    count: u64,
    ghost room: { TEXT_ROOM ≤ vec_capacity text },
    ghost few: { count ≤ length text.items },
}

impl Lines {
    ghost use Rattle.std.specs.Prelude.{◌≡◌, ◌+◌, List, [], ◌∷◌, ◌++◌, IfOk};
    ghost use Rattle.model_audit.specs.Certificate.{closed};
    ghost use Rattle.model_audit.specs.declared.lines.CertificateLine.{CertificateLine as Told};
    ghost use Rattle.ram_audit.specs.Bytes.{most_bytes};
    ghost use Rattle.ram_audit.specs.Telling.{AreLines, bytes_of};

    /// No lines, and the room of the text of any disc.
    ///
    /// # Clauses
    ///
    /// - `left`, `empty`: it asks for at most `TEXT_ROOM` bytes of a budget that has as many, and gives no lines; a refusal is
    ///   the system's, by its type.
    ///
    /// # Answers
    ///
    /// - `Ok`: memory for the text of any disc was given. Then: there are no lines. (`AreLines`)
    /// - `Err`: the system refused memory that was asked for within the budget. Then: nothing is there. (clause)
    pub fn new(budget: &mut Budget) -> Result<Lines, MemoryRefused>
        requires free { TEXT_ROOM ≤ budget.old }
        ensures left { budget.old ≤ budget.new + TEXT_ROOM }
        ensures empty { IfOk result (λ lines. AreLines lines []) }
    {
        Ok(Lines {
            text: budget.room(TEXT_ROOM)?,
            count: 0,
        })
    }

    /// Drops all lines.
    ///
    /// # Clauses
    ///
    /// - its one clause: no lines.
    pub fn clear(&mut self)
        ensures { AreLines self.new [] }
    {
        self.text.clear();
        self.count = 0;
    }

    /// Adds a line.
    ///
    /// # Clauses
    ///
    /// - `lines`: whatever lines there were (`AreLines`: text and number), there is this one more behind them.
    /// - `len`: the text grows by the bytes that such a line has at most (`most_bytes`). The call asks that these fit into the
    ///   room.
    pub fn push(&mut self, line: CertificateLine)
        requires { bytes_of self.old + most_bytes line ≤ TEXT_ROOM }
        ensures lines { (told : List Told) → AreLines self.old told → AreLines self.new (told ++ line ∷ []) }
        ensures len { bytes_of self.new ≤ bytes_of self.old + most_bytes line }
    {
        put_line(&mut self.text, line);
        self.count += 1;
    }

    /// Adds the last line, which counts those before it.
    ///
    /// # Clauses
    ///
    /// - its one clause: the last line is behind them, which counts those before it (`closed`).
    pub fn close(&mut self)
        requires { bytes_of self.old + 25 ≤ TEXT_ROOM }
        ensures { (told : List Told) → AreLines self.old told → AreLines self.new (closed told) }
    {
        self.push(CertificateLine::End { lines: self.count });
    }

    /// Their text.
    ///
    /// # Clauses
    ///
    /// - its one clause: the text.
    pub fn text(&self) -> &[u8]
        ensures { result.now ≡ self.now.text.items }
    {
        self.text.as_slice()
    }
}
