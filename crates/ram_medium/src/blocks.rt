//! The trait of any medium.

ghost use Rattle.std.specs.Prelude.{◌≡◌, ℕ, ◌<◌, true, false, [], length};
ghost use Rattle.model_medium.specs.World.{World, Span, ReadRule, WriteRule, ReadContinues, WriteContinues};
ghost use Rattle.model_medium.specs.Exact.{Event, Read, Write, PowerOn, PowerOff};
ghost use Rattle.ram_bytes.specs.declared.block.TheConstants.{BLOCK_BYTES};
ghost use Rattle.model_medium.specs.Happened.{Happened};
ghost use Rattle.ram_medium.specs.Laws.{MediumLaws};
ghost use Rattle.ram_medium.specs.ReadInto.{bytes_read};

use model_medium::{ReadEnd, WriteEnd};
use ram_bytes::Block;

/// Blocks that are read and written whole, numbered from 0. Each read or write with the power on is one use, however
/// it ends.
pub trait Medium {
    /// All that the medium shows.
    ghost world: { Self → World };

    /// How many blocks it has.
    ghost block_count: { Self → ℕ };

    /// What can follow by n uses that did not fail, or by one that did.
    ghost reaches: { Self → Self → Span → Type 0 };

    /// That this event happened in between. What it does exactly, a controllable medium says.
    ghost takes: { Self → Self → Event → Type 0 };

    /// How many blocks the medium has.
    ///
    /// # Clauses
    ///
    /// - `power`: the power, and nothing else.
    fn blocks(&self) -> u32
        ensures { result ≡ block_count self.now };

    /// Whether the power is on.
    ///
    /// # Clauses
    ///
    /// - `power`: the power, and nothing else.
    ///
    /// # Answers
    ///
    /// - `true`, `false`: `true` exactly when the power is on. (clause)
    fn powered(&self) -> bool
        ensures { result ≡ (world self.now).power };

    /// Reads a block. `into` changes only where all of it was read. With the power off nothing happens; where the answer
    /// is a cut or a failure the power is off afterwards.
    ///
    /// # Clauses
    ///
    /// - `rule` (`ReadRule`): `Done`: the cell is good, these are its bytes, and no cell changed. `Unreadable`: the cell is not
    ///   good. `Cut`: the power was cut in this use. `Off`: the power was off, and nothing changed. `Failed`: the count of faults
    ///   rose, and the power is off. After `Unreadable`, `Cut` and `Failed` the cell is as it was, or dead. The caller's block
    ///   changes with `Done` alone.
    /// - `event` (`MemTakes`): it does exactly what the event does on a controllable medium. It fails exactly at a use whose
    ///   number was named. Then the use and one fault are counted, arms and armed cut count down, the power is off, and no cell
    ///   changed, nor, by `read`, the caller's block.
    ///
    /// # Answers
    ///
    /// `read_into` says nothing of the caller's bytes on any answer but `Done`. `read` leaves them as they were on each of these.
    ///
    /// - `Done`: the cell is good, where cells are known. Then: the caller has its bytes; no cell changed; one use. (`ReadsCell`)
    /// - `Unreadable`: the cell is not good now. Then: it is as before or dead; one use. (`FindsNoBytes`)
    /// - `Cut`: the power was cut in this use, and the cut was counted. Then: the power is off; the cell is as before or dead.
    ///   (`IsCutInRead`)
    /// - `Off`: the power was off. Then: nothing changed, and no use is counted. (`IsOff`)
    /// - `Failed`: what the medium lies on counted a failure. Then: the power is off; the cell is as before or dead.
    ///   (`FailsInRead`)
    fn read(&mut self, block: u32, into: &mut Block) -> ReadEnd
        requires { block < block_count self.old }
        ensures rule { ReadRule (world self.old) (world self.new) block into.old into.new result }
        ensures continues { ReadContinues (reaches self.old self.new) result }
        ensures event { takes self.old self.new (Read block into.old into.new result) }
        ensures as_many { block_count self.new ≡ block_count self.old };

    /// Reads a block straight into the caller's bytes, as many as a block has. It does what `read` does, but that what these
    /// bytes are is said only where all of the block was read.
    ///
    /// # Clauses
    ///
    /// - `rule` (`ReadRule`): the same straight into the caller's bytes, of which nothing is said but after `Done`
    ///   (`bytes_read`).
    /// - `event` (`MemTakes`): it does exactly what the event does on a controllable medium. It fails exactly at a use whose
    ///   number was named. Then the use and one fault are counted, arms and armed cut count down, the power is off, and no cell
    ///   changed, nor, by `read`, the caller's block.
    ///
    /// # Answers
    ///
    /// As for `Medium::read`.
    fn read_into(&mut self, block: u32, into: &mut [u8]) -> ReadEnd
        requires inside { block < block_count self.old }
        requires whole { length into.old ≡ BLOCK_BYTES }
        ensures rule { ReadRule (world self.old) (world self.new) block [] (bytes_read result into.new) result }
        ensures continues { ReadContinues (reaches self.old self.new) result }
        ensures event { takes self.old self.new (Read block [] (bytes_read result into.new) result) }
        ensures as_many { block_count self.new ≡ block_count self.old };

    /// Writes a block. A dead one stays dead, and the write of one is done all the same: a read tells. With the power off
    /// nothing happens; where the answer is a cut or a failure the power is off afterwards.
    ///
    /// # Clauses
    ///
    /// - `rule` (`WriteRule`): `Done`: the cell has just these bytes, or is dead. `Cut`, `Failed`: it is as it was, has the
    ///   bytes, is torn, or is dead.
    /// - `event` (`MemTakes`): it does exactly what the event does on a controllable medium. It fails exactly at a use whose
    ///   number was named. Then the use and one fault are counted, arms and armed cut count down, the power is off, and no cell
    ///   changed, nor, by `read`, the caller's block.
    ///
    /// # Answers
    ///
    /// - `Done`: the write went to its end. Then: the cell has the bytes, or is dead; one use. A read tells which. (`WritesCell`)
    /// - `Cut`: the power was cut in this use, and the cut was counted. Then: the power is off; the cell is as before, has the
    ///   bytes, or is torn or dead. (`IsCutInWrite`)
    /// - `Off`: the power was off. Then: nothing changed, and no use is counted. (`IsOff`)
    /// - `Failed`: what the medium lies on counted a failure. Then: the power is off; the cell is as after a cut.
    ///   (`FailsInWrite`)
    fn write(&mut self, block: u32, from: &Block) -> WriteEnd
        requires { block < block_count self.old }
        ensures rule { WriteRule (world self.old) (world self.new) block from.now result }
        ensures continues { WriteContinues (reaches self.old self.new) result }
        ensures event { takes self.old self.new (Write block from.now result) }
        ensures as_many { block_count self.new ≡ block_count self.old };

    /// Writes a block straight from the caller's bytes, as many as a block has. It does what `write` does.
    ///
    /// # Clauses
    ///
    /// - `rule` (`WriteRule`): the same straight from the caller's bytes.
    /// - `event` (`MemTakes`): it does exactly what the event does on a controllable medium. It fails exactly at a use whose
    ///   number was named. Then the use and one fault are counted, arms and armed cut count down, the power is off, and no cell
    ///   changed, nor, by `read`, the caller's block.
    ///
    /// # Answers
    ///
    /// As for `Medium::write`.
    fn write_from(&mut self, block: u32, from: &[u8]) -> WriteEnd
        requires inside { block < block_count self.old }
        requires whole { length from.now ≡ BLOCK_BYTES }
        ensures rule { WriteRule (world self.old) (world self.new) block from.now result }
        ensures continues { WriteContinues (reaches self.old self.new) result }
        ensures event { takes self.old self.new (Write block from.now result) }
        ensures as_many { block_count self.new ≡ block_count self.old };

    /// Turns the power on, and does nothing else.
    ///
    /// # Clauses
    ///
    /// - `power`: the power, and nothing else.
    fn power_on(&mut self)
        ensures power { world self.new ≡ record (world self.old) { power = true } }
        ensures event { takes self.old self.new PowerOn }
        ensures as_many { block_count self.new ≡ block_count self.old };

    /// Turns the power off, and does nothing else.
    ///
    /// # Clauses
    ///
    /// - `power`: the power, and nothing else.
    fn power_off(&mut self)
        ensures power { world self.new ≡ record (world self.old) { power = false } }
        ensures event { takes self.old self.new PowerOff }
        ensures as_many { block_count self.new ≡ block_count self.old };

    ghost laws: { MediumLaws world block_count reaches };

    /// Nothing but events happens to a medium.
    ghost happened: { (a b : Self) (span : Span) → reaches a b span → Happened takes a b };
}
