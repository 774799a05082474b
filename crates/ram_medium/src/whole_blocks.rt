//! Reads and writes over any medium, with the ways to stop as an error.

ghost use Rattle.std.specs.Prelude.{◌≡◌, ◌<◌, MatchResult, [], length};
ghost use Rattle.model_medium.specs.World.{WritesCell};
ghost use Rattle.model_medium.specs.Exact.{Read, Write};
ghost use Rattle.model_stops.specs.Stops.{Continues, Stops};
ghost use Rattle.ram_bytes.specs.declared.block.TheConstants.{BLOCK_BYTES};
ghost use Rattle.ram_medium.specs.ReadInto.{bytes_read};
ghost use Rattle.ram_medium.specs.WholeBlocks.{StoppedRead, EndedRead, StoppedWrite, read_end, write_end};

use crate::blocks::Medium;
use model_medium::{ReadEnd, WriteEnd};
use model_stops::Stop;
use ram_bytes::Block;

/// Reads a block. Whether it has whole bytes, or why the read was stopped; `into` changes only where it has.
///
/// # Clauses
///
/// - `rule`, `continues`, `event`: the same as `read`, `read_into` and `write_from`, with the three ways to stop as an error, for
///   `?`.
///
/// # Answers
///
/// - `Ok`: the read was not stopped; `true` or `false`. Then: the power is on; one use. (`EndedRead`)
/// - `true`: the cell is good, where cells are known. Then: the caller has its bytes. (`ReadsCell`)
/// - `false`: the cell is not good now. Then: it is as before or dead. (`FindsNoBytes`)
/// - `Err`: the read was stopped: `Cut`, `Off` or `Fault`. Then: the power is off. (`StoppedRead`)
/// - `Cut`: as for `Cut` of a read. (`IsCutInRead`)
/// - `Off`: as for `Off` of a read. (`IsOff`)
/// - `Fault`: as for `Failed` of a read. (`FailsInRead`)
pub fn read_whole<M: Medium>(medium: &mut M, block: u32, into: &mut Block) -> Result<bool, Stop>
    requires { block < M.block_count medium.old }
    ensures rule { MatchResult result
        (EndedRead (M.world medium.old) (M.world medium.new) block into.old into.new)
        (StoppedRead (M.world medium.old) (M.world medium.new) block into.old into.new) }
    ensures continues { MatchResult result
        (λ whole. Continues M.world M.reaches medium.old medium.new 1)
        (Stops M.world M.reaches medium.old medium.new 1) }
    ensures event { M.takes medium.old medium.new (Read block into.old into.new (read_end result)) }
    ensures as_many { M.block_count medium.new ≡ M.block_count medium.old }
{
    match medium.read(block, into) {
        ReadEnd::Done => Ok(true),
        ReadEnd::Unreadable => Ok(false),
        ReadEnd::Cut => Err(Stop::Cut),
        ReadEnd::Off => Err(Stop::Off),
        ReadEnd::Failed => Err(Stop::Fault),
    }
}

/// Reads a block straight into the caller's bytes, as many as a block has. Whether it has whole bytes, or why the read was
/// stopped; what the caller's bytes are then is said only where it has.
///
/// # Clauses
///
/// - `rule`, `continues`, `event`: the same as `read`, `read_into` and `write_from`, with the three ways to stop as an error, for
///   `?`.
///
/// # Answers
///
/// As for `read_whole`.
pub fn read_whole_into<M: Medium>(medium: &mut M, block: u32, into: &mut [u8]) -> Result<bool, Stop>
    requires inside { block < M.block_count medium.old }
    requires whole { length into.old ≡ BLOCK_BYTES }
    ensures rule { MatchResult result
        (EndedRead (M.world medium.old) (M.world medium.new) block [] (bytes_read (read_end result) into.new))
        (StoppedRead (M.world medium.old) (M.world medium.new) block [] []) }
    ensures continues { MatchResult result
        (λ whole. Continues M.world M.reaches medium.old medium.new 1)
        (Stops M.world M.reaches medium.old medium.new 1) }
    ensures event { M.takes medium.old medium.new
        (Read block [] (bytes_read (read_end result) into.new) (read_end result)) }
    ensures as_many { M.block_count medium.new ≡ M.block_count medium.old }
{
    match medium.read_into(block, into) {
        ReadEnd::Done => Ok(true),
        ReadEnd::Unreadable => Ok(false),
        ReadEnd::Cut => Err(Stop::Cut),
        ReadEnd::Off => Err(Stop::Off),
        ReadEnd::Failed => Err(Stop::Fault),
    }
}

/// Writes a block straight from the caller's bytes, as many as a block has, or says why the write was stopped. A dead block
/// stays dead.
///
/// # Clauses
///
/// - `rule`, `continues`, `event`: the same as `read`, `read_into` and `write_from`, with the three ways to stop as an error, for
///   `?`.
///
/// # Answers
///
/// - `Ok`: the write went to its end. Then: as for `Done` of a write. (`WritesCell`)
/// - `Err`: the write was stopped: `Cut`, `Off` or `Fault`. Then: the power is off. (`StoppedWrite`)
/// - `Cut`: as for `Cut` of a write. (`IsCutInWrite`)
/// - `Off`: as for `Off` of a write. (`IsOff`)
/// - `Fault`: as for `Failed` of a write. (`FailsInWrite`)
pub fn write_whole<M: Medium>(medium: &mut M, block: u32, from: &[u8]) -> Result<(), Stop>
    requires inside { block < M.block_count medium.old }
    requires whole { length from.now ≡ BLOCK_BYTES }
    ensures rule { MatchResult result
        (λ done. WritesCell (M.world medium.old) (M.world medium.new) block from.now)
        (StoppedWrite (M.world medium.old) (M.world medium.new) block from.now) }
    ensures continues { MatchResult result
        (λ done. Continues M.world M.reaches medium.old medium.new 1)
        (Stops M.world M.reaches medium.old medium.new 1) }
    ensures event { M.takes medium.old medium.new (Write block from.now (write_end result)) }
    ensures as_many { M.block_count medium.new ≡ M.block_count medium.old }
{
    match medium.write_from(block, from) {
        WriteEnd::Done => Ok(()),
        WriteEnd::Cut => Err(Stop::Cut),
        WriteEnd::Off => Err(Stop::Off),
        WriteEnd::Failed => Err(Stop::Fault),
    }
}
