//! One logical block, read into the drive's block from its home.

ghost use Rattle.std.specs.Prelude.{◌≡◌, ◌<◌, ◌≤◌, MatchResult, None, length};
ghost use Rattle.model_buffer.specs.Buffer.{bytes_at};
ghost use Rattle.model_buffer.specs.declared.TheConstants.{BUFFERED_BLOCKS};
ghost use Rattle.ram_transfer.specs.Blocks.{Fetches, FetchStopped};

use ram_buffer::BlockBuffer;
use ram_bytes::Block;
use ram_medium::{Medium, Stop, read_whole};

/// Reads a logical block that is not buffered from its home, and buffers it. Whether it can be read.
pub fn read_home<M: Medium>(
    medium: &mut M,
    buffer: &mut BlockBuffer,
    block: &mut Block,
    i: u32,
    home: u32,
) -> Result<bool, Stop>
    requires inside { home < M.block_count medium.old }
    requires few { length buffer.old ≤ BUFFERED_BLOCKS }
    requires not_buffered { bytes_at i buffer.old ≡ None }
    ensures rule { MatchResult result
        (λ found. Fetches M.world M.reaches medium.old medium.new buffer.old i home block.new buffer.new found)
        (λ stop. FetchStopped M.world M.reaches medium.old medium.new buffer.old i home stop) }
    ensures as_many { M.block_count medium.new ≡ M.block_count medium.old }
{
    if !read_whole(medium, home, block)? {
        return Ok(false);
    }
    buffer.put(i, block);
    Ok(buffer.lookup(i, block))
}
