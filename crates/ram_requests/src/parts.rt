//! The part that a request covers of one logical block, and how its bytes go between that block and the request's.
ghost use Rattle.std.specs.Prelude.{◌≡◌, ◌+◌, ◌-◌, ◌*◌, ◌<◌, ◌≤◌, length};
ghost use Rattle.model_bytes.specs.Bytes.{put_at};
ghost use Rattle.model_sectors.specs.Requests.{start_in, end_in, is_partly, merged_in, filled_by};
ghost use Rattle.ram_bytes.specs.declared.block.TheConstants.{BLOCK_BYTES};

use crate::requests::Request;
use ram_bytes::{BLOCK_BYTES, Block, SECTOR_BYTES, SECTORS_PER_BLOCK};

/// The part of a logical block that a request covers: some of its sectors.
#[derive(Clone, Copy, Debug)]
pub struct Part {
    /// The request.
    pub request: Request,
    /// The logical block.
    pub block: u32,
    /// The first sector of the request in it.
    pub start: u32,
    /// The end of the request in it.
    pub end: u32,
    ghost start_is: { start ≡ start_in request.lba block },
    ghost end_is: { end ≡ end_in request.lba request.n block },
    ghost some: { start < end },
}

/// Puts bytes among others, from byte `at` on.
fn put_bytes(into: &mut [u8], at: usize, from: &[u8])
    requires { at + length from.now ≤ length into.old }
    ensures { into.new ≡ put_at at from.now into.old }
{
    into[at..at + from.len()].copy_from_slice(from);
}

impl Part {
    /// The byte of its block at which it begins.
    fn offset(self) -> usize
        ensures { result ≡ 2048 * (self.start - 16 * self.block) }
    {
        SECTOR_BYTES * (self.start - SECTORS_PER_BLOCK as u32 * self.block) as usize
    }

    /// The byte of the request at which it begins.
    pub fn skipped(self) -> usize
        ensures { result ≡ 2048 * (self.start - self.request.lba) }
    {
        SECTOR_BYTES * (self.start - self.request.lba) as usize
    }

    /// How many bytes it has.
    fn len(self) -> usize
        ensures { result ≡ 2048 * (self.end - self.start) }
    {
        SECTOR_BYTES * (self.end - self.start) as usize
    }

    /// Whether it is less than the whole block.
    ///
    /// # Answers
    ///
    /// - `true`, `false`: `true` exactly when the request covers less than the whole block. (`is_partly`)
    pub fn is_partly(self) -> bool
        ensures { result ≡ is_partly self.request.lba self.request.n self.block }
    {
        self.end - self.start < SECTORS_PER_BLOCK as u32
    }

    /// Copies its sectors out of their block to their places among the bytes of the request.
    pub fn copy_out(self, block: &Block, into: &mut [u8])
        requires { length into.old ≡ 2048 * self.request.n }
        ensures { into.new ≡ filled_by self.request.lba self.request.n self.block block.now into.old }
    {
        let offset = self.offset();
        let len = self.len();
        put_bytes(into, self.skipped(), &block.bytes()[offset..offset + len]);
    }

    /// Merges its sectors, of the bytes of the request, into their block.
    pub fn merge(self, from: &[u8], block: &mut Block)
        requires { length from.now ≡ 2048 * self.request.n }
        ensures merged { block.new ≡ merged_in self.request.lba self.request.n from.now self.block block.old }
        ensures len { length block.old ≡ BLOCK_BYTES }
    {
        let offset = self.offset();
        let skipped = self.skipped();
        let len = self.len();
        let bytes = block.bytes_mut();
        put_bytes(bytes, offset, &from[skipped..skipped + len]);
    }

    /// The bytes of its block with its sectors in their places: straight out of the bytes of the request where it is the whole
    /// block, else those of `block`, into which it is merged. What `block` has then is not said.
    pub fn merged<'a>(self, from: &'a [u8], block: &'a mut Block) -> &'a [u8]
        requires { length from.now ≡ 2048 * self.request.n }
        ensures merged { result.now
            ≡ merged_in self.request.lba self.request.n from.now self.block block.old }
        ensures whole { length result.now ≡ BLOCK_BYTES }
        ensures len { length block.old ≡ BLOCK_BYTES }
    {
        if self.len() < block.bytes().len() {
            self.merge(from, block);
            return block.bytes();
        }
        let skipped = self.skipped();
        &from[skipped..skipped + BLOCK_BYTES]
    }
}
