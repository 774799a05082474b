//! The header of a request in bytes, and what it asks of the disc.

ghost use Rattle.std.specs.Prelude.{◌≡◌, ◌<◌, ◌≤◌, ◌+◌, ◌*◌, ◌/◌, ◌^◌, drop, length, IfSome, IfNone};
ghost use Rattle.std.specs.Bool.{OnTrue};
ghost use Rattle.byteorder.specs.Endian.{big_number};
ghost use Rattle.model_nbd.specs.declared.Header.{Header as Fields};
ghost use Rattle.model_nbd.specs.Messages.{IsHeader, header_bytes};
ghost use Rattle.model_nbd.specs.Operations.{request_asks, read_asked, write_asked, flush_asked, zeroes_asked};
ghost use Rattle.model_nbd.specs.Operations.{has_fua, is_moved, has_whole_sectors, ends_on_disc};

use byteorder::{BigEndian, ByteOrder};
use model_nbd::{
    DISCONNECT, EINVAL, ENOSPC, FLUSH, Header, MOST_BYTES, NbdOperation, READ, WRITE, WRITE_ZEROES,
};
use ram_bytes::{get_u16, get_u32};

/// The bytes of a header.
pub const HEADER_BYTES: usize = 28;

/// The header that these bytes are.
///
/// # Clauses
///
/// - `some`, `none`: exact both ways.
///
/// # Answers
///
/// - `Some`, `None`: the header that has these bytes; `None` exactly when none has. (`header_bytes`)
pub fn parse_header(bytes: &[u8]) -> Option<Header>
    requires { length bytes.now ≡ 28 }
    ensures some { IfSome result (λ header. IsHeader header × (bytes.now ≡ header_bytes header)) }
    ensures none { IfNone result ((header : Fields) → IsHeader header → bytes.now ≡ header_bytes header → ⊥) }
{
    if get_u32(bytes, 0) != 0x2560_9513 {
        return None;
    }
    Some(Header {
        flags: get_u16(bytes, 4),
        kind: get_u16(bytes, 6),
        cookie: get_u64(bytes, 8),
        offset: get_u64(bytes, 16),
        len: get_u32(bytes, 24),
    })
}

/// The 64-bit number at `at`, highest byte first.
fn get_u64(bytes: &[u8], at: usize) -> u64
    requires { at + 8 ≤ length bytes.now }
    ensures { result ≡ big_number 8 (drop at bytes.now) }
{
    BigEndian::read_u64(&bytes[at..])
}

/// What a request asks of a disc of `size` bytes.
///
/// # Clauses
///
/// - its one clause: what the definition says, for every header.
///
/// # Answers
///
/// - `Refused`: EINVAL for a command that is not in the table, a flag that the command does not take, part of a sector, too many
///   bytes, a flush of a range, or a read past the end; ENOSPC for a write or zeros past the end. (`request_asks`)
/// - `Read`, `Write`, `WriteZeroes`: the sectors that the bytes are. (`read_asked`, `write_asked`, `zeroes_asked`)
/// - `Flush`, `Disconnect`: the command of that name. (`flush_asked`, `request_asks`)
pub fn request_asks(size: u64, header: Header) -> NbdOperation
    requires { size < 2048 * 2 ^ 32 }
    ensures { result ≡ request_asks size header }
{
    if header.kind == READ {
        return read_asked(size, header);
    }
    if header.kind == WRITE {
        return write_asked(size, header);
    }
    if header.kind == DISCONNECT {
        return NbdOperation::Disconnect;
    }
    if header.kind == FLUSH {
        return flush_asked(header);
    }
    if header.kind == WRITE_ZEROES {
        return zeroes_asked(size, header);
    }
    NbdOperation::Refused { error: EINVAL }
}

/// What a read asks.
fn read_asked(size: u64, header: Header) -> NbdOperation
    requires { size < 2048 * 2 ^ 32 }
    ensures { result ≡ read_asked size header }
{
    if !is_moved(header) || !ends_on_disc(size, header) {
        return NbdOperation::Refused { error: EINVAL };
    }
    NbdOperation::Read {
        lba: sector(size, header),
        n: header.len / 2048,
    }
}

/// What a write asks.
fn write_asked(size: u64, header: Header) -> NbdOperation
    requires { size < 2048 * 2 ^ 32 }
    ensures { result ≡ write_asked size header }
{
    if !is_moved(header) {
        return NbdOperation::Refused { error: EINVAL };
    }
    if !ends_on_disc(size, header) {
        return NbdOperation::Refused { error: ENOSPC };
    }
    NbdOperation::Write {
        lba: sector(size, header),
        n: header.len / 2048,
        fua: has_fua(header),
    }
}

/// What a flush asks.
fn flush_asked(header: Header) -> NbdOperation
    ensures { result ≡ flush_asked header }
{
    if header.flags < 2 && header.offset == 0 && header.len == 0 {
        return NbdOperation::Flush;
    }
    NbdOperation::Refused { error: EINVAL }
}

/// What a write of zeros asks.
fn zeroes_asked(size: u64, header: Header) -> NbdOperation
    requires { size < 2048 * 2 ^ 32 }
    ensures { result ≡ zeroes_asked size header }
{
    if header.flags >= 4 || !has_whole_sectors(header) {
        return NbdOperation::Refused { error: EINVAL };
    }
    if !ends_on_disc(size, header) {
        return NbdOperation::Refused { error: ENOSPC };
    }
    NbdOperation::WriteZeroes {
        lba: sector(size, header),
        n: header.len / 2048,
        fua: has_fua(header),
    }
}

/// Whether the bytes are on the disc before the reply.
fn has_fua(header: Header) -> bool
    ensures { result ≡ has_fua header }
{
    header.flags % 2 == 1
}

/// Whether a read or a write has flags that it takes, is of whole sectors, and moves no more than it may.
fn is_moved(header: Header) -> bool
    ensures { result ≡ is_moved header }
{
    header.flags < 2 && has_whole_sectors(header) && header.len <= MOST_BYTES
}

/// Whether the request begins and ends with a sector.
fn has_whole_sectors(header: Header) -> bool
    ensures { result ≡ has_whole_sectors header }
{
    header.offset % 2048 == 0 && header.len % 2048 == 0
}

/// Whether the request ends on a disc of `size` bytes.
fn ends_on_disc(size: u64, header: Header) -> bool
    requires { size < 2048 * 2 ^ 32 }
    ensures exact { result ≡ ends_on_disc size header }
    ensures inside { OnTrue result (header.offset + header.len ≤ size) }
{
    header.offset <= size && u64::from(header.len) <= size - header.offset
}

/// The first sector of a request that lies on a disc of `size` bytes.
fn sector(size: u64, header: Header) -> u32
    requires few { size < 2048 * 2 ^ 32 }
    requires inside { header.offset + header.len ≤ size }
    ensures { result ≡ header.offset / 2048 }
{
    (header.offset / 2048) as u32
}
