//! The command blocks that do a request.

ghost use Rattle.std.specs.Prelude.{◌≡◌, ◌<◌, ◌≤◌, length};
ghost use Rattle.model_nbd.specs.Commands.{read_cdb, write_cdb, sync_cdb};

use ram_bytes::Cdb;

/// READ(12) of `n` sectors from `lba` on.
pub fn read_cdb(lba: u32, n: u32) -> Cdb
    ensures { result ≡ read_cdb (record { lba = lba; n = n }) }
{
    let [a, b, c, d] = lba.to_be_bytes();
    let [e, f, g, h] = n.to_be_bytes();
    whole(&[0xa8, 0, a, b, c, d, e, f, g, h, 0, 0])
}

/// WRITE(12) of `n` sectors from `lba` on; with `fua` they are on the disc before the answer.
pub fn write_cdb(fua: bool, lba: u32, n: u32) -> Cdb
    ensures { result ≡ write_cdb fua (record { lba = lba; n = n }) }
{
    let [a, b, c, d] = lba.to_be_bytes();
    let [e, f, g, h] = n.to_be_bytes();
    let how = if fua { 8 } else { 0 };
    whole(&[0xaa, how, a, b, c, d, e, f, g, h, 0, 0])
}

/// SYNCHRONIZE CACHE(10).
pub fn sync_cdb() -> Cdb
    ensures { result ≡ sync_cdb }
{
    whole(&[0x35, 0, 0, 0, 0, 0, 0, 0, 0, 0])
}

/// The command block of these bytes.
fn whole(bytes: &[u8]) -> Cdb
    requires some { 0 < length bytes.now }
    requires short { length bytes.now ≤ 16 }
    ensures { result ≡ bytes.now }
{
    match Cdb::from_bytes(bytes) {
        Some(cdb) => cdb,
        None => unreachable!(),
    }
}
