//! The commands of a request, one after another, up to the first that is not good.
ghost use Rattle.std.specs.Prelude.{◌≡◌, ◌+◌, ◌*◌, ◌<◌, ◌≤◌, ◌^◌, ◌⊎◌, [], ◌∷◌, length, map, vec_capacity};
ghost use Rattle.model_nbd.specs.Commands.{bare, parts, read_cdb, write_of, zero_of, zeroes_for, sync_cdb};
ghost use Rattle.ram_text.specs.declared.payload.TheConstants.{PAYLOAD_ROOM};
ghost use Rattle.ram_machine.specs.States.{Served, Disc};
ghost use Rattle.ram_machine.specs.Inserted.{Stands, faults_of};
ghost use Rattle.ram_transmission.specs.Chains.{ImageCount, CommandRule, ChainRule, AnyData, GoesBehind};

use ram_bytes::Cdb;
use ram_machine::{Drive, Inserted, Reply, Stopped};
use ram_nbd::commands::{read_cdb, sync_cdb, write_cdb};
use ram_sense::Answer;
use ram_text::Line;

/// How many sectors a command moves at most.
const PART_SECTORS: u32 = 1_024;

/// Does one command, with its data in `payload`. The data that it gives are then in `data_in`.
fn do_command<D: Drive>(
    inserted: &mut Inserted<D>,
    cdb: Cdb,
    payload: &[u8],
    data_in: &mut Vec<u8>,
) -> Result<Answer, Stopped>
    requires room { PAYLOAD_ROOM ≤ vec_capacity data_in.old }
    ensures rule { (s : Served) → Stands D.Caching D.lies_in D.Image.Image inserted.old (Disc s)
        → CommandRule (λ answer bytes. bytes ≡ data_in.new.items)
        (Stands D.Caching D.lies_in D.Image.Image inserted.new) s
        (record { cdb = cdb; payload = payload.now }) result }
    ensures count { ImageCount (faults_of D.Caching D.Image.Image inserted.old)
        (faults_of D.Caching D.Image.Image inserted.new) result }
    ensures room { vec_capacity data_in.old ≤ vec_capacity data_in.new }
{
    match inserted.answer(Line::Command { cdb }, payload, data_in) {
        Ok(Reply::Command { answer, .. }) => Ok(answer),
        // No command is answered so.
        Ok(Reply::Nothing | Reply::Event(_)) => Ok(Answer::Off),
        Err(stopped) => Err(stopped),
    }
}

/// Appends the data of a part of this many sectors to the reply, if it was good.
fn put_data(answer: Answer, n: u32, data_in: &[u8], reply: &mut Vec<u8>)
    requires few { n ≤ 1024 }
    requires room { length reply.old.items + 2048 * n ≤ vec_capacity reply.old }
    ensures given { length data_in.now ≡ 2048 * n
        → GoesBehind reply.old.items reply.new.items answer data_in.now }
    ensures len { length reply.new.items ≤ length reply.old.items + 2048 * n }
    ensures room { vec_capacity reply.old ≤ vec_capacity reply.new }
{
    match answer {
        Answer::Good => {}
        _ => return,
    }
    let count = data_in.len().min(2_048 * n as usize);
    match reply.extend_from_slice(&data_in[..count]) {
        Ok(()) => {}
        Err(_) => unreachable!(),
    }
}

/// Reads `n` sectors from `lba` on, and appends their data to the reply.
fn read_part<D: Drive>(
    inserted: &mut Inserted<D>,
    lba: u32,
    n: u32,
    data_in: &mut Vec<u8>,
    reply: &mut Vec<u8>,
) -> Result<Answer, Stopped>
    requires few { n ≤ 1024 }
    requires room { PAYLOAD_ROOM ≤ vec_capacity data_in.old }
    requires free { length reply.old.items + 2048 * n ≤ vec_capacity reply.old }
    ensures rule { (s : Served) → Stands D.Caching D.lies_in D.Image.Image inserted.old (Disc s)
        → CommandRule (GoesBehind reply.old.items reply.new.items)
        (Stands D.Caching D.lies_in D.Image.Image inserted.new) s
        (bare (read_cdb (record { lba = lba; n = n }))) result }
    ensures count { ImageCount (faults_of D.Caching D.Image.Image inserted.old)
        (faults_of D.Caching D.Image.Image inserted.new) result }
    ensures room { vec_capacity data_in.old ≤ vec_capacity data_in.new }
    ensures len { length reply.new.items ≤ length reply.old.items + 2048 * n }
    ensures free { vec_capacity reply.old ≤ vec_capacity reply.new }
{
    match do_command(inserted, read_cdb(lba, n), &[], data_in) {
        Ok(answer) => {
            put_data(answer, n, data_in, reply);
            Ok(answer)
        }
        Err(stopped) => Err(stopped),
    }
}

/// Reads sectors in parts of 1,024, and appends their data to the reply.
pub fn read_parts<D: Drive>(
    inserted: &mut Inserted<D>,
    lba: u32,
    n: u32,
    data_in: &mut Vec<u8>,
    reply: &mut Vec<u8>,
) -> Result<Answer, Stopped>
    requires inside { lba + n < 2 ^ 32 }
    requires room { PAYLOAD_ROOM ≤ vec_capacity data_in.old }
    requires free { length reply.old.items + 2048 * n ≤ vec_capacity reply.old }
    ensures rule { (s : Served) → Stands D.Caching D.lies_in D.Image.Image inserted.old (Disc s)
        → ChainRule (GoesBehind reply.old.items reply.new.items)
        (Stands D.Caching D.lies_in D.Image.Image inserted.new) s
        (map (λ part. bare (read_cdb part)) (parts lba n)) result }
    ensures count { ImageCount (faults_of D.Caching D.Image.Image inserted.old)
        (faults_of D.Caching D.Image.Image inserted.new) result }
    ensures room { vec_capacity data_in.old ≤ vec_capacity data_in.new }
    ensures free { vec_capacity reply.old ≤ vec_capacity reply.new }
{
    let mut at = lba;
    let mut left = n;
    while left > PART_SECTORS {
        match read_part(inserted, at, PART_SECTORS, data_in, reply)? {
            Answer::Good => {}
            answer => return Ok(answer),
        }
        at += PART_SECTORS;
        left -= PART_SECTORS;
    }
    read_part(inserted, at, left, data_in, reply)
}

/// Writes `n` sectors from `at` on, of a request whose data begin with those of the sector `lba`.
fn write_part<D: Drive>(
    inserted: &mut Inserted<D>,
    lba: u32,
    at: u32,
    n: u32,
    fua: bool,
    payload: &[u8],
    data_in: &mut Vec<u8>,
) -> Result<Answer, Stopped>
    requires from { lba ≤ at }
    requires inside { at + n < 2 ^ 32 }
    requires long { 2048 * (at + n) ≤ length payload.now + 2048 * lba }
    requires room { PAYLOAD_ROOM ≤ vec_capacity data_in.old }
    ensures rule { (s : Served) → Stands D.Caching D.lies_in D.Image.Image inserted.old (Disc s)
        → CommandRule AnyData (Stands D.Caching D.lies_in D.Image.Image inserted.new) s
        (write_of fua lba payload.now (record { lba = at; n = n })) result }
    ensures count { ImageCount (faults_of D.Caching D.Image.Image inserted.old)
        (faults_of D.Caching D.Image.Image inserted.new) result }
    ensures room { vec_capacity data_in.old ≤ vec_capacity data_in.new }
{
    let from = 2_048 * (at - lba) as usize;
    let part = &payload[from..from + 2_048 * n as usize];
    do_command(inserted, write_cdb(fua, at, n), part, data_in)
}

/// Writes the request's data to sectors in parts of 1,024.
pub fn write_parts<D: Drive>(
    inserted: &mut Inserted<D>,
    lba: u32,
    n: u32,
    fua: bool,
    payload: &[u8],
    data_in: &mut Vec<u8>,
) -> Result<Answer, Stopped>
    requires inside { lba + n < 2 ^ 32 }
    requires long { 2048 * n ≤ length payload.now }
    requires room { PAYLOAD_ROOM ≤ vec_capacity data_in.old }
    ensures rule { (s : Served) → Stands D.Caching D.lies_in D.Image.Image inserted.old (Disc s)
        → ChainRule AnyData (Stands D.Caching D.lies_in D.Image.Image inserted.new) s
        (map (write_of fua lba payload.now) (parts lba n)) result }
    ensures count { ImageCount (faults_of D.Caching D.Image.Image inserted.old)
        (faults_of D.Caching D.Image.Image inserted.new) result }
    ensures room { vec_capacity data_in.old ≤ vec_capacity data_in.new }
{
    let mut at = lba;
    let mut left = n;
    while left > PART_SECTORS {
        match write_part(inserted, lba, at, PART_SECTORS, fua, payload, data_in)? {
            Answer::Good => {}
            answer => return Ok(answer),
        }
        at += PART_SECTORS;
        left -= PART_SECTORS;
    }
    write_part(inserted, lba, at, left, fua, payload, data_in)
}

/// Writes zeros to `n` sectors from `at` on. The zeros are those of the longest part.
fn zero_part<D: Drive>(
    inserted: &mut Inserted<D>,
    at: u32,
    n: u32,
    fua: bool,
    zeros: &[u8],
    data_in: &mut Vec<u8>,
) -> Result<Answer, Stopped>
    requires zeros { zeros.now ≡ zeroes_for (length zeros.now) }
    requires long { 2048 * n ≤ length zeros.now }
    requires room { PAYLOAD_ROOM ≤ vec_capacity data_in.old }
    ensures rule { (s : Served) → Stands D.Caching D.lies_in D.Image.Image inserted.old (Disc s)
        → CommandRule AnyData (Stands D.Caching D.lies_in D.Image.Image inserted.new) s
        (zero_of fua (record { lba = at; n = n })) result }
    ensures count { ImageCount (faults_of D.Caching D.Image.Image inserted.old)
        (faults_of D.Caching D.Image.Image inserted.new) result }
    ensures room { vec_capacity data_in.old ≤ vec_capacity data_in.new }
{
    let part = &zeros[..2_048 * n as usize];
    do_command(inserted, write_cdb(fua, at, n), part, data_in)
}

/// Writes zeros to sectors in parts of 1,024. The zeros are those of the longest part.
pub fn zero_parts<D: Drive>(
    inserted: &mut Inserted<D>,
    lba: u32,
    n: u32,
    fua: bool,
    zeros: &[u8],
    data_in: &mut Vec<u8>,
) -> Result<Answer, Stopped>
    requires inside { lba + n < 2 ^ 32 }
    requires zeros { zeros.now ≡ zeroes_for (length zeros.now) }
    requires long { (2048 * n ≤ length zeros.now) ⊎ (2048 * 1024 ≤ length zeros.now) }
    requires room { PAYLOAD_ROOM ≤ vec_capacity data_in.old }
    ensures rule { (s : Served) → Stands D.Caching D.lies_in D.Image.Image inserted.old (Disc s)
        → ChainRule AnyData (Stands D.Caching D.lies_in D.Image.Image inserted.new) s
        (map (zero_of fua) (parts lba n)) result }
    ensures count { ImageCount (faults_of D.Caching D.Image.Image inserted.old)
        (faults_of D.Caching D.Image.Image inserted.new) result }
    ensures room { vec_capacity data_in.old ≤ vec_capacity data_in.new }
{
    let mut at = lba;
    let mut left = n;
    while left > PART_SECTORS {
        match zero_part(inserted, at, PART_SECTORS, fua, zeros, data_in)? {
            Answer::Good => {}
            answer => return Ok(answer),
        }
        at += PART_SECTORS;
        left -= PART_SECTORS;
    }
    zero_part(inserted, at, left, fua, zeros, data_in)
}

/// Puts all that was acknowledged on the disc.
pub fn synchronize<D: Drive>(
    inserted: &mut Inserted<D>,
    data_in: &mut Vec<u8>,
) -> Result<Answer, Stopped>
    requires room { PAYLOAD_ROOM ≤ vec_capacity data_in.old }
    ensures rule { (s : Served) → Stands D.Caching D.lies_in D.Image.Image inserted.old (Disc s)
        → ChainRule AnyData (Stands D.Caching D.lies_in D.Image.Image inserted.new) s
        (bare sync_cdb ∷ []) result }
    ensures count { ImageCount (faults_of D.Caching D.Image.Image inserted.old)
        (faults_of D.Caching D.Image.Image inserted.new) result }
    ensures room { vec_capacity data_in.old ≤ vec_capacity data_in.new }
{
    do_command(inserted, sync_cdb(), &[], data_in)
}
