//! One request: what it asks is done, and its reply is made.
ghost use Rattle.std.specs.Prelude.{◌≡◌, ℕ, ◌*◌, ◌≤◌, ◌⊎◌, [], length, vec_capacity};
ghost use Rattle.model_nbd.specs.declared.NbdOperation.TheVariants as operations;
ghost use Rattle.model_nbd.specs.Messages.{reply_bytes};
ghost use Rattle.model_nbd.specs.Commands.{zeroes_for};
ghost use Rattle.ram_text.specs.declared.payload.TheConstants.{PAYLOAD_ROOM};
ghost use Rattle.ram_machine.specs.States.{Served, Disc};
ghost use Rattle.ram_machine.specs.Inserted.{Stands, faults_of};
ghost use Rattle.ram_transmission.specs.declared.requests.TheConstants.{REQUEST_ROOM};
ghost use Rattle.ram_transmission.specs.Chains.{ImageCount};
ghost use Rattle.ram_transmission.specs.Requests.{Fits, RequestRule, LastingRule};

use crate::parts::{read_parts, synchronize, write_parts, zero_parts};
use model_nbd::{MOST_BYTES, NbdOperation};
use ram_machine::{Drive, Inserted, Stopped};
use ram_medium::SyncEnd;
use ram_nbd::replies::{REPLY_BYTES, error_of, reply_head};
use ram_sense::Answer;

/// How many bytes the room for the data of a request, or for a reply, has.
pub const REQUEST_ROOM: usize = REPLY_BYTES + MOST_BYTES as usize;

/// Does what a request asks, with its data in `message`. Its reply is then in their place. For a flush, a write with FUA and a client
/// that leaves, all that was written is made to last first.
///
/// # Clauses
///
/// - `rule` (`RequestRule`): from each disc in the drive, the commands of the request, up to the first that is not good, and the reply.
/// - `count` (`ImageCount`): the image's count rose exactly where the image failed.
/// - `room`, `data_room`: the rooms stay.
///
/// # Answers
///
/// - `Ok`: the commands were done, and the reply tells how. (`RequestDone`)
/// - `Err`: the image failed, and there is no reply. (`RequestFails`)
/// - `ImageFault`: the image failed in a command, and those before it were good; or all were, and it failed as all was to last.
///   (`ChainFails`, `LastingFails`)
/// - `NotADisc`, `NotInLanguage`, `LineTooLong`, `ScriptTooLong`, `SourceFault`, `SinkFault`: never. (`RequestRule`)
pub fn answer_request<D: Drive>(
    inserted: &mut Inserted<D>,
    operation: NbdOperation,
    cookie: u64,
    message: &mut Vec<u8>,
    data_in: &mut Vec<u8>,
) -> Result<(), Stopped>
    requires fits { Fits operation message.old.items }
    requires room { REQUEST_ROOM ≤ vec_capacity message.old }
    requires data_room { PAYLOAD_ROOM ≤ vec_capacity data_in.old }
    ensures rule { (s : Served) → Stands D.Caching D.lies_in D.Image.Image inserted.old (Disc s)
        → RequestRule (Stands D.Caching D.lies_in D.Image.Image inserted.new) s operation message.old.items
        cookie message.new.items result }
    ensures count { ImageCount (faults_of D.Caching D.Image.Image inserted.old)
        (faults_of D.Caching D.Image.Image inserted.new) result }
    ensures room { vec_capacity message.old ≤ vec_capacity message.new }
    ensures data_room { vec_capacity data_in.old ≤ vec_capacity data_in.new }
{
    match operation {
        NbdOperation::Refused { error } => {
            put_reply(message, error, cookie);
            Ok(())
        }
        NbdOperation::Read { lba, n } => answer_read(inserted, lba, n, cookie, message, data_in),
        NbdOperation::Write { lba, n, fua } => {
            answer_write(inserted, lba, n, fua, cookie, message, data_in)
        }
        NbdOperation::WriteZeroes { lba, n, fua } => {
            answer_zeroes(inserted, lba, n, fua, cookie, message, data_in)
        }
        NbdOperation::Flush => answer_flush(inserted, cookie, message, data_in),
        NbdOperation::Disconnect => disconnect(inserted, message, data_in),
    }
}

/// Does a read: its reply has the data that were read, unless one of the commands was not good.
fn answer_read<D: Drive>(
    inserted: &mut Inserted<D>,
    lba: u32,
    n: u32,
    cookie: u64,
    reply: &mut Vec<u8>,
    data_in: &mut Vec<u8>,
) -> Result<(), Stopped>
    requires fits { Fits (operations.Read lba n) reply.old.items }
    requires room { REQUEST_ROOM ≤ vec_capacity reply.old }
    requires data_room { PAYLOAD_ROOM ≤ vec_capacity data_in.old }
    ensures rule { (s : Served) → Stands D.Caching D.lies_in D.Image.Image inserted.old (Disc s)
        → RequestRule (Stands D.Caching D.lies_in D.Image.Image inserted.new) s (operations.Read lba n)
        reply.old.items cookie reply.new.items result }
    ensures count { ImageCount (faults_of D.Caching D.Image.Image inserted.old)
        (faults_of D.Caching D.Image.Image inserted.new) result }
    ensures room { vec_capacity reply.old ≤ vec_capacity reply.new }
    ensures data_room { vec_capacity data_in.old ≤ vec_capacity data_in.new }
{
    put_reply(reply, 0, cookie);
    match read_parts(inserted, lba, n, data_in, reply)? {
        Answer::Good => Ok(()),
        answer => {
            put_reply(reply, error_of(answer), cookie);
            Ok(())
        }
    }
}

/// Does a write of the data in `message`.
fn answer_write<D: Drive>(
    inserted: &mut Inserted<D>,
    lba: u32,
    n: u32,
    fua: bool,
    cookie: u64,
    message: &mut Vec<u8>,
    data_in: &mut Vec<u8>,
) -> Result<(), Stopped>
    requires fits { Fits (operations.Write lba n fua) message.old.items }
    requires room { REQUEST_ROOM ≤ vec_capacity message.old }
    requires data_room { PAYLOAD_ROOM ≤ vec_capacity data_in.old }
    ensures rule { (s : Served) → Stands D.Caching D.lies_in D.Image.Image inserted.old (Disc s)
        → RequestRule (Stands D.Caching D.lies_in D.Image.Image inserted.new) s (operations.Write lba n fua)
        message.old.items cookie message.new.items result }
    ensures count { ImageCount (faults_of D.Caching D.Image.Image inserted.old)
        (faults_of D.Caching D.Image.Image inserted.new) result }
    ensures room { vec_capacity message.old ≤ vec_capacity message.new }
    ensures data_room { vec_capacity data_in.old ≤ vec_capacity data_in.new }
{
    match write_parts(inserted, lba, n, fua, message.as_slice(), data_in) {
        Ok(answer) => match make_lasting(inserted, answer, fua) {
            Ok(()) => {
                put_reply(message, error_of(answer), cookie);
                Ok(())
            }
            Err(stopped) => Err(stopped),
        },
        Err(stopped) => Err(stopped),
    }
}

/// Does a write of zeros.
fn answer_zeroes<D: Drive>(
    inserted: &mut Inserted<D>,
    lba: u32,
    n: u32,
    fua: bool,
    cookie: u64,
    message: &mut Vec<u8>,
    data_in: &mut Vec<u8>,
) -> Result<(), Stopped>
    requires fits { Fits (operations.WriteZeroes lba n fua) message.old.items }
    requires room { REQUEST_ROOM ≤ vec_capacity message.old }
    requires data_room { PAYLOAD_ROOM ≤ vec_capacity data_in.old }
    ensures rule { (s : Served) → Stands D.Caching D.lies_in D.Image.Image inserted.old (Disc s)
        → RequestRule (Stands D.Caching D.lies_in D.Image.Image inserted.new) s
        (operations.WriteZeroes lba n fua) message.old.items cookie message.new.items result }
    ensures count { ImageCount (faults_of D.Caching D.Image.Image inserted.old)
        (faults_of D.Caching D.Image.Image inserted.new) result }
    ensures room { vec_capacity message.old ≤ vec_capacity message.new }
    ensures data_room { vec_capacity data_in.old ≤ vec_capacity data_in.new }
{
    put_zeros(message, n);
    match zero_parts(inserted, lba, n, fua, message.as_slice(), data_in) {
        Ok(answer) => match make_lasting(inserted, answer, fua) {
            Ok(()) => {
                put_reply(message, error_of(answer), cookie);
                Ok(())
            }
            Err(stopped) => Err(stopped),
        },
        Err(stopped) => Err(stopped),
    }
}

/// Does a flush.
fn answer_flush<D: Drive>(
    inserted: &mut Inserted<D>,
    cookie: u64,
    message: &mut Vec<u8>,
    data_in: &mut Vec<u8>,
) -> Result<(), Stopped>
    requires room { REQUEST_ROOM ≤ vec_capacity message.old }
    requires data_room { PAYLOAD_ROOM ≤ vec_capacity data_in.old }
    ensures rule { (s : Served) → Stands D.Caching D.lies_in D.Image.Image inserted.old (Disc s)
        → RequestRule (Stands D.Caching D.lies_in D.Image.Image inserted.new) s operations.Flush
        message.old.items cookie message.new.items result }
    ensures count { ImageCount (faults_of D.Caching D.Image.Image inserted.old)
        (faults_of D.Caching D.Image.Image inserted.new) result }
    ensures room { vec_capacity message.old ≤ vec_capacity message.new }
    ensures data_room { vec_capacity data_in.old ≤ vec_capacity data_in.new }
{
    match synchronize(inserted, data_in) {
        Ok(answer) => match make_lasting(inserted, answer, true) {
            Ok(()) => {
                put_reply(message, error_of(answer), cookie);
                Ok(())
            }
            Err(stopped) => Err(stopped),
        },
        Err(stopped) => Err(stopped),
    }
}

/// Does what is done when a client leaves. It gets no reply.
fn disconnect<D: Drive>(
    inserted: &mut Inserted<D>,
    message: &mut Vec<u8>,
    data_in: &mut Vec<u8>,
) -> Result<(), Stopped>
    requires data_room { PAYLOAD_ROOM ≤ vec_capacity data_in.old }
    ensures rule { (s : Served) (cookie : ℕ) → Stands D.Caching D.lies_in D.Image.Image inserted.old (Disc s)
        → RequestRule (Stands D.Caching D.lies_in D.Image.Image inserted.new) s operations.Disconnect
        message.old.items cookie message.new.items result }
    ensures count { ImageCount (faults_of D.Caching D.Image.Image inserted.old)
        (faults_of D.Caching D.Image.Image inserted.new) result }
    ensures room { vec_capacity message.old ≤ vec_capacity message.new }
    ensures data_room { vec_capacity data_in.old ≤ vec_capacity data_in.new }
{
    match synchronize(inserted, data_in) {
        Ok(answer) => match make_lasting(inserted, answer, true) {
            Ok(()) => {
                message.clear();
                Ok(())
            }
            Err(stopped) => Err(stopped),
        },
        Err(stopped) => Err(stopped),
    }
}

/// Waits until all that was written lasts, where the commands were good and it was asked.
fn make_lasting<D: Drive>(
    inserted: &mut Inserted<D>,
    answer: Answer,
    asked: bool,
) -> Result<(), Stopped>
    ensures rule { (s : Served) → Stands D.Caching D.lies_in D.Image.Image inserted.old (Disc s)
        → LastingRule (Stands D.Caching D.lies_in D.Image.Image inserted.new) s answer asked result }
    ensures count { ImageCount (faults_of D.Caching D.Image.Image inserted.old)
        (faults_of D.Caching D.Image.Image inserted.new) result }
{
    match (answer, asked) {
        (Answer::Good, true) => match inserted.sync() {
            SyncEnd::Done => Ok(()),
            SyncEnd::Failed => Err(Stopped::ImageFault),
        },
        (Answer::Good | Answer::Check(_) | Answer::Cut | Answer::Off | Answer::Fault, _) => Ok(()),
    }
}

/// The reply is this head, and nothing else.
fn put_reply(reply: &mut Vec<u8>, error: u32, cookie: u64)
    requires { REQUEST_ROOM ≤ vec_capacity reply.old }
    ensures items { reply.new.items ≡ reply_bytes error cookie [] }
    ensures len { length reply.new.items ≡ 16 }
    ensures room { vec_capacity reply.old ≤ vec_capacity reply.new }
{
    reply.clear();
    match reply.extend_from_slice(&reply_head(error, cookie)) {
        Ok(()) => {}
        Err(_) => unreachable!(),
    }
}

/// The zeros of the longest part of this many sectors.
fn put_zeros(message: &mut Vec<u8>, n: u32)
    requires { REQUEST_ROOM ≤ vec_capacity message.old }
    ensures zeros { message.new.items ≡ zeroes_for (length message.new.items) }
    ensures long { (2048 * n ≤ length message.new.items) ⊎ (2048 * 1024 ≤ length message.new.items) }
    ensures room { vec_capacity message.old ≤ vec_capacity message.new }
{
    message.clear();
    match message.resize(2_048 * n.min(1_024) as usize, 0) {
        Ok(()) => {}
        Err(_) => unreachable!(),
    }
}
