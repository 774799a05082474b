//! Commands that the disc does, and how each of its answers is told.

ghost use Rattle.std.specs.Prelude.{◌≡◌, ◌*◌, ◌≤◌, [], length, vec_capacity};
ghost use Rattle.model_commands.specs.declared.TheConstants.{TRANSFER_LIMIT};
ghost use Rattle.ram_sectors.specs.declared.TheConstants.{VERIFY_LIMIT};
ghost use Rattle.model_modes.specs.ParameterLists.{IsTakenList, caches_after};
ghost use Rattle.model_target.specs.Steps.{read_answer, write_answer, format_answer, expand_answer, sync_answer, settle_answer, IsRead, IsWritten, IsFormatted, IsExpanded, IsVerified, IsSynchronised, IsSettled, IsSelected, TurnsOff};

use ram_bytes::SECTOR_BYTES;
use ram_modes::Modes;
use ram_sectors::{Caching, ExpandOut, FormatOut, Kind, ReadOut, SyncOut, WriteOut};
use ram_sense::Answer;
use ram_sense::codes::{
    ADDRESS_OUT_OF_RANGE, DEFECT_LIST_UPDATE_FAILURE, FORMAT_COMMAND_FAILED,
    INVALID_FIELD_IN_PARAMETERS, MEDIUM_FORMAT_CORRUPTED, no_spare_location,
    unrecovered_read_error,
};

/// Reads sectors into `data_in`, which is empty where they are not all read. The room of one read is the next one's: what it
/// held is written over, and zeros are put in only where it grows.
pub fn read<D: Caching>(disc: &mut D, lba: u32, n: u32, data_in: &mut Vec<u8>) -> Answer
    requires few { n ≤ TRANSFER_LIMIT }
    requires room { 2048 * TRANSFER_LIMIT ≤ vec_capacity data_in.old }
    ensures rule { IsRead (D.shows disc.old) (D.shows disc.new) (D.stands disc.old) (D.stands disc.new)
        lba n result data_in.new.items }
    ensures same_shape { (D.shows disc.new).drive.shape ≡ (D.shows disc.old).drive.shape }
    ensures underwent { D.underwent disc.old disc.new }
    ensures room { vec_capacity data_in.old ≤ vec_capacity data_in.new }
{
    match data_in.resize(n as usize * SECTOR_BYTES, 0) {
        Ok(()) => {}
        Err(_) => unreachable!(),
    }
    let out = disc.read(lba, n, data_in);
    if !matches!(out, ReadOut::Good) {
        data_in.clear();
    }
    read_answer(out)
}

/// Writes sectors: with FUA through the write cache, and else as the cache does it.
pub fn write<D: Caching>(disc: &mut D, lba: u32, n: u32, fua: bool, payload: &[u8]) -> Answer
    requires few { n ≤ TRANSFER_LIMIT }
    requires whole { length payload.now ≡ 2048 * n }
    ensures rule { IsWritten (D.shows disc.old) (D.shows disc.new) (D.stands disc.old) (D.stands disc.new)
        lba n fua payload.now result [] }
    ensures same_shape { (D.shows disc.new).drive.shape ≡ (D.shows disc.old).drive.shape }
    ensures underwent { D.underwent disc.old disc.new }
{
    let out = if fua {
        disc.write_through(lba, n, payload)
    } else {
        disc.write(lba, n, payload)
    };
    write_answer(out)
}

/// Formats the disc.
pub fn format<D: Caching>(disc: &mut D, kind: Kind) -> Answer
    ensures rule { IsFormatted (D.shows disc.old) (D.shows disc.new) (D.stands disc.old) (D.stands disc.new)
        kind result [] }
    ensures same_shape { (D.shows disc.new).drive.shape ≡ (D.shows disc.old).drive.shape }
    ensures underwent { D.underwent disc.old disc.new }
{
    format_answer(disc.format(kind))
}

/// Gives the disc a smaller capacity, in sectors: its last blocks become supplementary spares.
pub fn expand<D: Caching>(disc: &mut D, capacity: u32) -> Answer
    ensures rule { IsExpanded (D.shows disc.old) (D.shows disc.new) (D.stands disc.old) (D.stands disc.new)
        capacity result [] }
    ensures same_shape { (D.shows disc.new).drive.shape ≡ (D.shows disc.old).drive.shape }
    ensures underwent { D.underwent disc.old disc.new }
{
    expand_answer(disc.expand(capacity))
}

/// Verifies sectors: each block in which some of them lie is read from its home. No data come with it.
pub fn verify<D: Caching>(disc: &mut D, lba: u32, n: u32) -> Answer
    requires few { n ≤ VERIFY_LIMIT }
    ensures rule { IsVerified (D.shows disc.old) (D.shows disc.new) (D.stands disc.old) (D.stands disc.new)
        lba n result [] }
    ensures same_shape { (D.shows disc.new).drive.shape ≡ (D.shows disc.old).drive.shape }
    ensures underwent { D.underwent disc.old disc.new }
{
    read_answer(disc.verify(lba, n))
}

/// Writes all blocks that are pending in the write cache to the disc.
pub fn synchronize<D: Caching>(disc: &mut D) -> Answer
    ensures rule { IsSynchronised (D.shows disc.old) (D.shows disc.new) (D.stands disc.old) (D.stands disc.new)
        result [] }
    ensures same_shape { (D.shows disc.new).drive.shape ≡ (D.shows disc.old).drive.shape }
    ensures underwent { D.underwent disc.old disc.new }
{
    sync_answer(disc.synchronize())
}

/// The same before the disc is taken out, or the write cache turned off. Of a disc that is not formatted there is nothing to write.
pub fn settle<D: Caching>(disc: &mut D) -> Answer
    ensures rule { IsSettled (D.shows disc.old) (D.shows disc.new) (D.stands disc.old) (D.stands disc.new)
        result [] }
    ensures same_shape { (D.shows disc.new).drive.shape ≡ (D.shows disc.old).drive.shape }
    ensures underwent { D.underwent disc.old disc.new }
{
    settle_answer(disc.synchronize())
}

/// Turns the write cache off, once nothing is pending.
fn turn_off<D: Caching>(disc: &mut D) -> Answer
    ensures rule { TurnsOff (D.shows disc.old) (D.shows disc.new) (D.stands disc.old) (D.stands disc.new)
        result [] }
    ensures same_shape { (D.shows disc.new).drive.shape ≡ (D.shows disc.old).drive.shape }
    ensures underwent { D.underwent disc.old disc.new }
{
    match settle_answer(disc.synchronize()) {
        Answer::Good => {
            disc.write_cache(false);
            Answer::Good
        }
        refused => refused,
    }
}

/// Turns the write cache on or off, as a list of mode pages says that is taken. Before it is turned off the disc is synchronised, and
/// where that is refused the cache stays on.
pub fn select<D: Caching>(disc: &mut D, payload: &[u8]) -> Answer
    requires taken { IsTakenList payload.now }
    ensures rule { IsSelected (D.shows disc.old) (D.shows disc.new) (D.stands disc.old) (D.stands disc.new)
        payload.now result [] }
    ensures same_shape { (D.shows disc.new).drive.shape ≡ (D.shows disc.old).drive.shape }
    ensures underwent { D.underwent disc.old disc.new }
{
    let on = disc.caches();
    let later = caches_after(on, payload);
    if on && !later {
        return turn_off(disc);
    }
    disc.write_cache(later);
    Answer::Good
}

/// Whether the write cache is on after a list of mode pages that is taken.
fn caches_after(on: bool, payload: &[u8]) -> bool
    requires taken { IsTakenList payload.now }
    ensures { result ≡ caches_after payload.now on }
{
    let mut modes = Modes::new(on, false);
    match modes.select(payload) {
        Ok(()) => modes.caches,
        Err(_) => unreachable!(),
    }
}

/// How the end of a read is answered, or of a verification.
fn read_answer(out: ReadOut) -> Answer
    ensures { result ≡ read_answer out }
{
    match out {
        ReadOut::Good => Answer::Good,
        ReadOut::NotFormatted => Answer::Check(MEDIUM_FORMAT_CORRUPTED),
        ReadOut::Range { .. } => Answer::Check(ADDRESS_OUT_OF_RANGE),
        ReadOut::Unread { lba, .. } => Answer::Check(unrecovered_read_error(lba)),
        ReadOut::Cut => Answer::Cut,
        ReadOut::Off => Answer::Off,
        ReadOut::Fault => Answer::Fault,
    }
}

/// How the end of a write is answered.
fn write_answer(out: WriteOut) -> Answer
    ensures { result ≡ write_answer out }
{
    match out {
        WriteOut::Good => Answer::Good,
        WriteOut::NotFormatted => Answer::Check(MEDIUM_FORMAT_CORRUPTED),
        WriteOut::Range { .. } => Answer::Check(ADDRESS_OUT_OF_RANGE),
        WriteOut::Unread { lba, .. } => Answer::Check(unrecovered_read_error(lba)),
        WriteOut::NoSpare { lba } => Answer::Check(no_spare_location(lba)),
        WriteOut::NoUpdate { .. } => Answer::Check(DEFECT_LIST_UPDATE_FAILURE),
        WriteOut::Cut => Answer::Cut,
        WriteOut::Off => Answer::Off,
        WriteOut::Fault => Answer::Fault,
    }
}

/// How the end of a synchronisation is answered.
fn sync_answer(out: SyncOut) -> Answer
    ensures { result ≡ sync_answer out }
{
    match out {
        SyncOut::Good => Answer::Good,
        SyncOut::NotFormatted => Answer::Check(MEDIUM_FORMAT_CORRUPTED),
        SyncOut::NoSpare { lba } => Answer::Check(no_spare_location(lba)),
        SyncOut::NoUpdate { .. } => Answer::Check(DEFECT_LIST_UPDATE_FAILURE),
        SyncOut::Cut => Answer::Cut,
        SyncOut::Off => Answer::Off,
        SyncOut::Fault => Answer::Fault,
    }
}

/// How the end of a synchronisation before an ejection is answered.
fn settle_answer(out: SyncOut) -> Answer
    ensures { result ≡ settle_answer out }
{
    match out {
        SyncOut::NotFormatted => Answer::Good,
        out => sync_answer(out),
    }
}

/// How the end of a format is answered.
fn format_answer(out: FormatOut) -> Answer
    ensures { result ≡ format_answer out }
{
    match out {
        FormatOut::Good => Answer::Good,
        FormatOut::TooMany { .. } | FormatOut::NoUpdate { .. } => {
            Answer::Check(FORMAT_COMMAND_FAILED)
        }
        FormatOut::Cut => Answer::Cut,
        FormatOut::Off => Answer::Off,
        FormatOut::Fault => Answer::Fault,
    }
}

/// How the end of an expansion is answered.
fn expand_answer(out: ExpandOut) -> Answer
    ensures { result ≡ expand_answer out }
{
    match out {
        ExpandOut::Good => Answer::Good,
        ExpandOut::NotFormatted => Answer::Check(MEDIUM_FORMAT_CORRUPTED),
        ExpandOut::Refused { .. } => Answer::Check(INVALID_FIELD_IN_PARAMETERS),
        ExpandOut::NoUpdate { .. } => Answer::Check(DEFECT_LIST_UPDATE_FAILURE),
        ExpandOut::Cut => Answer::Cut,
        ExpandOut::Off => Answer::Off,
        ExpandOut::Fault => Answer::Fault,
    }
}
