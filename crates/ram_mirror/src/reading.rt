//! Reads of a mirror: by the lead, block after block, and by the other side where the lead lacks the bytes.

ghost use Rattle.std.specs.Prelude.{◌≡◌, ◌<◌, ◌≤◌, ◌+◌, ◌*◌, not, true, ℕ, Bool, List, length};
ghost use Rattle.model_commands.specs.declared.TheConstants.{TRANSFER_LIMIT};
ghost use Rattle.model_sectors.specs.Discs.{Standing, On, Off, block_of};
ghost use Rattle.model_sectors.specs.Requests.{IsCovered, block_with, blocks_covered};
ghost use Rattle.model_sectors.specs.declared.ReadOut.TheVariants as outs;
ghost use Rattle.model_cache.specs.Chains.{ReadsDisc};
ghost use Rattle.model_drive.specs.Parts.{IsInRange};
ghost use Rattle.model_drive.specs.Reads.{ReadStep};
ghost use Rattle.model_drive.specs.Shown.{Shown};
ghost use Rattle.model_mirror.specs.Reads.{MirrorReadsPart, ReadsLed, after_lone_read};
ghost use Rattle.model_mirror.specs.Shown.{led_by};
ghost use Rattle.model_mirror.specs.Standing.{IsFollowed, StandsSomehow};
ghost use Rattle.ram_mirror.specs.Tables.{entries_of};
ghost use Rattle.ram_mirror.specs.Sides.{shown_as, shown_by, SidesUnderwent, ReadLed, ReadLedStep};
ghost use Rattle.ram_mirror.specs.Reading.{ReadsSide, KeepsOthers, SideGives, InPlace, BytesCame, PartGives, LedGives, AllGives, OffGives};

use crate::following::{Following, Led};
use crate::taking::take_lead;
use ram_bytes::SECTOR_BYTES;
use ram_requests::{Part, Request};
use ram_sectors::{Disc, ReadOut, Sectors};

/// Reads the part of a request in one block from one side.
fn read_side<D: Disc>(side: &mut D, part: Part, into: &mut [u8]) -> ReadOut
    requires covered { IsCovered part.request.lba part.request.n part.block }
    requires whole { length into.old ≡ 2048 * part.request.n }
    ensures reads { ReadsSide (D.shows side.old) (D.shows side.new) part.request.lba part.request.n part.block result }
    ensures gives { (disc : List ℕ) → D.stands side.old (On disc)
        → SideGives (D.stands side.new) disc part.request.lba part.request.n part.block into.old into.new result }
    ensures keeps { KeepsOthers part.request.lba part.request.n part.block into.old into.new }
    ensures same_shape { (D.shows side.new).shape ≡ (D.shows side.old).shape }
    ensures underwent { D.underwent side.old side.new }
{
    let at = part.skipped();
    let len = SECTOR_BYTES * (part.end - part.start) as usize;
    side.read(part.start, part.end - part.start, &mut into[at..at + len])
}

/// Reads a part from the other side, where that may stand in for the lead, which lacks the bytes.
fn read_instead<O: Disc>(
    other: &mut O,
    following: &mut Following,
    part: Part,
    named: u32,
    home: u32,
    into: &mut [u8],
) -> ReadOut
    requires covered { IsCovered part.request.lba part.request.n part.block }
    requires whole { length into.old ≡ 2048 * part.request.n }
    ensures cause { (side : Bool) (lead : Shown) → InPlace (shown_as side lead (O.shows other.old) following.old)
        (shown_as side lead (O.shows other.new) following.new) part.request.lba part.request.n part.block
        (outs.Unread named home) result }
    ensures gives { (side : Bool) (lead : Shown) (disc : List ℕ) → length (block_of disc part.block) ≡ 32768
        → IsFollowed (shown_as side lead (O.shows other.old) following.old) (O.stands other.old) disc
        → IsFollowed (shown_as side lead (O.shows other.new) following.new) (O.stands other.new) disc
        × BytesCame disc part.request.lba part.request.n part.block into.old into.new result }
    ensures whole { length into.new ≡ length into.old }
    ensures on { following.new.on ≡ following.old.on }
    ensures table { following.new.table ≡ following.old.table }
    ensures underwent { O.underwent other.old other.new }
{
    let refused = ReadOut::Unread {
        lba: named,
        block: home,
    };
    if !following.up {
        return refused;
    }
    if following.table.is_apart(part.block) {
        return refused;
    }
    let told = read_side(other, part, into);
    following.after_read(told);
    match told {
        ReadOut::Good => told,
        ReadOut::NotFormatted => refused,
        ReadOut::Range { .. } => refused,
        ReadOut::Unread { .. } => refused,
        ReadOut::Cut => refused,
        ReadOut::Off => refused,
        ReadOut::Fault => refused,
    }
}

/// Reads the part of a request in one block: from the lead, or from the other side in its place.
fn read_part<L: Disc, O: Disc>(
    lead: &mut L,
    other: &mut O,
    following: &mut Following,
    part: Part,
    into: &mut [u8],
) -> ReadOut
    requires covered { IsCovered part.request.lba part.request.n part.block }
    requires whole { length into.old ≡ 2048 * part.request.n }
    ensures cause { (side : Bool) → MirrorReadsPart (shown_by L.Sectors O.Sectors side lead.old other.old following.old)
        (shown_by L.Sectors O.Sectors side lead.new other.new following.new) part.request.lba part.request.n part.block
        result }
    ensures gives { (side : Bool) (disc : List ℕ) → length (block_of disc part.block) ≡ 32768
        → L.stands lead.old (On disc)
        → IsFollowed (shown_by L.Sectors O.Sectors side lead.old other.old following.old) (O.stands other.old) disc
        → PartGives (L.stands lead.new) (O.stands other.new)
        (shown_by L.Sectors O.Sectors side lead.new other.new following.new) disc part.request.lba part.request.n
        part.block into.old into.new result }
    ensures whole { length into.new ≡ length into.old }
    ensures on { following.new.on ≡ following.old.on }
    ensures table { following.new.table ≡ following.old.table }
    ensures same_shape { (L.shows lead.new).shape ≡ (L.shows lead.old).shape }
    ensures underwent { SidesUnderwent L.Sectors O.Sectors lead.old other.old lead.new other.new }
{
    let out = read_side(lead, part, into);
    match out {
        ReadOut::Unread {
            lba: named,
            block: home,
        } => read_instead(other, following, part, named, home, into),
        ReadOut::Good => out,
        ReadOut::NotFormatted => out,
        ReadOut::Range { .. } => out,
        ReadOut::Cut => out,
        ReadOut::Off => out,
        ReadOut::Fault => out,
    }
}

/// Reads the part that a request has of the block after `k` others.
fn read_block<L: Disc, O: Disc>(
    lead: &mut L,
    other: &mut O,
    following: &mut Following,
    request: Request,
    k: u32,
    into: &mut [u8],
) -> ReadOut
    requires covered { k < blocks_covered request.lba request.n }
    requires whole { length into.old ≡ 2048 * request.n }
    ensures cause { (side : Bool) → MirrorReadsPart (shown_by L.Sectors O.Sectors side lead.old other.old following.old)
        (shown_by L.Sectors O.Sectors side lead.new other.new following.new) request.lba request.n
        (block_with request.lba + k) result }
    ensures gives { (side : Bool) (disc : List ℕ) → length (block_of disc (block_with request.lba + k)) ≡ 32768
        → L.stands lead.old (On disc)
        → IsFollowed (shown_by L.Sectors O.Sectors side lead.old other.old following.old) (O.stands other.old) disc
        → PartGives (L.stands lead.new) (O.stands other.new)
        (shown_by L.Sectors O.Sectors side lead.new other.new following.new) disc request.lba request.n
        (block_with request.lba + k) into.old into.new result }
    ensures whole { length into.new ≡ length into.old }
    ensures on { following.new.on ≡ following.old.on }
    ensures table { following.new.table ≡ following.old.table }
    ensures same_shape { (L.shows lead.new).shape ≡ (L.shows lead.old).shape }
    ensures underwent { SidesUnderwent L.Sectors O.Sectors lead.old other.old lead.new other.new }
{
    let part = request.part(k);
    read_part(lead, other, following, part, into)
}

/// Reads all parts of a request, in order.
pub(crate) fn read_parts<L: Disc, O: Disc>(
    lead: &mut L,
    other: &mut O,
    following: &mut Following,
    request: Request,
    into: &mut [u8],
) -> ReadOut
    requires inside { IsInRange (L.shows lead.old) request.lba request.n }
    requires whole { length into.old ≡ 2048 * request.n }
    ensures cause { (side : Bool) → ReadsLed (shown_by L.Sectors O.Sectors side lead.old other.old following.old)
        (shown_by L.Sectors O.Sectors side lead.new other.new following.new) request.lba request.n result }
    ensures gives { (side : Bool) (disc : List ℕ) → L.stands lead.old (On disc)
        → IsFollowed (shown_by L.Sectors O.Sectors side lead.old other.old following.old) (O.stands other.old) disc
        → LedGives (L.stands lead.new) (O.stands other.new)
        (shown_by L.Sectors O.Sectors side lead.new other.new following.new) disc request.lba request.n
        into.new result }
    ensures whole { length into.new ≡ length into.old }
    ensures on { following.new.on ≡ following.old.on }
    ensures table { entries_of following.new.table ≡ entries_of following.old.table }
    ensures underwent { SidesUnderwent L.Sectors O.Sectors lead.old other.old lead.new other.new }
{
    for k in 0..request.blocks() {
        match read_block(lead, other, following, request, k, into) {
            ReadOut::Good => {}
            ended => return ended,
        }
    }
    ReadOut::Good
}

/// Reads by the lead, with the other side beside it: block after block where the sectors are the disc's. Else the lead refuses.
fn read_led<L: Disc, O: Disc>(
    lead: &mut L,
    other: &mut O,
    following: &mut Following,
    lba: u32,
    n: u32,
    into: &mut [u8],
) -> ReadOut
    requires few { n ≤ TRANSFER_LIMIT }
    requires whole { length into.old ≡ 2048 * n }
    ensures cause { (side : Bool) → ReadsLed (shown_by L.Sectors O.Sectors side lead.old other.old following.old)
        (shown_by L.Sectors O.Sectors side lead.new other.new following.new) lba n result }
    ensures gives { (side : Bool) (disc : List ℕ) → L.stands lead.old (On disc)
        → IsFollowed (shown_by L.Sectors O.Sectors side lead.old other.old following.old) (O.stands other.old) disc
        → AllGives (L.stands lead.new) (O.stands other.new)
        (shown_by L.Sectors O.Sectors side lead.new other.new following.new) disc lba n into.new result }
    ensures off { (discs : List (List ℕ)) → L.stands lead.old (Off discs) → StandsSomehow (O.stands other.old)
        → OffGives (L.stands lead.new) (O.stands other.new) discs result }
    ensures whole { length into.new ≡ length into.old }
    ensures on { following.new.on ≡ following.old.on }
    ensures table { entries_of following.new.table ≡ entries_of following.old.table }
    ensures underwent { SidesUnderwent L.Sectors O.Sectors lead.old other.old lead.new other.new }
{
    let Some(capacity) = lead.capacity() else {
        return lead.read(lba, n, into);
    };
    match Request::within(capacity, lba, n) {
        None => lead.read(lba, n, into),
        Some(request) => read_parts(lead, other, following, request, into),
    }
}

/// Reads by the lead of a mirror that is on, with the other side beside it. Where the lead is stopped the other side takes the lead if it
/// may, and all is read there; else the mirror is off.
pub(crate) fn read_on<L: Disc, O: Disc>(
    lead: &mut L,
    other: &mut O,
    following: &mut Following,
    lba: u32,
    n: u32,
    into: &mut [u8],
) -> Led<ReadOut>
    requires few { n ≤ TRANSFER_LIMIT }
    requires whole { length into.old ≡ 2048 * n }
    requires on { following.old.on ≡ true }
    ensures cause { (side : Bool) → ReadLed L.Sectors O.Sectors side lead.old other.old following.old
        lead.new other.new following.new lba n result }
    ensures step { (side : Bool) → ReadLedStep L.Sectors O.Sectors side lead.old other.old following.old
        lead.new other.new following.new lba n into.new result }
    ensures underwent { SidesUnderwent L.Sectors O.Sectors lead.old other.old lead.new other.new }
{
    let out = read_led(lead, other, following, lba, n, into);
    match out {
        ReadOut::Cut | ReadOut::Fault => {
            if !take_lead(other, following) {
                return Led::Kept(out);
            }
            Led::Given(read_alone(other, following, lba, n, into))
        }
        ReadOut::Good => Led::Kept(out),
        ReadOut::NotFormatted => Led::Kept(out),
        ReadOut::Range { .. } => Led::Kept(out),
        ReadOut::Unread { .. } => Led::Kept(out),
        ReadOut::Off => Led::Kept(out),
    }
}

/// Reads all by a side that has taken the lead. Where that is stopped too, the mirror is off.
fn read_alone<O: Disc>(
    lead: &mut O,
    following: &mut Following,
    lba: u32,
    n: u32,
    into: &mut [u8],
) -> ReadOut
    requires few { n ≤ TRANSFER_LIMIT }
    requires whole { length into.old ≡ 2048 * n }
    requires on { following.old.on ≡ true }
    ensures reads { ReadsDisc (O.shows lead.old) (O.shows lead.new) lba n result }
    ensures step { (s : Standing) → O.stands lead.old s → ReadStep (O.stands lead.new) s lba n into.new result }
    ensures now { (side : Bool) (other : Shown) → shown_as side (O.shows lead.new) other following.new
        ≡ after_lone_read result (led_by (shown_as side (O.shows lead.old) other following.old) (O.shows lead.new)) }
    ensures underwent { O.underwent lead.old lead.new }
{
    let out = lead.read(lba, n, into);
    if matches!(out, ReadOut::Cut | ReadOut::Fault) {
        following.turn_off();
    }
    out
}
