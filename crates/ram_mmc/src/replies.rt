//! The bytes that a target replies.

ghost use Rattle.std.specs.Prelude.{◌≡◌, ◌≤◌, ◌+◌, ◌++◌, [], length, take, vec_capacity};
ghost use Rattle.model_target.specs.Host.{sense_told};
ghost use Rattle.model_target.specs.Replies.{inquiry_reply, inquiry_by, capacity_reply, events_reply, disc_reply, capacity_descriptor, present_capacity, format_capacities_reply, structure_reply, spares_reply};
ghost use Rattle.ram_mmc.specs.declared.replies.TheConstants.{INQUIRY};

use model_target::Host;
use ram_bytes::Block;
use ram_sense::Sense;
use ram_sense::codes::{NO_SENSE, POWER_ON_OCCURRED};

/// What INQUIRY replies: the kind of device, a removable disc, the version, and the texts of this drive.
pub const INQUIRY: &[u8] = b"\x05\x80\x00\x02\x1f\x00\x00\x00DVDRAM  SECTOR DRIVE    1.00";

/// Puts a reply into `data_in`, cut to the allocation length, which is in bytes.
pub fn reply(data_in: &mut Vec<u8>, whole: &[u8], allocation: u32)
    requires empty { data_in.old.items ≡ [] }
    requires room { length whole.now ≤ vec_capacity data_in.old }
    ensures given { data_in.new.items ≡ take allocation whole.now }
    ensures room { vec_capacity data_in.old ≤ vec_capacity data_in.new }
{
    put(data_in, whole);
    cut(data_in, allocation);
}

/// Puts the data of READ DVD STRUCTURE of format 08h into `data_in`, cut to the allocation length: a header of four bytes,
/// and the first sector of the block, which has the text of the structure.
pub fn reply_structure(data_in: &mut Vec<u8>, text: &Block, allocation: u32)
    requires empty { data_in.old.items ≡ [] }
    requires room { 2052 ≤ vec_capacity data_in.old }
    ensures given { data_in.new.items ≡ take allocation (structure_reply text.now) }
    ensures room { vec_capacity data_in.old ≤ vec_capacity data_in.new }
{
    put(data_in, &[0x08, 0x02, 0, 0]);
    put(data_in, text.sector(0));
    cut(data_in, allocation);
}

/// Puts these bytes behind those that are there.
pub fn put(data_in: &mut Vec<u8>, bytes: &[u8])
    requires room { length data_in.old.items + length bytes.now ≤ vec_capacity data_in.old }
    ensures given { data_in.new.items ≡ data_in.old.items ++ bytes.now }
    ensures room { vec_capacity data_in.old ≤ vec_capacity data_in.new }
{
    match data_in.extend_from_slice(bytes) {
        Ok(()) => {}
        Err(_) => unreachable!(),
    }
}

/// Cuts a reply to the allocation length.
pub fn cut(data_in: &mut Vec<u8>, allocation: u32)
    ensures given { data_in.new.items ≡ take allocation data_in.old.items }
    ensures room { vec_capacity data_in.new ≡ vec_capacity data_in.old }
{
    data_in.truncate(allocation as usize);
}

/// The sense that REQUEST SENSE gives.
pub fn sense_told(host: &Host) -> Sense
    ensures { result ≡ sense_told host.now }
{
    match host.kept {
        Some(kept) => kept,
        None if host.attention => POWER_ON_OCCURRED,
        None => NO_SENSE,
    }
}

/// The data of READ CAPACITY on a disc of n sectors: the last one, and how many bytes a sector has.
pub fn capacity_reply(capacity: u32) -> [u8; 8]
    ensures { result ≡ capacity_reply capacity }
{
    let [a, b, c, d] = capacity.saturating_sub(1).to_be_bytes();
    [a, b, c, d, 0x00, 0x00, 0x08, 0x00]
}

/// Puts the data of INQUIRY into `data_in`, or those of its list of the pages of vital product data, cut to the allocation length.
pub fn reply_inquiry(data_in: &mut Vec<u8>, vital: bool, allocation: u32)
    requires empty { data_in.old.items ≡ [] }
    requires room { 36 ≤ vec_capacity data_in.old }
    ensures given { data_in.new.items ≡ take allocation (inquiry_by vital) }
    ensures room { vec_capacity data_in.old ≤ vec_capacity data_in.new }
{
    if vital {
        reply(data_in, &[0x05, 0x00, 0x00, 0x01, 0x00], allocation);
    } else {
        reply(data_in, INQUIRY, allocation);
    }
}

/// Puts the data of GET EVENT STATUS NOTIFICATION into `data_in`, cut to the allocation length: where events of the medium are asked
/// for, that there is none, and whether the disc is in or the tray open.
pub fn reply_events(data_in: &mut Vec<u8>, media: bool, out: bool, allocation: u32)
    requires empty { data_in.old.items ≡ [] }
    requires room { 8 ≤ vec_capacity data_in.old }
    ensures given { data_in.new.items ≡ take allocation (events_reply media out) }
    ensures room { vec_capacity data_in.old ≤ vec_capacity data_in.new }
{
    if media {
        let status = if out { 0x01 } else { 0x02 };
        reply(
            data_in,
            &[0x00, 0x06, 0x04, 0x10, 0x00, status, 0x00, 0x00],
            allocation,
        );
    } else {
        reply(data_in, &[0x00, 0x02, 0x80, 0x10], allocation);
    }
}

/// The data of READ DISC INFORMATION, with a disc that is formatted or not.
pub fn disc_reply(formatted: bool) -> [u8; 34]
    ensures { result ≡ disc_reply formatted }
{
    let state = if formatted { 0x1f } else { 0x10 };
    [
        0x00, 0x20, state, 0x01, 0x01, 0x01, 0x01, 0x20, 0, 0, 0, 0, 0, 0, 0, 0, 0, 0, 0, 0, 0, 0,
        0, 0, 0, 0, 0, 0, 0, 0, 0, 0, 0, 0,
    ]
}

/// Puts the data of READ FORMAT CAPACITIES into `data_in`, cut to the allocation length: on a formatted disc its number of sectors,
/// else what a format gives, and then, with a disc, what a format gives.
pub fn reply_capacities(
    data_in: &mut Vec<u8>,
    out: bool,
    formatted: bool,
    capacity: u32,
    formattable: u32,
    allocation: u32,
)
    requires empty { data_in.old.items ≡ [] }
    requires room { 20 ≤ vec_capacity data_in.old }
    ensures given { data_in.new.items
        ≡ take allocation (format_capacities_reply out formatted capacity formattable) }
    ensures room { vec_capacity data_in.old ≤ vec_capacity data_in.new }
{
    put(data_in, &[0, 0, 0, if out { 8 } else { 16 }]);
    put(
        data_in,
        &present_capacity(out, formatted, capacity, formattable),
    );
    if !out {
        put(data_in, &capacity_descriptor(formattable, 0));
    }
    cut(data_in, allocation);
}

/// The descriptor of what the disc has, if it is formatted, else of what a format gives.
fn present_capacity(out: bool, formatted: bool, capacity: u32, formattable: u32) -> [u8; 8]
    ensures { result ≡ present_capacity out formatted capacity formattable }
{
    match (out, formatted) {
        (true, _) => capacity_descriptor(formattable, 3),
        (false, true) => capacity_descriptor(capacity, 2),
        (false, false) => capacity_descriptor(formattable, 1),
    }
}

/// A number of sectors, what it is the number of, and how many bytes a sector has.
fn capacity_descriptor(sectors: u32, kind: u8) -> [u8; 8]
    ensures { result ≡ capacity_descriptor sectors kind }
{
    let [a, b, c, d] = sectors.to_be_bytes();
    [a, b, c, d, kind, 0x00, 0x08, 0x00]
}

/// The data of READ DVD STRUCTURE of format 0Ah: how many primary spares are free, how many supplementary ones, and how many
/// of these there are.
pub fn spares_reply(primary: u32, supplementary: u32, ssa: u32) -> [u8; 16]
    ensures { result ≡ spares_reply primary supplementary ssa }
{
    let [a, b, c, d] = primary.to_be_bytes();
    let [e, f, g, h] = supplementary.to_be_bytes();
    let [i, j, k, l] = ssa.to_be_bytes();
    [0x00, 0x0e, 0, 0, a, b, c, d, e, f, g, h, i, j, k, l]
}

/// The numbers that contracts share with the code.
pub fn inquiry_is_this()
    ensures { INQUIRY.now ≡ inquiry_reply }
{}
