//! What a target tells of its disc, which it leaves as it is.

ghost use Rattle.std.specs.Prelude.{◌≡◌, ◌*◌, ◌≤◌, ◌==◌, [], take, vec_capacity};
ghost use Rattle.std.specs.Bool.{MatchBool};
ghost use Rattle.model_commands.specs.declared.TheConstants.{TRANSFER_LIMIT};
ghost use Rattle.model_sense.specs.declared.answer.Answer.TheVariants as answers;
ghost use Rattle.model_drive.specs.Shown.{IsOn};
ghost use Rattle.model_drive.specs.Tells.{HasDisc};
ghost use Rattle.model_target.specs.Steps.{TellsStructure, TellsSpares, configuration_told, disc_told, capacities_told, spares_told};

use crate::features::Wanted;
use crate::replies::{disc_reply, reply, reply_capacities, reply_structure, spares_reply};
use ram_bytes::Block;
use ram_sectors::Caching;

/// Tells in `data_in` which features the drive has, of those that are asked for, cut to the allocation length.
pub fn tell_configuration<D: Caching>(
    disc: &D,
    wanted: Wanted,
    out: bool,
    allocation: u32,
    data_in: &mut Vec<u8>,
)
    requires on { IsOn (D.shows disc.now).drive }
    requires empty { data_in.old.items ≡ [] }
    requires room { 2048 * TRANSFER_LIMIT ≤ vec_capacity data_in.old }
    ensures given { data_in.new.items
        ≡ take allocation (configuration_told wanted.kind wanted.first out (D.shows disc.now).drive) }
    ensures room { vec_capacity data_in.old ≤ vec_capacity data_in.new }
{
    let counts = disc.counts();
    wanted.reply(data_in, out, counts.formatted, counts.capacity, allocation);
}

/// Tells in `data_in` what kind of disc is in the drive, cut to the allocation length.
pub fn tell_disc<D: Caching>(disc: &D, allocation: u32, data_in: &mut Vec<u8>)
    requires on { IsOn (D.shows disc.now).drive }
    requires empty { data_in.old.items ≡ [] }
    requires room { 2048 * TRANSFER_LIMIT ≤ vec_capacity data_in.old }
    ensures given { data_in.new.items ≡ take allocation (disc_told (D.shows disc.now).drive) }
    ensures room { vec_capacity data_in.old ≤ vec_capacity data_in.new }
{
    let counts = disc.counts();
    reply(data_in, &disc_reply(counts.formatted), allocation);
}

/// Tells in `data_in` the capacity that the disc has, and that a format gives it, cut to the allocation length.
pub fn tell_capacities<D: Caching>(disc: &D, out: bool, allocation: u32, data_in: &mut Vec<u8>)
    requires on { IsOn (D.shows disc.now).drive }
    requires empty { data_in.old.items ≡ [] }
    requires room { 2048 * TRANSFER_LIMIT ≤ vec_capacity data_in.old }
    ensures given { data_in.new.items ≡ take allocation (capacities_told out (D.shows disc.now).drive) }
    ensures room { vec_capacity data_in.old ≤ vec_capacity data_in.new }
{
    let counts = disc.counts();
    reply_capacities(
        data_in,
        out,
        counts.formatted,
        counts.capacity,
        counts.formattable,
        allocation,
    );
}

/// Tells in `data_in` what the disc says of itself, cut to the allocation length: the structure in use by format 08h, else its
/// spares. What the block then holds does not matter.
pub fn tell_structure<D: Caching>(
    disc: &D,
    block: &mut Block,
    format: u8,
    allocation: u32,
    data_in: &mut Vec<u8>,
)
    requires has_disc { HasDisc (D.shows disc.now).drive }
    requires empty { data_in.old.items ≡ [] }
    requires room { 2048 * TRANSFER_LIMIT ≤ vec_capacity data_in.old }
    ensures rule { MatchBool (format == 0x08)
        (TellsStructure (D.shows disc.now) (D.shows disc.now) (D.stands disc.now) (D.stands disc.now)
        allocation answers.Good data_in.new.items)
        (TellsSpares (D.shows disc.now) (D.shows disc.now) (D.stands disc.now) (D.stands disc.now)
        allocation answers.Good data_in.new.items) }
    ensures room { vec_capacity data_in.old ≤ vec_capacity data_in.new }
{
    if format == 0x08 {
        tell_text(disc, block, allocation, data_in);
    } else {
        tell_spares(disc, allocation, data_in);
    }
}

/// Tells in `data_in` the text of the structure in use, which is put into the block first.
fn tell_text<D: Caching>(disc: &D, block: &mut Block, allocation: u32, data_in: &mut Vec<u8>)
    requires has_disc { HasDisc (D.shows disc.now).drive }
    requires empty { data_in.old.items ≡ [] }
    requires room { 2048 * TRANSFER_LIMIT ≤ vec_capacity data_in.old }
    ensures rule { TellsStructure (D.shows disc.now) (D.shows disc.now) (D.stands disc.now) (D.stands disc.now)
        allocation answers.Good data_in.new.items }
    ensures room { vec_capacity data_in.old ≤ vec_capacity data_in.new }
{
    match disc.dds_block(block) {
        true => reply_structure(data_in, block, allocation),
        false => unreachable!(),
    }
}

/// Tells in `data_in` how many spares are free, and how many supplementary ones there are.
fn tell_spares<D: Caching>(disc: &D, allocation: u32, data_in: &mut Vec<u8>)
    requires empty { data_in.old.items ≡ [] }
    requires room { 2048 * TRANSFER_LIMIT ≤ vec_capacity data_in.old }
    ensures given { data_in.new.items ≡ take allocation (spares_told (D.shows disc.now).drive) }
    ensures room { vec_capacity data_in.old ≤ vec_capacity data_in.new }
{
    let counts = disc.counts();
    let whole = spares_reply(counts.free_primary, counts.free_supplementary, counts.ssa);
    reply(data_in, &whole, allocation);
}
