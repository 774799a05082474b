//! One block that is not apart: a lead that lacks it gets it from the other side.

ghost use Rattle.std.specs.Prelude.{◌≡◌, ◌≤◌, ◌+◌, ◌*◌, true, false, Bool, List, ℕ, length};
ghost use Rattle.model_sectors.specs.declared.TheConstants.{MOST_SECTORS};
ghost use Rattle.model_sectors.specs.Discs.{Standing, On, sectors_of};
ghost use Rattle.model_drive.specs.Parts.{IsInRange};
ghost use Rattle.model_drive.specs.Reads.{VerifyStep};
ghost use Rattle.model_drive.specs.Shown.{Shown};
ghost use Rattle.model_mirror.specs.Standing.{IsFollowed};
ghost use Rattle.model_mirror.specs.Table.{is_apart};
ghost use Rattle.model_mirror.specs.Whole.{MendsBlock, MendsLack, WritesBack, once_written};
ghost use Rattle.ram_mirror.specs.Tables.{entries_of};
ghost use Rattle.ram_mirror.specs.Sides.{shown_as, shown_by, stands_by, SidesUnderwent};

use crate::following::Following;
use crate::writing::write_alone;
use ram_sectors::{Disc, ReadOut, Sectors, WriteOut};

/// How a resynchronisation goes on once the lead was written.
fn once_written(told: WriteOut) -> ReadOut
    ensures { result ≡ once_written told }
{
    match told {
        WriteOut::Cut => ReadOut::Cut,
        WriteOut::Fault => ReadOut::Fault,
        WriteOut::Good
        | WriteOut::NotFormatted
        | WriteOut::Range { .. }
        | WriteOut::Unread { .. }
        | WriteOut::NoSpare { .. }
        | WriteOut::NoUpdate { .. }
        | WriteOut::Off => ReadOut::Good,
    }
}

/// Writes a block to the lead, as the other side has it. Where the lead is stopped the mirror is off.
fn write_back<L: Disc>(lead: &mut L, following: &mut Following, block: u32, room: &[u8]) -> ReadOut
    requires room { length room.now ≡ 32768 }
    requires small { 16 * block + 16 ≤ MOST_SECTORS }
    requires on { following.old.on ≡ true }
    ensures cause { (side : Bool) (other : Shown) → WritesBack (shown_as side (L.shows lead.old) other following.old)
        (shown_as side (L.shows lead.new) other following.new) block result }
    ensures step { (disc : List ℕ) → L.stands lead.old (On disc) → room.now ≡ sectors_of disc (16 * block) 16
        → VerifyStep (L.stands lead.new) (On disc) result }
    ensures underwent { L.underwent lead.old lead.new }
{
    let told = write_alone(lead, following, 16 * block, 16, room);
    once_written(told)
}

/// Asks the other side for a block that the lead lacks and that is not apart, and writes it to the lead.
fn mend_lack<L: Disc, O: Disc>(
    lead: &mut L,
    other: &mut O,
    following: &mut Following,
    block: u32,
    room: &mut [u8],
) -> ReadOut
    requires room { length room.old ≡ 32768 }
    requires small { 16 * block + 16 ≤ MOST_SECTORS }
    requires on { following.old.on ≡ true }
    requires up { following.old.up ≡ true }
    requires together { is_apart (entries_of following.old.table) block ≡ false }
    ensures room { length room.new ≡ 32768 }
    ensures cause { (side : Bool) → MendsLack (shown_by L.Sectors O.Sectors side lead.old other.old following.old)
        (shown_by L.Sectors O.Sectors side lead.new other.new following.new) block result }
    ensures step { (side : Bool) (disc : List ℕ) → L.stands lead.old (On disc)
        → IsFollowed (shown_by L.Sectors O.Sectors side lead.old other.old following.old) (O.stands other.old) disc
        → VerifyStep (stands_by L.Sectors O.Sectors side lead.new other.new following.new) (On disc) result }
    ensures underwent { SidesUnderwent L.Sectors O.Sectors lead.old other.old lead.new other.new }
{
    let told = other.read(16 * block, 16, room);
    following.after_read(told);
    match told {
        ReadOut::Good => write_back(lead, following, block, room),
        ReadOut::NotFormatted => ReadOut::Good,
        ReadOut::Range { .. } => ReadOut::Good,
        ReadOut::Unread { .. } => ReadOut::Good,
        ReadOut::Cut => ReadOut::Good,
        ReadOut::Off => ReadOut::Good,
        ReadOut::Fault => ReadOut::Good,
    }
}

/// Reads a block that is not apart from the lead, and mends it there where the lead lacks it and the other side has it. The answer is
/// good where the lead was not stopped; else the mirror is off.
pub(crate) fn mend_block<L: Disc, O: Disc>(
    lead: &mut L,
    other: &mut O,
    following: &mut Following,
    block: u32,
    room: &mut [u8],
) -> ReadOut
    requires room { length room.old ≡ 32768 }
    requires small { 16 * block + 16 ≤ MOST_SECTORS }
    requires inside { IsInRange (L.shows lead.old) (16 * block) 16 }
    requires on { following.old.on ≡ true }
    requires up { following.old.up ≡ true }
    requires together { is_apart (entries_of following.old.table) block ≡ false }
    ensures room { length room.new ≡ 32768 }
    ensures cause { (side : Bool) → MendsBlock (shown_by L.Sectors O.Sectors side lead.old other.old following.old)
        (shown_by L.Sectors O.Sectors side lead.new other.new following.new) block result }
    ensures step { (side : Bool) (s : Standing) → stands_by L.Sectors O.Sectors side lead.old other.old following.old s
        → VerifyStep (stands_by L.Sectors O.Sectors side lead.new other.new following.new) s result }
    ensures underwent { SidesUnderwent L.Sectors O.Sectors lead.old other.old lead.new other.new }
{
    let out = lead.read(16 * block, 16, room);
    match out {
        ReadOut::Good => out,
        ReadOut::Unread { .. } => mend_lack(lead, other, following, block, room),
        ReadOut::Cut => {
            following.turn_off();
            out
        }
        ReadOut::Fault => {
            following.turn_off();
            out
        }
        ReadOut::NotFormatted => out,
        ReadOut::Range { .. } => out,
        ReadOut::Off => out,
    }
}
