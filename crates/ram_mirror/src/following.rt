//! What a mirror keeps beside its sides, and how a call ends that may give the lead.

ghost use Rattle.std.specs.Prelude.{◌≡◌, true, false, ◌≤◌, ◌&&◌, ◌+◌, ◌-◌, ◌/◌, Bool, not, is_some};
ghost use Rattle.model_sectors.specs.Requests.{block_with, blocks_covered};
ghost use Rattle.model_drive.specs.Shown.{Shown};
ghost use Rattle.model_mirror.specs.Table.{some_apart, is_covered, is_covered_before, AreMarked};
ghost use Rattle.model_mirror.specs.Writes.{OtherEnds};
ghost use Rattle.model_mirror.specs.Reads.{up_after_read};
ghost use Rattle.model_mirror.specs.Whole.{CopyEnds};
ghost use Rattle.model_mirror.specs.declared.MirrorPowerOut.TheVariants as outs;
ghost use Rattle.model_mirror.specs.Leading.{handed_leading, forgotten_leading};
ghost use Rattle.ram_mirror.specs.Notes.{leading_of};
ghost use Rattle.ram_mirror.specs.Tables.{entries_of};
ghost use Rattle.ram_mirror.specs.Sides.{shown_as};

use crate::noted::Leading;
use crate::table::ApartTable;
use model_mirror::MirrorPowerOut;
use ram_sectors::{ReadOut, WriteOut};

/// Whether the mirror is on, whether the side that does not lead is up, which blocks are apart, and who leads.
#[derive(Drop)]
pub struct Following {
    pub(crate) on: bool,
    pub(crate) up: bool,
    pub(crate) table: ApartTable,
    pub(crate) who: Leading,
}

/// How a call ended: the side that led leads still, or the lead is given to the other one.
#[derive(Clone, Copy, Debug, PartialEq, Eq)]
pub enum Led<T> {
    /// It leads still.
    Kept(T),
    /// The other side leads now.
    Given(T),
}

impl Following {
    /// Whether the other side may take the lead: it is up, and no block is apart.
    pub(crate) fn may_lead(&self) -> bool
        ensures { result ≡ (self.now.up && not (some_apart (entries_of self.now.table))) }
    {
        self.up && !self.table.some_apart()
    }

    /// Turns the mirror off until the next power on.
    pub(crate) fn turn_off(&mut self)
        ensures on { self.new.on ≡ false }
        ensures up { self.new.up ≡ false }
        ensures table { self.new.table ≡ self.old.table }
        ensures who { self.new.who ≡ self.old.who }
    {
        self.on = false;
        self.up = false;
    }

    /// The other side has the lead, and the side that had it is down.
    pub(crate) fn hand_over(&mut self)
        ensures on { self.new.on ≡ true }
        ensures up { self.new.up ≡ false }
        ensures table { self.new.table ≡ self.old.table }
        ensures who { leading_of self.new.who ≡ handed_leading (leading_of self.old.who) }
    {
        self.on = true;
        self.up = false;
        self.who.by_hand = false;
        self.who.exchange();
    }

    /// The mirror is off, and it is not known who leads.
    pub(crate) fn forget(&mut self) -> MirrorPowerOut
        ensures on { self.new.on ≡ false }
        ensures up { self.new.up ≡ false }
        ensures table { self.new.table ≡ self.old.table }
        ensures who { leading_of self.new.who ≡ forgotten_leading (leading_of self.old.who) }
        ensures unknown { result ≡ outs.Unknown }
    {
        self.turn_off();
        self.who.known = false;
        self.who.by_hand = false;
        MirrorPowerOut::Unknown
    }

    /// After a write of the other side, which the lead has written: blocks that both have written wholly are not apart, and those that
    /// the other side may lack are. It is down where it was stopped.
    pub(crate) fn after_other(&mut self, told: WriteOut, lba: u32, n: u32)
        ensures ends { (side : Bool) (lead other now : Shown)
            → OtherEnds (shown_as side lead other self.old) (shown_as side lead now self.new) lba n told }
        ensures on { self.new.on ≡ self.old.on }
    {
        match told {
            WriteOut::Good => {
                let first = (u64::from(lba) + 15) / 16;
                let end = (u64::from(lba) + u64::from(n)) / 16;
                self.table.mark(first, end.saturating_sub(first), false);
            }
            WriteOut::Unread { lba: named, .. } | WriteOut::NoSpare { lba: named } => {
                let first = u64::from(named) / 16;
                let end = u64::from(lba) / 16 + covered(lba, n);
                self.table.mark(first, end.saturating_sub(first), true);
            }
            WriteOut::NoUpdate { .. } => self
                .table
                .mark(u64::from(lba) / 16, covered(lba, n), true),
            WriteOut::NotFormatted
            | WriteOut::Range { .. }
            | WriteOut::Cut
            | WriteOut::Off
            | WriteOut::Fault => self.up = false,
        }
    }

    /// After a read of the other side: it is down where that neither gave nor lacked bytes.
    pub(crate) fn after_read(&mut self, told: ReadOut)
        ensures up { self.new.up ≡ up_after_read told }
        ensures on { self.new.on ≡ self.old.on }
        ensures table { self.new.table ≡ self.old.table }
        ensures who { self.new.who ≡ self.old.who }
    {
        self.up = match told {
            ReadOut::Good | ReadOut::Unread { .. } => true,
            ReadOut::NotFormatted
            | ReadOut::Range { .. }
            | ReadOut::Cut
            | ReadOut::Off
            | ReadOut::Fault => false,
        };
    }

    /// After a write of one block, copied from the lead, to the other side: where that has it, it is not apart. The other side is down
    /// where it was stopped.
    pub(crate) fn after_copy(&mut self, told: WriteOut, block: u32)
        ensures ends { (side : Bool) (lead other now : Shown)
            → CopyEnds (shown_as side lead other self.old) (shown_as side lead now self.new) block told }
        ensures on { self.new.on ≡ self.old.on }
    {
        match told {
            WriteOut::Good => self.table.mark(u64::from(block), 1, false),
            WriteOut::Unread { .. } | WriteOut::NoSpare { .. } | WriteOut::NoUpdate { .. } => {}
            WriteOut::NotFormatted
            | WriteOut::Range { .. }
            | WriteOut::Cut
            | WriteOut::Off
            | WriteOut::Fault => self.up = false,
        }
    }

    /// After a write that the lead refused at the block of this sector: those before it are apart.
    pub(crate) fn after_refusal(&mut self, lba: u32, n: u32, named: u32)
        ensures marked { AreMarked (is_covered_before lba n named) true (entries_of self.old.table)
            (entries_of self.new.table) }
        ensures on { self.new.on ≡ self.old.on }
        ensures up { self.new.up ≡ self.old.up }
        ensures who { self.new.who ≡ self.old.who }
    {
        let first = u64::from(lba) / 16;
        self.table
            .mark(first, (u64::from(named) / 16).saturating_sub(first), true);
    }

    /// After a write whose list the lead could not write: all blocks that it covers are apart.
    pub(crate) fn after_unlisted(&mut self, lba: u32, n: u32)
        ensures marked { AreMarked (is_covered lba n) true (entries_of self.old.table)
            (entries_of self.new.table) }
        ensures on { self.new.on ≡ self.old.on }
        ensures up { self.new.up ≡ self.old.up }
        ensures who { self.new.who ≡ self.old.who }
    {
        self.table.mark(u64::from(lba) / 16, covered(lba, n), true);
    }

    /// After a format of the lead, which tells its capacity where it has a disc still: else the other side is down.
    pub(crate) fn after_unformatted(&mut self, capacity: Option<u32>)
        ensures up { self.new.up ≡ (self.old.up && is_some capacity) }
        ensures on { self.new.on ≡ self.old.on }
        ensures table { self.new.table ≡ self.old.table }
        ensures who { self.new.who ≡ self.old.who }
    {
        self.up = self.up && capacity.is_some();
    }
}

/// How many blocks a request covers.
fn covered(lba: u32, n: u32) -> u64
    ensures { result ≡ blocks_covered lba n }
{
    if n == 0 {
        return 0;
    }
    let last = u64::from(lba) + u64::from(n) - 1;
    last / 16 + 1 - u64::from(lba) / 16
}
