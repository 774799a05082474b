//! A mirror of two discs, and its calls.

ghost use Rattle.std.specs.Prelude.{◌≡◌, ◌≤◌, ◌+◌, ◌*◌, not, true, length};
ghost use Rattle.model_commands.specs.declared.TheConstants.{TRANSFER_LIMIT};
ghost use Rattle.model_sectors.specs.Discs.{Standing};
ghost use Rattle.model_drive.specs.declared.Kind.TheVariants as kinds;
ghost use Rattle.model_drive.specs.Formats.{FormatStep};
ghost use Rattle.model_drive.specs.Reads.{ReadStep};
ghost use Rattle.model_drive.specs.Writes.{WriteStep};
ghost use Rattle.model_mirror.specs.Shown.{told_apart};
ghost use Rattle.model_mirror.specs.Steps.{ResyncStep};
ghost use Rattle.model_mirror.specs.Reads.{MirrorReadCause};
ghost use Rattle.model_mirror.specs.Powers.{MirrorPowerCause, MirrorPowerStep};
ghost use Rattle.model_mirror.specs.Giving.{GiveLeadCause, GiveStepOf, leader_of};
ghost use Rattle.model_mirror.specs.Whole.{MirrorFormatCause, ResyncCause};
ghost use Rattle.model_mirror.specs.Writes.{MirrorWriteCause};
ghost use Rattle.ram_mirror.specs.declared.mirror.TheConstants.{MIRROR_MEMORY};

use crate::following::{Following, Led};
use crate::formatting::format_on;
use crate::giving::{give_over, give_to, is_given};
use crate::noted::Leading;
use crate::power::power_both;
use crate::reading::read_on;
use crate::resync::resync_on;
use crate::table::{ApartTable, TABLE_MEMORY};
use crate::writing::write_on;
use model_mirror::{GiveOut, Leader, MirrorPowerOut, Resync};
use ram_bytes::{BLOCK_BYTES, Block, Budget, MemoryRefused};
use ram_record::{LeadRecord, REGIONS};
use ram_sectors::{Disc, FormatOut, ReadOut, Sectors, WriteOut};

/// How many bytes a mirror asks for beside its sides: its table, a block, and three records of the lead.
pub const MIRROR_MEMORY: usize = TABLE_MEMORY + BLOCK_BYTES + 3 * REGIONS;

/// The memory that a mirror works in: a table for any disc, room for a block that is copied, and for the record of each side and one
/// more. All of it is taken here.
#[derive(Drop)]
pub struct MirrorRooms {
    table: ApartTable,
    block: Block,
    lead: LeadRecord,
    other: LeadRecord,
    looked_at: LeadRecord,
}

impl MirrorRooms {
    /// Takes the memory.
    ///
    /// # Answers
    ///
    /// - `Ok`: the memory was taken. (clause)
    /// - `Err`: the system refused memory that was asked for within the budget. (clause)
    pub fn new(budget: &mut Budget) -> Result<MirrorRooms, MemoryRefused>
        requires free { MIRROR_MEMORY ≤ budget.old }
        ensures left { budget.old ≤ budget.new + MIRROR_MEMORY }
    {
        Ok(MirrorRooms {
            table: ApartTable::new(budget)?,
            block: Block::zeros(budget)?,
            lead: LeadRecord::new(budget)?,
            other: LeadRecord::new(budget)?,
            looked_at: LeadRecord::new(budget)?,
        })
    }
}

/// Two discs, of which one leads: what it has the other one is to have as well. It keeps no fact about them, so that they may be
/// lent.
#[derive(Drop)]
pub struct Mirror<A: Disc, B: Disc> {
    /// The first side, which leads where nothing tells the two apart.
    pub a: A,
    /// The other one.
    pub b: B,
    pub(crate) lead_is_a: bool,
    pub(crate) following: Following,
    room: Block,
    looked_at: LeadRecord,
}

impl<A: Disc, B: Disc> Mirror<A, B> {
    ghost use Rattle.ram_mirror.specs.Sides.{SidesUnderwent};
    ghost use Rattle.ram_mirror.specs.Mirrors.{IsNew, mirror_shows, mirror_stands};

    /// A mirror of these sides, which is off. It is not known who leads.
    ///
    /// # Clauses
    ///
    /// - the sides are those that were given, and come back.
    pub fn new(rooms: MirrorRooms, a: A, b: B) -> Mirror<A, B>
        ensures { IsNew result a b }
    {
        Mirror {
            a,
            b,
            lead_is_a: true,
            following: Following {
                on: false,
                up: false,
                table: rooms.table,
                who: Leading::unknown(rooms.lead, rooms.other),
            },
            room: rooms.block,
            looked_at: rooms.looked_at,
        }
    }

    /// The memory of the mirror, and its sides, first side `a`.
    ///
    /// # Clauses
    ///
    /// - the sides are those that were given, and come back.
    pub fn into_parts(self) -> (MirrorRooms, A, B)
        ensures a { result.1 ≡ self.a }
        ensures b { result.2 ≡ self.b }
    {
        let Mirror {
            a,
            b,
            following,
            room,
            looked_at,
            ..
        } = self;
        let rooms = MirrorRooms {
            table: following.table,
            block: room,
            lead: following.who.lead.held,
            other: following.who.other.held,
            looked_at,
        };
        (rooms, a, b)
    }

    /// Reads `n` sectors from sector `lba` on from the lead, and from the other side each block that the lead cannot give, where that one
    /// is up and the block is not apart. The answer is the lead's. A lead that is stopped gives the lead to the other side where that has
    /// all that the lead had.
    ///
    /// # Clauses
    ///
    /// - `cause`, `step`: `MirrorReadCause`: the reads of its sides that it made; of the disc that it stands for, `ReadStep`, as
    ///   a read of one disc.
    /// - `underwent`: `SidesUnderwent`: nothing but events happened to the media of both sides, whatever the answer.
    ///
    /// # Answers
    ///
    /// The lead answers; where it was stopped and the other side may lead, that one answers (`ReadsElsewhere`).
    ///
    /// - `Good`: every block came from the lead, or from the other side in its place. Then: the bytes are the disc's.
    ///   (`ReadsLed`)
    /// - `NotFormatted`, `Range`: the lead refused so. Then: nothing changed. (`LeadReads`)
    /// - `Unread`: at the first block that the lead cannot give, and the other side may not stand in or cannot either.
    ///   (`EndsMirrorRead`, `AsksOther`)
    /// - `Cut`, `Fault`: the lead was stopped, and the other side may not lead, or was stopped too. Then: the mirror is off.
    ///   (`ReadStopped`, `ReadsElsewhere`)
    /// - `Off`: the mirror is off, or its lead. Then: nothing changed. (`MirrorReadCause`, `LeadReads`)
    pub fn read(&mut self, lba: u32, n: u32, into: &mut [u8]) -> ReadOut
        requires few { n ≤ TRANSFER_LIMIT }
        requires whole { length into.old ≡ 2048 * n }
        ensures cause { MirrorReadCause (mirror_shows A.Sectors B.Sectors self.old)
            (mirror_shows A.Sectors B.Sectors self.new) lba n result }
        ensures step { (s : Standing) → mirror_stands A.Sectors B.Sectors self.old s
            → ReadStep (mirror_stands A.Sectors B.Sectors self.new) s lba n into.new result }
        ensures underwent { SidesUnderwent A.Sectors B.Sectors self.old.a self.old.b self.new.a self.new.b }
    {
        if !self.following.on {
            return ReadOut::Off;
        }
        if self.lead_is_a {
            match read_on(&mut self.a, &mut self.b, &mut self.following, lba, n, into) {
                Led::Kept(out) => out,
                Led::Given(out) => {
                    self.lead_is_a = false;
                    out
                }
            }
        } else {
            match read_on(&mut self.b, &mut self.a, &mut self.following, lba, n, into) {
                Led::Kept(out) => out,
                Led::Given(out) => {
                    self.lead_is_a = true;
                    out
                }
            }
        }
    }

    /// Writes `n` sectors from sector `lba` on, on the lead and then on the other side where that is up. The answer is the lead's. A
    /// lead that is stopped gives the lead to the other side where that has all that the lead had.
    ///
    /// # Clauses
    ///
    /// - `cause`, `step`: `MirrorWriteCause`, with the marks of the table; `WriteStep`.
    /// - `underwent`: as of a read.
    ///
    /// # Answers
    ///
    /// The lead answers; where it was stopped and the other side may lead, that one answers (`WritesElsewhere`).
    ///
    /// - `Good`: the lead has written all. Then: so has the other side where it is up, or the blocks that it may lack are apart.
    ///   (`WritesBoth`)
    /// - `Unread`, `NoSpare`: the lead refused at this block. Then: those before it are apart. (`LeadRefuses`)
    /// - `NoUpdate`: the lead could not write its list. Then: all covered blocks are apart. (`LeadRefuses`)
    /// - `NotFormatted`, `Range`: the lead refused so. Then: nothing changed. (`LeadWrites`)
    /// - `Cut`, `Fault`: the lead was stopped, and the other side may not lead, or was stopped too. Then: the mirror is off.
    ///   (`WriteStopped`, `WritesElsewhere`)
    /// - `Off`: the mirror is off, or its lead. Then: nothing changed. (`MirrorWriteCause`, `LeadWrites`)
    pub fn write(&mut self, lba: u32, n: u32, from: &[u8]) -> WriteOut
        requires few { n ≤ TRANSFER_LIMIT }
        requires whole { length from.now ≡ 2048 * n }
        ensures cause { MirrorWriteCause (mirror_shows A.Sectors B.Sectors self.old)
            (mirror_shows A.Sectors B.Sectors self.new) lba n result }
        ensures step { (s : Standing) → mirror_stands A.Sectors B.Sectors self.old s
            → WriteStep (mirror_shows A.Sectors B.Sectors self.new).lead (mirror_stands A.Sectors B.Sectors self.new) s
            lba n from.now result }
        ensures underwent { SidesUnderwent A.Sectors B.Sectors self.old.a self.old.b self.new.a self.new.b }
    {
        if !self.following.on {
            return WriteOut::Off;
        }
        if self.lead_is_a {
            match write_on(&mut self.a, &mut self.b, &mut self.following, lba, n, from) {
                Led::Kept(out) => out,
                Led::Given(out) => {
                    self.lead_is_a = false;
                    out
                }
            }
        } else {
            match write_on(&mut self.b, &mut self.a, &mut self.following, lba, n, from) {
                Led::Kept(out) => out,
                Led::Given(out) => {
                    self.lead_is_a = true;
                    out
                }
            }
        }
    }

    /// Turns the power of both sides off and on again, and reads the record of each. Where it is not known who leads, the greater number
    /// does, and of equal ones side `a`; else the same side as before. The answer is that of the lead. The other side is up where it is
    /// ready with the lead's capacity, and every block is apart. Before it answers, the number of the lead is greater than any that the
    /// other side may have.
    ///
    /// # Clauses
    ///
    /// - `cause`, `step`: `MirrorPowerCause`: both sides wake, and one of them starts; `MirrorPowerStep`, from what both sides stood
    ///   for.
    /// - `underwent`: as of a read.
    ///
    /// # Answers
    ///
    /// - `Ready`: the lead is, its number is at least 2 and above any that the other side may have, and that one has at least 1 or
    ///   was stopped. Then: every block is apart; the other side is up where it is ready with this capacity. (`IsReadyNow`)
    /// - `NotFormatted`: so, and the lead is not formatted. Then: the other side is down. (`IsBareNow`)
    /// - `Unknown`: it is not known who leads and a record could not be read; or one is lost, and the lead was not given by hand or
    ///   its own is; or nothing is known of the record of a side that was stopped; or the lead could not get a greater number.
    ///   Then: the mirror is off, and nobody leads. (`NobodyLeads`)
    /// - `Cut`, `Fault`: the lead was stopped. Then: the mirror is off. (`LeadStops`, `LeadGoesOn`)
    pub fn power(&mut self) -> MirrorPowerOut
        ensures cause { MirrorPowerCause (mirror_shows A.Sectors B.Sectors self.old)
            (mirror_shows A.Sectors B.Sectors self.new) result }
        ensures step { (s t : Standing) → A.stands self.old.a s → B.stands self.old.b t
            → MirrorPowerStep (mirror_shows A.Sectors B.Sectors self.new) (mirror_stands A.Sectors B.Sectors self.new)
            (A.stands self.new.a) (B.stands self.new.b) s t result }
        ensures underwent { SidesUnderwent A.Sectors B.Sectors self.old.a self.old.b self.new.a self.new.b }
    {
        let room = &mut self.looked_at;
        if self.lead_is_a {
            match power_both(true, &mut self.a, &mut self.b, &mut self.following, room) {
                Led::Kept(out) => out,
                Led::Given(out) => {
                    self.lead_is_a = false;
                    out
                }
            }
        } else {
            match power_both(false, &mut self.b, &mut self.a, &mut self.following, room) {
                Led::Kept(out) => out,
                Led::Given(out) => {
                    self.lead_is_a = true;
                    out
                }
            }
        }
    }

    /// Gives the lead to a side by hand: to side `a`, or to side `b`. Its record is made one with a number above that of the other side,
    /// as far as that is known, and with at least 2. The mirror is off then until the next power on, which keeps this lead.
    ///
    /// # Clauses
    ///
    /// - `cause`, `step_a`, `step_b`: `GiveLeadCause`; `GiveStep` of the side that is meant, and the other one is as before.
    /// - `underwent`: as of a read.
    ///
    /// # Answers
    ///
    /// - `Given`: the record has such a number. Then: this side leads. (`IsGiven`)
    /// - `NoUpdate`: the record is lost, or the other side has the last number; the number that was due is told, or the last.
    ///   Then: who leads is as before. (`IsNotGiven`)
    /// - `Cut`, `Fault`: the side was stopped while its record was written. Then: who leads is as before. (`IsNotGiven`)
    /// - `Off`: exactly when the power of this side is off. Then: nothing changed. (`Gives`)
    pub fn give_lead(&mut self, to_a: bool) -> GiveOut
        ensures cause { GiveLeadCause (mirror_shows A.Sectors B.Sectors self.old)
            (mirror_shows A.Sectors B.Sectors self.new) to_a result }
        ensures step_a { (s : Standing) → A.stands self.old.a s → GiveStepOf to_a (A.stands self.new.a) s result }
        ensures step_b { (s : Standing) → B.stands self.old.b s
            → GiveStepOf (not to_a) (B.stands self.new.b) s result }
        ensures underwent { SidesUnderwent A.Sectors B.Sectors self.old.a self.old.b self.new.a self.new.b }
    {
        if to_a {
            if self.lead_is_a {
                return give_to(&mut self.a, &mut self.following);
            }
            let out = give_over(&mut self.a, &mut self.following);
            self.lead_is_a = is_given(out);
            return out;
        }
        if !self.lead_is_a {
            return give_to(&mut self.b, &mut self.following);
        }
        let out = give_over(&mut self.b, &mut self.following);
        self.lead_is_a = !is_given(out);
        out
    }

    /// Formats the lead anew, without a memory of what was defective, and where that is good the other side too. The answer is the lead's.
    /// Where both have as many blocks then, the other side is up and no block is apart.
    ///
    /// # Clauses
    ///
    /// - `cause`, `step`: `MirrorFormatCause`: the other side is formatted after a good format of the lead alone; `FormatStep`.
    /// - `underwent`: as of a read.
    ///
    /// # Answers
    ///
    /// - `Good`: the lead is formatted. Then: so is the other side, or it is down. (`FormatsBoth`)
    /// - `TooMany`, `NoUpdate`: the lead refused so. Then: the other side was not touched, and is down where the lead has no disc
    ///   now. (`FormatsLead`)
    /// - `Cut`, `Fault`: the lead was stopped. Then: the mirror is off. (`FormatStopped`)
    /// - `Off`: the mirror is off, or its lead. Then: nothing changed. (`MirrorFormatCause`, `LeadFormats`)
    pub fn format(&mut self) -> FormatOut
        ensures cause { MirrorFormatCause (mirror_shows A.Sectors B.Sectors self.old)
            (mirror_shows A.Sectors B.Sectors self.new) result }
        ensures step { (s : Standing) → mirror_stands A.Sectors B.Sectors self.old s
            → FormatStep (mirror_shows A.Sectors B.Sectors self.old).lead
            (mirror_shows A.Sectors B.Sectors self.new).lead
            (mirror_stands A.Sectors B.Sectors self.new) s (kinds.Full true) result }
        ensures underwent { SidesUnderwent A.Sectors B.Sectors self.old.a self.old.b self.new.a self.new.b }
    {
        if !self.following.on {
            return FormatOut::Off;
        }
        if self.lead_is_a {
            format_on(&mut self.a, &mut self.b, &mut self.following)
        } else {
            format_on(&mut self.b, &mut self.a, &mut self.following)
        }
    }

    /// Goes through all blocks in rising order, while the other side is up: each that is apart is copied from the lead to it, and each other
    /// that the lead lacks is written to the lead as the other side has it. Tells how many are apart still.
    ///
    /// # Clauses
    ///
    /// - `cause`, `step`: `ResyncCause`: each block was copied or mended in turn (`ResyncsBlock`), while the other side was up, and how
    ///   many are left; `ResyncStep`: the disc stays.
    /// - `underwent`: as of a read.
    ///
    /// # Answers
    ///
    /// - `Done`: all blocks were gone through. Then: each that was apart was copied where both sides could, and this many are left; each
    ///   other that the lead lacked was written to it where both could. (`ResyncsAll`, `CopiesBlock`, `MendsBlock`)
    /// - `NotFormatted`: the lead is not formatted. Then: nothing changed. (`ResyncsOn`)
    /// - `Cut`, `Fault`: the lead was stopped at a block, in the read of it or in the writing back. Then: the mirror is off.
    ///   (`ResyncStopped`)
    /// - `Off`: the mirror is off, or its lead. Then: nothing changed. (`ResyncCause`)
    pub fn resync(&mut self) -> Resync
        ensures cause { ResyncCause (mirror_shows A.Sectors B.Sectors self.old)
            (mirror_shows A.Sectors B.Sectors self.new) result }
        ensures step { (s : Standing) → mirror_stands A.Sectors B.Sectors self.old s
            → ResyncStep (mirror_stands A.Sectors B.Sectors self.new) s result }
        ensures underwent { SidesUnderwent A.Sectors B.Sectors self.old.a self.old.b self.new.a self.new.b }
    {
        if !self.following.on {
            return Resync::Off;
        }
        if self.lead_is_a {
            resync_on(
                &mut self.a,
                &mut self.b,
                &mut self.following,
                self.room.bytes_mut(),
            )
        } else {
            resync_on(
                &mut self.b,
                &mut self.a,
                &mut self.following,
                self.room.bytes_mut(),
            )
        }
    }

    /// Who leads, as far as it is known.
    ///
    /// # Clauses
    ///
    /// - as shown.
    ///
    /// # Answers
    ///
    /// - `A`, `B`: this side leads. (`leader_of`)
    /// - `Unknown`: no power on has told yet, or the last one could not. (`leader_of`)
    pub fn lead(&self) -> Leader
        ensures { result ≡ leader_of (mirror_shows A.Sectors B.Sectors self.now) }
    {
        if !self.following.who.known {
            return Leader::Unknown;
        }
        if self.lead_is_a {
            return Leader::A;
        }
        Leader::B
    }

    /// Whether the side that does not lead is up.
    ///
    /// # Clauses
    ///
    /// - as shown.
    ///
    /// # Answers
    ///
    /// - `true`, `false`: whether the other side is up. (`mirror_shows`)
    pub fn other_up(&self) -> bool
        ensures { result ≡ (mirror_shows A.Sectors B.Sectors self.now).up }
    {
        self.following.up
    }

    /// Whether a logical block is apart: the other side is not known to have what the lead has.
    ///
    /// # Clauses
    ///
    /// - as shown.
    ///
    /// # Answers
    ///
    /// - `true`, `false`: whether the block is apart, as each is while the other side is down. (`told_apart`)
    pub fn apart(&self, block: u32) -> bool
        ensures { result ≡ told_apart (mirror_shows A.Sectors B.Sectors self.now) block }
    {
        !self.following.up || self.following.table.is_apart(block)
    }
}
