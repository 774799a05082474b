//! What a line for a mirror is answered, and how each answer of a call is told.
ghost use Rattle.std.specs.Prelude.{◌≡◌};
ghost use Rattle.ram_pair.specs.Told.{read_told, write_told, power_told, format_told, resync_told, lead_told, give_told, fail_told, wear_told};

use ram_medium::{Arm, FailEnd};
use ram_mirror::{GiveOut, Leader, MirrorPowerOut, Resync};
use ram_report::{Event, MirrorEvent};
use ram_sectors::{FormatOut, ReadOut, WriteOut};

/// What a line for a mirror is answered.
#[derive(Clone, Copy, Debug, PartialEq, Eq)]
pub enum Told {
    /// Nothing: it says nothing.
    Nothing,
    /// This.
    Event(MirrorEvent),
}

/// The power was cut. A failure would be told so too, but it ends the run, by the count of the image that failed.
const CUT: MirrorEvent = MirrorEvent::OfDisc { event: Event::Cut };

/// The power is off.
const OFF: MirrorEvent = MirrorEvent::OfDisc { event: Event::Off };

/// The disc is not formatted.
const NOT_FORMATTED: MirrorEvent = MirrorEvent::OfDisc {
    event: Event::NotFormatted,
};

/// How a read from sector `lba` on is told.
pub(crate) fn read_told(lba: u32, out: ReadOut) -> MirrorEvent
    ensures { result ≡ read_told lba out }
{
    match out {
        ReadOut::Good => MirrorEvent::Shows { lba },
        ReadOut::NotFormatted => NOT_FORMATTED,
        ReadOut::Range { capacity } => MirrorEvent::Range { capacity },
        ReadOut::Unread { lba, .. } => MirrorEvent::Unread { lba },
        ReadOut::Cut | ReadOut::Fault => CUT,
        ReadOut::Off => OFF,
    }
}

/// How a write is told.
pub(crate) fn write_told(out: WriteOut) -> MirrorEvent
    ensures { result ≡ write_told out }
{
    match out {
        WriteOut::Good => MirrorEvent::Good,
        WriteOut::NotFormatted => NOT_FORMATTED,
        WriteOut::Range { capacity } => MirrorEvent::Range { capacity },
        WriteOut::Unread { lba, .. } => MirrorEvent::Unread { lba },
        WriteOut::NoSpare { lba } => MirrorEvent::NoSpare { lba },
        WriteOut::NoUpdate { counter } => MirrorEvent::NoUpdate { counter },
        WriteOut::Cut | WriteOut::Fault => CUT,
        WriteOut::Off => OFF,
    }
}

/// How the turning on of the power is told.
pub(crate) fn power_told(out: MirrorPowerOut) -> MirrorEvent
    ensures { result ≡ power_told out }
{
    match out {
        MirrorPowerOut::Ready { capacity } => MirrorEvent::OfDisc {
            event: Event::Ready { capacity },
        },
        MirrorPowerOut::NotFormatted => NOT_FORMATTED,
        MirrorPowerOut::Unknown => MirrorEvent::Unknown,
        MirrorPowerOut::Cut | MirrorPowerOut::Fault => CUT,
    }
}

/// How a format is told.
pub(crate) fn format_told(out: FormatOut) -> MirrorEvent
    ensures { result ≡ format_told out }
{
    match out {
        FormatOut::Good => MirrorEvent::Good,
        FormatOut::TooMany { found } => MirrorEvent::TooMany { count: found },
        FormatOut::NoUpdate { counter } => MirrorEvent::NoUpdate { counter },
        FormatOut::Cut | FormatOut::Fault => CUT,
        FormatOut::Off => OFF,
    }
}

/// How a resynchronisation is told.
pub(crate) fn resync_told(out: Resync) -> MirrorEvent
    ensures { result ≡ resync_told out }
{
    match out {
        Resync::Done { left } => MirrorEvent::Left { count: left },
        Resync::NotFormatted => NOT_FORMATTED,
        Resync::Cut | Resync::Fault => CUT,
        Resync::Off => OFF,
    }
}

/// How it is told who leads.
pub(crate) fn lead_told(leader: Leader) -> MirrorEvent
    ensures { result ≡ lead_told leader }
{
    match leader {
        Leader::A => MirrorEvent::Leads { on_a: true },
        Leader::B => MirrorEvent::Leads { on_a: false },
        Leader::Unknown => MirrorEvent::Unknown,
    }
}

/// How it is told that the lead was given to this side by hand.
pub(crate) fn give_told(to_a: bool, out: GiveOut) -> MirrorEvent
    ensures { result ≡ give_told to_a out }
{
    match out {
        GiveOut::Given => MirrorEvent::Leads { on_a: to_a },
        GiveOut::NoUpdate { counter } => MirrorEvent::NoUpdate { counter },
        GiveOut::Cut | GiveOut::Fault => CUT,
        GiveOut::Off => OFF,
    }
}

/// How the failure of a block is told.
pub(crate) fn fail_told(end: FailEnd) -> MirrorEvent
    ensures { result ≡ fail_told end }
{
    match end {
        FailEnd::Done => MirrorEvent::OfDisc {
            event: Event::Failed,
        },
        FailEnd::NoBlock { .. } => MirrorEvent::OfDisc {
            event: Event::NoSuchBlock,
        },
        FailEnd::Failed => CUT,
    }
}

/// How the arming of a block is told.
pub(crate) fn wear_told(end: Arm) -> MirrorEvent
    ensures { result ≡ wear_told end }
{
    match end {
        Arm::Set => MirrorEvent::OfDisc {
            event: Event::Armed,
        },
        Arm::NoBlock { .. } => MirrorEvent::OfDisc {
            event: Event::NoSuchBlock,
        },
        Arm::Full => MirrorEvent::OfDisc { event: Event::Full },
    }
}
