//! The lines of the report, by kind: answers to commands, answers to other lines, last lines, and the data behind an
//! answer. Each puts exactly its text behind what is due; nothing else is touched.
mod commands;
mod data;
mod events;
mod last_lines;
mod mirror;
mod parts;

pub use commands::{digits_of, print_answer};
pub use events::print_event;
pub use last_lines::print_last;
pub use mirror::print_mirror;
pub use parts::print_line;

/// The answer to a line of the script that is no command.
#[derive(Clone, Copy, Debug, PartialEq, Eq)]
pub enum Event {
    /// The image was made anew.
    Pressed,
    /// There is no such geometry, and nothing was changed.
    NotPressed,
    /// The power is on, and the disc has n sectors.
    Ready {
        /// How many sectors the disc has.
        capacity: u32,
    },
    /// The power is on, and the disc is not formatted.
    NotFormatted,
    /// The power was cut.
    Cut,
    /// The block is dead now.
    Failed,
    /// The disc has no such block.
    NoSuchBlock,
    /// The wear or the cut is armed.
    Armed,
    /// As many blocks wear already as can.
    Full,
    /// No block is pending in the write cache.
    Idle,
    /// The oldest pending block was written.
    Written {
        /// Its first sector.
        lba: u32,
    },
    /// The oldest pending block could not be written: its home is dead, and so are all spares that are free for it.
    NoSpare {
        /// Its first sector.
        lba: u32,
    },
    /// The oldest pending block could not be written: its home is dead, and the secondary list could not be updated.
    NoUpdate,
    /// The power is off.
    Off,
    /// A scrub could read the next block.
    Readable {
        /// Its first sector.
        lba: u64,
    },
    /// A scrub could not read the next block: its home has no whole bytes.
    Unreadable {
        /// Its first sector.
        lba: u64,
    },
    /// A scrub of all blocks found n that cannot be read. They are told behind this line.
    Found {
        /// How many.
        count: u64,
    },
}

/// The answer to a line for a mirror of two discs.
#[derive(Clone, Copy, Debug, PartialEq, Eq)]
pub enum MirrorEvent {
    /// An answer that a line for one disc may have too.
    OfDisc {
        /// It.
        event: Event,
    },
    /// The write or the format was done.
    Good,
    /// The read was done. The sectors are told behind this line.
    Shows {
        /// The first of them.
        lba: u32,
    },
    /// A block cannot be read.
    Unread {
        /// Its first sector.
        lba: u32,
    },
    /// A block cannot be written: its home is dead, and so are all spares that are free for it.
    NoSpare {
        /// Its first sector.
        lba: u32,
    },
    /// A list, or the record of the lead, could not be updated.
    NoUpdate {
        /// Its counter, or its number.
        counter: u32,
    },
    /// The disc has no such sectors.
    Range {
        /// How many sectors it has.
        capacity: u32,
    },
    /// A format found more dead blocks than the disc may have.
    TooMany {
        /// How many.
        count: u32,
    },
    /// Blocks in which the other side may lack what the lead has.
    Left {
        /// How many.
        count: u32,
    },
    /// This side leads.
    Leads {
        /// Side a.
        on_a: bool,
    },
    /// Which side led last cannot be told.
    Unknown,
}

/// The last line of a report, by how the run ended.
#[derive(Clone, Copy, Debug, PartialEq, Eq)]
pub enum LastLine {
    /// The script has ended.
    End {
        /// How many lines had an answer.
        answered: u64,
    },
    /// A line is none of the script language.
    NotInLanguage {
        /// The line's number.
        line: u64,
    },
    /// A line has too many bytes.
    LineTooLong {
        /// The line's number.
        line: u64,
    },
    /// The script has too many bytes.
    ScriptTooLong,
    /// A line is to be answered, and the image holds no disc.
    NotADisc {
        /// The line's number.
        line: u64,
    },
}
