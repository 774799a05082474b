//! What a command block asks for.

pub use model_drive::Kind;

/// What a command block asks for, under the names of INCITS MMC and SPC.
#[derive(Clone, Copy, Debug, PartialEq, Eq)]
pub enum Command {
    /// Is the drive ready to read and write?
    TestUnitReady,
    /// Why was the last command not done?
    RequestSense {
        /// The allocation length: how many bytes of the reply are asked for at most.
        alloc: u32,
    },
    /// Format the disc.
    Format {
        /// What the format is to do.
        kind: Kind,
    },
    /// Make the supplementary spare area larger.
    Expand {
        /// How many sectors the disc is to have then.
        capacity: u32,
    },
    /// What kind of drive is this?
    Inquiry {
        /// The EVPD bit: in place of that, which pages of vital product data are there?
        vital: bool,
        /// The allocation length.
        alloc: u32,
    },
    /// Load the disc, or take it out.
    StartStop {
        /// The Start bit: the disc is to be loaded.
        start: bool,
        /// The LoEj bit, without a power condition: the disc is to be loaded or taken out. Else nothing is to be done.
        eject: bool,
    },
    /// Allow the disc to be taken out, or not.
    Prevent {
        /// Whether removal is prevented.
        on: bool,
    },
    /// Which capacity has the disc, or can it have?
    FormatCapacities {
        /// The allocation length.
        alloc: u32,
    },
    /// How many sectors has the disc?
    ReadCapacity,
    /// Read sectors.
    Read {
        /// The first sector.
        lba: u32,
        /// How many sectors, at most 1,024.
        n: u32,
    },
    /// Write sectors.
    Write {
        /// The first sector.
        lba: u32,
        /// How many sectors, at most 1,024. The data are n sectors.
        n: u32,
        /// Whether they are to reach the medium before the answer.
        fua: bool,
    },
    /// Can these sectors be read?
    Verify {
        /// The first sector.
        lba: u32,
        /// How many sectors, at most 65,535.
        n: u32,
    },
    /// Write what is cached.
    Synchronize,
    /// Which features has the drive?
    Configuration {
        /// Which features are asked for: all, the current ones, or one; from 0 to 2.
        rt: u8,
        /// The first feature.
        start: u16,
        /// The allocation length.
        alloc: u32,
    },
    /// What has happened since the last time?
    Events {
        /// Whether events of the medium are asked for.
        media: bool,
        /// The allocation length.
        alloc: u32,
    },
    /// What kind of disc is in the drive?
    DiscInformation {
        /// The allocation length.
        alloc: u32,
    },
    /// Set mode pages, by the command's data.
    ModeSelect,
    /// Give mode pages.
    ModeSense {
        /// Whether they are to come behind the shorter header, which has four bytes.
        short: bool,
        /// The page control, from 0 to 2: current, changeable or default values.
        control: u8,
        /// The code of a page, or that of all.
        page: u8,
        /// The allocation length.
        alloc: u32,
    },
    /// Give what the disc says of itself.
    Structure {
        /// Which structure: 08h or 0Ah.
        format: u8,
        /// The allocation length.
        alloc: u32,
    },
    /// Set the speed of a stream, by the command's data.
    Streaming,
}
