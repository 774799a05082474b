//! The drive's commands, as a table of their operation codes. Definitions, and their laws.
#![tactic(auto)]

ghost use Rattle.std.specs.Prelude.{◌≡◌, Some};
ghost use Rattle.model_commands.specs.declared.Operation.{Operation as Op};
ghost use Rattle.model_commands.specs.declared.TheConstants.{TRANSFER_LIMIT, DATA_LIMIT};
ghost use Rattle.model_commands.specs.Commands.{command, operation_with};

/// How many sectors a command reads or writes at most.
pub const TRANSFER_LIMIT: u32 = 1_024;

/// How many bytes of data a command takes at most: those of as many sectors as one moves.
pub const DATA_LIMIT: usize = 2_097_152;

/// The numbers that contracts share with the code.
pub fn limits_are_these()
    ensures transfer { TRANSFER_LIMIT ≡ 1024 }
    ensures bytes { DATA_LIMIT ≡ 2097152 }
{}

/// The commands that the drive knows, under the names of INCITS MMC and SPC.
#[derive(Clone, Copy, Debug, PartialEq, Eq)]
pub enum Operation {
    /// Is the drive ready to read and write?
    TestUnitReady,
    /// Why was the last command not done?
    RequestSense,
    /// Format the disc, or expand its spares.
    FormatUnit,
    /// What kind of drive is this?
    Inquiry,
    /// Give mode pages, behind a shorter header.
    ModeSense6,
    /// Load the disc, or take it out.
    StartStopUnit,
    /// Allow the disc to be taken out, or not.
    PreventAllowMediumRemoval,
    /// Which capacity has the disc, or can it have?
    ReadFormatCapacities,
    /// How many sectors has the disc?
    ReadCapacity10,
    /// Read sectors.
    Read10,
    /// Write sectors.
    Write10,
    /// Write sectors, and read them back.
    WriteAndVerify10,
    /// Can these sectors be read?
    Verify10,
    /// Write what is cached.
    SynchronizeCache,
    /// Which features has the drive?
    GetConfiguration,
    /// What has changed since the last time?
    GetEventStatusNotification,
    /// What kind of disc is in the drive?
    ReadDiscInformation,
    /// Set mode pages.
    ModeSelect10,
    /// Give mode pages.
    ModeSense10,
    /// Read sectors, up to a larger number.
    Read12,
    /// Write sectors, up to a larger number.
    Write12,
    /// Give what the disc says of itself.
    ReadDvdStructure,
    /// Set the speed of a stream.
    SetStreaming,
}

/// Each command has a code of its own, and is found by it. So the table has each command once.
pub fn each_command_has_its_own_code()
    ensures { (operation : Op) → operation_with (command operation).code ≡ Some operation }
{}
