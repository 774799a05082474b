//! Command blocks: which the drive knows, and how many bytes of data go with each.
//!
//! A target decodes a command in two steps, since the attention of a power on is told after an unknown code and before all else:
//! `operation` finds the row of the table, and `decode_as` reads the fields. `decode` is both at once.
//!
//! # What is proved
//!
//! - both, `limits`: of a command that is not refused: it moves at most 1,024 sectors (a verification at most 65,535); the data
//!   of a write are its sectors; page control, page code and kind of feature request are those that the drive has.
//!
//! The definitions are in `model_cdb/specs/Decoding.antt`. The reasons are a list, each with when it applies: 5/24/00, where the
//! block is too short or a field has a value that is not taken; 5/39/00, where saved mode pages are asked for; 5/1A/00, where the
//! data have another length; 5/26/00, where the list of a format is not taken. A list of mode pages is looked at where the pages
//! are (`ram_modes`).
//!
//! # What is neither
//!
//! Whether the drive does what a command asks: that is `model_target` and `ram_mmc`.
//!
//! # What is trusted
//!
//! The tables in `model_commands/specs` and `model_cdb/specs/Decoding.antt`, after INCITS MMC and SPC, and `byteorder` of the
//! kit. Which values of a field are taken, and the order of the reasons, are this project's own.
#![tactic(auto)]

ghost use Rattle.std.specs.Prelude.{◌≡◌, ◌↔◌, ◌*◌, ◌≤◌, length, IsTrue, IsSome, nat_le, if◌then◌else◌};
ghost use Rattle.model_commands.specs.declared.TheConstants.{DATA_LIMIT, TRANSFER_LIMIT};
ghost use Rattle.ram_cdb.specs.declared.TheConstants.{FORMAT_LIST_BYTES, STREAMING_LIST_BYTES};
ghost use Rattle.model_commands.specs.Commands.{command, operation_with, operation_of, out_length_of, data_length};

pub mod decoding;
pub mod laws;

pub use decoding::{decode, decode_as};
pub use model_cdb::{Command, Kind};
use model_commands::Operation;
pub use model_commands::{DATA_LIMIT, TRANSFER_LIMIT};
use ram_bytes::{Cdb, SECTOR_BYTES, get_u16, get_u32};

/// How many bytes the parameter list of FORMAT UNIT has.
pub const FORMAT_LIST_BYTES: usize = 12;

/// How many bytes the parameter data of SET STREAMING have.
pub const STREAMING_LIST_BYTES: usize = 28;

/// The numbers that contracts share with the code.
///
/// # Clauses
///
/// - the parameter list of FORMAT UNIT has 12 bytes, and that of SET STREAMING 28. The law of the same name in `model_commands` has
///   the other two numbers.
pub fn limits_are_these()
    ensures format { FORMAT_LIST_BYTES ≡ 12 }
    ensures streaming { STREAMING_LIST_BYTES ≡ 28 }
{}

/// Whether the drive knows the command, by its operation code alone.
///
/// # Clauses
///
/// - exactly whether the table has the operation code.
///
/// # Answers
///
/// - `true`, `false`: `true` exactly when the operation code is in the table. (`operation_of`)
pub fn known(cdb: &Cdb) -> bool
    ensures { IsTrue result ↔ IsSome (operation_of cdb.now) }
{
    operation(cdb.operation_code()).is_some()
}

/// How many bytes of data the command takes, at most [`DATA_LIMIT`]. 0 where the operation code is unknown, the
/// command block is too short, or more than [`TRANSFER_LIMIT`] sectors would be written.
///
/// # Clauses
///
/// - `exact`: how many bytes of data go with the command, by the table and its fields; none where the code is unknown, the block
///   is too short, or more than 1,024 sectors are named.
/// - `bound`: at most 2,097,152 bytes.
pub fn out_length(cdb: &Cdb) -> usize
    ensures exact { result ≡ out_length_of cdb.now }
    ensures bound { result ≤ DATA_LIMIT }
{
    let Some(operation) = operation(cdb.operation_code()) else {
        return 0;
    };
    if cdb.len() < command_bytes(operation) {
        return 0;
    }
    data_bytes(operation, cdb.bytes())
}

/// The command with this operation code.
///
/// # Clauses
///
/// - the command with this operation code, and none where the table has none.
///
/// # Answers
///
/// - `Some`, `None`: the command with this code; `None` exactly when the table has none. (`operation_with`)
/// - `TestUnitReady`, `RequestSense`, `FormatUnit`, `Inquiry`, `StartStopUnit`, `PreventAllowMediumRemoval`: the code is that of
///   the command. (`operation_with`)
/// - `ReadFormatCapacities`, `ReadCapacity10`, `Read10`, `Write10`, `WriteAndVerify10`, `Verify10`, `Read12`, `Write12`:
///   likewise. (`operation_with`)
/// - `SynchronizeCache`, `GetConfiguration`, `GetEventStatusNotification`, `ReadDiscInformation`, `ModeSelect10`, `ModeSense6`,
///   `ModeSense10`, `ReadDvdStructure`, `SetStreaming`: likewise. (`operation_with`)
pub fn operation(code: u8) -> Option<Operation>
    ensures { result ≡ operation_with code }
{
    match code {
        0x00 => Some(Operation::TestUnitReady),
        0x03 => Some(Operation::RequestSense),
        0x04 => Some(Operation::FormatUnit),
        0x12 => Some(Operation::Inquiry),
        0x1a => Some(Operation::ModeSense6),
        0x1b => Some(Operation::StartStopUnit),
        0x1e => Some(Operation::PreventAllowMediumRemoval),
        0x23 => Some(Operation::ReadFormatCapacities),
        0x25 => Some(Operation::ReadCapacity10),
        0x28 => Some(Operation::Read10),
        0x2a => Some(Operation::Write10),
        0x2e => Some(Operation::WriteAndVerify10),
        0x2f => Some(Operation::Verify10),
        0x35 => Some(Operation::SynchronizeCache),
        0x46 => Some(Operation::GetConfiguration),
        0x4a => Some(Operation::GetEventStatusNotification),
        0x51 => Some(Operation::ReadDiscInformation),
        0x55 => Some(Operation::ModeSelect10),
        0x5a => Some(Operation::ModeSense10),
        0xa8 => Some(Operation::Read12),
        0xaa => Some(Operation::Write12),
        0xad => Some(Operation::ReadDvdStructure),
        0xb6 => Some(Operation::SetStreaming),
        _ => None,
    }
}

/// How many bytes a command block of this command has at least.
///
/// # Clauses
///
/// - how many bytes a command block of this command has at least, by the table.
pub fn command_bytes(operation: Operation) -> usize
    ensures { result ≡ (command operation).bytes }
{
    match operation {
        Operation::TestUnitReady
        | Operation::RequestSense
        | Operation::FormatUnit
        | Operation::Inquiry
        | Operation::ModeSense6
        | Operation::StartStopUnit
        | Operation::PreventAllowMediumRemoval => 6,
        Operation::ReadFormatCapacities
        | Operation::ReadCapacity10
        | Operation::Read10
        | Operation::Write10
        | Operation::WriteAndVerify10
        | Operation::Verify10
        | Operation::SynchronizeCache
        | Operation::GetConfiguration
        | Operation::GetEventStatusNotification
        | Operation::ReadDiscInformation
        | Operation::ModeSelect10
        | Operation::ModeSense10 => 10,
        Operation::Read12
        | Operation::Write12
        | Operation::ReadDvdStructure
        | Operation::SetStreaming => 12,
    }
}

/// How many bytes of data the command takes, by a command block that is long enough.
///
/// # Clauses
///
/// - `exact`: how many bytes of data go with the command, by the table and its fields; none where the code is unknown, the block
///   is too short, or more than 1,024 sectors are named.
/// - `bound`: at most 2,097,152 bytes.
pub fn data_bytes(operation: Operation, cdb: &[u8]) -> usize
    requires { (command operation).bytes ≤ length cdb.now }
    ensures exact { result ≡ data_length (command operation).taken cdb.now }
    ensures bound { result ≤ DATA_LIMIT }
{
    match operation {
        Operation::FormatUnit => FORMAT_LIST_BYTES,
        Operation::Write10 | Operation::WriteAndVerify10 => {
            sectors_bytes(u32::from(get_u16(cdb, 7)))
        }
        Operation::Write12 => sectors_bytes(get_u32(cdb, 6)),
        Operation::ModeSelect10 => get_u16(cdb, 7) as usize,
        Operation::SetStreaming => STREAMING_LIST_BYTES,
        Operation::TestUnitReady
        | Operation::RequestSense
        | Operation::Inquiry
        | Operation::ModeSense6
        | Operation::StartStopUnit
        | Operation::PreventAllowMediumRemoval
        | Operation::ReadFormatCapacities
        | Operation::ReadCapacity10
        | Operation::Read10
        | Operation::Verify10
        | Operation::SynchronizeCache
        | Operation::GetConfiguration
        | Operation::GetEventStatusNotification
        | Operation::ReadDiscInformation
        | Operation::ModeSense10
        | Operation::Read12
        | Operation::ReadDvdStructure => 0,
    }
}

// How many bytes n sectors have; 0 where they are more than a command writes.
fn sectors_bytes(count: u32) -> usize
    ensures exact { result ≡ (if nat_le count TRANSFER_LIMIT then count * 2048 else 0) }
    ensures bound { result ≤ DATA_LIMIT }
{
    if count <= TRANSFER_LIMIT {
        count as usize * SECTOR_BYTES
    } else {
        0
    }
}
