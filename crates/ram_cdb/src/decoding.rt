//! What a command block asks for, or why it is refused.
ghost use Rattle.std.specs.Prelude.{◌≡◌, ◌+◌, ◌<◌, ◌≤◌, ◌==◌, ◌||◌, not, true, false, length, IfOk};
ghost use Rattle.std.specs.Bool.{OnFalse};
ghost use Rattle.model_commands.specs.Commands.{command, field};
ghost use Rattle.model_commands.specs.Fields.{flag, bits};
ghost use Rattle.model_modes.specs.Pages.{is_page_code};
ghost use Rattle.model_commands.specs.declared.Operation.TheVariants.{FormatUnit};
ghost use Rattle.model_cdb.specs.declared.commands.Command.TheVariants as commands;
ghost use Rattle.model_cdb.specs.Decoding.{decoded, decoded_as, has_refused_field, asks_for_saved_values, has_wrong_length, has_refused_parameters, HasItsList, meaning, IsWithinLimits};

use crate::{Command, Kind, TRANSFER_LIMIT, command_bytes, data_bytes, operation};
use model_commands::Operation;
use ram_bytes::{Cdb, get_u16, get_u32};
use ram_modes::{is_no_list_length, is_page_code};
use ram_sense::Sense;
use ram_sense::codes::{
    INVALID_FIELD_IN_COMMAND, INVALID_FIELD_IN_PARAMETERS, INVALID_OPERATION_CODE,
    PARAMETER_LIST_LENGTH_ERROR, SAVING_NOT_SUPPORTED,
};

/// What a command block asks for, with the command's data in `payload`, or the first refusal that applies: 5/20/00 for an
/// unknown operation code, and then those of [`decode_as`]. (After INCITS MMC and SPC.)
///
/// # Clauses
///
/// - `exact`: `decoded`: an unknown code is 5/20/00; else as `decode_as`.
///
/// # Answers
///
/// `refusals_have_their_causes` proves of each refusal that it is the answer exactly when it applies and none before it does.
///
/// - `Ok`: no reason applies. Then: what the command block asks for, within the limits of a command. (`decoded`,
///   `IsWithinLimits`)
/// - `Err`: 5/20/00 for a code that is not in the table, else the first reason of `decode_as`. Then: the sense. (`decoded_by`)
/// - `TestUnitReady`, `ReadCapacity`, `Synchronize`, `ModeSelect`, `Streaming`: the command of that name, which has no field that
///   is looked at. (`meaning`)
/// - `RequestSense`, `FormatCapacities`, `DiscInformation`: the command of that name, with its allocation length. (`meaning`)
/// - `Inquiry`: INQUIRY, of vital product data or not. (`meaning`)
/// - `Events`: GET EVENT STATUS NOTIFICATION, and whether events of the medium are asked for. (`meaning`)
/// - `Format`: FORMAT UNIT of format type 0: a rewriting one where FOV and DCRT are set, else a full one. (`meaning`,
///   `format_kind`)
/// - `Expand`: FORMAT UNIT of format type 1, with the number of sectors that the disc is to have. (`meaning`)
/// - `StartStop`: START STOP UNIT, with its bits; with a power condition nothing is to be loaded or ejected. (`meaning`)
/// - `Prevent`: PREVENT ALLOW MEDIUM REMOVAL, with its bit. (`meaning`)
/// - `Read`: READ(10) or READ(12). Then: at most 1,024 sectors. (`meaning`, `IsWithinLimits`)
/// - `Write`: WRITE(10), WRITE(12), or WRITE AND VERIFY(10), which is one with FUA. Then: at most 1,024 sectors, and the data of
///   exactly that many. (`meaning`, `IsWithinLimits`)
/// - `Verify`: VERIFY(10). Then: at most 65,535 sectors. (`meaning`, `IsWithinLimits`)
/// - `Configuration`: GET CONFIGURATION. Then: its request type is 0 to 2. (`meaning`, `IsWithinLimits`)
/// - `ModeSense`: MODE SENSE(6), whose header is the shorter one, or MODE SENSE(10). Then: its page control is 0 to 2, its page code one of the drive's or that of all. (`meaning`,
///   `IsWithinLimits`)
/// - `Structure`: READ DVD STRUCTURE, with its format. (`meaning`)
pub fn decode(cdb: &Cdb, payload: &[u8]) -> Result<Command, Sense>
    ensures exact { result ≡ decoded cdb.now payload.now }
    ensures limits { IfOk result (IsWithinLimits payload.now) }
{
    match operation(cdb.operation_code()) {
        Some(operation) => decode_as(operation, cdb.bytes(), payload),
        None => Err(INVALID_OPERATION_CODE),
    }
}

/// The same for a command block whose operation is known: 5/24/00 where it is too short or has a field that is not taken,
/// then 5/39/00 where saved mode pages are asked for, then 5/1A/00 where the data have another length than the command
/// takes, then 5/26/00 where the parameter list of FORMAT UNIT is not taken. (After INCITS MMC and SPC.)
///
/// # Clauses
///
/// - `exact`: `decoded_as`: the first of the reasons in `refusals` that applies, in their order; else the command of `meaning`,
///   the table of fields. So every command block and all data have just one answer, and each answer comes exactly where the
///   definition says.
///
/// # Answers
///
/// As for `decode`, of a command of the table; these are its reasons, in their order.
///
/// - `Ok`: no reason applies. Then: what the command block asks for. (`decoded_as`)
/// - `Err`: the first that applies: 5/24/00 a field, 5/39/00 saved pages, 5/1A/00 the length of the data, 5/26/00 the parameter
///   list. Then: the sense. (`refusals`)
pub fn decode_as(operation: Operation, cdb: &[u8], payload: &[u8]) -> Result<Command, Sense>
    ensures exact { result ≡ decoded_as operation cdb.now payload.now }
    ensures limits { IfOk result (IsWithinLimits payload.now) }
{
    if cdb.len() < command_bytes(operation) || has_refused_field(operation, cdb) {
        return Err(INVALID_FIELD_IN_COMMAND);
    }
    if asks_for_saved_values(operation, cdb) {
        return Err(SAVING_NOT_SUPPORTED);
    }
    if has_wrong_length(operation, cdb, payload.len()) {
        return Err(PARAMETER_LIST_LENGTH_ERROR);
    }
    if has_refused_parameters(operation, payload) {
        return Err(INVALID_FIELD_IN_PARAMETERS);
    }
    Ok(meaning(operation, cdb, payload))
}

// Whether a field of a command block that is long enough has a value that is not taken.
fn has_refused_field(operation: Operation, cdb: &[u8]) -> bool
    requires { (command operation).bytes ≤ length cdb.now }
    ensures { result ≡ has_refused_field operation cdb.now }
{
    match operation {
        Operation::FormatUnit => {
            !flag(cdb, 1, 4) || bits(cdb, 1, 0, 3) != 1 || bits(cdb, 1, 5, 3) != 0
        }
        Operation::Inquiry => cdb[2] != 0,
        Operation::Read10 | Operation::Write10 | Operation::WriteAndVerify10 => {
            u32::from(get_u16(cdb, 7)) > TRANSFER_LIMIT
        }
        Operation::Verify10 => flag(cdb, 1, 1),
        Operation::GetConfiguration => bits(cdb, 1, 0, 2) == 3,
        Operation::GetEventStatusNotification => !flag(cdb, 1, 0),
        Operation::ReadDiscInformation => bits(cdb, 1, 0, 3) != 0,
        Operation::ModeSelect10 => !flag(cdb, 1, 4) || flag(cdb, 1, 0),
        Operation::ModeSense6 | Operation::ModeSense10 => !is_page_code(bits(cdb, 2, 0, 6)),
        Operation::Read12 | Operation::Write12 => get_u32(cdb, 6) > TRANSFER_LIMIT,
        Operation::ReadDvdStructure => cdb[7] != 0x08 && cdb[7] != 0x0a,
        Operation::TestUnitReady
        | Operation::RequestSense
        | Operation::StartStopUnit
        | Operation::PreventAllowMediumRemoval
        | Operation::ReadFormatCapacities
        | Operation::ReadCapacity10
        | Operation::SynchronizeCache
        | Operation::SetStreaming => false,
    }
}

// Whether the saved values of mode pages are asked for.
fn asks_for_saved_values(operation: Operation, cdb: &[u8]) -> bool
    requires { (command operation).bytes ≤ length cdb.now }
    ensures { result ≡ asks_for_saved_values operation cdb.now }
{
    matches!(operation, Operation::ModeSense6 | Operation::ModeSense10) && bits(cdb, 2, 6, 2) == 3
}

// Whether n bytes of data are not what the command takes.
fn has_wrong_length(operation: Operation, cdb: &[u8], given: usize) -> bool
    requires { (command operation).bytes ≤ length cdb.now }
    ensures exact { result ≡ has_wrong_length operation cdb.now given }
    ensures list { OnFalse result (HasItsList operation given) }
{
    match operation {
        Operation::ModeSelect10 => {
            given != data_bytes(operation, cdb) || is_no_list_length(given)
        }
        _ => given != data_bytes(operation, cdb),
    }
}

// Whether the parameter list of a format is not taken.
fn has_refused_parameters(operation: Operation, payload: &[u8]) -> bool
    requires { HasItsList operation (length payload.now) }
    ensures { result ≡ has_refused_parameters operation payload.now }
{
    match operation {
        Operation::FormatUnit => get_u16(payload, 2) != 8 || bits(payload, 8, 2, 6) > 1,
        _ => false,
    }
}

// What a command asks for that is not refused.
fn meaning(operation: Operation, cdb: &[u8], payload: &[u8]) -> Command
    requires long { (command operation).bytes ≤ length cdb.now }
    requires list { HasItsList operation (length payload.now) }
    ensures { result ≡ meaning operation cdb.now payload.now }
{
    match operation {
        Operation::TestUnitReady => Command::TestUnitReady,
        Operation::RequestSense => Command::RequestSense {
            alloc: u32::from(cdb[4]),
        },
        Operation::FormatUnit => format(cdb, payload),
        Operation::Inquiry => Command::Inquiry {
            vital: flag(cdb, 1, 0),
            alloc: u32::from(get_u16(cdb, 3)),
        },
        Operation::ModeSense6 => mode_sense(true, cdb, u32::from(cdb[4])),
        Operation::StartStopUnit => Command::StartStop {
            start: flag(cdb, 4, 0),
            eject: flag(cdb, 4, 1) && bits(cdb, 4, 4, 4) == 0,
        },
        Operation::PreventAllowMediumRemoval => Command::Prevent {
            on: flag(cdb, 4, 0),
        },
        Operation::ReadFormatCapacities => Command::FormatCapacities {
            alloc: u32::from(get_u16(cdb, 7)),
        },
        Operation::ReadCapacity10 => Command::ReadCapacity,
        Operation::Read10 => read(cdb, u32::from(get_u16(cdb, 7))),
        Operation::Write10 => write(cdb, u32::from(get_u16(cdb, 7)), flag(cdb, 1, 3)),
        Operation::WriteAndVerify10 => write(cdb, u32::from(get_u16(cdb, 7)), true),
        Operation::Verify10 => verify(cdb),
        Operation::SynchronizeCache => Command::Synchronize,
        Operation::GetConfiguration => configuration(cdb),
        Operation::GetEventStatusNotification => Command::Events {
            media: flag(cdb, 4, 4),
            alloc: u32::from(get_u16(cdb, 7)),
        },
        Operation::ReadDiscInformation => Command::DiscInformation {
            alloc: u32::from(get_u16(cdb, 7)),
        },
        Operation::ModeSelect10 => Command::ModeSelect,
        Operation::ModeSense10 => mode_sense(false, cdb, u32::from(get_u16(cdb, 7))),
        Operation::Read12 => read(cdb, get_u32(cdb, 6)),
        Operation::Write12 => write(cdb, get_u32(cdb, 6), flag(cdb, 1, 3)),
        Operation::ReadDvdStructure => Command::Structure {
            format: cdb[7],
            alloc: u32::from(get_u16(cdb, 8)),
        },
        Operation::SetStreaming => Command::Streaming,
    }
}

// A format, or an expansion, by the type in its parameter list.
fn format(cdb: &[u8], payload: &[u8]) -> Command
    requires long { 6 ≤ length cdb.now }
    requires list { length payload.now ≡ 12 }
    ensures { result ≡ meaning FormatUnit cdb.now payload.now }
{
    if bits(payload, 8, 2, 6) == 1 {
        let capacity = get_u32(payload, 4);
        Command::Expand { capacity }
    } else if flag(payload, 1, 7) && flag(payload, 1, 5) {
        Command::Format {
            kind: Kind::Rewrite,
        }
    } else {
        let drop_sdl = flag(cdb, 1, 3);
        Command::Format {
            kind: Kind::Full { drop_sdl },
        }
    }
}

fn read(cdb: &[u8], n: u32) -> Command
    requires { 10 ≤ length cdb.now }
    ensures { result ≡ commands.Read (field 2 4 cdb.now) n }
{
    let lba = get_u32(cdb, 2);
    Command::Read { lba, n }
}

fn write(cdb: &[u8], n: u32, fua: bool) -> Command
    requires { 10 ≤ length cdb.now }
    ensures { result ≡ commands.Write (field 2 4 cdb.now) n fua }
{
    let lba = get_u32(cdb, 2);
    Command::Write { lba, n, fua }
}

fn verify(cdb: &[u8]) -> Command
    requires { 10 ≤ length cdb.now }
    ensures { result ≡ commands.Verify (field 2 4 cdb.now) (field 7 2 cdb.now) }
{
    Command::Verify {
        lba: get_u32(cdb, 2),
        n: u32::from(get_u16(cdb, 7)),
    }
}

fn configuration(cdb: &[u8]) -> Command
    requires { 10 ≤ length cdb.now }
    ensures { result ≡ commands.Configuration (bits 1 0 2 cdb.now) (field 2 2 cdb.now) (field 7 2 cdb.now) }
{
    Command::Configuration {
        rt: bits(cdb, 1, 0, 2),
        start: get_u16(cdb, 2),
        alloc: u32::from(get_u16(cdb, 7)),
    }
}

fn mode_sense(short: bool, cdb: &[u8], alloc: u32) -> Command
    requires { 6 ≤ length cdb.now }
    ensures { result ≡ commands.ModeSense short (bits 2 6 2 cdb.now) (bits 2 0 6 cdb.now) alloc }
{
    Command::ModeSense {
        short,
        control: bits(cdb, 2, 6, 2),
        page: bits(cdb, 2, 0, 6),
        alloc,
    }
}

// The bit of this place, from 0 for the lowest, in this byte.
fn flag(bytes: &[u8], at: usize, bit: u32) -> bool
    requires inside { at < length bytes.now }
    requires bit { bit < 8 }
    ensures { result ≡ flag at bit bytes.now }
{
    bytes[at] >> bit & 1 == 1
}

// The number in n of the bits of this byte, from this place on.
fn bits(bytes: &[u8], at: usize, bit: u32, width: u32) -> u8
    requires inside { at < length bytes.now }
    requires bit { bit < 8 }
    requires width { width < 8 }
    ensures { result ≡ bits at bit width bytes.now }
{
    (bytes[at] >> bit) % (1 << width)
}
