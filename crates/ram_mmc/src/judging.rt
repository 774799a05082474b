//! Whether a command is done, or the first reason why not.

ghost use Rattle.std.specs.Prelude.{◌≡◌, IfOk};
ghost use Rattle.model_cdb.specs.Decoding.{IsWithinLimits};
ghost use Rattle.model_target.specs.Host.{is_told, passes_attention};
ghost use Rattle.model_target.specs.Judging.{ejects, needs_disc, needs_format, asked_by, IsAllowed, IsJudgedBy};
ghost use Rattle.ram_mmc.specs.Looks.{CanBeDone};

use model_commands::Operation;
use model_target::Host;
use ram_cdb::{Command, decode_as};
use ram_modes::Modes;
use ram_sense::Sense;
use ram_sense::codes::{
    INVALID_OPERATION_CODE, MEDIUM_FORMAT_CORRUPTED, MEDIUM_NOT_PRESENT, POWER_ON_OCCURRED,
    REMOVAL_PREVENTED,
};

/// What a command block of this operation asks for while the power is on, with the command's data in `payload`, or the first
/// reason against it: that it is unknown, the attention, those of the block and its data, and those of the disc.
pub fn judge(
    host: &Host,
    formatted: bool,
    operation: Option<Operation>,
    cdb: &[u8],
    payload: &[u8],
) -> Result<Command, Sense>
    ensures judged { IsJudgedBy host.now formatted payload.now
        (asked_by host.now operation cdb.now payload.now) result }
    ensures limits { IfOk result (IsWithinLimits payload.now) }
    ensures can { IfOk result (CanBeDone formatted payload.now) }
{
    match asked_by(host, operation, cdb, payload) {
        Ok(command) => allowed(host, formatted, payload, command),
        Err(why) => Err(why),
    }
}

/// The same, without a look at the disc.
fn asked_by(
    host: &Host,
    operation: Option<Operation>,
    cdb: &[u8],
    payload: &[u8],
) -> Result<Command, Sense>
    ensures exact { result ≡ asked_by host.now operation cdb.now payload.now }
    ensures limits { IfOk result (IsWithinLimits payload.now) }
{
    let Some(operation) = operation else {
        return Err(INVALID_OPERATION_CODE);
    };
    if is_told(host, operation) {
        return Err(POWER_ON_OCCURRED);
    }
    decode_as(operation, cdb, payload)
}

/// A command that is asked for, or the first reason against it.
fn allowed(host: &Host, formatted: bool, payload: &[u8], command: Command) -> Result<Command, Sense>
    ensures { IsAllowed host.now formatted payload.now command result }
{
    if matches!(command, Command::ModeSelect) {
        return match Modes::new(false, false).select(payload) {
            Ok(()) => Ok(command),
            Err(why) => Err(why),
        };
    }
    if host.prevented && ejects(command) {
        Err(REMOVAL_PREVENTED)
    } else if host.out && needs_disc(command) {
        Err(MEDIUM_NOT_PRESENT)
    } else if needs_format(command) && !formatted {
        Err(MEDIUM_FORMAT_CORRUPTED)
    } else {
        Ok(command)
    }
}

/// Whether the command is told of the attention in place of being done.
pub fn is_told(host: &Host, operation: Operation) -> bool
    ensures { result ≡ is_told host.now operation }
{
    host.attention && !passes_attention(operation)
}

fn passes_attention(operation: Operation) -> bool
    ensures { result ≡ passes_attention operation }
{
    matches!(
        operation,
        Operation::Inquiry
            | Operation::RequestSense
            | Operation::GetConfiguration
            | Operation::GetEventStatusNotification
    )
}

/// Whether the disc is to be taken out.
fn ejects(command: Command) -> bool
    ensures { result ≡ ejects command }
{
    match command {
        Command::StartStop { start, eject } => eject && !start,
        _ => false,
    }
}

fn needs_disc(command: Command) -> bool
    ensures { result ≡ needs_disc command }
{
    matches!(
        command,
        Command::TestUnitReady
            | Command::Format { .. }
            | Command::Expand { .. }
            | Command::ReadCapacity
            | Command::Read { .. }
            | Command::Write { .. }
            | Command::Verify { .. }
            | Command::Synchronize
            | Command::DiscInformation { .. }
            | Command::Structure { .. }
    )
}

fn needs_format(command: Command) -> bool
    ensures { result ≡ needs_format command }
{
    match command {
        Command::Format { .. } | Command::DiscInformation { .. } => false,
        _ => needs_disc(command),
    }
}
