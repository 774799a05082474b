//! What a line does with a mirror: the call that it makes, and whether an image failed in it.
ghost use Rattle.std.specs.Prelude.{◌≤◌, [], vec_capacity};
ghost use Rattle.model_commands.specs.declared.TheConstants.{TRANSFER_LIMIT};
ghost use Rattle.ram_text.specs.declared.payload.TheConstants.{PAYLOAD_ROOM};
ghost use Rattle.ram_text.specs.declared.mirror.MirrorLine.TheVariants as lines;
ghost use Rattle.ram_mirror.specs.Mirrors.{mirror_shows};
ghost use Rattle.ram_mirror.specs.Sides.{SidesUnderwent};
ghost use Rattle.ram_answers.specs.Outcomes.{LineStops};
ghost use Rattle.ram_pair.specs.Calls.{CanBeCalled, IsCalled, IsDone, both_faults};
ghost use Rattle.ram_pair.specs.PairLines.{ReadCall};

use crate::told::{
    Told, fail_told, format_told, give_told, lead_told, power_told, read_told, resync_told,
    wear_told, write_told,
};
use ram_bytes::SECTOR_BYTES;
use ram_machine::Stopped;
use ram_medium::Fate;
use ram_mirror::Mirror;
use ram_report::{Event, MirrorEvent};
use ram_side::Side;
use ram_text::MirrorLine;

/// Answers a line that needs a mirror, with its data in `payload`. The bytes that a read gives are then in `shown`. Where an image failed
/// in it the run ends, also where the other side went on.
pub(crate) fn answer_on<S: Side>(
    mirror: &mut Mirror<S, S>,
    line: MirrorLine,
    payload: &[u8],
    shown: &mut Vec<u8>,
) -> Result<Told, Stopped>
    requires can { CanBeCalled line payload.now }
    requires room { PAYLOAD_ROOM ≤ vec_capacity shown.old }
    ensures done { IsDone S.Sectors S.lies_in mirror.old mirror.new line payload.now shown.new.items result }
    ensures count { LineStops (both_faults S.Sectors mirror.old) (both_faults S.Sectors mirror.new) result }
    ensures room { vec_capacity shown.old ≤ vec_capacity shown.new }
{
    mirror.a.watch();
    mirror.b.watch();
    let told = call(mirror, line, payload, shown);
    if mirror.a.failed() || mirror.b.failed() {
        return Err(Stopped::ImageFault);
    }
    Ok(Told::Event(told))
}

/// Makes the call of a line, and tells how it was answered.
fn call<S: Side>(
    mirror: &mut Mirror<S, S>,
    line: MirrorLine,
    payload: &[u8],
    shown: &mut Vec<u8>,
) -> MirrorEvent
    requires can { CanBeCalled line payload.now }
    requires room { PAYLOAD_ROOM ≤ vec_capacity shown.old }
    ensures called { IsCalled S.Sectors S.lies_in S.has_failed mirror.old mirror.new line payload.now
        shown.new.items result }
    ensures room { vec_capacity shown.old ≤ vec_capacity shown.new }
{
    match line {
        MirrorLine::Power => power_told(mirror.power()),
        MirrorLine::Format => format_told(mirror.format()),
        MirrorLine::Resync => resync_told(mirror.resync()),
        MirrorLine::Lead => lead_told(mirror.lead()),
        MirrorLine::GiveLead { on_a } => give_told(on_a, mirror.give_lead(on_a)),
        MirrorLine::Read { lba, n } => read(mirror, lba, n, shown),
        MirrorLine::Write { lba, n } => write_told(mirror.write(lba, n, payload)),
        MirrorLine::Fail { on_a, block } => fail(mirror, on_a, block),
        MirrorLine::Wear { on_a, block, n } => wear(mirror, on_a, block, n),
        MirrorLine::Cut { on_a, n, fate } => cut(mirror, on_a, n, fate),
        MirrorLine::Empty | MirrorLine::Press { .. } => unreachable!(),
    }
}

/// Reads sectors into `shown`.
fn read<S: Side>(mirror: &mut Mirror<S, S>, lba: u32, n: u32, shown: &mut Vec<u8>) -> MirrorEvent
    requires few { n ≤ TRANSFER_LIMIT }
    requires room { PAYLOAD_ROOM ≤ vec_capacity shown.old }
    ensures call { ReadCall (mirror_shows S.Sectors S.Sectors mirror.old)
        (mirror_shows S.Sectors S.Sectors mirror.new) lba n shown.new.items result }
    ensures underwent { SidesUnderwent S.Sectors S.Sectors mirror.old.a mirror.old.b mirror.new.a mirror.new.b }
    ensures room { vec_capacity shown.old ≤ vec_capacity shown.new }
{
    match shown.resize(n as usize * SECTOR_BYTES, 0) {
        Ok(()) => {}
        Err(_) => unreachable!(),
    }
    read_told(lba, mirror.read(lba, n, shown))
}

/// Makes a block of a side dead.
fn fail<S: Side>(mirror: &mut Mirror<S, S>, on_a: bool, block: u32) -> MirrorEvent
    ensures { IsCalled S.Sectors S.lies_in S.has_failed mirror.old mirror.new (lines.Fail on_a block) [] [] result }
{
    if on_a {
        fail_told(mirror.a.fail(block))
    } else {
        fail_told(mirror.b.fail(block))
    }
}

/// Makes a block of a side dead at its `n`-th use from now on.
fn wear<S: Side>(mirror: &mut Mirror<S, S>, on_a: bool, block: u32, n: u32) -> MirrorEvent
    requires uses { 1 ≤ n }
    ensures { IsCalled S.Sectors S.lies_in S.has_failed mirror.old mirror.new (lines.Wear on_a block n) [] [] result }
{
    if on_a {
        wear_told(mirror.a.wear(block, n))
    } else {
        wear_told(mirror.b.wear(block, n))
    }
}

/// Cuts the power of a side at its `n`-th use from now on.
fn cut<S: Side>(mirror: &mut Mirror<S, S>, on_a: bool, n: u32, fate: Fate) -> MirrorEvent
    requires uses { 1 ≤ n }
    ensures { IsCalled S.Sectors S.lies_in S.has_failed mirror.old mirror.new (lines.Cut on_a n fate) [] [] result }
{
    if on_a {
        mirror.a.arm_cut(n, fate);
    } else {
        mirror.b.arm_cut(n, fate);
    }
    MirrorEvent::OfDisc {
        event: Event::Armed,
    }
}
