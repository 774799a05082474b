//! The target: a disc with what is remembered for its host.

ghost use Rattle.std.specs.Prelude.{◌≡◌, ◌*◌, ◌≤◌, IfOk, is_some, vec_capacity};
ghost use Rattle.model_commands.specs.declared.TheConstants.{TRANSFER_LIMIT};
ghost use Rattle.model_commands.specs.Commands.{operation_of};
ghost use Rattle.model_drive.specs.Shown.{IsOn, capacity};
ghost use Rattle.model_cdb.specs.Decoding.{IsWithinLimits};
ghost use Rattle.model_target.specs.Host.{powered_on, is_good, done_by, kept_after, attention_after};
ghost use Rattle.model_target.specs.Steps.{IsDone, IsAnsweredBy, IsExecuted, IsStep, IsPoweredAgain, host_after};
ghost use Rattle.ram_mmc.specs.Looks.{CanBeDone, DiscLookRule, IsFormattedAs};

use crate::features::Wanted;
use crate::judging::{is_told, judge};
use crate::replies::{capacity_reply, reply, reply_events, reply_inquiry, sense_told};
use crate::telling::{tell_capacities, tell_configuration, tell_disc, tell_structure};
use crate::transfers::{expand, format, read, select, settle, synchronize, verify, write};
use model_commands::Operation;
use model_target::Host;
use ram_bytes::{Block, Cdb};
use ram_cdb::{Command, operation};
use ram_modes::Modes;
use ram_sectors::{Caching, PowerOut};
use ram_sense::{Answer, Sense};

/// A disc that is a target of commands, and what it remembers for its host.
#[derive(Drop)]
pub struct Target<D: Caching> {
    /// The disc, which may be worked on beside its host's commands: what is remembered for the host stays.
    pub disc: D,
    host: Host,
    block: Block,
}

/// What a look at a disc finds.
#[derive(Clone, Copy, Debug, PartialEq, Eq)]
pub enum Look {
    /// The power is off.
    Off,
    /// The power is on, and the disc is not formatted.
    NotFormatted,
    /// The disc is formatted, and has n sectors.
    Formatted(u32),
}

impl<D: Caching> Target<D> {
    /// A target over this disc, in the state of one whose power just came on, with one block for the text of the disc's
    /// structure. What the block holds does not matter. It takes no memory of its own: replies are put straight where the
    /// caller wants them.
    ///
    /// # Clauses
    ///
    /// - The disc is the one that was given. What is remembered is as after a power on.
    pub fn new(disc: D, block: Block) -> Target<D>
        ensures disc { result.disc ≡ disc }
        ensures host { result.host ≡ powered_on }
    {
        Target {
            disc,
            host: just_powered(),
            block,
        }
    }

    /// The disc, without its target, and the block.
    ///
    /// # Clauses
    ///
    /// - The disc is the one that was given. What is remembered is as after a power on.
    pub fn into_parts(self) -> (D, Block)
        ensures { result.0 ≡ self.disc }
    {
        let Target { disc, block, .. } = self;
        (disc, block)
    }

    /// Turns the power off and on again, and the write cache off. Then the disc is in, its removal is allowed, and the host is to
    /// be told.
    ///
    /// # Clauses
    ///
    /// - `rule`: `IsPoweredAgain`: The write cache is turned off, and the power off and on by one call of the disc; the attention
    ///   stands, removal is allowed, the disc is in, and no sense is kept.
    ///
    /// # Answers
    ///
    /// As for `Caching::power`. On every answer the write cache is off, the disc is in, its removal is allowed, and the host is
    /// to be told that the power came on (`IsPoweredAgain`).
    pub fn power(&mut self) -> PowerOut
        ensures rule { IsPoweredAgain (D.shows self.old.disc) (D.shows self.new.disc)
            (D.stands self.old.disc) (D.stands self.new.disc) self.new.host result }
        ensures same_shape { (D.shows self.new.disc).drive.shape ≡ (D.shows self.old.disc).drive.shape }
        ensures underwent { D.underwent self.old.disc self.new.disc }
    {
        self.host = just_powered();
        self.disc.write_cache(false);
        self.disc.power()
    }

    /// Does one command, with the command's data in `payload`. The data that it gives are then in `data_in`, whose room is taken
    /// before, and which is empty on every other answer than Good. What it held before does not matter. The first of these that
    /// applies is the answer:
    ///
    /// Off, where the power is off; 5/20/00 for an operation code that is none of the drive's; 6/29/00 at the first command
    /// after a power on, but for INQUIRY, REQUEST SENSE, GET CONFIGURATION and GET EVENT STATUS NOTIFICATION, if REQUEST SENSE
    /// did not tell so before;
    /// 5/24/00, 5/39/00, 5/1A/00 and 5/26/00 for the command block and its data; 5/53/02 where ejection is asked for and
    /// removal prevented; 2/3A/00 without a disc; 3/31/00 on a disc that is not formatted; 5/21/00 past its end; 5/26/00 for
    /// an expansion to a capacity that it cannot have; and what the disc answers.
    /// (After INCITS MMC; the order is this project's own.)
    ///
    /// # Clauses
    ///
    /// - `step`: `IsStep`: With the power off the answer is off, and nothing changes; the rest stands below the table.
    /// - `underwent`: Nothing but events happened to the medium of the disc, whatever the answer; the same of `Target::power`.
    /// - `same_shape`, `room`: The geometry stays; no room is given up. What `data_in` held before does not matter: it is as
    ///   `step` says after each answer.
    ///
    /// # Answers
    ///
    /// The data are empty on every answer but `Good`. The reasons are judged in the order that
    /// [SCRIPT](SCRIPT.md#when-a-command-is-refused) has; the first that applies is the answer. Else the command is one call of
    /// the disc, whose answers are told as below, or a reply. What is remembered for the host afterwards, by the command and its
    /// answer, is `host_after`.
    ///
    /// - `Good`: no reason applies, and the call of the disc answered Good where there is one. Then: the data are the reply of
    ///   the command, cut to its allocation length. (`IsDone`)
    /// - `Check`, judged: 5/20/00, 6/29/00, and then what `decode_as` refuses. Then: the disc is as before. (`asked_by`)
    /// - `Check`, hindered: 5/53/02 ejection is prevented, 2/3A/00 the disc is out, 3/31/00 it is not formatted. Then: the disc
    ///   is as before. (`hindrances`)
    /// - `Check` of mode pages: 5/26/00: the list of MODE SELECT is not taken. Then: the disc is as before. (`IsAllowed`)
    /// - `Check` of a read: 3/11/00 with the sector for `Unread`, 5/21/00 for `Range`. Then: as after that answer of
    ///   `Caching::read`. (`read_answer`, `IsRead`)
    /// - `Check` of a verification: the same. Then: as after that answer of `Caching::verify`. (`read_answer`, `IsVerified`)
    /// - `Check` of a write: 3/11/00 with the sector for `Unread`, 3/32/00 with the sector for `NoSpare`, 3/32/01 for `NoUpdate`,
    ///   5/21/00 for `Range`. Then: as after that answer of `Caching::write_through` with FUA and of WRITE AND VERIFY, and of
    ///   `Caching::write` else. (`write_answer`, `IsWritten`)
    /// - `Check` of a synchronisation: 3/32/00 with the sector for `NoSpare`, 3/32/01 for `NoUpdate`. Then: as after that answer
    ///   of `Caching::synchronize`. (`sync_answer`, `IsSynchronised`)
    /// - `Check` of an ejection, or of a list of mode pages that turns the cache off: as that of a synchronisation. Then: as after that
    ///   answer of `Caching::synchronize`; the disc stays in, and the cache on. (`settle_answer`, `IsSettled`, `TurnsOff`)
    /// - `Check` of a format: 3/31/01 for `TooMany` and `NoUpdate`. Then: as after that answer of `Caching::format`.
    ///   (`format_answer`, `IsFormatted`)
    /// - `Check` of an expansion: 5/26/00 for `Refused`, 3/32/01 for `NoUpdate`. Then: as after that answer of `Caching::expand`.
    ///   (`expand_answer`, `IsExpanded`)
    /// - `Cut`: the power was cut in the call of the disc. Then: as after `Cut` of that call. (`IsDone`)
    /// - `Off`: exactly when the power was off. Then: nothing changed, and the host's four things stay. (`IsOffFor`)
    /// - `Fault`: what the medium lies on counted a failure in the call of the disc. Then: as after `Fault` of that call.
    ///   (`IsDone`)
    pub fn execute(&mut self, cdb: &Cdb, payload: &[u8], data_in: &mut Vec<u8>) -> Answer
        requires room { 2048 * TRANSFER_LIMIT ≤ vec_capacity data_in.old }
        ensures step { IsStep (D.shows self.old.disc) (D.shows self.new.disc)
            (D.stands self.old.disc) (D.stands self.new.disc)
            self.old.host self.new.host cdb.now payload.now result data_in.new.items }
        ensures same_shape { (D.shows self.new.disc).drive.shape ≡ (D.shows self.old.disc).drive.shape }
        ensures underwent { D.underwent self.old.disc self.new.disc }
        ensures room { vec_capacity data_in.old ≤ vec_capacity data_in.new }
    {
        match look_at(&self.disc) {
            Look::Off => {
                data_in.clear();
                Answer::Off
            }
            Look::NotFormatted => self.execute_on(None, cdb, payload, data_in),
            Look::Formatted(sectors) => { self.execute_on(Some(sectors), cdb, payload, data_in) }
        }
    }

    /// The same while the power is on, on a disc of n sectors, or one that is not formatted.
    fn execute_on(
        &mut self,
        formatted: Option<u32>,
        cdb: &Cdb,
        payload: &[u8],
        data_in: &mut Vec<u8>,
    ) -> Answer
        requires formatted { IsFormattedAs (D.shows self.old.disc).drive formatted }
        requires room { 2048 * TRANSFER_LIMIT ≤ vec_capacity data_in.old }
        ensures step { IsExecuted (D.shows self.old.disc) (D.shows self.new.disc)
            (D.stands self.old.disc) (D.stands self.new.disc)
            self.old.host self.new.host cdb.now payload.now result data_in.new.items }
        ensures same_shape { (D.shows self.new.disc).drive.shape ≡ (D.shows self.old.disc).drive.shape }
        ensures underwent { D.underwent self.old.disc self.new.disc }
        ensures room { vec_capacity data_in.old ≤ vec_capacity data_in.new }
    {
        let operation = operation(cdb.operation_code());
        let judged = judge(
            &self.host,
            formatted.is_some(),
            operation,
            cdb.bytes(),
            payload,
        );
        let sectors = formatted.unwrap_or(0);
        let answer = self.answer(judged, sectors, payload, data_in);
        self.host = host_after(self.host, operation, judged, answer);
        answer
    }

    /// Answers a command that was judged so, on a disc of n sectors, 0 where it is not formatted.
    fn answer(
        &mut self,
        judged: Result<Command, Sense>,
        sectors: u32,
        payload: &[u8],
        data_in: &mut Vec<u8>,
    ) -> Answer
        requires limits { IfOk judged (IsWithinLimits payload.now) }
        requires on { IsOn (D.shows self.old.disc).drive }
        requires can { IfOk judged (CanBeDone (is_some (D.shows self.old.disc).drive.lists) payload.now) }
        requires sectors { sectors ≡ capacity (D.shows self.old.disc).drive }
        requires room { 2048 * TRANSFER_LIMIT ≤ vec_capacity data_in.old }
        ensures rule { IsAnsweredBy (D.shows self.old.disc) (D.shows self.new.disc)
            (D.stands self.old.disc) (D.stands self.new.disc)
            self.old.host payload.now judged result data_in.new.items }
        ensures same_host { self.new.host ≡ self.old.host }
        ensures same_shape { (D.shows self.new.disc).drive.shape ≡ (D.shows self.old.disc).drive.shape }
        ensures underwent { D.underwent self.old.disc self.new.disc }
        ensures room { vec_capacity data_in.old ≤ vec_capacity data_in.new }
    {
        match judged {
            Err(why) => {
                data_in.clear();
                Answer::Check(why)
            }
            Ok(command) => self.do_command(command, sectors, payload, data_in),
        }
    }

    /// Does a command, on a disc of n sectors, 0 where it is not formatted.
    fn do_command(
        &mut self,
        command: Command,
        sectors: u32,
        payload: &[u8],
        data_in: &mut Vec<u8>,
    ) -> Answer
        requires limits { IsWithinLimits payload.now command }
        requires on { IsOn (D.shows self.old.disc).drive }
        requires can { CanBeDone (is_some (D.shows self.old.disc).drive.lists) payload.now command }
        requires sectors { sectors ≡ capacity (D.shows self.old.disc).drive }
        requires room { 2048 * TRANSFER_LIMIT ≤ vec_capacity data_in.old }
        ensures rule { IsDone (D.shows self.old.disc) (D.shows self.new.disc)
            (D.stands self.old.disc) (D.stands self.new.disc)
            self.old.host payload.now command result data_in.new.items }
        ensures same_host { self.new.host ≡ self.old.host }
        ensures same_shape { (D.shows self.new.disc).drive.shape ≡ (D.shows self.old.disc).drive.shape }
        ensures underwent { D.underwent self.old.disc self.new.disc }
        ensures room { vec_capacity data_in.old ≤ vec_capacity data_in.new }
    {
        if let Command::Read { lba, n } = command {
            return read(&mut self.disc, lba, n, data_in);
        }
        data_in.clear();
        match command {
            Command::Read { .. } => unreachable!(),
            Command::Write { lba, n, fua } => return write(&mut self.disc, lba, n, fua, payload),
            Command::Verify { lba, n } => return verify(&mut self.disc, lba, n),
            Command::Format { kind } => return format(&mut self.disc, kind),
            Command::Expand { capacity } => return expand(&mut self.disc, capacity),
            Command::Synchronize => return synchronize(&mut self.disc),
            Command::ModeSelect => return select(&mut self.disc, payload),
            Command::StartStop {
                start: false,
                eject: true,
            } => return settle(&mut self.disc),
            Command::RequestSense { alloc } => {
                reply(data_in, &sense_told(&self.host).to_bytes(), alloc)
            }
            Command::Inquiry { vital, alloc } => reply_inquiry(data_in, vital, alloc),
            Command::ReadCapacity => reply(data_in, &capacity_reply(sectors), 8),
            Command::FormatCapacities { alloc } => {
                tell_capacities(&self.disc, self.host.out, alloc, data_in)
            }
            Command::Structure { format, alloc } => {
                tell_structure(&self.disc, &mut self.block, format, alloc, data_in)
            }
            Command::Configuration { rt, start, alloc } => {
                let wanted = Wanted::new(rt, start);
                tell_configuration(&self.disc, wanted, self.host.out, alloc, data_in)
            }
            Command::Events { media, alloc } => {
                reply_events(data_in, media, self.host.out, alloc)
            }
            Command::DiscInformation { alloc } => tell_disc(&self.disc, alloc, data_in),
            Command::ModeSense {
                short,
                control,
                page,
                alloc,
            } => {
                let modes = Modes::new(self.disc.caches(), self.host.prevented);
                modes.sense_within(short, control, page, alloc, data_in)
            }
            Command::TestUnitReady
            | Command::StartStop { .. }
            | Command::Prevent { .. }
            | Command::Streaming => {}
        }
        Answer::Good
    }
}

/// What is remembered when the power came on.
fn just_powered() -> Host
    ensures { result ≡ powered_on }
{
    Host {
        attention: true,
        prevented: false,
        out: false,
        kept: None,
    }
}

/// Looks at a disc. One that has no capacity is not formatted, or off.
fn look_at<D: Caching>(disc: &D) -> Look
    ensures rule { DiscLookRule (D.shows disc.now).drive result }
{
    if let Some(capacity) = disc.capacity() {
        return Look::Formatted(capacity);
    }
    if disc.counts().powered {
        Look::NotFormatted
    } else {
        Look::Off
    }
}

/// What is remembered after a command that was judged and answered so.
fn host_after(
    host: Host,
    operation: Option<Operation>,
    judged: Result<Command, Sense>,
    answer: Answer,
) -> Host
    ensures { result ≡ host_after host operation judged answer }
{
    let done = match judged {
        Ok(command) if is_good(answer) => done_by(command, host),
        Ok(_) => host,
        Err(_) => Host {
            attention: attention_after(host, operation),
            ..host
        },
    };
    Host {
        kept: kept_after(host.kept, answer),
        ..done
    }
}

/// Whether a command was done.
fn is_good(answer: Answer) -> bool
    ensures { result ≡ is_good answer }
{
    matches!(answer, Answer::Good)
}

/// What a command that is done changes.
fn done_by(command: Command, host: Host) -> Host
    ensures { result ≡ done_by command host }
{
    match command {
        Command::RequestSense { .. } => Host {
            attention: host.kept.is_some() && host.attention,
            ..host
        },
        Command::Prevent { on } => Host {
            prevented: on,
            ..host
        },
        Command::StartStop { start, eject: true } => Host {
            out: !start,
            ..host
        },
        _ => host,
    }
}

/// Whether the host is still to be told after a command that was refused.
fn attention_after(host: Host, operation: Option<Operation>) -> bool
    ensures { result ≡ attention_after host operation }
{
    match operation {
        Some(operation) if is_told(&host, operation) => false,
        _ => host.attention,
    }
}

/// The sense that is kept after a command.
fn kept_after(kept: Option<Sense>, answer: Answer) -> Option<Sense>
    ensures { result ≡ kept_after kept answer }
{
    match answer {
        Answer::Good => None,
        Answer::Check(why) => Some(why),
        Answer::Cut | Answer::Off | Answer::Fault => kept,
    }
}
