//! The inserted disc, and what one line does with it: the drive is worked on where it lies, and only a press takes its
//! image and its rooms out.
ghost use Rattle.std.specs.Prelude.{◌≡◌, ◌≤◌, Bool, MatchResult, vec_capacity};
ghost use Rattle.model_geometry.specs.Geometry.{shape_in};
ghost use Rattle.ram_text.specs.declared.payload.TheConstants.{PAYLOAD_ROOM};
ghost use Rattle.ram_image.specs.Opening.{IsRefused};
ghost use Rattle.model_scrub.specs.Scrubs.{fresh};
ghost use Rattle.ram_scrub.specs.Scrub.{scrubber_of};
ghost use Rattle.ram_machine.specs.Drive.{IsInsertedTarget};
ghost use Rattle.ram_machine.specs.LineSteps.{CountsUses};
ghost use Rattle.ram_machine.specs.Replies.{PrintsWhere, power_outcome, fail_outcome, wear_outcome, tick_outcome, step_outcome, pass_outcome, command_outcome, data_told};
ghost use Rattle.ram_machine.specs.States.{State, kind_of, renewed};
ghost use Rattle.ram_machine.specs.Inserted.{Stands, LeavesImage, faults_of, found_in, data_before, IsAnswered, IsPressAnswered};
ghost use Rattle.ram_machine.specs.LineFaults.{LineCount};
ghost use Rattle.ram_machine.specs.Control.{IsSynced, SyncCount};
ghost use Rattle.ram_machine.specs.Starts.{StartRule};

use crate::drive::Drive;
use crate::reply::Reply;
use crate::rooms::TargetRooms;
use crate::stopped::Stopped;
use core::mem::replace_with;
use ram_bytes::Cdb;
use ram_image::{OpenFault, PressOut, Refused, geometry_in, press};
use ram_medium::{Arm, FailEnd, SyncEnd};
use ram_mmc::{Answer, Target};
use ram_outside::Image;
use ram_report::Event;
use ram_scrub::{PassEnd, Scrub, StepEnd};
use ram_sectors::{PowerOut, TickOut};
use ram_text::Line;
use ram_zones::LayoutKind;

/// What lies in the drive: an image that was not opened as a disc, or a disc with what is remembered for its host, and beside it a
/// scrubber, which no host reaches.
pub enum Inserted<D: Drive> {
    /// An image that was not opened, and the rooms for a disc.
    Image(D::Image, TargetRooms),
    /// A disc, the kind of its layout, and the scrubber of its blocks.
    Disc(Target<D>, LayoutKind, Scrub),
}

impl<D: Drive> Inserted<D> {
    /// The image, as it is left, and the rooms.
    pub fn into_parts(self) -> (D::Image, TargetRooms)
        ensures count { D.Image.faults result.0 ≡ faults_of D.Caching D.Image.Image self }
        ensures left { (s : State) → Stands D.Caching D.lies_in D.Image.Image self s
            → LeavesImage s (D.Image.bytes result.0) }
        ensures kind { (s : State) → Stands D.Caching D.lies_in D.Image.Image self s
            → result.1.drive.kind ≡ kind_of s }
    {
        match self {
            Inserted::Image(image, rooms) => (image, rooms),
            Inserted::Disc(target, _, scrub) => {
                let (disc, block) = target.into_parts();
                let (image, drive) = disc.into_parts();
                let rooms = TargetRooms {
                    drive,
                    block,
                    scrub,
                };
                (image, rooms)
            }
        }
    }

    /// The kind of layout that its discs have.
    fn kind(&self) -> LayoutKind
        ensures { (s : State) → Stands D.Caching D.lies_in D.Image.Image self.now s → result ≡ kind_of s }
    {
        match self {
            Inserted::Image(_, rooms) => rooms.drive.kind,
            Inserted::Disc(_, kind, _) => *kind,
        }
    }

    /// The blocks that the scrubber found unreadable, rising.
    pub fn found(&self) -> &[u32]
        ensures { result.now ≡ found_in self.now }
    {
        match self {
            Inserted::Image(_, _) => &[],
            Inserted::Disc(_, _, scrub) => scrub.found(),
        }
    }

    /// Makes the scrubber new.
    fn renew_scrub(&mut self)
        ensures renewed { (s : State) → Stands D.Caching D.lies_in D.Image.Image self.old s
            → Stands D.Caching D.lies_in D.Image.Image self.new (renewed s) }
        ensures count { faults_of D.Caching D.Image.Image self.new ≡ faults_of D.Caching D.Image.Image self.old }
    {
        match self {
            Inserted::Image(_, _) => {}
            Inserted::Disc(_, _, scrub) => scrub.restart(),
        }
    }

    /// What a line does, with its data in `payload`. The data that a command gives are then in `data_in`, and what it held
    /// before does not matter. The blocks that a scrub of all of them found are then in `found`.
    ///
    /// # Clauses
    ///
    /// - `step`, `count`: For each state before: the step of the line with the data that it gives (`data_told`), and the state
    ///   after. The image's count rose exactly where the image failed.
    ///
    /// # Answers
    ///
    /// - `Ok`: the line was answered. Then: the state is that after the step of the line. (`IsAnswered`)
    /// - `Nothing`: the line says nothing. Then: nothing changed. (`Step`)
    /// - `Event`: the line is no command; each event by its cause. Then: as its step says. (`DiscRule`, `PressStep`,
    ///   `ScrubberRule`)
    /// - `Command`: the line is a command; each answer by its cause. Then: as its step says. (`CommandLine`)
    /// - `Err`: the run ends at the line. Then: as its step says. (`IsAnswered`)
    /// - `ImageFault`: the image counted a failure. Then: the image is as the line leaves it. (`LineCount`, `DiscRule`,
    ///   `PressStep`)
    /// - `NotADisc`: the line needs a disc, and there is none. Then: nothing changed. (`OnDisc`)
    /// - `NotInLanguage`, `LineTooLong`, `ScriptTooLong`, `SourceFault`, `SinkFault`: never: these are told by who reads and
    ///   prints lines. (`LineCount`)
    pub fn answer(
        &mut self,
        line: Line,
        payload: &[u8],
        data_in: &mut Vec<u8>,
    ) -> Result<Reply, Stopped>
        requires uses { CountsUses line }
        requires room { PAYLOAD_ROOM ≤ vec_capacity data_in.old }
        ensures step { (s : State) → Stands D.Caching D.lies_in D.Image.Image self.old s
            → IsAnswered s line payload.now (data_told result data_in.new.items (found_in self.new))
            (Stands D.Caching D.lies_in D.Image.Image self.new) result }
        ensures printable { PrintsWhere result }
        ensures count { LineCount (faults_of D.Caching D.Image.Image self.old)
            (faults_of D.Caching D.Image.Image self.new) result }
        ensures room { vec_capacity data_in.old ≤ vec_capacity data_in.new }
    {
        clear_before(&line, data_in);
        match (&mut *self, line) {
            (_, Line::Empty) => Ok(Reply::Nothing),
            (inserted, Line::Press { zones, scale, psa }) => {
                replace_with(inserted, (zones, scale, psa), press_disc::<D>)
            }
            (Inserted::Disc(target, _, scrub), Line::Power) => {
                scrub.restart();
                power_outcome(target.power())
            }
            (Inserted::Disc(target, _, _), Line::Fail { block }) => fail_outcome(
                target.disc.fail(block),
            ),
            (Inserted::Disc(target, _, _), Line::Wear { block, n }) => {
                wear_outcome(target.disc.wear(block, n))
            }
            (Inserted::Disc(target, _, _), Line::Cut { n, fate }) => {
                target.disc.arm_cut(n, fate);
                Ok(Reply::Event(Event::Armed))
            }
            (Inserted::Disc(target, _, _), Line::Tick) => tick_outcome(target.disc.tick()),
            (Inserted::Disc(target, _, scrub), Line::Scrub { all }) => {
                if all {
                    let end = scrub.pass(&mut target.disc);
                    pass_outcome(end, scrub.found().len() as u64)
                } else {
                    step_outcome(scrub.step(&mut target.disc))
                }
            }
            (Inserted::Disc(target, _, _), Line::Command { cdb }) => {
                let answer = target.execute(&cdb, payload, data_in);
                command_outcome(cdb, answer)
            }
            (Inserted::Image(_, _), _) => {
                data_in.clear();
                Err(Stopped::NotADisc)
            }
        }
    }
    /// Waits until all that was written to the image is where no failure of the system can lose it. Nothing was written to an image
    /// that was not opened, so it is not touched.
    ///
    /// # Clauses
    ///
    /// - `step`, `count`: For each state before: what it makes of it. The image's count rose exactly where the image failed.
    ///
    /// # Answers
    ///
    /// - `Done`: the image says that it lasts, or it was not opened. Then: nothing changed. (`SyncStep`)
    /// - `Failed`: the image counted a failure. Then: the power is off, and the image has the bytes that it had. (`FailsToLast`)
    pub fn sync(&mut self) -> SyncEnd
        ensures step { (s : State) → Stands D.Caching D.lies_in D.Image.Image self.old s
            → IsSynced s (Stands D.Caching D.lies_in D.Image.Image self.new) result }
        ensures count { SyncCount (faults_of D.Caching D.Image.Image self.old)
            (faults_of D.Caching D.Image.Image self.new) result }
    {
        match self {
            Inserted::Image(_, _) => SyncEnd::Done,
            Inserted::Disc(target, _, _) => target.disc.sync(),
        }
    }
}

/// Empties the data of the line before, unless this one is a command: that one says itself which data it gives, and a read writes
/// over those of the last one, so no zeros are put in before.
fn clear_before(line: &Line, data_in: &mut Vec<u8>)
    ensures items { data_in.new.items ≡ data_before line.now data_in.old.items }
    ensures room { vec_capacity data_in.old ≤ vec_capacity data_in.new }
{
    match line {
        Line::Command { .. } => {}
        _ => data_in.clear(),
    }
}

/// How the turning on of the power comes out.
fn power_outcome(out: PowerOut) -> Result<Reply, Stopped>
    ensures { result ≡ power_outcome out }
{
    match out {
        PowerOut::Ready { capacity } => Ok(Reply::Event(Event::Ready { capacity })),
        PowerOut::NotFormatted => Ok(Reply::Event(Event::NotFormatted)),
        PowerOut::Cut => Ok(Reply::Event(Event::Cut)),
        PowerOut::Fault => Err(Stopped::ImageFault),
    }
}

/// How the failure of a block comes out.
fn fail_outcome(end: FailEnd) -> Result<Reply, Stopped>
    ensures { result ≡ fail_outcome end }
{
    match end {
        FailEnd::Done => Ok(Reply::Event(Event::Failed)),
        FailEnd::NoBlock { .. } => Ok(Reply::Event(Event::NoSuchBlock)),
        FailEnd::Failed => Err(Stopped::ImageFault),
    }
}

/// How the arming of a block comes out.
fn wear_outcome(end: Arm) -> Result<Reply, Stopped>
    ensures { result ≡ wear_outcome end }
{
    match end {
        Arm::Set => Ok(Reply::Event(Event::Armed)),
        Arm::NoBlock { .. } => Ok(Reply::Event(Event::NoSuchBlock)),
        Arm::Full => Ok(Reply::Event(Event::Full)),
    }
}

/// How the write of the oldest pending block comes out.
fn tick_outcome(out: TickOut) -> Result<Reply, Stopped>
    ensures { result ≡ tick_outcome out }
{
    match out {
        TickOut::Idle => Ok(Reply::Event(Event::Idle)),
        TickOut::Written { lba } => Ok(Reply::Event(Event::Written { lba })),
        TickOut::NoSpare { lba } => Ok(Reply::Event(Event::NoSpare { lba })),
        TickOut::NoUpdate { .. } => Ok(Reply::Event(Event::NoUpdate)),
        TickOut::Cut => Ok(Reply::Event(Event::Cut)),
        TickOut::Off => Ok(Reply::Event(Event::Off)),
        TickOut::Fault => Err(Stopped::ImageFault),
    }
}

/// How a step of the scrubber comes out. A block is told by its first sector.
fn step_outcome(end: StepEnd) -> Result<Reply, Stopped>
    ensures { result ≡ step_outcome end }
{
    match end {
        StepEnd::Readable { i } => Ok(Reply::Event(Event::Readable { lba: 16 * i as u64 })),
        StepEnd::Unreadable { i } => Ok(Reply::Event(Event::Unreadable { lba: 16 * i as u64 })),
        StepEnd::NotFormatted => Ok(Reply::Event(Event::NotFormatted)),
        StepEnd::Cut => Ok(Reply::Event(Event::Cut)),
        StepEnd::Off => Ok(Reply::Event(Event::Off)),
        StepEnd::Fault => Err(Stopped::ImageFault),
    }
}

/// How a pass of the scrubber comes out that found n blocks.
fn pass_outcome(end: PassEnd, count: u64) -> Result<Reply, Stopped>
    ensures { result ≡ pass_outcome end count }
{
    match end {
        PassEnd::Done => Ok(Reply::Event(Event::Found { count })),
        PassEnd::NotFormatted => Ok(Reply::Event(Event::NotFormatted)),
        PassEnd::Cut => Ok(Reply::Event(Event::Cut)),
        PassEnd::Off => Ok(Reply::Event(Event::Off)),
        PassEnd::Fault => Err(Stopped::ImageFault),
    }
}

/// How the answer of a command comes out.
fn command_outcome(cdb: Cdb, answer: Answer) -> Result<Reply, Stopped>
    ensures { result ≡ command_outcome cdb answer }
{
    match answer {
        Answer::Good | Answer::Check(_) | Answer::Cut | Answer::Off => {
            Ok(Reply::Command { cdb, answer })
        }
        Answer::Fault => Err(Stopped::ImageFault),
    }
}

/// The disc that an image holds, with a layout of the kind that the rooms are for, and with what is remembered for its host when its
/// power just came on; and its scrubber, which has found nothing. Else the image is handed back with the bytes that it had, with the rooms and the reason.
fn insert<D: Drive>(
    rooms: TargetRooms,
    image: D::Image,
) -> Result<(Target<D>, Scrub), Refused<D::Image, TargetRooms>>
    ensures { MatchResult result
        (λ made. IsInsertedTarget rooms.drive.kind (D.Image.bytes image) (D.Image.faults image)
        (D.shows made.0.disc) (D.stands made.0.disc) (D.lies_in made.0.disc) made.0.host
        × (scrubber_of made.1 ≡ fresh))
        (λ refused. (refused.rooms.drive.kind ≡ rooms.drive.kind)
        × IsRefused rooms.drive.kind (D.Image.bytes image) (D.Image.bytes refused.image)
        (D.Image.faults image) (D.Image.faults refused.image) refused.fault) }
{
    let TargetRooms {
        drive,
        block,
        mut scrub,
    } = rooms;
    match D::open(drive, image) {
        Ok(disc) => {
            scrub.restart();
            Ok((Target::new(disc, block), scrub))
        }
        Err(
            Refused {
                image,
                rooms: drive,
                fault,
            },
        ) => {
            let rooms = TargetRooms {
                drive,
                block,
                scrub,
            };
            Err(Refused {
                image,
                rooms,
                fault,
            })
        }
    }
}

/// What lies in the drive when a run begins: a disc where the image holds one, with a layout of the kind that the rooms are for.
/// Where the image failed, it is handed back.
///
/// # Clauses
///
/// - What a run begins with: a disc where the image holds one, else the image (`StartRule`). Where the image failed it is handed
///   back with the bytes that it had.
///
/// # Answers
///
/// - `Ok`: the image was looked at, and did not fail. Then: what lies in the drive is what a run over its bytes begins with.
///   (`StandsFirst`)
/// - `Disc`, `Image`: a disc where the image holds one, else the image. (`StandsFirst`)
/// - `Err`: the image counted a failure. Then: the image is handed back with the bytes that it had. (`StartRule`)
pub fn begin<D: Drive>(rooms: TargetRooms, image: D::Image) -> Result<Inserted<D>, D::Image>
    ensures { StartRule D.Caching D.lies_in D.Image.Image rooms.drive.kind image result }
{
    let kind = rooms.drive.kind;
    match insert::<D>(rooms, image) {
        Ok((target, scrub)) => Ok(Inserted::Disc(target, kind, scrub)),
        Err(
            Refused {
                image,
                rooms,
                fault,
            },
        ) => match fault {
            OpenFault::Header | OpenFault::Length { .. } => Ok(Inserted::Image(image, rooms)),
            OpenFault::Fault => Err(image),
        },
    }
}

/// Presses a disc of this many zones, this scale and this many primary spares, in this order, on the image that lies in the
/// drive, where they are within their limits. Its layout is of the drive's kind. Whatever the answer, the scrubber is new.
///
/// # Clauses
///
/// - `step`, `count`: For each state before: the step of the line with the data that it gives (`data_told`), and the state after.
///   The image's count rose exactly where the image failed.
fn press_disc<D: Drive>(
    inserted: Inserted<D>,
    wanted: (u32, u32, u32),
) -> (Inserted<D>, Result<Reply, Stopped>)
    ensures step { (s : State) → Stands D.Caching D.lies_in D.Image.Image inserted s
        → IsPressAnswered s (shape_in (kind_of s) wanted.0 wanted.1 wanted.2)
        (Stands D.Caching D.lies_in D.Image.Image result.0) result.1 }
    ensures printable { PrintsWhere result.1 }
    ensures count { LineCount (faults_of D.Caching D.Image.Image inserted)
        (faults_of D.Caching D.Image.Image result.0) result.1 }
{
    let (zones, scale, psa) = wanted;
    let kind = inserted.kind();
    let Some(geometry) = geometry_in(kind, zones, scale, psa) else {
        let mut inserted = inserted;
        inserted.renew_scrub();
        return (inserted, Ok(Reply::Event(Event::NotPressed)));
    };
    let (mut image, rooms) = inserted.into_parts();
    match press(&mut image, &geometry) {
        PressOut::Failed => return (Inserted::Image(image, rooms), Err(Stopped::ImageFault)),
        PressOut::Done => {}
    }
    match insert::<D>(rooms, image) {
        Ok((target, scrub)) => (
            Inserted::Disc(target, kind, scrub),
            Ok(Reply::Event(Event::Pressed)),
        ),
        Err(
            Refused {
                image,
                rooms,
                fault,
            },
        ) => (Inserted::Image(image, rooms), Err(Stopped::from(fault))),
    }
}
