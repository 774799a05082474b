//! Two images, or a mirror of the discs in them: how they are opened, pressed and handed back.
ghost use Rattle.std.specs.Prelude.{◌≡◌, Err};
ghost use Rattle.ram_report.specs.declared.printing.MirrorEvent.TheVariants as mirrors;
ghost use Rattle.model_geometry.specs.declared.kinds.LayoutKind.TheVariants.{OneGroup};
ghost use Rattle.model_geometry.specs.Geometry.{shape_in};
ghost use Rattle.model_drive.specs.Faults.{faults};
ghost use Rattle.ram_side.specs.Side.{OpensSide};
ghost use Rattle.ram_pair.specs.PairStates.{PairState};
ghost use Rattle.ram_pair.specs.Told.{answered};
ghost use Rattle.ram_pair.specs.Pairs.{AreOfOneGroup, HeldAs, LeavesPair, faults_held, first_faults, second_faults};
ghost use Rattle.ram_pair.specs.Opening.{OpensBoth, CountsBoth, IsRefusedBy, BeginRule, IsPressed, PressesBoth};
ghost use Rattle.ram_answers.specs.Outcomes.{LineStops};

use crate::rooms::PairRooms;
use crate::told::Told;
use ram_image::{OpenFault, PressOut, Refused, geometry_in, press};
use ram_machine::Stopped;
use ram_mirror::{Mirror, MirrorRooms};
use ram_outside::Image;
use ram_report::{Event, MirrorEvent};
use ram_side::{Side, SideRooms};
use ram_zones::{Geometry, LayoutKind};

/// What a run of a mirror works on.
pub enum Held<S: Side> {
    /// Two images that are not those of two discs of one geometry, and the rooms for a mirror.
    Images(S::Image, S::Image, PairRooms),
    /// A mirror of the discs in them.
    Mirror(Mirror<S, S>),
}

/// What two images hold.
enum Both<S: Side> {
    /// Two discs of one geometry: a mirror of them.
    Mirror(Mirror<S, S>),
    /// Something else.
    Images(S::Image, S::Image, PairRooms),
    /// It is not known: one of them failed.
    Failed(S::Image, S::Image, PairRooms),
}

/// Opens two images. The second is looked at only where the first holds a disc.
fn open_both<S: Side>(rooms: PairRooms, a: S::Image, b: S::Image) -> Both<S>
    ensures opens { AreOfOneGroup rooms → OpensBoth S.Sectors S.lies_in S.Image.Image a b result }
    ensures count { CountsBoth S.Sectors S.Image.Image a b result }
{
    let PairRooms {
        a: first,
        b: second,
        mirror,
    } = rooms;
    match S::open(first, a) {
        Ok((side, geometry)) => open_second(side, geometry, second, mirror, b),
        Err(
            Refused {
                image,
                rooms: first,
                fault,
            },
        ) => {
            let rooms = PairRooms {
                a: first,
                b: second,
                mirror,
            };
            refuse(image, b, rooms, fault)
        }
    }
}

/// Opens the second image beside a side that was opened over the first, whose disc has this geometry.
fn open_second<S: Side>(
    side: S,
    geometry: Geometry,
    rooms: SideRooms,
    mirror: MirrorRooms,
    image: S::Image,
) -> Both<S>
    ensures opens { (a : S.Image) → OpensSide OneGroup (S.Image.bytes a) (S.Image.faults a) geometry
        (S.shows side) (S.stands side) (S.lies_in side) (S.has_failed side)
        → rooms.kind ≡ OneGroup → OpensBoth S.Sectors S.lies_in S.Image.Image a image result }
    ensures count { (a : S.Image) → faults (S.shows side) ≡ S.Image.faults a
        → CountsBoth S.Sectors S.Image.Image a image result }
{
    match S::open(rooms, image) {
        Ok((other, same)) if same == geometry => Both::Mirror(Mirror::new(mirror, side, other)),
        Ok((other, _)) => {
            let (a, first) = side.into_parts();
            let (b, second) = other.into_parts();
            let rooms = PairRooms {
                a: first,
                b: second,
                mirror,
            };
            Both::Images(a, b, rooms)
        }
        Err(
            Refused {
                image: b,
                rooms: second,
                fault,
            },
        ) => {
            let (a, first) = side.into_parts();
            let rooms = PairRooms {
                a: first,
                b: second,
                mirror,
            };
            refuse(a, b, rooms, fault)
        }
    }
}

/// The images of which one was not opened, by why it was not.
fn refuse<S: Side>(a: S::Image, b: S::Image, rooms: PairRooms, fault: OpenFault) -> Both<S>
    ensures { IsRefusedBy fault a b rooms result }
{
    match fault {
        OpenFault::Header | OpenFault::Length { .. } => Both::Images(a, b, rooms),
        OpenFault::Fault => Both::Failed(a, b, rooms),
    }
}

impl<S: Side> Held<S> {
    /// What a run over these images begins with: a mirror where both hold discs of one geometry, and else the images. Where one failed,
    /// both are handed back.
    ///
    /// # Clauses
    ///
    /// - `BeginRule`: what a run begins with, where the bytes of both are known, and neither failed; or one of them did, and both have the
    ///   bytes that they had.
    ///
    /// # Answers
    ///
    /// - `Ok`: both images were looked at as far as was needed, and neither failed. (`BeginRule`)
    /// - `Mirror`, `Images`: a mirror where both hold discs of one geometry, else the images. (`IsFirstPair`)
    /// - `Err`: one of them counted a failure. Then: both have the bytes that they had. (`BeginRule`)
    pub fn begin(
        rooms: PairRooms,
        a: S::Image,
        b: S::Image,
    ) -> Result<Held<S>, (S::Image, S::Image)>
        requires kind { AreOfOneGroup rooms }
        ensures { BeginRule S.Sectors S.lies_in S.Image.Image a b result }
    {
        match open_both::<S>(rooms, a, b) {
            Both::Mirror(mirror) => Ok(Held::Mirror(mirror)),
            Both::Images(a, b, rooms) => Ok(Held::Images(a, b, rooms)),
            Both::Failed(a, b, _) => Err((a, b)),
        }
    }

    /// Both images, as they are left, and the rooms.
    ///
    /// # Clauses
    ///
    /// - `left`, `first`, `second`, `kind`: their bytes are those of the state, and their counts those of what was held.
    pub fn into_parts(self) -> (S::Image, S::Image, PairRooms)
        ensures left { (s : PairState) → HeldAs S.Sectors S.lies_in S.Image.Image self s
            → LeavesPair s (S.Image.bytes result.0) (S.Image.bytes result.1) }
        ensures first { S.Image.faults result.0 ≡ first_faults S.Sectors S.Image.Image self }
        ensures second { S.Image.faults result.1 ≡ second_faults S.Sectors S.Image.Image self }
        ensures kind { (s : PairState) → HeldAs S.Sectors S.lies_in S.Image.Image self s
            → AreOfOneGroup result.2 }
    {
        match self {
            Held::Images(a, b, rooms) => (a, b, rooms),
            Held::Mirror(mirror) => {
                let (mirror, a, b) = mirror.into_parts();
                let (first, a_rooms) = a.into_parts();
                let (second, b_rooms) = b.into_parts();
                let rooms = PairRooms {
                    a: a_rooms,
                    b: b_rooms,
                    mirror,
                };
                (first, second, rooms)
            }
        }
    }
}

/// Presses two discs of this many zones, this scale and this many primary spares, in this order, one on each image, where they are within
/// their limits.
pub(crate) fn press_both<S: Side>(
    held: Held<S>,
    wanted: (u32, u32, u32),
) -> (Held<S>, Result<Told, Stopped>)
    ensures step { (s : PairState) → HeldAs S.Sectors S.lies_in S.Image.Image held s
        → IsPressed S.Sectors S.lies_in S.Image.Image s
        (shape_in OneGroup wanted.0 wanted.1 wanted.2) result.1 result.0 }
    ensures count { LineStops (faults_held S.Sectors S.Image.Image held)
        (faults_held S.Sectors S.Image.Image result.0) result.1 }
{
    let (zones, scale, psa) = wanted;
    let Some(geometry) = geometry_in(LayoutKind::OneGroup, zones, scale, psa) else {
        return (held, as_one(Event::NotPressed));
    };
    let (mut a, mut b, rooms) = held.into_parts();
    match press_images(&mut a, &mut b, &geometry) {
        PressOut::Failed => return (Held::Images(a, b, rooms), Err(Stopped::ImageFault)),
        PressOut::Done => {}
    }
    match open_both::<S>(rooms, a, b) {
        Both::Mirror(mirror) => (Held::Mirror(mirror), as_one(Event::Pressed)),
        Both::Images(a, b, rooms) => (Held::Images(a, b, rooms), Err(Stopped::NotADisc)),
        Both::Failed(a, b, rooms) => (Held::Images(a, b, rooms), Err(Stopped::ImageFault)),
    }
}

/// Presses a disc of this geometry on the first image and then on the second.
fn press_images<I: Image>(a: &mut I, b: &mut I, geometry: &Geometry) -> PressOut
    ensures { PressesBoth I.Image a.old b.old a.new b.new geometry.now result }
{
    match press(a, geometry) {
        PressOut::Failed => PressOut::Failed,
        PressOut::Done => press(b, geometry),
    }
}

/// A line is answered as one for one disc may be.
fn as_one(event: Event) -> Result<Told, Stopped>
    ensures { result ≡ answered (mirrors.OfDisc event) }
{
    Ok(Told::Event(MirrorEvent::OfDisc { event }))
}
