//! A side of a mirror as a run works with it: a disc, what a run does to the medium below it, and whether its image failed.
ghost use Rattle.std.specs.Prelude.{◌≡◌, ℕ, ◌≤◌, Bool, true, false, Option, List, MatchResult};
ghost use Rattle.model_geometry.specs.Geometry.{total};
ghost use Rattle.model_sectors.specs.Discs.{Standing};
ghost use Rattle.model_drive.specs.Faults.{faults};
ghost use Rattle.model_mirror.specs.Watching.{TracksFaults};
ghost use Rattle.ram_image.specs.EventBytes.{FailBytes};
ghost use Rattle.ram_image.specs.Opening.{IsRefused};
ghost use Rattle.ram_medium.specs.Control.{WearRule, with_armed_cut};
ghost use Rattle.ram_medium.specs.declared.control.FailEnd.TheVariants as fails;
ghost use Rattle.ram_states.specs.Control.{KeepsMemory, FailOnDrive};
ghost use Rattle.ram_side.specs.Side.{OpensSide, SideLaws, standing_after_fail};

use crate::rooms::SideRooms;
use ram_image::Refused;
use ram_medium::{Arm, FailEnd, Fate};
use ram_outside::Image;
use ram_sectors::Disc;
use ram_zones::Geometry;

/// A disc over a medium that lies in an image, and that can be made to fail. It tells whether its image failed since one began to
/// watch it: no answer of a mirror tells that of the side that does not lead.
pub trait Side: Disc {
    /// The image.
    type Image: Image;

    /// The bytes of the image, also those under cells that are not good, where they are known.
    ghost lies_in: { Self → Option (List ℕ) };

    /// Whether the image failed since one began to watch it.
    ghost has_failed: { Self → Bool };

    /// The disc that the image holds, with a layout of the kind that the rooms are for, and with the power off; and its geometry. Else
    /// the image is handed back with the bytes that it had, with the rooms and the reason: it has no such disc's header or length, or
    /// it failed.
    ///
    /// # Answers
    ///
    /// - `Ok`: the image is a disc's, where its bytes are known, and it did not fail. Then: the side lies in the same bytes, with the
    ///   power off; it shows a disc of the geometry that is told; it is watched. (`OpensSide`)
    /// - `Err`: it is not, or it failed. Then: the image is handed back with the bytes that it had, and the rooms. (`IsRefused`)
    /// - `Header`, `Length`: as of `open` of `ram_image`. Then: the image did not fail. (`IsRefused`)
    /// - `Fault`: the image counted a failure. (`IsRefused`)
    fn open(
        rooms: SideRooms,
        image: Self::Image,
    ) -> Result<(Self, Geometry), Refused<Self::Image, SideRooms>>
        ensures { MatchResult result (λ opened. OpensSide rooms.kind (Self.Image.bytes image)
            (Self.Image.faults image) opened.1 (Self.shows opened.0) (Self.stands opened.0)
            (lies_in opened.0) (has_failed opened.0))
            (λ refused. (refused.rooms.kind ≡ rooms.kind)
            × IsRefused rooms.kind (Self.Image.bytes image) (Self.Image.bytes refused.image)
            (Self.Image.faults image) (Self.Image.faults refused.image) refused.fault) };

    /// The image, with the bytes in which the side lay, and the rooms.
    fn into_parts(self) -> (Self::Image, SideRooms)
        ensures count { Self.Image.faults result.0 ≡ faults (Self.shows self) }
        ensures bytes { Self.Image.bytes result.0 ≡ lies_in self }
        ensures kind { result.1.kind ≡ (Self.shows self).shape.layout };

    /// Begins to watch the image: what failed before is forgotten, and nothing else changes.
    fn watch(&mut self)
        ensures failed { has_failed self.new ≡ false }
        ensures shows { Self.shows self.new ≡ Self.shows self.old }
        ensures stands { (s : Standing) → Self.stands self.old s → Self.stands self.new s }
        ensures bytes { lies_in self.new ≡ lies_in self.old };

    /// Whether the image failed since one began to watch it.
    ///
    /// # Answers
    ///
    /// - `true`, `false`: `true` exactly when it failed. (clause)
    fn failed(&self) -> bool
        ensures { result ≡ has_failed self.now };

    /// Makes block `block` of the medium dead, counted from 0, with the power on or off: `Done`. There is no such block:
    /// `NoBlock`, with how many there are. The image failed: `Failed`, and the power is off. What is kept in memory stays,
    /// unless the power goes off.
    ///
    /// # Answers
    ///
    /// As for `MediumControl::fail`; what is kept in memory stays, unless the power goes off.
    ///
    /// - `Done`: as of `MediumControl::fail`. Then: lists and buffer stay. (`FailOnDrive`)
    /// - `NoBlock`: as of `MediumControl::fail`. Then: nothing changed. (`FailOnDrive`)
    /// - `Failed`: as of `MediumControl::fail`. Then: the power is off, and the image failed. (`FailOnDrive`)
    fn fail(&mut self, block: u32) -> FailEnd
        ensures rule { FailOnDrive (Self.shows self.old) (Self.shows self.new) block result }
        ensures bytes { FailBytes block (lies_in self.old) (lies_in self.new) result }
        ensures stands { (s : Standing) → Self.stands self.old s
            → Self.stands self.new (standing_after_fail s result) }
        ensures failed { TracksFaults (faults (Self.shows self.old)) (faults (Self.shows self.new))
            (has_failed self.old) (has_failed self.new) }
        ensures lost { result ≡ fails.Failed → has_failed self.new ≡ true };

    /// Makes block `block` of the medium dead at its `n`-th use from now on, the next one being the first: `Set`. There
    /// is no such block: `NoBlock`. As many arms stand as can, 64: `Full`.
    ///
    /// # Answers
    ///
    /// As for `MediumControl::wear`; lists, buffer and disc stay (`KeepsMemory`).
    ///
    /// - `Set`, `NoBlock`, `Full`: as of `MediumControl::wear`. Then: as of it. (`WearRule`)
    fn wear(&mut self, block: u32, n: u32) -> Arm
        requires { 1 ≤ n }
        ensures rule { WearRule (total (Self.shows self.old).shape) (Self.shows self.old).medium
            (Self.shows self.new).medium (record { block = block; left = n }) result }
        ensures bytes { lies_in self.new ≡ lies_in self.old }
        ensures keeps { KeepsMemory (Self.shows self.old) (Self.shows self.new) }
        ensures stands { (s : Standing) → Self.stands self.old s → Self.stands self.new s }
        ensures failed { has_failed self.new ≡ has_failed self.old };

    /// Cuts the power at the `n`-th use of any block from now on, the next one being the first, with this fate of a write
    /// that is cut. The cut takes the place of one that was armed.
    fn arm_cut(&mut self, n: u32, fate: Fate)
        requires { 1 ≤ n }
        ensures rule { (Self.shows self.new).medium ≡ with_armed_cut n fate (Self.shows self.old).medium }
        ensures bytes { lies_in self.new ≡ lies_in self.old }
        ensures keeps { KeepsMemory (Self.shows self.old) (Self.shows self.new) }
        ensures stands { (s : Standing) → Self.stands self.old s → Self.stands self.new s }
        ensures failed { has_failed self.new ≡ has_failed self.old };

    ghost side_laws: { SideLaws Self.shows Self.underwent lies_in has_failed };
}
