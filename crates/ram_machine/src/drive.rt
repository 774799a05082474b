//! A drive as the lines of a script work with it: a disc, and what a script does to the medium below it.
ghost use Rattle.std.specs.Prelude.{◌≡◌, ℕ, ◌≤◌, Option, List, MatchResult};
ghost use Rattle.model_geometry.specs.Geometry.{total};
ghost use Rattle.model_cache.specs.Values.{Contents};
ghost use Rattle.model_cache.specs.Causes.{KeepsCache};
ghost use Rattle.ram_image.specs.EventBytes.{FailBytes};
ghost use Rattle.ram_image.specs.Opening.{IsRefused};
ghost use Rattle.ram_medium.specs.Control.{WearRule, with_armed_cut};
ghost use Rattle.ram_states.specs.Control.{KeepsMemory, FailOnDrive};
ghost use Rattle.ram_machine.specs.Drive.{OpensDrive, DriveLaws};
ghost use Rattle.ram_machine.specs.Control.{contents_after_fail, contents_after_sync, SyncOnCached};

use crate::rooms::DriveRooms;
use ram_image::Refused;
use ram_medium::{Arm, FailEnd, Fate, SyncEnd};
use ram_outside::Image;
use ram_sectors::Caching;

/// A drive with a write cache over a medium that lies in an image, and that can be made to fail. What is done to the medium
/// leaves the cache as it is.
pub trait Drive: Caching {
    /// The image.
    type Image: Image;

    /// The bytes of the image, also those under cells that are not good, where they are known.
    ghost lies_in: { Self → Option (List ℕ) };

    /// The drive over the disc that the image holds, with a layout of the kind that the rooms are for, and with the power off.
    /// Else the image is handed back with the bytes that it had, with the rooms and the reason: it has no such disc's header or
    /// length, or it failed.
    ///
    /// # Answers
    ///
    /// - `Ok`: the image is a disc's, where its bytes are known, and it did not fail. Then: the drive lies in the same bytes,
    ///   with the power off and the cache off and empty. (`OpensDrive`)
    /// - `Err`: it is not, or it failed. Then: the image is handed back with the bytes that it had, and the rooms. (`IsRefused`)
    /// - `Header`, `Length`: as of `open` of `ram_image`. Then: the image did not fail. (`IsRefused`)
    /// - `Fault`: the image counted a failure. (`IsRefused`)
    fn open(rooms: DriveRooms, image: Self::Image) -> Result<Self, Refused<Self::Image, DriveRooms>>
        ensures { MatchResult result (λ drive. OpensDrive rooms.kind (Self.Image.bytes image)
            (Self.Image.faults image) (Self.shows drive) (Self.stands drive) (lies_in drive))
            (λ refused. (refused.rooms.kind ≡ rooms.kind)
            × IsRefused rooms.kind (Self.Image.bytes image) (Self.Image.bytes refused.image)
            (Self.Image.faults image) (Self.Image.faults refused.image) refused.fault) };

    /// The image, with the bytes in which the drive lay, and the rooms.
    fn into_parts(self) -> (Self::Image, DriveRooms)
        ensures count { Self.Image.faults result.0 ≡ (Self.shows self).drive.medium.world.faults }
        ensures bytes { Self.Image.bytes result.0 ≡ lies_in self }
        ensures kind { result.1.kind ≡ (Self.shows self).drive.shape.layout };

    /// Makes block `block` of the medium dead, counted from 0, with the power on or off: `Done`. There is no such block:
    /// `NoBlock`, with how many there are. The image failed: `Failed`, and the power is off. What is kept in memory stays,
    /// unless the power goes off.
    ///
    /// # Answers
    ///
    /// As for `MediumControl::fail`; what is kept in memory stays, unless the power goes off.
    ///
    /// - `Done`: as of `MediumControl::fail`. Then: lists, buffer and cache stay. (`FailOnDrive`)
    /// - `NoBlock`: as of `MediumControl::fail`. Then: nothing changed. (`FailOnDrive`)
    /// - `Failed`: as of `MediumControl::fail`. Then: the power is off. (`FailOnDrive`)
    fn fail(&mut self, block: u32) -> FailEnd
        ensures rule { FailOnDrive (Self.shows self.old).drive (Self.shows self.new).drive block result }
        ensures cache { KeepsCache (Self.shows self.old) (Self.shows self.new) }
        ensures bytes { FailBytes block (lies_in self.old) (lies_in self.new) result }
        ensures stands { (s : Contents) → Self.stands self.old s
            → Self.stands self.new (contents_after_fail s result) };

    /// Makes block `block` of the medium dead at its `n`-th use from now on, the next one being the first: `Set`. There
    /// is no such block: `NoBlock`. As many arms stand as can, 64: `Full`.
    ///
    /// # Answers
    ///
    /// As for `MediumControl::wear`; lists, buffer, cache and disc stay (`KeepsMemory`).
    ///
    /// - `Set`, `NoBlock`, `Full`: as of `MediumControl::wear`. Then: as of it. (`WearRule`)
    fn wear(&mut self, block: u32, n: u32) -> Arm
        requires { 1 ≤ n }
        ensures rule { WearRule (total (Self.shows self.old).drive.shape) (Self.shows self.old).drive.medium
            (Self.shows self.new).drive.medium (record { block = block; left = n }) result }
        ensures bytes { lies_in self.new ≡ lies_in self.old }
        ensures keeps { KeepsMemory (Self.shows self.old).drive (Self.shows self.new).drive }
        ensures cache { KeepsCache (Self.shows self.old) (Self.shows self.new) }
        ensures stands { (s : Contents) → Self.stands self.old s → Self.stands self.new s };

    /// Cuts the power at the `n`-th use of any block from now on, the next one being the first, with this fate of a write
    /// that is cut. The cut takes the place of one that was armed.
    fn arm_cut(&mut self, n: u32, fate: Fate)
        requires { 1 ≤ n }
        ensures rule { (Self.shows self.new).drive.medium
            ≡ with_armed_cut n fate (Self.shows self.old).drive.medium }
        ensures bytes { lies_in self.new ≡ lies_in self.old }
        ensures keeps { KeepsMemory (Self.shows self.old).drive (Self.shows self.new).drive }
        ensures cache { KeepsCache (Self.shows self.old) (Self.shows self.new) }
        ensures stands { (s : Contents) → Self.stands self.old s → Self.stands self.new s };

    /// Waits until all that was written to the image is where no failure of the system can lose it, as `File::sync_data` does, with
    /// the power on or off. What the cache holds back was not written.
    ///
    /// # Answers
    ///
    /// - `Done`: the image says that it lasts. Then: nothing changed. (`SyncOnCached`)
    /// - `Failed`: the image counted a failure. Then: the power is off; no byte changed, and the cache stays. (`FailsInSync`,
    ///   `SyncOnCached`)
    fn sync(&mut self) -> SyncEnd
        ensures rule { SyncOnCached (Self.shows self.old) (Self.shows self.new) result }
        ensures bytes { lies_in self.new ≡ lies_in self.old }
        ensures stands { (s : Contents) → Self.stands self.old s
            → Self.stands self.new (contents_after_sync s result) };

    ghost drive_laws: { DriveLaws Self.shows Self.underwent lies_in };
}
