//! The drive that a run works on: a volume over the medium in an image, with a write cache.

ghost use Rattle.ram_image.specs.Medium.{bytes_in};
ghost use Rattle.ram_volume.specs.Drives.{shown_by, medium_by};
ghost use Rattle.ram_machine.specs.Lying.{has_cells, by_events, shown_medium, has_blocks};

use crate::drive::Drive;
use crate::rooms::DriveRooms;
use ram_cache::Cached;
use ram_image::{ImageMedium, Refused, open};
use ram_medium::{Arm, FailEnd, Fate, SyncEnd};
use ram_outside::Image;
use ram_volume::Volume;

impl<I: Image> Drive for Cached<Volume<ImageMedium<I>>> {
    type Image = I;

    ghost lies_in = { λ cached. bytes_in (medium_by cached.disc) };

    fn open(rooms: DriveRooms, image: I) -> Result<Self, Refused<I, DriveRooms>> {
        let DriveRooms {
            kind,
            memory,
            pending,
            medium,
        } = rooms;
        match open(medium, image, kind) {
            Ok((medium, geometry)) => {
                let volume = Volume::new(medium, geometry, memory);
                Ok(Cached::new(volume, pending))
            }
            Err(
                Refused {
                    image,
                    rooms: medium,
                    fault,
                },
            ) => {
                let rooms = DriveRooms {
                    kind,
                    memory,
                    pending,
                    medium,
                };
                Err(Refused {
                    image,
                    rooms,
                    fault,
                })
            }
        }
    }

    fn into_parts(self) -> (I, DriveRooms) {
        let (volume, pending) = self.into_parts();
        let (medium, memory) = volume.into_parts();
        let (image, medium) = medium.into_parts();
        let rooms = DriveRooms {
            kind: memory.workspace.layout.kind(),
            memory,
            pending,
            medium,
        };
        (image, rooms)
    }

    fn fail(&mut self, block: u32) -> FailEnd {
        self.disc.fail(block)
    }

    fn wear(&mut self, block: u32, n: u32) -> Arm {
        self.disc.wear(block, n)
    }

    fn arm_cut(&mut self, n: u32, fate: Fate) {
        self.disc.arm_cut(n, fate);
    }

    fn sync(&mut self) -> SyncEnd {
        self.disc.sync()
    }

    ghost drive_laws = { record {
      has_cells = λ cached. has_cells (medium_by cached.disc) (shown_by cached.disc).medium (shown_medium cached.disc);
      by_events = λ old new happened. by_events (medium_by old.disc) (medium_by new.disc) (shown_by old.disc).medium
          (shown_by new.disc).medium _ (shown_medium old.disc) (shown_medium new.disc) (has_blocks old.disc) happened;
    } };
}
