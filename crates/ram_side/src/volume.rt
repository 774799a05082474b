//! The side that a run works on: a volume over the medium in an image.

ghost use Rattle.ram_image.specs.Medium.{bytes_in};
ghost use Rattle.ram_volume.specs.Drives.{shown_by, medium_by};
ghost use Rattle.ram_machine.specs.Lying.{has_cells, by_events, shown_medium, has_blocks};

use crate::rooms::SideRooms;
use crate::side::Side;
use crate::watched::Watched;
use ram_image::{ImageMedium, Refused, open};
use ram_medium::{Arm, FailEnd, Fate};
use ram_outside::Image;
use ram_volume::Volume;
use ram_zones::Geometry;

impl<I: Image> Side for Watched<Volume<ImageMedium<I>>> {
    type Image = I;

    ghost lies_in = { λ side. bytes_in (medium_by side.disc) };

    ghost has_failed = { λ side. side.failed };

    fn open(rooms: SideRooms, image: I) -> Result<(Self, Geometry), Refused<I, SideRooms>> {
        let SideRooms {
            kind,
            memory,
            medium,
        } = rooms;
        match open(medium, image, kind) {
            Ok((medium, geometry)) => {
                let disc = Volume::new(medium, geometry, memory);
                let side = Watched {
                    disc,
                    failed: false,
                };
                Ok((side, geometry))
            }
            Err(
                Refused {
                    image,
                    rooms: medium,
                    fault,
                },
            ) => {
                let rooms = SideRooms {
                    kind,
                    memory,
                    medium,
                };
                Err(Refused {
                    image,
                    rooms,
                    fault,
                })
            }
        }
    }

    fn into_parts(self) -> (I, SideRooms) {
        let Watched { disc, .. } = self;
        let (medium, memory) = disc.into_parts();
        let (image, medium) = medium.into_parts();
        let rooms = SideRooms {
            kind: memory.workspace.layout.kind(),
            memory,
            medium,
        };
        (image, rooms)
    }

    fn watch(&mut self) {
        self.failed = false;
    }

    fn failed(&self) -> bool {
        self.failed
    }

    fn fail(&mut self, block: u32) -> FailEnd {
        let end = self.disc.fail(block);
        if let FailEnd::Failed = end {
            self.failed = true;
        }
        end
    }

    fn wear(&mut self, block: u32, n: u32) -> Arm {
        self.disc.wear(block, n)
    }

    fn arm_cut(&mut self, n: u32, fate: Fate) {
        self.disc.arm_cut(n, fate);
    }

    ghost side_laws = { record {
      has_cells = λ side. has_cells (medium_by side.disc) (shown_by side.disc).medium (shown_medium side.disc);
      by_events = λ old new happened. by_events (medium_by old.disc) (medium_by new.disc) (shown_by old.disc).medium
          (shown_by new.disc).medium _ (shown_medium old.disc) (shown_medium new.disc) (has_blocks old.disc) happened.0;
      tracks = λ old new happened. happened.1;
      same_shape = λ old new happened. happened.2;
    } };
}
