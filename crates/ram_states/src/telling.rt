//! What a drive tells of its disc, in each of its states. No call here uses the medium.

ghost use Rattle.std.specs.Prelude.{◌≡◌, false};
ghost use Rattle.model_geometry.specs.Geometry.{formattable};
ghost use Rattle.model_drive.specs.Tells.{CountsRule, GivesDds};
ghost use Rattle.ram_states.specs.Shown.{shown_off, shown_bare, shown_ready};

use crate::states::{NotFormatted, PoweredOff, Ready};
use ram_bytes::Block;
use ram_medium::MediumControl;
use ram_sectors::DriveCounts;
use ram_spare::counts;
use ram_zones::Geometry;

/// What a drive tells that has no lists in use: all that depends on them is 0.
fn counts_without(geometry: &Geometry, powered: bool) -> DriveCounts
    ensures { result ≡ record {
      powered = powered;
      formatted = false;
      capacity = 0;
      psa = geometry.now.psa;
      ssa = 0;
      free_primary = 0;
      free_supplementary = 0;
      formattable = formattable geometry.now;
    } }
{
    DriveCounts {
        powered,
        formatted: false,
        capacity: 0,
        psa: geometry.psa(),
        ssa: 0,
        free_primary: 0,
        free_supplementary: 0,
        formattable: geometry.formattable(),
    }
}

impl<M: MediumControl> PoweredOff<M> {
    /// What the drive tells of its disc. With the power off it knows the geometry alone: the primary spares, from 1 to
    /// 4,092 blocks, and the sectors that a full format gives, at most 2,350,864. The other numbers are 0. (This
    /// project's own.)
    pub fn counts(&self) -> DriveCounts
        ensures { CountsRule (shown_off self.now) result }
    {
        counts_without(&self.geometry, false)
    }
}

impl<M: MediumControl> NotFormatted<M> {
    /// What the drive tells of a disc that is not formatted: the same as with the power off, and that the power is on.
    /// (This project's own.)
    pub fn counts(&self) -> DriveCounts
        ensures { CountsRule (shown_bare self.now) result }
    {
        counts_without(&self.geometry, true)
    }
}

impl<M: MediumControl> Ready<M> {
    /// What the drive tells of its disc: how many sectors it has; how many spares there are in each of the two areas, in
    /// blocks, and how many of these are free, at most 8,184 in all; and how many sectors a full format gives. (This
    /// project's own; the spares are those of ECMA-330's linear replacement.)
    pub fn counts(&self) -> DriveCounts
        ensures { CountsRule (shown_ready self.now) result }
    {
        let free = counts(
            &self.geometry,
            &self.memory.lists.dds,
            &self.memory.lists.sdl,
        );
        DriveCounts {
            powered: true,
            formatted: true,
            capacity: self.capacity(),
            psa: self.geometry.psa(),
            ssa: self.memory.lists.sdl.ssa,
            free_primary: free.free_primary,
            free_supplementary: free.free_supplementary,
            formattable: self.geometry.formattable(),
        }
    }

    /// Puts the text of the disc definition structure in use into the block, all of its 32,768 bytes. (After ECMA-330.)
    ///
    /// # Clauses
    ///
    /// - all bytes of the block are the text of the disc definition structure in use (`GivesDds`).
    pub fn dds_block(&self, into: &mut Block)
        ensures { GivesDds (shown_ready self.now).lists into.new }
    {
        self.memory.lists.dds.encode(into);
    }
}
