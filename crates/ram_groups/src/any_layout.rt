//! One layout for both kinds.

ghost use Rattle.std.specs.Prelude.{◌≡◌, ◌+◌, ◌≤◌, IfOk};
ghost use Rattle.model_places.specs.Valid.{IsValidPdl, IsValidOnSome};
ghost use Rattle.ram_dds.specs.Dds.{dds_of};
ghost use Rattle.ram_groups.specs.Layouts.{IsLayoutOf, IsOfKind, MayHave, with_ssa};
ghost use Rattle.ram_groups.specs.declared.zone_layout.TheConstants.{LAYOUT_MEMORY};

use crate::zone_layout::ZoneLayout;
use ram_bytes::{Budget, MemoryRefused};
use ram_dds::DdsPdl;
use ram_layout::{Layout, SlipLayout};
use ram_slip::Role;
use ram_zones::{Geometry, LayoutKind};

/// The layout of a disc, of either kind.
#[derive(Drop)]
pub enum AnyLayout {
    /// With one group of spares.
    Slip(SlipLayout),
    /// With a group of spares in each zone.
    Zones(ZoneLayout),
}

impl AnyLayout {
    /// The layout of a structure with n supplementary spares, of the kind of the geometry.
    ///
    /// # Clauses
    ///
    /// - the layout is of the kind of the geometry, and that of the structure and of the size of the supplementary spare area.
    ///   `rebuild` asks for a layout of that kind with room, and takes no memory.
    /// - `left`: they ask for at most `LAYOUT_MEMORY` bytes of a budget that has as many.
    ///
    /// # Answers
    ///
    /// - `Ok`, `Slip`: the geometry has one group of spares: the layout of the structure and of the size of the supplementary
    ///   spare area. (`IsLayoutOf`)
    /// - `Ok`, `Zones`: it has a group in each zone: the layout of the structure. (`IsLayoutOf`)
    /// - `Err`: the system refused memory that was asked for within the budget. (clause)
    pub fn new(
        budget: &mut Budget,
        geometry: &Geometry,
        dds: &DdsPdl,
        ssa: u32,
    ) -> Result<AnyLayout, MemoryRefused>
        requires free { LAYOUT_MEMORY ≤ budget.old }
        requires valid { IsValidPdl geometry.now (dds_of dds.now) }
        requires area { IsValidOnSome geometry.now ssa }
        ensures left { budget.old ≤ budget.new + LAYOUT_MEMORY }
        ensures layout { IfOk result (IsLayoutOf geometry.now (dds_of dds.now) ssa) }
    {
        match geometry.layout() {
            LayoutKind::OneGroup => {
                Ok(AnyLayout::Slip(SlipLayout::new(budget, geometry, dds, ssa)?))
            }
            LayoutKind::EachZone => Ok(AnyLayout::Zones(ZoneLayout::new(budget, geometry, dds)?)),
        }
    }

    /// Its kind.
    ///
    /// # Answers
    ///
    /// - `OneGroup`, `EachZone`: the kind that the layout is of. (`IsOfKind`)
    pub fn kind(&self) -> LayoutKind
        ensures { IsOfKind result self.now }
    {
        match self {
            AnyLayout::Slip(_) => LayoutKind::OneGroup,
            AnyLayout::Zones(_) => LayoutKind::EachZone,
        }
    }

    /// Makes it the layout of a structure with n supplementary spares. It is of the kind of the geometry. It takes no
    /// memory.
    ///
    /// # Clauses
    ///
    /// - the layout is of the kind of the geometry, and that of the structure and of the size of the supplementary spare area.
    ///   `rebuild` asks for a layout of that kind with room, and takes no memory.
    pub fn rebuild(&mut self, geometry: &Geometry, dds: &DdsPdl, ssa: u32)
        requires valid { IsValidPdl geometry.now (dds_of dds.now) }
        requires area { IsValidOnSome geometry.now ssa }
        requires kind { IsOfKind geometry.now.layout self.old }
        ensures { IsLayoutOf geometry.now (dds_of dds.now) ssa self.new }
    {
        match self {
            AnyLayout::Slip(layout) => layout.rebuild(geometry, dds, ssa),
            AnyLayout::Zones(layout) => layout.rebuild(geometry, dds),
        }
    }

    /// Changes the size of the supplementary spare area, which one group alone has. It takes no memory.
    ///
    /// # Clauses
    ///
    /// - the number of logical blocks is that of the new size, and nothing else changes; with a group in each zone nothing does.
    pub fn set_ssa(&mut self, ssa: u32)
        requires { MayHave ssa self.old }
        ensures { self.new ≡ with_ssa ssa self.old }
    {
        match self {
            AnyLayout::Slip(layout) => layout.set_ssa(ssa),
            AnyLayout::Zones(_) => {}
        }
    }
}

impl Layout for AnyLayout {
    ghost use Rattle.ram_groups.specs.Layouts.{layout_pools, layout_blocks};

    ghost pools = { layout_pools };

    ghost blocks = { layout_blocks };

    fn logical(&self) -> u32 {
        match self {
            AnyLayout::Slip(layout) => layout.logical(),
            AnyLayout::Zones(layout) => layout.logical(),
        }
    }

    fn physical(&self, i: u32) -> u32 {
        match self {
            AnyLayout::Slip(layout) => layout.physical(i),
            AnyLayout::Zones(layout) => layout.physical(i),
        }
    }

    fn pools(&self) -> u32 {
        match self {
            AnyLayout::Slip(layout) => layout.pools(),
            AnyLayout::Zones(layout) => layout.pools(),
        }
    }

    fn pool_of(&self, i: u32) -> u32 {
        match self {
            AnyLayout::Slip(layout) => layout.pool_of(i),
            AnyLayout::Zones(layout) => layout.pool_of(i),
        }
    }

    fn spare(&self, pool: u32, k: u32) -> Option<u32> {
        match self {
            AnyLayout::Slip(layout) => layout.spare(pool, k),
            AnyLayout::Zones(layout) => layout.spare(pool, k),
        }
    }

    fn role(&self, block: u32) -> Role {
        match self {
            AnyLayout::Slip(layout) => layout.role(block),
            AnyLayout::Zones(layout) => layout.role(block),
        }
    }
}
