//! Which capacities a disc may have after an expansion.

ghost use Rattle.std.specs.Prelude.{◌≡◌, ◌↔◌, ◌+◌, ◌/◌, ◌≤◌, IsTrue, length};
ghost use Rattle.model_geometry.specs.Geometry.{IsLawful, data_blocks, spare_room};
ghost use Rattle.model_places.specs.Valid.{AreValid, AreaGrows};
ghost use Rattle.model_drive.specs.Expands.{ssa_for};
ghost use Rattle.ram_lists.specs.Lists.{lists_of};
ghost use Rattle.ram_expand.specs.Sizes.{SizeRule};

use ram_lists::Lists;
use ram_zones::{Geometry, LayoutKind};

/// What a capacity is to a disc.
#[derive(Clone, Copy)]
pub enum Size {
    /// The disc cannot have it.
    Unlawful,
    /// It has just this one.
    Present,
    /// It has a greater one, and can have this.
    Smaller,
}

/// The size of the supplementary spare area that leaves n sectors, in blocks.
pub fn area_for(geometry: &Geometry, capacity: u32) -> u32
    requires { spare_room geometry.now 0 + capacity / 16 ≤ length (data_blocks geometry.now) }
    ensures area { result ≡ ssa_for geometry.now capacity }
    ensures lawful { IsLawful geometry.now }
{
    geometry.data_blocks() - geometry.spare_room() - capacity / 16
}

/// Whether the supplementary spare area may grow: with one group of spares it may, and with a group in each zone there is none.
fn may_grow(geometry: &Geometry) -> bool
    ensures { IsTrue result ↔ AreaGrows geometry.now }
{
    match geometry.layout() {
        LayoutKind::OneGroup => true,
        LayoutKind::EachZone => false,
    }
}

/// What a capacity in sectors is to the disc of these lists.
pub fn size_of(geometry: &Geometry, lists: &Lists, capacity: u32) -> Size
    requires { AreValid geometry.now (lists_of lists.now) }
    ensures { SizeRule geometry.now (lists_of lists.now) capacity result }
{
    let room = geometry.spare_room();
    let present = (geometry.data_blocks() - room - lists.sdl.ssa) * 16;
    if capacity == present {
        return Size::Present;
    }
    if capacity == 0 || capacity % 16 != 0 || present < capacity {
        return Size::Unlawful;
    }
    if !may_grow(geometry) {
        return Size::Unlawful;
    }
    if lists.sdl.version.most_spares() < room + area_for(geometry, capacity) {
        return Size::Unlawful;
    }
    Size::Smaller
}
