//! A group of spares in each zone, by a table of runs and the places where the zones begin in it.

ghost use Rattle.std.specs.Prelude.{◌≡◌, ◌+◌, ◌<◌, ◌≤◌, IfOk, length, slice_index};
ghost use Rattle.model_geometry.specs.declared.kinds.LayoutKind.TheVariants.{EachZone};
ghost use Rattle.model_geometry.specs.Geometry.{spare_room};
ghost use Rattle.model_places.specs.Valid.{IsValidPdl};
ghost use Rattle.ram_dds.specs.Dds.{dds_of};
ghost use Rattle.ram_groups.specs.Zoning.{IsZoneOfPlace, IsZoningOf};
ghost use Rattle.ram_groups.specs.declared.zone_layout.TheConstants.{LAYOUT_MEMORY};

use crate::filling::fill_zones;
use crate::numbers::zone_of_number;
use model_geometry::MOST_ZONES;
use ram_bytes::{Budget, MemoryRefused};
use ram_dds::DdsPdl;
use ram_layout::{Layout, MOST_RUNS, RUNS_MEMORY, Run};
use ram_runs::{block_at, place_at};
use ram_slip::{Role, zone_count, zone_first};
use ram_zones::Geometry;
use std::marker::Model;
use std::mem::size_of;

/// How many places there are where a zone begins, and the end.
const MOST_STARTS: usize = MOST_ZONES as usize + 1;

/// How many bytes a table of runs and the places where the zones begin in it ask for.
pub const LAYOUT_MEMORY: usize = RUNS_MEMORY + MOST_STARTS * size_of::<u32>();

/// The layout of a disc with a group of spares in each zone: of the blocks of a zone that are not slipped the first are its
/// logical blocks, and the others its spares. There is room for any disc.
#[derive(Drop)]
pub struct ZoneLayout {
    geometry: Geometry,
    runs: Vec<Run>,
    /// The places in the table where the zones begin, and its end.
    starts: Vec<u32>,
}

impl Model for ZoneLayout {
    ghost use Rattle.ram_groups.specs.Zoning.{ZoneTable, zone_table_in, IsZoneTable};

    ghost Value = { ZoneTable };

    ghost view = { zone_table_in };

    ghost invariant = { IsZoneTable };
}

impl ZoneLayout {
    /// The layout of a structure.
    ///
    /// # Clauses
    ///
    /// - the table is that of the structure: its blocks are the data blocks that are not slipped, it knows how many of them come
    ///   before each zone, and it has room for as many runs as a disc of the geometry may have. `rebuild` asks for that room, so
    ///   it takes no memory.
    /// - `left`: they ask for at most `LAYOUT_MEMORY` bytes of a budget that has as many.
    ///
    /// # Answers
    ///
    /// - `Ok`: the table of the structure, with room for that of any disc. (`IsZoningOf`)
    /// - `Err`: the system refused memory that was asked for within the budget. (clause)
    pub fn new(
        budget: &mut Budget,
        geometry: &Geometry,
        dds: &DdsPdl,
    ) -> Result<ZoneLayout, MemoryRefused>
        requires free { LAYOUT_MEMORY ≤ budget.old }
        requires valid { IsValidPdl geometry.now (dds_of dds.now) }
        requires zones { geometry.now.layout ≡ EachZone }
        ensures left { budget.old ≤ budget.new + LAYOUT_MEMORY }
        ensures zoning { IfOk result (IsZoningOf geometry.now (dds_of dds.now)) }
    {
        let _room = geometry.spare_room();
        let mut runs = budget.room(MOST_RUNS)?;
        let mut starts = budget.room(MOST_STARTS)?;
        fill_zones(&mut runs, &mut starts, geometry, dds.entries.as_slice());
        Ok(ZoneLayout {
            geometry: *geometry,
            runs,
            starts,
        })
    }

    /// Makes it the layout of a structure. It takes no memory.
    ///
    /// # Clauses
    ///
    /// - the table is that of the structure: its blocks are the data blocks that are not slipped, it knows how many of them come
    ///   before each zone, and it has room for as many runs as a disc of the geometry may have. `rebuild` asks for that room, so
    ///   it takes no memory.
    pub fn rebuild(&mut self, geometry: &Geometry, dds: &DdsPdl)
        requires valid { IsValidPdl geometry.now (dds_of dds.now) }
        requires zones { geometry.now.layout ≡ EachZone }
        ensures { IsZoningOf geometry.now (dds_of dds.now) self.new }
    {
        let _room = geometry.spare_room();
        fill_zones(
            &mut self.runs,
            &mut self.starts,
            geometry,
            dds.entries.as_slice(),
        );
        self.geometry = *geometry;
    }

    /// The place in the table where a zone begins; or its end, after the last zone.
    fn start(&self, zone: u32) -> u32
        requires { zone ≤ self.now.shape.zones }
        ensures { result ≡ slice_index self.now.starts zone }
    {
        self.starts[zone as usize]
    }

    /// The zone of the block at this place of the table, by halving.
    fn zone_of_place(&self, place: u32) -> u32
        requires { place < length self.now.blocks }
        ensures { IsZoneOfPlace self.now place result }
    {
        let _zones = self.geometry.zones();
        self.starts.partition_point(|start| *start <= place) as u32 - 1
    }
}

impl Layout for ZoneLayout {
    ghost use Rattle.model_geometry.specs.Geometry.{data_blocks};
    ghost use Rattle.ram_groups.specs.Zoning.{zone_pools};

    ghost pools = { zone_pools };

    ghost blocks = { λ table. data_blocks table.shape };

    fn logical(&self) -> u32 {
        zone_first(&self.geometry, self.geometry.zones())
    }

    fn physical(&self, i: u32) -> u32 {
        let zone = zone_of_number(&self.geometry, i);
        let after = i - zone_first(&self.geometry, zone);
        block_at(self.runs.as_slice(), self.start(zone) + after)
    }

    fn pools(&self) -> u32 {
        self.geometry.zones()
    }

    fn pool_of(&self, i: u32) -> u32 {
        zone_of_number(&self.geometry, i)
    }

    fn spare(&self, pool: u32, k: u32) -> Option<u32> {
        let first = self.start(pool) + zone_count(&self.geometry, pool);
        if k < self.start(pool + 1) - first {
            return Some(block_at(self.runs.as_slice(), first + k));
        }
        None
    }

    fn role(&self, block: u32) -> Role {
        let Some(n) = place_at(self.runs.as_slice(), block) else {
            return match self.geometry.data_index(block) {
                Some(_) => Role::Slipped,
                None => Role::Outside,
            };
        };
        let zone = self.zone_of_place(n);
        let after = n - self.start(zone);
        if after < zone_count(&self.geometry, zone) {
            return Role::Logical {
                i: zone_first(&self.geometry, zone) + after,
            };
        }
        Role::Primary
    }
}
