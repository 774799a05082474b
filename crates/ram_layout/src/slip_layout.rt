//! Slipping by a table of runs.

ghost use Rattle.std.specs.Prelude.{◌≡◌, ◌+◌, ◌-◌, ◌≤◌, IfOk, length};
ghost use Rattle.model_geometry.specs.declared.kinds.LayoutKind.TheVariants.{OneGroup};
ghost use Rattle.model_places.specs.Places.{count_of};
ghost use Rattle.model_places.specs.Valid.{IsValidPdl, IsValidOnSome};
ghost use Rattle.ram_dds.specs.Dds.{dds_of};
ghost use Rattle.ram_layout.specs.Slipping.{IsSlippingOf};
ghost use Rattle.ram_layout.specs.declared.slip_layout.TheConstants.{RUNS_MEMORY};
ghost use Rattle.ram_runs.specs.Runs.{blocks_in};

use crate::filling::fill;
use crate::layout::Layout;
use ram_bytes::{Budget, MemoryRefused};
use ram_dds::DdsPdl;
use ram_runs::{Run, block_at, count_in, place_at};
use ram_slip::Role;
use ram_zones::{Geometry, MOST_SPARES, MOST_ZONES};
use std::marker::Model;
use std::mem::size_of;

/// The most runs that the data blocks of a disc have: each zone begins one, and each slipped block.
pub const MOST_RUNS: usize = MOST_ZONES as usize + MOST_SPARES as usize;

/// How many bytes the runs of a disc ask for.
pub const RUNS_MEMORY: usize = MOST_RUNS * size_of::<Run>();

/// The number of the one pool.
const ONLY_POOL: u32 = 0;

/// The layout of a disc with one group of spares: the primary ones come first, then the logical blocks, then the supplementary
/// spares, and slipped blocks are passed over. There is room for any disc.
#[derive(Drop)]
pub struct SlipLayout {
    geometry: Geometry,
    runs: Vec<Run>,
    primary: u32,
    logical: u32,
}

impl Model for SlipLayout {
    ghost use Rattle.ram_layout.specs.Slipping.{SlipTable, table_in, IsSlipTable};

    ghost Value = { SlipTable };

    ghost view = { table_in };

    ghost invariant = { IsSlipTable };
}

impl SlipLayout {
    /// The layout of a structure with n supplementary spares.
    ///
    /// # Clauses
    ///
    /// - the table is that of the structure and of the size of the supplementary spare area: its blocks are the data blocks that
    ///   are not slipped, and it has room for as many runs as a disc of the geometry may have. `rebuild` asks for that room, so
    ///   it takes no memory. These and `set_ssa` ask for a geometry with one group of spares.
    ///
    /// # Answers
    ///
    /// - `Ok`: the table of the structure, with room for that of any disc. (`IsSlippingOf`)
    /// - `Err`: the system refused memory that was asked for within the budget. (clause)
    pub fn new(
        budget: &mut Budget,
        geometry: &Geometry,
        dds: &DdsPdl,
        ssa: u32,
    ) -> Result<SlipLayout, MemoryRefused>
        requires free { RUNS_MEMORY ≤ budget.old }
        requires valid { IsValidPdl geometry.now (dds_of dds.now) }
        requires area { IsValidOnSome geometry.now ssa }
        requires one { geometry.now.layout ≡ OneGroup }
        ensures left { budget.old ≤ budget.new + RUNS_MEMORY }
        ensures slipping { IfOk result (IsSlippingOf geometry.now (dds_of dds.now)
            (count_of geometry.now ssa)) }
    {
        let psa = geometry.psa();
        let mut runs = budget.room(MOST_RUNS)?;
        let entries = dds.entries.as_slice();
        fill(&mut runs, geometry, entries);
        Ok(SlipLayout {
            geometry: *geometry,
            runs,
            primary: psa - entries.len() as u32,
            logical: geometry.data_blocks() - psa - ssa,
        })
    }

    /// Makes it the layout of a structure with n supplementary spares. It takes no memory.
    ///
    /// # Clauses
    ///
    /// - the table is that of the structure and of the size of the supplementary spare area: its blocks are the data blocks that
    ///   are not slipped, and it has room for as many runs as a disc of the geometry may have. `rebuild` asks for that room, so
    ///   it takes no memory. These and `set_ssa` ask for a geometry with one group of spares.
    pub fn rebuild(&mut self, geometry: &Geometry, dds: &DdsPdl, ssa: u32)
        requires valid { IsValidPdl geometry.now (dds_of dds.now) }
        requires area { IsValidOnSome geometry.now ssa }
        requires one { geometry.now.layout ≡ OneGroup }
        ensures { IsSlippingOf geometry.now (dds_of dds.now)
            (count_of geometry.now ssa) self.new }
    {
        let psa = geometry.psa();
        let entries = dds.entries.as_slice();
        fill(&mut self.runs, geometry, entries);
        self.geometry = *geometry;
        self.primary = psa - entries.len() as u32;
        self.logical = geometry.data_blocks() - psa - ssa;
    }

    /// Changes the size of the supplementary spare area. It takes no memory.
    ///
    /// # Clauses
    ///
    /// - the number of logical blocks is that of the new size, and nothing else changes.
    pub fn set_ssa(&mut self, ssa: u32)
        requires area { IsValidOnSome self.old.shape ssa }
        requires one { self.old.shape.layout ≡ OneGroup }
        requires fits { self.old.primary + count_of self.old.shape ssa ≤ length self.old.blocks }
        ensures { self.new ≡ record self.old { logical = count_of self.old.shape ssa } }
    {
        self.logical = self.geometry.data_blocks() - self.geometry.psa() - ssa;
    }

    /// The longest runs of consecutive numbers among the data blocks that are not slipped.
    ///
    /// # Clauses
    ///
    /// - the runs, which are the longest ones, give the blocks of the table.
    pub fn runs(&self) -> &[Run]
        ensures { blocks_in result.now ≡ self.now.blocks }
    {
        self.runs.as_slice()
    }
}

impl Layout for SlipLayout {
    ghost use Rattle.model_geometry.specs.Geometry.{data_blocks};
    ghost use Rattle.ram_layout.specs.Slipping.{slip_pools};

    ghost pools = { slip_pools };

    ghost blocks = { λ table. data_blocks table.shape };

    fn logical(&self) -> u32 {
        self.logical
    }

    fn physical(&self, i: u32) -> u32 {
        block_at(self.runs.as_slice(), self.primary + i)
    }

    fn pools(&self) -> u32 {
        let _logical = self.logical;
        1
    }

    fn pool_of(&self, i: u32) -> u32 {
        ONLY_POOL
    }

    fn spare(&self, pool: u32, k: u32) -> Option<u32> {
        let runs = self.runs.as_slice();
        if k < self.primary {
            return Some(block_at(runs, self.primary - 1 - k));
        }
        let count = count_in(runs);
        if k - self.primary < count - self.primary - self.logical {
            return Some(block_at(runs, count - 1 - (k - self.primary)));
        }
        None
    }

    fn role(&self, block: u32) -> Role {
        let Some(n) = place_at(self.runs.as_slice(), block) else {
            return match self.geometry.data_index(block) {
                Some(_) => Role::Slipped,
                None => Role::Outside,
            };
        };
        if n < self.primary {
            return Role::Primary;
        }
        let i = n - self.primary;
        if i < self.logical {
            return Role::Logical { i };
        }
        Role::Supplementary
    }
}
