//! The numbers of the record of the lead, which each disc of a mirror has.

ghost use Rattle.std.specs.Prelude.{◌≡◌};
ghost use Rattle.model_lists.specs.declared.records.TheConstants.{REGIONS, REGION_BLOCKS};

/// How many logical blocks a region has: the last one of a disc may have fewer.
pub const REGION_BLOCKS: u32 = 64;

/// How many regions a record names: as many as the greatest disc has.
pub const REGIONS: usize = 2_296;

/// The numbers that contracts share with the code.
pub fn regions_are_these()
    ensures blocks { REGION_BLOCKS ≡ 64 }
    ensures regions { REGIONS ≡ 2296 }
{}
