//! A layout of either kind, before there is a disc: the room for that of any disc.

ghost use Rattle.std.specs.Prelude.{◌≡◌, ◌+◌, ◌≤◌, IfOk, []};
ghost use Rattle.ram_groups.specs.Layouts.{IsOfKind};
ghost use Rattle.ram_groups.specs.declared.zone_layout.TheConstants.{LAYOUT_MEMORY};

use crate::any_layout::AnyLayout;
use ram_bytes::{Budget, MemoryRefused};
use ram_dds::DdsPdl;
use ram_zones::{Geometry, LayoutKind};

/// The smallest geometry with a layout of this kind.
fn smallest(kind: LayoutKind) -> Geometry
    ensures { result.layout ≡ kind }
{
    let Ok(geometry) = Geometry::new(1, 1, 1) else {
        unreachable!();
    };
    match kind {
        LayoutKind::OneGroup => geometry,
        LayoutKind::EachZone => geometry.in_zones(),
    }
}

/// A layout of this kind, which has room for any disc: that of a small one, with this structure, which has no entries.
///
/// # Clauses
///
/// - a layout of this kind, with room for any disc, before there is one.
///
/// # Answers
///
/// - `Ok`, `Slip`, `Zones`: a layout of this kind, with room for that of any disc. (`IsOfKind`)
/// - `Err`: the system refused memory that was asked for within the budget. (clause)
pub fn layout_of_kind(
    budget: &mut Budget,
    kind: LayoutKind,
    dds: &mut DdsPdl,
) -> Result<AnyLayout, MemoryRefused>
    requires empty { dds.old.entries ≡ [] }
    requires free { LAYOUT_MEMORY ≤ budget.old }
    ensures left { budget.old ≤ budget.new + LAYOUT_MEMORY }
    ensures kind { IfOk result (IsOfKind kind) }
{
    let geometry = smallest(kind);
    dds.layout = geometry.layout();
    dds.psa = geometry.psa();
    AnyLayout::new(budget, &geometry, dds, 0)
}
