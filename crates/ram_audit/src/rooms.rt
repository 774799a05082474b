//! The memory of an audit. It is taken once.

ghost use Rattle.std.specs.Prelude.{◌+◌, ◌≤◌, IfOk};
ghost use Rattle.ram_audit.specs.Rooms.{AreReadyToAudit};
ghost use Rattle.ram_audit.specs.declared.rooms.TheConstants.{AUDIT_MEMORY};

use crate::lines::Lines;
use crate::telling::TEXT_ROOM;
use ram_bytes::{Budget, MemoryRefused};
use ram_copies::{SCRATCH_MEMORY, Scratch};
use ram_groups::{AnyLayout, LAYOUT_MEMORY, layout_of_kind};
use ram_lists::{LISTS_MEMORY, Lists as DiscLists};
use ram_zones::LayoutKind;

/// How many bytes an audit asks for: the text, two pairs of lists, a layout of each kind, and a list's text with a copy.
pub const AUDIT_MEMORY: usize = TEXT_ROOM + 2 * LISTS_MEMORY + 2 * LAYOUT_MEMORY + SCRATCH_MEMORY;

/// All the memory that an audit takes, for whatever disc. What it held before does not matter.
#[derive(Drop)]
pub struct AuditRooms {
    /// Room for the text of a certificate.
    pub lines: Lines,
    /// Room for the lists of the disc.
    pub lists: DiscLists,
    /// Room for the lists of the copies that are looked at.
    pub other: DiscLists,
    /// Room for the text of a list, and for the copy that it is compared with.
    pub scratch: Scratch,
    /// A layout with one group of spares.
    pub slip: AnyLayout,
    /// A layout with a group of spares in each zone.
    pub zones: AnyLayout,
}

impl AuditRooms {
    /// All of it, for an audit of any disc.
    ///
    /// # Answers
    ///
    /// - `Ok`: memory for an audit of any disc was given. Then: there is a layout of each kind. (`AreReadyToAudit`)
    /// - `Err`: memory was refused. Then: nothing is there. (clause)
    pub fn new(budget: &mut Budget) -> Result<AuditRooms, MemoryRefused>
        requires free { AUDIT_MEMORY ≤ budget.old }
        ensures left { budget.old ≤ budget.new + AUDIT_MEMORY }
        ensures ready { IfOk result AreReadyToAudit }
    {
        let mut lists = DiscLists::new(budget)?;
        let mut other = DiscLists::new(budget)?;
        Ok(AuditRooms {
            lines: Lines::new(budget)?,
            slip: layout_of_kind(budget, LayoutKind::OneGroup, &mut lists.dds)?,
            zones: layout_of_kind(budget, LayoutKind::EachZone, &mut other.dds)?,
            scratch: Scratch::new(budget)?,
            lists,
            other,
        })
    }
}
