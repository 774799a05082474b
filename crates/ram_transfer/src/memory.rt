//! The memory that a drive works with: all of it is taken by [`Memory::new`].

ghost use Rattle.std.specs.Prelude.{◌≡◌, ◌+◌, ◌≤◌, IfOk, Some, [], length, vec_capacity};
ghost use Rattle.model_places.specs.Valid.{AreValid};
ghost use Rattle.ram_format.specs.Keeping.{RiseApart, AreAllKept};
ghost use Rattle.ram_groups.specs.Layouts.{IsOfKind, layout_pools};
ghost use Rattle.ram_lists.specs.Lists.{lists_of};
ghost use Rattle.ram_spare.specs.Turns.{AreAtFirstFree};
ghost use Rattle.ram_transfer.specs.Layouts.{IsLaidOut};
ghost use Rattle.ram_groups.specs.declared.zone_layout.TheConstants.{LAYOUT_MEMORY};
ghost use Rattle.ram_transfer.specs.declared.memory.TheConstants.{WORKSPACE_MEMORY, VOLUME_MEMORY};

use ram_buffer::{BUFFER_MEMORY, BlockBuffer};
use ram_bytes::{BLOCK_BYTES, Block, Budget, MemoryRefused};
use ram_copies::{SCRATCH_MEMORY, Scratch};
use ram_dds::PdlEntry;
use ram_format::{FORMAT_MEMORY, FormatRoom, kept_entries};
use ram_groups::{AnyLayout, LAYOUT_MEMORY, layout_of_kind};
use ram_layout::Layout;
use ram_lists::{LISTS_MEMORY, Lists};
use ram_spare::{CURSORS_MEMORY, Cursors};
use ram_zones::{Geometry, LayoutKind};
use std::mem::size_of;

/// The most entries that a full format may keep: those of a primary and of a secondary defect list.
const MOST_KEPT: usize = 12_276;

/// How many bytes a [`Workspace`] asks for: the secondary list that is written next and what a mount looks at, the table of runs, the
/// cursors, the buffer, the scratch block and what is read back, the copies of a list, and what a full format keeps and finds.
pub const WORKSPACE_MEMORY: usize = LISTS_MEMORY
    + LAYOUT_MEMORY
    + CURSORS_MEMORY
    + BUFFER_MEMORY
    + 2 * BLOCK_BYTES
    + SCRATCH_MEMORY
    + MOST_KEPT * size_of::<PdlEntry>()
    + FORMAT_MEMORY;

/// How many bytes a drive's [`Memory`] asks for.
pub const VOLUME_MEMORY: usize = LISTS_MEMORY + WORKSPACE_MEMORY;

/// The memory in which the calls of a drive with its power on work, and what stays between them: the buffer, and on a formatted
/// disc its layout, with how far its spares are used.
#[derive(Drop)]
pub struct Workspace {
    /// Room for the lists of the copies that a mount looks at, and for the secondary list that is written next.
    pub draft: Lists,
    /// The blocks that are buffered.
    pub buffer: BlockBuffer,
    /// The scratch block, in which a block is read and merged.
    pub block: Block,
    /// What was read back of the block that was written last.
    pub back: Block,
    /// Room for the copies of a list.
    pub scratch: Scratch,
    /// Where logical blocks and spares lie.
    pub layout: AnyLayout,
    /// How far the spares are known to be used.
    pub cursors: Cursors,
    /// Room for the entries that a full format keeps.
    pub kept: Vec<PdlEntry>,
    /// Room for what a full format finds, and for the replacements of the lists in use while their layout is made.
    pub format: FormatRoom,
    ghost kept_roomy: { 12276 ≤ vec_capacity kept },
}

/// All memory that a drive works with, for any disc with a layout of one kind. With the power off, or on with a disc that is not
/// formatted, it holds nothing that matters.
#[derive(Drop)]
pub struct Memory {
    /// The lists in use, or room for them.
    pub lists: Lists,
    pub workspace: Workspace,
}

impl Workspace {
    /// Takes all of it, for discs with a layout of this kind.
    fn new(budget: &mut Budget, kind: LayoutKind) -> Result<Workspace, MemoryRefused>
        requires free { WORKSPACE_MEMORY ≤ budget.old }
        ensures left { budget.old ≤ budget.new + WORKSPACE_MEMORY }
        ensures kind { IfOk result (λ workspace. IsOfKind kind workspace.layout) }
    {
        let mut draft = Lists::new(budget)?;
        let layout = layout_of_kind(budget, kind, &mut draft.dds)?;
        Ok(Workspace {
            cursors: Cursors::new(budget)?,
            layout,
            draft,
            buffer: BlockBuffer::new(budget)?,
            block: Block::zeros(budget)?,
            back: Block::zeros(budget)?,
            scratch: Scratch::new(budget)?,
            kept: budget.room(MOST_KEPT)?,
            format: FormatRoom::new(budget)?,
        })
    }

    /// Makes the layout that of a disc with these lists, with each cursor at the first free spare of its pool.
    ///
    /// # Clauses
    ///
    /// - `laid_out`, `same_buffer`: the layout is that of the disc with these lists, and the cursors fit them; the buffer stays.
    /// - `first_free`: each cursor is at the first spare of its pool that no entry names, or behind the last where each is named.
    pub fn lay_out(&mut self, geometry: &Geometry, lists: &Lists)
        requires valid { AreValid geometry.now (lists_of lists.now) }
        requires kind { IsOfKind geometry.now.layout self.old.layout }
        ensures laid_out { IsLaidOut geometry.now (lists_of lists.now) self.new.layout self.new.cursors }
        ensures first_free { AreAtFirstFree (layout_pools self.new.layout) lists.now.sdl.entries self.new.cursors }
        ensures same_buffer { self.new.buffer ≡ self.old.buffer }
    {
        self.layout.rebuild(geometry, &lists.dds, lists.sdl.ssa);
        let _room = geometry.spare_room();
        self.cursors.reset(self.layout.pools());
        self.cursors
            .set_to_first_free(&self.layout, &lists.sdl, &mut self.format.found);
    }

    /// Puts the entries that a full format keeps of these lists into their room. With `drop_sdl` those of the secondary list are
    /// forgotten.
    ///
    /// # Clauses
    ///
    /// - `kept`: in their room are just the entries that a full format keeps of these lists; buffer, layout and cursors stay.
    pub fn keep_entries(&mut self, lists: &Lists, drop_sdl: bool)
        requires apart { RiseApart (lists_of lists.now) }
        requires few { length lists.now.dds.entries ≤ 4092 }
        requires few_replaced { length lists.now.sdl.entries ≤ 8184 }
        ensures kept { AreAllKept (Some (lists_of lists.now)) drop_sdl self.new.kept.items }
        ensures same_buffer { self.new.buffer ≡ self.old.buffer }
        ensures same_layout { self.new.layout ≡ self.old.layout }
        ensures same_cursors { self.new.cursors ≡ self.old.cursors }
    {
        kept_entries(lists, drop_sdl, &mut self.format.found, &mut self.kept);
    }
}

impl Memory {
    /// Takes all of it, for any disc with a layout of this kind.
    ///
    /// # Clauses
    ///
    /// - its layout is of this kind (`IsOfKind`); that there is room for the layout of any such disc, for its cursors and for
    ///   what a full format keeps, the types keep. What else it holds is not said. It asks for at most `VOLUME_MEMORY` bytes of a
    ///   budget that has as many (`left`); a refusal is the system's, by its type.
    ///
    /// # Answers
    ///
    /// - `Ok`: all memory of a drive, for any disc with a layout of this kind. (`IsOfKind`)
    /// - `Err`: the system refused memory that was asked for within the budget. (clause)
    pub fn new(budget: &mut Budget, kind: LayoutKind) -> Result<Memory, MemoryRefused>
        requires free { VOLUME_MEMORY ≤ budget.old }
        ensures left { budget.old ≤ budget.new + VOLUME_MEMORY }
        ensures kind { IfOk result (λ memory. IsOfKind kind memory.workspace.layout) }
    {
        Ok(Memory {
            lists: Lists::new(budget)?,
            workspace: Workspace::new(budget, kind)?,
        })
    }
}
