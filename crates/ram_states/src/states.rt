//! The states of a drive. Their types keep what holds of them, so that no call has to test it again.

ghost use Rattle.std.specs.Prelude.{◌≡◌, IsTrue};
ghost use Rattle.std.proofs.Props.{props};
ghost use Rattle.model_geometry.specs.Geometry.{total};
ghost use Rattle.model_lists.specs.Values.{IsLawfulDds, IsLawfulSdl};
ghost use Rattle.model_copies.specs.Parts.{AreMarkedWithin};
ghost use Rattle.model_places.specs.Valid.{AreValid};
ghost use Rattle.model_places.proofs.OneProof.{valid-prop};
ghost use Rattle.model_volume.specs.Given.{GivesNone, AreSettled};
ghost use Rattle.model_volume.proofs.OneProof.{settled-prop};
ghost use Rattle.ram_dds.specs.Dds.{dds_of};
ghost use Rattle.ram_sdl.specs.Sdl.{sdl_of};
ghost use Rattle.ram_lists.specs.Lists.{lists_of};
ghost use Rattle.ram_groups.specs.Layouts.{IsOfKind};
ghost use Rattle.ram_transfer.specs.Layouts.{IsLaidOut};
ghost use Rattle.ram_states.specs.OneProof.{lawful_dds-prop, kind-prop, laid_out-prop};

use ram_bytes::{Block, SECTORS_PER_BLOCK};
use ram_medium::MediumControl;
use ram_transfer::Memory;
use ram_zones::Geometry;

/// A drive with its power off. It keeps its medium and the geometry, and the memory in which it works with its power on; what that
/// holds does not matter.
#[derive(Drop)]
pub struct PoweredOff<M: MediumControl> {
    pub(crate) medium: M,
    pub(crate) geometry: Geometry,
    pub(crate) memory: Memory,
    ghost size: { M.block_count medium ≡ total geometry },
    ghost off: { ¬ IsTrue (M.world medium).power } by { Prim.hlevel props },
    ghost kind: { IsOfKind geometry.layout memory.workspace.layout } by { kind-prop _ _ },
}

/// A drive with its power on and a formatted disc. Its lists are valid, and each of their copies is exactly its text, or
/// dead.
#[derive(Drop)]
pub struct Ready<M: MediumControl> {
    pub(crate) medium: M,
    pub(crate) geometry: Geometry,
    /// The lists in use, and what the calls work in.
    pub(crate) memory: Memory,
    ghost size: { M.block_count medium ≡ total geometry },
    ghost on: { IsTrue (M.world medium).power } by { Prim.hlevel props },
    ghost valid: { AreValid geometry (lists_of memory.lists) } by { valid-prop geometry (lists_of memory.lists) },
    ghost settled: { AreSettled geometry (M.world medium).cells (lists_of memory.lists) } by { settled-prop _ _ _ },
    ghost lawful_dds: { IsLawfulDds (dds_of memory.lists.dds) } by { lawful_dds-prop (dds_of memory.lists.dds) },
    ghost lawful_sdl: { IsLawfulSdl (sdl_of memory.lists.sdl) } by { Prim.hlevel props },
    ghost laid_out: { IsLaidOut geometry (lists_of memory.lists) memory.workspace.layout memory.workspace.cursors } by { laid_out-prop _ _ _ _ },
}

/// A drive with its power on and a disc that is not formatted: its cells give no lists. The mark is no less than that of
/// the disc.
#[derive(Drop)]
pub struct NotFormatted<M: MediumControl> {
    pub(crate) medium: M,
    pub(crate) geometry: Geometry,
    pub(crate) mark: u32,
    pub(crate) memory: Memory,
    ghost size: { M.block_count medium ≡ total geometry },
    ghost on: { IsTrue (M.world medium).power } by { Prim.hlevel props },
    ghost bare: { GivesNone geometry (M.world medium).cells } by { Prim.hlevel props },
    ghost marked: { AreMarkedWithin geometry (M.world medium).cells mark } by { Prim.hlevel props },
    ghost kind: { IsOfKind geometry.layout memory.workspace.layout } by { kind-prop _ _ },
}

/// A drive in any of its states.
#[derive(Drop)]
pub enum State<M: MediumControl> {
    /// Its power is off.
    Off(PoweredOff<M>),
    /// Its power is on, and the disc is formatted.
    Ready(Ready<M>),
    /// Its power is on, and the disc is not formatted.
    NotFormatted(NotFormatted<M>),
}

/// How the turning on of the power ended, with the drive as it is then.
#[derive(Drop)]
pub enum PowerOn<M: MediumControl> {
    /// The disc is formatted.
    Ready(Ready<M>),
    /// The disc is not formatted.
    NotFormatted(NotFormatted<M>),
    /// The power was cut again.
    Cut(PoweredOff<M>),
    /// What the medium lies on failed, and counted it. The power is off.
    Fault(PoweredOff<M>),
}

impl<M: MediumControl> PoweredOff<M> {
    ghost use Rattle.std.specs.Prelude.{◌≡◌, IsTrue};
    ghost use Rattle.model_geometry.specs.Geometry.{total};
    ghost use Rattle.ram_transfer.specs.Shown.{shown_without};
    ghost use Rattle.ram_states.specs.Shown.{shown_off};
    ghost use Rattle.ram_medium.specs.Laws.{machine_shown};

    /// A drive of this geometry over its medium, whose power is off. It works in this memory, whatever that holds.
    ///
    /// # Clauses
    ///
    /// - `shown`, `medium`: the state over a medium, with nothing kept, whatever the memory holds that it is given.
    pub fn new(medium: M, geometry: Geometry, memory: Memory) -> PoweredOff<M>
        requires size { M.block_count medium ≡ total geometry }
        requires off { ¬ IsTrue (M.world medium).power }
        requires kind { IsOfKind geometry.layout memory.workspace.layout }
        ensures shown { shown_off result ≡ shown_without geometry (machine_shown M.world M.arms M.armed_cut medium) }
        ensures medium { result.medium ≡ medium }
    {
        PoweredOff {
            medium,
            geometry,
            memory,
        }
    }

    /// The medium, and the memory.
    pub fn into_parts(self) -> (M, Memory)
        ensures medium { result.0 ≡ self.medium }
        ensures kind { IsOfKind self.geometry.layout result.1.workspace.layout }
    {
        let PoweredOff { medium, memory, .. } = self;
        (medium, memory)
    }
}

impl<M: MediumControl> NotFormatted<M> {
    ghost use Rattle.std.specs.Prelude.{◌≡◌};

    /// The mark: no copy of a list that can be read has or names a greater counter of a structure.
    ///
    /// # Clauses
    ///
    /// - how many sectors the disc has (`sectors`), at most `MOST_SECTORS` (`most`) and those of `MOST_BLOCKS` blocks (`few`);
    ///   the mark.
    pub fn mark(&self) -> u32
        ensures { result ≡ self.now.mark }
    {
        self.mark
    }

    /// The medium, with its power on, and the memory.
    pub fn into_parts(self) -> (M, Memory)
        ensures medium { result.0 ≡ self.medium }
        ensures kind { IsOfKind self.geometry.layout result.1.workspace.layout }
    {
        let NotFormatted { medium, memory, .. } = self;
        (medium, memory)
    }
}

impl<M: MediumControl> State<M> {
    ghost use Rattle.std.specs.Prelude.{◌≡◌};
    ghost use Rattle.ram_states.specs.Shown.{shown_state, medium_under};

    /// Exchanges this room for that of what is read back, where the disc is formatted. Either may have any bytes.
    ///
    /// # Clauses
    ///
    /// - `shown`, `medium`: what the drive shows, and its medium, stay.
    pub fn exchange_room(&mut self, room: &mut Block)
        ensures shown { shown_state self.new ≡ shown_state self.old }
        ensures medium { medium_under self.new ≡ medium_under self.old }
    {
        if let State::Ready(ready) = self {
            std::mem::swap(&mut ready.memory.workspace.back, room);
        }
    }
}

impl<M: MediumControl> Ready<M> {
    ghost use Rattle.std.specs.Prelude.{◌≡◌, ◌*◌, ◌≤◌};
    ghost use Rattle.model_sectors.specs.declared.TheConstants.{MOST_SECTORS};
    ghost use Rattle.ram_sectors.specs.declared.TheConstants.{MOST_BLOCKS};
    ghost use Rattle.model_drive.specs.Shown.{capacity};
    ghost use Rattle.ram_states.specs.Shown.{shown_ready};

    /// How many sectors the disc has.
    ///
    /// # Clauses
    ///
    /// - how many sectors the disc has (`sectors`), at most `MOST_SECTORS` (`most`) and those of `MOST_BLOCKS` blocks (`few`);
    ///   the mark.
    pub fn capacity(&self) -> u32
        ensures sectors { result ≡ capacity (shown_ready self.now) }
        ensures most { result ≤ MOST_SECTORS }
        ensures few { result ≤ 16 * MOST_BLOCKS }
    {
        let blocks = self.geometry.data_blocks();
        let kept = self.geometry.spare_room() + self.memory.lists.sdl.ssa;
        (blocks - kept) * SECTORS_PER_BLOCK as u32
    }

    /// The medium, with its power on, and the memory.
    pub fn into_parts(self) -> (M, Memory)
        ensures medium { result.0 ≡ self.medium }
        ensures kind { IsOfKind self.geometry.layout result.1.workspace.layout }
    {
        let Ready { medium, memory, .. } = self;
        (medium, memory)
    }
}
