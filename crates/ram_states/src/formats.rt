//! Formats of the disc in a drive whose power is on, of either kind.

ghost use Rattle.std.specs.Prelude.{◌≡◌, IsTrue, Some, []};
ghost use Rattle.model_geometry.specs.Geometry.{total};
ghost use Rattle.model_lists.specs.Values.{IsLawfulDds, IsLawfulSdl};
ghost use Rattle.model_copies.specs.Parts.{AreMarkedWithin};
ghost use Rattle.model_medium.specs.Happened.{Happened};
ghost use Rattle.model_places.specs.Valid.{AreValid};
ghost use Rattle.model_volume.specs.Given.{GivesNone, AreSettled};
ghost use Rattle.model_drive.specs.declared.Kind.TheVariants as kinds;
ghost use Rattle.model_drive.specs.Formats.{FormatCause, FormatCompletes};
ghost use Rattle.ram_medium.specs.Laws.{machine_shown};
ghost use Rattle.ram_dds.specs.Dds.{dds_of};
ghost use Rattle.ram_sdl.specs.Sdl.{sdl_of};
ghost use Rattle.ram_lists.specs.Lists.{lists_of};
ghost use Rattle.ram_format.specs.Keeping.{AreAllKept};
ghost use Rattle.ram_transfer.specs.Shown.{shown_unformatted, shown_under};
ghost use Rattle.ram_groups.specs.Layouts.{IsOfKind};
ghost use Rattle.ram_transfer.specs.Layouts.{IsLaidOut};
ghost use Rattle.ram_states.specs.Shown.{shown_bare, shown_ready, shown_state, medium_under};
ghost use Rattle.ram_states.specs.Formats.{FormatSteps};

use crate::states::{NotFormatted, Ready, State};
use crate::stops::stopped;
use ram_format::{FormatHalt, format_lists, repair_lists};
use ram_medium::MediumControl;
use ram_sectors::{FormatOut, Kind};
use ram_transfer::Memory;
use ram_zones::Geometry;

impl<M: MediumControl> NotFormatted<M> {
    /// A drive of these parts, whose disc is not formatted.
    fn over(medium: M, geometry: Geometry, mark: u32, memory: Memory) -> NotFormatted<M>
        requires size { M.block_count medium ≡ total geometry }
        requires on { IsTrue (M.world medium).power }
        requires bare { GivesNone geometry (M.world medium).cells }
        requires marked { AreMarkedWithin geometry (M.world medium).cells mark }
        requires kind { IsOfKind geometry.layout memory.workspace.layout }
        ensures shown { shown_bare result ≡ shown_unformatted geometry
            (machine_shown M.world M.arms M.armed_cut medium) mark }
        ensures medium { result.medium ≡ medium }
    {
        NotFormatted {
            medium,
            geometry,
            mark,
            memory,
        }
    }

    /// Formats the disc. As it is not formatted, a rewriting format of it is a full one, and nothing is kept as defective:
    /// each data block is certified, and the dead ones are slipped, as many as there are primary spares. The answers are
    /// those of [`FormatOut`]; with a cut or a fault the power is off. It takes no memory. (After ECMA-330; the counters of the
    /// lists are this project's own.)
    ///
    /// # Clauses
    ///
    /// - `cause`: a format of either kind is a full one here, and keeps nothing.
    ///
    /// # Answers
    ///
    /// As for `Ready::format`.
    pub fn format(self, kind: Kind) -> (State<M>, FormatOut)
        ensures cause { FormatCause (shown_bare self) (shown_state result.0) kind result.1 }
        ensures step { FormatSteps (shown_bare self) (shown_state result.0) kind result.1 }
        ensures completes { FormatCompletes (shown_bare self) (shown_state result.0) kind result.1 }
        ensures same_shape { (shown_state result.0).shape ≡ self.geometry }
        ensures happened { Happened M.takes self.medium (medium_under result.0) }
    {
        self.format_anew(kind)
    }

    /// A full format, of whatever kind it was to be.
    fn format_anew(self, kind: Kind) -> (State<M>, FormatOut)
        ensures cause { FormatCause (shown_bare self) (shown_state result.0) kind result.1 }
        ensures step { FormatSteps (shown_bare self) (shown_state result.0) kind result.1 }
        ensures same_shape { (shown_state result.0).shape ≡ self.geometry }
        ensures happened { Happened M.takes self.medium (medium_under result.0) }
    {
        let _ = kind;
        let NotFormatted {
            mut medium,
            geometry,
            mark,
            mut memory,
        } = self;
        let work = &mut memory.workspace;
        work.block.fill(0);
        match format_lists(
            &mut medium,
            &geometry,
            &[],
            true,
            mark,
            &work.block,
            &mut work.format,
            &mut memory.lists,
            &mut work.scratch,
        ) {
            Ok(()) => {
                let ready = Ready::laid_out(medium, geometry, memory);
                (State::Ready(ready), FormatOut::Good)
            }
            Err(FormatHalt::TooMany { found, mark }) => {
                let bare = Self::over(medium, geometry, mark, memory);
                (State::NotFormatted(bare), FormatOut::TooMany { found })
            }
            Err(FormatHalt::NoRoom { mark: _ }) => {
                let bare = Self::over(medium, geometry, mark, memory);
                (
                    State::NotFormatted(bare),
                    FormatOut::NoUpdate { counter: mark },
                )
            }
            Err(FormatHalt::NoCopy { counter, mark }) => {
                let bare = Self::over(medium, geometry, mark, memory);
                (State::NotFormatted(bare), FormatOut::NoUpdate { counter })
            }
            Err(FormatHalt::Stopped { stop }) => { stopped(medium, geometry, memory, stop) }
        }
    }
}

impl<M: MediumControl> Ready<M> {
    /// A drive of these parts, with these lists in use.
    fn of_parts(medium: M, geometry: Geometry, memory: Memory) -> Ready<M>
        requires size { M.block_count medium ≡ total geometry }
        requires on { IsTrue (M.world medium).power }
        requires valid { AreValid geometry (lists_of memory.lists) }
        requires settled { AreSettled geometry (M.world medium).cells (lists_of memory.lists) }
        requires lawful_dds { IsLawfulDds (dds_of memory.lists.dds) }
        requires lawful_sdl { IsLawfulSdl (sdl_of memory.lists.sdl) }
        requires laid_out { IsLaidOut geometry (lists_of memory.lists)
            memory.workspace.layout memory.workspace.cursors }
        ensures shown { shown_ready result ≡ shown_under geometry
            (machine_shown M.world M.arms M.armed_cut medium) (lists_of memory.lists) memory.workspace.buffer }
        ensures medium { result.medium ≡ medium }
    {
        Ready {
            medium,
            geometry,
            memory,
        }
    }

    /// A drive of these parts, with these lists in use. It buffers nothing.
    pub(crate) fn over(medium: M, geometry: Geometry, mut memory: Memory) -> Ready<M>
        requires size { M.block_count medium ≡ total geometry }
        requires on { IsTrue (M.world medium).power }
        requires valid { AreValid geometry (lists_of memory.lists) }
        requires settled { AreSettled geometry (M.world medium).cells (lists_of memory.lists) }
        requires lawful_dds { IsLawfulDds (dds_of memory.lists.dds) }
        requires lawful_sdl { IsLawfulSdl (sdl_of memory.lists.sdl) }
        requires laid_out { IsLaidOut geometry (lists_of memory.lists)
            memory.workspace.layout memory.workspace.cursors }
        ensures shown { shown_ready result ≡ shown_under geometry
            (machine_shown M.world M.arms M.armed_cut medium) (lists_of memory.lists) [] }
        ensures medium { result.medium ≡ medium }
    {
        memory.workspace.buffer.drop_all();
        Self::of_parts(medium, geometry, memory)
    }

    /// A drive of a disc with these lists, by which its layout is made anew. It buffers nothing.
    pub(crate) fn laid_out(medium: M, geometry: Geometry, mut memory: Memory) -> Ready<M>
        requires size { M.block_count medium ≡ total geometry }
        requires on { IsTrue (M.world medium).power }
        requires valid { AreValid geometry (lists_of memory.lists) }
        requires settled { AreSettled geometry (M.world medium).cells (lists_of memory.lists) }
        requires lawful_dds { IsLawfulDds (dds_of memory.lists.dds) }
        requires lawful_sdl { IsLawfulSdl (sdl_of memory.lists.sdl) }
        requires kind { IsOfKind geometry.layout memory.workspace.layout }
        ensures shown { shown_ready result ≡ shown_under geometry
            (machine_shown M.world M.arms M.armed_cut medium) (lists_of memory.lists) [] }
        ensures medium { result.medium ≡ medium }
    {
        memory.workspace.lay_out(&geometry, &memory.lists);
        Self::over(medium, geometry, memory)
    }

    /// Formats the disc. A full format certifies the data blocks that it does not keep as defective, leaves zeros in the
    /// sectors, and makes new lists. A rewriting one writes the copies of the lists in use again, and keeps the sectors.
    /// Neither takes memory. With a cut or a fault the power is off; a full format that found too many defective blocks, or
    /// lost all copies of a list, leaves the disc not formatted. (After the two formats of ECMA-330.)
    ///
    /// # Clauses
    ///
    /// - `cause`: a full format keeps the slipped blocks and, unless it is to forget them, the defective blocks of the secondary
    ///   list.
    /// - `happened`: nothing but events happened to its medium in between, whatever the answer (`Happened` of `model_medium`).
    ///   What each of them did, also to the bytes under it, the medium says.
    ///
    /// # Answers
    ///
    /// As for `Disc::format`; of `NotFormatted` it is a full one, whatever kind is asked for.
    pub fn format(self, kind: Kind) -> (State<M>, FormatOut)
        ensures cause { FormatCause (shown_ready self) (shown_state result.0) kind result.1 }
        ensures step { FormatSteps (shown_ready self) (shown_state result.0) kind result.1 }
        ensures completes { FormatCompletes (shown_ready self) (shown_state result.0) kind result.1 }
        ensures same_shape { (shown_state result.0).shape ≡ self.geometry }
        ensures happened { Happened M.takes self.medium (medium_under result.0) }
    {
        match kind {
            Kind::Full { drop_sdl } => self.format_fully(drop_sdl),
            Kind::Rewrite => self.rewrite_lists(),
        }
    }

    /// A full format.
    fn format_fully(self, drop_sdl: bool) -> (State<M>, FormatOut)
        ensures cause { FormatCause (shown_ready self) (shown_state result.0) (kinds.Full drop_sdl) result.1 }
        ensures step { FormatSteps (shown_ready self) (shown_state result.0) (kinds.Full drop_sdl) result.1 }
        ensures same_shape { (shown_state result.0).shape ≡ self.geometry }
        ensures happened { Happened M.takes self.medium (medium_under result.0) }
    {
        let Ready {
            medium,
            geometry,
            mut memory,
        } = self;
        memory.workspace.keep_entries(&memory.lists, drop_sdl);
        let ready = Ready {
            medium,
            geometry,
            memory,
        };
        ready.format_keeping(drop_sdl)
    }

    /// A full format that keeps the entries in their room.
    fn format_keeping(self, drop_sdl: bool) -> (State<M>, FormatOut)
        requires { AreAllKept (Some (lists_of self.memory.lists)) drop_sdl self.memory.workspace.kept.items }
        ensures cause { FormatCause (shown_ready self) (shown_state result.0) (kinds.Full drop_sdl) result.1 }
        ensures step { FormatSteps (shown_ready self) (shown_state result.0) (kinds.Full drop_sdl) result.1 }
        ensures same_shape { (shown_state result.0).shape ≡ self.geometry }
        ensures happened { Happened M.takes self.medium (medium_under result.0) }
    {
        let _ = drop_sdl;
        let Ready {
            mut medium,
            geometry,
            mut memory,
        } = self;
        let mark = memory.lists.dds.counter;
        let work = &mut memory.workspace;
        work.block.fill(0);
        match format_lists(
            &mut medium,
            &geometry,
            &work.kept,
            false,
            mark,
            &work.block,
            &mut work.format,
            &mut memory.lists,
            &mut work.scratch,
        ) {
            Ok(()) => {
                let ready = Ready::laid_out(medium, geometry, memory);
                (State::Ready(ready), FormatOut::Good)
            }
            Err(FormatHalt::TooMany { found, mark }) => {
                let bare = NotFormatted::over(medium, geometry, mark, memory);
                (State::NotFormatted(bare), FormatOut::TooMany { found })
            }
            Err(FormatHalt::NoRoom { mark }) => {
                let ready = Self::of_parts(medium, geometry, memory);
                (State::Ready(ready), FormatOut::NoUpdate { counter: mark })
            }
            Err(FormatHalt::NoCopy { counter, mark }) => {
                let bare = NotFormatted::over(medium, geometry, mark, memory);
                (State::NotFormatted(bare), FormatOut::NoUpdate { counter })
            }
            Err(FormatHalt::Stopped { stop }) => { stopped(medium, geometry, memory, stop) }
        }
    }

    /// A rewriting format.
    fn rewrite_lists(self) -> (State<M>, FormatOut)
        ensures cause { FormatCause (shown_ready self) (shown_state result.0) kinds.Rewrite result.1 }
        ensures step { FormatSteps (shown_ready self) (shown_state result.0) kinds.Rewrite result.1 }
        ensures same_shape { (shown_state result.0).shape ≡ self.geometry }
        ensures happened { Happened M.takes self.medium (medium_under result.0) }
    {
        let Ready {
            mut medium,
            geometry,
            mut memory,
        } = self;
        match repair_lists(
            &mut medium,
            &geometry,
            &memory.lists,
            &mut memory.workspace.scratch,
        ) {
            Ok(None) => {
                let ready = Ready::over(medium, geometry, memory);
                (State::Ready(ready), FormatOut::Good)
            }
            Ok(Some(counter)) => {
                let ready = Ready::over(medium, geometry, memory);
                (State::Ready(ready), FormatOut::NoUpdate { counter })
            }
            Err(stop) => stopped(medium, geometry, memory, stop),
        }
    }
}
