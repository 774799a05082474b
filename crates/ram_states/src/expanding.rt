//! Expansions of the supplementary spare area of a formatted disc.

ghost use Rattle.std.specs.Prelude.{◌≡◌};
ghost use Rattle.model_medium.specs.Happened.{Happened};
ghost use Rattle.model_drive.specs.Expands.{ExpandCause, ExpandCompletes};
ghost use Rattle.ram_states.specs.Shown.{shown_ready, shown_state, medium_under};
ghost use Rattle.ram_states.specs.Expanding.{ExpandSteps};

use crate::states::{Ready, State};
use crate::stops::stopped;
use ram_expand::{Grown, grow};
use ram_medium::MediumControl;
use ram_sectors::ExpandOut;

impl<M: MediumControl> Ready<M> {
    /// Gives the disc a capacity of n sectors, as many as it has or fewer: the logical blocks behind them become
    /// supplementary spares, and the sectors that are left stay. Where the disc has just n, no block of the medium is
    /// used; else the new secondary list is written, in 8 uses for each of its parts. No block is buffered then, and no memory
    /// is taken.
    ///
    /// Refused, with the present capacity in sectors, where the disc cannot have this one: 0, no multiple of 16, more than
    /// it has, or one that leaves more spares in all than 4,092, or 8,184 where its lists have version 2. Nothing was done, and
    /// the buffer stays. NoUpdate, with the counter of the secondary list in use, where the new one could not be written: its
    /// copies are all dead, or that counter is the last one. The disc stays, and no block is buffered then. With a cut or a
    /// fault the power is off, and the disc and its first sectors are the candidates. (Spare areas after ECMA-330; how one
    /// grows is this project's own.)
    ///
    /// # Clauses
    ///
    /// - `cause`: no cells but copies of the secondary list change; after `Good` and `NoUpdate` no block is buffered.
    /// - `happened`: nothing but events happened to its medium in between, whatever the answer (`Happened` of `model_medium`).
    ///   What each of them did, also to the bytes under it, the medium says.
    ///
    /// # Answers
    ///
    /// As for `Disc::expand`.
    pub fn expand(self, capacity: u32) -> (State<M>, ExpandOut)
        ensures cause { ExpandCause (shown_ready self) (shown_state result.0) capacity result.1 }
        ensures step { ExpandSteps (shown_ready self) (shown_state result.0) capacity result.1 }
        ensures completes { ExpandCompletes (shown_ready self) (shown_state result.0) capacity result.1 }
        ensures same_shape { (shown_state result.0).shape ≡ self.geometry }
        ensures happened { Happened M.takes self.medium (medium_under result.0) }
    {
        self.grow_spares(capacity)
    }

    /// The expansion. What the drive stands for then follows from the cause.
    fn grow_spares(self, capacity: u32) -> (State<M>, ExpandOut)
        ensures cause { ExpandCause (shown_ready self) (shown_state result.0) capacity result.1 }
        ensures same_shape { (shown_state result.0).shape ≡ self.geometry }
        ensures happened { Happened M.takes self.medium (medium_under result.0) }
    {
        let Ready {
            mut medium,
            geometry,
            mut memory,
        } = self;
        let work = &mut memory.workspace;
        match grow(
            &mut medium,
            &geometry,
            &mut memory.lists,
            &mut work.draft.sdl,
            capacity,
            &mut work.scratch,
        ) {
            Ok(Grown::Good) => {
                let ready = Ready::laid_out(medium, geometry, memory);
                (State::Ready(ready), ExpandOut::Good)
            }
            Ok(Grown::Refused) => {
                let ready = Ready {
                    medium,
                    geometry,
                    memory,
                };
                let capacity = ready.capacity();
                (State::Ready(ready), ExpandOut::Refused { capacity })
            }
            Ok(Grown::NoUpdate { counter }) => {
                let ready = Ready::over(medium, geometry, memory);
                (State::Ready(ready), ExpandOut::NoUpdate { counter })
            }
            Err(stop) => stopped(medium, geometry, memory, stop),
        }
    }
}
