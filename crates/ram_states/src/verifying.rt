//! Verifications of sectors of a formatted disc.

ghost use Rattle.std.specs.Prelude.{◌≡◌, ◌+◌, ◌≤◌};
ghost use Rattle.model_medium.specs.Happened.{Happened};
ghost use Rattle.model_drive.specs.Shown.{capacity};
ghost use Rattle.model_drive.specs.Reads.{VerifyCause, ReadCompletes};
ghost use Rattle.ram_sectors.specs.declared.TheConstants.{VERIFY_LIMIT};
ghost use Rattle.ram_states.specs.Verifying.{VerifySteps};
ghost use Rattle.ram_states.specs.Shown.{shown_ready, shown_state, medium_under};

use crate::states::{Ready, State};
use crate::stops::stopped;
use ram_medium::MediumControl;
use ram_requests::Request;
use ram_sectors::ReadOut;
use ram_transfer::{ended_at, read_homes};

impl<M: MediumControl> Ready<M> {
    /// Verifies the sectors of a request, all of which are the disc's.
    fn verify_request(self, request: Request) -> (State<M>, ReadOut)
        requires inside { request.lba + request.n ≤ capacity (shown_ready self) }
        ensures cause { VerifyCause (shown_ready self) (shown_state result.0) request.lba request.n result.1 }
        ensures same_shape { (shown_state result.0).shape ≡ self.geometry }
        ensures happened { Happened M.takes self.medium (medium_under result.0) }
    {
        let Ready {
            mut medium,
            geometry,
            mut memory,
        } = self;
        let work = &mut memory.workspace;
        let (layout, block) = (&work.layout, &mut work.block);
        match read_homes(
            &mut medium,
            &geometry,
            layout,
            &memory.lists,
            block,
            request,
        ) {
            Ok(met) => {
                let out = ended_at(
                    &geometry,
                    &memory.workspace.layout,
                    &memory.lists,
                    request,
                    met,
                );
                let ready = Ready {
                    medium,
                    geometry,
                    memory,
                };
                (State::Ready(ready), out)
            }
            Err(stop) => stopped(medium, geometry, memory, stop),
        }
    }

    /// Verifies `n` sectors of 2,048 bytes from sector `lba` on: `n` is at most
    /// [`VERIFY_LIMIT`](ram_sectors::VERIFY_LIMIT). The home of each logical block in which some of them lie is read,
    /// with one use of the medium. Bytes that are buffered do not stand for those of a home, and the buffer stays as it
    /// was.
    ///
    /// - `Good`: each of these homes has whole bytes.
    /// - `Range`: some of the sectors are none of the disc's, whose capacity is told; nothing was done.
    /// - `Unread`: a home has no whole bytes. Its block is named by its first sector of the request, and by the home, a
    ///   block of the medium; those after it were not read.
    /// - `Cut`: the power was cut in this verification. `Fault`: what the medium lies on failed, and counted it. The
    ///   power is off.
    ///
    /// After `Good`, `Range` and `Unread` the disc is ready as before. (That the medium is read, and no bytes go to the
    /// host, is after INCITS MMC's VERIFY; the answers are this project's own.)
    ///
    /// # Clauses
    ///
    /// - `happened`: nothing but events happened to its medium in between, whatever the answer (`Happened` of `model_medium`).
    ///   What each of them did, also to the bytes under it, the medium says.
    ///
    /// # Answers
    ///
    /// As for `Disc::verify`.
    pub fn verify(self, lba: u32, n: u32) -> (State<M>, ReadOut)
        requires few { n ≤ VERIFY_LIMIT }
        ensures cause { VerifyCause (shown_ready self) (shown_state result.0) lba n result.1 }
        ensures step { VerifySteps (shown_ready self) (shown_state result.0) result.1 }
        ensures completes { ReadCompletes (shown_ready self) (shown_state result.0) lba n result.1 }
        ensures same_shape { (shown_state result.0).shape ≡ self.geometry }
        ensures happened { Happened M.takes self.medium (medium_under result.0) }
    {
        let capacity = self.capacity();
        match Request::within(capacity, lba, n) {
            Some(request) => self.verify_request(request),
            None => (State::Ready(self), ReadOut::Range { capacity }),
        }
    }
}
