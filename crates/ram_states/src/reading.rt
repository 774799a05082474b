//! Reads of sectors of a formatted disc.

ghost use Rattle.std.specs.Prelude.{◌≡◌, ◌+◌, ◌*◌, ◌<◌, ◌≤◌, length};
ghost use Rattle.model_commands.specs.declared.TheConstants.{TRANSFER_LIMIT};
ghost use Rattle.model_medium.specs.Happened.{Happened};
ghost use Rattle.model_drive.specs.Shown.{capacity};
ghost use Rattle.model_drive.specs.Reads.{ReadCause, ReadCompletes, ReadIsQuiet};
ghost use Rattle.ram_states.specs.Reading.{ReadSteps};
ghost use Rattle.ram_states.specs.Shown.{shown_ready, shown_state, medium_under};

use crate::states::{Ready, State};
use crate::stops::stopped;
use model_sectors::ReadOut;
use ram_medium::MediumControl;
use ram_requests::Request;
use ram_transfer::{ended_at, read_parts};

impl<M: MediumControl> Ready<M> {
    /// Reads the sectors of a request, all of which are the disc's.
    fn read_request(self, request: Request, into: &mut [u8]) -> (State<M>, ReadOut)
        requires inside { request.lba + request.n ≤ capacity (shown_ready self) }
        requires whole { length into.old ≡ 2048 * request.n }
        ensures cause { ReadCause (shown_ready self) (shown_state result.0) request.lba request.n result.1 }
        ensures step { ReadSteps (shown_ready self) (shown_state result.0) request.lba request.n into.new result.1 }
        ensures quiet { ReadIsQuiet (shown_ready self) (shown_state result.0) request.lba request.n result.1 }
        ensures same_shape { (shown_state result.0).shape ≡ self.geometry }
        ensures happened { Happened M.takes self.medium (medium_under result.0) }
    {
        let Ready {
            mut medium,
            geometry,
            mut memory,
        } = self;
        let work = &mut memory.workspace;
        match read_parts(
            &mut medium,
            &geometry,
            &work.layout,
            &memory.lists,
            &mut work.buffer,
            &mut work.block,
            request,
            into,
        ) {
            Ok(met) => {
                let out = ended_at(
                    &geometry,
                    &memory.workspace.layout,
                    &memory.lists,
                    request,
                    met,
                );
                let ready = Ready {
                    medium,
                    geometry,
                    memory,
                };
                (State::Ready(ready), out)
            }
            Err(stop) => stopped(medium, geometry, memory, stop),
        }
    }

    /// Reads `n` sectors of 2,048 bytes from sector `lba` on into `into`, which has room for just these: `n` is at most
    /// [`TRANSFER_LIMIT`](ram_sectors::TRANSFER_LIMIT). One logical block after another is taken out of the buffer, or
    /// read from its home.
    ///
    /// - `Good`: all of them were read.
    /// - `Range`: some of them are none of the disc's, whose capacity is told; nothing was done.
    /// - `Unread`: a block is not buffered, and its home has no whole bytes. It is named by its first sector of the request,
    ///   and by its home, a block of the medium.
    /// - `Cut`: the power was cut in this read. `Fault`: what the medium lies on failed, and counted it. The power is off.
    ///
    /// After `Good`, `Range` and `Unread` the disc is ready as before. What `into` has is said after `Good` alone. (The
    /// answers are this project's own; homes are after ECMA-330's linear replacement.)
    ///
    /// # Clauses
    ///
    /// - `happened`: nothing but events happened to its medium in between, whatever the answer (`Happened` of `model_medium`).
    ///   What each of them did, also to the bytes under it, the medium says.
    ///
    /// # Answers
    ///
    /// As for `Sectors::read`.
    pub fn read(self, lba: u32, n: u32, into: &mut [u8]) -> (State<M>, ReadOut)
        requires few { n ≤ TRANSFER_LIMIT }
        requires whole { length into.old ≡ 2048 * n }
        ensures cause { ReadCause (shown_ready self) (shown_state result.0) lba n result.1 }
        ensures step { ReadSteps (shown_ready self) (shown_state result.0) lba n into.new result.1 }
        ensures completes { ReadCompletes (shown_ready self) (shown_state result.0) lba n result.1 }
        ensures quiet { ReadIsQuiet (shown_ready self) (shown_state result.0) lba n result.1 }
        ensures same_shape { (shown_state result.0).shape ≡ self.geometry }
        ensures happened { Happened M.takes self.medium (medium_under result.0) }
    {
        let capacity = self.capacity();
        match Request::within(capacity, lba, n) {
            Some(request) => self.read_request(request, into),
            None => (State::Ready(self), ReadOut::Range { capacity }),
        }
    }
}
