//! Writes of sectors of a formatted disc.

ghost use Rattle.std.specs.Prelude.{◌≡◌, ◌+◌, ◌*◌, ◌<◌, ◌≤◌, length};
ghost use Rattle.model_commands.specs.declared.TheConstants.{TRANSFER_LIMIT};
ghost use Rattle.model_medium.specs.Happened.{Happened};
ghost use Rattle.model_drive.specs.Shown.{capacity};
ghost use Rattle.model_drive.specs.Writes.{WriteCause, WriteCompletes};
ghost use Rattle.ram_transfer.specs.Writing.{WriteSteps};
ghost use Rattle.ram_states.specs.Shown.{shown_ready, shown_state, medium_under};

use crate::states::{Ready, State};
use crate::stops::stopped;
use model_drive::WriteOut;
use ram_medium::MediumControl;
use ram_requests::Request;
use ram_transfer::write_parts;

impl<M: MediumControl> Ready<M> {
    /// Writes the sectors of a request, all of which are the disc's.
    fn write_request(self, request: Request, from: &[u8]) -> (State<M>, WriteOut)
        requires inside { request.lba + request.n ≤ capacity (shown_ready self) }
        requires whole { length from.now ≡ 2048 * request.n }
        ensures cause { WriteCause (shown_ready self) (shown_state result.0) request.lba request.n result.1 }
        ensures step { WriteSteps (shown_ready self) (shown_state result.0) request.lba request.n from.now result.1 }
        ensures same_shape { (shown_state result.0).shape ≡ self.geometry }
        ensures happened { Happened M.takes self.medium (medium_under result.0) }
    {
        let Ready {
            mut medium,
            geometry,
            mut memory,
        } = self;
        match write_parts(
            &mut medium,
            &geometry,
            &mut memory.lists,
            &mut memory.workspace,
            request,
            from,
        ) {
            Ok(out) => {
                let ready = Ready {
                    medium,
                    geometry,
                    memory,
                };
                (State::Ready(ready), out)
            }
            Err(stop) => stopped(medium, geometry, memory, stop),
        }
    }

    /// Writes `n` sectors of 2,048 bytes from sector `lba` on, whose bytes are `from`: `n` is at most
    /// [`TRANSFER_LIMIT`](ram_sectors::TRANSFER_LIMIT), and `from` has `2,048 * n` bytes. One logical block after another,
    /// in order, is written to its home and read back, which takes 2 uses of the medium; one that is covered in part is
    /// taken out of the buffer before, or read, 1 use. A block whose home is dead goes to the first free spare that is not,
    /// 2 uses for each that is tried, and the secondary list is updated, 8 uses. It takes no memory.
    ///
    /// - `Good`: all of them were written.
    /// - `Range`: some of them are none of the disc's, whose capacity is told; nothing was done.
    /// - `Unread`: a block is covered in part and not buffered, and its home has no whole bytes. It is named by its first
    ///   sector of the request, and by its home, a block of the medium.
    /// - `NoSpare`: the home of a block is dead, and so are all free spares. It is named by its first sector of the request.
    /// - `NoUpdate`: the home of a block is dead and a spare has its bytes, but no copy of the secondary list is left, or its
    ///   counter, which is told, is the last one.
    /// - `Cut`: the power was cut in this write. `Fault`: what the medium lies on failed, and counted it. The power is off.
    ///
    /// After `Unread`, `NoSpare` and `NoUpdate` the blocks before the one that is told of are written, and no other; the
    /// disc is ready, as it is after `Good` and `Range`. After `Cut` and `Fault` nothing is kept in memory, and the block in
    /// work has all its old sectors of the request or all its new ones. (Linear replacement after ECMA-330; the answers and
    /// the order are this project's own.)
    ///
    /// # Clauses
    ///
    /// - `cause`: there is a course, which says of each block whether it went home or to which free spare, and by it the lists in
    ///   use, the uses, the buffered blocks and the cells that may have changed.
    /// - `happened`: nothing but events happened to its medium in between, whatever the answer (`Happened` of `model_medium`).
    ///   What each of them did, also to the bytes under it, the medium says.
    ///
    /// # Answers
    ///
    /// As for `Sectors::write`.
    pub fn write(self, lba: u32, n: u32, from: &[u8]) -> (State<M>, WriteOut)
        requires few { n ≤ TRANSFER_LIMIT }
        requires whole { length from.now ≡ 2048 * n }
        ensures cause { WriteCause (shown_ready self) (shown_state result.0) lba n result.1 }
        ensures step { WriteSteps (shown_ready self) (shown_state result.0) lba n from.now result.1 }
        ensures completes { WriteCompletes (shown_ready self) (shown_state result.0) lba n result.1 }
        ensures same_shape { (shown_state result.0).shape ≡ self.geometry }
        ensures happened { Happened M.takes self.medium (medium_under result.0) }
    {
        let capacity = self.capacity();
        match Request::within(capacity, lba, n) {
            Some(request) => self.write_request(request, from),
            None => (State::Ready(self), WriteOut::Range { capacity }),
        }
    }
}
