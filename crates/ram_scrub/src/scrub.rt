//! The scrubber: steps, and passes of them.

ghost use Rattle.model_drive.specs.Shown.{IsOn, IsFormatted};
ghost use Rattle.ram_scrub.specs.Calls.{EndsWithout, PassEndsWithout};

use crate::found::FoundBlocks;
use model_scrub::{PassEnd, StepEnd};
use ram_bytes::{Budget, MemoryRefused};
use ram_sectors::{Caching, ReadOut};

/// Verifies the logical blocks of a drive in turn, one in each step, and remembers those that could not be read. It takes its
/// memory when it is made.
#[derive(Drop)]
pub struct Scrub {
    next: u32,
    found: FoundBlocks,
}

/// The end of a step that met no formatted disc.
fn without_disc<D: Caching>(disc: &D) -> StepEnd
    requires { ¬ (IsOn (D.shows disc.now).drive × IsFormatted (D.shows disc.now).drive) }
    ensures { EndsWithout (D.shows disc.now) result }
{
    if disc.counts().powered {
        StepEnd::NotFormatted
    } else {
        StepEnd::Off
    }
}

/// The same of a pass.
fn pass_without<D: Caching>(disc: &D) -> PassEnd
    requires { ¬ (IsOn (D.shows disc.now).drive × IsFormatted (D.shows disc.now).drive) }
    ensures { PassEndsWithout (D.shows disc.now) result }
{
    if disc.counts().powered {
        PassEnd::NotFormatted
    } else {
        PassEnd::Off
    }
}

impl Scrub {
    ghost use Rattle.std.specs.Prelude.{◌≡◌, ◌+◌, ◌≤◌, IfOk, OnOk};
    ghost use Rattle.model_cache.specs.Values.{Contents};
    ghost use Rattle.model_scrub.specs.Scrubs.{fresh, begun_on};
    ghost use Rattle.model_scrub.specs.Asks.{StepRule, StepContents, AsksOn, PassRule, PassContents};
    ghost use Rattle.ram_scrub.specs.Scrub.{scrubber_of};
    ghost use Rattle.ram_scrub.specs.declared.found.TheConstants.{SCRUB_MEMORY};
    ghost use Rattle.ram_scrub.specs.Calls.{IsReadyToStep, LeavesRead, IsAtBlock, StepGoesOn, EndsAt, PassedContents};

    /// A scrubber that has found nothing, and begins at block 0. It takes the room for all blocks that it may find on any disc.
    ///
    /// # Clauses
    ///
    /// - `left`, `fresh`: it asks for at most `SCRUB_MEMORY` bytes of a budget that has as many; nothing is found, and the next
    ///   step takes block 0. A refusal is the system's, by its type.
    ///
    /// # Answers
    ///
    /// - `Ok`: memory for 146,930 numbers was given. Then: nothing is found, and block 0 is next. (`scrubber_of`)
    /// - `Err`: the system refused memory that was asked for within the budget. Then: nothing is there. (clause)
    pub fn new(budget: &mut Budget) -> Result<Scrub, MemoryRefused>
        requires free { SCRUB_MEMORY ≤ budget.old }
        ensures left { budget.old ≤ budget.new + SCRUB_MEMORY }
        ensures fresh { IfOk result (λ scrub. scrubber_of scrub ≡ fresh) }
    {
        Ok(Scrub {
            next: 0,
            found: FoundBlocks::new(budget)?,
        })
    }

    /// Forgets what was found, and begins at block 0 again, in the room that it has.
    ///
    /// # Clauses
    ///
    /// - its one clause: nothing is found any more, and the next step takes block 0.
    pub fn restart(&mut self)
        ensures { scrubber_of self.new ≡ fresh }
    {
        self.found.clear();
        self.next = 0;
    }

    /// The blocks that were found unreadable, rising. A block stays there until a step can read it, or meets a formatted disc
    /// that does not have it: also where it was written meanwhile, and where a format slipped over its home.
    ///
    /// # Clauses
    ///
    /// - their one clause: the found blocks, rising; the block that the next step takes.
    pub fn found(&self) -> &[u32]
        ensures { result.now ≡ (scrubber_of self.now).found }
    {
        self.found.as_slice()
    }

    /// The block that the next step takes. Behind the last block of the disc it is their number, and the next step takes block 0.
    ///
    /// # Clauses
    ///
    /// - their one clause: the found blocks, rising; the block that the next step takes.
    pub fn next(&self) -> u32
        ensures { result ≡ (scrubber_of self.now).next }
    {
        self.next
    }

    /// Drops found blocks that a disc of n blocks does not have, and past its last block starts again at the first.
    fn begin(&mut self, blocks: u32)
        ensures { scrubber_of self.new ≡ begun_on blocks (scrubber_of self.old) }
    {
        self.found.drop_from(blocks);
        if self.next >= blocks {
            self.next = 0;
        }
    }

    /// Verifies the next block.
    fn verify_next<D: Caching>(&mut self, disc: &mut D) -> StepEnd
        requires { IsReadyToStep (D.shows disc.old) (scrubber_of self.old).next }
        ensures asks { AsksOn (D.shows disc.old) (D.shows disc.new) (scrubber_of self.old).next result }
        ensures leaves { LeavesRead (scrubber_of self.old) result (scrubber_of self.new) }
        ensures step { (s : Contents) → D.stands disc.old s → StepContents (D.stands disc.new) s result }
        ensures same_shape { (D.shows disc.new).drive.shape ≡ (D.shows disc.old).drive.shape }
        ensures underwent { D.underwent disc.old disc.new }
    {
        let i = self.next;
        match disc.verify(16 * i, 16) {
            ReadOut::Good => {
                self.found.take_out(i);
                self.next = i + 1;
                StepEnd::Readable { i }
            }
            ReadOut::Unread { .. } => {
                self.found.put(i);
                self.next = i + 1;
                StepEnd::Unreadable { i }
            }
            ReadOut::Cut => StepEnd::Cut,
            ReadOut::Fault => StepEnd::Fault,
            ReadOut::NotFormatted => unreachable!(),
            ReadOut::Range { .. } => unreachable!(),
            ReadOut::Off => unreachable!(),
        }
    }

    /// Makes one step: the next logical block is verified, whole, by one verification of the drive. First the found blocks that
    /// the disc does not have are dropped, and past its last block the step takes block 0.
    ///
    /// - `Readable`: the block could be read. It is not among the found blocks any more, and the next step takes the one
    ///   behind it.
    /// - `Unreadable`: its home has no whole bytes. It is among the found blocks, and the next step takes the one behind it.
    /// - `Cut`: the power was cut in this step. `Fault`: what the medium lies on failed, and counted it. The power is off. The
    ///   next step takes the same block.
    /// - `NotFormatted`, `Off`: the disc is not formatted, or the power is off. Nothing was asked of the drive, and the
    ///   scrubber is as it was.
    ///
    /// Only the disc is asked: blocks that wait in a write cache are not looked at, and are not written first. What the drive
    /// stands for stays, but that after `Cut` and `Fault` the power is off. (This project's own.)
    ///
    /// # Clauses
    ///
    /// - `rule` (`StepRule`): the found blocks that the disc does not have are dropped, and past its last block it begins at
    ///   block 0 again. Then the next block is verified, whole, by one call of the drive, and nothing else is asked. `Readable`:
    ///   it is not among the found blocks, `Unreadable`: it is, and the next step takes the one behind it; `Cut` and `Fault` come
    ///   as those of the verification, and the next step takes the same block. `NotFormatted` and `Off` come exactly where they
    ///   say so, and then drive and scrubber are as before.
    /// - `step` (`StepContents`): what the drive stands for becomes what a verification makes of it: it stays, but that after
    ///   `Cut` and `Fault` the power is off.
    ///
    /// # Answers
    ///
    /// Causes: `StepRule`; the values: `StepContents`. On a formatted disc the found blocks that it does not have are dropped
    /// first, and a number past its last block becomes 0 (`begun_on`).
    ///
    /// - `Readable`: the next block was verified by `Caching::verify`, whose answer was `Good`; it is told. Then: it is not among
    ///   the found blocks, and the one behind it is next; every value stays. (`AsksOn`, `LeavesOn`)
    /// - `Unreadable`: the same, and the answer was `Unread`. Then: it is among the found blocks, and the one behind it is next;
    ///   every value stays. (`AsksOn`, `LeavesOn`)
    /// - `NotFormatted`: exactly when the power is on and the disc is not formatted. Then: drive and scrubber are as before.
    ///   (`StepsWithout`)
    /// - `Cut`: the same, and the answer was `Cut`. Then: off, as after that answer; the same block is next. (`AsksOn`,
    ///   `LeavesOn`)
    /// - `Off`: exactly when the power was off. Then: drive and scrubber are as before. (`StepsWithout`)
    /// - `Fault`: the same, and the answer was `Fault`. Then: as after `Cut`. (`AsksOn`, `LeavesOn`)
    pub fn step<D: Caching>(&mut self, disc: &mut D) -> StepEnd
        ensures rule { StepRule (D.shows disc.old) (D.shows disc.new)
            (scrubber_of self.old) result (scrubber_of self.new) }
        ensures step { (s : Contents) → D.stands disc.old s → StepContents (D.stands disc.new) s result }
        ensures same_shape { (D.shows disc.new).drive.shape ≡ (D.shows disc.old).drive.shape }
        ensures underwent { D.underwent disc.old disc.new }
    {
        let Some(capacity) = disc.capacity() else {
            return without_disc(disc);
        };
        self.begin(capacity / 16);
        self.verify_next(disc)
    }

    /// Makes the step of a pass that takes this block. Whether it goes on, or how the pass ends.
    fn pass_on<D: Caching>(&mut self, disc: &mut D, block: u32) -> Result<(), PassEnd>
        requires { IsAtBlock (D.shows disc.old) (scrubber_of self.old) block }
        ensures goes { OnOk result (StepGoesOn (D.shows disc.old) (D.shows disc.new)
            (scrubber_of self.old) block (scrubber_of self.new)) }
        ensures ends { EndsAt (D.shows disc.old) (D.shows disc.new)
            (scrubber_of self.old) (scrubber_of self.new) result }
        ensures step { (s : Contents) → D.stands disc.old s → PassedContents (D.stands disc.new) s result }
        ensures same_shape { (D.shows disc.new).drive.shape ≡ (D.shows disc.old).drive.shape }
        ensures underwent { D.underwent disc.old disc.new }
    {
        match self.step(disc) {
            StepEnd::Readable { .. } => Ok(()),
            StepEnd::Unreadable { .. } => Ok(()),
            StepEnd::NotFormatted => Err(PassEnd::NotFormatted),
            StepEnd::Cut => Err(PassEnd::Cut),
            StepEnd::Off => Err(PassEnd::Off),
            StepEnd::Fault => Err(PassEnd::Fault),
        }
    }

    /// Makes a pass: one step for each logical block, from block 0 on, up to the last one or to a step that was stopped.
    ///
    /// - `Done`: each block was verified, and the found blocks are those that could not be read.
    /// - `Cut`, `Fault`: a step ended so. Those before it stand, and the next step takes the same block.
    /// - `NotFormatted`, `Off`: the disc is not formatted, or the power is off. Nothing was asked of the drive; the next step
    ///   takes block 0.
    ///
    /// (This project's own.)
    ///
    /// # Clauses
    ///
    /// - `rule` (`PassRule`): one step for each logical block, from block 0 on, each `Readable` or `Unreadable`; `Done` after the
    ///   last, or the end of the step that was neither.
    /// - `step` (`PassContents`): the same of what the drive stands for.
    ///
    /// # Answers
    ///
    /// Causes: `PassRule`; the values: `PassContents`. It begins at block 0.
    ///
    /// - `Done`: one step for each logical block, each `Readable` or `Unreadable`. Then: the found blocks are those that could
    ///   not be read; every value stays. (`StepsThrough`)
    /// - `NotFormatted`: exactly when the power is on and the disc is not formatted. Then: the drive is as before, and block 0 is
    ///   next. (`StopsPass`)
    /// - `Cut`: a step answered so, after some that were `Readable` or `Unreadable`. Then: off, as after that step; its block is
    ///   next. (`StopsPass`)
    /// - `Off`: exactly when the power was off. Then: the drive is as before, and block 0 is next. (`StopsPass`)
    /// - `Fault`: as `Cut`. Then: as after `Cut`. (`StopsPass`)
    pub fn pass<D: Caching>(&mut self, disc: &mut D) -> PassEnd
        ensures rule { PassRule (D.shows disc.old) (D.shows disc.new)
            (scrubber_of self.old) result (scrubber_of self.new) }
        ensures step { (s : Contents) → D.stands disc.old s → PassContents (D.stands disc.new) s result }
        ensures same_shape { (D.shows disc.new).drive.shape ≡ (D.shows disc.old).drive.shape }
        ensures underwent { D.underwent disc.old disc.new }
    {
        self.next = 0;
        let Some(capacity) = disc.capacity() else {
            return pass_without(disc);
        };
        for i in 0..capacity / 16 {
            match self.pass_on(disc, i) {
                Ok(()) => {}
                Err(end) => return end,
            }
        }
        PassEnd::Done
    }
}
