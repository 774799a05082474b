//! The trait `Image`: the bytes of a disc image, read and written at places. Definitions alone.
ghost use Rattle.std.specs.Prelude.{ℕ, ◌+◌, ◌<◌, ◌≤◌, Option, List, length};
ghost use Rattle.std.specs.Option.{ForSome};
ghost use Rattle.ram_outside.specs.Image.{LenRule, ReadAtRule, WriteAtRule, SetLenRule, SyncRule, FailsAgain};
ghost use Rattle.ram_outside.specs.Past.{Moment, IsFailStop, LenPast, ReadPast, WritePast, image_view};
ghost use Rattle.ram_outside.specs.declared.image.Length.TheVariants as lengths;
ghost use Rattle.ram_outside.specs.declared.image.Moved.TheVariants as moves;

/// The answer of [`Image::len`].
#[derive(Clone, Copy, Debug, PartialEq, Eq)]
pub enum Length {
    /// The number of bytes.
    Is(u64),
    /// The image failed, and counted it.
    Failed,
}

/// The answer of a call that moves bytes or changes their number.
#[derive(Clone, Copy, Debug, PartialEq, Eq)]
pub enum Moved {
    /// All of it was done.
    Done,
    /// The image failed, and counted it.
    Failed,
}

/// The bytes of a disc image, such as a file's. Once it has failed it fails at each call, and is not touched again.
pub trait Image {
    /// The bytes, where they are known.
    ghost bytes: { Self → Option (List ℕ) };

    /// How often the image has failed. It never falls, and stands still at 2^64 - 1.
    ghost faults: { Self → ℕ };

    /// What it was after each call so far that may have changed its bytes, and after the one that failed, the newest first, where that is
    /// known.
    ghost past: { Self → Option (List Moment) };

    /// Of its calls at most the newest failed, and it has the bytes that this one left.
    ghost laws: { IsFailStop bytes faults past };

    /// The number of bytes, from 0 to 2^64 - 1. It changes none.
    ///
    /// # Clauses
    ///
    /// - `rule` (`LenRule`): what each answer says of the bytes, as told below.
    /// - `past`: what the call adds to the past of the image: one moment where it may have changed bytes, or failed.
    /// - `stops`: An image that has failed fails again, and no byte changes.
    ///
    /// # Answers
    ///
    /// - `Is`: the number of bytes. Then: nothing changed. (`IsUnchanged`)
    /// - `Failed`: the image counted a failure. Then: no byte changed. (`ImageFails`)
    fn len(&mut self) -> Length
        ensures rule { LenRule (bytes self.old) (bytes self.new) (faults self.old) (faults self.new) result }
        ensures past { LenPast (image_view (bytes self.old) (past self.old))
            (image_view (bytes self.new) (past self.new)) result }
        ensures stops { 0 < faults self.old → FailsAgain lengths.Failed result (bytes self.old) (bytes self.new) };

    /// Reads the bytes from byte `at` on into the whole of `into`; the range lies inside the image. It changes no byte
    /// of the image. `Failed` says nothing of what `into` then holds.
    ///
    /// # Clauses
    ///
    /// - `rule` (`ReadAtRule`): what each answer says of the bytes, as told below.
    /// - `past`: what the call adds to the past of the image: one moment where it may have changed bytes, or failed.
    /// - `stops`: An image that has failed fails again, and no byte changes.
    ///
    /// # Answers
    ///
    /// - `Done`: the slice has the bytes from that place on. Then: the image is as before. (`ReadAtRule`)
    /// - `Failed`: the image counted a failure. Then: the image is as before; what the slice holds is not said. (`ImageFails`)
    fn read_at(&mut self, at: u64, into: &mut [u8]) -> Moved
        requires { ForSome (bytes self.old) (λ held. at + length into.old ≤ length held) }
        ensures rule { ReadAtRule (bytes self.old) (bytes self.new)
            (faults self.old) (faults self.new) at into.new result }
        ensures past { ReadPast (image_view (bytes self.old) (past self.old))
            (image_view (bytes self.new) (past self.new)) result }
        ensures stops { 0 < faults self.old → FailsAgain moves.Failed result (bytes self.old) (bytes self.new) };

    /// Writes all of `from` from byte `at` on; the range lies inside the image. Where it fails, each byte of that range
    /// is the old or the new one, and nothing else differs.
    ///
    /// # Clauses
    ///
    /// - `rule` (`WriteAtRule`): what each answer says of the bytes, as told below.
    /// - `past`: what the call adds to the past of the image: one moment where it may have changed bytes, or failed.
    /// - `stops`: An image that has failed fails again, and no byte changes.
    ///
    /// # Answers
    ///
    /// - `Done`: all bytes were written. Then: the image has them there, and differs nowhere else. (`IsChanged`)
    /// - `Failed`: the image counted a failure. Then: each byte of the range is the old or the new one; nothing else differs.
    ///   (`WriteAtRule`)
    fn write_at(&mut self, at: u64, from: &[u8]) -> Moved
        requires { ForSome (bytes self.old) (λ held. at + length from.now ≤ length held) }
        ensures rule { WriteAtRule (bytes self.old) (bytes self.new)
            (faults self.old) (faults self.new) at from.now result }
        ensures past { WritePast (image_view (bytes self.old) (past self.old))
            (image_view (bytes self.new) (past self.new)) result }
        ensures stops { 0 < faults self.old → FailsAgain moves.Failed result (bytes self.old) (bytes self.new) };

    /// Makes the image `len` bytes long: keeps the bytes below both lengths, and grows with zeros. Where it fails, the
    /// image is as it was, or as after a call that is done.
    ///
    /// # Clauses
    ///
    /// - `rule` (`SetLenRule`): what each answer says of the bytes, as told below.
    /// - `past`: what the call adds to the past of the image: one moment where it may have changed bytes, or failed.
    /// - `stops`: An image that has failed fails again, and no byte changes.
    ///
    /// # Answers
    ///
    /// - `Done`: the image has that length. Then: bytes below both lengths stay, and it grew with zeros. (`IsChanged`)
    /// - `Failed`: the image counted a failure. Then: it is as before, or as after a call that is done. (`SetLenRule`)
    fn set_len(&mut self, len: u64) -> Moved
        ensures rule { SetLenRule (bytes self.old) (bytes self.new)
            (faults self.old) (faults self.new) len result }
        ensures past { WritePast (image_view (bytes self.old) (past self.old))
            (image_view (bytes self.new) (past self.new)) result }
        ensures stops { 0 < faults self.old → FailsAgain moves.Failed result (bytes self.old) (bytes self.new) };

    /// Waits until all that was written is where no failure of the system can lose it, as `File::sync_data` does. It changes no byte.
    ///
    /// # Clauses
    ///
    /// - `rule` (`SyncRule`): no byte of the image changes, whatever the answer.
    /// - `past`: what the call adds to the past of the image: one moment where it failed.
    /// - `stops`: An image that has failed fails again, and no byte changes.
    ///
    /// # Answers
    ///
    /// - `Done`: all that was written before will last. Then: nothing changed. (`IsUnchanged`)
    /// - `Failed`: the image counted a failure. Then: no byte changed; what lasts is not said. (`ImageFails`)
    fn sync(&mut self) -> Moved
        ensures rule { SyncRule (bytes self.old) (bytes self.new) (faults self.old) (faults self.new) result }
        ensures past { ReadPast (image_view (bytes self.old) (past self.old))
            (image_view (bytes self.new) (past self.new)) result }
        ensures stops { 0 < faults self.old → FailsAgain moves.Failed result (bytes self.old) (bytes self.new) };
}
