//! The trait `Opener`: opens images by name, to be read alone or written too, and takes them back. Definitions alone.
ghost use Rattle.std.specs.Prelude.{ℕ, Bool, Option, List};
ghost use Rattle.ram_outside.specs.Opener.{Asking, OpenRule, CloseRule, opener_view};
ghost use Rattle.ram_outside.specs.declared.opener.Access.TheVariants.{ReadWrite, ReadOnly};

use crate::image::Image;

/// What an image is opened for.
#[derive(Debug, Clone, Copy, PartialEq, Eq, Drop)]
pub enum Access {
    /// To be read and written. An image that is not there is made, empty.
    ReadWrite,
    /// To be read alone. That an image is not there is a failure.
    ReadOnly,
}

/// The answer of [`Opener::open`] and [`Opener::open_to_read`].
pub enum Opened<I> {
    /// The image is open.
    Image(I),
    /// The opener failed, and counted it.
    Failed,
}

/// Opens disc images by name, and takes them back.
pub trait Opener {
    /// The images that it opens.
    type Image: Image;

    /// Whether of openers of this kind it is known what was handed back.
    ghost returned_known: { Bool };

    /// The image that is given next, by `open` or `open_to_read`, where it is known.
    ghost next: { Self → Option Self.Image };

    /// The image that is given after the next one, where it is known.
    ghost after_next: { Self → Option Self.Image };

    /// The image that was handed back last, where there was one and it is known.
    ghost returned: { Self → Option Self.Image };

    /// The image that was handed back before the last one, where there was one and it is known.
    ghost returned_before: { Self → Option Self.Image };

    /// The names that were asked for so far, each with what it was asked for, in order, where they are known.
    ghost asked: { Self → Option (List Asking) };

    /// How often the opener has failed, or an image that it took back. It never falls, and stands still at 2^64 - 1.
    ghost faults: { Self → ℕ };

    /// Opens the image of this name, to be read and written. Its count of failures begins at 0. `Failed` says that no image is open, and one
    /// failure more is counted.
    ///
    /// # Clauses
    ///
    /// - `OpenRule`: what each answer says of the image, as told below.
    ///
    /// # Answers
    ///
    /// - `Image`: the image that was next is open. Then: it has counted no failure; the one after it is next; the opener was asked for
    ///   this name. (`Opens`)
    /// - `Failed`: the opener counted a failure. Then: no image is open, and the next one stays; it was asked for this name, or
    ///   failed before that. (`OpenerFails`)
    fn open(&mut self, name: &str) -> Opened<Self::Image>
        ensures { OpenRule Self.Image.faults ReadWrite name.now
            (opener_view (next self.old) (after_next self.old) (returned self.old) (returned_before self.old)
            (asked self.old) (faults self.old))
            (opener_view (next self.new) (after_next self.new) (returned self.new) (returned_before self.new)
            (asked self.new) (faults self.new)) result };

    /// Opens the image of this name, to be read alone: one that is not there is a failure, and none is made. It answers as
    /// `open` does, and what was asked for says which of the two it was.
    ///
    /// # Clauses
    ///
    /// - `OpenRule`: what each answer says of the image, as told below.
    ///
    /// # Answers
    ///
    /// As for `Opener::open`. As `Opener::open`, but the image is only read, and a missing one is a failure.
    ///
    /// - `Image`: the image that was next is open. Then: it has counted no failure; the one after it is next; the opener was asked for
    ///   this name. (`Opens`)
    /// - `Failed`: the opener counted a failure. Then: no image is open, and the next one stays; it was asked for this name, or
    ///   failed before that. (`OpenerFails`)
    fn open_to_read(&mut self, name: &str) -> Opened<Self::Image>
        ensures { OpenRule Self.Image.faults ReadOnly name.now
            (opener_view (next self.old) (after_next self.old) (returned self.old) (returned_before self.old)
            (asked self.old) (faults self.old))
            (opener_view (next self.new) (after_next self.new) (returned self.new) (returned_before self.new)
            (asked self.new) (faults self.new)) result };

    /// Takes an image back, and adds its failures to the opener's; they alone are counted. What is given next stays.
    ///
    /// # Clauses
    ///
    /// - `CloseRule`: The image is the one that was handed back last, and the one that was so is that before it. Exactly its
    ///   failures are added to the opener's. What is given next and what was asked for stay.
    fn close(&mut self, image: Self::Image)
        ensures { CloseRule returned_known Self.Image.faults image
            (opener_view (next self.old) (after_next self.old) (returned self.old) (returned_before self.old)
            (asked self.old) (faults self.old))
            (opener_view (next self.new) (after_next self.new) (returned self.new) (returned_before self.new)
            (asked self.new) (faults self.new)) };
}
