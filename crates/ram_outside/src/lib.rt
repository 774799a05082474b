//! What a drive needs of the world outside it: a conversation, which a source of script bytes and a sink for the report make; an image's
//! bytes; and an opener of images. The traits say what each call may do; each failure is counted.
//!
//! Three things are known of such an object: its bytes, where the object makes them known; a count of its failures; and the
//! answer of the call.
//!
//! So a status that reports no failure shows that no count rose: a body that passes over a failure cannot hide it. Of the
//! adapters only the count is known, for no contract can say what a file will give.
//!
//! # What is proved
//!
//! - every call of the traits, `count` in each rule: An answer other than `Failed` leaves the count exactly as it was.
//!   `Failed` comes only where the count rose, or stands at 2^64 - 1. So a failure cannot be passed over.
//! - `Image`, `past`: What it was after each call that may have changed a byte, and after each that failed, where that is known.
//!   `laws` (`IsFailStop`), `stops`: Once a call has failed all fail, and none changes a byte, so it has the bytes that the one
//!   that failed left. `MemImage::with_past` makes an image that tells its past.
//! - `MemImage`, `GivesLengthExactly`, `ReadsImageExactly`, `WritesImageExactly`, `ResizesExactly`: Which call fails. A call that
//!   fails changes no byte of the image, and a read that fails changes none of the slice.
//! - `MemOpener`, `OpensExactly`, `after_close`: It gives its image, or its two images in order, once each, whatever the name, and
//!   keeps each name that it was asked for. Where memory for the name is refused it fails, and asked for nothing.
//! - `Conversation::take`, `AsksNow`: It notes what was left to come and what was written before. The sink is a part of a conversation:
//!   whoever writes to it changes nothing else of it (`HoldsReport`).
//! - `MemConversation`: It keeps how it stood whenever more was asked for, unless memory for that is refused; `BothEnds` does not.
//! - `Sink::put`, `SinkFails`: It counts exactly one failure, and what the piece would have made of the report is known (`refused`).
//! - `StdSource`, `StdSink`, `FileImage`, `FileOpener`, `rule`, `count`: They obey their trait, with no bytes known. The count
//!   rises by one exactly where the call failed.
//!
//! The definitions stand in `specs/`: one file for each trait, `Memory.antt`, `MemConversation.antt` and `Calls.antt` for the forms in memory,
//! `Adapters.antt` for the adapters.
//!
//! # What is neither
//!
//! - Which bytes a slice holds after a failed read of a file.
//! - What another program does to a file. `FileOpener` locks each file that it opens to be written, and a second one that does is refused;
//!   that is tested.
//! - When memory is refused.
//!
//! # What is trusted
//!
//! The system, and the toolchain's library over it: that a file or a stream does with the bytes what its calls say. No contract
//! can say what a file gives.
//!
//! # What must fail
//!
//! `must-fail/` has four wrong changes that the prover refuses: an image that goes on behind a failure, an opener that forgets the
//! failures of the image that it takes back, a sink that counts a failure and goes on, a failed write that changes a byte outside
//! its range.
#![tactic(auto)]

pub mod conversation;
mod errors;
pub mod file;
pub mod image;
pub mod lock;
pub mod memory;
pub mod opener;
pub mod sink;
pub mod source;
pub mod standard;

pub use conversation::{BothEnds, Conversation};
pub use file::{FileImage, FileOpener};
pub use image::{Image, Length, Moved};
pub use lock::LockFile;
pub use memory::{MemAsked, MemConversation, MemImage, MemOpener, MemSink, MemSource};
pub use opener::{Access, Opened, Opener};
pub use sink::{Put, Sink};
pub use source::{Source, Take};
pub use standard::{StdSink, StdSource};
