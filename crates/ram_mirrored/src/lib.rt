//! A script is answered by a mirror of the discs in two images, from the images that are opened to the images that are closed.
//!
//! What to read: `specs/Running.antt` (what is promised), `specs/MirrorRuns.antt` (what stands with each status), `specs/MirrorPromise.antt` and
//! `specs/MirrorRegister.antt` (what a user may rely on by script and report alone). What a line does, and what a mirror stands for, is said in
//! `ram_pair`; how lines are answered one after another, and when a report ends, in `ram_answers`.
#![tactic(auto)]

pub mod laws;
mod rooms;
mod running;

pub use rooms::{MIRRORED_MEMORY, MirroredRooms};
pub use running::mirror_images;
