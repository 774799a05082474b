//! A disc that lies in an image, as one side of a mirror: what a run over two images does to each of them.
//!
//! What to read: `src/side.rt`, then `src/watched.rt`.
//!
//! - `Side` (`src/side.rt`): what a run over a mirror does to each of its discs beside the calls of the mirror: open and hand back an
//!   image, `fail`, `wear` and `arm_cut`. It tells the bytes that it lies in (`lies_in`), which always have the cells that it shows,
//!   and which the events that it underwent change by the medium's rule (`side_laws`).
//! - `Watched` (`src/watched.rt`): a disc that remembers whether a call of it answered Fault since one began to watch it.
//!
//! # How it fits in
//!
//! - **Which image failed.** A mirror answers for the side that leads: where the image of the other one fails it goes on, and no answer
//!   tells so. A run is to stop there. So it begins to watch both sides before each line, and asks them after it. That a side says so
//!   exactly where its image counted a failure follows from what it underwent (`tracks`), so it holds through all calls of a mirror.
//! - **No write cache.** `Drive` of `ram_machine` does the same for a disc with a write cache, and with what a machine needs; a mirror
//!   has none.
//! - **Over an image** a side is a `Watched` volume over the medium in it (`src/volume.rt`). The mirror and the run are generic over
//!   `Side`.
//! - All memory is taken by `SideRooms::new`, out of a budget (`SIDE_MEMORY`), and handed on from one disc to the next.
#![tactic(auto)]

mod rooms;
mod side;
mod volume;
mod watched;

pub use rooms::{SIDE_MEMORY, SideRooms};
pub use side::Side;
pub use watched::Watched;
