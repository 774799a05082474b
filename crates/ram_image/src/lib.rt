//! A medium over the bytes of an image: pressing one, opening one that is there, and reading and writing its blocks.
//!
//! # How it fits in
//!
//! The bytes of an image stand for cells, one for each block (`cells_of`), and this crate is the only one that sees both.
//!
//! - Of a write, which is three writes of the image that may each fail half way, one relation on the cells is told: the block's
//!   cell is as it was, has the new bytes, or is torn or dead, and no other cell differs.
//! - The bytes are pinned too. The state of a run carries them (`Served` of `ram_machine`), and the image that is handed back has
//!   just these.
//! - A medium says what can follow by n uses, and that nothing but events happened (`Happened` of `model_medium`). Each layer
//!   above passes that on with the uses: the drive in one word (`underwent`), and the line by telling each event on the cells and
//!   on the bytes (`LineBytes` of `ram_machine`).
//! - Good blocks that lie in a row are remembered, so of reads of one good block after another 63 in 64 are one call of the
//!   image.
//!
//! # The image
//!
//! The image has a header of 16 bytes, a state byte for each block, and then the data of each block, 32,768 bytes. The header is
//! the signature `DVDRAM01`, then zones, scale and primary spares in two bytes each, the highest byte first, then two zeros. It
//! does not tell the kind of the disc's layout: with a group of spares in each zone the third number is that of each zone.
//!
//! A press writes just this: it makes the image empty, then as long as it must be, which gives zeros, and then writes the header.
//! Where it fails in between, the image is as it was, or no disc's.
//!
//! A state byte is 0 for a blank block, 1 for a good one, 3 for a dead one, and 2 for a torn one; any other counts as torn.
//! `src/cells.rt` is the one place that writes them.
//!
//! A write of a block is three writes of the image: the state byte of a torn block, the data, the state byte of a good one. So a
//! program that is killed half way leaves a torn block, and never a good one with mixed data.
//!
//! # What is proved
//!
//! Each clause speaks of bytes and cells where the image's bytes are known. A real file's are not: for it the counts, the power
//! and the answers are proved, and the bytes are as its calls make them.
//!
//! - `ImageMedium` as a `Medium`, `rule`, `continues`: all that `ram_medium` says of any medium, of `read`, `read_into`, `write`
//!   and `write_from` alike.
//! - `event` (`ImageTakes`): `lawful`: the event uses a block of the disc, and what is written is as long as a block. `exactly`:
//!   what the event does exactly to cells, arms, power and counts. `same_shape`: the geometry stays. `bytes`: which bytes of the
//!   image change, as below. `past`: at each moment within the event, which is after each call to the image, this is one that a
//!   failure in the event could leave (`PastAt`).
//! - every call, `rule`: an answer other than a failure leaves the image's count exactly as it was.
//!
//! Which bytes change (`specs/EventBytes.antt`, over `model_image/specs/Writes.antt`), also under blocks that are not good:
//!
//! - a use in which an arm of the block runs out: first its state byte becomes that of a dead block.
//! - a read, `Done`, `Unreadable` or `Cut`: no others.
//! - a write, `Done`: then its data are the new ones and its state byte is that of a good block. Under a dead block nothing
//!   changes.
//! - a write, `Cut` with fate `old`: no others.
//! - a write, `Cut` with fate `new`: as with `Done`.
//! - a write, `Cut` with fate `torn`: its state byte becomes that of a torn block, and its data stay the old ones. Under a dead
//!   block nothing changes.
//! - `Off`, power on, power off, `wear`, `arm_cut`, `sync`, `fail` without such a block: none.
//! - `fail`, `Done`: the state byte becomes that of a dead block; the data stay.
//! - a read or a `fail` in which the image failed: none, or as above.
//! - a write in which the image failed: none, or the block's alone: each byte of the data is the old or the new one, and the
//!   state byte is the old one, or that of a torn or a good block. Under a dead block none but by its arm.
//!
//! `read_into` reads the data from the image straight into the caller's bytes, once the state byte is known to be that of a good
//! block. State bytes are read 64 at a time, from the block's own on, and the row of good ones at the front is remembered (the
//! ghost fields `good` and `within`: where the bytes are known, these state bytes stand in them). A write of a block of the row
//! reads no state byte before it, and leaves the row as it is. The row is forgotten as a block dies, as a write is cut with the
//! fate `old` or `torn` or fails, and at a write of any other block. `read` is that read into the caller's block, while the
//! medium's room for one block keeps the bytes that the block had. `write_from` writes the data to the image straight from the
//! caller's bytes, and `write` is that write from the bytes of the caller's block.
//!
//! What is armed lies in memory of its own (a `Box`), since a drive hands its medium from call to call: 64 arms would be half a
//! kilobyte that is moved each time.
//!
//! The private functions of `src/cells.rt` have the same in clauses `rule` (cells) and `bytes`, for each call on a block.
//! `header` and `geometry_of` are inverse to each other: the header of a geometry, the geometry of a header, and none exactly
//! where 16 bytes are no lawful header.
//!
//! # What is neither
//!
//! - How fast it is, how often a state byte is read, that `read_into` and `write_from` copy nothing, and that there is memory for
//!   the one block that `open` takes.
//! - What two programs do to one image at a time, and what a file holds after a crash of the machine.
//! - The texts of `OpenFault`, which the program never prints.
//!
//! # What is trusted
//!
//! The definitions in `specs/` here and in `model_image`, and below them the image's own calls: for a real file, that the system
//! does with the bytes what it is told.
#![tactic(auto)]

mod cells;
mod geometries;
pub mod header;
pub mod medium;
pub mod opening;
pub mod pressing;

pub use cells::StateRead;
pub use geometries::geometry_in;
pub use medium::{ImageMedium, Looked, MEDIUM_MEMORY, MediumRooms};
pub use opening::{OpenFault, Refused, open};
pub use pressing::{PressOut, press};
