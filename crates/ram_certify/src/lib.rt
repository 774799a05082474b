//! Certification: each data block of a disc that is not kept as defective is written with zeros and read back, and the dead
//! ones are found. It touches data blocks alone, and takes no memory: the block of zeros that it writes is made before.
//!
//! What is proved, of the public calls `certify_blocks` (`src/blocks.rt`), which crates call with the power on and which answers
//! a `Result`, `certify`, which is a border over it, and `zero_block` (`src/certification.rt`), on any medium:
//!
//! - after Done each block that is not kept has zeros or is dead; the dead ones are found, in rising order as far as there was
//!   room, and all are counted: `rule` (`HasCertified`, `AreUnreadable` in `specs/Certifying.antt`).
//! - it takes two uses for each data block that is not kept, and at most that number where it is stopped: `rule`
//!   (`certify_uses`).
//! - no other cell changes, whatever the answer; where it is stopped each cell is as it was, has zeros, or is torn or dead:
//!   `rule` (`ChangesCertifiedAlone`, `StopsCertifying.left`).
//! - Off exactly where the power was off, and then nothing is done; Cut and Fault exactly where that count rose: `rule`.
//! - the room of `found` is there afterwards: `room`.
//! - `zero_block` gives a block of zeros, and asks for at most its bytes of a budget: `zeros`, `left`.
//!
//! Only tested: that this is the order of the uses (`checks/steps`: a format that is cut at each use, and what each block holds
//! then).
//!
//! Neither: speed.
#![tactic(auto)]

mod blocks;
mod certification;

pub use blocks::certify_blocks;
pub use certification::{Certified, certify, zero_block};
