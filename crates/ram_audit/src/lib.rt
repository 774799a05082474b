//! The audit of a disc in an image, and the check of an audit: the text of a certificate, and how a source compares with it.
//!
//! - The lists are found by the mount's own choice (`find_lists` of `ram_lists`), with the power on, and repaired nowhere. What
//!   each cell of their copies has is told by a read and a comparison with the text that belongs there; a cell without whole
//!   bytes by its state byte.
//! - The homes of logical blocks are looked at by their state bytes alone.
//! - Nothing is armed on the medium, and nothing but reads happens to it, so each byte of the image stays (`IsLeft`), whatever
//!   the answer.
//! - Lists of one group of spares are looked for first; and those of a group in each zone where there are none, and the spares
//!   fit the zones.
//!
//! All memory is taken by `AuditRooms::new`, before the image is opened; that of the text by `Lines::new`: room for the text of
//! any disc (`TEXT_ROOM`, 2.6 MB). `Lines` keeps, as facts of its type, that there is that room, and that there are no more lines
//! than bytes; so no line has an answer for want of memory, and none asks how many there are.
//!
//! `must-fail/` has two wrong changes that the prover refuses: a source that ends early is taken for the same, and a lost block is
//! told by the number of its home.
//!
//! - **Neither proved nor tested:** how long a call takes, how much of a source is taken where it differs, and that `new`
//!   succeeds where there is memory.
//! - **Trusted:** the toolchain, and what it knows of `Vec` and of `itoa`.
//! - **Stands on:** `model_audit`, `ram_lists`, `ram_groups`, `ram_spare`, `ram_image`, `ram_outside`, `itoa`.
#![tactic(auto)]

mod certificate;
mod comparing;
mod copies;
mod discs;
mod homes;
mod laws;
mod lines;
mod lists;
mod looking;
mod rooms;
mod telling;

pub use certificate::tell_certificate;
pub use comparing::{Compared, compare};
pub use discs::{Audited, Checked, audit_disc, check_disc};
pub use laws::{a_difference_is_in_one_line, limits_are_these};
pub use lines::Lines;
pub use lists::{tell_primary, tell_secondary};
pub use looking::ImageFailed;
pub use model_audit::{CertificateLine, CopyState};
pub use rooms::{AUDIT_MEMORY, AuditRooms};
pub use telling::{TEXT_ROOM, put_difference};
