//! Tells what an image holds, as the text of its certificate, and checks such a text against an image.
//!
//! What to read: `specs/Auditing.antt` (what is written, by the status). Then `src/audit.rt`. The lines of a certificate and
//! their text are those of `model_audit`; how an image is looked at is said and proved in `ram_audit`.
//!
//! # What is proved
//!
//! Where image and source tell their bytes (`AuditAnswers`, `CheckAnswers` of `specs/Auditing.antt`): what is written is the
//! certificate of the image, or the answer of the comparison, by the status; or a beginning of it with SinkFault, and nothing
//! with ImageFault and SourceFault. The image is handed back with each byte as it was.
//!
//! `must-fail/` has two wrong changes that the prover refuses: a check that found a difference ends with Done, and of an image
//! that is no disc's nothing is written.
#![tactic(auto)]

mod audit;
mod laws;
mod rooms;

pub use audit::{audit_image, check_image};
pub use laws::a_checked_image_mounts;
pub use rooms::{CERTIFICATE_MEMORY, CertificateRooms};
