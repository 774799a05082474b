//! What an audit of a disc tells: the lines of its certificate, their text, and what follows from them. Definitions, and their
//! laws.
//!
//! Lists are looked for under both kinds of layout (`AreLookedFor`): of one group of spares first, and of a group in each zone
//! where none of one group are chosen and the spares fit the zones. So one definition serves both kinds, and the second line
//! names the kind. A disc with lists of neither has the mark that it has with one group.
//!
//! A cell of a copy is told as `exact` where it has whole bytes, which are its part of the text, as `other` where it has other
//! whole bytes, as `unread` where it is blank or torn, and as `dead`. So whether lists are settled can be read from the text
//! alone.
//!
//! The laws are functions with an empty body in `src/laws.rt`, whose contract is the law, so the build fails where one is not
//! proved. In each of them 'undisturbed' means that no cell turned dead, and that neither a cut nor a fault was counted.
//!
//! `worked_texts` has the whole text of a disc that was only pressed, and lines of each form.
//!
//! - **Not said:** what the disc contains, and which of its spares are dead.
//! - **Stands on:** `model_drive` and what that stands on.
#![tactic(auto)]

mod laws;
mod lines;
mod worked;

pub use laws::{
    a_block_that_is_not_lost_reads, a_certificate_is_read_back, a_certified_disc_mounts,
    a_disc_has_a_certificate, a_disc_has_one_certificate, a_text_has_one_reading,
    an_exact_certificate_mounts_without_a_write, exact_and_dead_copies_are_settled,
};
pub use lines::{CertificateLine, CopyState};
pub use worked::worked_texts;
