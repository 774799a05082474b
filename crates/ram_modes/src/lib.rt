//! Mode pages: what MODE SENSE replies, and which parameter lists MODE SELECT(10) takes.
//!
//! The pages, the reply and the parameter list are defined in `model_modes`. In the code there is one table of the
//! first two (`current_page` and `changeable_page` in `src/pages.rt`): of each page its bytes with the values in force, and the
//! bits that may be changed. Beside it stands `capabilities_by`, the page of capabilities. Codes, lengths and replies follow from
//! it, here and in `ram_cdb`. Nothing here takes memory: a reply is put
//! behind what a list has, in room that was taken before.
//!
//! # What is proved
//!
//! - `page_with`, `page_by`, `capabilities_by` (private to the crate): the page with a code; its bytes, by the page control;
//!   those of the page of capabilities.
//!
//! Their conditions: page control below 3, a page code that asks for a page, and room for 64 bytes more. `decode` of `ram_cdb`
//! refuses all else before (5/24/00, and 5/39/00 for page control 3), and any length of a list but 0, 8, 20 and 32 (5/1A/00);
//! `select` itself knows no limit of pages. Two laws of `model_modes` say that the replies have the bytes that
//! are meant (`worked_replies`, `worked_short_replies`).
//!
//! # What is neither
//!
//! Whether the drive behaves as its pages say.
//!
//! # What is trusted
//!
//! The definitions of `model_modes`, after INCITS MMC and SPC. Which values the pages have, and that one bit alone may be
//! changed, are this project's own.
//!
//! **Stands on:** `model_modes`, `ram_sense`.
#![tactic(auto)]

pub mod modes;
mod pages;

pub use modes::Modes;
pub use pages::{is_no_list_length, is_page_code};
