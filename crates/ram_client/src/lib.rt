//! A client of the NBD protocol is served the disc in an image: the whole session, from the image that is opened to the image that is
//! closed.
//!
//! What to read: `specs/Serving.antt` (what is promised), `specs/Ends.antt` (how a session ends, by its status). What a session is, and
//! what stands with each status, is said in `ram_session`; what is done before the greeting in `ram_opening`; how messages are taken and
//! answered in `ram_serve`.
#![tactic(auto)]

mod image;
pub mod session;

pub use image::serve_image;
