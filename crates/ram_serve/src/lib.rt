//! A client of the NBD protocol is served the disc in an image: the rooms of a session, messages that come and go, the handshake, and
//! requests; each message is answered before the next one is taken. The whole session is that of `ram_client`.
//!
//! What to read: `specs/Turns.antt` (what requests make of a session), `specs/Handshakes.antt` (what the handshake makes of it),
//! `specs/Taking.antt` (what taking a message may do), `specs/Messages.antt` (what receiving and telling may do, by their answers),
//! `specs/Rooms.antt`. What a session is is said in `ram_session`.
#![tactic(auto)]

pub mod handshake;
pub mod incoming;
pub mod messages;
pub mod options;
mod rooms;
pub mod transmission;

pub use rooms::{MESSAGE_MEMORY, MessageRooms, SESSION_MEMORY, SessionRooms};
