//! The requests of a client of the NBD protocol, each done by commands of the machine that answers a script.
//!
//! What to read: `specs/Requests.antt` (what a request makes of a disc, by what became of it), `specs/Chains.antt` (one command, and some
//! of them). What the commands of a request are is said in `model_nbd`, what its reply is in `ram_session`, what a command does in
//! `ram_machine`.
#![tactic(auto)]

mod parts;
mod requests;

pub use requests::{REQUEST_ROOM, answer_request};
