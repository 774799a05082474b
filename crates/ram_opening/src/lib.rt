//! What is done before a client of the NBD protocol is greeted: the power comes on, the attention is taken, the write cache is turned on,
//! and then come the faults that the words ask for.
//!
//! What to read: `specs/Opens.antt` (what opening a session may do, by its answer), `specs/Exports.antt` (what is served then) and
//! `specs/Faults.antt` (words that read as faults). The lines themselves are said in `ram_session`, what a line does in `ram_machine`.
#![tactic(auto)]

mod opening;

pub use opening::{Export, open_session};
