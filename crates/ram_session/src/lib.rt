//! A session of a client of the NBD protocol, over the machine that answers the lines of a script. Definitions, and their laws:
//! functions with an empty body, of which the contract is the law.
//!
//! What to read: `specs/Doing.antt` (what a request does), `specs/Talk.antt` (what each message makes of a session, and what the
//! client is told), `specs/Opening.antt` (what is done before the greeting) and `specs/Session.antt` (what stands with each status).
//! The bytes of messages are said in `model_nbd`, what a command does in `ram_machine`.
#![tactic(auto)]

pub mod laws;
