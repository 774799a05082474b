//! What a client may rely on over whole sessions, as laws: functions with an empty body, of which the contract is the law.
//!
//! What to read: `specs/ReadBack.antt` (which messages wrote a sector and which read it), then `src/read_back.rt`; `specs/Protocol.antt`
//! (which messages may come one after another), then `src/protocol.rt`. What a session is, is said in `ram_session`.
#![tactic(auto)]

pub mod protocol;
pub mod read_back;
