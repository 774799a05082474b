//! The NBD protocol in code: the handshake, the header of a request and what it asks, the command blocks that do it, and the head of
//! a reply.
//!
//! Each call is equal to its definition in `model_nbd`. The loop of a session stands above.
#![tactic(auto)]

pub mod commands;
pub mod handshake;
pub mod replies;
pub mod requests;
