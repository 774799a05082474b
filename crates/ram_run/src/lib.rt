//! Runs the words of the program: a script of commands over a disc image, with a report of every answer.
//!
//! What to read: `specs/Words.antt` (the forms of the words), `specs/Rooms.antt` (the rooms that they ask for). Then
//! `src/run.rt`. How a script is answered line by line, and what stands with each status, is said and proved in `ram_script`; how
//! one is drawn from a number and summed up, in `ram_summary`; how an image is audited, in `ram_certificate`; how a client is
//! served, in `ram_client`; how a script for a mirror is, in `ram_mirrored`; what a line does to a disc, in `ram_machine`.
//!
//! # How it fits in
//!
//! A run opens its image first, hands it to `ram_script`, and closes it on every way out. All memory is taken before (`Rooms`, in
//! `src/rooms.rt`), by the form of the words.
//!
//! # What is proved
//!
//! # The call `run`
//!
//! [HEADLINE](../../docs/HEADLINE.md#the-clauses-of-run) has the clauses of `run`. Those on a script speak of `run` or `groups`
//! and a name, where conversation, opener and image tell their bytes. With ImageFault the opener may not have been asked at all;
//! then nothing was opened, read or written. Else what stands with each status is told at the heads of
//! `ram_script`, for `generate` of `ram_summary`, for `audit` and `check` of `ram_certificate`, for `nbd` of `ram_session`, and for `mirror`
//! of `ram_mirrored`.
//!
//! # Below `run`
//!
//! - `Rooms::new`: It asks for at most `MOST_BYTES`, 38,263,978 (`left`), and for at most 7,080,517 where the words do not ask for a
//!   session of a client (`fewer`), of a budget that has as many. It gives the rooms that the words ask for (`AreRoomsFor`). Words
//!   that need none ask for nothing, and are not refused (`none`). A refusal is the system's, by its type.
//! - `limits_of_rooms_are_these`: Those for the lines of a script ask for 7,011,716 bytes, those for a script from a number for
//!   7,080,517, those for a certificate for 3,138,783, those for a mirror for 6,470,370, those for a session of a client for 38,263,978.
//!
//! # What is neither
//!
//! - When the system refuses memory to `Rooms::new`.
#![tactic(auto)]

mod form;
pub mod help;
pub mod rooms;
pub mod run;
mod seed;
