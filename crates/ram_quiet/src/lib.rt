//! That a disc keeps its lists between two updates: whatever blocks are read, whatever data blocks are written, whatever mounts are
//! cut and whatever blocks die. Nothing stands on this crate.
//!
//! The lists that are given begin as the only ones that the cells may give. So it is after a write, an expansion or a format that
//! was answered Good (`lists_in_use_are_given_alone` of `model_drive`), and after a mount that found lists.
//!
//! - `follows`: the medium and the room follow from those at entry by the steps and one last mount, each by the contract of the
//!   call that it names (`FollowsAll`, defined from the end of the list).
//! - `alone`: the cells give no lists but these, whatever cells died and whatever was cut.
//! - `answer`: where cells are known, a mount that found lists found these.
//!
//! So no acknowledged replacement is undone before the next update. What a mount needs to find lists at all is in
//! `model_survival`.
//!
//! What a disc that keeps its lists shows is tested on the built program (`checks/steps`).
#![tactic(auto)]

mod making;
mod steps;

pub use making::quiet;
pub use steps::Quiet;
