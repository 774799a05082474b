//! Laws of runs of a mirror on the same two images, one after another. Functions with an empty body, whose contract is
//! the law: the build fails where one is not proved.
//!
//! What to read: `specs/Histories.antt` (what may happen next to a pair of images), `specs/Keeping.antt` (what of it keeps a
//! sector), then `src/laws.rt`.
#![tactic(auto)]

mod laws;

pub use laws::{
    a_run_of_a_mirror_is_a_history, a_written_sector_is_shown_over_runs, two_histories_are_one,
};
