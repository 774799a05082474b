//! Laws of a mirror of two discs that go over several of its calls, and over runs. Functions with an empty body, whose contract is the
//! law: the build fails where one is not proved.
//!
//! The last of them stand together. A good write makes each of its sectors *kept*; a kept sector stays so over runs, whichever image comes
//! first; and a good read of it shows its bytes. What keeps it is one side, which has the bytes in whatever disc may be found on it, while
//! the other side has them as well, or its record of the lead is behind, so that it does not lead.
#![tactic(auto)]

mod ahead;
mod counted;
mod kept;
mod runs;

pub use ahead::{
    a_copy_that_lasts_was_there_when_both_sides_woke, the_lead_is_ahead,
    the_side_that_is_ahead_leads_again, what_is_noted_of_the_records_is_true,
};
pub use counted::a_fault_of_a_mirror_is_counted;
pub use kept::{a_call_leaves_both_sides_sound, other_calls_leave_the_records};
pub use runs::{
    a_kept_sector_comes_again, a_kept_sector_is_shown, a_kept_sector_stays,
    a_sector_is_kept_over_runs, a_written_sector_is_kept,
};
