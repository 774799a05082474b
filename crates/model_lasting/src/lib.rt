//! That no cut loses the disc of a drive: what lasts over its calls. Definitions alone, and their laws.
#![tactic(auto)]

mod dead_laws;
mod laws;
mod losing_laws;
mod step_laws;

pub use dead_laws::dead_cells_stay_dead;
pub use laws::{
    a_mount_finds_the_lists, lists_in_use_can_be_found, stopped_calls_leave_lists_that_can_be_found,
};
pub use losing_laws::a_stopped_call_loses_one_copy_at_most;
pub use step_laws::a_formatted_disc_stays_formatted;
