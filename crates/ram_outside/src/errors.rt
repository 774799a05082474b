//! How an error of the system becomes one failure more in a count. It touches that count alone.
ghost use Rattle.ram_outside.specs.Adapters.{CountsError};

use std::io;

/// The value of an outcome. An error is counted; the count stands still at 2^64 - 1.
pub(crate) fn count_error<T>(outcome: io::Result<T>, faults: &mut u64) -> Option<T>
    ensures { CountsError outcome result faults.old faults.new }
{
    match outcome {
        Ok(value) => Some(value),
        Err(_) => {
            *faults = faults.saturating_add(1);
            None
        }
    }
}
