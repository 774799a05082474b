//! A report that nobody reads, as a sink that never fails.
ghost use Rattle.std.specs.Prelude.{◌<◌, None, length};
ghost use Rattle.ram_outside.specs.Sink.{PutRule, sink_shown};

use ram_outside::{Put, Sink};

/// A sink that takes all that it is given, and keeps nothing.
#[derive(Debug, PartialEq, Eq, Drop)]
pub struct DroppedReport;

impl Sink for DroppedReport {
    ghost written = { λ _. None };

    ghost refused = { λ _. None };

    ghost faults = { λ _. 0 };

    fn put(&mut self, piece: &[u8]) -> Put
        requires { 0 < length piece.now }
        ensures { PutRule (sink_shown None None 0) (sink_shown None None 0) piece.now result }
    {
        Put::Took(piece.len())
    }
}
