//! What a line is answered.
use ram_bytes::Cdb;
use ram_mmc::Answer;
use ram_report::Event;

/// What a line is answered.
#[derive(Debug, PartialEq, Eq, Drop)]
pub enum Reply {
    /// Nothing: it says nothing.
    Nothing,
    /// A line that is no command.
    Event(Event),
    /// A command.
    Command {
        /// Its command block.
        cdb: Cdb,
        /// How it was answered.
        answer: Answer,
    },
}
