//! Bytes from a conversation: as many as are wanted, and no more.
//!
//! A protocol of messages knows how many bytes it needs next. Nothing is read beyond these, so nothing is kept between two
//! messages, and nothing is lost where a session ends.
#![tactic(auto)]

ghost use Rattle.std.specs.Prelude.{◌≡◌, length};
ghost use Rattle.ram_outside.specs.Conversation.{AsksOnly};
ghost use Rattle.ram_receive.specs.Receiving.{ReceiveRule, IsShortAsk};

use ram_outside::{Conversation, Take};

/// How the receiving of some bytes ended.
#[derive(Clone, Copy, Debug, PartialEq, Eq)]
pub enum Received {
    /// All of them came.
    Whole,
    /// This many came, and then the conversation ended.
    Ended(usize),
    /// This many came, and then no more could be had, which was counted.
    Failed(usize),
}

/// Fills the slice with the next bytes that come, and takes no more.
///
/// # Clauses
///
/// - `rule` (`ReceiveRule`): the bytes that came, in the slice's front, and the count of failures.
/// - `length`: the slice is as long as before.
/// - `same`: the sink is as it was.
/// - `asks` (`IsShortAsk`): whenever more was asked for, not all of them had come, and what is written by now was written.
///
/// # Answers
///
/// - `Whole`: the slice has the next bytes, and nothing was counted. (`ReceiveRule`)
/// - `Ended`: nothing more was left. Then: the bytes before that are in the slice's front; nothing was counted. (`ReceiveRule`)
/// - `Failed`: a failure was counted. Then: the bytes before that are in the slice's front. (`ReceiveRule`)
pub fn receive<T: Conversation>(talk: &mut T, into: &mut [u8]) -> Received
    ensures rule { ReceiveRule (T.left talk.old) (T.left talk.new)
        (T.faults talk.old) (T.faults talk.new) into.new result }
    ensures length { length into.new ≡ length into.old }
    ensures same { T.report talk.new ≡ T.report talk.old }
    ensures asks { AsksOnly
        (IsShortAsk (T.left talk.old) (T.Sink.Sink.written (T.report talk.old)) (length into.old))
        (T.asked talk.old) (T.asked talk.new) }
{
    let mut at = 0;
    while at < into.len() {
        match talk.take(&mut into[at..]) {
            Take::Got(count) => at += count,
            Take::End => return Received::Ended(at),
            Take::Failed => return Received::Failed(at),
        }
    }
    Received::Whole
}
