//! Two images with the room for the data of a line. What holds of the rooms is kept here alone.
ghost use Rattle.std.specs.Prelude.{◌≡◌, ◌≤◌, vec_capacity};
ghost use Rattle.ram_text.specs.declared.payload.TheConstants.{PAYLOAD_ROOM};

use crate::held::Held;
use ram_side::Side;

/// What answers the lines of a script for a mirror: two images or a mirror of the discs in them, the data of the newest line, and the bytes
/// that the last read gave.
pub struct Pair<S: Side> {
    /// The images, or the mirror.
    pub held: Held<S>,
    /// The data that go with a line.
    pub payload: Vec<u8>,
    /// The bytes that a read gave.
    pub shown: Vec<u8>,
    ghost payload_room: { PAYLOAD_ROOM ≤ vec_capacity payload },
    ghost shown_room: { PAYLOAD_ROOM ≤ vec_capacity shown },
}

impl<S: Side> Pair<S> {
    /// What was held; the room for data is let go.
    ///
    /// # Answers
    ///
    /// - `Images`, `Mirror`: what was held. (clause)
    pub fn into_held(self) -> Held<S>
        ensures { result ≡ self.held }
    {
        let Pair {
            held,
            payload,
            shown,
        } = self;
        drop(payload);
        drop(shown);
        held
    }
}
