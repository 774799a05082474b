//! The head of a reply, and the errors that answers are told as.

ghost use Rattle.std.specs.Prelude.{◌≡◌, [], length};
ghost use Rattle.model_nbd.specs.Messages.{reply_bytes};
ghost use Rattle.model_nbd.specs.Commands.{error_of, lacks_spare};

use model_nbd::{EIO, ENOSPC, ESHUTDOWN};
use ram_sense::{Answer, Sense};

/// The bytes of a reply before the data of a read.
pub const REPLY_BYTES: usize = 16;

/// The head of a reply: the error, 0 where there is none, and the request's cookie.
pub fn reply_head(error: u32, cookie: u64) -> [u8; REPLY_BYTES]
    ensures { result ≡ reply_bytes error cookie [] }
{
    let [a, b, c, d] = error.to_be_bytes();
    let [e, f, g, h, i, j, k, l] = cookie.to_be_bytes();
    [0x67, 0x44, 0x66, 0x98, a, b, c, d, e, f, g, h, i, j, k, l]
}

/// The error that the answer to the last command of a request is told as; 0 if it is good.
pub fn error_of(answer: Answer) -> u32
    ensures { result ≡ error_of answer }
{
    match answer {
        Answer::Good => 0,
        Answer::Check(sense) => { if lacks_spare(&sense) { ENOSPC } else { EIO } }
        Answer::Cut | Answer::Off => ESHUTDOWN,
        Answer::Fault => EIO,
    }
}

/// Whether no spare is left.
fn lacks_spare(sense: &Sense) -> bool
    ensures { result ≡ lacks_spare sense.now }
{
    sense.key == 3 && sense.asc == 0x32 && sense.ascq == 0
}
