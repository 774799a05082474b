//! The NBD protocol as far as the drive speaks it, fixed newstyle with simple replies: the bytes of a client's messages, what each
//! asks of the disc, the command blocks that do it, and the bytes of the answer. Definitions, and their laws.
//!
//! Numbers and forms are those of the NBD protocol; which options and requests are taken, how a request is divided into commands, and
//! which answer is told as which error are this project's own.
#![tactic(auto)]

pub mod laws;

/// The header of a request.
#[derive(Clone, Copy, Debug, PartialEq, Eq)]
pub struct Header {
    /// The command flags.
    pub flags: u16,
    /// The command: read, write, flush and so on.
    pub kind: u16,
    /// The client's name for the request, which its reply repeats.
    pub cookie: u64,
    /// The first byte of the disc that it concerns, counted from 0.
    pub offset: u64,
    /// How many bytes it concerns.
    pub len: u32,
}

/// What a request asks of a disc.
#[derive(Clone, Copy, Debug, PartialEq, Eq)]
pub enum NbdOperation {
    /// Nothing: the request is refused, and the disc is not asked.
    Refused {
        /// The error that the client is told.
        error: u32,
    },
    /// Read these sectors.
    Read {
        /// The first sector.
        lba: u32,
        /// How many.
        n: u32,
    },
    /// Write the request's data to these sectors.
    Write {
        /// The first sector.
        lba: u32,
        /// How many.
        n: u32,
        /// The bytes are on the disc before the reply (FUA).
        fua: bool,
    },
    /// Write zeros to these sectors.
    WriteZeroes {
        /// The first sector.
        lba: u32,
        /// How many.
        n: u32,
        /// The bytes are on the disc before the reply (FUA).
        fua: bool,
    },
    /// Put all that was acknowledged on the disc.
    Flush,
    /// Put all that was acknowledged on the disc; the client leaves, and gets no reply.
    Disconnect,
}

/// What follows an option of the handshake.
#[derive(Clone, Copy, Debug, PartialEq, Eq)]
pub enum NextPhase {
    /// Another option.
    Options,
    /// The transmission: requests are served.
    Transmission,
    /// Nothing: the client has left.
    Left,
    /// Nothing: the protocol has no answer, so the session ends.
    Violation,
}

/// The option NBD_OPT_EXPORT_NAME.
pub const EXPORT_NAME: u32 = 1;

/// The option NBD_OPT_ABORT.
pub const ABORT: u32 = 2;

/// The option NBD_OPT_LIST.
pub const LIST: u32 = 3;

/// The option NBD_OPT_INFO.
pub const INFO: u32 = 6;

/// The option NBD_OPT_GO.
pub const GO: u32 = 7;

/// The reply NBD_REP_ACK.
pub const ACKNOWLEDGED: u32 = 1;

/// The reply NBD_REP_SERVER, which names an export.
pub const SERVER: u32 = 2;

/// The reply NBD_REP_INFO, which tells of an export.
pub const FACT: u32 = 3;

/// The reply NBD_REP_ERR_UNSUP, to an option that is not known.
pub const UNSUPPORTED: u32 = 0x8000_0001;

/// The reply NBD_REP_ERR_INVALID, to data that the option may not have.
pub const INVALID: u32 = 0x8000_0003;

/// The reply NBD_REP_ERR_UNKNOWN, where there is no such export.
pub const UNKNOWN: u32 = 0x8000_0006;

/// The reply NBD_REP_ERR_TOO_BIG, to more data than are taken.
pub const TOO_BIG: u32 = 0x8000_0009;

/// The command NBD_CMD_READ.
pub const READ: u16 = 0;

/// The command NBD_CMD_WRITE.
pub const WRITE: u16 = 1;

/// The command NBD_CMD_DISC.
pub const DISCONNECT: u16 = 2;

/// The command NBD_CMD_FLUSH.
pub const FLUSH: u16 = 3;

/// The command NBD_CMD_WRITE_ZEROES.
pub const WRITE_ZEROES: u16 = 6;

/// The most bytes that a read or a write moves.
pub const MOST_BYTES: u32 = 33_554_432;

/// The most bytes of data that an option may have. Longer data are skipped.
pub const OPTION_LIMIT: u32 = 8_192;

/// The transmission flags of the export: HAS_FLAGS, SEND_FLUSH, SEND_FUA, ROTATIONAL and SEND_WRITE_ZEROES.
pub const EXPORT_FLAGS: u16 = 93;

/// The disc could not do it.
pub const EIO: u32 = 5;

/// The drive does not take such a request.
pub const EINVAL: u32 = 22;

/// The write goes past the end, or no spare is left for it.
pub const ENOSPC: u32 = 28;

/// The power is off.
pub const ESHUTDOWN: u32 = 108;
