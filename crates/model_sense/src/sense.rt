//! Sense data: why a command was not done, and the bytes by which a host is told.
ghost use Rattle.std.specs.Prelude.{◌≡◌};

use byteorder::{BigEndian, ByteOrder};

/// How many bytes sense data have.
pub const SENSE_BYTES: usize = 18;

/// Why a command was not done, in the three numbers of INCITS MMC, with a sector's number where that tells more.
#[derive(Clone, Copy, Debug, PartialEq, Eq)]
pub struct Sense {
    /// The sense key, from 0 to 15: the kind of the reason.
    pub key: u8,
    /// The additional sense code: the reason.
    pub asc: u8,
    /// The qualifier of the additional sense code.
    pub ascq: u8,
    /// The information: the first sector that is concerned.
    pub info: Option<u32>,
}

impl Sense {
    ghost use Rattle.model_sense.specs.Sense.{sense_data};

    /// The sense data, in the fixed format of INCITS MMC.
    pub fn to_bytes(&self) -> [u8; SENSE_BYTES]
        ensures { result ≡ sense_data self.now }
    {
        let mut bytes = [0; SENSE_BYTES];
        bytes[0] = match self.info {
            Some(_) => 0xf0,
            None => 0x70,
        };
        bytes[2] = self.key;
        BigEndian::write_u32(&mut bytes[3..], self.info.unwrap_or(0));
        bytes[7] = 10;
        bytes[12] = self.asc;
        bytes[13] = self.ascq;
        bytes
    }
}
