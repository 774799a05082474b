//! The features of the drive, and those of them that a host asks for.

ghost use Rattle.std.specs.Prelude.{◌≡◌, ◌≤◌, ◌+◌, ◌-◌, ◌++◌, ◌∷◌, ◌&&◌, if◌then◌else◌, [], length, take, vec_capacity};
ghost use Rattle.byteorder.specs.Endian.{big_bytes};
ghost use Rattle.model_target.specs.Replies.{feature, features, sectors_said, is_asked, features_asked, configuration_reply};
ghost use Rattle.ram_mmc.specs.Looks.{feature_told};

use crate::replies::{cut, put};

/// Which features are asked for.
#[derive(Clone, Copy, Debug, PartialEq, Eq)]
pub struct Wanted {
    /// The kind of request: 0 asks for all from the first one on, 1 for the current ones of these, and 2 for the first one alone.
    pub kind: u8,
    /// The code of the first one.
    pub first: u16,
}

impl Wanted {
    /// The features that a request of this kind asks for, by this first one.
    pub fn new(kind: u8, first: u16) -> Wanted
        ensures kind { result.kind ≡ kind }
        ensures first { result.first ≡ first }
    {
        Wanted { kind, first }
    }

    /// Puts the data of GET CONFIGURATION into `data_in`, cut to the allocation length: the current profile, and the features that are
    /// asked for. How many bytes follow is told of the whole.
    pub fn reply(
        &self,
        data_in: &mut Vec<u8>,
        out: bool,
        formatted: bool,
        capacity: u32,
        allocation: u32,
    )
        requires empty { data_in.old.items ≡ [] }
        requires room { 84 ≤ vec_capacity data_in.old }
        ensures given { data_in.new.items
            ≡ take allocation (configuration_reply self.now.kind self.now.first out formatted capacity) }
        ensures room { vec_capacity data_in.old ≤ vec_capacity data_in.new }
    {
        let profile = if out { 0x00 } else { 0x12 };
        put(data_in, &[0, 0, 0, 0, 0, 0, 0, profile]);
        self.put_features(data_in, !out, formatted, capacity);
        data_in[3] = (data_in.len() - 4) as u8;
        cut(data_in, allocation);
    }

    /// Puts the features that are asked for behind the bytes that are there.
    fn put_features(&self, data_in: &mut Vec<u8>, inside: bool, formatted: bool, capacity: u32)
        requires room { length data_in.old.items + 76 ≤ vec_capacity data_in.old }
        ensures given { data_in.new.items ≡ data_in.old.items
            ++ features_asked self.now.kind self.now.first (features inside formatted capacity) }
        ensures few { length data_in.new.items ≤ length data_in.old.items + 76 }
        ensures room { vec_capacity data_in.old ≤ vec_capacity data_in.new }
    {
        let ready = is_ready(inside, formatted);
        let profiles = profiles(inside);
        let written = written_sectors(ready, capacity);
        self.put(data_in, 0x00, 2, true, &profiles);
        self.put(data_in, 0x01, 2, true, &[0, 0, 0, 1]);
        self.put(data_in, 0x02, 2, true, &[0, 0, 0, 0]);
        self.put(data_in, 0x03, 2, true, &[0x29, 0, 0, 0]);
        self.put(data_in, 0x10, 0, ready, &[0, 0, 8, 0, 0, 16, 1, 0]);
        self.put(data_in, 0x1f, 0, ready, &[]);
        self.put(data_in, 0x20, 4, ready, &written);
        self.put(data_in, 0x23, 0, inside, &[]);
        self.put(data_in, 0x24, 4, inside, &[0x80, 0, 0, 0]);
    }

    /// Puts a feature behind the bytes that are there, if it is asked for.
    fn put(&self, data_in: &mut Vec<u8>, code: u8, flags: u8, current: bool, says: &[u8])
        requires few { length says.now ≤ 12 }
        requires flags { flags ≤ 4 }
        requires room { length data_in.old.items + 4 + length says.now ≤ vec_capacity data_in.old }
        ensures given { data_in.new.items ≡ data_in.old.items
            ++ feature_told self.now.kind self.now.first (feature code flags current says.now) }
        ensures few { length data_in.new.items ≤ length data_in.old.items + 4 + length says.now }
        ensures room { vec_capacity data_in.old ≤ vec_capacity data_in.new }
    {
        if self.asks(code, current) {
            put(
                data_in,
                &[0, code, flags + u8::from(current), says.len() as u8],
            );
            put(data_in, says);
        }
    }

    /// Whether the feature of this code is asked for, which is current or not.
    fn asks(&self, code: u8, current: bool) -> bool
        ensures { result ≡ is_asked self.now.kind self.now.first (feature code 0 current []) }
    {
        let code = u16::from(code);
        if self.kind == 2 {
            code == self.first
        } else {
            self.first <= code && (self.kind == 0 || current)
        }
    }
}

/// Whether the disc can be read and written.
fn is_ready(inside: bool, formatted: bool) -> bool
    ensures { result ≡ inside && formatted }
{
    inside && formatted
}

/// What the list of profiles says: that of DVD-RAM, and whether it is current.
fn profiles(inside: bool) -> [u8; 4]
    ensures { result ≡ 0x00 ∷ 0x12 ∷ (if inside then 1 else 0) ∷ 0x00 ∷ [] }
{
    [0x00, 0x12, u8::from(inside), 0x00]
}

/// What the feature of random writing says: the last sector, how many bytes a sector has, and how many sectors a block.
fn written_sectors(ready: bool, capacity: u32) -> [u8; 12]
    ensures { result ≡ big_bytes 4 (if ready then capacity - 1 else 0) ++ sectors_said }
{
    let last = if ready { capacity.saturating_sub(1) } else { 0 };
    let [a, b, c, d] = last.to_be_bytes();
    [a, b, c, d, 0, 0, 8, 0, 0, 16, 1, 0]
}
