//! The record of the lead of one disc, and its block, both ways. It touches the caller's block alone.

ghost use Rattle.std.specs.Prelude.{◌≡◌, ◌+◌, ◌<◌, ◌≤◌, ◌^◌, ◌∷◌, ◌++◌, [], IfOk, Bool, MatchOption, length, take, drop};
ghost use Rattle.byteorder.specs.Endian.{big_bytes};
ghost use Rattle.model_lists.specs.declared.records.TheConstants.{REGIONS};
ghost use Rattle.model_lists.specs.Records.{first_record, together_byte, IsLawfulRecord, IsRecordText};
ghost use Rattle.ram_record.specs.Record.{record_of, IsReadRecord};

use crate::regions::Regions;
use model_lists::REGIONS;
use ram_bytes::{Block, Budget, MemoryRefused, get_u32, is_zero};

/// How many bytes of a text stand before the regions.
const BEGIN_BYTES: usize = 8;

/// The record of the lead of one disc: whether it led last, and where it may differ from the other disc of its mirror.
#[derive(Debug, Drop)]
pub struct LeadRecord {
    /// The greater number leads. A disc that has no record yet has 0.
    pub generation: u32,
    /// Whether both discs have the same bytes, but in the regions that are dirty.
    pub together: bool,
    /// The regions that are dirty.
    pub dirty: Regions,
}

/// The eight bytes before the regions.
fn begin_bytes(together: bool, generation: u32) -> [u8; 8]
    ensures bytes { result ≡ 76 ∷ 69 ∷ 1 ∷ together_byte together ∷ big_bytes 4 generation }
    ensures fits { generation < 2 ^ 32 }
{
    let together_byte = if together { 1 } else { 0 };
    let [g0, g1, g2, g3] = generation.to_be_bytes();
    [0x4c, 0x45, 1, together_byte, g0, g1, g2, g3]
}

/// That the number is one of four bytes.
fn has_four_bytes(number: u32)
    ensures { number < 2 ^ 32 }
{
    let _number = number;
}

/// The flag, where the first four bytes are those of a record.
fn together_of(bytes: &[u8]) -> Option<bool>
    ensures { MatchOption result
        ((together : Bool) → take 4 bytes.now ≡ 76 ∷ 69 ∷ 1 ∷ together_byte together ∷ [] → ⊥)
        (λ together. take 4 bytes.now ≡ 76 ∷ 69 ∷ 1 ∷ together_byte together ∷ []) }
{
    match bytes {
        [0x4c, 0x45, 1, 0, ..] => Some(false),
        [0x4c, 0x45, 1, 1, ..] => Some(true),
        _ => None,
    }
}

/// The number that stands behind the first four bytes.
fn generation_of(bytes: &[u8]) -> u32
    requires { 8 ≤ length bytes.now }
    ensures { take 4 (drop 4 bytes.now) ≡ big_bytes 4 result }
{
    get_u32(bytes, 4)
}

impl LeadRecord {
    /// The record of a disc that has none yet.
    ///
    /// # Answers
    ///
    /// - `Ok`: the record of a disc that has none yet. (clause)
    /// - `Err`: the system refused memory that was asked for within the budget. (clause)
    pub fn new(budget: &mut Budget) -> Result<LeadRecord, MemoryRefused>
        requires free { REGIONS ≤ budget.old }
        ensures left { budget.old ≤ budget.new + REGIONS }
        ensures first { IfOk result (λ held. record_of held ≡ first_record) }
    {
        Ok(LeadRecord {
            generation: 0,
            together: false,
            dirty: Regions::new(budget)?,
        })
    }

    /// Becomes the record of a disc that has none yet.
    pub fn clear(&mut self)
        ensures { record_of self.new ≡ first_record }
    {
        self.generation = 0;
        self.together = false;
        self.dirty.fill(0);
    }

    /// Takes over the other record.
    pub fn copy_from(&mut self, other: &LeadRecord)
        ensures { record_of self.new ≡ record_of other.now }
    {
        self.generation = other.generation;
        self.together = other.together;
        self.dirty.copy_from(other.dirty.bytes());
    }

    /// That the value of a record is lawful: the types of its parts keep that.
    ///
    /// # Clauses
    ///
    /// - `IsLawfulRecord`: it holds of each record, and the call does nothing.
    pub fn is_lawful(&self)
        ensures { IsLawfulRecord (record_of self.now) }
    {
        has_four_bytes(self.generation);
        let _bytes = self.dirty.bytes();
    }

    /// Writes the text of this value, all bytes of the block.
    ///
    /// # Clauses
    ///
    /// - `IsRecordText`: the block is then the text of the value, whatever it held before. So each value is a lawful one.
    pub fn encode(&self, into: &mut Block)
        ensures { IsRecordText (record_of self.now) into.new }
    {
        let (begin, others) = into.bytes_mut().split_at_mut(BEGIN_BYTES);
        begin.copy_from_slice(&begin_bytes(self.together, self.generation));
        let (regions, gap) = others.split_at_mut(REGIONS);
        regions.copy_from_slice(self.dirty.bytes());
        gap.fill(0);
    }

    /// Takes over the value whose text this block is, in its room. False exactly where the block is the text of no value; what the
    /// record says then is not said. It takes no memory.
    ///
    /// # Clauses
    ///
    /// - `IsReadRecord`: true, and it is the value whose text the block is; or false, and the block is the text of none.
    ///
    /// # Answers
    ///
    /// - `true`: it is the value whose text the block is; no block is the text of two. (`IsReadRecord`)
    /// - `false`: the block is the text of no value; what the record says is not said. (`IsReadRecord`)
    pub fn decode(&mut self, from: &Block) -> bool
        ensures { IsReadRecord result self.new from.now }
    {
        let bytes = from.bytes();
        let Some(together) = together_of(bytes) else {
            return false;
        };
        if !is_zero(&bytes[BEGIN_BYTES + REGIONS..]) {
            return false;
        }
        self.generation = generation_of(bytes);
        self.together = together;
        self.dirty
            .copy_from(&bytes[BEGIN_BYTES..BEGIN_BYTES + REGIONS]);
        true
    }
}
