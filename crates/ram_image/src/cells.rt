//! The cells of blocks in an image's bytes: the one place that writes state bytes and data. It knows no power and
//! no arms.

ghost use Rattle.std.specs.Prelude.{◌≡◌, ◌+◌, ◌*◌, ◌<◌, ◌≤◌, true, IfSome, length, slice_index};
ghost use Rattle.std.specs.Option.{ForSome};
ghost use Rattle.model_image.specs.Cells.{image_len, cell_in};
ghost use Rattle.model_image.specs.Writes.{torn_state, dead_state, with_state, worn_bytes, PutsInBlock, StopsInBytes, IsBeforeOrAfter};
ghost use Rattle.model_medium.specs.Cells.{Torn, Dead};
ghost use Rattle.ram_bytes.specs.declared.block.TheConstants.{BLOCK_BYTES};
ghost use Rattle.ram_image.specs.Moments.{IsSame, Passes};
ghost use Rattle.ram_image.specs.CellCalls.{WriteStateRule, WriteStateBytes, WriteCellRule, WriteCellBytes, KillWhereRule, KillWhereBytes};
ghost use Rattle.ram_image.specs.CellCalls.{cell_call, GoodRowRule, LeadsWithGood, ReadDataRule, ReadStateRule, LeaveCellRule, LeaveCellBytes};

use crate::header::HEADER_BYTES;
use ram_bytes::BLOCK_BYTES;
use ram_medium::Fate;
use ram_outside::{Image, Moved};

/// The state byte of a block with whole bytes.
const GOOD: u8 = 1;

/// The state byte of a block in whose writing the power was cut.
const TORN: u8 = 2;

/// The state byte of a dead block.
const DEAD: u8 = 3;

/// How many state bytes are read at a time.
const STATES: usize = 64;

/// What the state bytes of blocks in a row say.
#[derive(Clone, Copy, Debug, PartialEq, Eq)]
pub enum GoodRow {
    /// So many blocks from the first on have whole bytes. The one behind them was not looked at, or has none.
    Blocks(u32),
    /// The image failed.
    Failed,
}

/// How many blocks have whole bytes, from this one on, in an image of n blocks. It looks at 64 of them at most, by
/// one read of their state bytes.
pub fn count_good<I: Image>(image: &mut I, total: u32, block: u32) -> GoodRow
    requires inside { block < total }
    requires whole { ForSome (I.bytes image.old) (λ held. length held ≡ image_len total) }
    ensures rule { GoodRowRule (cell_call I.Image total block image.old image.new) result }
    ensures past { Passes I.Image IsSame image.old image.new }
{
    let count = STATES.min((total - block) as usize);
    let mut room = [0u8; STATES];
    let states = &mut room[..count];
    match image.read_at(state_offset(block), states) {
        Moved::Failed => GoodRow::Failed,
        Moved::Done => GoodRow::Blocks(leading_good(states) as u32),
    }
}

/// How many state bytes at the start are those of blocks with whole bytes.
fn leading_good(states: &[u8]) -> usize
    ensures { LeadsWithGood states.now result }
{
    states
        .iter()
        .position(|state| *state != GOOD)
        .unwrap_or(states.len())
}

/// Reads the data of a block that has whole bytes, in an image of n blocks, straight into the caller's bytes.
pub fn read_data<I: Image>(image: &mut I, total: u32, block: u32, into: &mut [u8]) -> Moved
    requires inside { block < total }
    requires fits { length into.old ≡ BLOCK_BYTES }
    requires whole { ForSome (I.bytes image.old) (λ held. length held ≡ image_len total) }
    requires good { ForSome (I.bytes image.old) (λ held. slice_index held (16 + block) ≡ 1) }
    ensures rule { ReadDataRule (cell_call I.Image total block image.old image.new) into.new result }
    ensures past { Passes I.Image IsSame image.old image.new }
{
    image.read_at(data_offset(total, block), into)
}

/// Writes the cell of a block that is not dead, in an image of n blocks: the state byte of a torn block, the
/// data, and then the state byte of one with whole bytes.
pub fn write_cell<I: Image>(image: &mut I, total: u32, block: u32, from: &[u8]) -> Moved
    requires inside { block < total }
    requires fits { length from.now ≡ BLOCK_BYTES }
    requires whole { ForSome (I.bytes image.old) (λ held. length held ≡ image_len total) }
    ensures rule { WriteCellRule (cell_call I.Image total block image.old image.new) from.now result }
    ensures bytes { WriteCellBytes (cell_call I.Image total block image.old image.new) from.now result }
    ensures past { Passes I.Image (PutsInBlock total block from.now)
        image.old image.new }
{
    match image.write_at(state_offset(block), &[TORN]) {
        Moved::Failed => return Moved::Failed,
        Moved::Done => {}
    }
    match image.write_at(data_offset(total, block), from) {
        Moved::Failed => return Moved::Failed,
        Moved::Done => {}
    }
    image.write_at(state_offset(block), &[GOOD])
}

/// What the state byte of a block says.
#[derive(Clone, Copy, Debug, PartialEq, Eq)]
pub enum StateRead {
    /// The block is dead.
    Dead,
    /// It is not.
    Alive,
    /// The image failed.
    Failed,
}

/// Reads the state byte of a block in an image of n blocks.
pub fn read_state<I: Image>(image: &mut I, total: u32, block: u32) -> StateRead
    requires inside { block < total }
    requires whole { ForSome (I.bytes image.old) (λ held. length held ≡ image_len total) }
    ensures rule { ReadStateRule (cell_call I.Image total block image.old image.new) result }
    ensures past { Passes I.Image IsSame image.old image.new }
{
    let mut state = [0u8; 1];
    match image.read_at(state_offset(block), &mut state) {
        Moved::Failed => StateRead::Failed,
        Moved::Done => {
            if state[0] == DEAD {
                StateRead::Dead
            } else {
                StateRead::Alive
            }
        }
    }
}

/// Makes a block dead: its state byte alone is written.
pub fn kill_cell<I: Image>(image: &mut I, total: u32, block: u32) -> Moved
    requires inside { block < total }
    requires whole { ForSome (I.bytes image.old) (λ held. length held ≡ image_len total) }
    ensures rule { WriteStateRule (cell_call I.Image total block image.old image.new) Dead result }
    ensures bytes { WriteStateBytes (cell_call I.Image total block image.old image.new) dead_state result }
    ensures past { Passes I.Image (λ held held'. IsBeforeOrAfter held (with_state block dead_state held) held')
        image.old image.new }
{
    image.write_at(state_offset(block), &[DEAD])
}

/// Makes a block torn, as the first of the three writes of its cell does.
fn tear_cell<I: Image>(image: &mut I, total: u32, block: u32) -> Moved
    requires inside { block < total }
    requires whole { ForSome (I.bytes image.old) (λ held. length held ≡ image_len total) }
    ensures rule { WriteStateRule (cell_call I.Image total block image.old image.new) Torn result }
    ensures bytes { WriteStateBytes (cell_call I.Image total block image.old image.new) torn_state result }
    ensures past { Passes I.Image (λ held held'. IsBeforeOrAfter held (with_state block torn_state held) held')
        image.old image.new }
{
    image.write_at(state_offset(block), &[TORN])
}

/// Makes a block dead where it is to die, and does nothing else.
pub fn kill_where<I: Image>(image: &mut I, total: u32, block: u32, dies: bool) -> Moved
    requires inside { block < total }
    requires whole { ForSome (I.bytes image.old) (λ held. length held ≡ image_len total) }
    ensures rule { KillWhereRule (cell_call I.Image total block image.old image.new) dies result }
    ensures bytes { KillWhereBytes (cell_call I.Image total block image.old image.new) dies result }
    ensures past { Passes I.Image (λ held held'. IsBeforeOrAfter held (worn_bytes dies block held) held')
        image.old image.new }
{
    if dies {
        return kill_cell(image, total, block);
    }
    Moved::Done
}

/// Leaves a block as a write of these bytes does that is cut with this fate: an old one ends before the first of its
/// three writes, a torn one after it, and a new one after the last, as a write does that is not cut. A dead block is
/// left as it is; whether it is dead is not read where the block is known to have whole bytes.
pub fn leave_cell<I: Image>(
    image: &mut I,
    total: u32,
    block: u32,
    from: &[u8],
    fate: Fate,
    known: bool,
) -> Moved
    requires inside { block < total }
    requires fits { length from.now ≡ BLOCK_BYTES }
    requires whole { ForSome (I.bytes image.old) (λ held. length held ≡ image_len total) }
    requires known { known ≡ true → ForSome (I.bytes image.old) (λ held. slice_index held (16 + block) ≡ 1) }
    ensures rule { LeaveCellRule (cell_call I.Image total block image.old image.new) from.now fate result }
    ensures bytes { LeaveCellBytes (cell_call I.Image total block image.old image.new) from.now fate result }
    ensures past { Passes I.Image (StopsInBytes total block from.now)
        image.old image.new }
{
    if known {
        return leave_alive(image, total, block, from, fate);
    }
    match read_state(image, total, block) {
        StateRead::Failed => Moved::Failed,
        StateRead::Dead => Moved::Done,
        StateRead::Alive => leave_alive(image, total, block, from, fate),
    }
}

/// The same of a block that is not dead.
fn leave_alive<I: Image>(image: &mut I, total: u32, block: u32, from: &[u8], fate: Fate) -> Moved
    requires inside { block < total }
    requires fits { length from.now ≡ BLOCK_BYTES }
    requires whole { ForSome (I.bytes image.old) (λ held. length held ≡ image_len total) }
    requires alive { IfSome (I.bytes image.old) (λ held. ¬ (cell_in total held block ≡ Dead)) }
    ensures rule { LeaveCellRule (cell_call I.Image total block image.old image.new) from.now fate result }
    ensures bytes { LeaveCellBytes (cell_call I.Image total block image.old image.new) from.now fate result }
    ensures past { Passes I.Image (StopsInBytes total block from.now)
        image.old image.new }
{
    match fate {
        Fate::Old => Moved::Done,
        Fate::New => write_cell(image, total, block, from),
        Fate::Torn => tear_cell(image, total, block),
    }
}

/// Where the state byte of a block stands.
fn state_offset(block: u32) -> u64
    ensures { result ≡ 16 + block }
{
    HEADER_BYTES as u64 + u64::from(block)
}

/// Where the data of a block begin, in an image of n blocks.
fn data_offset(total: u32, block: u32) -> u64
    ensures { result ≡ 16 + total + 32768 * block }
{
    HEADER_BYTES as u64 + u64::from(total) + BLOCK_BYTES as u64 * u64::from(block)
}
