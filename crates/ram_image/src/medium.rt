//! The medium over an opened image: power, counts, arms and the armed cut, around the calls of `cells`.

ghost use Rattle.std.specs.Prelude.{◌≡◌, ◌+◌, ◌<◌, ◌≤◌, ◌↔◌, if◌then◌else◌, true, false, is_some, IsTrue, MatchOption};
ghost use Rattle.std.specs.Option.{ForSome};
ghost use Rattle.std.proofs.Props.{props};
ghost use Rattle.model_geometry.specs.Geometry.{total};
ghost use Rattle.model_image.specs.Image.{IsDiscImage, IsImageOf};
ghost use Rattle.model_medium.specs.Machine.{is_killed, arms_after, fate_due, cut_after};
ghost use Rattle.ram_medium.specs.Countdown.{arms_of, armed_cut_of};
ghost use Rattle.ram_image.specs.CellCalls.{HaveGoodStates};
ghost use Rattle.ram_image.specs.OneProof.{disc_there-prop};
ghost use Rattle.ram_image.specs.declared.medium.TheConstants.{MEDIUM_MEMORY};

use crate::cells::{
    GoodRow, StateRead, count_good, kill_cell, kill_where, leave_cell, read_data, read_state,
};
use ram_bytes::{BLOCK_BYTES, Block, Budget, MemoryRefused};
use ram_medium::{
    Arm, Armed, Due, FailEnd, Fate, Medium, MediumControl, ReadEnd, SyncEnd, WriteEnd,
};
use ram_outside::{Image, Moved};
use ram_zones::Geometry;
use std::mem::{size_of, swap};

/// How many bytes the memory of a medium asks for.
pub const MEDIUM_MEMORY: usize = BLOCK_BYTES + size_of::<Armed>();

/// The memory of a medium over an image: room for one block, and for what is armed. Media use it one after another; what it held
/// before does not matter.
#[derive(Drop)]
pub struct MediumRooms {
    block: Block,
    armed: Box<Armed>,
}

impl MediumRooms {
    /// All the memory that a medium takes, for whatever disc.
    ///
    /// # Answers
    ///
    /// - `Ok`: the memory of a medium; what it holds is not said. (clause)
    /// - `Err`: the system refused memory that was asked for within the budget. (clause)
    pub fn new(budget: &mut Budget) -> Result<MediumRooms, MemoryRefused>
        requires free { MEDIUM_MEMORY ≤ budget.old }
        ensures left { budget.old ≤ budget.new + MEDIUM_MEMORY }
    {
        Ok(MediumRooms {
            block: Block::zeros(budget)?,
            armed: budget.boxed(Armed::new())?,
        })
    }
}

/// The controllable medium of a disc whose blocks lie in an image, in rooms that its opener took.
pub struct ImageMedium<I: Image> {
    image: I,
    geometry: Geometry,
    room: Block,
    powered: bool,
    uses: u64,
    cuts: u64,
    // In memory of its own, of which nothing is moved where a drive hands its medium on.
    armed: Box<Armed>,
    // The row of blocks that are known to be good, from one on up to another: their state bytes need not be read.
    good_from: u32,
    good_to: u32,
    ghost good: { ForSome (I.bytes image) (λ held. HaveGoodStates held good_from good_to) } by { Prim.hlevel props },
    ghost within: { good_to ≤ total geometry },
    // Where the bytes of the image are known, they are the image of a disc of this geometry.
    ghost disc: { ForSome (I.bytes image) (IsDiscImage geometry) } by { disc_there-prop geometry (I.bytes image) },
}

/// How a use of a block begins.
enum Begun {
    /// It goes on.
    On,
    /// The power is to be cut in it, with this fate.
    Cut(Fate),
    /// The image failed, and the power is off.
    Failed,
}

/// The end of a row of blocks, which stays known where this is so, else that of a row without blocks.
fn kept_where(end: u32, stays: bool) -> u32
    ensures { result ≡ (if stays then end else 0) }
{
    if stays { end } else { 0 }
}

/// Whether a block that is known to be good, or is not, is known to be so after a write that ends by this fate.
fn stays_good(known: bool, fate: Fate) -> bool
    ensures { IsTrue result → IsTrue known × (fate ≡ Fate.New) }
{
    match fate {
        Fate::New => known,
        Fate::Old => false,
        Fate::Torn => false,
    }
}

/// Counts a use of the block on what is armed. What is due.
fn count_use(armed: &mut Box<Armed>, block: u32) -> Due
    ensures dies { result.dies ≡ is_killed block (arms_of armed.old.value) }
    ensures due { result.cut ≡ fate_due (armed_cut_of armed.old.value) }
    ensures arms { arms_of armed.new.value ≡ arms_after block (arms_of armed.old.value) }
    ensures cut { armed_cut_of armed.new.value ≡ cut_after (armed_cut_of armed.old.value) }
{
    armed.count(block)
}

/// What a look at the state byte of a block finds.
#[derive(Clone, Copy, Debug, PartialEq, Eq)]
pub enum Looked {
    /// The block has whole bytes.
    Good,
    /// It has none.
    NotGood,
    /// The image failed, and the power is off.
    Failed,
}

impl<I: Image> ImageMedium<I> {
    ghost use Rattle.std.specs.Prelude.{[], None, length};
    ghost use Rattle.model_geometry.specs.Geometry.{total};
    ghost use Rattle.model_medium.specs.Machine.{cut_off};
    ghost use Rattle.model_medium.specs.Exact.{Read, Write};
    ghost use Rattle.ram_bytes.specs.declared.block.TheConstants.{BLOCK_BYTES};
    ghost use Rattle.ram_medium.specs.ReadInto.{bytes_read};
    ghost use Rattle.model_image.specs.Writes.{StopsInBytes};
    ghost use Rattle.ram_image.specs.Moments.{IsSame};
    ghost use Rattle.ram_image.specs.EventBytes.{MayWearBytes};
    ghost use Rattle.ram_image.specs.Medium.{shape_of_medium, world_of, machine_in, bytes_in, past_in, dies_in, PassesIn, ImageTakes};
    ghost use Rattle.ram_image.specs.Begun.{IsNew, ImageBeginRule, BeginBytes, LookRule, HasBytesRule, IsDeadRule, ReadOnRule, WriteCutRule, WriteCutBytes, LeaveRule, LeaveBytes};

    /// The medium of a disc of this geometry over its image, with the power off, nothing counted and nothing armed.
    pub(crate) fn new(image: I, geometry: Geometry, rooms: MediumRooms) -> Self
        requires disc { ForSome (I.bytes image) (IsDiscImage geometry) }
        ensures { IsNew image geometry result }
    {
        let MediumRooms { block, mut armed } = rooms;
        *armed = Armed::new();
        ImageMedium {
            image,
            geometry,
            room: block,
            powered: false,
            uses: 0,
            cuts: 0,
            armed,
            good_from: 0,
            good_to: 0,
        }
    }

    /// The image, as the medium leaves it, and the memory.
    ///
    /// # Clauses
    ///
    /// - `image`, `count`, `cells`: the image of the medium, with the count and the cells that it showed; and its memory.
    pub fn into_parts(self) -> (I, MediumRooms)
        ensures image { result.0 ≡ self.image }
        ensures count { I.faults result.0 ≡ (world_of self).faults }
        ensures cells { MatchOption (I.bytes result.0)
            ((world_of self).known ≡ false)
            (IsImageOf (shape_of_medium self) (world_of self).cells) }
    {
        let ImageMedium {
            image,
            geometry: _,
            room,
            powered: _,
            uses: _,
            cuts: _,
            armed,
            good_from: _,
            good_to: _,
        } = self;
        (image, MediumRooms { block: room, armed })
    }

    /// Begins a use of the block: it is counted, the arms of the block and the armed cut count down, and a block that
    /// an arm kills is dead.
    fn begin(&mut self, block: u32) -> Begun
        requires inside { block < total (shape_of_medium self.old) }
        requires on { IsTrue (world_of self.old).power }
        ensures rule { ImageBeginRule (machine_in self.old) (machine_in self.new) block result }
        ensures bytes { BeginBytes (dies_in self.old block) block (bytes_in self.old) (bytes_in self.new) result }
        ensures past { PassesIn (MayWearBytes (dies_in self.old block) block) self.old self.new }
        ensures same_shape { shape_of_medium self.new ≡ shape_of_medium self.old }
        ensures same_room { self.new.room ≡ self.old.room }
    {
        self.uses = self.uses.saturating_add(1);
        let due = count_use(&mut self.armed, block);
        self.good_to = kept_where(self.good_to, !due.dies);
        match kill_where(&mut self.image, self.geometry.total(), block, due.dies) {
            Moved::Failed => {
                self.powered = false;
                self.good_to = 0;
                Begun::Failed
            }
            Moved::Done => match due.cut {
                None => Begun::On,
                Some(fate) => Begun::Cut(fate),
            },
        }
    }

    /// Cuts the power, and counts it.
    fn cut_power(&mut self)
        ensures machine { machine_in self.new ≡ cut_off (machine_in self.old) }
        ensures bytes { bytes_in self.new ≡ bytes_in self.old }
        ensures past { past_in self.new ≡ past_in self.old }
        ensures same_shape { shape_of_medium self.new ≡ shape_of_medium self.old }
        ensures same_room { self.new.room ≡ self.old.room }
    {
        self.cuts = self.cuts.saturating_add(1);
        self.powered = false;
    }

    /// A read straight into the caller's bytes, as the trait has it.
    fn read_bytes(&mut self, block: u32, into: &mut [u8]) -> ReadEnd
        requires inside { block < total (shape_of_medium self.old) }
        requires whole { length into.old ≡ BLOCK_BYTES }
        ensures event { ImageTakes self.old self.new (Read block [] (bytes_read result into.new) result) }
        ensures same_room { self.new.room ≡ self.old.room }
    {
        if !self.powered {
            return ReadEnd::Off;
        }
        match self.begin(block) {
            Begun::Failed => ReadEnd::Failed,
            Begun::Cut(_) => {
                self.cut_power();
                ReadEnd::Cut
            }
            Begun::On => self.read_on(block, into),
        }
    }

    /// Reads the cell of a block in a use that goes on.
    fn read_on(&mut self, block: u32, into: &mut [u8]) -> ReadEnd
        requires inside { block < total (shape_of_medium self.old) }
        requires whole { length into.old ≡ BLOCK_BYTES }
        ensures rule { ReadOnRule (machine_in self.old) (machine_in self.new) block
            [] (bytes_read result into.new) result }
        ensures bytes { bytes_in self.new ≡ bytes_in self.old }
        ensures past { PassesIn IsSame self.old self.new }
        ensures same_shape { shape_of_medium self.new ≡ shape_of_medium self.old }
        ensures same_room { self.new.room ≡ self.old.room }
    {
        match self.look_at(block) {
            Looked::Failed => return ReadEnd::Failed,
            Looked::NotGood => return ReadEnd::Unreadable,
            Looked::Good => {}
        }
        match read_data(&mut self.image, self.geometry.total(), block, into) {
            Moved::Done => ReadEnd::Done,
            Moved::Failed => {
                self.powered = false;
                ReadEnd::Failed
            }
        }
    }

    /// Whether the block is one of those that are known to be good.
    fn is_known(&self, block: u32) -> bool
        ensures { IsTrue result ↔ ((self.now.good_from ≤ block) × (block < self.now.good_to)) }
    {
        self.good_from <= block && block < self.good_to
    }

    /// Whether the block has whole bytes. Where that is not known yet, the state bytes from its own on are read.
    fn look_at(&mut self, block: u32) -> Looked
        requires { block < total (shape_of_medium self.old) }
        ensures rule { LookRule (machine_in self.old) (machine_in self.new) block
            self.new.good_from self.new.good_to result }
        ensures bytes { bytes_in self.new ≡ bytes_in self.old }
        ensures past { PassesIn IsSame self.old self.new }
        ensures same_shape { shape_of_medium self.new ≡ shape_of_medium self.old }
        ensures same_room { self.new.room ≡ self.old.room }
    {
        if self.is_known(block) {
            return Looked::Good;
        }
        match count_good(&mut self.image, self.geometry.total(), block) {
            GoodRow::Blocks(0) => Looked::NotGood,
            GoodRow::Blocks(count) => {
                self.good_from = block;
                self.good_to = block + count;
                Looked::Good
            }
            GoodRow::Failed => {
                self.powered = false;
                Looked::Failed
            }
        }
    }

    /// Whether a block has whole bytes, by its state byte alone. It is no use: the power may be off, and nothing is counted
    /// but where the image failed.
    ///
    /// # Clauses
    ///
    /// - `rule` (`HasBytesRule`, `IsDeadRule`), `bytes`, `same_shape`: whether a block has whole bytes, and whether it is dead,
    ///   by its state byte alone, with the power on or off. It is no use; no byte changes, and nothing is counted but a failure
    ///   of the image.
    ///
    /// # Answers
    ///
    /// No byte of the image changes, and no use is counted.
    ///
    /// - `Good`: the block has whole bytes. Then: nothing changed. (`HasBytesRule`)
    /// - `NotGood`: it has none. Then: nothing changed. (`HasBytesRule`)
    /// - `Failed`: the image counted a failure. Then: the power is off. (`FailsWithin`)
    pub fn has_bytes(&mut self, block: u32) -> Looked
        requires { block < total (shape_of_medium self.old) }
        ensures rule { HasBytesRule (machine_in self.old) (machine_in self.new) block result }
        ensures bytes { bytes_in self.new ≡ bytes_in self.old }
        ensures past { PassesIn IsSame self.old self.new }
        ensures same_shape { shape_of_medium self.new ≡ shape_of_medium self.old }
    {
        self.look_at(block)
    }

    /// Whether a block is dead, by its state byte alone. It is no use either.
    ///
    /// # Clauses
    ///
    /// - `rule` (`HasBytesRule`, `IsDeadRule`), `bytes`, `same_shape`: whether a block has whole bytes, and whether it is dead,
    ///   by its state byte alone, with the power on or off. It is no use; no byte changes, and nothing is counted but a failure
    ///   of the image.
    ///
    /// # Answers
    ///
    /// No byte of the image changes, and no use is counted.
    ///
    /// - `Dead`: the block is dead. Then: nothing changed. (`IsDeadRule`)
    /// - `Alive`: it is not. Then: nothing changed. (`IsDeadRule`)
    /// - `Failed`: the image counted a failure. Then: the power is off. (`FailsWithin`)
    pub fn is_dead(&mut self, block: u32) -> StateRead
        requires { block < total (shape_of_medium self.old) }
        ensures rule { IsDeadRule (machine_in self.old) (machine_in self.new) block result }
        ensures bytes { bytes_in self.new ≡ bytes_in self.old }
        ensures past { PassesIn IsSame self.old self.new }
        ensures same_shape { shape_of_medium self.new ≡ shape_of_medium self.old }
    {
        match read_state(&mut self.image, self.geometry.total(), block) {
            StateRead::Dead => StateRead::Dead,
            StateRead::Alive => StateRead::Alive,
            StateRead::Failed => {
                self.powered = false;
                StateRead::Failed
            }
        }
    }

    /// A read into a block, as the trait has it. While it goes on, the medium's room keeps the bytes that the block had,
    /// and gives them back but for `Done`.
    fn read_block(&mut self, block: u32, into: &mut Block) -> ReadEnd
        requires { block < total (shape_of_medium self.old) }
        ensures { ImageTakes self.old self.new (Read block into.old into.new result) }
    {
        swap(&mut self.room, into);
        let bytes = into.bytes_mut();
        let end = self.read_bytes(block, bytes);
        match end {
            ReadEnd::Done => {}
            ReadEnd::Unreadable => swap(&mut self.room, into),
            ReadEnd::Cut => swap(&mut self.room, into),
            ReadEnd::Off => swap(&mut self.room, into),
            ReadEnd::Failed => swap(&mut self.room, into),
        }
        end
    }

    /// A write straight from the caller's bytes, as the trait has it.
    fn write_bytes(&mut self, block: u32, from: &[u8]) -> WriteEnd
        requires inside { block < total (shape_of_medium self.old) }
        requires whole { length from.now ≡ BLOCK_BYTES }
        ensures { ImageTakes self.old self.new (Write block from.now result) }
    {
        if !self.powered {
            return WriteEnd::Off;
        }
        match self.begin(block) {
            Begun::Failed => WriteEnd::Failed,
            Begun::Cut(fate) => self.write_cut(block, from, fate),
            Begun::On => match self.leave(block, from, Fate::New) {
                Moved::Failed => WriteEnd::Failed,
                Moved::Done => WriteEnd::Done,
            },
        }
    }

    /// Writes a block in a use in which the power is cut with this fate.
    fn write_cut(&mut self, block: u32, from: &[u8], fate: Fate) -> WriteEnd
        requires inside { block < total (shape_of_medium self.old) }
        requires whole { length from.now ≡ BLOCK_BYTES }
        ensures rule { WriteCutRule (machine_in self.old) (machine_in self.new) block from.now fate result }
        ensures bytes { WriteCutBytes (total (shape_of_medium self.old)) block from.now fate
            (bytes_in self.old) (bytes_in self.new) result }
        ensures past { PassesIn (StopsInBytes (total (shape_of_medium self.old)) block from.now) self.old self.new }
        ensures same_shape { shape_of_medium self.new ≡ shape_of_medium self.old }
    {
        match self.leave(block, from, fate) {
            Moved::Failed => WriteEnd::Failed,
            Moved::Done => {
                self.cut_power();
                WriteEnd::Cut
            }
        }
    }

    /// Leaves the cell of a block as a write of these bytes with this fate does.
    fn leave(&mut self, block: u32, from: &[u8], fate: Fate) -> Moved
        requires inside { block < total (shape_of_medium self.old) }
        requires whole { length from.now ≡ BLOCK_BYTES }
        ensures rule { LeaveRule (machine_in self.old) (machine_in self.new) block from.now fate result }
        ensures bytes { LeaveBytes (total (shape_of_medium self.old)) block from.now fate
            (bytes_in self.old) (bytes_in self.new) result }
        ensures past { PassesIn (StopsInBytes (total (shape_of_medium self.old)) block from.now) self.old self.new }
        ensures same_shape { shape_of_medium self.new ≡ shape_of_medium self.old }
    {
        let known = self.is_known(block);
        self.good_to = kept_where(self.good_to, stays_good(known, fate));
        match leave_cell(
            &mut self.image,
            self.geometry.total(),
            block,
            from,
            fate,
            known,
        ) {
            Moved::Done => Moved::Done,
            Moved::Failed => {
                self.powered = false;
                self.good_to = 0;
                Moved::Failed
            }
        }
    }
}

impl<I: Image> Medium for ImageMedium<I> {
    ghost use Rattle.model_geometry.specs.Geometry.{total};
    ghost use Rattle.ram_image.specs.Medium.{shape_of_medium, world_of, machine_in, ImageReaches, ImageTakes};
    ghost use Rattle.model_image.proofs.KnownCells.{shows_none_unknown, length-cells_known};
    ghost use Rattle.model_image.proofs.WholeCells.{cells_known-whole};
    ghost use Rattle.model_medium.proofs.Compose.{reach_none, reach_then, follows-reach};
    ghost use Rattle.model_medium.proofs.Happening.{happened_none, happened_then};

    ghost world = { world_of };

    ghost block_count = { λ medium. total (shape_of_medium medium) };

    ghost reaches = { ImageReaches };

    ghost takes = { ImageTakes };

    fn blocks(&self) -> u32 {
        self.geometry.total()
    }

    fn powered(&self) -> bool {
        self.powered
    }

    /// # Clauses
    ///
    /// - `rule`, `event`: `Done`: the caller's bytes are the block's data in the image, whose state byte is that of a good block.
    ///   `read` leaves the caller's block as it was on any other answer; of the bytes that `read_into` was lent nothing is said
    ///   then.
    fn read(&mut self, block: u32, into: &mut Block) -> ReadEnd {
        self.read_block(block, into)
    }

    /// # Clauses
    ///
    /// - `rule`, `event`: `Done`: the caller's bytes are the block's data in the image, whose state byte is that of a good block.
    ///   `read` leaves the caller's block as it was on any other answer; of the bytes that `read_into` was lent nothing is said
    ///   then.
    fn read_into(&mut self, block: u32, into: &mut [u8]) -> ReadEnd {
        self.read_bytes(block, into)
    }

    fn write(&mut self, block: u32, from: &Block) -> WriteEnd {
        self.write_bytes(block, from.bytes())
    }

    fn write_from(&mut self, block: u32, from: &[u8]) -> WriteEnd {
        self.write_bytes(block, from)
    }

    fn power_on(&mut self) {
        self.powered = true;
    }

    fn power_off(&mut self) {
        self.powered = false;
    }

    ghost laws = { record {
      none = λ medium. record {
        reach = reach_none (machine_in medium) medium.armed.value.to_come;
        happened = happened_none ImageTakes medium;
      };
      adds_up = λ a b c j k one two. record {
        reach = reach_then (machine_in a) (machine_in b) (machine_in c) j k one.reach two.reach;
        happened = happened_then ImageTakes a b c one.happened two.happened;
      };
      follows = λ a b k one. follows-reach (machine_in a) (machine_in b) k one.reach;
      unknown = λ medium. shows_none_unknown (shape_of_medium medium) (I.bytes medium.image);
      as_many = λ medium. length-cells_known (total (shape_of_medium medium)) (I.bytes medium.image);
      whole = λ medium. cells_known-whole (total (shape_of_medium medium)) (I.bytes medium.image)
          (λ held is. (medium.disc held is).as_long);
    } };

    ghost happened = { λ a b span one. one.happened };
}

impl<I: Image> MediumControl for ImageMedium<I> {
    ghost use Rattle.model_geometry.specs.Geometry.{total};
    ghost use Rattle.ram_medium.specs.Control.{FailRule, WearRule, SyncOnMedium, with_armed_cut};
    ghost use Rattle.model_image.specs.Writes.{with_state, dead_state, IsBeforeOrAfter};
    ghost use Rattle.ram_image.specs.EventBytes.{FailBytes, ToldBytes};
    ghost use Rattle.ram_image.specs.Moments.{IsSame};
    ghost use Rattle.ram_image.specs.Medium.{shape_of_medium, machine_in, bytes_in, PassesIn};

    ghost arms = { λ medium. arms_of medium.armed.value };

    ghost armed_cut = { λ medium. armed_cut_of medium.armed.value };

    ghost was_told = { λ old new told. ToldBytes (bytes_in old) (bytes_in new) told };

    /// # Clauses
    ///
    /// - `rule`, `same_shape`, `bytes`: all that `ram_medium` says of a controllable medium; and the bytes.
    /// - `told` (`ToldBytes`): the bytes again, in the words of the trait, for those above who do not know that the medium is an
    ///   image's.
    fn fail(&mut self, block: u32) -> FailEnd
        ensures rule { FailRule (total (shape_of_medium self.old)) (machine_in self.old) (machine_in self.new)
            block result }
        ensures bytes { FailBytes block (bytes_in self.old) (bytes_in self.new) result }
        ensures past { PassesIn (λ held held'. IsBeforeOrAfter held (with_state block dead_state held) held')
            self.old self.new }
        ensures as_many { total (shape_of_medium self.new) ≡ total (shape_of_medium self.old) }
        ensures same_shape { shape_of_medium self.new ≡ shape_of_medium self.old }
    {
        let blocks = self.geometry.total();
        if block >= blocks {
            return FailEnd::NoBlock { blocks };
        }
        self.good_to = 0;
        match kill_cell(&mut self.image, blocks, block) {
            Moved::Done => FailEnd::Done,
            Moved::Failed => {
                self.powered = false;
                FailEnd::Failed
            }
        }
    }

    /// # Clauses
    ///
    /// - `rule`, `same_shape`, `bytes`: all that `ram_medium` says of a controllable medium; and the bytes.
    /// - `told` (`ToldBytes`): the bytes again, in the words of the trait, for those above who do not know that the medium is an
    ///   image's.
    fn wear(&mut self, block: u32, n: u32) -> Arm
        requires { 1 ≤ n }
        ensures rule { WearRule (total (shape_of_medium self.old)) (machine_in self.old) (machine_in self.new)
            (record { block = block; left = n }) result }
        ensures bytes { bytes_in self.new ≡ bytes_in self.old }
        ensures as_many { total (shape_of_medium self.new) ≡ total (shape_of_medium self.old) }
        ensures same_shape { shape_of_medium self.new ≡ shape_of_medium self.old }
    {
        let blocks = self.geometry.total();
        self.armed.wear(blocks, block, n)
    }

    /// # Clauses
    ///
    /// - `rule`, `same_shape`, `bytes`: all that `ram_medium` says of a controllable medium; and the bytes.
    /// - `told` (`ToldBytes`): the bytes again, in the words of the trait, for those above who do not know that the medium is an
    ///   image's.
    fn arm_cut(&mut self, n: u32, fate: Fate)
        requires { 1 ≤ n }
        ensures rule { machine_in self.new ≡ with_armed_cut n fate (machine_in self.old) }
        ensures bytes { bytes_in self.new ≡ bytes_in self.old }
        ensures as_many { total (shape_of_medium self.new) ≡ total (shape_of_medium self.old) }
        ensures same_shape { shape_of_medium self.new ≡ shape_of_medium self.old }
    {
        self.armed.arm_cut(n, fate);
    }

    /// # Clauses
    ///
    /// - `rule`, `same_shape`, `bytes`: all that `ram_medium` says of a controllable medium; and no byte changes.
    /// - `past`: at each moment within it the image has the bytes that it had.
    /// - `told` (`ToldBytes`): the bytes again, in the words of the trait, for those above who do not know that the medium is an
    ///   image's.
    fn sync(&mut self) -> SyncEnd
        ensures rule { SyncOnMedium (machine_in self.old) (machine_in self.new) result }
        ensures bytes { bytes_in self.new ≡ bytes_in self.old }
        ensures past { PassesIn IsSame self.old self.new }
        ensures as_many { total (shape_of_medium self.new) ≡ total (shape_of_medium self.old) }
        ensures same_shape { shape_of_medium self.new ≡ shape_of_medium self.old }
    {
        match self.image.sync() {
            Moved::Done => SyncEnd::Done,
            Moved::Failed => {
                self.powered = false;
                SyncEnd::Failed
            }
        }
    }

    ghost control_laws = { record {
      exactly = λ a b event takes. takes.exactly;
      reach = λ a b k one. one.reach;
      to_come = λ medium. medium.armed.value.to_come;
      arms_to_come = λ medium. medium.armed.value.arms_to_come;
      few = λ medium. medium.armed.value.few;
    } };
}
