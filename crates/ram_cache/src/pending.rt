//! The pending blocks of a write cache, in the order in which they became pending, and the rooms of those to come.

ghost use Rattle.std.specs.Prelude.{◌≡◌, ℕ, ◌+◌, ◌≤◌, ◌<◌, List, [], ◌∷◌, ◌++◌, take, drop, length, slice_index_or, vec_len, map, not, ◌*◌, ◌^◌, slice_set};
ghost use Rattle.std.specs.List.{Contains, filter, remove};
ghost use Rattle.std.proofs.Props.{props};
ghost use Rattle.model_cache.specs.Shown.{AreApart};
ghost use Rattle.model_cache.specs.Values.{is_among};
ghost use Rattle.model_sectors.specs.Discs.{Standing};
ghost use Rattle.model_sectors.specs.Requests.{merged_in};
ghost use Rattle.model_buffer.specs.Buffer.{numbers_in};
ghost use Rattle.model_drive.specs.Reads.{ReadStep};
ghost use Rattle.model_cache.specs.Chains.{ReadsDisc};
ghost use Rattle.model_cache.specs.Causes.{put_over};
ghost use Rattle.model_cache.proofs.OneProof.{apart-prop};

use ram_bytes::{BLOCK_BYTES, Block, Budget, MemoryRefused};
use ram_requests::{Part, Request};
use ram_sectors::{Disc, ReadOut, Sectors};
use std::mem::size_of;

/// How many rooms there are: as many as blocks are pending at most.
const ROOMS: usize = 32;

/// How many bytes the pending blocks ask for.
pub const PENDING_MEMORY: usize = ROOMS * size_of::<(u32, Block)>() + ROOMS * BLOCK_BYTES;

/// The pending blocks, each a number and its bytes, the oldest first. All room is taken when they are made: a block that is not
/// pending any more leaves its room behind the others, and no block's bytes move.
#[derive(Drop)]
pub struct PendingBlocks {
    /// The pending blocks, and behind them the rooms for more, which have any number and bytes.
    rooms: Vec<(u32, Block)>,
    /// How many blocks are pending.
    count: usize,
    ghost many: { vec_len rooms ≡ 32 },
    ghost few: { count ≤ 32 },
    ghost apart: { AreApart (take count rooms.items) } by { apart-prop (take count rooms.items) },
    ghost whole: { (i : ℕ) (bytes : List ℕ) → Contains (take count rooms.items) (i, bytes) → length bytes ≡ 32768 } by { Prim.hlevel props },
}

impl PendingBlocks {
    ghost use Rattle.std.specs.Prelude.{IfOk, IsTrue, ◌↔◌};
    ghost use Rattle.model_cache.specs.Shown.{pending_below};
    ghost use Rattle.ram_cache.specs.declared.pending.TheConstants.{PENDING_MEMORY};
    ghost use Rattle.ram_cache.specs.Rooms.{pending_of, staged_of, room_of, pending_at, due_in, FirstOf};

    /// No pending blocks, and the rooms of as many as there may be.
    ///
    /// # Clauses
    ///
    /// - `left`, `empty`: it asks for at most `PENDING_MEMORY` bytes of a budget that has as many, and gives the rooms, and
    ///   nothing pending; a refusal is the system's, by its type.
    ///
    /// # Answers
    ///
    /// - `Ok`: memory for 32 blocks was given. Then: none is pending. (`pending_of`)
    /// - `Err`: the system refused memory that was asked for within the budget. Then: nothing is there. (clause)
    pub fn new(budget: &mut Budget) -> Result<PendingBlocks, MemoryRefused>
        requires free { PENDING_MEMORY ≤ budget.old }
        ensures left { budget.old ≤ budget.new + PENDING_MEMORY }
        ensures empty { IfOk result (λ pending. pending_of pending ≡ []) }
    {
        let mut rooms = budget.room(ROOMS)?;
        for k in 0..ROOMS {
            rooms.push((k as u32, Block::zeros(budget)?)).unwrap();
        }
        Ok(PendingBlocks { rooms, count: 0 })
    }

    /// How many there are.
    pub fn len(&self) -> usize
        ensures { result ≡ length (pending_of self.now) }
    {
        self.count
    }

    /// Whether there are none.
    ///
    /// # Answers
    ///
    /// - `true`: nothing is pending. Then: nothing changed. (`pending_of`)
    /// - `false`: some block is. Then: nothing changed. (`pending_of`)
    pub fn is_empty(&self) -> bool
        ensures { IsTrue result ↔ (pending_of self.now ≡ []) }
    {
        self.count == 0
    }

    /// Returns the number of the pending block at this index.
    pub fn number(&self, k: usize) -> u32
        requires { k < length (pending_of self.now) }
        ensures { result ≡ (pending_at (pending_of self.now) k).0 }
    {
        self.rooms[k].0
    }

    /// Returns the bytes of the pending block at this index.
    pub fn block(&self, k: usize) -> &Block
        requires { k < length (pending_of self.now) }
        ensures { result.now ≡ (pending_at (pending_of self.now) k).1 }
    {
        &self.rooms[k].1
    }

    /// Returns the index of the oldest pending block that is one of `count` logical blocks from block `first` on, or of the oldest
    /// that is none of them.
    ///
    /// # Answers
    ///
    /// - `Some`: a pending block is among these numbers, or not among them, as is asked; the index of the oldest is told. Then:
    ///   nothing changed. (`FirstOf`)
    /// - `None`: there is none. Then: nothing changed. (`FirstOf`)
    pub fn first_of(&self, among: bool, first: u32, count: u32) -> Option<usize>
        ensures { FirstOf (pending_of self.now) among first count result }
    {
        for k in 0..self.count {
            if is_among(self.rooms[k].0, first, count) == among {
                return Some(k);
            }
        }
        None
    }

    /// How many are some of `count` logical blocks from block `first` on, or how many are none of them.
    pub fn count_of(&self, among: bool, first: u32, count: u32) -> usize
        ensures { result ≡ length (due_in among first count (pending_of self.now)) }
    {
        let mut some = 0;
        for k in 0..self.len() {
            if is_among(self.number(k), first, count) == among {
                some += 1;
            }
        }
        some
    }

    /// Drops the pending block at this index. Its room stays.
    pub fn remove(&mut self, k: usize)
        requires { k < length (pending_of self.old) }
        ensures { pending_of self.new ≡ remove (pending_of self.old) k }
    {
        to_end(self.rooms.as_mut_slice(), k);
        self.count -= 1;
    }

    /// Puts the pending block at this index behind the others.
    pub fn put_behind(&mut self, k: usize)
        requires { k < length (pending_of self.old) }
        ensures { pending_of self.new ≡ remove (pending_of self.old) k ++ pending_at (pending_of self.old) k ∷ [] }
    {
        to_end_of(self.rooms.as_mut_slice(), self.count, k);
    }

    /// Exchanges the room that is furthest behind, where a block that is dropped leaves its bytes, for one of the disc's.
    ///
    /// # Clauses
    ///
    /// - `pending`, `same`: the last of the rooms, while it has no pending block, is exchanged for one of the disc's; what is
    ///   pending and what the disc shows stay.
    pub(crate) fn exchange_room<D: Disc>(&mut self, disc: &mut D)
        requires room { length (pending_of self.old) < 32 }
        ensures pending { pending_of self.new ≡ pending_of self.old }
        ensures same { D.shows disc.new ≡ D.shows disc.old }
        ensures underwent { D.underwent disc.old disc.new }
    {
        let room = &mut self.rooms[ROOMS - 1];
        disc.exchange_room(&mut room.1);
    }

    /// Drops all.
    pub fn drop_all(&mut self)
        ensures { pending_of self.new ≡ [] }
    {
        self.count = 0;
    }

    /// Drops those from this number on.
    pub fn keep_below(&mut self, blocks: u32)
        ensures { pending_of self.new ≡ pending_below blocks (pending_of self.old) }
    {
        let mut k = 0;
        while k < self.len() {
            if self.number(k) < blocks {
                k += 1;
            } else {
                self.remove(k);
            }
        }
    }

    /// Reads the whole of a logical block from the disc into the room behind `staged` others of those to come.
    pub(crate) fn read_rest<D: Disc>(&mut self, staged: usize, disc: &mut D, i: u32) -> ReadOut
        requires room { length (pending_of self.old) + staged < 32 }
        requires fits { 16 * i < 2 ^ 32 }
        ensures pending { pending_of self.new ≡ pending_of self.old }
        ensures staged { staged_of self.new staged ≡ staged_of self.old staged }
        ensures cause { ReadsDisc (D.shows disc.old) (D.shows disc.new) (16 * i) 16 result }
        ensures step { (s : Standing) → D.stands disc.old s
            → ReadStep (D.stands disc.new) s (16 * i) 16 (room_of self.new staged) result }
        ensures same_shape { (D.shows disc.new).shape ≡ (D.shows disc.old).shape }
        ensures underwent { D.underwent disc.old disc.new }
    {
        let room = &mut self.rooms[self.count + staged];
        read_whole(disc, i, &mut room.1)
    }

    /// Puts the part of a request over the room behind `staged` others of those to come, which is that of its block then.
    pub(crate) fn stage(&mut self, staged: usize, part: Part, from: &[u8])
        requires room { length (pending_of self.old) + staged < 32 }
        requires whole { length from.now ≡ 2048 * part.request.n }
        ensures pending { pending_of self.new ≡ pending_of self.old }
        ensures staged { staged_of self.new (staged + 1) ≡ staged_of self.old staged
            ++ (part.block, merged_in part.request.lba part.request.n from.now part.block (room_of self.old staged)) ∷ [] }
        ensures len { length (room_of self.old staged) ≡ 32768 }
    {
        let room = &mut self.rooms[self.count + staged];
        room.0 = part.block;
        part.merge(from, &mut room.1);
    }

    /// Puts the part of a request over the pending block at this index, which is its block.
    fn put_over(&mut self, k: usize, part: Part, from: &[u8])
        requires there { k < length (pending_of self.old) }
        requires whole { length from.now ≡ 2048 * part.request.n }
        ensures pending { pending_of self.new ≡ slice_set (pending_of self.old) k (
          (pending_at (pending_of self.old) k).0,
          merged_in part.request.lba part.request.n from.now part.block ((pending_at (pending_of self.old) k).1),
        ) }
        ensures rest { (staged : ℕ) → staged_of self.new staged ≡ staged_of self.old staged }
    {
        let room = &mut self.rooms[k];
        part.merge(from, &mut room.1);
    }

    /// Puts what a request covers of the pending block at this index over it.
    fn cover(&mut self, k: usize, request: Request, from: &[u8])
        requires there { k < length (pending_of self.old) }
        requires whole { length from.now ≡ 2048 * request.n }
        ensures pending { pending_of self.new
            ≡ slice_set (pending_of self.old) k (put_over request.lba request.n from.now (pending_at (pending_of self.old) k)) }
        ensures rest { (staged : ℕ) → staged_of self.new staged ≡ staged_of self.old staged }
    {
        let number = self.number(k);
        let first = request.first();
        if !is_among(number, first, request.blocks()) {
            return;
        }
        self.put_over(k, request.part(number - first), from);
    }

    /// Puts the parts of a request over the pending blocks that it covers, and makes the `staged` blocks to come pending.
    ///
    /// # Clauses
    ///
    /// - its one clause: the request is put over the covered blocks that are pending, in their places, and the staged blocks are
    ///   pending behind them.
    pub(crate) fn take_in(&mut self, request: Request, staged: usize, from: &[u8])
        requires whole { length from.now ≡ 2048 * request.n }
        requires room { length (pending_of self.old) + staged ≤ 32 }
        requires apart { AreApart (pending_of self.old ++ staged_of self.old staged) }
        requires long { (i : ℕ) (bytes : List ℕ) → Contains (staged_of self.old staged) (i, bytes)
            → length bytes ≡ 32768 }
        ensures { pending_of self.new
            ≡ map (put_over request.lba request.n from.now) (pending_of self.old) ++ staged_of self.old staged }
    {
        for k in 0..self.len() {
            self.cover(k, request, from);
        }
        self.count += staged;
    }
}

/// Reads a logical block of a disc whole.
fn read_whole<D: Disc>(disc: &mut D, i: u32, room: &mut Block) -> ReadOut
    requires { 16 * i < 2 ^ 32 }
    ensures cause { ReadsDisc (D.shows disc.old) (D.shows disc.new) (16 * i) 16 result }
    ensures step { (s : Standing) → D.stands disc.old s → ReadStep (D.stands disc.new) s (16 * i) 16 room.new result }
    ensures same_shape { (D.shows disc.new).shape ≡ (D.shows disc.old).shape }
    ensures underwent { D.underwent disc.old disc.new }
{
    let bytes = room.bytes_mut();
    let out = disc.read(16 * i, 16, bytes);
    out
}

/// Puts the room at this index behind the others.
fn to_end(rooms: &mut [(u32, Block)], k: usize)
    requires { k < length rooms.old }
    ensures { rooms.new ≡ remove rooms.old k ++ slice_index_or rooms.old k (0, []) ∷ [] }
{
    rooms[k..].rotate_left(1);
}

/// Puts the room at this index behind the others of the first `count`.
fn to_end_of(rooms: &mut [(u32, Block)], count: usize, k: usize)
    requires there { k < count }
    requires long { count ≤ length rooms.old }
    ensures { rooms.new ≡ (remove (take count rooms.old) k ++ slice_index_or (take count rooms.old) k (0, []) ∷ [])
        ++ drop count rooms.old }
{
    to_end(&mut rooms[..count], k);
}

/// Whether a number is one of `count` from `first` on.
fn is_among(number: u32, first: u32, count: u32) -> bool
    ensures { result ≡ is_among first count number }
{
    first <= number && number - first < count
}
