//! A drive with a write cache, as its host sees it. Contracts alone.

ghost use Rattle.std.specs.Prelude.{◌≡◌, ◌*◌, ◌≤◌, length, IfSome};
ghost use Rattle.model_commands.specs.declared.TheConstants.{TRANSFER_LIMIT};
ghost use Rattle.model_drive.specs.Tells.{CapacityRule, CountsRule, DdsRule};
ghost use Rattle.model_cache.specs.Values.{Contents};
ghost use Rattle.model_cache.specs.Shown.{CacheShown};
ghost use Rattle.model_cache.specs.Steps.{ReadContents, WriteContents, ThroughContents, PowerContents, FormatContents, ExpandContents, VerifyContents, SyncContents, TickContents};
ghost use Rattle.model_cache.specs.Causes.{CacheReadCause, CacheWriteCause, ThroughCause, CachePowerCause, CacheFormatCause, CacheExpandCause, CacheVerifyCause, SyncCause, TickCause};
ghost use Rattle.ram_sectors.specs.declared.TheConstants.{VERIFY_LIMIT, MOST_BLOCKS};
ghost use Rattle.ram_sectors.specs.Laws.{CachingLaws, UnderwentLaws};

use model_cache::{SyncOut, TickOut};
use model_drive::{DriveCounts, ExpandOut, FormatOut, Kind, WriteOut};
use model_sectors::{PowerOut, ReadOut};
use ram_bytes::Block;

/// A drive with a write cache, as its host sees it. Wherever the cells of its medium are known, it stands for a disc whose
/// sectors are those that were last acknowledged, and for each logical block for the values that it may fall back to when the
/// power is lost: those since its last synchronisation.
///
/// A block is pending while its last acknowledged bytes are in the cache. With the power on each call that reads, writes or
/// flushes drops first the pending blocks that the disc no longer has. Nothing stays pending after Cut and Fault.
///
/// `cause` says why each answer comes, and all of what the drive shows afterwards, by the calls that it made on its disc, one
/// after another. `step` says what each thing that it stood for has become, and which bytes a read gave.
pub trait Caching {
    /// What it shows beside the values: what its disc shows, the pending blocks, and whether the cache is on.
    ghost shows: { Self → CacheShown };

    /// What it stands for.
    ghost stands: { Self → Contents → Type 0 };

    /// That nothing but events happened to the medium of its disc in between, as `underwent` of `Sectors` says it.
    ghost underwent: { Self → Self → Type 0 };

    /// How many sectors the disc has, a multiple of 16. None exactly where the power is off or the disc is not formatted.
    ///
    /// # Clauses
    ///
    /// - `rule` (`CapacityRule` in `Tells.antt`): the number of sectors, or nothing exactly where the power is off or the disc is
    ///   not formatted.
    /// - `few`: those of at most 146,930 blocks (`MOST_BLOCKS`): the greatest disc has no more data blocks.
    /// - the disc's: what the disc tells; `capacity` with both clauses.
    ///
    /// # Answers
    ///
    /// - `Some`, `None`: how many sectors, of at most 146,930 blocks; `None` exactly when the power is off or the disc is not
    ///   formatted. (`CapacityRule`)
    fn capacity(&self) -> Option<u32>
        ensures rule { CapacityRule (shows self.now).drive result }
        ensures few { IfSome result (λ sectors. sectors ≤ 16 * MOST_BLOCKS) };

    /// Whether writes go into the cache.
    ///
    /// # Clauses
    ///
    /// - whether writes go into the cache; turns it on or off, and changes nothing else.
    ///
    /// # Answers
    ///
    /// - `true`, `false`: `true` exactly when the cache is on. (clause)
    fn caches(&self) -> bool
        ensures { result ≡ (shows self.now).caches };

    /// Reads `n` sectors from sector `lba` on: pending blocks from the cache, the others from the disc, one after another. The
    /// answers are those of a read of the disc.
    ///
    /// # Clauses
    ///
    /// - `step` (`ReadStep`): Good gives the sectors of the disc. The disc is the same after every answer.
    /// - `completes`: a read in range of blocks that are buffered or whole is Good, if no cut and no fault came.
    /// - `quiet`: a read of blocks that are all buffered is done, and uses no block of the medium.
    /// - `cause` (`CacheReadCause`), `step` (`ReadContents`): pending blocks come from the cache, the others from the disc, in
    ///   rising order; Good gives the sectors that are shown.
    ///
    /// # Answers
    ///
    /// Causes: `CacheReadCause`; the values: `ReadContents`. Pending blocks that the disc does not have any more are dropped
    /// first, as in each of the calls below but `verify`.
    ///
    /// - `Good`: each block was pending, or was read as by `Sectors::read`. Then: the bytes are the last ones; every value stays.
    ///   (`ReadsParts`)
    /// - `NotFormatted`: exactly when the power is on and the disc is not formatted. Then: nothing is pending. (`CacheReadBy`)
    /// - `Range`: exactly when the disc is formatted and `lba + n` is more than its capacity, which is told. Then: every value
    ///   stays. (`CacheOutOfRange`)
    /// - `Unread`: a block that is not pending cannot be read; told as by `Sectors::read`. Then: every value stays.
    ///   (`EndsReading`)
    /// - `Cut`: the power was cut in this read. Then: off; nothing is pending; the disc with all values is the only candidate.
    ///   (`EndsReading`)
    /// - `Off`: exactly when the power was off. Then: nothing changed. (`CacheWasOff`)
    /// - `Fault`: what the medium lies on counted a failure. Then: as after `Cut`. (`EndsReading`)
    fn read(&mut self, lba: u32, n: u32, into: &mut [u8]) -> ReadOut
        requires few { n ≤ TRANSFER_LIMIT }
        requires whole { length into.old ≡ 2048 * n }
        ensures cause { CacheReadCause (shows self.old) (shows self.new) lba n result }
        ensures step { (s : Contents) → stands self.old s
            → ReadContents (stands self.new) s lba n into.new result }
        ensures same_shape { (shows self.new).drive.shape ≡ (shows self.old).drive.shape }
        ensures underwent { underwent self.old self.new };

    /// Writes `n` sectors from sector `lba` on: into the cache where that is on and few blocks are covered, and else through it.
    /// A write into the cache makes room first, by writing pending blocks that it does not cover to the disc, the oldest first, until
    /// enough have left; then it reads the rests of blocks that it covers in part. One that is refused changes no contents.
    ///
    /// # Clauses
    ///
    /// - `cause` (`WriteCause`): where each block went (`Course.antt`); from that follow the uses, the lists, and the cells that
    ///   may have changed. After a move a copy of the list that says so can be read.
    /// - `step` (`WriteStep`): Good replaces the sectors. A write that was refused at a block has replaced those before it. One
    ///   that was stopped leaves two discs: with the block in progress as before, and as written.
    /// - `completes`: a write in range is Good where nothing dies, and a write of whole blocks where it has spares.
    /// - `cause` (`CacheWriteCause`), `step` (`WriteContents`): into the cache where it is on and at most 16 blocks are covered:
    ///   enough others leave first, the rests are read, then all covered blocks are pending; else through it.
    ///
    /// # Answers
    ///
    /// Where the cache is on and at most 16 blocks are covered (`goes_into_cache`), it is as follows, by `CachedCause` and
    /// `CachedContents`; else it is `write_through`.
    ///
    /// - `Good`: as many blocks as had to leave the cache are on the disc, and the rests that were needed were read. Then: the
    ///   covered blocks are pending; each has a new value, and its older ones stay. (`GoesIntoCache`, `CachedValues`)
    /// - `NotFormatted`: exactly when the power is on and the disc is not formatted. Then: nothing is pending.
    ///   (`CacheUnformatted`)
    /// - `Range`: exactly when the disc is formatted and `lba + n` is more than its capacity, which is told. Then: every value
    ///   stays. (`CacheOutOfRange`)
    /// - `Unread`: a block is covered in part, is not pending, and cannot be read; told are the first sector of the request in
    ///   it, and its home. Then: every value stays. (`LacksRestInCache`)
    /// - `NoSpare`: too few could leave, and the first that cannot be written has a dead home, and each free spare for it is dead; told
    ///   is its first sector. Then: every value stays; what was refused is pending behind the others. (`MakesRoom`, `FallsShort`)
    /// - `NoUpdate`: too few could leave, and of the first that cannot be written the move cannot be noted. Then: the same.
    ///   (`MakesRoom`, `FallsShort`)
    /// - `Cut`: the power was cut in this write. Then: off; nothing is pending; the disc with the values before this write.
    ///   (`MakesRoom`, `LacksRestInCache`)
    /// - `Off`: exactly when the power was off. Then: nothing changed. (`CacheWasOff`)
    /// - `Fault`: what the medium lies on counted a failure. Then: as after `Cut`. (`MakesRoom`, `LacksRestInCache`)
    fn write(&mut self, lba: u32, n: u32, from: &[u8]) -> WriteOut
        requires few { n ≤ TRANSFER_LIMIT }
        requires whole { length from.now ≡ 2048 * n }
        ensures cause { CacheWriteCause (shows self.old) (shows self.new) lba n from.now result }
        ensures step { (s : Contents) → stands self.old s
            → WriteContents (shows self.old) (shows self.new) (stands self.new) s lba n from.now result }
        ensures same_shape { (shows self.new).drive.shape ≡ (shows self.old).drive.shape }
        ensures underwent { underwent self.old self.new };

    /// Turns the power off and on again. Pending blocks are lost.
    ///
    /// # Clauses
    ///
    /// - `cause` (`PowerCause`): which lists were chosen, over the cells as they were read; uses by what had to be repaired;
    ///   after a stop no pair is given that was not given before.
    /// - `step` (`PowerStep`): the first of its discs that fits under the lists in use is found; or the disc without sectors,
    ///   where none are chosen.
    /// - `cause` (`CachePowerCause`), `step` (`PowerContents`): pending blocks are lost; of discs taken from the candidates the
    ///   first that fits is found.
    ///
    /// # Answers
    ///
    /// Nothing is pending on any answer. Causes: `CachePowerCause`; the values: `PowerContents`.
    ///
    /// - `Ready`: as that of the disc. Then: of the discs that are taken from the candidates, one from each, the first that fits
    ///   is there; each block has one value. (`CachePowerCause`, `FindsValues`)
    /// - `NotFormatted`: as that of the disc. Then: the disc has no sectors. (`CachePowerCause`)
    /// - `Cut`: as that of the disc. Then: off; the candidates stay, with all values. (`CachePowerCause`)
    /// - `Fault`: as that of the disc. Then: as after `Cut`. (`CachePowerCause`)
    fn power(&mut self) -> PowerOut
        ensures cause { CachePowerCause (shows self.old) (shows self.new) result }
        ensures step { (s : Contents) → stands self.old s
            → PowerContents (shows self.new).drive (stands self.new) s result }
        ensures same_shape { (shows self.new).drive.shape ≡ (shows self.old).drive.shape }
        ensures underwent { underwent self.old self.new };

    /// Formats the disc. After a full format that is done nothing is pending, nor where the disc is not formatted afterwards.
    ///
    /// # Clauses
    ///
    /// - `cause` (`FormatCause`), `step` (`FormatStep`): by its kind: a full format leaves zeros and fresh lists, or none; a
    ///   rewriting one keeps the disc.
    /// - `completes`: a format that could end well does.
    /// - `cause`, `step` (`FormatContents`, `ExpandContents`): as the disc's; what stays pending is said for each answer.
    ///
    /// # Answers
    ///
    /// Each answer comes as that of `Disc::format` (`CacheFormatCause`). The values: `FormatContents`.
    ///
    /// - `Good`: as that of the disc. Then: of a full one: nothing is pending, and each block has the value of zeros alone; of a
    ///   rewriting one everything stays. (`CacheFormatCause`, `FullValues`)
    /// - `TooMany`: as that of the disc. Then: nothing is pending, and the disc has no sectors. (`CacheFormatCause`,
    ///   `FullValues`)
    /// - `NoUpdate`: as that of the disc. Then: as after that answer of the disc; nothing is pending where it is not formatted.
    ///   (`CacheFormatCause`, `FormatValues`)
    /// - `Cut`: as that of the disc. Then: off; nothing is pending; the candidates of the disc, with all values of the old one.
    ///   (`CacheFormatCause`, `FormatValues`)
    /// - `Off`: as that of the disc. Then: nothing changed. (`CacheFormatCause`)
    /// - `Fault`: as that of the disc. Then: as after `Cut`. (`CacheFormatCause`, `FormatValues`)
    fn format(&mut self, kind: Kind) -> FormatOut
        ensures cause { CacheFormatCause (shows self.old) (shows self.new) kind result }
        ensures step { (s : Contents) → stands self.old s
            → FormatContents (shows self.old).drive (shows self.new).drive (stands self.new) s kind result }
        ensures same_shape { (shows self.new).drive.shape ≡ (shows self.old).drive.shape }
        ensures underwent { underwent self.old self.new };

    /// Gives the disc a smaller capacity, in sectors. The blocks that it loses are not pending then.
    ///
    /// # Clauses
    ///
    /// - `cause` (`ExpandCause`), `step` (`ExpandStep`): the secondary list with the larger area is in use, in 8 uses for each
    ///   part of the list (16 for a list of version 2), and the disc is cut to its first sectors; or nothing changed, with the
    ///   capacity that is present, refused or not to be written; one that was stopped leaves two discs, as it was and cut.
    /// - `completes`: an expansion that could end well does.
    /// - `cause`, `step` (`FormatContents`, `ExpandContents`): as the disc's; what stays pending is said for each answer.
    ///
    /// # Answers
    ///
    /// Each answer comes as that of `Disc::expand` (`CacheExpandCause`). The values: `ExpandContents`.
    ///
    /// - `Good`: as that of the disc. Then: the blocks that are left keep their values, and stay pending if they were.
    ///   (`CacheExpandCause`, `leaves_after_expansion`)
    /// - `NotFormatted`: as that of the disc. Then: every value stays. (`CacheExpandCause`)
    /// - `Refused`: as that of the disc. Then: every value stays, and what is pending. (`CacheExpandCause`)
    /// - `NoUpdate`: as that of the disc. Then: every value stays, and what is pending. (`CacheExpandCause`)
    /// - `Cut`: as that of the disc. Then: off; nothing is pending; the disc with all values, and its first blocks with theirs,
    ///   are the candidates. (`CacheExpandCause`)
    /// - `Off`: as that of the disc. Then: nothing changed. (`CacheExpandCause`)
    /// - `Fault`: as that of the disc. Then: as after `Cut`. (`CacheExpandCause`)
    fn expand(&mut self, capacity: u32) -> ExpandOut
        ensures cause { CacheExpandCause (shows self.old) (shows self.new) capacity result }
        ensures step { (s : Contents) → stands self.old s → ExpandContents (stands self.new) s capacity result }
        ensures same_shape { (shows self.new).drive.shape ≡ (shows self.old).drive.shape }
        ensures underwent { underwent self.old self.new };

    /// Verifies sectors: the disc alone is asked.
    ///
    /// # Clauses
    ///
    /// - `cause` (`VerifyCause`), `step` (`VerifyStep`): each home was read, up to the first that is not whole; the buffer and
    ///   the disc are as before.
    /// - `completes`: a verification in range of blocks that are whole is Good, if no cut and no fault came.
    /// - `cause` (`CacheVerifyCause`), `step`: the disc alone is asked.
    ///
    /// # Answers
    ///
    /// The disc alone is asked (`CacheVerifyCause`): each answer comes as that of `Disc::verify`. The values: `VerifyContents`.
    ///
    /// - `Good`: as that of the disc. Then: every value stays, and what is pending. (`CacheVerifyCause`)
    /// - `NotFormatted`: as that of the disc. Then: the same. (`CacheVerifyCause`)
    /// - `Range`: as that of the disc. Then: the same. (`CacheVerifyCause`)
    /// - `Unread`: as that of the disc. Then: the same. (`CacheVerifyCause`)
    /// - `Cut`: as that of the disc. Then: off; nothing is pending; the disc with all values is the only candidate.
    ///   (`CacheVerifyCause`)
    /// - `Off`: as that of the disc. Then: nothing changed. (`CacheVerifyCause`)
    /// - `Fault`: as that of the disc. Then: as after `Cut`. (`CacheVerifyCause`)
    fn verify(&mut self, lba: u32, n: u32) -> ReadOut
        requires few { n ≤ VERIFY_LIMIT }
        ensures cause { CacheVerifyCause (shows self.old) (shows self.new) lba n result }
        ensures step { (s : Contents) → stands self.old s → VerifyContents (stands self.new) s result }
        ensures same_shape { (shows self.new).drive.shape ≡ (shows self.old).drive.shape }
        ensures underwent { underwent self.old self.new };

    /// What the disc is, and how many of its spares are free.
    ///
    /// # Clauses
    ///
    /// - its one clause (`CountsRule` in `Tells.antt`): power, format, capacities, spares and which of them are free.
    /// - the disc's: what the disc tells; `capacity` with both clauses.
    fn counts(&self) -> DriveCounts
        ensures { CountsRule (shows self.now).drive result };

    /// Puts the text of the disc definition structure in use into the block. False, with the block as it was, exactly where
    /// the power is off or the disc is not formatted.
    ///
    /// # Clauses
    ///
    /// - its one clause (`DdsRule`): the text of the structure in use; false, with the block as it was, exactly without one.
    /// - the disc's: what the disc tells; `capacity` with both clauses.
    ///
    /// # Answers
    ///
    /// - `true`: the power is on and the disc is formatted; the block has the text of the structure in use. (`DdsRule`)
    /// - `false`: exactly when the power is off or the disc is not formatted; the block is as before. (`DdsRule`)
    fn dds_block(&self, into: &mut Block) -> bool
        ensures { DdsRule (shows self.now).drive into.old into.new result };

    /// Turns the cache on or off. What is pending stays so.
    ///
    /// # Clauses
    ///
    /// - whether writes go into the cache; turns it on or off, and changes nothing else.
    fn write_cache(&mut self, on: bool)
        ensures mode { shows self.new ≡ record (shows self.old) { caches = on } }
        ensures stands { (s : Contents) → stands self.old s → stands self.new s }
        ensures underwent { underwent self.old self.new };

    /// Writes sectors through the cache: the covered blocks that are pending are written back first, the oldest first.
    ///
    /// # Clauses
    ///
    /// - `cause` (`ThroughCause`), `step` (`ThroughContents`): the covered pending blocks are flushed, then the disc writes: what
    ///   was covered has its new value alone.
    ///
    /// # Answers
    ///
    /// Causes: `ThroughCause`; the values: `ThroughContents`. The pending blocks that it covers are written first, the oldest
    /// first; then it is `Sectors::write` on the disc.
    ///
    /// - `Good`: all were written. Then: each covered block has its new value alone, and is not pending. (`WritesThrough`,
    ///   `ThroughValues`)
    /// - `NotFormatted`: exactly when the power is on and the disc is not formatted. Then: nothing is pending.
    ///   (`CacheUnformatted`)
    /// - `Range`: exactly when the disc is formatted and `lba + n` is more than its capacity, which is told. Then: every value
    ///   stays. (`CacheOutOfRange`)
    /// - `Unread`: as by `Sectors::write`, with nothing pending of what it covers. Then: the covered blocks before the one that
    ///   is named have their new values alone. (`WritesThrough`, `ThroughValues`)
    /// - `NoSpare`: a covered pending block cannot be written, or, as by `Sectors::write`, a block of the request. Then: where a
    ///   covered block is pending, every value stays; else the covered blocks before it have their new values alone.
    ///   (`StopsWritingThrough`, `ThroughValues`)
    /// - `NoUpdate`: the same. Then: where a covered block is pending, every value stays; else the covered blocks before the
    ///   first whose home is dead have their new values alone. (`StopsWritingThrough`, `EndsThrough`)
    /// - `Cut`: the power was cut in this write. Then: off; nothing is pending; two candidates: the blocks before one have their
    ///   new values alone, and that one has its values as before in one and the new one alone in the other; or all values as
    ///   before, where a pending block was being written. (`StopsThrough`, `StopsBefore`)
    /// - `Off`: exactly when the power was off. Then: nothing changed. (`CacheWasOff`)
    /// - `Fault`: what the medium lies on counted a failure. Then: as after `Cut`. (`StopsThrough`, `StopsBefore`)
    fn write_through(&mut self, lba: u32, n: u32, from: &[u8]) -> WriteOut
        requires few { n ≤ TRANSFER_LIMIT }
        requires whole { length from.now ≡ 2048 * n }
        ensures cause { ThroughCause (shows self.old) (shows self.new) lba n result }
        ensures step { (s : Contents) → stands self.old s
            → ThroughContents (shows self.old) (shows self.new) (stands self.new) s lba n from.now result }
        ensures same_shape { (shows self.new).drive.shape ≡ (shows self.old).drive.shape }
        ensures underwent { underwent self.old self.new };

    /// Writes all pending blocks to the disc, the oldest first. One that is refused goes behind the others.
    ///
    /// # Clauses
    ///
    /// - `cause` (`SyncCause`), `step` (`SyncContents`): all pending blocks are drained, the oldest first; afterwards each block that
    ///   is not pending has its last value alone.
    ///
    /// # Answers
    ///
    /// Causes: `SyncCause`; the values: `SyncContents`.
    ///
    /// - `Good`: each pending block was written, the oldest first. Then: nothing is pending, and each block has its last value
    ///   alone. (`DrainsAll`, `SyncValues`)
    /// - `NotFormatted`: exactly when the power is on and the disc is not formatted. Then: nothing is pending.
    ///   (`CacheUnformatted`)
    /// - `NoSpare`: some pending blocks cannot be written, and the first of them has a dead home, and each free spare for it is dead;
    ///   told is its first sector. Then: those are pending, in the order in which they were tried; each other block has its last value
    ///   alone. (`FallsShort`, `SyncValues`)
    /// - `NoUpdate`: some pending blocks cannot be written, and of the first of them the move cannot be noted. Then: the same.
    ///   (`FallsShort`, `SyncValues`)
    /// - `Cut`: the power was cut while a pending block was written. Then: off; nothing is pending; the disc with all values.
    ///   (`StopsTrying`)
    /// - `Off`: exactly when the power was off. Then: nothing changed. (`CacheWasOff`)
    /// - `Fault`: what the medium lies on counted a failure. Then: as after `Cut`. (`StopsTrying`)
    fn synchronize(&mut self) -> SyncOut
        ensures cause { SyncCause (shows self.old) (shows self.new) result }
        ensures step { (s : Contents) → stands self.old s → SyncContents (shows self.new) (stands self.new) s result }
        ensures same_shape { (shows self.new).drive.shape ≡ (shows self.old).drive.shape }
        ensures underwent { underwent self.old self.new };

    /// Writes the oldest pending block to the disc.
    ///
    /// # Clauses
    ///
    /// - `cause` (`TickCause`), `step` (`TickContents`): the oldest is flushed, or stands behind the others; Idle exactly where the
    ///   power is on and nothing is pending.
    ///
    /// # Answers
    ///
    /// Causes: `TickCause`; the values: `TickContents`.
    ///
    /// - `Idle`: the power is on and nothing is pending. Then: nothing changed. (`IsIdle`)
    /// - `Written`: the oldest pending block was written; told is its first sector. Then: it is not pending; every value stays.
    ///   (`TriesOldest`)
    /// - `NoSpare`: it cannot be written: its home is dead, and so is every free spare; told is its first sector. Then: every
    ///   value stays, and it is pending behind the others. (`TriesOldest`)
    /// - `NoUpdate`: it cannot be written: its move cannot be noted. Then: the same. (`TriesOldest`)
    /// - `Cut`: the power was cut while it was written. Then: off; nothing is pending; the disc with all values. (`TriesOldest`)
    /// - `Off`: exactly when the power was off. Then: nothing changed. (`CacheWasOff`)
    /// - `Fault`: what the medium lies on counted a failure. Then: as after `Cut`. (`TriesOldest`)
    fn tick(&mut self) -> TickOut
        ensures cause { TickCause (shows self.old) (shows self.new) result }
        ensures step { (s : Contents) → stands self.old s → TickContents (stands self.new) s result }
        ensures same_shape { (shows self.new).drive.shape ≡ (shows self.old).drive.shape }
        ensures underwent { underwent self.old self.new };

    ghost laws: { CachingLaws shows stands };

    /// One call after another, or none, is nothing but events too.
    ghost underwent_laws: { UnderwentLaws underwent };
}
