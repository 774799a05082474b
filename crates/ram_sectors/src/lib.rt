//! A drive as its host sees it, whatever it does with bad blocks: the sectors that it reads and writes, and the disc that it
//! formats, expands, verifies and tells of. Contracts alone.
//!
//! A drive has three meanings beside its calls.
//!
//! - `shows`: the geometry, the medium with what is armed on it, the lists in use or none, the mark, and the buffered blocks with
//!   their bytes (`Shown` of `model_drive`). Homes, dead homes, spares that can be used, lost lists and the capacity are
//!   functions of it.
//! - `stands`: the disc that it stands for: its sectors as they were last acknowledged. With the power off, a list of discs, one
//!   of which is found when the power goes on (`Standing`).
//! - `underwent`: of the drive before and after: nothing but events happened to its medium, uses and the power that went on or
//!   off. What each of them did, the drive says. It holds of none, and of one call after another (`UnderwentLaws`).
//!
//! Why there are two meanings and not one: causes of answers and numbers of uses are said over what is shown, also where the
//! cells of the medium are not known. And a block whose home is dead or torn keeps its last acknowledged bytes in the disc,
//! though these can be read nowhere; so the disc is no function of what lies on the medium, and what a drive stands for is a
//! relation.
//!
//! # What each call keeps
//!
//! The definitions are in `model_drive/specs`, one file for each call, and `Parts.antt` for what they share.
//!
//! - each, `cause`: why it answered so; all of what the drive shows afterwards: uses of the medium, cells that may have changed,
//!   lists in use, the mark, the buffered blocks.
//! - `step`: for each thing that the drive stood for, what it stands for now.
//! - `same_shape`: the geometry stays.
//! - `underwent`: nothing but events happened to the medium in between, whatever the answer.
//!
//! # The trait `Caching`
//!
//! A drive with a write cache has the calls of a disc and four more. It shows what its disc shows, the pending blocks and whether
//! the cache is on (`CacheShown` of `model_cache`), and stands for `Contents`: the disc that is shown, and the older values of
//! each block. The definitions are in `model_cache/specs`, steps in `Steps.antt` and causes in `Causes.antt`.
//!
//! # Laws of the definitions (functions of `model_drive`)
//!
//! - **Only tested:** nothing here; the program calls a `Volume` through both traits.
//! - **Neither proved nor tested:** what `into` holds after a read that was not Good, and that `exchange_room` exchanges
//!   anything, or which bytes a room has then. Both are left open on purpose.
//! - **Trusted:** the toolchain. A definition that no clause cites says nothing; `make docs` lists who cites each.
//! - **Stands on:** `model_drive`, `model_cache`, `model_sectors`, `model_commands`, and `ram_bytes` for its `Block`.
//!
//! # Answers
//!
//! What a drive stands for is a disc of sectors, or with the power off some discs, its candidates. With a write cache (`Caching`)
//! each block has values, of which the last is shown and the older ones are those since its last synchronisation. Every answer of
//! these calls has two definitions: its cause, which says what the drive shows afterwards, and its step, which says what became
//! of the disc. `Cut` comes by the armed cut alone: it had exactly as many uses left as the call took. A block dies by an arm
//! alone, where nothing failed. Both are said by `Reach` (`crates/model_medium/specs/Reach.antt`), to which each of these causes
//! comes.
#![tactic(auto)]

ghost use Rattle.std.specs.Prelude.{◌≡◌, ◌*◌, ◌≤◌, length, IfSome};
ghost use Rattle.model_commands.specs.declared.TheConstants.{TRANSFER_LIMIT};
ghost use Rattle.model_sectors.specs.Discs.{Standing};
ghost use Rattle.model_drive.specs.Shown.{Shown};
ghost use Rattle.model_drive.specs.Reads.{ReadCause, ReadStep, ReadCompletes, ReadIsQuiet, VerifyCause, VerifyStep};
ghost use Rattle.model_drive.specs.Writes.{WriteCause, WriteStep, WriteCompletes};
ghost use Rattle.model_drive.specs.Power.{PowerCause, PowerStep};
ghost use Rattle.model_drive.specs.Formats.{FormatCause, FormatStep, FormatCompletes};
ghost use Rattle.model_drive.specs.Expands.{ExpandCause, ExpandStep, ExpandCompletes};
ghost use Rattle.model_drive.specs.Records.{GenerationCause, LeadFromCause, RecordStep};
ghost use Rattle.model_drive.specs.Tells.{CapacityRule, CountsRule, DdsRule};
ghost use Rattle.model_lists.specs.Records.{IsLawfulRecord};
ghost use Rattle.ram_record.specs.Record.{record_of};
ghost use Rattle.ram_sectors.specs.declared.TheConstants.{VERIFY_LIMIT, MOST_BLOCKS};
ghost use Rattle.ram_sectors.specs.Laws.{SectorsLaws, UnderwentLaws};

mod caching;

pub use caching::Caching;
pub use model_cache::{SyncOut, TickOut};
pub use model_commands::TRANSFER_LIMIT;
pub use model_drive::{DriveCounts, ExpandOut, FormatOut, Kind, RecordOut, WriteOut};
pub use model_sectors::{PowerOut, ReadOut};
use ram_bytes::Block;
use ram_record::LeadRecord;

/// How many sectors are verified at once at most. (INCITS MMC gives their number two bytes.)
pub const VERIFY_LIMIT: u32 = 65_535;

/// How many logical blocks a disc has at most: no more than the greatest one has data blocks.
pub const MOST_BLOCKS: u32 = 146_930;

/// The numbers that contracts share with the code.
pub fn limits_are_these()
    ensures verify { VERIFY_LIMIT ≡ 65535 }
    ensures blocks { MOST_BLOCKS ≡ 146930 }
{}

/// A disc as its host sees it: a list of sectors of 2,048 bytes, numbered from 0. Wherever the cells of its medium are known,
/// it stands for a disc whose sectors are those that were last acknowledged.
///
/// Each call answers why it ended. `cause` says all of what the drive shows afterwards, with the uses of the medium that the
/// call took, the cells that may have changed, the lists in use and the blocks that are buffered. `step` says what each disc
/// that it stood for has become, and which bytes a read gave. `completes` says when a call ends well. An answer other than
/// Fault leaves the medium's count of faults as it was. Whatever the answer, `underwent` says that nothing but events happened
/// to the medium.
pub trait Sectors {
    /// What it shows beside its disc: the geometry, the medium with what is armed on it, the lists in use, the mark, and the
    /// buffered blocks.
    ghost shows: { Self → Shown };

    /// What it stands for. A block that cannot be read has its last acknowledged bytes all the same, so this is a relation.
    ghost stands: { Self → Standing → Type 0 };

    /// That nothing but events happened to its medium in between: uses, and the power that went on or off. What each of them
    /// does, also to what the medium lies on, the drive says.
    ghost underwent: { Self → Self → Type 0 };

    /// How many sectors the disc has, a multiple of 16. None exactly where the power is off or the disc is not formatted.
    ///
    /// # Answers
    ///
    /// - `Some`, `None`: how many sectors, of at most 146,930 blocks; `None` exactly when the power is off or the disc is not
    ///   formatted. (`CapacityRule`)
    fn capacity(&self) -> Option<u32>
        ensures rule { CapacityRule (shows self.now) result }
        ensures few { IfSome result (λ sectors. sectors ≤ 16 * MOST_BLOCKS) };

    /// Reads `n` sectors from sector `lba` on, with at most one use of the medium for each block. With the power off it
    /// answers Off; without a format, NotFormatted; where some sector is none of the disc's, Range, with the capacity; where a
    /// block has no whole bytes, Unread, with its first sector of the request and its home. What `into` holds after another
    /// answer than Good is not known.
    ///
    /// # Answers
    ///
    /// Causes: `ReadCause`; the disc: `ReadStep`; it must end well where `CanRead` holds; without a use of the medium where all
    /// blocks are buffered (`ReadIsQuiet`).
    ///
    /// - `Good`: each block's home is good now, or the block was buffered. Then: the bytes are the disc's; no cell and no list
    ///   changed. (`ReadsAll`)
    /// - `NotFormatted`: exactly when the power is on and the disc is not formatted. Then: nothing changed. (`IsUnformatted`)
    /// - `Range`: exactly when the disc is formatted and `lba + n` is more than its capacity, which is told. Then: nothing
    ///   changed. (`IsOutOfRange`)
    /// - `Unread`: a block is not at hand, and its home is not good now; told are its first sector of the request, and the home.
    ///   Then: the disc and the lists stay; no cell changed but that of the home, which may be dead now. (`MeetsUnread`)
    /// - `Cut`: the power was cut in this read. Then: off; the disc is the only candidate; lists and buffer are gone.
    ///   (`StopsInRead`)
    /// - `Off`: exactly when the power was off. Then: nothing changed. (`WasOff`)
    /// - `Fault`: what the medium lies on counted a failure. Then: as after `Cut`. (`StopsInRead`)
    fn read(&mut self, lba: u32, n: u32, into: &mut [u8]) -> ReadOut
        requires few { n ≤ TRANSFER_LIMIT }
        requires whole { length into.old ≡ 2048 * n }
        ensures cause { ReadCause (shows self.old) (shows self.new) lba n result }
        ensures step { (s : Standing) → stands self.old s
            → ReadStep (stands self.new) s lba n into.new result }
        ensures completes { ReadCompletes (shows self.old) (shows self.new) lba n result }
        ensures quiet { ReadIsQuiet (shows self.old) (shows self.new) lba n result }
        ensures same_shape { (shows self.new).shape ≡ (shows self.old).shape }
        ensures underwent { underwent self.old self.new };

    /// Writes `n` sectors from sector `lba` on, and reads each block back. Whole logical blocks are replaced one after
    /// another: a write that is refused or stopped has replaced those before the one in progress. Beside the refusals of a
    /// read it may answer NoSpare, where the home of a block and all free spares are dead, and NoUpdate, where a spare has the
    /// block's bytes and the list that would say so could not be written.
    ///
    /// # Answers
    ///
    /// Causes: `WriteCause`; the disc: `WriteStep`; it must end well where `NothingDies` or `HasSpares` holds.
    ///
    /// - `Good`: each block is in its home, or in a spare of which a readable list says so. Then: the sectors are replaced, and
    ///   no others. (`WritesAll`)
    /// - `NotFormatted`: exactly when the power is on and the disc is not formatted. Then: nothing changed. (`IsUnformatted`)
    /// - `Range`: exactly when the disc is formatted and `lba + n` is more than its capacity, which is told. Then: nothing
    ///   changed. (`IsOutOfRange`)
    /// - `Unread`: a block is covered in part and not at hand, and its home is not good now; told as for a read. Then: the
    ///   sectors of the blocks before it are replaced, and no others. (`LacksRest`)
    /// - `NoSpare`: the home of a block is dead now, and so is every spare that is free for it; told is its first sector of the
    ///   request. Then: the sectors of the blocks before it are replaced, and no others. (`LacksSpare`)
    /// - `NoUpdate`: the home is dead, a spare has the bytes, but no copy of the secondary list is left, or its counter, which is
    ///   told, is the last. Then: the sectors of the blocks before the first whose home is dead are replaced. (`LacksUpdate`,
    ///   `EndsAtDead`)
    /// - `Cut`: the power was cut in this write. Then: off; two candidates: the blocks before one are new, and that one is old in
    ///   one and new in the other; the lists that it had reached are settled, or the next one is written up to there.
    ///   (`StopsInWrite`, `StopsInBlock`, `LeavesPlacing`)
    /// - `Off`: exactly when the power was off. Then: nothing changed. (`WasOff`)
    /// - `Fault`: what the medium lies on counted a failure. Then: as after `Cut`. (`StopsInWrite`, `StopsInBlock`)
    fn write(&mut self, lba: u32, n: u32, from: &[u8]) -> WriteOut
        requires few { n ≤ TRANSFER_LIMIT }
        requires whole { length from.now ≡ 2048 * n }
        ensures cause { WriteCause (shows self.old) (shows self.new) lba n result }
        ensures step { (s : Standing) → stands self.old s
            → WriteStep (shows self.new) (stands self.new) s lba n from.now result }
        ensures completes { WriteCompletes (shows self.old) (shows self.new) lba n result }
        ensures same_shape { (shows self.new).shape ≡ (shows self.old).shape }
        ensures underwent { underwent self.old self.new };

    /// Turns the power off and on again, and mounts the disc: its lists are chosen among their copies, which are repaired.
    /// Only on Ready and NotFormatted is the power on afterwards.
    ///
    /// # Answers
    ///
    /// Causes: `PowerCause`; the disc: `PowerStep`. The power is on after `Ready` and `NotFormatted` alone. No answer changes the
    /// cell of a data block, or makes cells give lists that they did not.
    ///
    /// - `Ready`: lists were chosen among the copies; the capacity is told. Then: they are in use, their copies repaired; the
    ///   disc is the first candidate that fits them. (`MountsLists`, `FindsDisc`)
    /// - `NotFormatted`: none were chosen: no structure is valid, or the one chosen says Formatting, or no secondary list belongs
    ///   to it. Then: the disc has no sectors; the mark is that of the copies; the cells of the secondary list are as they were, or
    ///   dead. (`MountsNone`)
    /// - `Cut`: the power was cut in the mount. Then: off; the candidates are as before; nothing was repaired, or the chosen
    ///   structure in part, or both chosen lists. (`StopsInMount`, `StopsMounting`)
    /// - `Fault`: what the medium lies on counted a failure. Then: off; the candidates are as before. (`StopsInMount`)
    fn power(&mut self) -> PowerOut
        ensures cause { PowerCause (shows self.old) (shows self.new) result }
        ensures step { (s : Standing) → stands self.old s
            → PowerStep (shows self.new) (stands self.new) s result }
        ensures same_shape { (shows self.new).shape ≡ (shows self.old).shape }
        ensures underwent { underwent self.old self.new };

    ghost laws: { SectorsLaws shows stands };

    /// One call after another, or none, is nothing but events too.
    ghost underwent_laws: { UnderwentLaws underwent };
}

/// A disc that can be formatted, expanded and verified, and that tells of itself.
pub trait Disc: Sectors {
    /// Formats the disc: anew, with a certification that leaves zeros, or by writing both lists again. A disc that is not
    /// formatted is formatted anew in both cases.
    ///
    /// # Answers
    ///
    /// Causes: `FormatCause`; the disc: `FormatStep`; it must end well where `FormatCompletes` says so. A rewriting format of a
    /// disc that is not formatted is a full one.
    ///
    /// - `Good` of a full one: the blocks that are defective are no more than may be slipped, and each list has a copy. Then: new
    ///   lists that name them are in use; every sector is zeros. (`FormatsAll`)
    /// - `Good` of a rewriting one: each list has a copy that can be read. Then: disc and lists stay; each copy that was not
    ///   exactly its text was written again. (`RewritesLists`)
    /// - `TooMany`: of a full one: more blocks are defective than may be slipped, which are as many as there are primary spares;
    ///   it says how many. Then: not formatted; the mark is one greater. (`FindsTooMany`)
    /// - `NoUpdate` of a full one: the mark, which is told, has no room for two more. Then: nothing changed. (`MarkLacksRoom`)
    /// - `NoUpdate` of a full one, later: an update left no copy of its list; the counter that was due is told. Then: not
    ///   formatted. (`LosesList`)
    /// - `NoUpdate` of a rewriting one: a list has no copy left; its counter is told, the structure's where that is the one.
    ///   Then: disc and lists stay. (`RewritesInVain`)
    /// - `Cut` of a full one: the power was cut in this format. Then: off; the candidates are the disc and none, or none alone,
    ///   or none and the disc of zeros; the lists are written up to there, and no block of data before the structure says that a
    ///   format began. (`StopsInFormat`, `StandsInFormat`, `FormatsInPart`)
    /// - `Cut` of a rewriting one: the power was cut in this format. Then: off; the disc is the only candidate; both lists are
    ///   repaired up to there. (`StopsInRewrite`, `MendsLists`)
    /// - `Off`: exactly when the power was off. Then: nothing changed. (`WasOff`)
    /// - `Fault`: what the medium lies on counted a failure. Then: as after `Cut`. (`StopsInFormat`, `StopsInRewrite`)
    fn format(&mut self, kind: Kind) -> FormatOut
        ensures cause { FormatCause (Self.shows self.old) (Self.shows self.new) kind result }
        ensures step { (s : Standing) → Self.stands self.old s
            → FormatStep (Self.shows self.old) (Self.shows self.new) (Self.stands self.new) s kind result }
        ensures completes { FormatCompletes (Self.shows self.old) (Self.shows self.new) kind result }
        ensures same_shape { (Self.shows self.new).shape ≡ (Self.shows self.old).shape }
        ensures underwent { Self.underwent self.old self.new };

    /// Gives the disc a smaller capacity, in sectors: its last blocks become supplementary spares. The sectors that are left
    /// stay. Refused, with the capacity, where the disc cannot have this one: 0, no multiple of 16, more than it has, or
    /// more spares in all than 4,092, or 8,184 where its lists have version 2. NoUpdate, where the list that would say so could
    /// not be written: its copies are all dead, or its counter is the last one.
    ///
    /// # Answers
    ///
    /// Causes: `ExpandCause`; the disc: `ExpandStep`; it must end well where `CanExpand` holds.
    ///
    /// - `Good`: the disc has this capacity already. Then: disc and lists stay, and nothing is buffered. (`StaysAsLarge`)
    /// - `Good` of a smaller one: the secondary list was updated, and has a copy. Then: the first sectors stay, and there are no
    ///   others; the new list is in use. (`Grows`)
    /// - `NotFormatted`: exactly when the power is on and the disc is not formatted. Then: nothing changed. (`IsUnformatted`)
    /// - `Refused`: the capacity is 0, no multiple of 16, more than the disc has, or leaves too many spares; the present one is
    ///   told. Then: nothing changed. (`RefusesSize`)
    /// - `NoUpdate`: no copy of the secondary list is left, or its counter, which is told, is the last. Then: disc and lists
    ///   stay, and nothing is buffered. (`GrowsInVain`)
    /// - `Cut`: the power was cut in the update. Then: off; the disc and its first sectors are the candidates; the list is
    ///   written up to there. (`StopsInExpansion`, `LeavesSdl`)
    /// - `Off`: exactly when the power was off. Then: nothing changed. (`WasOff`)
    /// - `Fault`: what the medium lies on counted a failure. Then: as after `Cut`. (`StopsInExpansion`)
    fn expand(&mut self, capacity: u32) -> ExpandOut
        ensures cause { ExpandCause (Self.shows self.old) (Self.shows self.new) capacity result }
        ensures step { (s : Standing) → Self.stands self.old s
            → ExpandStep (Self.stands self.new) s capacity result }
        ensures completes { ExpandCompletes (Self.shows self.old) (Self.shows self.new) capacity result }
        ensures same_shape { (Self.shows self.new).shape ≡ (Self.shows self.old).shape }
        ensures underwent { Self.underwent self.old self.new };

    /// Reads each block in which some of `n` sectors from sector `lba` on lie from its home, and gives no bytes of it. What is
    /// buffered does not count, and stays. The answers are those of a read.
    ///
    /// # Answers
    ///
    /// Causes: `VerifyCause`; the disc: `VerifyStep`; it must end well where `CanRead` holds.
    ///
    /// - `Good`: the home of each covered block is good now; each was read, whether it is buffered or not. Then: disc, cells,
    ///   lists and buffer stay. (`VerifiesAll`)
    /// - `NotFormatted`: exactly when the power is on and the disc is not formatted. Then: nothing changed. (`IsUnformatted`)
    /// - `Range`: exactly when the disc is formatted and `lba + n` is more than its capacity, which is told. Then: nothing
    ///   changed. (`IsOutOfRange`)
    /// - `Unread`: a home is not good now, and those before it are; told are its first sector of the request, and the home. Then:
    ///   disc, lists and buffer stay; no cell changed but that home's, which may be dead now. (`MeetsUnverified`)
    /// - `Cut`: the power was cut in this verification. Then: off; the disc is the only candidate; lists and buffer are gone.
    ///   (`StopsInRead`)
    /// - `Off`: exactly when the power was off. Then: nothing changed. (`WasOff`)
    /// - `Fault`: what the medium lies on counted a failure. Then: as after `Cut`. (`StopsInRead`)
    fn verify(&mut self, lba: u32, n: u32) -> ReadOut
        requires few { n ≤ VERIFY_LIMIT }
        ensures cause { VerifyCause (Self.shows self.old) (Self.shows self.new) lba n result }
        ensures step { (s : Standing) → Self.stands self.old s → VerifyStep (Self.stands self.new) s result }
        ensures completes { ReadCompletes (Self.shows self.old) (Self.shows self.new) lba n result }
        ensures same_shape { (Self.shows self.new).shape ≡ (Self.shows self.old).shape }
        ensures underwent { Self.underwent self.old self.new };

    /// Reads the record of the lead, which each disc of a mirror has in four copies: it is chosen among them, and they are repaired to
    /// it. A disc that has none gets the first one. It is there whether the disc is formatted or not, and no other call but
    /// `lead_from` writes it. `other` is room for a copy that is looked at, and has any record afterwards.
    ///
    /// # Answers
    ///
    /// Causes: `GenerationCause`; the disc: `RecordStep`.
    ///
    /// - `Good`: `best` is the one that was chosen: the greatest number, of equal ones the lowest area, or the first record. Then:
    ///   each copy is exactly its text or dead, and some can be read. (`ReadsRecord`)
    /// - `Lost`: no copy can be read. Then: all four are dead. (`FindsRecordLost`)
    /// - `Cut`: the power was cut in this call. Then: off; the disc is the only candidate; the copies are as they were, or repaired
    ///   up to there. (`StopsReadingRecord`)
    /// - `Off`: exactly when the power was off. Then: nothing changed. (`WasOff`)
    /// - `Fault`: what the medium lies on counted a failure. Then: as after `Cut`. (`StopsReadingRecord`)
    fn generation(&mut self, best: &mut LeadRecord, other: &mut LeadRecord) -> RecordOut
        ensures cause { GenerationCause (Self.shows self.old) (Self.shows self.new) (record_of best.new) result }
        ensures step { (s : Standing) → Self.stands self.old s → RecordStep (Self.stands self.new) s result }
        ensures same_shape { (Self.shows self.new).shape ≡ (Self.shows self.old).shape }
        ensures underwent { Self.underwent self.old self.new };

    /// Writes the record of the lead: each of its four copies, which is read back.
    ///
    /// # Answers
    ///
    /// Causes: `LeadFromCause`; the disc: `RecordStep`.
    ///
    /// - `Good`: it is written. Then: each copy is exactly its text or dead, and some can be read. (`WritesRecord`)
    /// - `Lost`: no copy can be read. Then: all four are dead. (`WritesRecordInVain`)
    /// - `Cut`: the power was cut in this call. Then: off; the disc is the only candidate; the copies are written up to there.
    ///   (`StopsWritingRecord`)
    /// - `Off`: exactly when the power was off. Then: nothing changed. (`WasOff`)
    /// - `Fault`: what the medium lies on counted a failure. Then: as after `Cut`. (`StopsWritingRecord`)
    fn lead_from(&mut self, value: &LeadRecord) -> RecordOut
        ensures cause { LeadFromCause (Self.shows self.old) (Self.shows self.new) (record_of value.now) result }
        ensures step { (s : Standing) → Self.stands self.old s → RecordStep (Self.stands self.new) s result }
        ensures same_shape { (Self.shows self.new).shape ≡ (Self.shows self.old).shape }
        ensures underwent { Self.underwent self.old self.new };

    /// What the disc is, and how many of its spares are free. The numbers that depend on a formatted disc are 0 without one.
    fn counts(&self) -> DriveCounts
        ensures { CountsRule (Self.shows self.now) result };

    /// Puts the text of the disc definition structure in use into the block. False, with the block as it was, exactly where
    /// the power is off or the disc is not formatted.
    ///
    /// # Answers
    ///
    /// - `true`: the power is on and the disc is formatted; the block has the text of the structure in use. (`DdsRule`)
    /// - `false`: exactly when the power is off or the disc is not formatted; the block is as before. (`DdsRule`)
    fn dds_block(&self, into: &mut Block) -> bool
        ensures { DdsRule (Self.shows self.now) into.old into.new result };

    /// Exchanges this room for one that the drive reads into when it reads back. Either may have any bytes. It changes nothing else,
    /// and is there for speed alone: the room of what was written last is near.
    ///
    /// # Clauses
    ///
    /// - `same`: the drive shows what it showed, and so stands for the same; which bytes either room has is not said.
    fn exchange_room(&mut self, room: &mut Block)
        ensures same { Self.shows self.new ≡ Self.shows self.old }
        ensures underwent { Self.underwent self.old self.new };
}
