//! Laws of runs, for those who rely on a drive: what it acknowledged stays, and is read back.
ghost use Rattle.std.specs.Prelude.{◌≡◌, ◌↔◌, ◌*◌, ◌<◌, ◌≤◌, ℕ, Bool, Ok, Some, List, [], ◌∷◌, length, All};
ghost use Rattle.std.specs.List.{Contains};
ghost use Rattle.model_geometry.specs.Geometry.{Shape, total};
ghost use Rattle.model_places.specs.Places.{Lists};
ghost use Rattle.model_volume.specs.Given.{IsGiven};
ghost use Rattle.model_fairness.specs.Fair.{IsFair};
ghost use Rattle.model_image.specs.Image.{IsDiscImage};
ghost use Rattle.model_medium.specs.Machine.{Machine};
ghost use Rattle.model_sectors.specs.Requests.{block_with};
ghost use Rattle.model_image.specs.Cells.{cells_of, data_in, image_len};
ghost use Rattle.model_cdb.specs.declared.commands.Command.TheVariants as commands;
ghost use Rattle.model_cdb.specs.Decoding.{decoded};
ghost use Rattle.ram_report.specs.declared.printing.Event.TheVariants as told;
ghost use Rattle.ram_text.specs.declared.script.Line.{Line};
ghost use Rattle.ram_text.specs.declared.script.Line.TheVariants as lines;
ghost use Rattle.ram_machine.specs.declared.reply.Reply.TheVariants as replies;
ghost use Rattle.ram_machine.specs.Replies.{Outcome};
ghost use Rattle.ram_machine.specs.States.{State, IsFirst, IsLeft, IsPressedDisc};
ghost use Rattle.ram_machine.specs.LineSteps.{Step};
ghost use Rattle.ram_machine.specs.Underwent.{UnderwentEvents, WritesNone};
ghost use Rattle.ram_machine.specs.Runs.{IsStep, Run};
ghost use Rattle.ram_machine.specs.Answered.{AnsweredStep};
ghost use Rattle.ram_machine.specs.OnlyTold.{UnlessTold};
ghost use Rattle.ram_machine.specs.Acknowledged.{Acknowledged, HasNow, GoesThrough, WasDone, IsAmong, LeavesSector, LeaveSector, KeepPower, HoldsOldOrNew, FallsBackTo, choices_with, choices_after, NeitherPressesNorFormats, HasInImage, HasBlockInImage, IsPendingIn};
ghost use Rattle.ram_machine.specs.SectorBytes.{bytes_of_sector};
ghost use Rattle.ram_machine.specs.Alone.{IsAlone, LeavesAlone, LeaveAlone};
ghost use Rattle.ram_machine.specs.PlainRuns.{PlainState, IsPlainlyFirst, IsInPlainly, PlainStep, PlainRun};
ghost use Rattle.ram_machine.specs.Scrubs.{ToldFound, WasToldUnreadable, IsUnreadableNow, HasNoArms};
ghost use Rattle.ram_machine.specs.Fairness.{FairNow, WasToldNoSpare, HasNoSpareLeft};

/// What was acknowledged of a sector stays so while no line writes it, through every failure of a block and
/// every cut of the power, and whenever the power goes off and on again: over one line, however it ends, and
/// over a run. There a command that was only told that it is not done writes nothing, whatever it asks for.
pub fn acknowledged_bytes_stay()
    ensures step { (s t : State) (line : Line) (payload data_in : List ℕ) (outcome : Outcome)
        (at : ℕ) (bytes : List ℕ) → Step s line payload outcome data_in t → LeavesSector at line payload
        → Acknowledged s at bytes → Acknowledged t at bytes }
    ensures run { (s t : State) (events : List AnsweredStep) (at : ℕ) (bytes : List ℕ)
        → Run s events t → LeaveSector at events → Acknowledged s at bytes → Acknowledged t at bytes }
{}

/// After a write that is answered Good the disc has each sector that was sent. That is acknowledged where the write went through
/// the write cache: with FUA, and where the cache is off or many blocks are covered.
pub fn a_write_that_is_done_is_acknowledged()
    ensures has { (s t : State) (event : AnsweredStep) (lba n at : ℕ) (fua : Bool)
        → IsStep s event t → WasDone event (commands.Write lba n fua) → IsAmong lba n at
        → HasNow t at (bytes_of_sector lba event.payload at) }
    ensures acknowledged { (s t : State) (event : AnsweredStep) (lba n at : ℕ) (fua : Bool)
        → IsStep s event t → WasDone event (commands.Write lba n fua) → IsAmong lba n at → GoesThrough s lba n fua
        → Acknowledged t at (bytes_of_sector lba event.payload at) }
{}

/// A read that is answered Good gives of each sector what was acknowledged of it, and what the disc has of it. What it gives the
/// disc has.
pub fn a_read_that_is_done_shows_what_was_acknowledged()
    ensures shown { (s t : State) (event : AnsweredStep) (lba n at : ℕ) (bytes : List ℕ)
        → IsStep s event t → WasDone event (commands.Read lba n) → IsAmong lba n at
        → Acknowledged s at bytes → bytes_of_sector lba event.data_in at ≡ bytes }
    ensures now { (s t : State) (event : AnsweredStep) (lba n at : ℕ) (bytes : List ℕ)
        → IsStep s event t → WasDone event (commands.Read lba n) → IsAmong lba n at
        → HasNow s at bytes → bytes_of_sector lba event.data_in at ≡ bytes }
    ensures has { (s t : State) (event : AnsweredStep) (lba n at : ℕ)
        → IsStep s event t → WasDone event (commands.Read lba n) → IsAmong lba n at
        → HasNow t at (bytes_of_sector lba event.data_in at) }
{}

/// A write leaves each sector that it reaches as it was acknowledged, or with the bytes that were sent,
/// however the write ends.
pub fn a_sector_that_is_written_is_old_or_new()
    ensures { (s t : State) (cdb payload data_in : List ℕ) (outcome : Outcome) (lba n at : ℕ) (fua : Bool)
        (bytes : List ℕ) → Step s (lines.Command cdb) payload outcome data_in t
        → decoded cdb payload ≡ Ok (commands.Write lba n fua) → IsAmong lba n at
        → Acknowledged s at bytes → HoldsOldOrNew t at bytes (bytes_of_sector lba payload at) }
{}

/// A write and then a read, both answered Good, with any lines between them that do not write the sector: the read gives the
/// bytes that were sent, where the write went through the write cache, and else where no power was lost between them, neither
/// by a `power` line nor by a cut.
pub fn what_was_written_is_read_back()
    ensures through { (s t u v : State) (written read : AnsweredStep) (between : List AnsweredStep)
        (lba n first count at : ℕ) (fua : Bool)
        → IsStep s written t → WasDone written (commands.Write lba n fua) → IsAmong lba n at → GoesThrough s lba n fua
        → Run t between u → LeaveSector at between
        → IsStep u read v → WasDone read (commands.Read first count) → IsAmong first count at
        → bytes_of_sector first read.data_in at ≡ bytes_of_sector lba written.payload at }
    ensures powered { (s t u v : State) (written read : AnsweredStep) (between : List AnsweredStep)
        (lba n first count at : ℕ) (fua : Bool)
        → IsStep s written t → WasDone written (commands.Write lba n fua) → IsAmong lba n at
        → Run t between u → KeepPower between → LeaveSector at between
        → IsStep u read v → WasDone read (commands.Read first count) → IsAmong first count at
        → bytes_of_sector first read.data_in at ≡ bytes_of_sector lba written.payload at }
{}

/// Two reads of a sector, both answered Good, with any lines between them that do not write it and by which no power is lost, give
/// the same bytes. (What is acknowledged each read gives, whatever comes between.)
pub fn two_reads_agree()
    ensures { (s t u v : State) (one two : AnsweredStep) (between : List AnsweredStep)
        (lba n first count at : ℕ)
        → IsStep s one t → WasDone one (commands.Read lba n) → IsAmong lba n at
        → Run t between u → KeepPower between → LeaveSector at between
        → IsStep u two v → WasDone two (commands.Read first count) → IsAmong first count at
        → bytes_of_sector first two.data_in at ≡ bytes_of_sector lba one.data_in at }
{}

/// After a write through the write cache that is answered Good the image has each sector that was sent, in the home of its block.
pub fn a_write_told_good_is_in_the_image()
    ensures { (s t : State) (event : AnsweredStep) (lba n at : ℕ) (fua : Bool) (image : List ℕ)
        → IsStep s event t → WasDone event (commands.Write lba n fua) → IsAmong lba n at → GoesThrough s lba n fua
        → IsLeft t image → HasInImage t image at (bytes_of_sector lba event.payload at) }
{}

/// After a verification that is answered Good the image has each sector that was verified, as it was acknowledged, in the home
/// of its block.
pub fn a_verified_sector_is_in_the_image()
    ensures { (s t : State) (event : AnsweredStep) (lba n at : ℕ) (bytes image : List ℕ)
        → IsStep s event t → WasDone event (commands.Verify lba n) → IsAmong lba n at
        → Acknowledged s at bytes → IsLeft t image → HasInImage t image at bytes }
{}

/// After an expansion that is answered Good the disc has each sector below the new capacity, with the bytes that it had, and
/// no sector from there on.
pub fn an_expansion_keeps_what_it_leaves()
    ensures stays { (s t : State) (event : AnsweredStep) (sectors at : ℕ) (bytes : List ℕ)
        → IsStep s event t → WasDone event (commands.Expand sectors) → at < sectors
        → HasNow s at bytes → HasNow t at bytes }
    ensures gone { (s t : State) (event : AnsweredStep) (sectors at : ℕ) (bytes : List ℕ)
        → IsStep s event t → WasDone event (commands.Expand sectors) → sectors ≤ at
        → ¬ HasNow t at bytes }
{}

/// After SYNCHRONIZE CACHE that is answered Good the disc has each sector as before, and that is acknowledged.
pub fn a_synchronised_sector_is_acknowledged()
    ensures has { (s t : State) (event : AnsweredStep) (at : ℕ) (bytes : List ℕ) → IsStep s event t
        → WasDone event commands.Synchronize → HasNow s at bytes → HasNow t at bytes }
    ensures acknowledged { (s t : State) (event : AnsweredStep) (at : ℕ) (bytes : List ℕ) → IsStep s event t
        → WasDone event commands.Synchronize → HasNow s at bytes → Acknowledged t at bytes }
{}

/// After SYNCHRONIZE CACHE that is answered Good the image has each block that was pending, with its bytes, in its home by the lists
/// in use; so it has each sector of such a block as the disc had it.
pub fn a_synchronised_block_is_in_the_image()
    ensures block { (s t : State) (event : AnsweredStep) (i : ℕ) (bytes image : List ℕ)
        → IsStep s event t → WasDone event commands.Synchronize → IsPendingIn s i bytes
        → IsLeft t image → HasBlockInImage t image i bytes }
    ensures sector { (s t : State) (event : AnsweredStep) (i at : ℕ) (bytes held image : List ℕ)
        → IsStep s event t → WasDone event commands.Synchronize → IsPendingIn s i bytes → block_with at ≡ i
        → HasNow s at held → IsLeft t image → HasInImage t image at held }
{}

/// After a tick that wrote a block the image has that block, with the bytes with which it was pending, in its home.
pub fn a_ticked_block_is_in_the_image()
    ensures { (s t : State) (event : AnsweredStep) (i : ℕ) (bytes image : List ℕ)
        → IsStep s event t → event.line ≡ lines.Tick → event.reply ≡ replies.Event (told.Written (16 * i))
        → IsPendingIn s i bytes → IsLeft t image → HasBlockInImage t image i bytes }
{}

/// After a scrub of all blocks that told how many it found, the blocks that it told are just those that cannot be read, and n.
/// While no block is armed to die, a read that is the next line is refused for a block that cannot be read only where the scrub told
/// that block: so one of other blocks is not.
pub fn a_read_is_unreadable_where_a_scrub_told_it()
    ensures told { (s t : State) (scrub : AnsweredStep) (count : ℕ) → IsStep s scrub t → ToldFound scrub count
        → (i : ℕ) → Contains scrub.data_in i ↔ IsUnreadableNow t i }
    ensures number { (s t : State) (scrub : AnsweredStep) (count : ℕ) → IsStep s scrub t → ToldFound scrub count
        → count ≡ length scrub.data_in }
    ensures read { (s t u : State) (scrub read : AnsweredStep) (count lba n named : ℕ) → IsStep s scrub t
        → ToldFound scrub count → HasNoArms t → IsStep t read u → WasToldUnreadable read lba n named
        → Contains scrub.data_in (block_with named) }
{}

/// After a power loss a sector has what was acknowledged of it, or what a later write sent, and nothing older or other: however
/// lines end, whatever blocks die, wherever the power is cut. What is acknowledged is the one thing to which it may fall back;
/// each write of it adds what it sends, and no line but a write and a format adds anything; nor does one of these that was only
/// told that it is not done.
pub fn after_a_power_loss_a_sector_has_one_of_its_values()
    ensures begins { (s : State) (at : ℕ) (bytes : List ℕ) → Acknowledged s at bytes → FallsBackTo s at (bytes ∷ []) }
    ensures step { (s t : State) (line : Line) (payload data_in : List ℕ) (outcome : Outcome) (at : ℕ)
        (choices : List (List ℕ)) → Step s line payload outcome data_in t → NeitherPressesNorFormats line payload
        → FallsBackTo s at choices → FallsBackTo t at (choices_with at line payload choices) }
    ensures run { (s t : State) (events : List AnsweredStep) (at : ℕ) (choices : List (List ℕ)) → Run s events t
        → All (UnlessTold NeitherPressesNorFormats) events
        → FallsBackTo s at choices → FallsBackTo t at (choices_after at events choices) }
    ensures found { (s : State) (at : ℕ) (choices : List (List ℕ)) (bytes : List ℕ) → FallsBackTo s at choices
        → HasNow s at bytes → Contains choices bytes }
{}

/// While the write cache is never turned on a run is one of a drive without a cache, line by line: nothing is ever pending, no tick
/// writes anything, and each line is answered as there, with the causes and the steps of the disc's own calls (`PlainRun`). It is so
/// from the opened image, from a `press` and from each `power` that is ready on.
pub fn without_the_cache_a_run_is_that_of_the_disc()
    ensures begins { (bytes : List ℕ) (s : State) → IsFirst bytes s → IsAlone s }
    ensures pressed { (shape : Shape) (s : State) → IsPressedDisc shape s → IsAlone s }
    ensures step { (s t : State) (line : Line) (payload data_in : List ℕ) (outcome : Outcome)
        → Step s line payload outcome data_in t → LeavesAlone line payload → IsAlone s → IsAlone t }
    ensures run { (s t : State) (events : List AnsweredStep) → Run s events t → LeaveAlone events → IsAlone s
        → IsAlone t }
    ensures powered { (s t : State) (event : AnsweredStep) (known : ℕ) → IsStep s event t → event.line ≡ lines.Power
        → event.reply ≡ replies.Event (told.Ready known) → IsAlone t }
    ensures plain_first { (bytes : List ℕ) (s : State) → IsFirst bytes s
        → (p : PlainState) × IsPlainlyFirst bytes p × IsInPlainly s p }
    ensures plain { (s : State) → IsAlone s → (p : PlainState) × IsInPlainly s p }
    ensures plain_step { (s t : State) (p : PlainState) (line : Line) (payload data_in : List ℕ) (outcome : Outcome)
        → Step s line payload outcome data_in t → LeavesAlone line payload → IsInPlainly s p
        → (q : PlainState) × PlainStep p line payload outcome data_in q × IsInPlainly t q }
    ensures plain_run { (s t : State) (p : PlainState) (events : List AnsweredStep)
        → Run s events t → LeaveAlone events → IsInPlainly s p
        → (q : PlainState) × PlainRun p events q × IsInPlainly t q }
{}

/// A run gives up dead blocks alone: so where a write finds no spare, each spare that replaces no block is dead. It begins so
/// with a disc that was just pressed, and with an image of which each pair of lists that it may give names dead blocks alone;
/// no line changes it.
pub fn dead_blocks_alone_are_given_up()
    ensures step { (s t : State) (line : Line) (payload data_in : List ℕ) (outcome : Outcome)
        → Step s line payload outcome data_in t → FairNow s → FairNow t }
    ensures run { (s t : State) (events : List AnsweredStep) → Run s events t → FairNow s → FairNow t }
    ensures pressed { (shape : Shape) (s : State) → IsPressedDisc shape s → FairNow s }
    ensures image { (bytes : List ℕ) (s : State) → IsFirst bytes s
        → ((shape : Shape) → IsDiscImage shape bytes → (lists : Lists)
        → IsGiven shape (cells_of (total shape) bytes) lists → IsFair (cells_of (total shape) bytes) lists)
        → FairNow s }
{}

/// A run that gives up dead blocks alone says, to a command or a tick, that no spare is left for a block only where none is: each
/// spare that it may go to, and that replaces no block, is dead then.
pub fn no_spare_is_told_where_none_is_left()
    ensures { (s t : State) (event : AnsweredStep) → FairNow s → IsStep s event t → (named : ℕ)
        → WasToldNoSpare event named → HasNoSpareLeft t named }
{}

/// The data under a block change by writes of the block alone. Over what a command or a power line did to the medium and
/// its image, the data of each block that none of the events wrote are as they were, also under a block that is torn or dead, and also
/// where the image failed.
pub fn data_change_by_writes_alone()
    ensures { (blocks block : ℕ) (old new : Machine) (before after : List ℕ)
        (underwent : UnderwentEvents blocks old (Some before) new (Some after)) → block < blocks
        → length before ≡ image_len blocks → WritesNone block underwent.0
        → data_in blocks after block ≡ data_in blocks before block }
{}
