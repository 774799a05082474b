//! That a block can be read until it dies: laws of runs, functions with an empty body, of which the contract is the law.
ghost use Rattle.std.specs.Prelude.{◌≡◌, ◌*◌, ℕ, Bool, true, false, List};
ghost use Rattle.model_sectors.specs.Requests.{block_with};
ghost use Rattle.model_cdb.specs.declared.commands.Command.TheVariants as commands;
ghost use Rattle.ram_report.specs.declared.printing.Event.TheVariants as told;
ghost use Rattle.ram_text.specs.declared.script.Line.{Line};
ghost use Rattle.ram_text.specs.declared.script.Line.TheVariants as lines;
ghost use Rattle.ram_machine.specs.declared.reply.Reply.TheVariants as replies;
ghost use Rattle.ram_machine.specs.Replies.{Outcome};
ghost use Rattle.ram_machine.specs.States.{State, kind_of, IsFirst, IsLeft};
ghost use Rattle.ram_machine.specs.LineSteps.{Step};
ghost use Rattle.ram_machine.specs.Runs.{IsStep, Run};
ghost use Rattle.ram_machine.specs.Answered.{AnsweredStep};
ghost use Rattle.ram_machine.specs.Acknowledged.{WasDone, IsAmong, GoesThrough, IsPendingIn};
ghost use Rattle.ram_machine.specs.Scrubs.{WasToldUnreadable};
ghost use Rattle.model_sense.specs.declared.sense.Sense.{Sense};
ghost use Rattle.ram_survival.specs.Living.{LeavesBlock, LeaveBlock, IsSafe, LivesNow, CachesIn, WasRefused, HasDied};

/// A block that is safe can be read until its home dies, over any lines but those that write a sector of it or format the disc anew:
/// however they end, wherever cuts come and whatever fails; also in an image that is handed back and opened again. A read that is
/// told that it cannot be read (3/11/00) met its dead home.
pub fn a_block_can_be_read_until_it_dies()
    ensures begins { (s : State) (i : ℕ) → IsSafe s i → LivesNow s i }
    ensures step { (s t : State) (line : Line) (payload data_in : List ℕ) (outcome : Outcome) (i : ℕ)
        → Step s line payload outcome data_in t → LeavesBlock i line payload outcome → LivesNow s i → LivesNow t i }
    ensures run { (s t : State) (events : List AnsweredStep) (i : ℕ) → LivesNow s i → Run s events t
        → LeaveBlock i events → LivesNow t i }
    ensures image { (s t : State) (bytes : List ℕ) (i : ℕ) → LivesNow s i → IsLeft s bytes → IsFirst bytes t
        → kind_of t ≡ kind_of s → LivesNow t i }
    ensures read { (s t : State) (event : AnsweredStep) (lba n named : ℕ) → LivesNow s (block_with named)
        → IsStep s event t → WasToldUnreadable event lba n named → HasDied t (block_with named) }
{}

/// A block is safe after a write of a sector of it, through the write cache, that is answered Good; after a SYNCHRONIZE CACHE, an
/// ejection, or a MODE SELECT that turns the cache off, that is answered Good, if it was pending; and after a tick that wrote it. After
/// a SYNCHRONIZE CACHE that was refused each block that was
/// pending, and is not any more, can be read until it dies too.
pub fn what_is_safe()
    ensures written { (s t : State) (event : AnsweredStep) (lba n at : ℕ) (fua : Bool)
        → IsStep s event t → WasDone event (commands.Write lba n fua) → IsAmong lba n at → GoesThrough s lba n fua
        → IsSafe t (block_with at) }
    ensures synchronised { (s t : State) (event : AnsweredStep) (i : ℕ) (bytes : List ℕ) → IsStep s event t
        → WasDone event commands.Synchronize → IsPendingIn s i bytes → IsSafe t i }
    ensures ejected { (s t : State) (event : AnsweredStep) (i : ℕ) (bytes : List ℕ) → IsStep s event t
        → WasDone event (commands.StartStop false true) → IsPendingIn s i bytes → IsSafe t i }
    ensures turned_off { (s t : State) (event : AnsweredStep) (i : ℕ) (bytes : List ℕ) → IsStep s event t
        → WasDone event commands.ModeSelect → CachesIn s true → CachesIn t false → IsPendingIn s i bytes
        → IsSafe t i }
    ensures ticked { (s t : State) (event : AnsweredStep) (i : ℕ) (bytes : List ℕ) → IsStep s event t
        → event.line ≡ lines.Tick → event.reply ≡ replies.Event (told.Written (16 * i)) → IsPendingIn s i bytes
        → IsSafe t i }
    ensures refused { (s t : State) (event : AnsweredStep) (why : Sense) (i : ℕ) (bytes : List ℕ) → IsStep s event t
        → WasRefused event commands.Synchronize why → IsPendingIn s i bytes
        → ((held : List ℕ) → ¬ IsPendingIn t i held) → LivesNow t i }
{}
