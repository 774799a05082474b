//! Laws of runs, by their scripts and reports alone: each sector is a register, which shows its bytes and no others.
ghost use Rattle.std.specs.Prelude.{◌≡◌, ℕ, ◌*◌, Bool, true, None, Some, List, ◌∷◌, length};
ghost use Rattle.std.specs.List.{Contains};
ghost use Rattle.model_sectors.specs.Discs.{zeros};
ghost use Rattle.model_cdb.specs.declared.commands.Command.TheVariants as commands;
ghost use Rattle.ram_machine.specs.Acknowledged.{WasDone, LeaveSector, choices_after};
ghost use Rattle.ram_machine.specs.SectorBytes.{bytes_of_sector, is_sector_among};
ghost use Rattle.ram_machine.specs.States.{State, kind_of, IsFirst, IsLeft};
ghost use Rattle.ram_machine.specs.Runs.{Run};
ghost use Rattle.ram_machine.specs.Answered.{AnsweredStep};
ghost use Rattle.ram_machine.specs.Register.{Register, Bytes, bytes_held, goes_through, Turn, Turns, IsRegister, HasSettled, IsRegisterAgain};

/// Each sector is a register over a run, from the image's bytes on, and over the next run, whose discs have the same kind of layout,
/// from where the first one left it.
pub fn each_sector_is_a_register()
    ensures run { (image : List ℕ) (s t : State) (events : List AnsweredStep) (at : ℕ)
        → IsFirst image s → Run s events t → IsRegister image events at }
    ensures again { (image left : List ℕ) (s t u v : State) (events later : List AnsweredStep) (at : ℕ)
        → IsFirst image s → Run s events t → IsLeft t left → IsFirst left u → kind_of u ≡ kind_of t → Run u later v
        → IsRegisterAgain image events later at }
{}

/// What the register says, in a user's words. A write through the write cache that is answered Good settles the bytes that it sends;
/// what is settled stays so over all lines that do not write the sector, whatever fails and wherever the power is lost; and a read that
/// is answered Good shows it, and gives as many sectors as were asked for.
pub fn settled_bytes_are_shown()
    ensures settles { (at : ℕ) (r after : Register) (event : AnsweredStep) (lba n : ℕ) (fua : Bool)
        → Turn at r event.line event.payload event.reply event.data_in after → WasDone event (commands.Write lba n fua)
        → is_sector_among lba n at ≡ true → goes_through r lba n fua ≡ true
        → HasSettled after (bytes_of_sector lba event.payload at) }
    ensures stays { (at : ℕ) (bytes : List ℕ) (r after : Register) (events : List AnsweredStep)
        → Turns at r events after → LeaveSector at events → HasSettled r bytes → HasSettled after bytes }
    ensures shown { (at : ℕ) (r after : Register) (event : AnsweredStep) (lba n : ℕ) (bytes : List ℕ)
        → Turn at r event.line event.payload event.reply event.data_in after → WasDone event (commands.Read lba n)
        → is_sector_among lba n at ≡ true → HasSettled r bytes → bytes_of_sector lba event.data_in at ≡ bytes }
    ensures whole { (at : ℕ) (r after : Register) (event : AnsweredStep) (lba n : ℕ)
        → Turn at r event.line event.payload event.reply event.data_in after → WasDone event (commands.Read lba n)
        → length event.data_in ≡ 2048 * n }
{}

/// A sector never has other bytes than zeros, those that it might have at first, and those that a line sent to it: from the register
/// alone.
pub fn nothing_else_is_shown()
    ensures { (at : ℕ) (r after : Register) (events : List AnsweredStep) (found : List ℕ)
        → Turns at r events after → r.now ≡ None → after.now ≡ Some (Bytes found)
        → Contains (choices_after at events (zeros 2048 ∷ bytes_held r.falls)) found }
{}
