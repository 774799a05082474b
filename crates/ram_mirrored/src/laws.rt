//! Laws of runs of a mirror, by their scripts and reports alone: each sector is a register, which shows its bytes.
ghost use Rattle.std.specs.Prelude.{◌≡◌, ℕ, ◌*◌, true, Option, List, length};
ghost use Rattle.ram_report.specs.declared.printing.MirrorEvent.TheVariants as mirrors;
ghost use Rattle.ram_text.specs.declared.mirror.MirrorLine.TheVariants as lines;
ghost use Rattle.ram_machine.specs.SectorBytes.{bytes_of_sector, is_sector_among};
ghost use Rattle.ram_machine.specs.declared.status.Status.{Status};
ghost use Rattle.ram_script.specs.RunCounts.{Counts};
ghost use Rattle.ram_answers.specs.Reports.{Heard};
ghost use Rattle.ram_pair.specs.declared.told.Told.TheVariants as told;
ghost use Rattle.ram_mirrored.specs.MirrorRuns.{MirrorBeginning, MirrorStandsWith};
ghost use Rattle.ram_mirrored.specs.MirrorRegister.{MirrorRegister, MirrorAnswered, MirrorTurn, MirrorTurns};
ghost use Rattle.ram_mirrored.specs.MirrorSettled.{HasSettledOn, KeepSector};
ghost use Rattle.ram_mirrored.specs.MirrorPromise.{KeepsPair};

/// Whatever status a run of a mirror has, each sector is a register over the lines that were answered.
pub fn each_sector_of_a_mirror_is_a_register()
    ensures { (first : MirrorBeginning) (heard : Heard) (a b : Option (List ℕ)) (old new : Counts) (status : Status)
        → MirrorStandsWith first heard a b old new status
        → KeepsPair first.script first.report first.images heard.written }
{}

/// What the register says, in a user's words. A write that is answered `good` settles the bytes that it sends; what is settled stays so over
/// all lines that do not write the sector, whichever side fails and wherever its power is cut, as long as no lead is given by hand and no line
/// is answered `unknown`; and a read that is answered `good` shows it, and gives as many sectors as were asked for.
pub fn what_a_mirror_acknowledged_is_shown()
    ensures settles { (at : ℕ) (r after : MirrorRegister) (event : MirrorAnswered) (lba n : ℕ)
        → MirrorTurn at r event.line event.payload event.told event.bytes after → event.line ≡ lines.Write lba n
        → event.told ≡ told.Event mirrors.Good → is_sector_among lba n at ≡ true
        → HasSettledOn after (bytes_of_sector lba event.payload at) }
    ensures stays { (at : ℕ) (bytes : List ℕ) (r after : MirrorRegister) (events : List MirrorAnswered)
        → MirrorTurns at r events after → KeepSector at events → HasSettledOn r bytes → HasSettledOn after bytes }
    ensures shown { (at : ℕ) (r after : MirrorRegister) (event : MirrorAnswered) (lba n first : ℕ) (bytes : List ℕ)
        → MirrorTurn at r event.line event.payload event.told event.bytes after → event.line ≡ lines.Read lba n
        → event.told ≡ told.Event (mirrors.Shows first) → is_sector_among lba n at ≡ true
        → HasSettledOn r bytes → bytes_of_sector lba event.bytes at ≡ bytes }
    ensures whole { (at : ℕ) (r after : MirrorRegister) (event : MirrorAnswered) (lba n first : ℕ)
        → MirrorTurn at r event.line event.payload event.told event.bytes after → event.line ≡ lines.Read lba n
        → event.told ≡ told.Event (mirrors.Shows first) → length event.bytes ≡ 2048 * n }
{}
