//! That what was written is there in another run, whichever image comes first.

ghost use Rattle.std.specs.Prelude.{◌≡◌, ◌⊎◌, ℕ, ◌+◌, ◌-◌, ◌*◌, ◌≤◌, Bool, true, List, length, take, drop};
ghost use Rattle.model_geometry.specs.Geometry.{Shape};
ghost use Rattle.model_mirror.specs.declared.MirrorPowerOut.{MirrorPowerOut};
ghost use Rattle.model_sectors.specs.declared.ReadOut.{ReadOut};
ghost use Rattle.model_sectors.specs.declared.ReadOut.TheVariants as reads;
ghost use Rattle.model_drive.specs.declared.WriteOut.{WriteOut};
ghost use Rattle.model_drive.specs.declared.WriteOut.TheVariants as writes;
ghost use Rattle.model_drive.specs.declared.FormatOut.{FormatOut};
ghost use Rattle.model_drive.specs.declared.Kind.TheVariants as kinds;
ghost use Rattle.model_drive.specs.Formats.{FormatStep};
ghost use Rattle.model_drive.specs.Reads.{ReadStep};
ghost use Rattle.model_drive.specs.Writes.{WriteStep};
ghost use Rattle.model_mirror.specs.declared.Resync.{Resync};
ghost use Rattle.model_mirror.specs.Steps.{ResyncStep};
ghost use Rattle.model_mirror.specs.Whole.{MirrorFormatCause, ResyncCause};
ghost use Rattle.model_mirror.specs.Reads.{MirrorReadCause};
ghost use Rattle.model_mirror.specs.Writes.{MirrorWriteCause};
ghost use Rattle.model_mirror.specs.Shown.{MirrorShown};
ghost use Rattle.model_mirror.specs.Powers.{MirrorPowerCause};
ghost use Rattle.model_mirror.specs.Standing.{MayBe};
ghost use Rattle.model_mirror_laws.specs.Kept.{AreSides};
ghost use Rattle.model_mirror_laws.specs.Ahead.{KnowsRecords, WakesWithCopies};
ghost use Rattle.model_mirror_laws.specs.Bytes.{ComesSo, PowersSo, IsKept, SidesAge, BeginsAgain};
ghost use Rattle.model_mirror_laws.specs.Runs.{IsRefusedFormat, StepsOfRuns};
ghost use Rattle.model_sectors.specs.Discs.{Standing};

/// A sector that is kept by a side is kept still after the power of both went off and on again, and where the mirror is on then, it shows
/// the sector; also in the first power on of another run, in either order of the images. Of each record a copy has to last.
pub fn a_kept_sector_comes_again()
    ensures power { (old new : MirrorShown) (out : MirrorPowerOut)
        → (cause : MirrorPowerCause old new out) → WakesWithCopies old new out cause → PowersSo old new out
        → KnowsRecords old
        → (at : ℕ) (bytes : List ℕ) → IsKept at bytes old → IsKept at bytes new }
    ensures begins { (turned : Bool) (old new : MirrorShown) → BeginsAgain turned old new
        → (at : ℕ) (bytes : List ℕ) → IsKept at bytes old → IsKept at bytes new }
{}

/// A read, a resynchronisation, and a write of other sectors leave a sector kept, however they end, and a format where it was refused;
/// and so does what happens to a side between two calls, where cells die, or a later death or cut is armed.
pub fn a_kept_sector_stays()
    ensures read { (shape : Shape) (old new : MirrorShown) → AreSides shape old
        → (lba n : ℕ) (into : List ℕ) (out : ReadOut) → MirrorReadCause old new lba n out
        → ComesSo old new (λ s t. ReadStep (λ x. x ≡ t) s lba n into out) → KnowsRecords old
        → (at : ℕ) (bytes : List ℕ) → IsKept at bytes old → IsKept at bytes new }
    ensures resync { (shape : Shape) (old new : MirrorShown) → AreSides shape old → (out : Resync)
        → ResyncCause old new out → ComesSo old new (λ s t. ResyncStep (λ x. x ≡ t) s out)
        → KnowsRecords old → (at : ℕ) (bytes : List ℕ) → IsKept at bytes old → IsKept at bytes new }
    ensures write { (shape : Shape) (old new : MirrorShown) → AreSides shape old
        → (lba n : ℕ) (payload : List ℕ) → length payload ≡ 2048 * n → (out : WriteOut)
        → MirrorWriteCause old new lba n out
        → ComesSo old new (λ s t. WriteStep new.lead (λ x. x ≡ t) s lba n payload out) → KnowsRecords old
        → (at : ℕ) (bytes : List ℕ) → (at + 1 ≤ lba) ⊎ (lba + n ≤ at)
        → IsKept at bytes old → IsKept at bytes new }
    ensures format { (old new : MirrorShown) (out : FormatOut) → IsRefusedFormat out → MirrorFormatCause old new out
        → ComesSo old new (λ s t. FormatStep old.lead new.lead (λ x. x ≡ t) s (kinds.Full true) out)
        → KnowsRecords old → (at : ℕ) (bytes : List ℕ) → IsKept at bytes old → IsKept at bytes new }
    ensures ages { (old new : MirrorShown) → SidesAge old new
        → (at : ℕ) (bytes : List ℕ) → IsKept at bytes old → IsKept at bytes new }
{}

/// A read of a sector that is kept shows it, or does not answer that it was good.
pub fn a_kept_sector_is_shown()
    ensures { (old new : MirrorShown) (at : ℕ) (bytes into : List ℕ) → length into ≡ 2048
        → MirrorReadCause old new at 1 reads.Good
        → ComesSo old new (λ s t. ReadStep (λ x. x ≡ t) s at 1 into reads.Good)
        → IsKept at bytes old → into ≡ bytes }
{}

/// A sector that was written, where the write was good, is kept with its bytes.
pub fn a_written_sector_is_kept()
    ensures { (shape : Shape) (old new : MirrorShown) → AreSides shape old
        → (lba n : ℕ) (payload : List ℕ) → length payload ≡ 2048 * n
        → (at : ℕ) → lba ≤ at → at + 1 ≤ lba + n → MirrorWriteCause old new lba n writes.Good
        → ComesSo old new (λ s t. WriteStep new.lead (λ x. x ≡ t) s lba n payload writes.Good)
        → KnowsRecords old → (s : Standing) → MayBe old s
        → IsKept at (take 2048 (drop (2048 * (at - lba)) payload)) new }
{}

/// Over runs of a mirror on the same two discs, which nothing else writes in between, in which no disc is made anew, no format is good or
/// stopped, and the lead is not given by hand: a sector that is kept, and not written since, is kept still, whatever the order of the images, however
/// often a run begins, and wherever the power of a side is cut in a call, while of each record one copy lasts in each power on.
pub fn a_sector_is_kept_over_runs()
    ensures { (shape : Shape) (at : ℕ) (bytes : List ℕ) (old new : MirrorShown) (steps : ℕ)
        → AreSides shape old → KnowsRecords old → IsKept at bytes old → StepsOfRuns at old new steps
        → AreSides shape new × KnowsRecords new × IsKept at bytes new }
{}
