//! That the side that leads has the record with the greater number on its disc.

ghost use Rattle.std.specs.Prelude.{◌≡◌, ℕ, Bool, true, false};
ghost use Rattle.model_geometry.specs.Geometry.{Shape};
ghost use Rattle.model_sectors.specs.declared.ReadOut.{ReadOut};
ghost use Rattle.model_drive.specs.declared.WriteOut.{WriteOut};
ghost use Rattle.model_drive.specs.declared.FormatOut.{FormatOut};
ghost use Rattle.model_drive.specs.Shown.{IsKnown};
ghost use Rattle.model_mirror.specs.declared.MirrorPowerOut.{MirrorPowerOut};
ghost use Rattle.model_mirror.specs.declared.Resync.{Resync};
ghost use Rattle.model_mirror.specs.Shown.{MirrorShown};
ghost use Rattle.model_mirror.specs.Reads.{MirrorReadCause};
ghost use Rattle.model_mirror.specs.Writes.{MirrorWriteCause};
ghost use Rattle.model_mirror.specs.Whole.{MirrorFormatCause, ResyncCause};
ghost use Rattle.model_mirror.specs.Powers.{MirrorPowerCause};
ghost use Rattle.model_mirror_laws.specs.Kept.{AreSides};
ghost use Rattle.model_mirror_laws.specs.Bytes.{SidesAge};
ghost use Rattle.model_mirror_laws.specs.Ahead.{KnowsRecords, IsAhead, WakesWithCopies, CopiesLast, SideIsAhead};

/// What a mirror has noted of its records is true of their copies, from the beginning of a run, in each of its calls but the one that
/// gives the lead, and between two calls.
pub fn what_is_noted_of_the_records_is_true()
    ensures begins { (shown : MirrorShown) → IsKnown shown.lead → IsKnown shown.other → shown.on ≡ false
        → shown.who.by_hand ≡ false → shown.who.other.seen ≡ false → KnowsRecords shown }
    ensures power { (old new : MirrorShown) (out : MirrorPowerOut)
        → MirrorPowerCause old new out → KnowsRecords old → KnowsRecords new }
    ensures read { (shape : Shape) (old new : MirrorShown) → AreSides shape old
        → (lba n : ℕ) (out : ReadOut) → MirrorReadCause old new lba n out → KnowsRecords old → KnowsRecords new }
    ensures write { (shape : Shape) (old new : MirrorShown) → AreSides shape old
        → (lba n : ℕ) (out : WriteOut) → MirrorWriteCause old new lba n out
        → KnowsRecords old → KnowsRecords new }
    ensures format { (old new : MirrorShown) (out : FormatOut)
        → MirrorFormatCause old new out → KnowsRecords old → KnowsRecords new }
    ensures resync { (shape : Shape) (old new : MirrorShown) → AreSides shape old
        → (out : Resync) → ResyncCause old new out → KnowsRecords old → KnowsRecords new }
    ensures ages { (old new : MirrorShown) → SidesAge old new → KnowsRecords old → KnowsRecords new }
{}

/// While a mirror is on, each copy of its lead's record that can be read has a greater number than each of the other side's.
pub fn the_lead_is_ahead()
    ensures { (shown : MirrorShown) → KnowsRecords shown → shown.on ≡ true → IsAhead shown.lead shown.other }
{}

/// In another power on, also the first one of another run, the side whose record is ahead is ahead still, and no other leads: whatever
/// the order of the images. Of each record a copy has to last, and the side led before, where who leads is known.
pub fn the_side_that_is_ahead_leads_again()
    ensures { (old new : MirrorShown) (out : MirrorPowerOut)
        → (cause : MirrorPowerCause old new out) → WakesWithCopies old new out cause → KnowsRecords old
        → (on_a : Bool) → SideIsAhead on_a old → (old.who.known ≡ true → old.lead_is_a ≡ on_a)
        → SideIsAhead on_a new × (new.who.known ≡ true → new.lead_is_a ≡ on_a) }
{}

/// A copy of each record that could be read before a power on, and is not dead after it, was not dead when both sides woke in it.
pub fn a_copy_that_lasts_was_there_when_both_sides_woke()
    ensures { (old new : MirrorShown) (out : MirrorPowerOut) (cause : MirrorPowerCause old new out)
        → CopiesLast old new → WakesWithCopies old new out cause }
{}
