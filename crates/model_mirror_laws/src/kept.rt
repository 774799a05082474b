//! That each call leaves both sides sound; and that the records of the lead are left by all calls but the power on, and the one that gives
//! the lead.

ghost use Rattle.std.specs.Prelude.{◌≡◌, ℕ, Bool};
ghost use Rattle.model_geometry.specs.Geometry.{Shape};
ghost use Rattle.model_sectors.specs.declared.ReadOut.{ReadOut};
ghost use Rattle.model_drive.specs.declared.WriteOut.{WriteOut};
ghost use Rattle.model_drive.specs.declared.FormatOut.{FormatOut};
ghost use Rattle.model_mirror.specs.declared.GiveOut.{GiveOut};
ghost use Rattle.model_mirror.specs.declared.MirrorPowerOut.{MirrorPowerOut};
ghost use Rattle.model_mirror.specs.declared.Resync.{Resync};
ghost use Rattle.model_mirror.specs.Shown.{MirrorShown};
ghost use Rattle.model_mirror.specs.Reads.{MirrorReadCause};
ghost use Rattle.model_mirror.specs.Writes.{MirrorWriteCause};
ghost use Rattle.model_mirror.specs.Whole.{MirrorFormatCause, ResyncCause};
ghost use Rattle.model_mirror.specs.Powers.{MirrorPowerCause};
ghost use Rattle.model_mirror.specs.Giving.{GiveLeadCause};
ghost use Rattle.model_mirror_laws.specs.Kept.{AreSides, KeepsRecords, LeavesRecords};

/// A read, a write, a format and a resynchronisation leave the copies of the records of both sides as they were, and what is noted of
/// them; only where the lead was stopped in a read or a write, that of the other side may have been written, which was to lead.
pub fn other_calls_leave_the_records()
    ensures read { (shape : Shape) (old new : MirrorShown) → AreSides shape old
        → (lba n : ℕ) (out : ReadOut) → MirrorReadCause old new lba n out → LeavesRecords old new }
    ensures write { (shape : Shape) (old new : MirrorShown) → AreSides shape old
        → (lba n : ℕ) (out : WriteOut) → MirrorWriteCause old new lba n out → LeavesRecords old new }
    ensures format { (old new : MirrorShown) (out : FormatOut)
        → MirrorFormatCause old new out → KeepsRecords old new }
    ensures resync { (shape : Shape) (old new : MirrorShown) → AreSides shape old
        → (out : Resync) → ResyncCause old new out → KeepsRecords old new }
{}

/// A call leaves the geometry of both sides as it was, and what they show sound.
pub fn a_call_leaves_both_sides_sound()
    ensures power { (shape : Shape) (old new : MirrorShown) → AreSides shape old
        → (out : MirrorPowerOut) → MirrorPowerCause old new out → AreSides shape new }
    ensures read { (shape : Shape) (old new : MirrorShown) → AreSides shape old
        → (lba n : ℕ) (out : ReadOut) → MirrorReadCause old new lba n out → AreSides shape new }
    ensures write { (shape : Shape) (old new : MirrorShown) → AreSides shape old
        → (lba n : ℕ) (out : WriteOut) → MirrorWriteCause old new lba n out → AreSides shape new }
    ensures format { (shape : Shape) (old new : MirrorShown) → AreSides shape old
        → (out : FormatOut) → MirrorFormatCause old new out → AreSides shape new }
    ensures resync { (shape : Shape) (old new : MirrorShown) → AreSides shape old
        → (out : Resync) → ResyncCause old new out → AreSides shape new }
    ensures give_lead { (shape : Shape) (old new : MirrorShown) → AreSides shape old
        → (to_a : Bool) (out : GiveOut) → GiveLeadCause old new to_a out → AreSides shape new }
{}
