//! That a mirror counts what fails below it.

ghost use Rattle.std.specs.Prelude.{ℕ, Bool};
ghost use Rattle.model_sectors.specs.declared.ReadOut.TheVariants as reads;
ghost use Rattle.model_drive.specs.declared.WriteOut.TheVariants as writes;
ghost use Rattle.model_drive.specs.declared.FormatOut.TheVariants as formats;
ghost use Rattle.model_mirror.specs.declared.MirrorPowerOut.TheVariants as powers;
ghost use Rattle.model_mirror.specs.declared.Resync.TheVariants as resyncs;
ghost use Rattle.model_mirror.specs.declared.GiveOut.TheVariants as gives;
ghost use Rattle.model_mirror.specs.Shown.{MirrorShown};
ghost use Rattle.model_mirror.specs.Powers.{MirrorPowerCause};
ghost use Rattle.model_mirror.specs.Reads.{MirrorReadCause};
ghost use Rattle.model_mirror.specs.Writes.{MirrorWriteCause};
ghost use Rattle.model_mirror.specs.Whole.{MirrorFormatCause, ResyncCause};
ghost use Rattle.model_mirror.specs.Giving.{GiveLeadCause};
ghost use Rattle.model_mirror.specs.Sides.{OneFailed};

/// A call of a mirror that answers that something failed below it has counted it, for one of its sides.
pub fn a_fault_of_a_mirror_is_counted()
    ensures power { (old new : MirrorShown) → MirrorPowerCause old new powers.Fault → OneFailed old new }
    ensures read { (old new : MirrorShown) (lba n : ℕ)
        → MirrorReadCause old new lba n reads.Fault → OneFailed old new }
    ensures write { (old new : MirrorShown) (lba n : ℕ)
        → MirrorWriteCause old new lba n writes.Fault → OneFailed old new }
    ensures format { (old new : MirrorShown) → MirrorFormatCause old new formats.Fault → OneFailed old new }
    ensures resync { (old new : MirrorShown) → ResyncCause old new resyncs.Fault → OneFailed old new }
    ensures give_lead { (old new : MirrorShown) (to_a : Bool)
        → GiveLeadCause old new to_a gives.Fault → OneFailed old new }
{}
