//! Laws of what is found of a record of the lead again, in this run or in another one, while of its copies one that is whole can be
//! read.

ghost use Rattle.std.specs.Prelude.{◌≡◌, List};
ghost use Rattle.model_geometry.specs.Geometry.{record_block};
ghost use Rattle.model_lists.specs.Records.{LeadRecord, IsRecordText};
ghost use Rattle.model_medium.specs.Cells.{Cell};
ghost use Rattle.model_copies.specs.Copies.{Settled};
ghost use Rattle.model_drive.specs.Shown.{Shown, IsKnown, cells_in};
ghost use Rattle.model_drive.specs.Records.{IsRecordOf, WritesRecord, ReadsRecord, StopsWritingRecord};
ghost use Rattle.model_stops.specs.declared.Stop.{Stop};
ghost use Rattle.model_mirror.specs.Found.{SomeCopy, OldOrNew, CopiesStay};

/// A record that was written, or read and mended, is what is found of it later, where no copy changed but that some have died.
///
/// # Clauses
///
/// - `written`: of the record that `lead_from` wrote.
/// - `mended`: of the one that `generation` found.
pub fn a_record_is_found_again()
    ensures written { (old new : Shown) (value found : LeadRecord) (later : List Cell) → IsKnown old
        → WritesRecord old new value → CopiesStay new.shape (cells_in new) later → SomeCopy new.shape later
        → IsRecordOf new.shape later found → found ≡ value }
    ensures mended { (old new : Shown) (value found : LeadRecord) (later : List Cell) → IsKnown old
        → ReadsRecord old new value → CopiesStay new.shape (cells_in new) later → SomeCopy new.shape later
        → IsRecordOf new.shape later found → found ≡ value }
{}

/// A writing of a record that was stopped leaves what is found as it was, or as it was to be.
pub fn a_stopped_record_is_old_or_new()
    ensures { (old new : Shown) (before value found : LeadRecord) (stop : Stop) (later : List Cell) → IsKnown old
        → new.shape ≡ old.shape → Settled IsRecordText (record_block old.shape) (cells_in old) before
        → StopsWritingRecord old new value stop → CopiesStay new.shape (cells_in new) later
        → SomeCopy new.shape later → IsRecordOf new.shape later found → OldOrNew before value found }
{}
