//! The record of the lead, which each disc of a mirror has, formatted or not: it is chosen and repaired, or written.

ghost use Rattle.std.specs.Prelude.{◌≡◌, IsTrue, MatchResult};
ghost use Rattle.model_geometry.specs.Geometry.{total};
ghost use Rattle.model_medium.specs.Happened.{Happened};
ghost use Rattle.model_drive.specs.Records.{GenerationCause, LeadFromCause};
ghost use Rattle.ram_record.specs.Record.{record_of};
ghost use Rattle.ram_states.specs.Records.{IsMended, HasMended, StopsMending, out_for, RecordSteps};
ghost use Rattle.ram_states.specs.Shown.{shown_bare, shown_ready, shown_state, medium_under};

use crate::states::{NotFormatted, Ready, State};
use crate::stops::stopped;
use ram_copies::{Accept, Purpose, Scratch, look_at_copies, put_copies};
use ram_medium::{Medium, MediumControl, Stop};
use ram_record::LeadRecord;
use ram_sectors::RecordOut;
use ram_zones::Geometry;

/// Accepts every record.
#[derive(Clone, Copy)]
struct AnyRecord {}

impl Accept<LeadRecord> for AnyRecord {
    ghost use Rattle.ram_states.specs.Records.{AcceptsAny};

    ghost accepted = { λ s v. AcceptsAny v };

    fn accepts(&self, _value: &LeadRecord) -> bool {
        true
    }
}

/// Makes it the first record, where none was chosen.
fn mend_none(area: Option<u32>, best: &mut LeadRecord)
    ensures { IsMended area (record_of best.old) (record_of best.new) }
{
    match area {
        None => best.clear(),
        Some(_area) => {}
    }
}

/// Chooses the record among its copies, or takes the first one, and repairs them to it. How many of them can be read.
fn mend_record<M: Medium>(
    medium: &mut M,
    geometry: &Geometry,
    best: &mut LeadRecord,
    other: &mut LeadRecord,
    scratch: &mut Scratch,
) -> Result<u32, Stop>
    requires size { M.block_count medium.old ≡ total geometry.now }
    requires on { IsTrue (M.world medium.old).power }
    ensures rule { MatchResult result
        (HasMended M.world M.reaches geometry.now medium.old medium.new (record_of best.new))
        (StopsMending M.world M.reaches geometry.now medium.old medium.new) }
    ensures as_many { M.block_count medium.new ≡ M.block_count medium.old }
{
    let any = AnyRecord {};
    let choice = look_at_copies::<LeadRecord, M, AnyRecord>(
        medium, geometry, &any, best, other, scratch,
    )?;
    mend_none(choice.area, best);
    best.is_lawful();
    put_copies(medium, geometry, &*best, Purpose::Repair, scratch)
}

/// The answer for how many copies can be read.
fn out_for(readable: u32) -> RecordOut
    ensures { result ≡ out_for readable }
{
    match readable {
        0 => RecordOut::Lost,
        _ => RecordOut::Good,
    }
}

impl<M: MediumControl> Ready<M> {
    /// Reads the record of the lead, as `Disc::generation` says. The disc and its lists stay, and so does the buffer.
    ///
    /// # Clauses
    ///
    /// - `happened`: nothing but events happened to its medium in between, whatever the answer (`Happened` of `model_medium`).
    ///
    /// # Answers
    ///
    /// As for `Disc::generation`.
    pub fn generation(self, best: &mut LeadRecord, other: &mut LeadRecord) -> (State<M>, RecordOut)
        ensures cause { GenerationCause (shown_ready self) (shown_state result.0) (record_of best.new) result.1 }
        ensures step { RecordSteps (shown_ready self) (shown_state result.0) result.1 }
        ensures same_shape { (shown_state result.0).shape ≡ self.geometry }
        ensures happened { Happened M.takes self.medium (medium_under result.0) }
    {
        let Ready {
            mut medium,
            geometry,
            mut memory,
        } = self;
        let scratch = &mut memory.workspace.scratch;
        match mend_record(&mut medium, &geometry, best, other, scratch) {
            Ok(readable) => {
                let ready = Ready {
                    medium,
                    geometry,
                    memory,
                };
                (State::Ready(ready), out_for(readable))
            }
            Err(stop) => stopped(medium, geometry, memory, stop),
        }
    }

    /// Writes the record of the lead, as `Disc::lead_from` says. The disc and its lists stay, and so does the buffer.
    ///
    /// # Clauses
    ///
    /// - `happened`: nothing but events happened to its medium in between, whatever the answer (`Happened` of `model_medium`).
    ///
    /// # Answers
    ///
    /// As for `Disc::lead_from`.
    pub fn lead_from(self, value: &LeadRecord) -> (State<M>, RecordOut)
        ensures cause { LeadFromCause (shown_ready self) (shown_state result.0) (record_of value.now) result.1 }
        ensures step { RecordSteps (shown_ready self) (shown_state result.0) result.1 }
        ensures same_shape { (shown_state result.0).shape ≡ self.geometry }
        ensures happened { Happened M.takes self.medium (medium_under result.0) }
    {
        let Ready {
            mut medium,
            geometry,
            mut memory,
        } = self;
        value.is_lawful();
        let scratch = &mut memory.workspace.scratch;
        match put_copies(&mut medium, &geometry, value, Purpose::Update, scratch) {
            Ok(readable) => {
                let ready = Ready {
                    medium,
                    geometry,
                    memory,
                };
                (State::Ready(ready), out_for(readable))
            }
            Err(stop) => stopped(medium, geometry, memory, stop),
        }
    }
}

impl<M: MediumControl> NotFormatted<M> {
    /// Reads the record of the lead, as `Disc::generation` says. The disc stays as it is, not formatted.
    ///
    /// # Clauses
    ///
    /// - `happened`: nothing but events happened to its medium in between, whatever the answer (`Happened` of `model_medium`).
    ///
    /// # Answers
    ///
    /// As for `Disc::generation`.
    pub fn generation(self, best: &mut LeadRecord, other: &mut LeadRecord) -> (State<M>, RecordOut)
        ensures cause { GenerationCause (shown_bare self) (shown_state result.0) (record_of best.new) result.1 }
        ensures step { RecordSteps (shown_bare self) (shown_state result.0) result.1 }
        ensures same_shape { (shown_state result.0).shape ≡ self.geometry }
        ensures happened { Happened M.takes self.medium (medium_under result.0) }
    {
        let NotFormatted {
            mut medium,
            geometry,
            mark,
            mut memory,
        } = self;
        let scratch = &mut memory.workspace.scratch;
        match mend_record(&mut medium, &geometry, best, other, scratch) {
            Ok(readable) => {
                let bare = NotFormatted {
                    medium,
                    geometry,
                    mark,
                    memory,
                };
                (State::NotFormatted(bare), out_for(readable))
            }
            Err(stop) => stopped(medium, geometry, memory, stop),
        }
    }

    /// Writes the record of the lead, as `Disc::lead_from` says. The disc stays as it is, not formatted.
    ///
    /// # Clauses
    ///
    /// - `happened`: nothing but events happened to its medium in between, whatever the answer (`Happened` of `model_medium`).
    ///
    /// # Answers
    ///
    /// As for `Disc::lead_from`.
    pub fn lead_from(self, value: &LeadRecord) -> (State<M>, RecordOut)
        ensures cause { LeadFromCause (shown_bare self) (shown_state result.0) (record_of value.now) result.1 }
        ensures step { RecordSteps (shown_bare self) (shown_state result.0) result.1 }
        ensures same_shape { (shown_state result.0).shape ≡ self.geometry }
        ensures happened { Happened M.takes self.medium (medium_under result.0) }
    {
        let NotFormatted {
            mut medium,
            geometry,
            mark,
            mut memory,
        } = self;
        value.is_lawful();
        let scratch = &mut memory.workspace.scratch;
        match put_copies(&mut medium, &geometry, value, Purpose::Update, scratch) {
            Ok(readable) => {
                let bare = NotFormatted {
                    medium,
                    geometry,
                    mark,
                    memory,
                };
                (State::NotFormatted(bare), out_for(readable))
            }
            Err(stop) => stopped(medium, geometry, memory, stop),
        }
    }
}
