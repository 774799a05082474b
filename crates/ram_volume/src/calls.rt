//! What each call of a host does, by the state that the drive is in.

ghost use Rattle.std.specs.Prelude.{◌≡◌, ◌*◌, ◌≤◌, length};
ghost use Rattle.model_commands.specs.declared.TheConstants.{TRANSFER_LIMIT};
ghost use Rattle.model_medium.specs.Happened.{Happened};
ghost use Rattle.model_drive.specs.Reads.{ReadCause, ReadCompletes, ReadIsQuiet, VerifyCause};
ghost use Rattle.model_drive.specs.Writes.{WriteCause, WriteCompletes};
ghost use Rattle.model_drive.specs.Power.{PowerCause};
ghost use Rattle.model_drive.specs.Formats.{FormatCause, FormatCompletes};
ghost use Rattle.model_drive.specs.Expands.{ExpandCause, ExpandCompletes};
ghost use Rattle.model_drive.specs.Records.{GenerationCause, LeadFromCause};
ghost use Rattle.ram_record.specs.Record.{record_of};
ghost use Rattle.ram_sectors.specs.declared.TheConstants.{VERIFY_LIMIT};
ghost use Rattle.ram_transfer.specs.Writing.{WriteSteps};
ghost use Rattle.ram_states.specs.Shown.{shown_off, shown_state, medium_under};
ghost use Rattle.ram_states.specs.Reading.{ReadSteps};
ghost use Rattle.ram_states.specs.Powers.{PowerSteps};
ghost use Rattle.ram_states.specs.Formats.{FormatSteps};
ghost use Rattle.ram_states.specs.Expanding.{ExpandSteps};
ghost use Rattle.ram_states.specs.Verifying.{VerifySteps};
ghost use Rattle.ram_states.specs.Records.{RecordSteps};
ghost use Rattle.ram_volume.specs.Volume.{StandsForSome};

use ram_medium::MediumControl;
use ram_record::LeadRecord;
use ram_sectors::{ExpandOut, FormatOut, Kind, PowerOut, ReadOut, RecordOut, WriteOut};
use ram_states::{PowerOn, PoweredOff, State};

/// Reads sectors, where there is a formatted disc.
pub fn read_state<M: MediumControl>(
    state: State<M>,
    lba: u32,
    n: u32,
    into: &mut [u8],
) -> (State<M>, ReadOut)
    requires few { n ≤ TRANSFER_LIMIT }
    requires whole { length into.old ≡ 2048 * n }
    ensures cause { ReadCause (shown_state state) (shown_state result.0) lba n result.1 }
    ensures step { ReadSteps (shown_state state) (shown_state result.0) lba n into.new result.1 }
    ensures some { StandsForSome (shown_state state) → StandsForSome (shown_state result.0) }
    ensures completes { ReadCompletes (shown_state state) (shown_state result.0) lba n result.1 }
    ensures quiet { ReadIsQuiet (shown_state state) (shown_state result.0) lba n result.1 }
    ensures same_shape { (shown_state result.0).shape ≡ (shown_state state).shape }
    ensures happened { Happened M.takes (medium_under state) (medium_under result.0) }
{
    match state {
        State::Off(off) => (State::Off(off), ReadOut::Off),
        State::Ready(ready) => ready.read(lba, n, into),
        State::NotFormatted(bare) => (State::NotFormatted(bare), ReadOut::NotFormatted),
    }
}

/// Writes sectors, where there is a formatted disc.
pub fn write_state<M: MediumControl>(
    state: State<M>,
    lba: u32,
    n: u32,
    from: &[u8],
) -> (State<M>, WriteOut)
    requires few { n ≤ TRANSFER_LIMIT }
    requires whole { length from.now ≡ 2048 * n }
    ensures cause { WriteCause (shown_state state) (shown_state result.0) lba n result.1 }
    ensures step { WriteSteps (shown_state state) (shown_state result.0) lba n from.now result.1 }
    ensures some { StandsForSome (shown_state state) → StandsForSome (shown_state result.0) }
    ensures completes { WriteCompletes (shown_state state) (shown_state result.0) lba n result.1 }
    ensures same_shape { (shown_state result.0).shape ≡ (shown_state state).shape }
    ensures happened { Happened M.takes (medium_under state) (medium_under result.0) }
{
    match state {
        State::Off(off) => (State::Off(off), WriteOut::Off),
        State::Ready(ready) => ready.write(lba, n, from),
        State::NotFormatted(bare) => (State::NotFormatted(bare), WriteOut::NotFormatted),
    }
}

/// Turns the power on.
fn turn_on<M: MediumControl>(off: PoweredOff<M>) -> (State<M>, PowerOut)
    ensures cause { PowerCause (shown_off off) (shown_state result.0) result.1 }
    ensures step { PowerSteps (shown_off off) (shown_state result.0) result.1 }
    ensures same_shape { (shown_state result.0).shape ≡ off.geometry }
    ensures happened { Happened M.takes off.medium (medium_under result.0) }
{
    match off.power_on() {
        PowerOn::Ready(ready) => {
            let capacity = ready.capacity();
            (State::Ready(ready), PowerOut::Ready { capacity })
        }
        PowerOn::NotFormatted(bare) => (State::NotFormatted(bare), PowerOut::NotFormatted),
        PowerOn::Cut(off) => (State::Off(off), PowerOut::Cut),
        PowerOn::Fault(off) => (State::Off(off), PowerOut::Fault),
    }
}

/// Turns the power off and on again.
pub fn power_state<M: MediumControl>(state: State<M>) -> (State<M>, PowerOut)
    ensures cause { PowerCause (shown_state state) (shown_state result.0) result.1 }
    ensures step { PowerSteps (shown_state state) (shown_state result.0) result.1 }
    ensures some { StandsForSome (shown_state state) → StandsForSome (shown_state result.0) }
    ensures same_shape { (shown_state result.0).shape ≡ (shown_state state).shape }
    ensures happened { Happened M.takes (medium_under state) (medium_under result.0) }
{
    match state {
        State::Off(off) => turn_on(off),
        State::Ready(ready) => turn_on(ready.power_off()),
        State::NotFormatted(bare) => turn_on(bare.power_off()),
    }
}

/// Formats the disc, where the power is on.
pub fn format_state<M: MediumControl>(state: State<M>, kind: Kind) -> (State<M>, FormatOut)
    ensures cause { FormatCause (shown_state state) (shown_state result.0) kind result.1 }
    ensures step { FormatSteps (shown_state state) (shown_state result.0) kind result.1 }
    ensures some { StandsForSome (shown_state state) → StandsForSome (shown_state result.0) }
    ensures completes { FormatCompletes (shown_state state) (shown_state result.0) kind result.1 }
    ensures same_shape { (shown_state result.0).shape ≡ (shown_state state).shape }
    ensures happened { Happened M.takes (medium_under state) (medium_under result.0) }
{
    match state {
        State::Off(off) => (State::Off(off), FormatOut::Off),
        State::Ready(ready) => ready.format(kind),
        State::NotFormatted(bare) => bare.format(kind),
    }
}

/// Verifies sectors, where there is a formatted disc.
pub fn verify_state<M: MediumControl>(state: State<M>, lba: u32, n: u32) -> (State<M>, ReadOut)
    requires few { n ≤ VERIFY_LIMIT }
    ensures cause { VerifyCause (shown_state state) (shown_state result.0) lba n result.1 }
    ensures step { VerifySteps (shown_state state) (shown_state result.0) result.1 }
    ensures some { StandsForSome (shown_state state) → StandsForSome (shown_state result.0) }
    ensures completes { ReadCompletes (shown_state state) (shown_state result.0) lba n result.1 }
    ensures same_shape { (shown_state result.0).shape ≡ (shown_state state).shape }
    ensures happened { Happened M.takes (medium_under state) (medium_under result.0) }
{
    match state {
        State::Off(off) => (State::Off(off), ReadOut::Off),
        State::Ready(ready) => ready.verify(lba, n),
        State::NotFormatted(bare) => (State::NotFormatted(bare), ReadOut::NotFormatted),
    }
}

/// Gives the disc a capacity of n sectors, where there is a formatted disc.
pub fn expand_state<M: MediumControl>(state: State<M>, capacity: u32) -> (State<M>, ExpandOut)
    ensures cause { ExpandCause (shown_state state) (shown_state result.0) capacity result.1 }
    ensures step { ExpandSteps (shown_state state) (shown_state result.0) capacity result.1 }
    ensures some { StandsForSome (shown_state state) → StandsForSome (shown_state result.0) }
    ensures completes { ExpandCompletes (shown_state state) (shown_state result.0) capacity result.1 }
    ensures same_shape { (shown_state result.0).shape ≡ (shown_state state).shape }
    ensures happened { Happened M.takes (medium_under state) (medium_under result.0) }
{
    match state {
        State::Off(off) => (State::Off(off), ExpandOut::Off),
        State::Ready(ready) => ready.expand(capacity),
        State::NotFormatted(bare) => (State::NotFormatted(bare), ExpandOut::NotFormatted),
    }
}

/// Reads the record of the lead, where the power is on.
pub fn generation_state<M: MediumControl>(
    state: State<M>,
    best: &mut LeadRecord,
    other: &mut LeadRecord,
) -> (State<M>, RecordOut)
    ensures cause { GenerationCause (shown_state state) (shown_state result.0) (record_of best.new) result.1 }
    ensures step { RecordSteps (shown_state state) (shown_state result.0) result.1 }
    ensures some { StandsForSome (shown_state state) → StandsForSome (shown_state result.0) }
    ensures same_shape { (shown_state result.0).shape ≡ (shown_state state).shape }
    ensures happened { Happened M.takes (medium_under state) (medium_under result.0) }
{
    match state {
        State::Off(off) => (State::Off(off), RecordOut::Off),
        State::Ready(ready) => ready.generation(best, other),
        State::NotFormatted(bare) => bare.generation(best, other),
    }
}

/// Writes the record of the lead, where the power is on.
pub fn lead_state<M: MediumControl>(state: State<M>, value: &LeadRecord) -> (State<M>, RecordOut)
    ensures cause { LeadFromCause (shown_state state) (shown_state result.0) (record_of value.now) result.1 }
    ensures step { RecordSteps (shown_state state) (shown_state result.0) result.1 }
    ensures some { StandsForSome (shown_state state) → StandsForSome (shown_state result.0) }
    ensures same_shape { (shown_state result.0).shape ≡ (shown_state state).shape }
    ensures happened { Happened M.takes (medium_under state) (medium_under result.0) }
{
    match state {
        State::Off(off) => (State::Off(off), RecordOut::Off),
        State::Ready(ready) => ready.lead_from(value),
        State::NotFormatted(bare) => bare.lead_from(value),
    }
}
