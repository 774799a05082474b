//! How a call ends that was stopped: the power is off, what memory holds does not matter any more, and the outcome tells why.

ghost use Rattle.std.specs.Prelude.{◌≡◌, IsTrue};
ghost use Rattle.model_geometry.specs.Geometry.{total};
ghost use Rattle.model_stops.specs.declared.Stop.{Stop};
ghost use Rattle.ram_medium.specs.Laws.{machine_shown};
ghost use Rattle.ram_groups.specs.Layouts.{IsOfKind};
ghost use Rattle.ram_transfer.specs.Shown.{shown_without};
ghost use Rattle.ram_transfer.specs.Stopped.{read_stopped_by, write_stopped_by, format_stopped_by, expand_stopped_by, record_stopped_by};
ghost use Rattle.ram_states.specs.Shown.{shown_state, medium_under};

use crate::states::{PoweredOff, State};
use model_drive::{ExpandOut, FormatOut, RecordOut, WriteOut};
use model_sectors::ReadOut;
use ram_medium::{MediumControl, Stop};
use ram_transfer::Memory;
use ram_zones::Geometry;

/// The outcome of a call that may be stopped.
pub trait StoppableOut {
    /// The outcome of a call that was stopped for this cause.
    ghost stopped_by: { Stop → Self };

    /// The outcome of a call that was stopped for this cause.
    fn stopped_by(stop: Stop) -> Self
        ensures { result ≡ stopped_by stop };
}

impl StoppableOut for ReadOut {
    ghost stopped_by = { read_stopped_by };

    fn stopped_by(stop: Stop) -> ReadOut {
        match stop {
            Stop::Cut => ReadOut::Cut,
            Stop::Off => ReadOut::Off,
            Stop::Fault => ReadOut::Fault,
        }
    }
}

impl StoppableOut for WriteOut {
    ghost stopped_by = { write_stopped_by };

    fn stopped_by(stop: Stop) -> WriteOut {
        match stop {
            Stop::Cut => WriteOut::Cut,
            Stop::Off => WriteOut::Off,
            Stop::Fault => WriteOut::Fault,
        }
    }
}

impl StoppableOut for FormatOut {
    ghost stopped_by = { format_stopped_by };

    fn stopped_by(stop: Stop) -> FormatOut {
        match stop {
            Stop::Cut => FormatOut::Cut,
            Stop::Off => FormatOut::Off,
            Stop::Fault => FormatOut::Fault,
        }
    }
}

impl StoppableOut for ExpandOut {
    ghost stopped_by = { expand_stopped_by };

    fn stopped_by(stop: Stop) -> ExpandOut {
        match stop {
            Stop::Cut => ExpandOut::Cut,
            Stop::Off => ExpandOut::Off,
            Stop::Fault => ExpandOut::Fault,
        }
    }
}

impl StoppableOut for RecordOut {
    ghost stopped_by = { record_stopped_by };

    fn stopped_by(stop: Stop) -> RecordOut {
        match stop {
            Stop::Cut => RecordOut::Cut,
            Stop::Off => RecordOut::Off,
            Stop::Fault => RecordOut::Fault,
        }
    }
}

/// The drive of a call that was stopped, with its power off, and the outcome of the call.
pub fn stopped<M: MediumControl, O: StoppableOut>(
    medium: M,
    geometry: Geometry,
    memory: Memory,
    stop: Stop,
) -> (State<M>, O)
    requires size { M.block_count medium ≡ total geometry }
    requires off { ¬ IsTrue (M.world medium).power }
    requires kind { IsOfKind geometry.layout memory.workspace.layout }
    ensures state { shown_state result.0 ≡ shown_without geometry (machine_shown M.world M.arms M.armed_cut medium) }
    ensures medium { medium_under result.0 ≡ medium }
    ensures out { result.1 ≡ O.stopped_by stop }
{
    let off = PoweredOff {
        medium,
        geometry,
        memory,
    };
    (State::Off(off), O::stopped_by(stop))
}
