//! The drive that a host calls, and that a run works on.

ghost use Rattle.std.specs.Prelude.{IsSome};
ghost use Rattle.std.proofs.Props.{props};
ghost use Rattle.ram_volume.specs.Volume.{StandsForSome, shown_in};

use crate::calls::{
    expand_state, format_state, generation_state, lead_state, power_state, read_state,
    verify_state, write_state,
};
use crate::holding::{put_in, take_out};
use ram_bytes::Block;
use ram_medium::{Arm, FailEnd, Fate, MediumControl, SyncEnd};
use ram_record::LeadRecord;
use ram_sectors::{
    Disc, DriveCounts, ExpandOut, FormatOut, Kind, PowerOut, ReadOut, RecordOut, Sectors, WriteOut,
};
use ram_states::{PoweredOff, State};
use ram_transfer::Memory;
use ram_zones::Geometry;

/// A drive over its medium, in one of its states. Where the cells of its medium are known it stands for a disc, or with the
/// power off for some. It holds its state between two calls: a call takes it, and leaves the next.
#[derive(Drop)]
pub struct Volume<M: MediumControl> {
    state: Option<State<M>>,
    ghost held: { IsSome state } by { Prim.hlevel props },
    ghost some: { StandsForSome (shown_in state held) } by { Prim.hlevel props },
}

impl<M: MediumControl> Volume<M> {
    ghost use Rattle.std.specs.Prelude.{◌≡◌, ◌≤◌, IsTrue};
    ghost use Rattle.model_geometry.specs.Geometry.{total};
    ghost use Rattle.model_sectors.specs.Discs.{Standing};
    ghost use Rattle.model_drive.specs.Shown.{StandsFor};
    ghost use Rattle.ram_medium.specs.Laws.{machine_shown};
    ghost use Rattle.ram_medium.specs.Control.{Fails, Arms, Syncs, WearRule, with_armed_cut};
    ghost use Rattle.ram_groups.specs.Layouts.{IsOfKind};
    ghost use Rattle.ram_transfer.specs.Shown.{shown_without};
    ghost use Rattle.ram_volume.specs.Drives.{shown_by, medium_by};
    ghost use Rattle.ram_states.specs.Control.{FailOnDrive, FailStands, KeepsMemory, SyncOnDrive, SyncStands};

    /// A drive of this geometry over its medium, with its power off. It works in this memory, whatever that holds, and takes no
    /// other.
    ///
    /// # Clauses
    ///
    /// - `shown`, `medium`: it shows the geometry and the medium, with its power off and nothing kept, whatever the memory holds
    ///   in which it is to work; and it holds that medium. The memory has room for the layout of any disc of the geometry.
    pub fn new(medium: M, geometry: Geometry, memory: Memory) -> Volume<M>
        requires size { M.block_count medium ≡ total geometry }
        requires off { ¬ IsTrue (M.world medium).power }
        requires kind { IsOfKind geometry.layout memory.workspace.layout }
        ensures shown { shown_by result ≡ shown_without geometry (machine_shown M.world M.arms M.armed_cut medium) }
        ensures medium { medium_by result ≡ medium }
    {
        Volume {
            state: Some(State::Off(PoweredOff::new(medium, geometry, memory))),
        }
    }

    /// Makes the block of the medium of this number, counted from 0, dead, with the power on or off. Where what the medium
    /// lies on failed, the power is off, nothing is kept in memory, and the disc is a candidate.
    ///
    /// # Clauses
    ///
    /// - `rule`, `stands`, `keeps`, `told`: as those of its state.
    ///
    /// # Answers
    ///
    /// As for `State::fail`.
    pub fn fail(&mut self, block: u32) -> FailEnd
        ensures rule { FailOnDrive (shown_by self.old) (shown_by self.new) block result }
        ensures told { M.was_told (medium_by self.old) (medium_by self.new) (Fails block result) }
        ensures stands { (s : Standing) → StandsFor (shown_by self.old) s → FailStands (shown_by self.new) s result }
    {
        let state = take_out(&mut self.state);
        let (state, end) = state.fail(block);
        put_in(&mut self.state, state);
        end
    }

    /// Makes a block of the medium dead at its `n`-th use from now on: 1 is the next.
    ///
    /// # Clauses
    ///
    /// - `rule`, `stands`, `keeps`, `told`: as those of its state.
    ///
    /// # Answers
    ///
    /// As for `State::wear`.
    pub fn wear(&mut self, block: u32, n: u32) -> Arm
        requires { 1 ≤ n }
        ensures rule { WearRule (total (shown_by self.old).shape) (shown_by self.old).medium
            (shown_by self.new).medium
            (record { block = block; left = n }) result }
        ensures told { M.was_told (medium_by self.old) (medium_by self.new) Arms }
        ensures keeps { KeepsMemory (shown_by self.old) (shown_by self.new) }
        ensures stands { (s : Standing) → StandsFor (shown_by self.old) s → StandsFor (shown_by self.new) s }
    {
        let mut state = take_out(&mut self.state);
        let arm = state.wear(block, n);
        put_in(&mut self.state, state);
        arm
    }

    /// Cuts the power at the `n`-th use of the medium from now on, and a write that is then cut leaves its block by the fate.
    ///
    /// # Clauses
    ///
    /// - `rule`, `stands`, `keeps`, `told`: as those of its state.
    pub fn arm_cut(&mut self, n: u32, fate: Fate)
        requires { 1 ≤ n }
        ensures rule { (shown_by self.new).medium ≡ with_armed_cut n fate (shown_by self.old).medium }
        ensures told { M.was_told (medium_by self.old) (medium_by self.new) Arms }
        ensures keeps { KeepsMemory (shown_by self.old) (shown_by self.new) }
        ensures stands { (s : Standing) → StandsFor (shown_by self.old) s → StandsFor (shown_by self.new) s }
    {
        let mut state = take_out(&mut self.state);
        state.arm_cut(n, fate);
        put_in(&mut self.state, state);
    }

    /// Waits until all that was written is where no failure of the system can lose it, with the power on or off. Where what the
    /// medium lies on failed, the power is off, nothing is kept in memory, and the disc is a candidate.
    ///
    /// # Clauses
    ///
    /// - `rule`, `stands`, `told`: as those of its state.
    ///
    /// # Answers
    ///
    /// As for `State::sync`.
    pub fn sync(&mut self) -> SyncEnd
        ensures rule { SyncOnDrive (shown_by self.old) (shown_by self.new) result }
        ensures told { M.was_told (medium_by self.old) (medium_by self.new) (Syncs result) }
        ensures stands { (s : Standing) → StandsFor (shown_by self.old) s → SyncStands (shown_by self.new) s result }
    {
        let state = take_out(&mut self.state);
        let (state, end) = state.sync();
        put_in(&mut self.state, state);
        end
    }

    /// The medium, as the drive leaves it, and the memory.
    ///
    /// # Clauses
    ///
    /// - `medium`, `machine`: the medium that it holds, with what is armed on it, as the drive shows it.
    /// - `room`: and the memory, which has room as before.
    pub fn into_parts(self) -> (M, Memory)
        ensures medium { result.0 ≡ medium_by self }
        ensures machine { machine_shown M.world M.arms M.armed_cut result.0 ≡ (shown_by self).medium }
        ensures kind { IsOfKind (shown_by self).shape.layout result.1.workspace.layout }
    {
        let Volume { state } = self;
        match state {
            Some(State::Off(off)) => off.into_parts(),
            Some(State::Ready(ready)) => ready.into_parts(),
            Some(State::NotFormatted(bare)) => bare.into_parts(),
            None => unreachable!(),
        }
    }
}

// The calls are those of the traits, for every controllable medium. `laws`: it stands for exactly what goes with what it shows, and for
// something; what it shows is sound.
impl<M: MediumControl> Sectors for Volume<M> {
    ghost use Rattle.model_medium.specs.Happened.{Happened};
    ghost use Rattle.model_medium.proofs.Happening.{happened_none, happened_then};
    ghost use Rattle.model_drive.specs.Shown.{StandsFor};
    ghost use Rattle.ram_volume.specs.Volume.{state_in};
    ghost use Rattle.ram_volume.specs.Drives.{shown_by, medium_by};
    ghost use Rattle.ram_states.specs.Sounding.{sound_state};

    ghost shows = { λ volume. shown_by volume };

    ghost stands = { λ volume s. StandsFor (shown_by volume) s };

    ghost underwent = { λ old new. Happened M.takes (medium_by old) (medium_by new) };

    fn capacity(&self) -> Option<u32> {
        match &self.state {
            Some(State::Ready(ready)) => Some(ready.capacity()),
            Some(State::Off(_) | State::NotFormatted(_)) | None => None,
        }
    }

    fn read(&mut self, lba: u32, n: u32, into: &mut [u8]) -> ReadOut {
        let state = take_out(&mut self.state);
        let (state, out) = read_state(state, lba, n, into);
        put_in(&mut self.state, state);
        out
    }

    fn write(&mut self, lba: u32, n: u32, from: &[u8]) -> WriteOut {
        let state = take_out(&mut self.state);
        let (state, out) = write_state(state, lba, n, from);
        put_in(&mut self.state, state);
        out
    }

    fn power(&mut self) -> PowerOut {
        let state = take_out(&mut self.state);
        let (state, out) = power_state(state);
        put_in(&mut self.state, state);
        out
    }

    ghost laws = { record {
      as_shown = λ volume s. (λ stands. stands, λ stands. stands);
      some = λ volume. volume.some;
      sound = λ volume. sound_state M.laws.as_many M.control_laws.to_come M.control_laws.arms_to_come
          (state_in volume.state volume.held);
    } };

    ghost underwent_laws = { record {
      none = λ volume. happened_none M.takes (medium_by volume);
      adds_up = λ a b c one two. happened_then M.takes (medium_by a) (medium_by b) (medium_by c) one two;
    } };
}

impl<M: MediumControl> Disc for Volume<M> {
    fn format(&mut self, kind: Kind) -> FormatOut {
        let state = take_out(&mut self.state);
        let (state, out) = format_state(state, kind);
        put_in(&mut self.state, state);
        out
    }

    fn expand(&mut self, capacity: u32) -> ExpandOut {
        let state = take_out(&mut self.state);
        let (state, out) = expand_state(state, capacity);
        put_in(&mut self.state, state);
        out
    }

    fn verify(&mut self, lba: u32, n: u32) -> ReadOut {
        let state = take_out(&mut self.state);
        let (state, out) = verify_state(state, lba, n);
        put_in(&mut self.state, state);
        out
    }

    fn generation(&mut self, best: &mut LeadRecord, other: &mut LeadRecord) -> RecordOut {
        let state = take_out(&mut self.state);
        let (state, out) = generation_state(state, best, other);
        put_in(&mut self.state, state);
        out
    }

    fn lead_from(&mut self, value: &LeadRecord) -> RecordOut {
        let state = take_out(&mut self.state);
        let (state, out) = lead_state(state, value);
        put_in(&mut self.state, state);
        out
    }

    fn counts(&self) -> DriveCounts {
        match &self.state {
            Some(State::Off(off)) => off.counts(),
            Some(State::Ready(ready)) => ready.counts(),
            Some(State::NotFormatted(bare)) => bare.counts(),
            None => unreachable!(),
        }
    }

    fn dds_block(&self, into: &mut Block) -> bool {
        match &self.state {
            Some(State::Ready(ready)) => {
                ready.dds_block(into);
                true
            }
            Some(State::Off(_) | State::NotFormatted(_)) | None => false,
        }
    }

    fn exchange_room(&mut self, room: &mut Block) {
        if let Some(state) = &mut self.state {
            state.exchange_room(room);
        }
    }
}
