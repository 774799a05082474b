//! The power goes on, and off.

ghost use Rattle.std.specs.Prelude.{◌≡◌, IsTrue};
ghost use Rattle.model_geometry.specs.Geometry.{total};
ghost use Rattle.model_lists.specs.Values.{IsLawfulDds, IsLawfulSdl};
ghost use Rattle.model_stops.specs.declared.Stop.TheVariants as stops;
ghost use Rattle.model_places.specs.Valid.{AreValid};
ghost use Rattle.model_volume.specs.Given.{AreSettled};
ghost use Rattle.model_medium.specs.Exact.{PowerOff};
ghost use Rattle.model_medium.specs.Happened.{Happened};
ghost use Rattle.model_sectors.specs.Discs.{Standing, Off, candidates};
ghost use Rattle.model_drive.specs.Shown.{StandsFor};
ghost use Rattle.model_drive.specs.Power.{PowerCause};
ghost use Rattle.ram_medium.specs.Laws.{machine_shown};
ghost use Rattle.ram_dds.specs.Dds.{dds_of};
ghost use Rattle.ram_sdl.specs.Sdl.{sdl_of};
ghost use Rattle.ram_lists.specs.Lists.{lists_of};
ghost use Rattle.ram_transfer.specs.Shown.{shown_without, shown_under};
ghost use Rattle.ram_groups.specs.Layouts.{IsOfKind};
ghost use Rattle.ram_states.specs.Shown.{shown_off, shown_bare, shown_ready};
ghost use Rattle.ram_states.specs.Powers.{turned_off, shown_after, medium_after, power_out, PowerSteps, StopsPower};

use crate::states::{NotFormatted, PowerOn, PoweredOff, Ready};
use ram_lists::{Found, mount_lists};
use ram_medium::{MediumControl, Stop};
use ram_transfer::Memory;
use ram_zones::Geometry;

impl<M: MediumControl> PoweredOff<M> {
    /// Turns the power on, and mounts the disc.
    ///
    /// # Clauses
    ///
    /// - `cause`: `Ready` stands for the answer with the disc's capacity.
    /// - `happened`: nothing but events happened to its medium in between, whatever the answer (`Happened` of `model_medium`).
    ///   What each of them did, also to the bytes under it, the medium says.
    ///
    /// # Answers
    ///
    /// As for `Sectors::power`, with the state: `Ready`, `NotFormatted`, or `PoweredOff`.
    pub fn power_on(self) -> PowerOn<M>
        ensures cause { PowerCause (shown_off self) (shown_after result) (power_out result) }
        ensures step { PowerSteps (shown_off self) (shown_after result) (power_out result) }
        ensures same_shape { (shown_after result).shape ≡ self.geometry }
        ensures happened { Happened M.takes self.medium (medium_after result) }
    {
        let PoweredOff {
            mut medium,
            geometry,
            mut memory,
        } = self;
        medium.power_on();
        let work = &mut memory.workspace;
        match mount_lists(
            &mut medium,
            &geometry,
            &mut memory.lists,
            &mut work.draft,
            &mut work.scratch,
        ) {
            Ok(Found::Lists) => PowerOn::Ready(Ready::laid_out(medium, geometry, memory)),
            Ok(Found::Bare { mark }) => PowerOn::NotFormatted(NotFormatted {
                medium,
                geometry,
                mark,
                memory,
            }),
            Err(stop) => stopped_mount(medium, geometry, memory, stop),
        }
    }
}

/// The drive whose mount was stopped, with its power off, by the cause.
fn stopped_mount<M: MediumControl>(
    medium: M,
    geometry: Geometry,
    memory: Memory,
    stop: Stop,
) -> PowerOn<M>
    requires size { M.block_count medium ≡ total geometry }
    requires off { ¬ IsTrue (M.world medium).power }
    requires kind { IsOfKind geometry.layout memory.workspace.layout }
    requires was_on { ¬ (stop ≡ stops.Off) }
    ensures shown { shown_after result ≡ shown_without geometry (machine_shown M.world M.arms M.armed_cut medium) }
    ensures medium { medium_after result ≡ medium }
    ensures out { StopsPower stop (power_out result) }
{
    let off = PoweredOff {
        medium,
        geometry,
        memory,
    };
    match stop {
        Stop::Cut => PowerOn::Cut(off),
        Stop::Off => unreachable!(),
        Stop::Fault => PowerOn::Fault(off),
    }
}

impl<M: MediumControl> Ready<M> {
    /// Turns the power off. The drive has the disc as its only candidate then.
    ///
    /// # Clauses
    ///
    /// - `shows`, `stands`, `event`: the power is off, and nothing else changed on the medium; the disc that the drive stood for
    ///   is its only candidate.
    pub fn power_off(self) -> PoweredOff<M>
        ensures shows { shown_off result ≡ turned_off (shown_ready self) }
        ensures stands { (s : Standing) → StandsFor (shown_ready self) s
            → StandsFor (shown_off result) (Off (candidates s)) }
        ensures event { M.takes self.medium result.medium PowerOff }
    {
        let Ready {
            mut medium,
            geometry,
            memory,
        } = self;
        medium.power_off();
        PoweredOff {
            medium,
            geometry,
            memory,
        }
    }
}

impl<M: MediumControl> NotFormatted<M> {
    /// Turns the power off. The drive has the disc without sectors as its only candidate then.
    ///
    /// # Clauses
    ///
    /// - `shows`, `stands`, `event`: the power is off, and nothing else changed on the medium; the disc that the drive stood for
    ///   is its only candidate.
    pub fn power_off(self) -> PoweredOff<M>
        ensures shows { shown_off result ≡ turned_off (shown_bare self) }
        ensures stands { (s : Standing) → StandsFor (shown_bare self) s
            → StandsFor (shown_off result) (Off (candidates s)) }
        ensures event { M.takes self.medium result.medium PowerOff }
    {
        let NotFormatted {
            mut medium,
            geometry,
            mark: _,
            memory,
        } = self;
        medium.power_off();
        PoweredOff {
            medium,
            geometry,
            memory,
        }
    }
}
