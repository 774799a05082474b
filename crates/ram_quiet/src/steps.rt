//! One step that updates no list.

ghost use Rattle.std.specs.Prelude.{◌≡◌};
ghost use Rattle.model_geometry.specs.Geometry.{total};
ghost use Rattle.ram_lists.specs.Lists.{lists_of};
ghost use Rattle.ram_quiet.specs.Steps.{MountsAgain, IsLawfulStep, StepRule};

use model_medium::Fate;
use ram_bytes::Block;
use ram_copies::Scratch;
use ram_lists::{Lists, Mounted, mount};
use ram_medium::MediumControl;
use ram_zones::Geometry;

/// One step.
#[derive(Clone, Copy)]
pub enum Quiet {
    /// The block is read into the room.
    Read { block: u32 },
    /// The room is written to the block.
    Write { block: u32 },
    /// The power goes off and on again, and the disc is mounted.
    Mount,
    /// The block dies.
    Fail { block: u32 },
    /// The block dies at its `n`-th use from now on.
    Wear { block: u32, n: u32 },
    /// The power is cut at the `n`-th use from now on.
    Cut { n: u32, fate: Fate },
}

/// Turns the power off and on again, and mounts the disc. Lists that it finds are in `found` then; `other` is room.
pub fn mount_again<M: MediumControl>(
    medium: &mut M,
    geometry: &Geometry,
    found: &mut Lists,
    other: &mut Lists,
    scratch: &mut Scratch,
) -> Mounted
    requires size { M.block_count medium.old ≡ total geometry.now }
    ensures rule { MountsAgain M.world M.reaches M.takes geometry.now medium.old medium.new (lists_of found.new)
        result }
    ensures as_many { M.block_count medium.new ≡ M.block_count medium.old }
{
    medium.power_off();
    medium.power_on();
    mount(medium, geometry, found, other, scratch)
}

/// Makes one step, however it ends. `found` and `other` are room for lists.
pub fn take_step<M: MediumControl>(
    medium: &mut M,
    geometry: &Geometry,
    step: Quiet,
    room: &mut Block,
    found: &mut Lists,
    other: &mut Lists,
    scratch: &mut Scratch,
)
    requires size { M.block_count medium.old ≡ total geometry.now }
    requires lawful { IsLawfulStep geometry.now step }
    ensures rule { StepRule M.world M.reaches M.takes M.arms M.armed_cut geometry.now medium.old room.old step
        medium.new room.new }
    ensures as_many { M.block_count medium.new ≡ M.block_count medium.old }
{
    match step {
        Quiet::Read { block } => {
            let _ = medium.read(block, room);
        }
        Quiet::Write { block } => {
            let _ = medium.write(block, room);
        }
        Quiet::Mount => {
            let _ = mount_again(medium, geometry, found, other, scratch);
        }
        Quiet::Fail { block } => {
            let _ = medium.fail(block);
        }
        Quiet::Wear { block, n } => {
            let _ = medium.wear(block, n);
        }
        Quiet::Cut { n, fate } => medium.arm_cut(n, fate),
    }
}
