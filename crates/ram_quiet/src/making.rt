//! Steps that update no list, one after another.

ghost use Rattle.std.specs.Prelude.{◌≡◌, ℕ, ◌<◌, length};
ghost use Rattle.model_geometry.specs.Geometry.{total};
ghost use Rattle.model_places.specs.Valid.{AreValid};
ghost use Rattle.ram_lists.specs.Lists.{lists_of};
ghost use Rattle.ram_quiet.specs.Steps.{IsLawfulStep, step_at, FollowsAll, GivesAlone, TellsAlone};

use crate::steps::{Quiet, mount_again, take_step};
use ram_bytes::Block;
use ram_copies::Scratch;
use ram_lists::{Lists, Mounted};
use ram_medium::MediumControl;
use ram_zones::Geometry;

/// Makes the steps in their order, and mounts the disc once more. No answer of a step ends them. `lists` are the only ones that
/// the disc gives: then they still are, and a mount that finds lists finds these. Lists that the last mount finds are in `found`
/// then; `other` is room.
///
/// # Answers
///
/// The answer is that of the last mount (`FollowsAll`); the cells give no lists but those that they gave before (`GivesAlone`).
///
/// - `Lists`: the last mount found lists. Then: they are those that the disc had, where cells are known. (`TellsAlone`)
/// - `Bare`, `Cut`, `Off`, `Fault`: as of `mount`. Then: the lists that are given stay the only ones. (`GivesAlone`)
pub fn quiet<M: MediumControl>(
    medium: &mut M,
    geometry: &Geometry,
    lists: &Lists,
    steps: &[Quiet],
    room: &mut Block,
    found: &mut Lists,
    other: &mut Lists,
    scratch: &mut Scratch,
) -> Mounted
    requires size { M.block_count medium.old ≡ total geometry.now }
    requires lawful { (k : ℕ) → k < length steps.now → IsLawfulStep geometry.now (step_at steps.now k) }
    requires valid { AreValid geometry.now (lists_of lists.now) }
    requires alone { GivesAlone geometry.now (M.world medium.old).cells (lists_of lists.now) }
    ensures follows { FollowsAll M.world M.reaches M.takes M.arms M.armed_cut geometry.now steps.now
        medium.old room.old medium.new room.new (lists_of found.new) result }
    ensures alone { GivesAlone geometry.now (M.world medium.new).cells (lists_of lists.now) }
    ensures answer { TellsAlone (M.world medium.new) (lists_of lists.now) (lists_of found.new) result }
    ensures as_many { M.block_count medium.new ≡ M.block_count medium.old }
{
    for k in 0..steps.len() {
        take_step(medium, geometry, steps[k], room, found, other, scratch);
    }
    mount_again(medium, geometry, found, other, scratch)
}
