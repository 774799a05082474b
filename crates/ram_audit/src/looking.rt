//! Looks at a disc in an image, which change no byte of it.

ghost use Rattle.std.specs.Prelude.{◌≡◌, ◌<◌, IsTrue, IfSome, MatchResult};
ghost use Rattle.model_geometry.specs.Geometry.{total};
ghost use Rattle.model_medium.specs.Cells.{cell_at};
ghost use Rattle.ram_image.specs.Medium.{shape_of_medium, world_of, bytes_in};
ghost use Rattle.ram_lists.specs.Lists.{lists_of};
ghost use Rattle.ram_audit.specs.Leaving.{IsUnarmed, LooksOn, FailsLooking};
ghost use Rattle.ram_audit.specs.Telling.{FindsIn, HasBytesOrNone, IsDeadOrNot, IsGoodOrNot, StateSays, cells_in_image};

use model_audit::CopyState;
use ram_bytes::Block;
use ram_copies::Scratch;
use ram_image::{ImageMedium, Looked, StateRead};
use ram_lists::{FoundLists, Lists, find_lists};
use ram_medium::read_whole;
use ram_outside::Image;
use ram_zones::Geometry;

/// The image failed, and counted it.
#[derive(Clone, Copy, Debug, PartialEq, Eq)]
pub struct ImageFailed {}

/// Finds the lists of a disc, as a mount does.
pub fn find_here<I: Image>(
    medium: &mut ImageMedium<I>,
    geometry: &Geometry,
    lists: &mut Lists,
    other: &mut Lists,
    scratch: &mut Scratch,
) -> Result<FoundLists, ImageFailed>
    requires size { total (shape_of_medium medium.old) ≡ total geometry.now }
    requires on { IsTrue (world_of medium.old).power }
    requires unarmed { IsUnarmed medium.old }
    ensures { MatchResult result
        (λ found. LooksOn medium.old medium.new
        × FindsIn geometry.now (bytes_in medium.old) (lists_of lists.new) found)
        (λ failed. FailsLooking medium.old medium.new) }
{
    match find_lists(medium, geometry, lists, other, scratch) {
        Ok(found) => Ok(found),
        Err(_) => Err(ImageFailed {}),
    }
}

/// Reads a block, whose bytes are in the room where it has whole ones. Whether it has.
fn read_here<I: Image>(
    medium: &mut ImageMedium<I>,
    block: u32,
    room: &mut Block,
) -> Result<bool, ImageFailed>
    requires inside { block < total (shape_of_medium medium.old) }
    requires on { IsTrue (world_of medium.old).power }
    requires unarmed { IsUnarmed medium.old }
    ensures { MatchResult result
        (λ whole. LooksOn medium.old medium.new
        × HasBytesOrNone whole (shape_of_medium medium.old) (bytes_in medium.old) block room.new)
        (λ failed. FailsLooking medium.old medium.new) }
{
    match read_whole(medium, block, room) {
        Ok(whole) => Ok(whole),
        Err(_) => Err(ImageFailed {}),
    }
}

/// Whether a block is dead.
fn is_dead_here<I: Image>(medium: &mut ImageMedium<I>, block: u32) -> Result<bool, ImageFailed>
    requires inside { block < total (shape_of_medium medium.old) }
    requires unarmed { IsUnarmed medium.old }
    ensures { MatchResult result
        (λ dead. LooksOn medium.old medium.new
        × IsDeadOrNot dead (shape_of_medium medium.old) (bytes_in medium.old) block)
        (λ failed. FailsLooking medium.old medium.new) }
{
    match medium.is_dead(block) {
        StateRead::Dead => Ok(true),
        StateRead::Alive => Ok(false),
        StateRead::Failed => Err(ImageFailed {}),
    }
}

/// Whether a block has whole bytes.
pub fn is_good_here<I: Image>(medium: &mut ImageMedium<I>, block: u32) -> Result<bool, ImageFailed>
    requires inside { block < total (shape_of_medium medium.old) }
    requires unarmed { IsUnarmed medium.old }
    ensures { MatchResult result
        (λ good. LooksOn medium.old medium.new
        × IsGoodOrNot good (shape_of_medium medium.old) (bytes_in medium.old) block)
        (λ failed. FailsLooking medium.old medium.new) }
{
    match medium.has_bytes(block) {
        Looked::Good => Ok(true),
        Looked::NotGood => Ok(false),
        Looked::Failed => Err(ImageFailed {}),
    }
}

/// What a block has beside this text.
pub fn look_at_copy<I: Image>(
    medium: &mut ImageMedium<I>,
    block: u32,
    text: &Block,
    room: &mut Block,
) -> Result<CopyState, ImageFailed>
    requires inside { block < total (shape_of_medium medium.old) }
    requires on { IsTrue (world_of medium.old).power }
    requires unarmed { IsUnarmed medium.old }
    ensures { MatchResult result
        (λ state. LooksOn medium.old medium.new
        × IfSome (bytes_in medium.old)
        (λ held. StateSays (cell_at (cells_in_image (shape_of_medium medium.old) held) block) text.now state))
        (λ failed. FailsLooking medium.old medium.new) }
{
    if read_here(medium, block, room)? {
        if room.same(text) {
            return Ok(CopyState::Exact);
        }
        return Ok(CopyState::Other);
    }
    if is_dead_here(medium, block)? {
        return Ok(CopyState::Dead);
    }
    Ok(CopyState::Unread)
}
