//! The lines of the copies of both lists: what each of their cells has.

ghost use Rattle.std.specs.Prelude.{◌≡◌, ◌+◌, ◌*◌, ◌<◌, ◌≤◌, [], ◌∷◌, IsTrue, MatchResult};
ghost use Rattle.model_geometry.specs.Geometry.{total};
ghost use Rattle.model_lists.specs.Values.{IsLawfulDds, IsLawfulSdl};
ghost use Rattle.model_lists.specs.Texts.{IsTwo};
ghost use Rattle.model_audit.specs.Certificate.{IsPartOf, area_cells, list_cells};
ghost use Rattle.ram_audit.specs.declared.copies.Part.TheVariants.{Second};
ghost use Rattle.ram_zones.specs.ListKind.{list_block};
ghost use Rattle.ram_dds.specs.Dds.{dds_of};
ghost use Rattle.ram_sdl.specs.Sdl.{sdl_of};
ghost use Rattle.ram_image.specs.Medium.{shape_of_medium, world_of, bytes_in};
ghost use Rattle.ram_lists.specs.Lists.{lists_of};
ghost use Rattle.ram_audit.specs.declared.telling.TheConstants.{TEXT_ROOM};
ghost use Rattle.ram_audit.specs.Leaving.{IsUnarmed, LooksOn, FailsLooking};
ghost use Rattle.ram_audit.specs.Telling.{AddsCopy, AddsCopies, list_part_of, kind_of, bytes_of};

use crate::lines::Lines;
use crate::looking::{ImageFailed, look_at_copy};
use model_audit::CertificateLine;
use model_lists::Version;
use ram_bytes::Block;
use ram_copies::Scratch;
use ram_image::ImageMedium;
use ram_lists::Lists;
use ram_outside::Image;
use ram_zones::{Geometry, ListKind};

/// Which part of both lists a cell has.
#[derive(Clone, Copy)]
pub enum Part {
    /// The disc definition structure.
    Structure,
    /// The first part of the secondary list.
    First,
    /// The second part of the secondary list.
    Second,
}

/// The list in whose blocks a part lies.
fn kind_of(part: Part) -> ListKind
    ensures { result ≡ kind_of part }
{
    match part {
        Part::Structure => ListKind::Dds,
        Part::First => ListKind::Sdl,
        Part::Second => ListKind::SdlTwo,
    }
}

/// Writes a part of the text of both lists.
fn encode_part(lists: &Lists, part: Part, into: &mut Block)
    requires lawful_dds { IsLawfulDds (dds_of lists.now.dds) }
    requires lawful_sdl { IsLawfulSdl (sdl_of lists.now.sdl) }
    requires two { part ≡ Second → IsTwo (sdl_of lists.now.sdl) }
    ensures { IsPartOf (lists_of lists.now) (list_part_of part) into.new }
{
    match part {
        Part::Structure => lists.dds.encode(into),
        Part::First => lists.sdl.encode(1, into),
        Part::Second => lists.sdl.encode(2, into),
    }
}

/// Adds the line of a cell, whose part of a list has this text.
fn tell_copy<I: Image>(
    lines: &mut Lines,
    medium: &mut ImageMedium<I>,
    block: u32,
    text: &Block,
    room: &mut Block,
) -> Result<(), ImageFailed>
    requires fits { bytes_of lines.old + 23 ≤ TEXT_ROOM }
    requires inside { block < total (shape_of_medium medium.old) }
    requires on { IsTrue (world_of medium.old).power }
    requires unarmed { IsUnarmed medium.old }
    ensures rule { MatchResult result
        (λ done. LooksOn medium.old medium.new
        × AddsCopy lines.old lines.new (shape_of_medium medium.old) (bytes_in medium.old) block text.now)
        (λ failed. FailsLooking medium.old medium.new) }
    ensures len { bytes_of lines.new ≤ bytes_of lines.old + 23 }
{
    let state = look_at_copy(medium, block, text, room)?;
    lines.push(CertificateLine::Copy { block, state });
    Ok(())
}

/// Adds the line of a cell of the copy of an area.
fn tell_part<I: Image>(
    lines: &mut Lines,
    medium: &mut ImageMedium<I>,
    geometry: &Geometry,
    area: u32,
    part: Part,
    lists: &Lists,
    scratch: &mut Scratch,
) -> Result<(), ImageFailed>
    requires fits { bytes_of lines.old + 23 ≤ TEXT_ROOM }
    requires lawful_dds { IsLawfulDds (dds_of lists.now.dds) }
    requires lawful_sdl { IsLawfulSdl (sdl_of lists.now.sdl) }
    requires two { part ≡ Second → IsTwo (sdl_of lists.now.sdl) }
    requires some { 1 ≤ area }
    requires most { area ≤ 4 }
    requires size { total (shape_of_medium medium.old) ≡ total geometry.now }
    requires on { IsTrue (world_of medium.old).power }
    requires unarmed { IsUnarmed medium.old }
    ensures rule { MatchResult result
        (λ done. LooksOn medium.old medium.new
        × AddsCopies lines.old lines.new geometry.now (bytes_in medium.old) (lists_of lists.now)
        ((list_block geometry.now area (kind_of part), list_part_of part) ∷ []))
        (λ failed. FailsLooking medium.old medium.new) }
    ensures len { bytes_of lines.new ≤ bytes_of lines.old + 23 }
{
    encode_part(lists, part, &mut scratch.text);
    let kind = kind_of(part);
    let block = geometry.list_block(area, kind);
    tell_copy(lines, medium, block, &scratch.text, &mut scratch.room)
}

/// Adds the lines of the copy of an area.
fn tell_area<I: Image>(
    lines: &mut Lines,
    medium: &mut ImageMedium<I>,
    geometry: &Geometry,
    area: u32,
    lists: &Lists,
    scratch: &mut Scratch,
) -> Result<(), ImageFailed>
    requires fits { bytes_of lines.old + 69 ≤ TEXT_ROOM }
    requires lawful_dds { IsLawfulDds (dds_of lists.now.dds) }
    requires lawful_sdl { IsLawfulSdl (sdl_of lists.now.sdl) }
    requires some { 1 ≤ area }
    requires most { area ≤ 4 }
    requires size { total (shape_of_medium medium.old) ≡ total geometry.now }
    requires on { IsTrue (world_of medium.old).power }
    requires unarmed { IsUnarmed medium.old }
    ensures rule { MatchResult result
        (λ done. LooksOn medium.old medium.new
        × AddsCopies lines.old lines.new geometry.now (bytes_in medium.old) (lists_of lists.now)
        (area_cells geometry.now lists.now.sdl.version area))
        (λ failed. FailsLooking medium.old medium.new) }
    ensures len { bytes_of lines.new ≤ bytes_of lines.old + 69 }
{
    tell_part(
        lines,
        medium,
        geometry,
        area,
        Part::Structure,
        lists,
        scratch,
    )?;
    tell_part(lines, medium, geometry, area, Part::First, lists, scratch)?;
    match lists.sdl.version {
        Version::One => Ok(()),
        Version::Two => tell_part(lines, medium, geometry, area, Part::Second, lists, scratch),
    }
}

/// Adds the lines of all copies, area after area.
pub fn tell_copies<I: Image>(
    lines: &mut Lines,
    medium: &mut ImageMedium<I>,
    geometry: &Geometry,
    lists: &Lists,
    scratch: &mut Scratch,
) -> Result<(), ImageFailed>
    requires fits { bytes_of lines.old + 276 ≤ TEXT_ROOM }
    requires lawful_dds { IsLawfulDds (dds_of lists.now.dds) }
    requires lawful_sdl { IsLawfulSdl (sdl_of lists.now.sdl) }
    requires size { total (shape_of_medium medium.old) ≡ total geometry.now }
    requires on { IsTrue (world_of medium.old).power }
    requires unarmed { IsUnarmed medium.old }
    ensures rule { MatchResult result
        (λ done. LooksOn medium.old medium.new
        × AddsCopies lines.old lines.new geometry.now (bytes_in medium.old) (lists_of lists.now)
        (list_cells geometry.now lists.now.sdl.version))
        (λ failed. FailsLooking medium.old medium.new) }
    ensures len { bytes_of lines.new ≤ bytes_of lines.old + 276 }
{
    for k in 0..4 {
        tell_area(lines, medium, geometry, k + 1, lists, scratch)?;
    }
    Ok(())
}
