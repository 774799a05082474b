//! The certificate of a disc in an image: all of its lines.

ghost use Rattle.std.specs.Prelude.{◌≡◌, ◌+◌, ◌≤◌, false, [], ◌∷◌, ◌++◌, IsTrue, MatchResult};
ghost use Rattle.model_lists.specs.Values.{IsLawfulDds, IsLawfulSdl};
ghost use Rattle.model_geometry.specs.declared.kinds.LayoutKind.TheVariants.{OneGroup};
ghost use Rattle.model_geometry.specs.Geometry.{total};
ghost use Rattle.model_audit.specs.Certificate.{head_lines, list_lines, closed};
ghost use Rattle.model_audit.specs.declared.lines.CertificateLine.TheVariants.{Bare};
ghost use Rattle.ram_dds.specs.Dds.{dds_of};
ghost use Rattle.ram_sdl.specs.Sdl.{sdl_of};
ghost use Rattle.ram_groups.specs.Layouts.{IsOfKind};
ghost use Rattle.ram_image.specs.Medium.{shape_of_medium, world_of, bytes_in};
ghost use Rattle.ram_lists.specs.Lists.{lists_of};
ghost use Rattle.ram_audit.specs.declared.telling.TheConstants.{TEXT_ROOM};
ghost use Rattle.ram_audit.specs.Leaving.{IsUnarmed, LooksOn, FailsLooking};
ghost use Rattle.ram_audit.specs.Rooms.{AreReadyToAudit};
ghost use Rattle.ram_audit.specs.Telling.{Adds, AreLines, AreFound, NoneFound, AreToldOf, AreCertificate, bytes_of};

use crate::copies::tell_copies;
use crate::homes::tell_homes;
use crate::lines::Lines;
use crate::lists::{tell_primary, tell_secondary};
use crate::looking::{ImageFailed, find_here};
use crate::rooms::AuditRooms;
use model_audit::CertificateLine;
use ram_copies::Scratch;
use ram_groups::AnyLayout;
use ram_image::ImageMedium;
use ram_lists::{FoundLists, Lists};
use ram_medium::Medium;
use ram_outside::Image;
use ram_zones::Geometry;

/// Adds the first two lines.
fn tell_head(lines: &mut Lines, geometry: &Geometry)
    requires fits { bytes_of lines.old + 55 ≤ TEXT_ROOM }
    ensures lines { Adds lines.old lines.new (head_lines geometry.now) }
    ensures len { bytes_of lines.new ≤ bytes_of lines.old + 55 }
{
    lines.push(CertificateLine::Audit);
    lines.push(CertificateLine::Geometry {
        zones: geometry.zones(),
        scale: geometry.scale(),
        psa: geometry.psa(),
        layout: geometry.layout(),
    });
}

/// Adds the lines of both lists, which were found in these areas.
fn tell_entries(lines: &mut Lines, lists: &Lists, dds_area: u32, sdl_area: u32)
    requires fits { bytes_of lines.old + 294691 ≤ TEXT_ROOM }
    requires lawful_dds { IsLawfulDds (dds_of lists.now.dds) }
    requires lawful_sdl { IsLawfulSdl (sdl_of lists.now.sdl) }
    ensures lines { Adds lines.old lines.new (list_lines (lists_of lists.now) dds_area sdl_area []) }
    ensures len { bytes_of lines.new ≤ bytes_of lines.old + 294691 }
{
    lines.push(CertificateLine::Dds {
        version: lists.dds.version,
        counter: lists.dds.counter,
        area: dds_area,
    });
    tell_primary(lines, lists.dds.entries.as_slice());
    lines.push(CertificateLine::Sdl {
        counter: lists.sdl.counter,
        area: sdl_area,
        ssa: lists.sdl.ssa,
    });
    tell_secondary(lines, lists.sdl.entries.as_slice());
}

/// Tells the certificate of a disc that is not formatted.
fn tell_bare(lines: &mut Lines, geometry: &Geometry, mark: u32)
    requires none { AreLines lines.old [] }
    ensures { AreLines lines.new (closed (head_lines geometry.now ++ Bare mark ∷ [])) }
{
    tell_head(lines, geometry);
    lines.push(CertificateLine::Bare { mark });
    lines.close();
}

/// The areas in which both lists were found.
#[derive(Clone, Copy)]
struct Areas {
    dds: u32,
    sdl: u32,
}

/// Tells the certificate of a disc with these lists, which were found in these areas.
fn tell_lists<I: Image>(
    lines: &mut Lines,
    medium: &mut ImageMedium<I>,
    geometry: &Geometry,
    lists: &Lists,
    areas: Areas,
    layout: &mut AnyLayout,
    scratch: &mut Scratch,
) -> Result<(), ImageFailed>
    requires none { AreLines lines.old [] }
    requires found { AreFound geometry.now (bytes_in medium.old) (lists_of lists.now) areas.dds areas.sdl }
    requires kind { IsOfKind geometry.now.layout layout.old }
    requires size { total (shape_of_medium medium.old) ≡ total geometry.now }
    requires on { IsTrue (world_of medium.old).power }
    requires unarmed { IsUnarmed medium.old }
    ensures { MatchResult result
        (λ done. LooksOn medium.old medium.new × AreToldOf lines.new geometry.now (bytes_in medium.old))
        (λ failed. FailsLooking medium.old medium.new) }
{
    layout.rebuild(geometry, &lists.dds, lists.sdl.ssa);
    tell_head(lines, geometry);
    tell_entries(lines, lists, areas.dds, areas.sdl);
    tell_copies(lines, medium, geometry, lists, scratch)?;
    tell_homes(lines, medium, geometry, lists, layout)?;
    lines.close();
    Ok(())
}

/// Tells the certificate of a disc that has no lists of one group of spares, but this mark: lists of a group in each zone are
/// looked for, if the spares fit the zones.
fn tell_zones<I: Image>(
    rooms: &mut AuditRooms,
    medium: &mut ImageMedium<I>,
    geometry: &Geometry,
    mark: u32,
) -> Result<(), ImageFailed>
    requires ready { AreReadyToAudit rooms.old }
    requires none { AreLines rooms.old.lines [] }
    requires kind { geometry.now.layout ≡ OneGroup }
    requires nothing { NoneFound geometry.now (bytes_in medium.old) mark }
    requires size { total (shape_of_medium medium.old) ≡ total geometry.now }
    requires on { IsTrue (world_of medium.old).power }
    requires unarmed { IsUnarmed medium.old }
    ensures { MatchResult result
        (λ done. LooksOn medium.old medium.new × AreCertificate rooms.new.lines geometry.now (bytes_in medium.old))
        (λ failed. FailsLooking medium.old medium.new) }
{
    let AuditRooms {
        lines,
        lists,
        other,
        scratch,
        slip: _,
        zones,
    } = rooms;
    if !geometry.fits_zones() {
        tell_bare(lines, geometry, mark);
        return Ok(());
    }
    let zoned = geometry.in_zones();
    match find_here(medium, &zoned, lists, other, scratch)? {
        FoundLists::Bare { mark: _ } => {
            tell_bare(lines, geometry, mark);
            Ok(())
        }
        FoundLists::Lists { dds_area, sdl_area } => {
            let areas = Areas {
                dds: dds_area,
                sdl: sdl_area,
            };
            tell_lists(lines, medium, &zoned, lists, areas, zones, scratch)
        }
    }
}

/// Tells the certificate, with the power on.
fn tell_all<I: Image>(
    rooms: &mut AuditRooms,
    medium: &mut ImageMedium<I>,
    geometry: &Geometry,
) -> Result<(), ImageFailed>
    requires ready { AreReadyToAudit rooms.old }
    requires none { AreLines rooms.old.lines [] }
    requires kind { geometry.now.layout ≡ OneGroup }
    requires size { total (shape_of_medium medium.old) ≡ total geometry.now }
    requires on { IsTrue (world_of medium.old).power }
    requires unarmed { IsUnarmed medium.old }
    ensures { MatchResult result
        (λ done. LooksOn medium.old medium.new × AreCertificate rooms.new.lines geometry.now (bytes_in medium.old))
        (λ failed. FailsLooking medium.old medium.new) }
{
    let found = find_here(
        medium,
        geometry,
        &mut rooms.lists,
        &mut rooms.other,
        &mut rooms.scratch,
    )?;
    match found {
        FoundLists::Bare { mark } => tell_zones(rooms, medium, geometry, mark),
        FoundLists::Lists { dds_area, sdl_area } => {
            let areas = Areas {
                dds: dds_area,
                sdl: sdl_area,
            };
            tell_lists(
                &mut rooms.lines,
                medium,
                geometry,
                &rooms.lists,
                areas,
                &mut rooms.slip,
                &mut rooms.scratch,
            )
        }
    }
}

/// Tells the certificate of a disc in an image, whatever kind of layout its lists name. The power is off, and is off afterwards;
/// no byte of the image changes.
///
/// # Clauses
///
/// - `rule` (`AreCertificate`, `LooksOn`, `FailsLooking`), `off`: the lines are the certificate of the disc, where its bytes are
///   known; or the image counted a failure. The power is off, as it was.
///
/// # Answers
///
/// - `Ok`: nothing failed. Then: the lines are the certificate; each byte of the image is as it was, and the power is off.
///   (`AreCertificate`, `LooksOn`)
/// - `Err`: the image counted a failure. Then: each byte is as it was, and the power is off. (`FailsLooking`)
pub fn tell_certificate<I: Image>(
    rooms: &mut AuditRooms,
    medium: &mut ImageMedium<I>,
    geometry: &Geometry,
) -> Result<(), ImageFailed>
    requires ready { AreReadyToAudit rooms.old }
    requires kind { geometry.now.layout ≡ OneGroup }
    requires size { total (shape_of_medium medium.old) ≡ total geometry.now }
    requires off { (world_of medium.old).power ≡ false }
    requires unarmed { IsUnarmed medium.old }
    ensures rule { MatchResult result
        (λ done. LooksOn medium.old medium.new × AreCertificate rooms.new.lines geometry.now (bytes_in medium.old))
        (λ failed. FailsLooking medium.old medium.new) }
    ensures off { (world_of medium.new).power ≡ false }
{
    rooms.lines.clear();
    medium.power_on();
    let told = tell_all(rooms, medium, geometry);
    medium.power_off();
    told
}
