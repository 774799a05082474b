//! The audit of an image, and the check of a text against one. Neither changes a byte of the image.

ghost use Rattle.std.specs.Prelude.{◌≡◌};
ghost use Rattle.std.specs.Prelude.{◌≡◌};
ghost use Rattle.ram_audit.specs.Discs.{AuditRule, CheckRule};
ghost use Rattle.ram_audit.specs.Rooms.{AreReadyToAudit};

use crate::certificate::tell_certificate;
use crate::comparing::{Compared, compare};
use crate::rooms::AuditRooms;
use ram_image::{MediumRooms, OpenFault, Refused, open};
use ram_outside::{Conversation, Image};
use ram_zones::LayoutKind;

/// The answer of an audit.
#[derive(Clone, Copy, Debug, PartialEq, Eq)]
pub enum Audited {
    /// The certificate is in the room that was given.
    Told,
    /// The image is no disc's.
    NotADisc,
    /// The image failed, and counted it.
    Failed,
}

/// The answer of a check.
#[derive(Clone, Copy, Debug, PartialEq, Eq)]
pub enum Checked {
    /// The source's bytes are the text of the certificate.
    Yes,
    /// They are not: this line, counted from 1, is the first that differs, is missing or is too many.
    No { line: u64 },
    /// The image is no disc's.
    NotADisc,
    /// The image failed, and counted it. The source was not touched.
    ImageFailed,
    /// The source failed, and counted it.
    SourceFailed,
}

/// Tells the certificate of the disc in an image, which is handed back.
///
/// # Clauses
///
/// - its one clause (`AuditRule`): the same of an image, which is handed back; or it is no disc's.
///
/// # Answers
///
/// The image is handed back with each byte as it was.
///
/// - `Told`: the bytes are those of a disc's image. Then: the lines of its certificate are in the room; nothing is counted.
///   (`AreLinesOf`)
/// - `NotADisc`: they are no disc's. Then: nothing is counted. (`IsNoDisc`)
/// - `Failed`: the image counted a failure. Then: what is in the room is not said. (`ImageFails`)
pub fn audit_disc<I: Image>(rooms: &mut AuditRooms, medium: MediumRooms, image: I) -> (I, Audited)
    requires { AreReadyToAudit rooms.old }
    ensures { AuditRule (I.bytes image) (I.bytes result.0) (I.faults image) (I.faults result.0)
        rooms.new.lines result.1 }
{
    match open(medium, image, LayoutKind::OneGroup) {
        Ok((mut medium, geometry)) => {
            let told = tell_certificate(rooms, &mut medium, &geometry);
            let (image, _rooms) = medium.into_parts();
            match told {
                Ok(()) => (image, Audited::Told),
                Err(_) => (image, Audited::Failed),
            }
        }
        Err(
            Refused {
                image,
                rooms: _,
                fault,
            },
        ) => match fault {
            OpenFault::Header => (image, Audited::NotADisc),
            OpenFault::Length { len: _ } => (image, Audited::NotADisc),
            OpenFault::Fault => (image, Audited::Failed),
        },
    }
}

/// Compares all that a source has left with the text of the certificate of the disc in an image, which is handed back. The source
/// is asked once the image was read.
///
/// # Clauses
///
/// - `rule` (`CheckRule`): `Yes` and `No`: what was left to come is the text of the certificate, or first differs from it in that
///   line. It is asked for once the image was read.
/// - `same`: the sink is not touched.
///
/// # Answers
///
/// The image is handed back with each byte as it was.
///
/// - `Yes`: the bytes up to their end are the text of the certificate. Then: nothing is counted. (`IsCertificateText`)
/// - `No`: they are not; told is the line, counted from 1, of the first byte behind their common front. Then: nothing is counted.
///   (`DiffersFirst`)
/// - `NotADisc`: the image is no disc's. Then: nothing was asked for. (`IsNoDisc`)
/// - `ImageFailed`: the image counted a failure. Then: nothing was asked for. (`ImageFails`)
/// - `SourceFailed`: what was to come counted a failure. Then: the image counted none. (`CheckRule`)
pub fn check_disc<I: Image, T: Conversation>(
    rooms: &mut AuditRooms,
    medium: MediumRooms,
    image: I,
    talk: &mut T,
) -> (I, Checked)
    requires { AreReadyToAudit rooms.old }
    ensures rule { CheckRule (I.bytes image) (I.bytes result.0) (I.faults image) (I.faults result.0)
        (T.left talk.old) (T.left talk.new) (T.faults talk.old) (T.faults talk.new) result.1 }
    ensures same { T.report talk.new ≡ T.report talk.old }
{
    let (image, audited) = audit_disc(rooms, medium, image);
    match audited {
        Audited::NotADisc => (image, Checked::NotADisc),
        Audited::Failed => (image, Checked::ImageFailed),
        Audited::Told => {
            let room = rooms.scratch.room.bytes_mut();
            match compare(talk, rooms.lines.text(), room) {
                Compared::Same => (image, Checked::Yes),
                Compared::Differs { line } => (image, Checked::No { line }),
                Compared::Failed => (image, Checked::SourceFailed),
            }
        }
    }
}
