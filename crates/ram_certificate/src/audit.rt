//! The certificate of an image, told or checked. The image is opened to be read alone.
ghost use Rattle.std.specs.Prelude.{◌≡◌, ◌≤◌, ℕ, Option, Some, List, vec_capacity};
ghost use Rattle.ram_audit.specs.Rooms.{AreReadyToAudit};
ghost use Rattle.ram_script.specs.RunCounts.{counts_of};
ghost use Rattle.ram_script.specs.Endings.{IsOfRun, StatusCounts};
ghost use Rattle.ram_certificate.specs.Rooms.{AreReadyToTell};
ghost use Rattle.ram_outside.specs.declared.opener.Access.TheVariants.{ReadOnly};
ghost use Rattle.ram_script.specs.Around.{AsksOnce, around};
ghost use Rattle.ram_summary.specs.Generating.{Heard, beside};
ghost use Rattle.ram_certificate.specs.Auditing.{AnswersBy, AuditAnswers, CheckAnswers, OpensKnown, Tells, TellsOf};

use crate::rooms::CertificateRooms;
use ram_audit::{Audited, Checked, audit_disc, check_disc, put_difference};
use ram_machine::status::Status;
use ram_outside::{Conversation, Image, Opened, Opener, Sink};
use ram_report::hand_over;

/// What is written of an image that is no disc's.
const NO_DISC: &[u8] = b"not a disc\n";

/// Writes a text to the report. The status that is due, unless the sink failed.
fn answer<K: Sink>(report: &mut K, text: &[u8], due: Status) -> Status
    ensures { AnswersBy due text.now (K.written report.old) (K.written report.new)
        (K.faults report.old) (K.faults report.new) result }
{
    match hand_over(report, text) {
        Ok(()) => due,
        Err(_) => Status::SinkFault,
    }
}

/// The same in a conversation, of which nothing else changes.
fn answer_in<T: Conversation>(talk: &mut T, text: &[u8], due: Status) -> Status
    ensures rule { AnswersBy due text.now (T.Sink.written (T.report talk.old))
        (T.Sink.written (T.report talk.new)) (T.Sink.faults (T.report talk.old))
        (T.Sink.faults (T.report talk.new)) result }
    ensures same { T.faults talk.new ≡ T.faults talk.old }
{
    answer(talk.report_mut(), text, due)
}

/// Tells the certificate of the disc in an image, which is handed back.
fn audit_here<I: Image, K: Sink>(rooms: CertificateRooms, image: I, report: &mut K) -> (I, Status)
    requires ready { AreReadyToTell rooms }
    ensures other { IsOfRun result.1 }
    ensures counts { (source : ℕ) → StatusCounts
        (counts_of source (K.faults report.old) (I.faults image))
        (counts_of source (K.faults report.new) (I.faults result.0)) result.1 }
    ensures same { I.bytes result.0 ≡ I.bytes image }
    ensures tells { (held : List ℕ) → I.bytes image ≡ Some held
        → Tells (AuditAnswers held) (K.written report.old) (K.written report.new) result.1 }
{
    let CertificateRooms {
        mut audit,
        medium,
        answer: _,
    } = rooms;
    let (image, audited) = audit_disc(&mut audit, medium, image);
    match audited {
        Audited::Told => {
            let status = answer(report, audit.lines.text(), Status::Done);
            (image, status)
        }
        Audited::NotADisc => (image, answer(report, NO_DISC, Status::NotADisc)),
        Audited::Failed => (image, Status::ImageFault),
    }
}

/// Checks what is left to come against the disc in an image, which is handed back.
fn check_here<I: Image, T: Conversation>(
    rooms: CertificateRooms,
    image: I,
    talk: &mut T,
) -> (I, Status)
    requires ready { AreReadyToTell rooms }
    ensures other { IsOfRun result.1 }
    ensures counts { StatusCounts
        (counts_of (T.faults talk.old) (T.Sink.faults (T.report talk.old)) (I.faults image))
        (counts_of (T.faults talk.new) (T.Sink.faults (T.report talk.new)) (I.faults result.0)) result.1 }
    ensures same { I.bytes result.0 ≡ I.bytes image }
    ensures tells { (held left : List ℕ) → I.bytes image ≡ Some held → T.left talk.old ≡ Some left
        → Tells (CheckAnswers held left) (T.Sink.written (T.report talk.old))
        (T.Sink.written (T.report talk.new)) result.1 }
{
    let CertificateRooms {
        mut audit,
        medium,
        answer: mut text,
    } = rooms;
    let (image, checked) = check_disc(&mut audit, medium, image, talk);
    match checked {
        Checked::Yes => (image, answer_in(talk, b"yes\n", Status::Done)),
        Checked::No { line } => {
            put_difference(&mut text, line);
            let status = answer_in(talk, text.as_slice(), Status::Differs);
            (image, status)
        }
        Checked::NotADisc => (image, answer_in(talk, NO_DISC, Status::NotADisc)),
        Checked::ImageFailed => (image, Status::ImageFault),
        Checked::SourceFailed => (image, Status::SourceFault),
    }
}

/// Tells what the image of this name holds. The image is closed on every way out.
///
/// # Clauses
///
/// - `tells`: the above, or no image was opened (`TellsOf`).
/// - `asks`: the opener was asked for this name, once.
/// - `causes`: the count that the status tells of rose, and no other (`StatusCounts`).
///
/// # Answers
///
/// - `Done`: the certificate of the image is written. (`AuditAnswers`)
/// - `NotADisc`: the image is no disc's, and a line says so. (`AuditAnswers`)
/// - `ImageFault`: the opener or the image counted a failure; nothing is written. (`AuditAnswers`, `TellsOf`)
/// - `SinkFault`: the sink counted a failure; a beginning of what was due is written. (`Tells`)
/// - `Differs`, `Usage`, `Script`, `SourceFault`, `NoMemory`: never. (`AuditAnswers`)
pub fn audit_image<K: Sink, O: Opener>(
    rooms: CertificateRooms,
    name: &str,
    report: &mut K,
    opener: &mut O,
) -> Status
    requires ready { AreReadyToTell rooms }
    ensures other { IsOfRun result }
    ensures causes { (heard : Heard) → StatusCounts
        (beside heard K.Sink O.Opener report.old opener.old).counts
        (beside heard K.Sink O.Opener report.new opener.new).counts result }
    ensures asks { (heard : Heard) → AsksOnce
        (beside heard K.Sink O.Opener report.old opener.old)
        (beside heard K.Sink O.Opener report.new opener.new) ReadOnly name.now result }
    ensures tells { (heard : Heard) (held : List ℕ) → OpensKnown O.Image.bytes held
        (beside heard K.Sink O.Opener report.old opener.old) O.returned_known
        → TellsOf O.Image.bytes held (AuditAnswers held)
        (beside heard K.Sink O.Opener report.old opener.old)
        (beside heard K.Sink O.Opener report.new opener.new) result }
{
    match opener.open_to_read(name) {
        Opened::Failed => Status::ImageFault,
        Opened::Image(image) => {
            let (image, status) = audit_here(rooms, image, report);
            opener.close(image);
            status
        }
    }
}

/// Checks what is left to come against the image of this name. The image is closed on every way out.
///
/// # Clauses
///
/// - `tells`: the above, or no image was opened (`TellsOf`).
/// - `asks`: the opener was asked for this name, once.
/// - `causes`: the count that the status tells of rose, and no other (`StatusCounts`).
///
/// # Answers
///
/// - `Done`: what was left to come is the text of the certificate, and `yes` is written. (`CheckAnswers`)
/// - `Differs`: it is not, and `no N` is written, with the first line that differs. (`CheckAnswers`)
/// - `NotADisc`: the image is no disc's, and a line says so. (`CheckAnswers`)
/// - `ImageFault`, `SourceFault`: one of these counted a failure; nothing is written. (`CheckAnswers`, `TellsOf`)
/// - `SinkFault`: the sink counted a failure; a beginning of what was due is written. (`Tells`)
/// - `Usage`, `Script`, `NoMemory`: never. (`CheckAnswers`)
pub fn check_image<T: Conversation, O: Opener>(
    rooms: CertificateRooms,
    name: &str,
    talk: &mut T,
    opener: &mut O,
) -> Status
    requires ready { AreReadyToTell rooms }
    ensures other { IsOfRun result }
    ensures causes { StatusCounts
        (around T.Conversation T.Sink.Sink O.Opener talk.old opener.old).counts
        (around T.Conversation T.Sink.Sink O.Opener talk.new opener.new).counts result }
    ensures asks { AsksOnce
        (around T.Conversation T.Sink.Sink O.Opener talk.old opener.old)
        (around T.Conversation T.Sink.Sink O.Opener talk.new opener.new) ReadOnly name.now result }
    ensures tells { (held left : List ℕ) → OpensKnown O.Image.bytes held
        (around T.Conversation T.Sink.Sink O.Opener talk.old opener.old) O.returned_known
        → T.left talk.old ≡ Some left
        → TellsOf O.Image.bytes held (CheckAnswers held left)
        (around T.Conversation T.Sink.Sink O.Opener talk.old opener.old)
        (around T.Conversation T.Sink.Sink O.Opener talk.new opener.new) result }
{
    match opener.open_to_read(name) {
        Opened::Failed => Status::ImageFault,
        Opened::Image(image) => {
            let (image, status) = check_here(rooms, image, talk);
            opener.close(image);
            status
        }
    }
}
