//! The rooms of a run: all the memory that it takes, before it asks for anything else.
ghost use Rattle.std.specs.Prelude.{◌≡◌, ◌+◌, ◌≤◌, IfOk, IsOk, map};
ghost use Rattle.model_geometry.specs.declared.kinds.LayoutKind.TheVariants.{OneGroup};
ghost use Rattle.ram_run.specs.Words.{IsNbd};
ghost use Rattle.ram_run.specs.Rooms.{AreOfScript, AreOfNumber, AreOfCertificate, AreOfSession, AreOfMirror, AreRoomsFor, NeedNoRooms};
ghost use Rattle.ram_serve.specs.Rooms.{AreReadyToServe};
ghost use Rattle.ram_serve.specs.declared.rooms.TheConstants.{SESSION_MEMORY};
ghost use Rattle.ram_mirrored.specs.Rooms.{AreReadyToMirror};
ghost use Rattle.ram_mirrored.specs.declared.rooms.TheConstants.{MIRRORED_MEMORY};
ghost use Rattle.ram_certificate.specs.Rooms.{AreReadyToTell};
ghost use Rattle.ram_certificate.specs.declared.rooms.TheConstants.{CERTIFICATE_MEMORY};
ghost use Rattle.ram_summary.specs.Rooms.{AreReadyFor};
ghost use Rattle.ram_script.specs.Rooms.{AreReady};
ghost use Rattle.ram_run.specs.declared.rooms.TheConstants.{MOST_BYTES};
ghost use Rattle.ram_script.specs.declared.rooms.TheConstants.{SCRIPT_MEMORY};
ghost use Rattle.ram_summary.specs.declared.rooms.TheConstants.{GENERATE_MEMORY};

use crate::form::{Form, form_of};
use ram_bytes::{Budget, MemoryRefused};
use ram_certificate::{CERTIFICATE_MEMORY, CertificateRooms};
use ram_mirrored::{MIRRORED_MEMORY, MirroredRooms};
use ram_script::ScriptRooms;
use ram_serve::{SESSION_MEMORY, SessionRooms};
use ram_summary::{GENERATE_MEMORY, GenerateRooms};
use ram_zones::LayoutKind;

/// How many bytes the rooms ask for at most, whatever the words.
pub const MOST_BYTES: usize = SESSION_MEMORY;

/// How many bytes the rooms ask for: those for the lines of a script, those for one that is drawn from a number, those for a
/// certificate, those for a mirror, those for a session of a client, and any.
pub fn limits_of_rooms_are_these()
    ensures script { SCRIPT_MEMORY ≡ 7011716 }
    ensures generate { GENERATE_MEMORY ≡ 7080517 }
    ensures certificate { CERTIFICATE_MEMORY ≡ 3138783 }
    ensures mirror { MIRRORED_MEMORY ≡ 6470370 }
    ensures session { SESSION_MEMORY ≡ 38263978 }
    ensures most { MOST_BYTES ≡ 38263978 }
{}

/// The rooms that the words of the program ask for.
#[derive(Drop)]
pub enum Rooms {
    /// None: the words ask for a text, or are none of the program's forms.
    None,
    /// Those for the lines of a script.
    Script(ScriptRooms),
    /// Those for a script that is drawn from a number.
    Generate(GenerateRooms),
    /// Those for a certificate.
    Certificate(CertificateRooms),
    /// Those for a session of a client.
    Session(SessionRooms),
    /// Those for a mirror.
    Mirror(MirroredRooms),
}

impl Rooms {
    /// Takes the rooms that these words ask for. Words that need none ask for nothing, and are not refused.
    ///
    /// # Answers
    ///
    /// - `Ok`: the rooms that the words ask for. (`AreRoomsFor`)
    /// - `Script`, `Generate`, `Certificate`, `Session`, `Mirror`, `None`: those for the lines of a script, those for a script from a
    ///   number, those for a certificate, those for a session of a client, those for a mirror, or none. (`AreOfScript`, `AreOfNumber`,
    ///   `AreOfCertificate`, `AreOfSession`, `AreOfMirror`)
    /// - `Err`: the system refused memory that was asked for within the budget. (clause)
    pub fn new(budget: &mut Budget, words: &[&str]) -> Result<Rooms, MemoryRefused>
        requires free { GENERATE_MEMORY ≤ budget.old }
        requires client { IsNbd (map (λ word. word.now) words.now) → MOST_BYTES ≤ budget.old }
        ensures left { budget.old ≤ budget.new + MOST_BYTES }
        ensures fewer { ¬ IsNbd (map (λ word. word.now) words.now) → budget.old ≤ budget.new + GENERATE_MEMORY }
        ensures none { NeedNoRooms (map (λ word. word.now) words.now)
            → (budget.new ≡ budget.old) × IsOk result }
        ensures rooms { IfOk result (AreRoomsFor (map (λ word. word.now) words.now)) }
    {
        match form_of(words) {
            Some(Form::Run(kind, _)) => Ok(Rooms::Script(ScriptRooms::new(budget, kind)?)),
            Some(Form::Generate(_, _)) => Ok(Rooms::Generate(GenerateRooms::new(budget)?)),
            Some(Form::Audit(_)) => Ok(Rooms::Certificate(CertificateRooms::new(budget)?)),
            Some(Form::Check(_)) => Ok(Rooms::Certificate(CertificateRooms::new(budget)?)),
            Some(Form::Nbd(_, _)) => {
                Ok(Rooms::Session(SessionRooms::new(budget, LayoutKind::OneGroup)?))
            }
            Some(Form::Mirror(_, _)) => Ok(Rooms::Mirror(MirroredRooms::new(budget)?)),
            Some(Form::Help | Form::Version) | None => Ok(Rooms::None),
        }
    }
}

/// The rooms for the lines of a script.
pub fn of_script(rooms: Rooms, kind: LayoutKind) -> ScriptRooms
    requires { AreOfScript kind rooms }
    ensures { AreReady kind result }
{
    match rooms {
        Rooms::Script(rooms) => rooms,
        Rooms::None
        | Rooms::Generate(_)
        | Rooms::Certificate(_)
        | Rooms::Session(_)
        | Rooms::Mirror(_) => unreachable!(),
    }
}

/// The rooms for a script that is drawn from a number.
pub fn of_number(rooms: Rooms) -> GenerateRooms
    requires { AreOfNumber rooms }
    ensures { AreReadyFor result }
{
    match rooms {
        Rooms::Generate(rooms) => rooms,
        Rooms::None
        | Rooms::Script(_)
        | Rooms::Certificate(_)
        | Rooms::Session(_)
        | Rooms::Mirror(_) => unreachable!(),
    }
}

/// The rooms for a certificate.
pub fn of_certificate(rooms: Rooms) -> CertificateRooms
    requires { AreOfCertificate rooms }
    ensures { AreReadyToTell result }
{
    match rooms {
        Rooms::Certificate(rooms) => rooms,
        Rooms::None
        | Rooms::Script(_)
        | Rooms::Generate(_)
        | Rooms::Session(_)
        | Rooms::Mirror(_) => unreachable!(),
    }
}

/// The rooms for a session of a client.
pub fn of_session(rooms: Rooms) -> SessionRooms
    requires { AreOfSession rooms }
    ensures { AreReadyToServe OneGroup result }
{
    match rooms {
        Rooms::Session(rooms) => rooms,
        Rooms::None
        | Rooms::Script(_)
        | Rooms::Generate(_)
        | Rooms::Certificate(_)
        | Rooms::Mirror(_) => unreachable!(),
    }
}

/// The rooms for a mirror.
pub fn of_mirror(rooms: Rooms) -> MirroredRooms
    requires { AreOfMirror rooms }
    ensures { AreReadyToMirror result }
{
    match rooms {
        Rooms::Mirror(rooms) => rooms,
        Rooms::None
        | Rooms::Script(_)
        | Rooms::Generate(_)
        | Rooms::Certificate(_)
        | Rooms::Session(_) => unreachable!(),
    }
}
