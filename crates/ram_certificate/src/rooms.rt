//! The memory that a certificate is told or checked in. It is taken once.
ghost use Rattle.std.specs.Prelude.{◌+◌, ◌≤◌, IfOk};
ghost use Rattle.ram_certificate.specs.Rooms.{AreReadyToTell};
ghost use Rattle.ram_certificate.specs.declared.rooms.TheConstants.{CERTIFICATE_MEMORY};

use ram_audit::{AUDIT_MEMORY, AuditRooms};
use ram_bytes::{Budget, MemoryRefused};
use ram_image::{MEDIUM_MEMORY, MediumRooms};

/// How many bytes the answer of a check has at most: a word, a space, twenty digits and a line feed.
pub const ANSWER_ROOM: usize = 24;

/// How many bytes the rooms for a certificate ask for: those of an audit, the medium, and the answer of a check.
pub const CERTIFICATE_MEMORY: usize = AUDIT_MEMORY + MEDIUM_MEMORY + ANSWER_ROOM;

/// The rooms for a certificate, which is told or checked.
#[derive(Drop)]
pub struct CertificateRooms {
    /// The memory of an audit.
    pub audit: AuditRooms,
    /// The memory of the medium that is looked at.
    pub medium: MediumRooms,
    /// Room for the answer of a check.
    pub answer: Vec<u8>,
}

impl CertificateRooms {
    /// The rooms for a certificate.
    ///
    /// # Clauses
    ///
    /// - `left`, `ready`: it asks for at most `CERTIFICATE_MEMORY` bytes of a budget that has as many. A refusal is the system's,
    ///   by its type.
    ///
    /// # Answers
    ///
    /// - `Ok`: the memory of an audit, and room for the answer of a check. (`AreReadyToTell`)
    /// - `Err`: the system refused memory that was asked for within the budget. (clause)
    pub fn new(budget: &mut Budget) -> Result<CertificateRooms, MemoryRefused>
        requires free { CERTIFICATE_MEMORY ≤ budget.old }
        ensures left { budget.old ≤ budget.new + CERTIFICATE_MEMORY }
        ensures ready { IfOk result AreReadyToTell }
    {
        Ok(CertificateRooms {
            audit: AuditRooms::new(budget)?,
            medium: MediumRooms::new(budget)?,
            answer: budget.room(ANSWER_ROOM)?,
        })
    }
}
