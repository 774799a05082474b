//! The entries of both lists, line after line.

ghost use Rattle.std.specs.Prelude.{◌≡◌, ◌+◌, ◌*◌, ◌≤◌, List, ◌++◌, length, map};
ghost use Rattle.model_audit.specs.Certificate.{pdl_line, sdl_line};
ghost use Rattle.model_audit.specs.declared.lines.CertificateLine.{CertificateLine as Told};
ghost use Rattle.ram_audit.specs.declared.telling.TheConstants.{TEXT_ROOM};
ghost use Rattle.ram_audit.specs.Bytes.{most_bytes};
ghost use Rattle.ram_audit.specs.Telling.{AreLines, bytes_of};

use crate::lines::Lines;
use model_audit::CertificateLine;
use model_lists::{PdlEntry, SdlEntry};

/// The line of an entry of the secondary list.
fn line_of(entry: SdlEntry) -> CertificateLine
    ensures line { result ≡ sdl_line entry }
    ensures len { most_bytes result ≤ 27 }
{
    match entry.replacement {
        Some(replacement) => CertificateLine::Pair {
            defective: entry.defective,
            replacement,
        },
        None => CertificateLine::Retired {
            defective: entry.defective,
        },
    }
}

/// Adds the lines of the entries of a primary list.
///
/// # Clauses
///
/// - `lines`, `len`: the lines of all entries of a primary list, and of a secondary one, are behind the others, in their order.
pub fn tell_primary(lines: &mut Lines, entries: &[PdlEntry])
    requires { bytes_of lines.old + 18 * length entries.now ≤ TEXT_ROOM }
    ensures lines { (told : List Told) → AreLines lines.old told
        → AreLines lines.new (told ++ map pdl_line entries.now) }
    ensures len { bytes_of lines.new ≤ bytes_of lines.old + 18 * length entries.now }
{
    for k in 0..entries.len() {
        let entry = entries[k];
        lines.push(CertificateLine::Pdl {
            block: entry.block,
            kind: entry.kind,
        });
    }
}

/// Adds the lines of the entries of a secondary list.
///
/// # Clauses
///
/// - `lines`, `len`: the lines of all entries of a primary list, and of a secondary one, are behind the others, in their order.
pub fn tell_secondary(lines: &mut Lines, entries: &[SdlEntry])
    requires { bytes_of lines.old + 27 * length entries.now ≤ TEXT_ROOM }
    ensures lines { (told : List Told) → AreLines lines.old told
        → AreLines lines.new (told ++ map sdl_line entries.now) }
    ensures len { bytes_of lines.new ≤ bytes_of lines.old + 27 * length entries.now }
{
    for k in 0..entries.len() {
        lines.push(line_of(entries[k]));
    }
}
