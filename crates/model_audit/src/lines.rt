//! The lines of a certificate, as values. No text.

use model_geometry::LayoutKind;
use model_lists::{PdlKind, Version};

/// What a cell of a list's copy has, beside the part of the text that belongs there.
#[derive(Clone, Copy, Debug, PartialEq, Eq)]
pub enum CopyState {
    /// It has whole bytes, which are exactly that part.
    Exact,
    /// It has other whole bytes.
    Other,
    /// It has no whole bytes: it is blank or torn.
    Unread,
    /// It is dead.
    Dead,
}

/// A line of a certificate.
#[derive(Clone, Copy, Debug, PartialEq, Eq)]
pub enum CertificateLine {
    /// The first line, by which a certificate is known.
    Audit,
    /// The geometry of the disc, with the kind of the layout of its lists.
    Geometry {
        zones: u32,
        scale: u32,
        psa: u32,
        layout: LayoutKind,
    },
    /// No lists are chosen; the mark of the disc.
    Bare {
        mark: u32,
    },
    /// The disc definition structure that is chosen, and the area of the copy.
    Dds {
        version: Version,
        counter: u32,
        area: u32,
    },
    /// An entry of its primary defect list.
    Pdl {
        block: u32,
        kind: PdlKind,
    },
    /// The secondary defect list that is chosen, the area of the copy, and the size of the supplementary spare area.
    Sdl {
        counter: u32,
        area: u32,
        ssa: u32,
    },
    /// An entry of it: a defective block and the spare that replaces it.
    Pair {
        defective: u32,
        replacement: u32,
    },
    /// An entry of it: a spare that is no longer used.
    Retired {
        defective: u32,
    },
    /// A cell of a copy of these lists.
    Copy {
        block: u32,
        state: CopyState,
    },
    /// A logical block whose home has no whole bytes, by its first sector.
    Lost {
        lba: u32,
    },
    /// The last line: how many lines there are before it.
    End {
        lines: u64,
    },
}
