//! The kinds of layouts.

/// The kind of a disc's layout: where its logical blocks and its spares lie.
#[derive(Clone, Copy, Debug, PartialEq, Eq)]
pub enum LayoutKind {
    /// All blocks of the disc share one group of spares, the primary ones at its front and the supplementary ones at its
    /// end. (After ECMA-330.)
    OneGroup,
    /// Each zone has a group of spares of its own, at its end, and there are no supplementary ones. (After the groups of
    /// ECMA-272; the places are this project's own.)
    EachZone,
}
