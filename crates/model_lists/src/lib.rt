//! The values of the two defect lists of a disc, their limits, and the text of each: the block that spells it.
//! Definitions, and their laws.
//!
//! A structure names the kind of its disc's layout, by its third byte (`form_byte`): 1 or 2, its version, with one group of
//! spares, and 3 with a group in each zone. All three are of one grammar, so a block is the text of one value at most, of one
//! kind. What kind a disc asks for is said where lists are valid, in `model_places`.
//!
//! The definitions stand in `specs/`, each with its source. The laws about them are functions with an empty body in `src/`, whose
//! contract is the law, so the build fails where one is not proved. `make docs` lists both, with who cites each word.
//!
//! The text of a list is a relation between a value and a block, or two of them where the list has two parts. That each value has
//! one text, and that a text is that of one value at most, are laws about the relation alone, which know nothing of the code.
//! `encode` gives a block that stands in it, for the part that is asked for; `decode` gives the value whose text it is, and
//! nothing where there is none. So both directions are inverse to each other without a proof that compares them.
//!
//! What both lists share, entries that rise one after another and zeros after them, is written and read once, in `ram_entries`,
//! over any `EntryLayout`. Each list has a layout of its own (`PdlLayout`, `SdlLayout`): how many bytes an entry has, which they
//! are, which numbers fit, and the block by which entries rise.
#![tactic(auto)]

mod dds;
pub mod laws;
mod records;
mod sdl;
mod versions;

pub use dds::{DdsState, PdlEntry, PdlKind};
pub use model_geometry::{MOST_SPARES, SDL_LIMIT};
pub use records::{REGION_BLOCKS, REGIONS};
pub use sdl::SdlEntry;
pub use versions::Version;
