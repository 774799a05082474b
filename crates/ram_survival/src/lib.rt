//! What lasts over the runs of a drive: no power cut loses the disc, a block can be read until it dies, a cut costs one block, and
//! nothing waits in a cache that does not serve. Definitions, and their laws: functions with an empty body, of which the contract is the
//! law. Nothing stands on this crate.
//!
//! What to read: `specs/Survival.antt` (which lines keep a disc formatted, and which capacity it may have), then `src/discs.rt`;
//! `specs/Living.antt` (which block is safe, and which lines leave it), then `src/blocks.rt`; `specs/Counted.antt` and `src/costs.rt`;
//! `specs/Idle.antt` and `src/caches.rt`. What a line does is said in `ram_machine`, over whose steps and runs these laws are; what a
//! single call of a drive leaves and costs is said in `model_lasting`, `model_costs` and `model_drains`.
//!
//! [HEADLINE](../../docs/HEADLINE.md) has the laws in a user's words. Which bytes a block has is said by the laws of `ram_machine`.
//!
//! # How a new line of the script is added
//!
//! One case in each lemma that goes through the forms of a line: `proofs/LastingRuns.antt` (the disc stays formatted, and dead cells
//! stay dead), `LivingRuns.antt` (the block lives), `FormattedLines.antt` (with the power on the disc is formatted), `Counting.antt` (what it
//! costs), `IdleCache.antt` (what is pending); and in `specs/Survival.antt` and `specs/Living.antt` whether it makes a disc anew, changes
//! the capacity or writes a block.
#![tactic(auto)]

pub mod blocks;
pub mod caches;
pub mod costs;
pub mod discs;
