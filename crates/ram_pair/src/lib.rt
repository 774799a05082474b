//! Two images as the lines of a script for a mirror work with them.
//!
//! What to read: `specs/PairStates.antt` (the states of a run), `specs/PairLines.antt` (what each line does with a mirror),
//! `specs/PairSteps.antt` (the steps between states, and what becomes of the bytes of both images), `specs/Told.antt` (how each answer is
//! told). Then `src/answering.rt`, `src/calling.rt`, `src/held.rt`.
//!
//! # How it fits in
//!
//! - A state is what the mirror shows, with the bytes of both images, or two images that are no two discs of one geometry. What a mirror
//!   stands for is a function of what it shows (`MayBe`); so each step says, for all that it may stand for before, what it may stand for
//!   then, and a read what it gives.
//! - The causes are those of `model_mirror`, whole. The bytes of an image change by the events that its side underwent.
//! - No answer of a mirror tells that the image of the side that does not lead failed. So both sides are watched (`ram_side`): a line in
//!   which the count of either rose is told as a failure of the image (`ComesOut`), and no other is.
//! - A run over what answers the lines, by their bytes, is one over these states (`IsPairStep` in `specs/PairTexts.antt`).
//!
//! # What is proved
//!
//! - `Held::begin`: What a run begins with, where the bytes of both images are known; neither failed. Or one did, and both have the bytes
//!   that they had (`BeginRule`).
//! - `Pair` as `Answers`: From each state before, a line of these bytes leads by its step to the state after, or is none of the language
//!   (`PairAnswers`); the sum of both counts rose exactly where a failure ends the run (`LineStops`); and the text of a reply.
//! - `Held::into_parts`: The bytes and the counts of both images are those of the state.
//!
//! # What is neither
//!
//! - That a call of a mirror that answers Fault was counted: here it is told by the counts alone, and a Fault that nothing counted would be
//!   told as a cut.
#![tactic(auto)]

mod answering;
mod calling;
mod held;
mod pair;
mod rooms;
mod told;

pub use held::Held;
pub use pair::Pair;
pub use rooms::{PAIR_MEMORY, PairRooms};
pub use told::Told;
