//! A large script from a number: the load that a user tries a disc with. It presses and formats a disc, and then draws two
//! thousand steps: writes, reads, failures of blocks, cuts and power lines. No call takes memory.
//!
//! The room, `SCRIPT_ROOM`, is that of the longest script: the 81 bytes of the first lines, and 34 bytes for each of the two
//! thousand steps, since a write adds 34 and no step adds more. So it is 68,081 bytes. No call takes memory, and none fails.
//!
//! A step draws one of a hundred kinds: 45 are writes, 50 are reads, and one each makes a block dead, wears one, and arms a cut;
//! two turn the power off and on again and send a first command. Then it draws its numbers, in the order in which they stand in
//! its lines (`specs/Script.antt`). A number is the next word of a generator (`Pcg32` of `rand_pcg`, stream 330) modulo a bound.
//!
//! # What is proved
//!
//! - `add_step`, `add_write` and the others (private), `step`, `len`: The script grew by the text of the step, by 34 bytes at
//!   most, and the generator stands behind the numbers that were drawn (`AddsStep`).
#![tactic(auto)]

mod drawing;
mod steps;
mod texts;

ghost use Rattle.std.specs.Prelude.{◌≡◌, ◌≤◌, vec_capacity};
ghost use Rattle.ram_generate.specs.Script.{script_from};
ghost use Rattle.ram_generate.specs.declared.TheConstants.{SCRIPT_ROOM};

use crate::drawing::started;
use crate::steps::{LONGEST_STEP, add_steps};
pub use crate::texts::{add, add_number};

/// How many steps are drawn behind the first lines.
pub const STEPS: u32 = 2_000;

/// The first lines: a disc of 1,440 sectors is pressed and formatted.
pub const HEAD: &[u8] = b"press 2 2 8
power
cdb 000000000000
cdb 041100000000 hex 00000008000005a000000800
";

/// Room for the longest script that is drawn: the first lines, and as many of the longest step as steps are drawn.
pub const SCRIPT_ROOM: usize = HEAD.len() + STEPS as usize * LONGEST_STEP;

/// Draws the script of this number into the room, in place of what it held. The same number gives the same script.
///
/// # Clauses
///
/// - `text`: Where the room is there, the script is exactly `script_from seed`, whatever was in the room before.
/// - `room`: There is no less room afterwards, so the next script is drawn into it too.
pub fn draw_script(script: &mut Vec<u8>, seed: u64)
    requires room { SCRIPT_ROOM ≤ vec_capacity script.old }
    ensures text { script.new.items ≡ script_from seed }
    ensures room { vec_capacity script.old ≤ vec_capacity script.new }
{
    script.clear();
    add(script, HEAD);
    let mut words = started(seed);
    add_steps(script, &mut words, STEPS);
}

#[cfg(test)]
mod tests;
