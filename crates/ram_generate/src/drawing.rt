//! Numbers drawn one after another from the words of a generator.

ghost use Rattle.std.specs.Prelude.{◌≡◌, ◌<◌};
ghost use Rattle.ram_generate.specs.Drawing.{draw, generator};

use rand_core::utils::NextWord;
use rand_pcg::Pcg32;

/// The stream of the generator, one of many.
const STREAM: u64 = 330;

/// The generator that begins with this number.
pub fn started(seed: u64) -> Pcg32
    ensures { result ≡ generator seed }
{
    Pcg32::new(seed, STREAM)
}

/// Draws a number below `bound`: the next word modulo it.
pub fn draw(words: &mut Pcg32, bound: u32) -> u32
    requires { 0 < bound }
    ensures value { result ≡ (draw bound words.old).0 }
    ensures after { words.new ≡ (draw bound words.old).1 }
    ensures below { result < bound }
{
    words.next_word() % bound
}
