//! What is armed on a medium, and how it counts down at each use. It knows no blocks.

ghost use Rattle.std.specs.Prelude.{◌≡◌, ℕ, ◌+◌, ◌<◌, ◌≤◌, length, if◌then◌else◌, Some, None};
ghost use Rattle.model_medium.specs.Machine.{IsToCome, AreToCome, worn_down};
ghost use Rattle.ram_medium.specs.declared.countdown.TheConstants.{MOST_ARMS};

use crate::control::Arm;
use arrayvec::ArrayVec;
use model_medium::{ArmedCut, Fate, WornBlock};

/// How many arms stand at most.
pub const MOST_ARMS: usize = 64;

/// The number that contracts share with the code.
///
/// # Clauses
///
/// - `arms`: at most 64 arms stand.
pub fn limits_are_these()
    ensures arms { MOST_ARMS ≡ 64 }
{}

/// What is armed on a medium: blocks that become dead at one of their next uses, and at most one cut of the power.
#[derive(Drop)]
pub struct Armed {
    worn: ArrayVec<WornBlock, MOST_ARMS>,
    cut: Option<ArmedCut>,
    ghost few: { length worn.items ≤ MOST_ARMS },
    ghost to_come: { IsToCome cut },
    ghost arms_to_come: { AreToCome worn.items },
}

/// What is due at a use of a block.
#[derive(Clone, Copy, Debug, PartialEq, Eq)]
pub struct Due {
    /// The block becomes dead.
    pub dies: bool,
    /// The power is cut, with this fate.
    pub cut: Option<Fate>,
}

/// Counts the arm down where it is one of this block. Whether it stands.
fn stands(worn: &mut WornBlock, block: u32) -> bool
    ensures { worn_down block worn.old ≡ (if result then Some worn.new else None) }
{
    if worn.block != block {
        return true;
    }
    if worn.left <= 1 {
        return false;
    }
    worn.left -= 1;
    true
}

impl Armed {
    ghost use Rattle.std.specs.Prelude.{[]};
    ghost use Rattle.ram_medium.specs.Control.{ArmsRule};
    ghost use Rattle.model_medium.specs.Machine.{is_killed, arms_after, fate_due, cut_after};
    ghost use Rattle.ram_medium.specs.Countdown.{arms_of, armed_cut_of};

    /// Nothing is armed.
    ///
    /// # Clauses
    ///
    /// - `IsNewInMemory`: as many blank cells as asked for, the power off, nothing counted and nothing armed; or no memory.
    /// - `arms`, `cut`, `dies`, `due`: the arms in their order and the armed cut, and what is due at a use: exactly the
    ///   definitions of `model_medium`.
    pub fn new() -> Armed
        ensures arms { arms_of result ≡ [] }
        ensures cut { armed_cut_of result ≡ None }
    {
        Armed {
            worn: ArrayVec::new(),
            cut: None,
        }
    }

    /// Makes a block of n dead at its `n`-th use from now on, unless there is no such block or as many arms stand
    /// as can.
    ///
    /// # Clauses
    ///
    /// - `arms`, `cut`, `dies`, `due`: the arms in their order and the armed cut, and what is due at a use: exactly the
    ///   definitions of `model_medium`.
    ///
    /// # Answers
    ///
    /// - `Set`: there is such a block, and fewer than 64 arms stand. Then: one arm more; the armed cut stays. (`ArmsRule`)
    /// - `NoBlock`: exactly when there is no such block; it says how many there are. Then: nothing changed. (`ArmsRule`)
    /// - `Full`: there is such a block, and 64 arms stand. Then: nothing changed. (`ArmsRule`)
    pub fn wear(&mut self, blocks: u32, block: u32, n: u32) -> Arm
        requires { 1 ≤ n }
        ensures arms { ArmsRule blocks (arms_of self.old) (arms_of self.new)
            (record { block = block; left = n }) result }
        ensures cut { armed_cut_of self.new ≡ armed_cut_of self.old }
    {
        if block >= blocks {
            return Arm::NoBlock { blocks };
        }
        if self.worn.is_full() {
            return Arm::Full;
        }
        self.worn.push(WornBlock { block, left: n });
        Arm::Set
    }

    /// Cuts the power at the `n`-th use from now on, in place of a cut that was armed.
    ///
    /// # Clauses
    ///
    /// - `arms`, `cut`, `dies`, `due`: the arms in their order and the armed cut, and what is due at a use: exactly the
    ///   definitions of `model_medium`.
    pub fn arm_cut(&mut self, n: u32, fate: Fate)
        requires { 1 ≤ n }
        ensures arms { arms_of self.new ≡ arms_of self.old }
        ensures cut { armed_cut_of self.new ≡ Some (record { left = n; fate = fate }) }
    {
        self.cut = Some(ArmedCut { left: n, fate });
    }

    /// Counts a use of the block: first its arms count down, and then the armed cut does. What is due.
    ///
    /// # Clauses
    ///
    /// - `arms`, `cut`, `dies`, `due`: the arms in their order and the armed cut, and what is due at a use: exactly the
    ///   definitions of `model_medium`.
    pub fn count(&mut self, block: u32) -> Due
        ensures dies { result.dies ≡ is_killed block (arms_of self.old) }
        ensures due { result.cut ≡ fate_due (armed_cut_of self.old) }
        ensures arms { arms_of self.new ≡ arms_after block (arms_of self.old) }
        ensures cut { armed_cut_of self.new ≡ cut_after (armed_cut_of self.old) }
    {
        let dies = self.count_arms(block);
        let cut = self.count_cut();
        Due { dies, cut }
    }

    /// Counts the arms of the block down, and drops those that reach 0. Whether there are any of these.
    fn count_arms(&mut self, block: u32) -> bool
        ensures dies { result ≡ is_killed block (arms_of self.old) }
        ensures arms { arms_of self.new ≡ arms_after block (arms_of self.old) }
        ensures cut { armed_cut_of self.new ≡ armed_cut_of self.old }
    {
        let dies = self
            .worn
            .as_slice()
            .iter()
            .any(|worn| worn.block == block && worn.left <= 1);
        self.worn.retain(|worn| stands(worn, block));
        dies
    }

    /// Counts the armed cut down, and drops it where it reaches 0. Its fate is then due.
    fn count_cut(&mut self) -> Option<Fate>
        ensures due { result ≡ fate_due (armed_cut_of self.old) }
        ensures arms { arms_of self.new ≡ arms_of self.old }
        ensures cut { armed_cut_of self.new ≡ cut_after (armed_cut_of self.old) }
    {
        let armed = self.cut?;
        if armed.left <= 1 {
            self.cut = None;
            return Some(armed.fate);
        }
        self.cut = Some(ArmedCut {
            left: armed.left - 1,
            fate: armed.fate,
        });
        None
    }
}
