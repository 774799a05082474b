//! A source whose bytes are made as they are asked for: a script of any length, in lines of 65,536.
ghost use Rattle.std.specs.Prelude.{None};

use ram_outside::{Source, Take};

/// How many bytes a line has, with its line feed.
const LINE: usize = 65_536;

/// The source: at which byte it is, and at which it ends.
#[derive(Drop)]
pub struct Made {
    at: usize,
    end: usize,
}

impl Made {
    /// A source of `end` bytes.
    pub fn new(end: usize) -> Made {
        Made { at: 0, end }
    }
}

impl Source for Made {
    ghost left = { λ _. None };

    ghost faults = { λ _. 0 };

    fn take(&mut self, into: &mut [u8]) -> Take {
        let count = into.len().min(self.end.saturating_sub(self.at));
        if count == 0 {
            return Take::End;
        }
        into[..count].fill(b'a');
        let last = LINE - 1 - self.at % LINE;
        if last < count {
            into[last] = b'\n';
        }
        self.at += count;
        Take::Got(count)
    }
}
