//! The calls of an object in memory: which of them fail, and how many did. It touches no bytes.
ghost use Rattle.std.specs.Prelude.{◌≡◌, ◌↔◌, IsTrue, if◌then◌else◌};
ghost use Rattle.ram_outside.specs.Calls.{no_calls, NextCallFails, with_call, with_faults, with_failed_call};

use std::marker::Model;

/// The calls of an object in memory: which of them fail, how many were made, and how often one failed.
#[derive(Debug, Drop)]
pub(crate) struct Calls {
    failing: Vec<u64>,
    made: u64,
    faults: u64,
}

impl Model for Calls {
    ghost use Rattle.ram_outside.specs.Calls.{CallLog};

    ghost Value = { CallLog };

    ghost view = { λ c. record { failing = c.failing.items; made = c.made; faults = c.faults } };
}

impl Calls {
    /// No call was made yet. `failing` has the numbers, from 1 on, of the calls that fail.
    pub(crate) fn new(failing: Vec<u64>) -> Calls
        ensures { result ≡ no_calls failing.items }
    {
        Calls {
            failing,
            made: 0,
            faults: 0,
        }
    }

    /// How many calls were made, up to 2^64 - 1.
    pub(crate) fn made(&self) -> u64
        ensures { result ≡ self.now.made }
    {
        self.made
    }

    /// How often a call failed, up to 2^64 - 1.
    pub(crate) fn faults(&self) -> u64
        ensures { result ≡ self.now.faults }
    {
        self.faults
    }

    /// Counts one call more, and its failure where it is one that fails. Whether it is.
    pub(crate) fn next_fails(&mut self) -> bool
        ensures named { IsTrue result ↔ NextCallFails self.old }
        ensures log { self.new ≡ (if result then with_failed_call self.old else with_call self.old) }
    {
        self.made = self.made.saturating_add(1);
        let fails = self.failing.contains(&self.made);
        if fails {
            self.add_faults(1);
        }
        fails
    }

    /// Counts n failures more.
    pub(crate) fn add_faults(&mut self, more: u64)
        ensures { self.new ≡ with_faults more self.old }
    {
        self.faults = self.faults.saturating_add(more);
    }
    /// Forgets the failures that were counted.
    pub(crate) fn forget_faults(&mut self)
        ensures { self.new ≡ record self.old { faults = 0 } }
    {
        self.faults = 0;
    }
}
