//! Memory that is asked for within a budget: all requests together ask for n bytes at most, and only a request that the
//! system refused makes a refusal.

ghost use Rattle.std.specs.Prelude.{◌≡◌, ◌+◌, ◌*◌, ◌<◌, ◌≤◌, ◌^◌, [], IfOk, replicate, vec_capacity};
ghost use prog.Memory.{size};
ghost use denote.Param.{layout};
ghost use Rattle.ram_bytes.specs.declared.budget.TheConstants.{AMPLE};

use std::alloc::{AllocError, Global};
use std::marker::Model;
use std::mem::size_of;

/// More bytes than any test asks for.
const AMPLE: usize = 1_000_000_000_000;

/// That the system refused memory. No other module can make one.
#[derive(Debug, Drop)]
pub struct MemoryRefused {
    by_system: (),
}

impl From<MemoryRefused> for AllocError {
    fn from(_refused: MemoryRefused) -> AllocError {
        AllocError
    }
}

/// Memory of which n bytes may still be asked for. A contract sees it as that number.
#[derive(Drop)]
pub struct Budget {
    alloc: Global,
    left: usize,
}

impl Model for Budget {
    ghost use Rattle.std.specs.Prelude.{ℕ, ◌<◌, ◌^◌};

    ghost Value = { ℕ };

    ghost view = { λ b. b.left };

    ghost invariant = { λ b. b.left < 2 ^ 63 };
}

impl Budget {
    /// So many bytes, of which none was asked for yet.
    pub fn new(alloc: Global, bytes: usize) -> Budget
        requires { bytes < 2 ^ 63 }
        ensures { result ≡ bytes }
    {
        Budget { alloc, left: bytes }
    }

    /// A budget for tests, which have no limit of their own.
    pub fn ample(alloc: Global) -> Budget
        ensures { result ≡ AMPLE }
    {
        Budget::new(alloc, AMPLE)
    }

    /// Takes off what n values need.
    fn take_off<T>(&mut self, count: usize)
        requires { count * size (layout T.row) ≤ self.old }
        ensures { self.new + count * size (layout T.row) ≡ self.old }
    {
        let left = self.left;
        self.left = left - count * size_of::<T>();
    }

    /// Room for n values.
    ///
    /// # Answers
    ///
    /// - `Ok`: room for this many values, whose bytes are taken off the budget. (clause)
    /// - `Err`: the system refused it; its bytes are taken off all the same. (clause)
    pub fn room<T>(&mut self, count: usize) -> Result<Vec<T>, MemoryRefused>
        requires free { count * size (layout T.row) ≤ self.old }
        ensures left { self.new + count * size (layout T.row) ≡ self.old }
        ensures room { IfOk result (λ room. (room.items ≡ []) × (vec_capacity room ≡ count)) }
    {
        self.take_off::<T>(count);
        match Vec::with_capacity(self.alloc, count) {
            Ok(room) => Ok(room),
            Err(_) => Err(MemoryRefused { by_system: () }),
        }
    }

    /// So many bytes, all zero.
    ///
    /// # Answers
    ///
    /// - `Ok`: this many zeros. (clause)
    /// - `Err`: the system refused them. (clause)
    pub fn zeros(&mut self, count: usize) -> Result<Vec<u8>, MemoryRefused>
        requires free { count ≤ self.old }
        ensures left { self.new + count ≡ self.old }
        ensures zeros { IfOk result (λ zeros. zeros.items ≡ replicate count 0) }
    {
        self.left -= count;
        match Vec::from_elem(self.alloc, 0, count) {
            Ok(zeros) => Ok(zeros),
            Err(_) => Err(MemoryRefused { by_system: () }),
        }
    }

    /// The value in a room of its own.
    ///
    /// # Answers
    ///
    /// - `Ok`: the value in a room of its own. (clause)
    /// - `Err`: the system refused the room. (clause)
    pub fn boxed<T: Drop>(&mut self, value: T) -> Result<Box<T>, MemoryRefused>
        requires free { size (layout T.row) ≤ self.old }
        ensures left { self.new + size (layout T.row) ≡ self.old }
        ensures value { IfOk result (λ room. room.value ≡ value) }
    {
        self.take_off::<T>(1);
        match Box::new(self.alloc, value) {
            Ok(room) => Ok(room),
            Err(_) => Err(MemoryRefused { by_system: () }),
        }
    }
}
