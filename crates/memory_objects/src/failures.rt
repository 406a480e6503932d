ghost use Rattle.std.specs.Prelude.{◌≡◌, ◌≤◌, ◌↔◌, IsTrue, Contains, is_ok, if◌then◌else◌};
ghost use Rattle.outside.specs.Count.{counted};

use outside::StoreFault;
use std::alloc::AllocError;

/// Which calls of an object in memory are to fail, and how many did.
#[derive(Debug, Drop)]
pub struct Failures {
    /// The numbers of the calls that are to fail, counted from 1.
    pub failing: Vec<u64>,
    /// How many calls there were.
    pub calls: u64,
    /// How many calls have failed.
    pub faults: u64,
}

impl Failures {
    /// No call yet.
    pub fn new(failing: Vec<u64>) -> Self
        ensures failing { result.failing.items ≡ failing.items }
        ensures calls { result.calls ≡ 0 }
        ensures faults { result.faults ≡ 0 }
    {
        Failures {
            failing,
            calls: 0,
            faults: 0,
        }
    }

    /// Counts one more call, and says whether it is to fail, which is then counted too.
    pub fn next_fails(&mut self) -> bool
        ensures planned { IsTrue result ↔ Contains self.old.failing.items (counted self.old.calls) }
        ensures failing { self.new.failing.items ≡ self.old.failing.items }
        ensures calls { self.new.calls ≡ counted self.old.calls }
        ensures faults { self.new.faults ≡ (if result then counted self.old.faults else self.old.faults) }
        ensures later { self.old.faults ≤ self.new.faults }
    {
        self.calls = self.calls.saturating_add(1);
        let fails = self.failing.contains(&self.calls);
        if fails {
            self.count_fault();
        }
        fails
    }

    /// Counts a fault.
    pub fn count_fault(&mut self)
        ensures failing { self.new.failing ≡ self.old.failing }
        ensures calls { self.new.calls ≡ self.old.calls }
        ensures faults { self.new.faults ≡ counted self.old.faults }
        ensures later { self.old.faults ≤ self.new.faults }
    {
        self.faults = self.faults.saturating_add(1);
    }

    /// What a store answers that has done its work, or that could not get the memory for it, which is a fault.
    pub fn outcome(&mut self, done: Result<(), AllocError>) -> Result<(), StoreFault>
        ensures same { is_ok result ≡ is_ok done }
        ensures failing { self.new.failing ≡ self.old.failing }
        ensures calls { self.new.calls ≡ self.old.calls }
        ensures faults { self.new.faults ≡ (if is_ok done then self.old.faults else counted self.old.faults) }
        ensures later { self.old.faults ≤ self.new.faults }
    {
        match done {
            Ok(()) => Ok(()),
            Err(_) => {
                self.count_fault();
                Err(StoreFault)
            }
        }
    }
}
