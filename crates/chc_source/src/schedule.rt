//! Calls that are made to fail, by number.

ghost use Rattle.std.specs.Prelude.{◌≡◌, ℕ, ◌+◌, ◌-◌, ◌^◌, min, false, OnOk, OnErr};
ghost use Rattle.chc_source.specs.Schedule.{fails_at, FailsAlso, SameSchedule};

use chc_sorts::NoMemory;
use std::alloc::Global;
use std::collections::BTreeSet;

/// The number of the next call, and the numbers of those that fail.
#[derive(Debug, Drop)]
pub(crate) struct Schedule {
    next: u64,
    failing: BTreeSet<u64>,
}

impl Schedule {
    /// No call fails, and the next one is call 0.
    pub(crate) fn new(alloc: Global) -> Schedule
        ensures next { result.next ≡ 0 }
        ensures none { (k : ℕ) → fails_at result k ≡ false }
    {
        Schedule {
            next: 0,
            failing: BTreeSet::new(alloc),
        }
    }

    /// Makes the call of this number fail too.
    pub(crate) fn fail_at(&mut self, call: u64) -> Result<(), NoMemory>
        ensures also { OnOk result (FailsAlso call self.old self.new) }
        ensures same { OnErr result (SameSchedule self.old self.new) }
    {
        self.failing.insert(call)?;
        Ok(())
    }

    /// Counts a call, and says whether it fails.
    pub(crate) fn take(&mut self) -> bool
        ensures fails { result ≡ fails_at self.old self.old.next }
        ensures next { self.new.next ≡ min (self.old.next + 1) (2 ^ 64 - 1) }
        ensures same { (k : ℕ) → fails_at self.new k ≡ fails_at self.old k }
    {
        let fails = self.failing.contains(&self.next);
        self.next = self.next.saturating_add(1);
        fails
    }
}
