//! Files in memory that fail where they are told to.

ghost use Rattle.std.specs.Prelude.{◌<◌};

use crate::faults::Faults;
use crate::files::{FileErr, Files};
use crate::schedule::Schedule;
use crate::store::Store;
use chc_sorts::NoMemory;
use std::alloc::Global;

/// Files in memory. They tell what they hold, take few bytes at a time, and fail at the calls that
/// `fail_at` names. A call that finds no memory for the counts of its name isn't counted as a call.
#[derive(Debug, Drop)]
pub struct MemFiles {
    piece: usize,
    store: Store,
    faults: Faults,
    schedule: Schedule,
    ghost takes_some: { 0 < piece },
}

impl MemFiles {
    ghost use Rattle.std.specs.Prelude.{◌≡◌, ℕ, ◌<◌, false, OnOk, OnErr, option_copied};
    ghost use Rattle.chc_source.specs.Outside.{NowHolds, IsAsBefore, IsFresh};
    ghost use Rattle.chc_source.specs.Memory.{memory_outside, piece_of, calls_made, fails_call, SameManner, FailsToo};

    /// No files. An append takes at most `piece` bytes, which is at least 1.
    pub fn new(alloc: Global, piece: usize) -> MemFiles
        requires { 0 < piece }
        ensures fresh { IsFresh (memory_outside result) }
        ensures piece { piece_of result ≡ piece }
        ensures calls { calls_made result ≡ 0 }
        ensures failing { (k : ℕ) → fails_call result k ≡ false }
    {
        MemFiles {
            piece,
            store: Store::new(alloc),
            faults: Faults::new(alloc),
            schedule: Schedule::new(alloc),
        }
    }

    /// Holds `bytes` under `name` in place of what was there. This is no call of the trait. Where
    /// memory is refused nothing changes.
    pub fn hold(&mut self, name: &str, bytes: &[u8]) -> Result<(), NoMemory>
        ensures held { OnOk result (NowHolds name.now bytes.now (memory_outside self.old) (memory_outside self.new)) }
        ensures same { OnErr result (IsAsBefore (memory_outside self.old) (memory_outside self.new)) }
        ensures manner { SameManner self.old self.new }
        ensures calls { calls_made self.new ≡ calls_made self.old }
    {
        self.store.hold(name, bytes)
    }

    /// Makes the trait call of this number fail; calls are counted from 0 over all three. Where memory
    /// is refused nothing changes.
    pub fn fail_at(&mut self, call: u64) -> Result<(), NoMemory>
        ensures failing { OnOk result (FailsToo call self.old self.new) }
        ensures same { OnErr result (SameManner self.old self.new) }
        ensures outside { IsAsBefore (memory_outside self.old) (memory_outside self.new) }
        ensures calls { calls_made self.new ≡ calls_made self.old }
    {
        self.schedule.fail_at(call)
    }

    /// The bytes under `name`, or `None` where it isn't held.
    pub fn held(&self, name: &str) -> Option<&[u8]>
        ensures { option_copied result ≡ (memory_outside self.now).held name.now }
    {
        self.store.held(name)
    }
}

impl Files for MemFiles {
    ghost use Rattle.std.specs.Prelude.{◌≡◌, ◌⊎◌, ◌^◌, ◌<◌, ◌≤◌, min, length, take, None, IsTrue, IsErr, IfOk, IfErr, OnOk, OnErr};
    ghost use Rattle.chc_source.specs.Outside.{bytes_at, Rose, OnlyReads, OnlyWrites, Gave, Started, IsAsBeforeOrEmpty, Took};
    ghost use Rattle.chc_source.specs.Causes.{IfFailed};
    ghost use Rattle.chc_source.specs.Memory.{memory_outside, piece_of, calls_made, fails_call, SameManner, IsCounted};

    ghost outside = { memory_outside };

    fn read_at(&mut self, name: &str, from: u64, into: &mut [u8]) -> Result<usize, FileErr>
        requires room { 0 < length into.old }
        requires place { from ≤ 2 ^ 32 }
        ensures count { IfOk result (λ n. n ≤ length into.old) }
        ensures bytes { IfOk result (λ n. Gave (bytes_at (memory_outside self.old) name.now) from n into.new) }
        ensures only { OnlyReads name.now (memory_outside self.old) (memory_outside self.new) }
        ensures cause { IfErr result (λ e. IfFailed e (Rose ((memory_outside self.old).read_faults name.now) ((memory_outside self.new).read_faults name.now))) }
        ensures failing { IsTrue (fails_call self.old (calls_made self.old)) → IsErr result }
        ensures absent { (memory_outside self.old).held name.now ≡ None → IsErr result }
        ensures reason { IfErr result (λ e. IfFailed e (IsTrue (fails_call self.old (calls_made self.old)) ⊎ ((memory_outside self.old).held name.now ≡ None))) }
        ensures calls { IsCounted result self.old self.new }
        ensures manner { SameManner self.old self.new }
    {
        self.faults.enter(name)?;
        if self.schedule.take() {
            self.faults.read_failed(name);
            return Err(FileErr::Failed);
        }
        match self.store.read(name, from, into) {
            Some(count) => Ok(count),
            None => {
                self.faults.read_failed(name);
                Err(FileErr::Failed)
            }
        }
    }

    fn start(&mut self, name: &str) -> Result<(), FileErr>
        ensures started { OnOk result (Started name.now (memory_outside self.old) (memory_outside self.new)) }
        ensures refused { OnErr result (IsAsBeforeOrEmpty name.now (memory_outside self.old) (memory_outside self.new)) }
        ensures only { OnlyWrites name.now (memory_outside self.old) (memory_outside self.new) }
        ensures cause { IfErr result (λ e. IfFailed e (Rose ((memory_outside self.old).write_faults name.now) ((memory_outside self.new).write_faults name.now))) }
        ensures failing { IsTrue (fails_call self.old (calls_made self.old)) → IsErr result }
        ensures reason { IfErr result (λ e. IfFailed e (IsTrue (fails_call self.old (calls_made self.old)))) }
        ensures calls { IsCounted result self.old self.new }
        ensures manner { SameManner self.old self.new }
    {
        self.faults.enter(name)?;
        if self.schedule.take() {
            self.faults.write_failed(name);
            return Err(FileErr::Failed);
        }
        self.store.hold(name, &[])?;
        Ok(())
    }

    fn append(&mut self, name: &str, bytes: &[u8]) -> Result<usize, FileErr>
        requires { 0 < length bytes.now }
        ensures count { IfOk result (λ n. (0 < n) × (n ≤ length bytes.now)) }
        ensures added { IfOk result (λ n. Took name.now (take n bytes.now) (memory_outside self.old) (memory_outside self.new)) }
        ensures refused { OnErr result ((memory_outside self.new).held name.now ≡ (memory_outside self.old).held name.now) }
        ensures only { OnlyWrites name.now (memory_outside self.old) (memory_outside self.new) }
        ensures cause { IfErr result (λ e. IfFailed e (Rose ((memory_outside self.old).write_faults name.now) ((memory_outside self.new).write_faults name.now))) }
        ensures piece { IfOk result (λ n. n ≡ min (length bytes.now) (piece_of self.old)) }
        ensures failing { IsTrue (fails_call self.old (calls_made self.old)) → IsErr result }
        ensures reason { IfErr result (λ e. IfFailed e (IsTrue (fails_call self.old (calls_made self.old)))) }
        ensures calls { IsCounted result self.old self.new }
        ensures manner { SameManner self.old self.new }
    {
        self.faults.enter(name)?;
        if self.schedule.take() {
            self.faults.write_failed(name);
            return Err(FileErr::Failed);
        }
        let count = bytes.len().min(self.piece);
        self.store.add(name, &bytes[..count])?;
        Ok(count)
    }
}
