//! Files in memory that never fail.

ghost use Rattle.std.specs.Prelude.{◌<◌};

use crate::files::{FileErr, Files};
use crate::store::Store;
use chc_sorts::NoMemory;
use std::alloc::Global;

/// Files in memory that never fail but for want of memory. They tell what they hold; a name that isn't
/// held reads as an empty file.
#[derive(Debug, Drop)]
pub struct QuietFiles {
    piece: usize,
    store: Store,
    ghost takes_some: { 0 < piece },
}

impl QuietFiles {
    ghost use Rattle.std.specs.Prelude.{◌≡◌, ◌<◌, OnOk, OnErr, option_copied};
    ghost use Rattle.chc_source.specs.Outside.{NowHolds, IsAsBefore, IsFresh};
    ghost use Rattle.chc_source.specs.Memory.{quiet_outside, quiet_piece_of};

    /// No files. An append takes at most `piece` bytes, which is at least 1.
    pub fn new(alloc: Global, piece: usize) -> QuietFiles
        requires { 0 < piece }
        ensures fresh { IsFresh (quiet_outside result) }
        ensures piece { quiet_piece_of result ≡ piece }
    {
        QuietFiles {
            piece,
            store: Store::new(alloc),
        }
    }

    /// Holds `bytes` under `name` in place of what was there. Where memory is refused nothing changes.
    pub fn hold(&mut self, name: &str, bytes: &[u8]) -> Result<(), NoMemory>
        ensures held { OnOk result (NowHolds name.now bytes.now (quiet_outside self.old) (quiet_outside self.new)) }
        ensures same { OnErr result (IsAsBefore (quiet_outside self.old) (quiet_outside self.new)) }
        ensures piece { quiet_piece_of self.new ≡ quiet_piece_of self.old }
    {
        self.store.hold(name, bytes)
    }

    /// The bytes under `name`, or `None` where it isn't held.
    pub fn held(&self, name: &str) -> Option<&[u8]>
        ensures { option_copied result ≡ (quiet_outside self.now).held name.now }
    {
        self.store.held(name)
    }
}

impl Files for QuietFiles {
    ghost use Rattle.std.specs.Prelude.{◌≡◌, ◌^◌, ◌<◌, ◌≤◌, min, length, take, IfOk, IfErr, OnOk, OnErr};
    ghost use Rattle.chc_source.specs.Outside.{bytes_at, OnlyReads, OnlyWrites, Gave, Started, Took};
    ghost use Rattle.chc_source.specs.Causes.{IfFailed};
    ghost use Rattle.chc_source.specs.Memory.{quiet_outside, quiet_piece_of};

    ghost outside = { quiet_outside };

    fn read_at(&mut self, name: &str, from: u64, into: &mut [u8]) -> Result<usize, FileErr>
        requires room { 0 < length into.old }
        requires place { from ≤ 2 ^ 32 }
        ensures count { IfOk result (λ n. n ≤ length into.old) }
        ensures bytes { IfOk result (λ n. Gave (bytes_at (quiet_outside self.old) name.now) from n into.new) }
        ensures only { OnlyReads name.now (quiet_outside self.old) (quiet_outside self.new) }
        ensures cause { IfErr result (λ e. IfFailed e ⊥) }
        ensures piece { quiet_piece_of self.new ≡ quiet_piece_of self.old }
    {
        Ok(self.store.read(name, from, into).unwrap_or(0))
    }

    fn start(&mut self, name: &str) -> Result<(), FileErr>
        ensures started { OnOk result (Started name.now (quiet_outside self.old) (quiet_outside self.new)) }
        ensures refused { OnErr result ((quiet_outside self.new).held name.now ≡ (quiet_outside self.old).held name.now) }
        ensures only { OnlyWrites name.now (quiet_outside self.old) (quiet_outside self.new) }
        ensures cause { IfErr result (λ e. IfFailed e ⊥) }
        ensures piece { quiet_piece_of self.new ≡ quiet_piece_of self.old }
    {
        self.store.hold(name, &[])?;
        Ok(())
    }

    fn append(&mut self, name: &str, bytes: &[u8]) -> Result<usize, FileErr>
        requires { 0 < length bytes.now }
        ensures count { IfOk result (λ n. (0 < n) × (n ≤ length bytes.now)) }
        ensures added { IfOk result (λ n. Took name.now (take n bytes.now) (quiet_outside self.old) (quiet_outside self.new)) }
        ensures refused { OnErr result ((quiet_outside self.new).held name.now ≡ (quiet_outside self.old).held name.now) }
        ensures only { OnlyWrites name.now (quiet_outside self.old) (quiet_outside self.new) }
        ensures cause { IfErr result (λ e. IfFailed e ⊥) }
        ensures size { IfOk result (λ n. n ≡ min (length bytes.now) (quiet_piece_of self.old)) }
        ensures piece { quiet_piece_of self.new ≡ quiet_piece_of self.old }
    {
        let count = bytes.len().min(self.piece);
        self.store.add(name, &bytes[..count])?;
        Ok(count)
    }
}
