//! What a program needs of files: reading at a place, starting anew, adding at the end.

ghost use Rattle.std.specs.Prelude.{◌≡◌, ◌^◌, ◌<◌, ◌≤◌, length, take, IsTrue, IfOk, IfErr, OnOk, OnErr};
ghost use Rattle.chc_source.specs.Outside.{Outside, bytes_at, Rose, OnlyReads, OnlyWrites, Gave, Started, IsAsBeforeOrEmpty, Took};
ghost use Rattle.chc_source.specs.Causes.{IfFailed};

use chc_sorts::NoMemory;
use thiserror::Error;

/// Why a call on a file gave nothing.
#[derive(Clone, Copy, Debug, PartialEq, Eq, Error)]
pub enum FileErr {
    /// The outside failed: the count of such faults of this name rose in that call.
    #[error("a file operation failed")]
    Failed,
    /// Memory was refused.
    #[error("out of memory")]
    NoMemory,
}

impl From<NoMemory> for FileErr {
    ghost use Rattle.std.specs.Prelude.{◌≡◌};
    ghost use Rattle.chc_source.specs.declared.files.FileErr.{FileErr};

    ghost from_gives = { λ _ r. r ≡ FileErr.NoMemory };

    fn from(_refused: NoMemory) -> FileErr {
        FileErr::NoMemory
    }
}

/// A set of files by name. For each name two counts tell how often reading and writing failed so far;
/// they never fall, and stand still at 2^64 - 1.
///
/// An object may tell what it holds, as one in memory does, or not, as one over a disk. Whether it
/// tells never changes. What the calls say of bytes is said of an object that tells.
pub trait Files {
    /// What the object tells, what it holds under each name, and its counts of faults.
    ghost outside: { Self → Outside };

    /// Reads at most `into.len()` bytes of the file `name` from the byte at `from` on, and says how
    /// many came. None come only at the file's end. The rest of `into` holds anything.
    /// `from` is at most 2^32.
    fn read_at(&mut self, name: &str, from: u64, into: &mut [u8]) -> Result<usize, FileErr>
        requires room { 0 < length into.old }
        requires place { from ≤ 2 ^ 32 }
        ensures count { IfOk result (λ n. n ≤ length into.old) }
        ensures bytes { IfOk result (λ n. IsTrue (outside self.old).tells → Gave (bytes_at (outside self.old) name.now) from n into.new) }
        ensures only { OnlyReads name.now (outside self.old) (outside self.new) }
        ensures cause { IfErr result (λ e. IfFailed e (Rose ((outside self.old).read_faults name.now) ((outside self.new).read_faults name.now))) };

    /// Makes the file `name` empty; a name that isn't held is held from then on. After a refusal the
    /// file is as before or empty.
    fn start(&mut self, name: &str) -> Result<(), FileErr>
        ensures started { OnOk result (Started name.now (outside self.old) (outside self.new)) }
        ensures refused { OnErr result (IsAsBeforeOrEmpty name.now (outside self.old) (outside self.new)) }
        ensures only { OnlyWrites name.now (outside self.old) (outside self.new) }
        ensures cause { IfErr result (λ e. IfFailed e (Rose ((outside self.old).write_faults name.now) ((outside self.new).write_faults name.now))) };

    /// Adds bytes at the end of the file `name`, and says how many of the first ones were added: at
    /// least one. After a refusal none were.
    fn append(&mut self, name: &str, bytes: &[u8]) -> Result<usize, FileErr>
        requires { 0 < length bytes.now }
        ensures count { IfOk result (λ n. (0 < n) × (n ≤ length bytes.now)) }
        ensures added { IfOk result (λ n. Took name.now (take n bytes.now) (outside self.old) (outside self.new)) }
        ensures refused { OnErr result ((outside self.new).held name.now ≡ (outside self.old).held name.now) }
        ensures only { OnlyWrites name.now (outside self.old) (outside self.new) }
        ensures cause { IfErr result (λ e. IfFailed e (Rose ((outside self.old).write_faults name.now) ((outside self.new).write_faults name.now))) };
}
