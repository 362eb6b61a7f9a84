//! What a program needs of an output that only grows.

ghost use Rattle.std.specs.Prelude.{◌≡◌, ◌<◌, ◌≤◌, ◌++◌, length, take, IsTrue, IfOk, OnErr};
ghost use Rattle.chc_source.specs.Outside.{Rose};
ghost use Rattle.chc_source.specs.Output.{Output, GoesOn};

/// A put was refused, and the count of the sink's faults rose.
#[derive(Clone, Copy, Debug, PartialEq, Eq)]
pub struct Failed;

/// An output that takes bytes one after the other. A count tells how often it failed so far; it never
/// falls, and stands still at 2^64 - 1. Whether a sink tells what it took never changes; what `put`
/// says of bytes is said of one that tells.
pub trait Sink {
    /// Whether the sink tells what it took, what it took, and its count of faults.
    ghost output: { Self → Output };

    /// Adds bytes, and says how many of the first ones were taken: at least one. After a refusal none
    /// were.
    fn put(&mut self, bytes: &[u8]) -> Result<usize, Failed>
        requires { 0 < length bytes.now }
        ensures count { IfOk result (λ n. (0 < n) × (n ≤ length bytes.now)) }
        ensures added { IfOk result (λ n. IsTrue (output self.old).tells → (output self.new).taken ≡ (output self.old).taken ++ take n bytes.now) }
        ensures refused { OnErr result ((output self.new).taken ≡ (output self.old).taken) }
        ensures only { GoesOn (output self.old) (output self.new) }
        ensures cause { OnErr result (Rose (output self.old).faults (output self.new).faults) };
}
