//! The steps between states.

ghost use Rattle.std.specs.Prelude.{◌≡◌, IfOk};

use chc_sorts::{List, NoMemory};
use std::alloc::Global;

/// A step, with the choice that it takes. Predicates are given by number, ascending.
#[derive(Debug, Drop)]
pub enum Step {
    /// Removes the clause of that number, which concludes nothing new.
    Void(u32),
    /// Removes predicates that no derivation reaches, with the clauses that need one of them.
    Unreached(List<u32>),
    /// Removes predicates that no query needs, with the clauses that conclude one of them.
    Unneeded(List<u32>),
}

impl Step {
    /// An equal step on fresh memory.
    pub fn copy(&self, alloc: Global) -> Result<Step, NoMemory>
        ensures { IfOk result (λ x. x ≡ self.now) }
    {
        Ok(match self {
            Step::Void(k) => Step::Void(*k),
            Step::Unreached(preds) => Step::Unreached(preds.copy(alloc)?),
            Step::Unneeded(preds) => Step::Unneeded(preds.copy(alloc)?),
        })
    }
}
