//! Refutations: derivations of false, step by step.

use chc_sorts::{List, NoMemory};
use chc_values::{Value, World};

/// A step: a clause on values of its variables, and for each of its body atoms an earlier step that concludes it.
#[derive(Debug, Drop)]
pub struct RefStep {
    /// The clause's number.
    pub clause: u32,
    /// The values of the clause's variables, in order.
    pub values: List<Value>,
    /// For each body atom, in order, the number of an earlier step.
    pub premises: List<u64>,
}

/// The steps of a refutation, the last of which is a query's.
pub type Steps = List<RefStep>;

/// A world, and steps that derive false in it.
#[derive(Debug, Drop)]
pub struct Refutation {
    pub world: World,
    pub steps: Steps,
}

/// Why steps aren't taken back.
#[derive(Clone, Copy, Debug, PartialEq, Eq)]
pub enum BackErr {
    /// The step of that number is the first for which a value is computed that isn't in range.
    OutOfRange(u64),
    /// Memory was refused.
    NoMemory,
}

impl From<NoMemory> for BackErr {
    ghost use Rattle.std.specs.Prelude.{◌≡◌};
    ghost use Rattle.chc_state.specs.declared.refutation.BackErr.TheVariants.{NoMemory as refused};

    ghost from_gives = { λ _ made. made ≡ refused };

    fn from(_refused: NoMemory) -> BackErr {
        BackErr::NoMemory
    }
}

impl<T: Drop> From<(T, NoMemory)> for BackErr {
    ghost use Rattle.std.specs.Prelude.{◌≡◌};
    ghost use Rattle.chc_state.specs.declared.refutation.BackErr.TheVariants.{NoMemory as refused};

    ghost from_gives = { λ _ made. made ≡ refused };

    fn from(_refused: (T, NoMemory)) -> BackErr {
        BackErr::NoMemory
    }
}
