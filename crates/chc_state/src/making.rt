//! Why parts are no state.

use chc_sorts::{Limit, NoMemory};

/// Why parts are no state.
#[derive(Clone, Copy, Debug, PartialEq, Eq)]
pub enum StateErr {
    /// The clause of that number is the first that isn't well formed, or uses a predicate that isn't live.
    BadClause(u32),
    /// The first limit that is passed.
    OverLimit(Limit),
    /// Memory was refused.
    NoMemory,
}

impl From<NoMemory> for StateErr {
    ghost use Rattle.std.specs.Prelude.{◌≡◌};
    ghost use Rattle.chc_state.specs.declared.making.StateErr.TheVariants.{NoMemory as refused};

    ghost from_gives = { λ _ made. made ≡ refused };

    fn from(_refused: NoMemory) -> StateErr {
        StateErr::NoMemory
    }
}

impl<T: Drop> From<(T, NoMemory)> for StateErr {
    ghost use Rattle.std.specs.Prelude.{◌≡◌};
    ghost use Rattle.chc_state.specs.declared.making.StateErr.TheVariants.{NoMemory as refused};

    ghost from_gives = { λ _ made. made ≡ refused };

    fn from(_refused: (T, NoMemory)) -> StateErr {
        StateErr::NoMemory
    }
}
