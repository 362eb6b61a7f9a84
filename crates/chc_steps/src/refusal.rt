//! Why runs are refused.

ghost use Rattle.std.specs.Prelude.{◌≡◌};
ghost use Rattle.chc_steps.specs.Refusals.{refused_at};

use chc_sorts::NoMemory;
use chc_state::BackErr;

/// Why steps can't be taken again.
#[derive(Clone, Copy, Debug, PartialEq, Eq)]
pub enum ReplayErr {
    /// The step of that number, counted from 0, is the first that isn't legal where it stands.
    NotLegal(u64),
    /// Memory was refused.
    NoMemory,
}

impl From<NoMemory> for ReplayErr {
    ghost use Rattle.std.specs.Prelude.{◌≡◌};
    ghost use Rattle.chc_steps.specs.declared.refusal.ReplayErr.TheVariants.{NoMemory as refused};

    ghost from_gives = { λ _ made. made ≡ refused };

    fn from(_refused: NoMemory) -> ReplayErr {
        ReplayErr::NoMemory
    }
}

impl<T: Drop> From<(T, NoMemory)> for ReplayErr {
    ghost use Rattle.std.specs.Prelude.{◌≡◌};
    ghost use Rattle.chc_steps.specs.declared.refusal.ReplayErr.TheVariants.{NoMemory as refused};

    ghost from_gives = { λ _ made. made ≡ refused };

    fn from(_refused: (T, NoMemory)) -> ReplayErr {
        ReplayErr::NoMemory
    }
}

/// Why the steps of a refutation aren't taken back over a run.
#[derive(Clone, Copy, Debug, PartialEq, Eq)]
pub enum RunBackErr {
    /// Going back from the last step of the run, the one of the first number is the first for which a value is computed
    /// that isn't in range. The second number is the first such step of the refutation that was handed to it.
    OutOfRange(u64, u64),
    /// Memory was refused.
    NoMemory,
}

impl RunBackErr {
    /// The refusal of the run's step of number `k`.
    pub(crate) fn at(k: u64, refused: BackErr) -> RunBackErr
        ensures { result ≡ refused_at k refused }
    {
        match refused {
            BackErr::OutOfRange(n) => RunBackErr::OutOfRange(k, n),
            BackErr::NoMemory => RunBackErr::NoMemory,
        }
    }
}
