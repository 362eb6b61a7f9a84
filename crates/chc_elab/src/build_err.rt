//! Why a term isn't built.

use chc_sorts::NoMemory;

/// Why a term isn't built.
#[derive(Debug, Drop)]
pub enum BuildErr {
    /// It would have more nodes than a term may have.
    TooLarge,
    /// Memory was refused.
    NoMemory,
}

impl From<NoMemory> for BuildErr {
    ghost use Rattle.std.specs.Prelude.{◌≡◌};
    ghost use Rattle.chc_elab.specs.declared.build_err.BuildErr.TheVariants.{NoMemory as refused};

    ghost from_gives = { λ _ made. made ≡ refused };

    fn from(_refused: NoMemory) -> BuildErr {
        BuildErr::NoMemory
    }
}

impl<T: Drop> From<(T, NoMemory)> for BuildErr {
    ghost use Rattle.std.specs.Prelude.{◌≡◌};
    ghost use Rattle.chc_elab.specs.declared.build_err.BuildErr.TheVariants.{NoMemory as refused};

    ghost from_gives = { λ _ made. made ≡ refused };

    fn from(_refused: (T, NoMemory)) -> BuildErr {
        BuildErr::NoMemory
    }
}
