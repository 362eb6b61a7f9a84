//! Why an assertion has no clause.

use chc_sorts::NoMemory;

/// Why an assertion has no clause.
#[derive(Clone, Copy, Debug, PartialEq, Eq)]
pub enum HornErr {
    /// A quantifier stands elsewhere than in front.
    QuantInside,
    /// The rest behind the quantifiers is no Horn clause, or an atom's argument has a predicate in it.
    NotHorn,
    /// Memory was refused.
    NoMemory,
}

impl From<NoMemory> for HornErr {
    ghost use Rattle.std.specs.Prelude.{◌≡◌};
    ghost use Rattle.chc_script.specs.declared.horn.refusal.HornErr.TheVariants.{NoMemory as refused};

    ghost from_gives = { λ _ made. made ≡ refused };

    fn from(_refused: NoMemory) -> HornErr {
        HornErr::NoMemory
    }
}

impl<T: Drop> From<(T, NoMemory)> for HornErr {
    ghost use Rattle.std.specs.Prelude.{◌≡◌};
    ghost use Rattle.chc_script.specs.declared.horn.refusal.HornErr.TheVariants.{NoMemory as refused};

    ghost from_gives = { λ _ made. made ≡ refused };

    fn from(_refused: (T, NoMemory)) -> HornErr {
        HornErr::NoMemory
    }
}
