//! Why a sort or a group of datatypes is refused.

use crate::limit::Limit;
use crate::list::Name;
use crate::memory::NoMemory;

/// Why a sort or a group of datatypes is refused.
#[derive(Debug, Drop)]
pub enum SigErr {
    /// The name is taken in its name space.
    NameTaken(Name),
    /// No sort has the name.
    UnknownSort(Name),
    /// An array is indexed by another sort than Int.
    ArrayIndex,
    /// A sort is more than 16 deep.
    SortTooDeep,
    /// The limit of datatypes, constructors or fields is passed.
    TooMany(Limit),
    /// The datatype of that name has no value.
    NotWellFounded(Name),
    /// Memory was refused.
    NoMemory,
}

impl From<NoMemory> for SigErr {
    ghost use Rattle.std.specs.Prelude.{◌≡◌};
    ghost use Rattle.chc_sorts.specs.declared.refusal.SigErr.TheVariants.{NoMemory as refused};

    ghost from_gives = { λ _ made. made ≡ refused };

    fn from(_refused: NoMemory) -> SigErr {
        SigErr::NoMemory
    }
}
