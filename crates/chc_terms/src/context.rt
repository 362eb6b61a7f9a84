//! What terms are over, and why a term has no sort.

use crate::fun_sort::FunSort;
use chc_sorts::{List, NoMemory, Sig, Sort};

/// What a term is over: datatypes, the sorts of the variables by number, the sorts of the positions of each
/// predicate, and the sorts of each definition.
#[derive(Clone, Copy)]
pub struct Context<'a> {
    pub sig: &'a Sig,
    pub vars: &'a List<Sort>,
    pub preds: &'a List<List<Sort>>,
    pub defs: &'a List<FunSort>,
}

/// Why a term has no sort.
#[derive(Clone, Copy, Debug, PartialEq, Eq)]
pub enum SortErr {
    /// A variable, predicate, definition, datatype, constructor or field of that number isn't there.
    Unbound,
    /// A node has another number of arguments than its operator or declaration takes, or a quantifier binds nothing.
    WrongCount,
    /// The arguments of a node are of other sorts than it takes.
    WrongSort,
    /// Memory was refused.
    NoMemory,
}

impl From<NoMemory> for SortErr {
    ghost use Rattle.std.specs.Prelude.{◌≡◌};
    ghost use Rattle.chc_terms.specs.declared.context.SortErr.TheVariants.{NoMemory as refused};

    ghost from_gives = { λ _ made. made ≡ refused };

    fn from(_refused: NoMemory) -> SortErr {
        SortErr::NoMemory
    }
}

impl<T: Drop> From<(T, NoMemory)> for SortErr {
    ghost use Rattle.std.specs.Prelude.{◌≡◌};
    ghost use Rattle.chc_terms.specs.declared.context.SortErr.TheVariants.{NoMemory as refused};

    ghost from_gives = { λ _ made. made ≡ refused };

    fn from(_refused: (T, NoMemory)) -> SortErr {
        SortErr::NoMemory
    }
}
