//! Sorts that a signature declares.

ghost use Rattle.std.specs.Prelude.{◌≡◌};
ghost use Rattle.chc_terms.specs.Sorted.{are_declared, is_declared};

use chc_sorts::{List, Sig, Sort};

/// Whether the sort names datatypes of the signature alone.
#[tactic(auto, using(crate::proofs::SortTests::declares))]
pub fn is_declared(sig: &Sig, sort: &Sort) -> bool
    ensures { result ≡ is_declared sig.now sort.now }
{
    match sort {
        Sort::Bool | Sort::Int => true,
        Sort::Data(d) => (*d as usize) < sig.datatypes().len(),
        Sort::Array(element) => is_declared(sig, element.get()),
    }
}

/// Whether all of the sorts name datatypes of the signature alone.
pub fn are_declared(sig: &Sig, sorts: &List<Sort>) -> bool
    ensures { result ≡ are_declared sig.now sorts.now }
{
    for sort in sorts.as_slice() {
        if !is_declared(sig, sort) {
            return false;
        }
    }
    true
}
