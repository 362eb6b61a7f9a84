//! Quantifiers in terms.

ghost use Rattle.std.specs.Prelude.{◌≡◌, map};
ghost use Rattle.std.specs.List.{list_all};
ghost use Rattle.chc_terms.specs.Sorted.{is_unquantified};

use chc_terms::{Term, Terms};

/// Whether no quantifier stands in the term.
#[cycle(quantified)]
#[tactic(auto, using(crate::proofs::HornTests::unquantified_equations))]
pub fn is_unquantified(term: &Term) -> bool
    ensures { result ≡ is_unquantified term.now }
{
    match term {
        Term::Var(_) | Term::Num(_) | Term::Lit(_) => true,
        Term::App(_, args) => are_unquantified(args),
        Term::Pred(_, args) => are_unquantified(args),
        Term::Quant(_, _, _) => false,
        Term::Call(_, args) => are_unquantified(args),
    }
}

/// Whether no quantifier stands in any of the terms.
#[cycle(quantified)]
#[tactic(auto, using(crate::proofs::HornTests::unquantified_equations))]
fn are_unquantified(terms: &Terms) -> bool
    ensures { result ≡ list_all (λ b. b) (map is_unquantified terms.now) }
{
    for term in terms.as_slice() {
        if !is_unquantified(term) {
            return false;
        }
    }
    true
}
