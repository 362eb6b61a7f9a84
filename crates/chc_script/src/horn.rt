//! The clause of an assertion.

ghost use Rattle.std.specs.Prelude.{◌≡◌};
ghost use Rattle.chc_script.specs.Horn.{Answers, clause_of, closed_over};

mod collect;
mod laws;
mod mark;
mod parts;
mod prefix;
mod quantified;
mod refusal;
mod side;
#[cfg(test)]
mod tests;

use crate::horn::collect::collect;
use crate::horn::mark::mark_of;
use crate::horn::parts::Parts;
use crate::horn::prefix::prefix_of;
use crate::horn::quantified::is_unquantified;
use crate::horn::side::Side;
use chc_sorts::{List, Sort};
use chc_state::Clause;
use chc_terms::Term;
pub use laws::{
    assertion_of_true_clause, clause_is_well_formed, clause_of_true_assertion, truth_is_kept,
};
pub use refusal::HornErr;
use std::alloc::Global;

/// The clause of weight 1 over these variables.
fn closed(vars: List<Sort>, parts: Parts) -> Clause
    ensures { result ≡ closed_over vars parts }
{
    let Parts { conj, body, head } = parts;
    Clause {
        vars,
        conj,
        body,
        head,
        weight: 1,
    }
}

/// The clause that an assertion says.
///
/// Its variables are those of the quantifiers that stand in front: `forall`, or behind a `not` `exists`. The rest is read
/// as a disjunction of negated conditions, negated atoms and at most one atom. Errors: `QuantInside` where the rest has
/// a quantifier; `NotHorn` where it is no such disjunction; `NoMemory`.
pub fn clause_of(alloc: Global, assertion: &Term) -> Result<Clause, HornErr>
    ensures { Answers result (clause_of assertion.now) }
{
    let prefix = prefix_of(alloc, assertion, Side::Concluded, List::new(alloc))?;
    if !is_unquantified(prefix.rest) {
        return Err(HornErr::QuantInside);
    }
    let mark = mark_of(alloc, prefix.rest)?;
    let parts = collect(alloc, prefix.rest, &mark, prefix.side, Parts::new(alloc))?;
    Ok(closed(prefix.vars, parts))
}
