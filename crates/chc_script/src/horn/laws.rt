//! What an assertion and the clause that it says have to do with each other.

ghost use Rattle.chc_script.specs.HornLaws.{ClauseIsWellFormed, ClauseOfTrue, KeepsTruth, TrueOfClause};

/// The clause of a well-sorted assertion whose sorts and numbers fit is well formed: it is well sorted, its sorts and numbers
/// fit, and no condition of it is a conjunction or `true`.
pub fn clause_is_well_formed()
    ensures { ClauseIsWellFormed }
{}

/// Under definitions, the clause of a true assertion is true.
pub fn clause_of_true_assertion()
    ensures { ClauseOfTrue }
{}

/// Under definitions, an assertion whose clause is true is true, where each of its terms without quantifiers has a value.
pub fn assertion_of_true_clause()
    ensures { TrueOfClause }
{}

/// Under definitions of the predicates, an assertion is true exactly where its clause is: back where the definitions are
/// decided and all predicates are live. The signature is well founded, as every `Sig` is.
pub fn truth_is_kept()
    ensures { KeepsTruth }
{}
