//! The first limit that predicates and clauses pass.

ghost use Rattle.std.specs.Prelude.{◌≡◌, ◌+◌, ◌-◌, ◌^◌, [], ◌∷◌, min, cond, nat_lt, length, sum_by};
ghost use Rattle.std.specs.List.{list_any};
ghost use Rattle.chc_state.specs.Limits.{charge as charge_of, width as width_of, is_too_deep as is_too_deep_of, has_one_query, reserve, state_charge, live_count, first_true, first_passed};

use crate::clause::{Clause, PredDecl};
use chc_sorts::{Limit, List};

/// The charges of clauses: whether one is above 262,144, and their sum, or 2^64 - 1 where it is greater.
#[derive(Drop)]
struct Charges {
    one_above: bool,
    sum: u64,
}

/// The charges of the clauses.
#[tactic(auto, using(crate::proofs::Charges::clauses))]
fn charges_of(clauses: &List<Clause>) -> Charges
    ensures one_above { result.one_above ≡ list_any (λ c. nat_lt 262144 (charge_of c)) clauses.now }
    ensures sum { result.sum ≡ min (sum_by charge_of clauses.now) (2 ^ 64 - 1) }
{
    let mut one_above = false;
    let mut sum: u64 = 0;
    for clause in clauses.as_slice() {
        let charge = clause.charge();
        one_above = one_above | (charge > 262_144);
        sum = sum.saturating_add(charge);
    }
    Charges { one_above, sum }
}

/// Whether one of the clauses is too deep.
fn is_one_too_deep(clauses: &List<Clause>) -> bool
    ensures { result ≡ list_any is_too_deep_of clauses.now }
{
    clauses.as_slice().iter().any(|clause| clause.is_too_deep())
}

/// Whether a predicate has more than 1,024 positions.
fn is_one_too_long(preds: &List<PredDecl>) -> bool
    ensures { result ≡ list_any (λ d. nat_lt 1024 (length d.sorts)) preds.now }
{
    preds.as_slice().iter().any(|decl| decl.sorts.len() > 1_024)
}

/// Whether one of the clauses is wider than 4,096.
fn is_one_too_wide(clauses: &List<Clause>) -> bool
    ensures { result ≡ list_any (λ c. nat_lt 4096 (width_of c)) clauses.now }
{
    clauses
        .as_slice()
        .iter()
        .any(|clause| clause.width() > 4_096)
}

/// Whether one of the clauses has more than 256 body atoms.
fn has_one_too_many_atoms(clauses: &List<Clause>) -> bool
    ensures { result ≡ list_any (λ c. nat_lt 256 (length c.body)) clauses.now }
{
    clauses
        .as_slice()
        .iter()
        .any(|clause| clause.body.len() > 256)
}

/// Whether one of the clauses has a weight above 4,096.
fn is_one_too_heavy(clauses: &List<Clause>) -> bool
    ensures { result ≡ list_any (λ c. nat_lt 4096 c.weight) clauses.now }
{
    clauses
        .as_slice()
        .iter()
        .any(|clause| clause.weight > 4_096)
}

/// Whether exactly one of the clauses is a query.
pub fn is_one_query(clauses: &List<Clause>) -> bool
    ensures { result ≡ has_one_query clauses.now }
{
    clauses
        .as_slice()
        .iter()
        .filter(|clause| clause.is_query())
        .count()
        == 1
}

/// How many predicates are live.
pub fn live_preds(preds: &List<PredDecl>) -> u64
    ensures { result ≡ live_count preds.now }
{
    preds.as_slice().iter().filter(|decl| decl.live).count() as u64
}

/// Whether the count is above 65,536, with one more counted unless there is exactly one query.
fn is_above_with_query(count: u64, one_query: bool) -> bool
    ensures { result ≡ nat_lt 65536 (count + cond one_query 0 1) }
{
    if one_query {
        count > 65_536
    } else {
        count > 65_535
    }
}

/// Whether the sum of the clauses' charges is above 4,194,304, with 2 more unless there is exactly one query.
fn is_charge_above(sum: u64, one_query: bool) -> bool
    ensures { result ≡ nat_lt 4194304 (sum + cond one_query 0 2) }
{
    if one_query {
        sum > 4_194_304
    } else {
        sum > 4_194_302
    }
}

/// The first limit that one of the clauses passes by its width, its body atoms or its weight.
fn over_in_clause(clauses: &List<Clause>) -> Option<Limit>
    ensures { result ≡ first_true (
        (list_any (λ c. nat_lt 4096 (width_of c)) clauses.now, Limit.L10)
        ∷ (list_any (λ c. nat_lt 256 (length c.body)) clauses.now, Limit.L11)
        ∷ (list_any (λ c. nat_lt 4096 c.weight) clauses.now, Limit.L15)
        ∷ []) }
{
    if is_one_too_wide(clauses) {
        Some(Limit::L10)
    } else if has_one_too_many_atoms(clauses) {
        Some(Limit::L11)
    } else if is_one_too_heavy(clauses) {
        Some(Limit::L15)
    } else {
        None
    }
}

/// Whether the charge of a state with these clauses is above 4,194,304, where the sum of theirs is `sum`.
fn is_state_charge_above(clauses: &List<Clause>, sum: u64) -> bool
    requires { sum ≡ min (sum_by charge_of clauses.now) (2 ^ 64 - 1) }
    ensures { result ≡ nat_lt 4194304 (state_charge clauses.now) }
{
    is_charge_above(sum, is_one_query(clauses))
}

/// The first limit that is passed by a count, or by one of the clauses in its width, its body atoms or
/// its weight.
fn over_in_counts(preds: &List<PredDecl>, clauses: &List<Clause>) -> Option<Limit>
    ensures { result ≡ first_true (
        (nat_lt 65536 (live_count preds.now + reserve 1 clauses.now), Limit.L7)
        ∷ (list_any (λ d. nat_lt 1024 (length d.sorts)) preds.now, Limit.L8)
        ∷ (nat_lt 65536 (length clauses.now + reserve 1 clauses.now), Limit.L9)
        ∷ (list_any (λ c. nat_lt 4096 (width_of c)) clauses.now, Limit.L10)
        ∷ (list_any (λ c. nat_lt 256 (length c.body)) clauses.now, Limit.L11)
        ∷ (list_any (λ c. nat_lt 4096 c.weight) clauses.now, Limit.L15)
        ∷ []) }
{
    let one_query = is_one_query(clauses);
    if is_above_with_query(live_preds(preds), one_query) {
        Some(Limit::L7)
    } else if is_one_too_long(preds) {
        Some(Limit::L8)
    } else if is_above_with_query(clauses.len() as u64, one_query) {
        Some(Limit::L9)
    } else {
        over_in_clause(clauses)
    }
}

/// The first limit that the predicates and clauses pass, in the order L4 to L11 and then L15, or `None`
/// where all is within the limits. The lists may be of any length, and their terms of any size.
pub fn over(preds: &List<PredDecl>, clauses: &List<Clause>) -> Option<Limit>
    ensures { result ≡ first_passed preds.now clauses.now }
{
    if is_one_too_deep(clauses) {
        return Some(Limit::L4);
    }
    let charges = charges_of(clauses);
    if charges.one_above {
        Some(Limit::L5)
    } else if is_state_charge_above(clauses, charges.sum) {
        Some(Limit::L6)
    } else {
        over_in_counts(preds, clauses)
    }
}
