//! The assertions of a script, with their clauses.

ghost use Rattle.std.specs.Prelude.{◌≡◌, ◌+◌, ◌≤◌, None, [], ◌∷◌, cond, nat_lt, length, sum_by, IfOk};
ghost use Rattle.chc_state.specs.Limits.{charge as charge_of, width as width_of, first_true, has_one_query, is_query, is_too_deep};
ghost use Rattle.chc_script.specs.Drafts.{AreAsserted, AssertedView, none_asserted, passed_by_all, passed_by_clause, with_assertion};

use crate::whole::predicates::Predicates;
use chc_sorts::{Limit, List, NoMemory};
use chc_state::Clause;
use chc_terms::{Term, Terms};
use std::alloc::Global;
use std::marker::Model;

/// Assertions and the clause of each, within the limits. Beside them are kept the sum of the clauses' charges and the number
/// of queries, so that each clause is looked at once.
#[derive(Drop)]
pub struct Asserted {
    assertions: Terms,
    clauses: List<Clause>,
    charge: u64,
    queries: u64,
}

impl Model for Asserted {
    ghost use Rattle.std.specs.Coded.{codes};
    ghost use Rattle.chc_sorts.specs.contracts.sort.Sort as sort;
    ghost use Rattle.chc_terms.specs.contracts.term.Term as term;
    ghost use Rattle.chc_script.specs.Drafts.{AreAsserted, AssertedView};

    ghost Value = { AssertedView };

    ghost coded = { Prim.hlevel (codes, sort.the_row.coded, term.the_row.coded) };

    ghost view = { λ a. record { assertions = a.assertions; clauses = a.clauses } };

    ghost invariant = { λ a. AreAsserted (record { assertions = a.assertions; clauses = a.clauses }) a.charge a.queries };
}

/// Whether the charge of the clause is above 262,144.
fn is_charge_above(clause: &Clause) -> bool
    ensures { result ≡ nat_lt 262144 (charge_of clause.now) }
{
    clause.charge() > 262_144
}

/// Whether the width of the clause is above 4,096.
fn is_width_above(clause: &Clause) -> bool
    ensures { result ≡ nat_lt 4096 (width_of clause.now) }
{
    clause.width() > 4_096
}

/// How many queries the clause is.
fn queries_in(clause: &Clause) -> u64
    ensures { result ≡ cond (is_query clause.now) 1 0 }
{
    if clause.is_query() { 1 } else { 0 }
}

/// The first limit that the clause passes by its width or its body atoms.
fn passed_by_parts(clause: &Clause) -> Option<Limit>
    ensures { result ≡ first_true ((nat_lt 4096 (width_of clause.now), Limit.L10) ∷ (nat_lt 256 (length clause.now.body), Limit.L11) ∷ []) }
{
    if is_width_above(clause) {
        Some(Limit::L10)
    } else if clause.body.len() > 256 {
        Some(Limit::L11)
    } else {
        None
    }
}

impl Asserted {
    /// No assertions.
    pub fn new(alloc: Global) -> Asserted
        ensures { result ≡ none_asserted }
    {
        Asserted {
            assertions: List::new(alloc),
            clauses: List::new(alloc),
            charge: 0,
            queries: 0,
        }
    }

    /// Whether exactly one of the clauses is a query.
    fn has_one_query(&self) -> bool
        ensures { result ≡ has_one_query self.now.clauses }
    {
        self.queries == 1
    }

    /// The first limit that the sums pass with a clause, which doesn't pass that of a clause's charge.
    fn passed_with(&self, clause: &Clause) -> Option<Limit>
        requires { charge_of clause.now ≤ 262144 }
        ensures { result ≡ first_true (
            (nat_lt 4194304 (sum_by charge_of self.now.clauses + charge_of clause.now), Limit.L6)
            ∷ (nat_lt 65536 (length self.now.clauses + 1), Limit.L9)
            ∷ (nat_lt 4096 (width_of clause.now), Limit.L10)
            ∷ (nat_lt 256 (length clause.now.body), Limit.L11)
            ∷ []) }
    {
        if self.charge + clause.charge() > 4_194_304 {
            Some(Limit::L6)
        } else if self.clauses.len() >= 65_536 {
            Some(Limit::L9)
        } else {
            passed_by_parts(clause)
        }
    }

    /// The first limit that one more clause passes: its own, and the sums with it.
    pub fn passed_by(&self, clause: &Clause) -> Option<Limit>
        ensures { result ≡ passed_by_clause self.now.clauses clause.now }
    {
        if clause.is_too_deep() {
            return Some(Limit::L4);
        }
        if is_charge_above(clause) {
            return Some(Limit::L5);
        }
        self.passed_with(clause)
    }

    /// The first limit that these clauses and the predicates pass, with what a query to be made will need.
    pub fn passed_by_all(&self, preds: &Predicates) -> Option<Limit>
        ensures { result ≡ passed_by_all preds.now.decls self.now.clauses }
    {
        let (charge, count) = if self.has_one_query() { (0, 0) } else { (2, 1) };
        if self.charge + charge > 4_194_304 {
            Some(Limit::L6)
        } else if preds.len() + count > 65_536 {
            Some(Limit::L7)
        } else if self.clauses.len() + count > 65_536 {
            Some(Limit::L9)
        } else {
            None
        }
    }

    /// These assertions and one more, with a clause that passes no limit.
    pub fn with(self, term: Term, clause: Clause) -> Result<Asserted, NoMemory>
        requires within { passed_by_clause self.clauses clause ≡ None }
        requires weight { clause.weight ≡ 1 }
        ensures { IfOk result (λ more. more ≡ with_assertion self term clause) }
    {
        let Asserted {
            mut assertions,
            mut clauses,
            charge,
            queries,
        } = self;
        let charge = charge + clause.charge();
        let queries = queries + queries_in(&clause);
        assertions.push(term)?;
        clauses.push(clause)?;
        Ok(Asserted {
            assertions,
            clauses,
            charge,
            queries,
        })
    }

    /// The assertions and their clauses.
    pub fn into_parts(self) -> (Terms, List<Clause>)
        ensures assertions { result.0 ≡ self.assertions }
        ensures clauses { result.1 ≡ self.clauses }
    {
        let Asserted {
            assertions,
            clauses,
            ..
        } = self;
        (assertions, clauses)
    }
}
