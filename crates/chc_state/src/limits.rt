//! Charge, width and depth of clauses, and the first limit that a state passes.

ghost use Rattle.std.specs.Prelude.{◌≡◌, ◌+◌, ◌-◌, ◌^◌, [], min, cond, nat_eq, nat_lt, length, sum_by, count_by};
ghost use Rattle.std.specs.List.{list_any};
ghost use Rattle.chc_terms.specs.Counts.{size as size_of, depth_all as depth_of_all};
ghost use Rattle.chc_state.specs.Limits.{variable_of, is_variable, is_fresh, filled_of_body, filled_after, args_of_head, filled_of_head, charge_of_args, charge as charge_of, width as width_of, is_too_deep, is_query, has_one_query, reserve, live_count, first_passed};

use crate::clause::{Atom, Clause, PredDecl};
use chc_sorts::{Limit, List};
use chc_terms::{Term, depth_all, size, size_all};

/// The variable that the term is, if it is one.
fn variable_in(t: &Term) -> Option<u32>
    ensures { result ≡ variable_of t.now }
{
    match t {
        Term::Var(i) => Some(*i),
        _ => None,
    }
}

/// Whether the term is the variable `i`.
fn is_that(i: u32, t: &Term) -> bool
    ensures { result ≡ is_variable i (variable_of t.now) }
{
    match variable_in(t) {
        Some(j) => i == j,
        None => false,
    }
}

/// Whether one of the terms is the variable `i`.
fn stands_in(i: u32, terms: &[Term]) -> bool
    ensures { result ≡ list_any (λ t. is_variable i (variable_of t)) terms.now }
{
    terms.iter().any(|t| is_that(i, t))
}

/// Whether the term is a variable that none of the earlier terms is.
fn is_new_variable(earlier: &[Term], t: &Term) -> bool
    ensures { result ≡ is_fresh earlier.now (variable_of t.now) }
{
    match variable_in(t) {
        Some(i) => !stands_in(i, earlier),
        None => false,
    }
}

/// The charge of an argument: 1 where it is bare, or else 3 and its size.
fn argument_charge(is_bare: bool, t: &Term) -> u64
    ensures { result ≡ min (cond is_bare 1 (3 + size_of t.now)) (2 ^ 64 - 1) }
{
    if is_bare {
        1
    } else {
        size(t).saturating_add(3)
    }
}

/// The charge of a body atom with these arguments.
#[tactic(auto, using(crate::proofs::Charges::arguments))]
fn body_atom_charge(args: &[Term]) -> u64
    ensures { result ≡ min (charge_of_args args.now (filled_of_body args.now)) (2 ^ 64 - 1) }
{
    let mut sum: u64 = 1;
    for t in args {
        sum = sum.saturating_add(argument_charge(variable_in(t).is_some(), t));
    }
    sum
}

/// The charge of a head with these arguments.
#[tactic(auto, using(crate::proofs::Charges::arguments))]
fn head_charge(args: &[Term]) -> u64
    ensures { result ≡ min (charge_of_args args.now (filled_after [] args.now)) (2 ^ 64 - 1) }
{
    let mut sum: u64 = 1;
    for i in 0..args.len() {
        let t = &args[i];
        sum = sum.saturating_add(argument_charge(is_new_variable(&args[..i], t), t));
    }
    sum
}

/// The charge of a clause's head, which is 1 for a query.
fn charge_of_head(head: &Option<Atom>) -> u64
    ensures { result ≡ min (charge_of_args (args_of_head head.now) (filled_of_head head.now)) (2 ^ 64 - 1) }
{
    match head {
        Some(atom) => head_charge(atom.args.as_slice()),
        None => 1,
    }
}

/// The sum of the body atoms' charges.
#[tactic(auto, using(crate::proofs::Charges::atoms))]
fn charge_of_body(body: &[Atom]) -> u64
    ensures { result ≡ min (sum_by (λ a. charge_of_args a.args (filled_of_body a.args)) body.now) (2 ^ 64 - 1) }
{
    let mut sum: u64 = 0;
    for atom in body {
        sum = sum.saturating_add(body_atom_charge(atom.args.as_slice()));
    }
    sum
}

/// How many of a body atom's arguments aren't bare.
fn filled_in_atom(args: &[Term]) -> u64
    ensures { result ≡ length (filled_of_body args.now) }
{
    args.iter().filter(|t| variable_in(t).is_none()).count() as u64
}

/// How many of a head's arguments aren't bare.
#[tactic(auto, using(crate::proofs::Charges::arguments))]
fn filled_in_head_args(args: &[Term]) -> u64
    ensures { result ≡ length (filled_after [] args.now) }
{
    let mut count: u64 = 0;
    for i in 0..args.len() {
        if !is_new_variable(&args[..i], &args[i]) {
            count += 1;
        }
    }
    count
}

/// How many arguments of a clause's head aren't bare.
fn filled_in_head(head: &Option<Atom>) -> u64
    ensures { result ≡ length (filled_of_head head.now) }
{
    match head {
        Some(atom) => filled_in_head_args(atom.args.as_slice()),
        None => 0,
    }
}

/// How many arguments of the body atoms aren't bare.
#[tactic(auto, using(crate::proofs::Charges::atoms))]
fn filled_in_body(body: &[Atom]) -> u64
    ensures { result ≡ min (sum_by (λ a. length (filled_of_body a.args)) body.now) (2 ^ 64 - 1) }
{
    let mut sum: u64 = 0;
    for atom in body {
        sum = sum.saturating_add(filled_in_atom(atom.args.as_slice()));
    }
    sum
}

/// Whether an argument of the head is deeper than 899.
fn is_head_too_deep(head: &Option<Atom>) -> bool
    ensures { result ≡ nat_lt 899 (depth_of_all (args_of_head head.now)) }
{
    match head {
        Some(atom) => depth_all(&atom.args) > 899,
        None => false,
    }
}

/// Whether an argument of a body atom is deeper than 899.
fn is_body_too_deep(body: &[Atom]) -> bool
    ensures { result ≡ list_any (λ a. nat_lt 899 (depth_of_all a.args)) body.now }
{
    body.iter().any(|atom| depth_all(&atom.args) > 899)
}

impl Clause {
    /// Whether the clause is a query, which is one without a head.
    pub fn is_query(&self) -> bool
        ensures { result ≡ is_query self.now }
    {
        self.head.is_none()
    }

    /// The charge, or 2^64 - 1 where it is greater: the sizes of the conjuncts, and for each atom 1 and
    /// the charges of its arguments. A bare argument has the charge 1, another one 3 and its size. The
    /// missing head of a query has the charge 1.
    pub fn charge(&self) -> u64
        ensures { result ≡ min (charge_of self.now) (2 ^ 64 - 1) }
    {
        let conj = size_all(&self.conj);
        let body = charge_of_body(self.body.as_slice());
        let head = charge_of_head(&self.head);
        conj.saturating_add(body).saturating_add(head)
    }

    /// The width, or 2^64 - 1 where it is greater: how many variables there are, and how many arguments
    /// that aren't bare.
    pub fn width(&self) -> u64
        ensures { result ≡ min (width_of self.now) (2 ^ 64 - 1) }
    {
        let vars = self.vars.len() as u64;
        let body = filled_in_body(self.body.as_slice());
        let head = filled_in_head(&self.head);
        vars.saturating_add(body).saturating_add(head)
    }

    /// Whether a conjunct is deeper than 900, or an argument deeper than 899.
    pub fn is_too_deep(&self) -> bool
        ensures { result ≡ is_too_deep self.now }
    {
        depth_all(&self.conj) > 900
            || is_body_too_deep(self.body.as_slice())
            || is_head_too_deep(&self.head)
    }
}
