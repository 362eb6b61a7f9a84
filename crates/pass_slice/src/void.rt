//! Clauses that conclude nothing new.

ghost use Rattle.std.specs.Prelude.{◌≡◌, ◌↔◌, false, IsTrue, MatchOption};
ghost use Rattle.chc_terms.specs.declared.term.Term.TheVariants as term;
ghost use Rattle.chc_state.specs.Meaning.{In};
ghost use Rattle.pass_slice.specs.Voids.{RepeatsBody, IsVoid, has_room as has_room_for, CanVoid, IsLeastVoid, HasNoVoid, without_clause};

use chc_state::{Atom, Clause, State, is_one_query, live_preds};
use chc_terms::{Term, alike};

/// Whether the term is `false`.
fn is_false(t: &Term) -> bool
    ensures { IsTrue result ↔ (t.now ≡ term.Lit false) }
{
    match t {
        Term::Lit(b) => !*b,
        _ => false,
    }
}

/// Whether one of the conjuncts is `false`.
fn is_contradicted(conj: &[Term]) -> bool
    ensures { IsTrue result ↔ In (term.Lit false) conj.now }
{
    for t in conj {
        if is_false(t) {
            return true;
        }
    }
    false
}

/// Whether these are the same terms in the same order.
fn are_alike(a: &[Term], b: &[Term]) -> bool
    ensures { IsTrue result ↔ (a.now ≡ b.now) }
{
    if a.len() != b.len() {
        return false;
    }
    for i in 0..a.len() {
        if !alike(&a[i], &b[i]) {
            return false;
        }
    }
    true
}

/// Whether the two are the same atom.
fn is_same_atom(a: &Atom, b: &Atom) -> bool
    ensures { IsTrue result ↔ (a.now ≡ b.now) }
{
    a.pred == b.pred && are_alike(a.args.as_slice(), b.args.as_slice())
}

/// Whether the atom is one of these.
fn is_among(head: &Atom, body: &[Atom]) -> bool
    ensures { IsTrue result ↔ In head.now body.now }
{
    for a in body {
        if is_same_atom(head, a) {
            return true;
        }
    }
    false
}

/// Whether the head is one of the body atoms.
fn repeats_body(c: &Clause) -> bool
    ensures { IsTrue result ↔ RepeatsBody c.now }
{
    match &c.head {
        Some(head) => is_among(head, c.body.as_slice()),
        None => false,
    }
}

/// Whether the clause concludes nothing new: a conjunct is `false`, or its head is one of its body atoms.
fn is_void(c: &Clause) -> bool
    ensures { IsTrue result ↔ IsVoid c.now }
{
    is_contradicted(c.conj.as_slice()) || repeats_body(c)
}

/// Whether the limits hold without the clause: it isn't the only query, or there is room for the predicate of
/// another one.
fn has_room(s: &State, c: &Clause) -> bool
    ensures { result ≡ has_room_for s.now.preds s.now.clauses c.now }
{
    !c.is_query() || !is_one_query(s.clauses()) || live_preds(s.preds()) <= 65_535
}

/// Whether the clause of that number may be removed: it concludes nothing new, and the limits hold without it. The
/// time is linear in the clause, and for a query in the state.
#[tactic(none)]
pub(crate) fn can_void(s: &State, k: u32) -> bool
    ensures { IsTrue result ↔ CanVoid s.now k }
{
    match s.clauses().get(k as usize) {
        Some(c) => can_go(s, c),
        None => false,
    }
}

/// Whether the clause concludes nothing new, and the limits hold without it.
fn can_go(s: &State, c: &Clause) -> bool
    ensures { IsTrue result ↔ (IsVoid c.now × IsTrue (has_room_for s.now.preds s.now.clauses c.now)) }
{
    is_void(c) && has_room(s, c)
}

/// The least number of a clause that may be removed.
#[tactic(none)]
pub(crate) fn find(s: &State) -> Option<u32>
    ensures { MatchOption result (HasNoVoid s.now) (IsLeastVoid s.now) }
{
    let count = s.clauses().len();
    for k in 0..count {
        if can_void(s, k as u32) {
            return Some(k as u32);
        }
    }
    None
}

/// The state without the clause of that number.
#[tactic(none)]
pub(crate) fn remove(s: State, k: u32) -> State
    requires { CanVoid s k }
    ensures { result ≡ without_clause s k }
{
    let (sig, preds, mut clauses) = s.into_parts();
    clauses.remove(k as usize);
    State::of_parts(sig, preds, clauses)
}
