//! How far into its datatypes a state reaches: how many there are up to the last one that it names.

ghost use Rattle.std.specs.Prelude.{◌≡◌, map};
ghost use Rattle.chc_terms.specs.Counts.{greatest};
ghost use Rattle.chc_print.specs.Reach.{sort_reach, sorts_reach, op_reach, term_reach, terms_reach, atom_reach, head_reach, clause_reach, decl_reach, state_reach};

use chc_sorts::{Op, Sort};
use chc_state::{Atom, Clause, PredDecl, State};
use chc_terms::Term;

/// How far a sort reaches.
fn sort_reach(sort: &Sort) -> u64
    ensures { result ≡ sort_reach sort.now }
{
    match sort {
        Sort::Bool | Sort::Int => 0,
        Sort::Data(d) => u64::from(*d) + 1,
        Sort::Array(element) => sort_reach(element.get()),
    }
}

/// How far sorts reach.
fn sorts_reach(sorts: &[Sort]) -> u64
    ensures { result ≡ sorts_reach sorts.now }
{
    let mut most: u64 = 0;
    for sort in sorts {
        most = most.max(sort_reach(sort));
    }
    most
}

/// How far an operator reaches.
pub fn op_reach(op: &Op) -> u64
    ensures { result ≡ op_reach op.now }
{
    match op {
        Op::Const(element) => sort_reach(element),
        Op::Make(d, _) | Op::Get(d, _, _) | Op::Is(d, _) => u64::from(*d) + 1,
        _ => 0,
    }
}

/// How far a term reaches.
#[cycle(terms)]
fn term_reach(term: &Term) -> u64
    ensures { result ≡ term_reach term.now }
{
    match term {
        Term::Var(_) | Term::Num(_) | Term::Lit(_) => 0,
        Term::App(op, parts) => op_reach(op).max(terms_reach(parts.as_slice())),
        Term::Pred(_, parts) => terms_reach(parts.as_slice()),
        Term::Quant(_, sorts, body) => sorts_reach(sorts.as_slice()).max(term_reach(body.get())),
        Term::Call(_, parts) => terms_reach(parts.as_slice()),
    }
}

/// How far terms reach.
#[cycle(terms)]
fn terms_reach(terms: &[Term]) -> u64
    ensures { result ≡ terms_reach terms.now }
{
    let mut most: u64 = 0;
    for term in terms {
        most = most.max(term_reach(term));
    }
    most
}

/// How far an atom reaches.
fn atom_reach(atom: &Atom) -> u64
    ensures { result ≡ atom_reach atom.now }
{
    terms_reach(atom.args.as_slice())
}

/// How far atoms reach.
fn atoms_reach(atoms: &[Atom]) -> u64
    ensures { result ≡ greatest (map atom_reach atoms.now) }
{
    let mut most: u64 = 0;
    for atom in atoms {
        most = most.max(atom_reach(atom));
    }
    most
}

/// How far a head reaches, if there is one.
fn head_reach(head: &Option<Atom>) -> u64
    ensures { result ≡ head_reach head.now }
{
    match head {
        Some(atom) => atom_reach(atom),
        None => 0,
    }
}

/// How far a clause reaches.
fn clause_reach(clause: &Clause) -> u64
    ensures { result ≡ clause_reach clause.now }
{
    let terms = sorts_reach(clause.vars.as_slice()).max(terms_reach(clause.conj.as_slice()));
    let atoms = atoms_reach(clause.body.as_slice()).max(head_reach(&clause.head));
    terms.max(atoms)
}

/// How far clauses reach.
fn clauses_reach(clauses: &[Clause]) -> u64
    ensures { result ≡ greatest (map clause_reach clauses.now) }
{
    let mut most: u64 = 0;
    for clause in clauses {
        most = most.max(clause_reach(clause));
    }
    most
}

/// How far the positions of a predicate reach, if it is live.
fn decl_reach(declared: &PredDecl) -> u64
    ensures { result ≡ decl_reach declared.now }
{
    if declared.live {
        sorts_reach(declared.sorts.as_slice())
    } else {
        0
    }
}

/// How far the positions of the live predicates reach.
fn decls_reach(preds: &[PredDecl]) -> u64
    ensures { result ≡ greatest (map decl_reach preds.now) }
{
    let mut most: u64 = 0;
    for declared in preds {
        most = most.max(decl_reach(declared));
    }
    most
}

/// How far a state reaches.
pub fn state_reach(s: &State) -> u64
    ensures { result ≡ state_reach s.now }
{
    decls_reach(s.preds().as_slice()).max(clauses_reach(s.clauses().as_slice()))
}
