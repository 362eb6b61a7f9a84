//! Marks: where predicates stand in a term.

ghost use Rattle.std.specs.Prelude.{◌≡◌, map, IfOk};
ghost use Rattle.std.specs.List.{list_any};
ghost use Rattle.chc_script.specs.Marks.{is_below, is_within, mark_at, marked, node_of};

use chc_sorts::{List, NoMemory};
use chc_terms::{Term, Terms};
use std::alloc::Global;

/// Whether a predicate stands in a term and, where one does, the same of its parts.
///
/// The mark of a term is made once, in time linear in its size. A test of each part anew would be quadratic where
/// negations are nested.
#[derive(Drop)]
pub enum Mark {
    Without,
    Within(List<Self>),
}

impl Mark {
    /// Whether a predicate stands in the term.
    pub fn is_within(&self) -> bool
        ensures { result ≡ is_within self.now }
    {
        match self {
            Mark::Without => false,
            Mark::Within(_) => true,
        }
    }

    /// The mark of the part of that number.
    pub fn part(&self, i: usize) -> &Mark
        ensures { result.now ≡ mark_at self.now i }
    {
        match self {
            Mark::Without => self,
            Mark::Within(parts) => match parts.get(i) {
                Some(part) => part,
                None => self,
            },
        }
    }

    /// Whether a predicate stands in a part.
    pub fn is_below(&self) -> bool
        ensures { result ≡ is_below self.now }
    {
        match self {
            Mark::Without => false,
            Mark::Within(parts) => are_within(parts),
        }
    }
}

/// Whether a predicate stands in one of the terms.
fn are_within(marks: &List<Mark>) -> bool
    ensures { result ≡ list_any is_within marks.now }
{
    for mark in marks.as_slice() {
        if mark.is_within() {
            return true;
        }
    }
    false
}

/// The mark of a term that isn't an atom, by those of its parts.
fn node(parts: List<Mark>) -> Mark
    ensures { result ≡ node_of parts }
{
    if are_within(&parts) {
        Mark::Within(parts)
    } else {
        Mark::Without
    }
}

/// The mark of a term.
#[cycle(mark)]
#[tactic(auto, using(crate::proofs::MarkLaws::mark_equations))]
pub fn mark_of(alloc: Global, term: &Term) -> Result<Mark, NoMemory>
    ensures { IfOk result (λ mark. mark ≡ marked term.now) }
{
    match term {
        Term::Var(_) | Term::Num(_) | Term::Lit(_) => Ok(Mark::Without),
        Term::App(_, args) => Ok(node(marks_of(alloc, args)?)),
        Term::Pred(_, args) => Ok(Mark::Within(marks_of(alloc, args)?)),
        Term::Quant(_, _, body) => mark_of(alloc, body.get()),
        Term::Call(_, args) => Ok(node(marks_of(alloc, args)?)),
    }
}

/// The marks of terms, in order.
#[cycle(mark)]
#[tactic(auto, using(crate::proofs::MarkLaws::mark_equations))]
fn marks_of(alloc: Global, terms: &Terms) -> Result<List<Mark>, NoMemory>
    ensures { IfOk result (λ marks. marks ≡ map marked terms.now) }
{
    let mut marks = List::new(alloc);
    for term in terms.as_slice() {
        marks.push(mark_of(alloc, term)?)?;
    }
    Ok(marks)
}
