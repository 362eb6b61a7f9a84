//! Sizes and depths of terms, and how often a variable stands in them. They end at 2^64 - 1, which greater ones give too.

ghost use Rattle.std.specs.Prelude.{◌≡◌, ◌-◌, ◌^◌, min};
ghost use Rattle.chc_terms.specs.Counts.{size as size_of, size_all as size_of_all, depth as depth_of, depth_all as depth_of_all, occurrences, occurrences_all};

use crate::term::Term;
use chc_sorts::List;

/// How many nodes the term has, or 2^64 - 1 where it has more.
#[cycle(size)]
#[tactic(auto, using(crate::proofs::CountLaws::sizes))]
pub fn size(t: &Term) -> u64
    ensures { result ≡ min (size_of t.now) (2 ^ 64 - 1) }
{
    match t {
        Term::Var(_) | Term::Num(_) | Term::Lit(_) => 1,
        Term::App(_, ts) => size_all(ts).saturating_add(1),
        Term::Pred(_, ts) => size_all(ts).saturating_add(1),
        Term::Quant(_, _, body) => size(body.get()).saturating_add(1),
        Term::Call(_, ts) => size_all(ts).saturating_add(1),
    }
}

/// The sum of the terms' sizes, or 2^64 - 1 where it is greater.
#[cycle(size)]
#[tactic(auto, using(crate::proofs::CountLaws::sizes))]
pub fn size_all(ts: &List<Term>) -> u64
    ensures { result ≡ min (size_of_all ts.now) (2 ^ 64 - 1) }
{
    let mut sum: u64 = 0;
    for t in ts.as_slice() {
        sum = sum.saturating_add(size(t));
    }
    sum
}

/// How many nodes a longest branch of the term has, or 2^64 - 1 where it has more.
#[cycle(depth)]
#[tactic(auto, using(crate::proofs::CountLaws::depths))]
pub fn depth(t: &Term) -> u64
    ensures { result ≡ min (depth_of t.now) (2 ^ 64 - 1) }
{
    match t {
        Term::Var(_) | Term::Num(_) | Term::Lit(_) => 1,
        Term::App(_, ts) => depth_all(ts).saturating_add(1),
        Term::Pred(_, ts) => depth_all(ts).saturating_add(1),
        Term::Quant(_, _, body) => depth(body.get()).saturating_add(1),
        Term::Call(_, ts) => depth_all(ts).saturating_add(1),
    }
}

/// The greatest of the terms' depths, 0 where there are no terms, or 2^64 - 1 where it is greater.
#[cycle(depth)]
#[tactic(auto, using(crate::proofs::CountLaws::depths))]
pub fn depth_all(ts: &List<Term>) -> u64
    ensures { result ≡ min (depth_of_all ts.now) (2 ^ 64 - 1) }
{
    let mut greatest: u64 = 0;
    for t in ts.as_slice() {
        greatest = greatest.max(depth(t));
    }
    greatest
}

/// How often the variable of that number stands in the term, or 2^64 - 1 where it is more often.
#[cycle(occurs)]
#[tactic(auto, using(crate::proofs::OccurrenceLaws::equations))]
pub fn occurs(t: &Term, var: u32) -> u64
    ensures { result ≡ min (occurrences var t.now) (2 ^ 64 - 1) }
{
    match t {
        Term::Var(i) => if *i == var { 1 } else { 0 },
        Term::Num(_) | Term::Lit(_) => 0,
        Term::App(_, ts) => occurs_all(ts, var),
        Term::Pred(_, ts) => occurs_all(ts, var),
        Term::Quant(_, _, body) => occurs(body.get(), var),
        Term::Call(_, ts) => occurs_all(ts, var),
    }
}

/// How often the variable of that number stands in the terms, or 2^64 - 1 where it is more often.
#[cycle(occurs)]
#[tactic(auto, using(crate::proofs::OccurrenceLaws::equations))]
pub fn occurs_all(ts: &List<Term>, var: u32) -> u64
    ensures { result ≡ min (occurrences_all var ts.now) (2 ^ 64 - 1) }
{
    let mut sum: u64 = 0;
    for t in ts.as_slice() {
        sum = sum.saturating_add(occurs(t, var));
    }
    sum
}
