//! The terms that operators stand for.

ghost use Rattle.std.specs.Prelude.{◌≡◌, ◌<◌, [], ◌∷◌, ◌++◌, IsTrue, OnOk, length, map};
ghost use Rattle.chc_sorts.specs.declared.op.Op.TheVariants as op;
ghost use Rattle.chc_terms.specs.declared.term.Term.TheVariants.{App};
ghost use Rattle.chc_terms.specs.Counts.{size_all};
ghost use Rattle.chc_elab.specs.Building.{absolute, all_pairs, differ, difference, divisible, joined_left, negated_before_last, neighbours, of_one, operation, opposite, sole, takes};
ghost use Rattle.chc_elab.specs.Builds.{Builds, BuildsAll, Refused, joins};

use crate::build_err::BuildErr;
use crate::built::Built;
use crate::joint::Joint;
use crate::pile::{Pile, join, negated, number, pair};
use chc_sorts::{List, Op, ReadOp, operator_rows};
use std::alloc::Global;

/// The terms together.
pub fn piled(alloc: Global, terms: List<Built>) -> Result<Pile, BuildErr>
    ensures { BuildsAll result terms }
{
    let mut pile = Pile::new(alloc);
    for term in terms.into_vec() {
        pile.push(term)?;
    }
    Ok(pile)
}

/// The operator on the terms.
fn applied(alloc: Global, op: Op, terms: List<Built>) -> Result<Built, BuildErr>
    ensures { Builds result (App op terms) }
{
    let pile = piled(alloc, terms)?;
    pile.under(op)
}

/// The one term, or the operator on all of them.
fn sole(alloc: Global, op: Op, terms: List<Built>) -> Result<Built, BuildErr>
    ensures { Builds result (sole op terms) }
{
    let pile = piled(alloc, terms)?;
    pile.alone_or_under(op)
}

/// The terms, all but the last of them negated, under `or`.
fn implication(alloc: Global, terms: List<Built>) -> Result<Built, BuildErr>
    ensures { Builds result (App op.Or (negated_before_last terms)) }
{
    let mut pile = Pile::new(alloc);
    let mut left = terms.len();
    for term in terms.into_vec() {
        left -= 1;
        if left == 0 {
            pile.push(term)?;
        } else {
            pile.push(negated(alloc, term)?)?;
        }
    }
    pile.under(Op::Or)
}

/// The terms joined from the left on. There is at least one.
fn joined_left(alloc: Global, joint: &Joint, terms: List<Built>) -> Result<Built, BuildErr>
    requires { 0 < length terms }
    ensures { Builds result (joined_left (joins joint.now) terms) }
{
    let mut terms = terms.into_vec().into_iter();
    let mut joined = match terms.next() {
        Some(first) => first,
        None => number(0),
    };
    for term in terms {
        joined = join(alloc, joint, joined, term)?;
    }
    Ok(joined)
}

/// Each term joined with the one after it, under `and` where there are several.
fn chained(alloc: Global, joint: &Joint, terms: &[Built]) -> Result<Built, BuildErr>
    ensures { Builds result (sole op.And (neighbours (joins joint.now) terms.now)) }
{
    let mut pile = Pile::new(alloc);
    for i in 1..terms.len() {
        let left = terms[i - 1].copy(alloc)?;
        let right = terms[i].copy(alloc)?;
        pile.push(join(alloc, joint, left, right)?)?;
    }
    pile.alone_or_under(Op::And)
}

/// Adds that the term differs from each of the others.
fn add_differences(
    alloc: Global,
    pile: &mut Pile,
    term: &Built,
    others: &[Built],
) -> Result<(), BuildErr>
    ensures added { OnOk result (pile.new ≡ pile.old ++ map (differ term.now) others.now) }
    ensures large { Refused result (size_all (pile.old ++ map (differ term.now) others.now)) }
{
    for other in others {
        let left = term.copy(alloc)?;
        let right = other.copy(alloc)?;
        pile.push(join(alloc, &Joint::Differ, left, right)?)?;
    }
    Ok(())
}

/// That each term differs from each one after it, under `and` where there are several pairs.
fn distinct(alloc: Global, terms: &[Built]) -> Result<Built, BuildErr>
    ensures { Builds result (sole op.And (all_pairs differ terms.now)) }
{
    let mut pile = Pile::new(alloc);
    for i in 0..terms.len() {
        add_differences(alloc, &mut pile, &terms[i], &terms[i + 1..])?;
    }
    pile.alone_or_under(Op::And)
}

/// 0 less the term.
fn opposite(alloc: Global, term: Built) -> Result<Built, BuildErr>
    ensures { Builds result (opposite term) }
{
    pair(alloc, Op::Sub, number(0), term)
}

/// Differences from the left on; of one term, 0 less it. There is at least one.
fn difference(alloc: Global, mut terms: List<Built>) -> Result<Built, BuildErr>
    requires { 0 < length terms }
    ensures { Builds result (difference terms) }
{
    if terms.len() == 1 {
        return opposite(alloc, terms.remove(0));
    }
    joined_left(alloc, &Joint::Pair(Op::Sub), terms)
}

/// An operator on three terms.
fn triple(alloc: Global, op: Op, a: Built, b: Built, c: Built) -> Result<Built, BuildErr>
    ensures { Builds result (App op (a ∷ b ∷ c ∷ [])) }
{
    let mut pile = Pile::new(alloc);
    pile.push(a)?;
    pile.push(b)?;
    pile.push(c)?;
    pile.under(op)
}

/// The absolute value of the one term.
fn absolute(alloc: Global, mut terms: List<Built>) -> Result<Built, BuildErr>
    requires { length terms ≡ 1 }
    ensures { Builds result (of_one absolute terms) }
{
    let term = terms.remove(0);
    let is_below = pair(alloc, Op::Lt, term.copy(alloc)?, number(0))?;
    let opposite = opposite(alloc, term.copy(alloc)?)?;
    triple(alloc, Op::Ite, is_below, opposite, term)
}

/// That the one term is divisible by the number.
pub fn divisible(alloc: Global, n: i128, mut terms: List<Built>) -> Result<Built, BuildErr>
    requires { length terms ≡ 1 }
    ensures { Builds result (of_one (divisible n) terms) }
{
    let rest = pair(alloc, Op::Mod, terms.remove(0), number(n))?;
    pair(alloc, Op::Eq, rest, number(0))
}

macro_rules! built {
    ((applied $op:ident) $alloc:expr, $terms:expr) => {
        applied($alloc, Op::$op, $terms)
    };
    ((implication) $alloc:expr, $terms:expr) => {
        implication($alloc, $terms)
    };
    ((sole $op:ident) $alloc:expr, $terms:expr) => {
        sole($alloc, Op::$op, $terms)
    };
    ((differing) $alloc:expr, $terms:expr) => {
        joined_left($alloc, &Joint::Differ, $terms)
    };
    ((left $op:ident) $alloc:expr, $terms:expr) => {
        joined_left($alloc, &Joint::Pair(Op::$op), $terms)
    };
    ((chained $op:ident) $alloc:expr, $terms:expr) => {
        chained($alloc, &Joint::Pair(Op::$op), $terms.as_slice())
    };
    ((turned $op:ident) $alloc:expr, $terms:expr) => {
        chained($alloc, &Joint::Turned(Op::$op), $terms.as_slice())
    };
    ((distinct) $alloc:expr, $terms:expr) => {
        distinct($alloc, $terms.as_slice())
    };
    ((difference) $alloc:expr, $terms:expr) => {
        difference($alloc, $terms)
    };
    ((absolute) $alloc:expr, $terms:expr) => {
        absolute($alloc, $terms)
    };
}

macro_rules! builds {
    ([$alloc:expr, $op:expr, $terms:expr] $($text:literal $read:ident $count:ident $sorts:ident $form:tt),*) => {
        match $op {
            $(ReadOp::$read => built!($form $alloc, $terms),)*
        }
    };
}

/// The term that an operator stands for on these, of which there are as many as it takes.
pub fn operation(alloc: Global, op: ReadOp, terms: List<Built>) -> Result<Built, BuildErr>
    requires { IsTrue (takes op (length terms)) }
    ensures { Builds result (operation op terms) }
{
    operator_rows!([builds] alloc, op, terms)
}
