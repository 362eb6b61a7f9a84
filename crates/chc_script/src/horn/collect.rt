//! The parts of a clause in a term.

ghost use Rattle.std.specs.Prelude.{◌≡◌, map};
ghost use Rattle.chc_script.specs.Horn.{Answers, atom_read, collected, each, literal_read, readings, whole_read};
ghost use Rattle.chc_script.specs.Marks.{marked, node_of};

use crate::horn::mark::Mark;
use crate::horn::parts::Parts;
use crate::horn::refusal::HornErr;
use crate::horn::side::{Side, Way, way_on};
use chc_state::Atom;
use chc_terms::{Term, Terms, copy_terms};
use std::alloc::Global;

/// With a term that is no atom and isn't read by its arguments. Errors: `NotHorn` where a predicate stands in it;
/// `NoMemory`.
fn collect_whole(
    alloc: Global,
    term: &Term,
    mentions: bool,
    side: Side,
    found: Parts,
) -> Result<Parts, HornErr>
    ensures { Answers result (whole_read mentions term.now side found) }
{
    if mentions {
        return Err(HornErr::NotHorn);
    }
    let copied = term.copy(alloc)?;
    let parts = found.with_condition(alloc, copied, side)?;
    Ok(parts)
}

/// With a truth value. It adds nothing where it makes no difference: `false` as what is concluded, `true` as what is assumed.
fn collect_literal(alloc: Global, truth: bool, side: Side, found: Parts) -> Result<Parts, HornErr>
    ensures { Answers result (literal_read truth side found) }
{
    match (truth, side) {
        (false, Side::Concluded) | (true, Side::Assumed) => Ok(found),
        (true, Side::Concluded) | (false, Side::Assumed) => {
            let parts = found.with_condition(alloc, Term::Lit(truth), side)?;
            Ok(parts)
        }
    }
}

/// With an atom. Errors: `NotHorn` where a predicate stands in an argument, or where there are two heads; `NoMemory`.
fn collect_atom(
    alloc: Global,
    pred: u32,
    args: &Terms,
    nested: bool,
    side: Side,
    found: Parts,
) -> Result<Parts, HornErr>
    ensures { Answers result (atom_read nested pred args.now side found) }
{
    if nested {
        return Err(HornErr::NotHorn);
    }
    let args = copy_terms(alloc, args)?;
    found.with_atom(Atom { pred, args }, side)
}

/// The parts found so far with those in a term, of which this is the mark. Errors: `NotHorn` where the term isn't a part
/// of a Horn clause on that side; `NoMemory`. The recursion is as deep as the term.
#[cycle(collect)]
#[tactic(auto, using(crate::proofs::Collected::reading_equations))]
pub fn collect(
    alloc: Global,
    term: &Term,
    mark: &Mark,
    side: Side,
    found: Parts,
) -> Result<Parts, HornErr>
    requires { mark.now ≡ marked term.now }
    ensures { Answers result (collected term.now side found) }
{
    match term {
        Term::Lit(truth) => collect_literal(alloc, *truth, side, found),
        Term::Pred(pred, args) => collect_atom(alloc, *pred, args, mark.is_below(), side, found),
        Term::App(op, args) => match way_on(op, side, mark.is_within()) {
            Way::Through(next) => collect_each(alloc, args, mark, next, found),
            Way::Whole => collect_whole(alloc, term, false, side, found),
            Way::Refused => Err(HornErr::NotHorn),
        },
        Term::Var(_) | Term::Num(_) | Term::Quant(_, _, _) | Term::Call(_, _) => {
            collect_whole(alloc, term, mark.is_within(), side, found)
        }
    }
}

/// The same of each of the terms, in order, whose marks are the parts of this one.
#[cycle(collect)]
#[tactic(auto, using(crate::proofs::Collected::reading_equations))]
fn collect_each(
    alloc: Global,
    terms: &Terms,
    mark: &Mark,
    side: Side,
    found: Parts,
) -> Result<Parts, HornErr>
    requires { mark.now ≡ node_of (map marked terms.now) }
    ensures { Answers result (each (readings terms.now) side found) }
{
    let mut found = found;
    for (i, term) in terms.as_slice().iter().enumerate() {
        found = collect(alloc, term, mark.part(i), side, found)?;
    }
    Ok(found)
}
