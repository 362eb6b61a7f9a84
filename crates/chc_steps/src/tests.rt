//! Runs from small states: what is taken first, taking steps again in another order, and the way back.

ghost use Rattle.std.specs.Prelude.{◌≡◌, [], ◌∷◌, None, not, IfOk, IsTrue};
ghost use Rattle.std.specs.List.{list_all};
ghost use Rattle.chc_state.specs.declared.clause.Clause.{Clause as HornClause};

use crate::{ReplayErr, Run, RunBackErr, back_defs, back_steps, first, normal, replay};
use chc_sorts::{List, NoMemory, Sig};
use chc_state::{Atom, Clause, Def, Defs, PredDecl, RefStep, State, Step, Steps, positions_fit};
use chc_terms::Term;
use chc_values::World;
use std::alloc::Global;
use std::test::Fail;

/// An atom without arguments.
fn atom(alloc: Global, pred: u32) -> Atom {
    Atom {
        pred,
        args: List::new(alloc),
    }
}

/// The number of a predicate's letter, counted from `a`.
fn number_of(letter: u8) -> u32 {
    u32::from(letter.saturating_sub(b'a'))
}

/// The clause of a word, without variables and conjuncts: the letter of its head, or `-`, and the letters of its body.
fn clause(alloc: Global, word: &[u8]) -> Result<Clause, NoMemory> {
    let mut body = List::new(alloc);
    let mut head = None;
    for (i, letter) in word.iter().enumerate() {
        let atom = atom(alloc, number_of(*letter));
        if i > 0 {
            body.push(atom)?;
        } else if *letter >= b'a' {
            head = Some(atom);
        }
    }
    Ok(Clause {
        vars: List::new(alloc),
        conj: List::new(alloc),
        body,
        head,
        weight: 1,
    })
}

/// The clauses of the text, a word for each.
fn clauses(alloc: Global, text: &[u8]) -> Result<List<Clause>, NoMemory> {
    let mut clauses = List::new(alloc);
    for word in text.split(|b| *b == b' ') {
        clauses.push(clause(alloc, word)?)?;
    }
    Ok(clauses)
}

/// Four predicates without positions, all live.
fn decls(alloc: Global) -> Result<List<PredDecl>, NoMemory> {
    let mut preds = List::new(alloc);
    for _ in 0..4 {
        let sorts = List::new(alloc);
        preds.push(PredDecl { sorts, live: true })?;
    }
    Ok(preds)
}

/// The state of the predicates a to d and the clauses of the text, if it is one.
fn small(alloc: Global, text: &[u8]) -> Result<Option<State>, NoMemory> {
    let sig = Sig::new(alloc);
    let preds = decls(alloc)?;
    let clauses = clauses(alloc, text)?;
    let few = preds.len() < 1_000_000 && clauses.len() < 1_000_000;
    if few && positions_fit(&sig, &preds) {
        Ok(State::make(alloc, sig, preds, clauses).ok())
    } else {
        Ok(None)
    }
}

/// The numbers of the letters.
fn numbers(alloc: Global, letters: &[u8]) -> Result<List<u32>, NoMemory> {
    let mut list = List::new(alloc);
    for letter in letters {
        list.push(number_of(*letter))?;
    }
    Ok(list)
}

/// The step of a word: `v` and a digit, or `r` or `n` and letters; `r` removes predicates that no derivation reaches.
fn step(alloc: Global, word: &[u8]) -> Result<Step, NoMemory> {
    match word {
        [b'v', digit] => Ok(Step::Void(u32::from(digit.saturating_sub(b'0')))),
        [b'r', letters @ ..] => Ok(Step::Unreached(numbers(alloc, letters)?)),
        [_, letters @ ..] => Ok(Step::Unneeded(numbers(alloc, letters)?)),
        [] => Ok(Step::Unneeded(List::new(alloc))),
    }
}

/// The steps of the text, a word for each.
fn steps(alloc: Global, text: &[u8]) -> Result<List<Step>, NoMemory> {
    let mut steps = List::new(alloc);
    for word in text.split(|b| *b == b' ') {
        steps.push(step(alloc, word)?)?;
    }
    Ok(steps)
}

/// Whether they are one step.
fn is_same(a: &Step, b: &Step) -> bool {
    match (a, b) {
        (Step::Void(j), Step::Void(k)) => j == k,
        (Step::Unreached(ps), Step::Unreached(qs)) => ps.as_slice() == qs.as_slice(),
        (Step::Unneeded(ps), Step::Unneeded(qs)) => ps.as_slice() == qs.as_slice(),
        _ => false,
    }
}

/// Whether they are the same steps in the same order.
fn are_same(a: &[Step], b: &[Step]) -> bool {
    a.len() == b.len() && a.iter().zip(b).all(|(x, y)| is_same(x, y))
}

/// Clause 1 concludes nothing new, c and d aren't reached, and b isn't needed.
const MIXED: &[u8] = b"a aa ba ac -a";

/// What `normal` makes of the state of the text, if that is one.
fn normal_of(alloc: Global, text: &[u8]) -> Result<Option<(State, Run)>, NoMemory> {
    match small(alloc, text)? {
        Some(s) => Ok(Some(normal(alloc, s)?)),
        None => Ok(None),
    }
}

/// Whether `normal` takes these steps from the state of the text, and leaves so many clauses, with nothing left to take.
fn is_normal_run(
    alloc: Global,
    text: &[u8],
    wanted: &[u8],
    clauses: usize,
) -> Result<bool, NoMemory> {
    let wanted = steps(alloc, wanted)?;
    match normal_of(alloc, text)? {
        Some((z, run)) => Ok(
            are_same(run.steps.as_slice(), wanted.as_slice())
                && run.undos.len() == wanted.len()
                && z.clauses().len() == clauses
                && first(alloc, &z)?.is_none(),
        ),
        None => Ok(false),
    }
}

#[test]
fn the_first_kind_is_taken_until_none_is_left(rt: HostRuntime) -> Result<(), Fail> {
    let alloc = rt.alloc();
    assert!(rt; is_normal_run(alloc, MIXED, b"v1 rcd nb", 2)?);
    assert!(rt; is_normal_run(alloc, b"ab b cb dc", b"nabcd", 0)?);
    Ok(())
}

/// What replay makes of the steps from the state of the text: how many clauses are left, or the step that isn't legal.
fn replayed(
    alloc: Global,
    text: &[u8],
    words: &[u8],
) -> Result<Option<Result<usize, u64>>, NoMemory> {
    let steps = steps(alloc, words)?;
    match small(alloc, text)? {
        Some(s) => match replay(alloc, s, steps.as_slice()) {
            Ok((z, _run)) => Ok(Some(Ok(z.clauses().len()))),
            Err(ReplayErr::NotLegal(k)) => Ok(Some(Err(k))),
            Err(ReplayErr::NoMemory) => Err(NoMemory),
        },
        None => Ok(None),
    }
}

#[test]
fn steps_are_taken_in_any_legal_order(rt: HostRuntime) -> Result<(), Fail> {
    let alloc = rt.alloc();
    assert_eq!(rt; replayed(alloc, MIXED, b"v1 rcd nb")?, Some(Ok(2)));
    assert_eq!(rt; replayed(alloc, MIXED, b"nb v1 rc")?, Some(Ok(2)));
    assert_eq!(rt; replayed(alloc, MIXED, b"rd")?, Some(Ok(5)));
    Ok(())
}

#[test]
fn the_first_illegal_step_is_named(rt: HostRuntime) -> Result<(), Fail> {
    let alloc = rt.alloc();
    assert_eq!(rt; replayed(alloc, MIXED, b"v0 na")?, Some(Err(0)));
    assert_eq!(rt; replayed(alloc, MIXED, b"nb v1 v1 na")?, Some(Err(2)));
    assert_eq!(rt; replayed(alloc, MIXED, b"rcd rc")?, Some(Err(1)));
    Ok(())
}

/// Nothing new follows by clause 0, nothing concludes b, and no query needs c, so the query alone is left.
const DOWN_TO_QUERY: &[u8] = b"aa cb c -";

/// Whether none of the predicates is live.
fn none_is_live(preds: &List<PredDecl>) -> bool
    ensures { result ≡ list_all (λ p. not p.live) preds.now }
{
    preds.as_slice().iter().all(|p| !p.live)
}

/// No definitions, of four predicates.
fn no_defs(alloc: Global) -> Result<Defs, NoMemory>
    ensures list { IfOk result (λ d. d.list ≡ []) }
    ensures of { IfOk result (λ d. d.of ≡ None ∷ None ∷ None ∷ None ∷ []) }
{
    let mut of = List::new(alloc);
    of.push(None)?;
    of.push(None)?;
    of.push(None)?;
    of.push(None)?;
    let list = List::new(alloc);
    Ok(Defs { list, of })
}

/// The definitions before the run that `normal` takes from the state, where it removes all of four predicates.
fn defs_before(alloc: Global, s: State) -> Result<Option<Defs>, NoMemory> {
    let (z, run) = normal(alloc, s)?;
    if z.preds().len() == 4 && none_is_live(z.preds()) {
        let none = no_defs(alloc)?;
        return Ok(Some(back_defs(alloc, &run, none)?));
    }
    Ok(None)
}

/// The letter of a definition: `t` or `f` where it is that truth value, `?` where it is another term.
fn letter_of(def: &Def) -> u8 {
    match &def.body {
        Term::Lit(true) => b't',
        Term::Lit(false) => b'f',
        _ => b'?',
    }
}

/// The letter of the predicate's definition, or `-` where it has none.
fn letter_at(d: &Defs, p: usize) -> u8 {
    match d.of.get(p) {
        Some(Some(k)) => match d.list.get(*k as usize) {
            Some(def) => letter_of(def),
            None => b'?',
        },
        _ => b'-',
    }
}

/// Whether those are the letters of the first predicates' definitions.
fn are_letters(d: &Defs, letters: &[u8]) -> bool {
    letters
        .iter()
        .enumerate()
        .all(|(p, letter)| letter_at(d, p) == *letter)
}

/// Whether the definitions before the run from the state of the text have those letters.
fn come_back_as(alloc: Global, text: &[u8], letters: &[u8]) -> Result<bool, NoMemory> {
    match small(alloc, text)? {
        Some(s) => match defs_before(alloc, s)? {
            Some(d) => Ok(are_letters(&d, letters)),
            None => Ok(false),
        },
        None => Ok(false),
    }
}

#[test]
fn definitions_come_back_over_all_kinds(rt: HostRuntime) -> Result<(), Fail> {
    assert!(rt; come_back_as(rt.alloc(), DOWN_TO_QUERY, b"fftf")?);
    Ok(())
}

/// Whether the clauses are one query without variables, conjuncts and body atoms.
fn ask_nothing(clauses: &[Clause]) -> bool
    ensures { IsTrue result → (c : HornClause) × (clauses.now ≡ c ∷ []) × (c.head ≡ None) × (c.vars ≡ []) × (c.conj ≡ []) × (c.body ≡ []) }
{
    match clauses {
        [c] => { c.head.is_none() && c.vars.len() == 0 && c.conj.len() == 0 && c.body.len() == 0 }
        _ => false,
    }
}

/// The step on clause 0, without values and premises.
fn one_step(alloc: Global) -> Result<Steps, NoMemory>
    ensures { IfOk result (λ r. r ≡ record { clause = 0; values = []; premises = [] } ∷ []) }
{
    let mut steps = List::new(alloc);
    steps.push(RefStep {
        clause: 0,
        values: List::new(alloc),
        premises: List::new(alloc),
    })?;
    Ok(steps)
}

/// The steps before the run that `normal` takes from the state, where a query that asks for nothing is left.
fn steps_before(alloc: Global, s: State) -> Result<Option<Steps>, RunBackErr> {
    let Ok((z, run)) = normal(alloc, s) else {
        return Err(RunBackErr::NoMemory);
    };
    let Ok(one) = one_step(alloc) else {
        return Err(RunBackErr::NoMemory);
    };
    if ask_nothing(z.clauses().as_slice()) {
        let world = World::new(alloc);
        return Ok(Some(back_steps(alloc, &run, one, &world)?));
    }
    Ok(None)
}

/// How many steps come back over the run from the state of the text, and the clause of the first.
fn first_before(alloc: Global, text: &[u8]) -> Result<Option<(usize, u32)>, NoMemory> {
    match small(alloc, text)? {
        Some(s) => match steps_before(alloc, s) {
            Ok(Some(steps)) => Ok(steps.get(0).map(|step| (steps.len(), step.clause))),
            Err(RunBackErr::NoMemory) => Err(NoMemory),
            _ => Ok(None),
        },
        None => Ok(None),
    }
}

#[test]
fn refutations_come_back_over_all_kinds(rt: HostRuntime) -> Result<(), Fail> {
    assert_eq!(rt; first_before(rt.alloc(), DOWN_TO_QUERY)?, Some((1, 3)));
    assert_eq!(rt; first_before(rt.alloc(), MIXED)?, None);
    Ok(())
}
