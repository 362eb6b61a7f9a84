//! Small states, with what is found in them and what is left.

ghost use Rattle.std.specs.Prelude.{◌≡◌, nat_lt};
ghost use Rattle.std.specs.List.{list_all};

use crate::sliced::{Removed, number_of as number_before, removed_preds, with_constants};
use crate::{Unneeded, Unreached, Void};
use chc_sorts::{List, NoMemory, Sig, Sort};
use chc_state::{Atom, Clause, Def, Defs, Pass, PredDecl, State, positions_fit};
use chc_terms::Term;
use std::alloc::Global;
use std::test::Fail;

/// An atom without arguments.
fn atom(alloc: Global, pred: u32) -> Atom {
    Atom {
        pred,
        args: List::new(alloc),
    }
}

/// The number of a predicate's letter, counted from `a`.
fn number_of(letter: u8) -> u32 {
    u32::from(letter.saturating_sub(b'a'))
}

/// An atom without arguments for each letter.
fn atoms(alloc: Global, letters: &[u8]) -> Result<List<Atom>, NoMemory> {
    let mut atoms = List::new(alloc);
    for letter in letters {
        atoms.push(atom(alloc, number_of(*letter)))?;
    }
    Ok(atoms)
}

/// The atom without arguments of a letter; none for `-`.
fn head_atom(alloc: Global, letter: u8) -> Option<Atom> {
    if letter >= b'a' {
        Some(atom(alloc, number_of(letter)))
    } else {
        None
    }
}

/// The clause without variables and conjuncts that has this head and these body atoms.
fn clause(alloc: Global, head: Option<Atom>, body: List<Atom>) -> Clause {
    Clause {
        vars: List::new(alloc),
        conj: List::new(alloc),
        body,
        head,
        weight: 1,
    }
}

/// Adds the clause of a word: the letter of its head or `-`, and the letters of its body.
fn add_clause(alloc: Global, clauses: &mut List<Clause>, word: &[u8]) -> Result<(), NoMemory> {
    if let [head, body @ ..] = word {
        let body = atoms(alloc, body)?;
        clauses.push(clause(alloc, head_atom(alloc, *head), body))?;
    }
    Ok(())
}

/// The clauses of the text, a word for each.
fn clauses(alloc: Global, text: &[u8]) -> Result<List<Clause>, NoMemory> {
    let mut clauses = List::new(alloc);
    for word in text.split(|b| *b == b' ') {
        add_clause(alloc, &mut clauses, word)?;
    }
    Ok(clauses)
}

/// As many predicates without positions, all live.
fn decls(alloc: Global, count: usize) -> Result<List<PredDecl>, NoMemory> {
    let mut preds = List::new(alloc);
    for _ in 0..count {
        let sorts = List::new(alloc);
        preds.push(PredDecl { sorts, live: true })?;
    }
    Ok(preds)
}

/// The state of these parts, if it is one.
fn state(alloc: Global, preds: List<PredDecl>, clauses: List<Clause>) -> Option<State> {
    let sig = Sig::new(alloc);
    let few = preds.len() < 1_000_000 && clauses.len() < 1_000_000;
    if few && positions_fit(&sig, &preds) {
        State::make(alloc, sig, preds, clauses).ok()
    } else {
        None
    }
}

/// The state of the predicates a to d and the clauses of the text, if it is one.
fn small(alloc: Global, text: &[u8]) -> Result<Option<State>, NoMemory> {
    let preds = decls(alloc, 4)?;
    let clauses = clauses(alloc, text)?;
    Ok(state(alloc, preds, clauses))
}

/// What was found, with a digit for each predicate, 1 for a, or 0 where nothing was found.
fn digits(found: &Option<List<u32>>) -> u32 {
    let mut digits: u32 = 0;
    if let Some(ps) = found {
        for p in ps.as_slice() {
            digits = digits
                .saturating_mul(10)
                .saturating_add(*p)
                .saturating_add(1);
        }
    }
    digits
}

/// How many predicates are live.
fn count_live(s: &State) -> usize {
    s.preds().as_slice().iter().filter(|d| d.live).count()
}

/// How many clauses there are.
fn count_clauses(s: &State) -> usize {
    s.clauses().len()
}

/// What is found in a state, and the state after that is removed.
#[derive(Drop)]
struct Outcome {
    digits: u32,
    left: State,
}

/// What is found unreached in a state, and what is left.
fn without_unreached(alloc: Global, s: State) -> Result<Outcome, NoMemory> {
    let found = Unreached::find(alloc, &s)?;
    let digits = digits(&found);
    let left = match found {
        Some(ps) => Unreached::apply(alloc, s, &ps)?.0,
        None => s,
    };
    Ok(Outcome { digits, left })
}

/// What is found unneeded in a state, and what is left.
fn without_unneeded(alloc: Global, s: State) -> Result<Outcome, NoMemory> {
    let found = Unneeded::find(alloc, &s)?;
    let digits = digits(&found);
    let left = match found {
        Some(ps) => Unneeded::apply(alloc, s, &ps)?.0,
        None => s,
    };
    Ok(Outcome { digits, left })
}

/// A kind of step.
#[derive(Clone, Copy)]
enum Kind {
    Unreached,
    Unneeded,
}

/// What a kind of step finds in a state, and what is left.
fn sliced(alloc: Global, kind: Kind, s: State) -> Result<Outcome, NoMemory> {
    match kind {
        Kind::Unreached => without_unreached(alloc, s),
        Kind::Unneeded => without_unneeded(alloc, s),
    }
}

/// The same of the state of a text, if that is one.
fn sliced_text(alloc: Global, kind: Kind, text: &[u8]) -> Result<Option<Outcome>, NoMemory> {
    match small(alloc, text)? {
        Some(s) => Ok(Some(sliced(alloc, kind, s)?)),
        None => Ok(None),
    }
}

/// What the kind of step finds in the state of a text, and how many live predicates and clauses are left.
fn found_in(
    alloc: Global,
    kind: Kind,
    text: &[u8],
) -> Result<Option<(u32, usize, usize)>, NoMemory> {
    match sliced_text(alloc, kind, text)? {
        Some(made) => Ok(Some((
            made.digits,
            count_live(&made.left),
            count_clauses(&made.left),
        ))),
        None => Ok(None),
    }
}

#[test]
fn unreached_predicates_go(rt: HostRuntime) -> Result<(), Fail> {
    let alloc = rt.alloc();
    let kind = Kind::Unreached;
    assert_eq!(rt; found_in(alloc, kind, b"a ba cd bac -c")?, Some((34, 2, 2)));
    assert_eq!(rt; found_in(alloc, kind, b"d cd bc ab -a")?, Some((0, 4, 5)));
    assert_eq!(rt; found_in(alloc, kind, b"ab ba d cdd -a")?, Some((12, 2, 2)));
    Ok(())
}

#[test]
fn unneeded_predicates_go(rt: HostRuntime) -> Result<(), Fail> {
    let alloc = rt.alloc();
    let kind = Kind::Unneeded;
    assert_eq!(rt; found_in(alloc, kind, b"a ba cb dbc -b")?, Some((34, 2, 3)));
    assert_eq!(rt; found_in(alloc, kind, b"d cd bc ab -a")?, Some((0, 4, 5)));
    assert_eq!(rt;
        found_in(alloc, kind, b"ab ba c dcc d")?,
        Some((1234, 0, 0))
    );
    Ok(())
}

/// How many clauses a chain has.
const LINKS: u32 = 300;

/// The list of the one atom without arguments of that number.
fn one_atom(alloc: Global, pred: u32) -> Result<List<Atom>, NoMemory> {
    let mut atoms = List::new(alloc);
    atoms.push(atom(alloc, pred))?;
    Ok(atoms)
}

/// The clauses by which each predicate of a chain follows from the one with the next number.
fn links(alloc: Global) -> Result<List<Clause>, NoMemory> {
    let mut clauses = List::new(alloc);
    for p in 0..LINKS {
        let body = one_atom(alloc, p + 1)?;
        clauses.push(clause(alloc, Some(atom(alloc, p)), body))?;
    }
    Ok(clauses)
}

/// Those clauses, the fact of the last predicate, and the query of the first.
fn chain(alloc: Global) -> Result<List<Clause>, NoMemory> {
    let mut clauses = links(alloc)?;
    let last = atom(alloc, LINKS);
    clauses.push(clause(alloc, Some(last), List::new(alloc)))?;
    clauses.push(clause(alloc, None, one_atom(alloc, 0)?))?;
    Ok(clauses)
}

/// The state of the chain, if it is one.
fn chained(alloc: Global) -> Result<Option<State>, NoMemory> {
    let preds = decls(alloc, LINKS as usize + 1)?;
    let clauses = chain(alloc)?;
    Ok(state(alloc, preds, clauses))
}

/// Whether the kind of step finds nothing in the state.
fn finds_nothing(alloc: Global, kind: Kind, s: &State) -> Result<bool, NoMemory> {
    match kind {
        Kind::Unreached => Ok(Unreached::find(alloc, s)?.is_none()),
        Kind::Unneeded => Ok(Unneeded::find(alloc, s)?.is_none()),
    }
}

/// Whether the kind of step finds nothing in the chain, if that is a state.
fn follows_chain(alloc: Global, kind: Kind) -> Result<Option<bool>, NoMemory> {
    match chained(alloc)? {
        Some(s) => Ok(Some(finds_nothing(alloc, kind, &s)?)),
        None => Ok(None),
    }
}

#[test]
fn chains_are_followed_to_their_end(rt: HostRuntime) -> Result<(), Fail> {
    assert_eq!(rt; follows_chain(rt.alloc(), Kind::Unreached)?, Some(true));
    assert_eq!(rt; follows_chain(rt.alloc(), Kind::Unneeded)?, Some(true));
    Ok(())
}

/// The list of those numbers.
fn list_of(alloc: Global, numbers: &[u32]) -> Result<List<u32>, NoMemory> {
    let mut list = List::new(alloc);
    for p in numbers {
        list.push(*p)?;
    }
    Ok(list)
}

/// The list of the numbers of the letters.
fn numbers_of(alloc: Global, letters: &[u8]) -> Result<List<u32>, NoMemory> {
    let mut list = List::new(alloc);
    for letter in letters {
        list.push(number_of(*letter))?;
    }
    Ok(list)
}

/// Whether the step of the kind on the numbers is legal in the state.
fn is_legal(alloc: Global, kind: Kind, s: &State, ps: &List<u32>) -> Result<bool, NoMemory> {
    match kind {
        Kind::Unreached => Unreached::legal(alloc, s, ps),
        Kind::Unneeded => Unneeded::legal(alloc, s, ps),
    }
}

/// Whether the step is legal in the state of the text, if that is one.
fn legal_in(
    alloc: Global,
    kind: Kind,
    text: &[u8],
    ps: &List<u32>,
) -> Result<Option<bool>, NoMemory> {
    match small(alloc, text)? {
        Some(s) => Ok(Some(is_legal(alloc, kind, &s, ps)?)),
        None => Ok(None),
    }
}

/// Nothing needs b, nothing reaches c and d, and a is both reached and needed.
const SLICED: &[u8] = b"a aa ba ac -a";

/// Whether the step on the letters' numbers is as a row says, `+` where it is legal, in the state of `SLICED`.
fn is_row_right(alloc: Global, kind: Kind, row: &[u8]) -> Result<bool, NoMemory> {
    match row {
        [sign, letters @ ..] => {
            let ps = numbers_of(alloc, letters)?;
            let legal = legal_in(alloc, kind, SLICED, &ps)?;
            Ok(legal == Some(*sign == b'+'))
        }
        [] => Ok(false),
    }
}

#[test]
fn unneeded_choices_are_legal_or_not(rt: HostRuntime) -> Result<(), Fail> {
    let rows = [
        b"+b".as_slice(),
        b"+bd",
        b"-a",
        b"-c",
        b"-",
        b"-bb",
        b"-db",
        b"-be",
    ];
    for (i, row) in rows.iter().enumerate() {
        assert!(rt; is_row_right(rt.alloc(), Kind::Unneeded, row)?, "{i}");
    }
    Ok(())
}

#[test]
fn unreached_choices_are_legal_or_not(rt: HostRuntime) -> Result<(), Fail> {
    let rows = [b"+c".as_slice(), b"+cd", b"-b", b"-", b"-cc", b"-dc"];
    for (i, row) in rows.iter().enumerate() {
        assert!(rt; is_row_right(rt.alloc(), Kind::Unreached, row)?, "{i}");
    }
    Ok(())
}

/// Whether the step that removes the unreached predicates of those numbers is legal in the state of the text.
fn unreached_legal(alloc: Global, text: &[u8], ps: &[u32]) -> Result<Option<bool>, NoMemory> {
    let ps = list_of(alloc, ps)?;
    legal_in(alloc, Kind::Unreached, text, &ps)
}

#[test]
fn great_numbers_and_circles_are_legal_or_not(rt: HostRuntime) -> Result<(), Fail> {
    let alloc = rt.alloc();
    assert_eq!(rt;
        unreached_legal(alloc, SLICED, &[2, 4_294_967_295])?,
        Some(false)
    );
    assert_eq!(rt;
        unreached_legal(alloc, b"ab ba c -ac", &[0, 1])?,
        Some(true)
    );
    Ok(())
}

/// The state after the step that removes unneeded predicates, if it is legal.
fn after_unneeded(alloc: Global, s: State, ps: &List<u32>) -> Result<Option<State>, NoMemory> {
    let legal = Unneeded::legal(alloc, &s, ps)?;
    if !legal {
        return Ok(None);
    }
    let (left, _undo) = Unneeded::apply(alloc, s, ps)?;
    Ok(Some(left))
}

/// The state of `SLICED` without b, if its removal is legal.
fn without_b(alloc: Global) -> Result<Option<State>, NoMemory> {
    let ps = numbers_of(alloc, b"b")?;
    match small(alloc, SLICED)? {
        Some(s) => after_unneeded(alloc, s, &ps),
        None => Ok(None),
    }
}

/// Whether the step on the letters' numbers is legal once b is gone, if that goes.
fn legal_without_b(alloc: Global, kind: Kind, letters: &[u8]) -> Result<Option<bool>, NoMemory> {
    let ps = numbers_of(alloc, letters)?;
    match without_b(alloc)? {
        Some(s) => Ok(Some(is_legal(alloc, kind, &s, &ps)?)),
        None => Ok(None),
    }
}

#[test]
fn what_is_gone_goes_once(rt: HostRuntime) -> Result<(), Fail> {
    assert_eq!(rt;
        legal_without_b(rt.alloc(), Kind::Unneeded, b"b")?,
        Some(false)
    );
    assert_eq!(rt;
        legal_without_b(rt.alloc(), Kind::Unreached, b"c")?,
        Some(true)
    );
    Ok(())
}

/// The sorts Int and Bool.
fn params(alloc: Global) -> Result<List<Sort>, NoMemory> {
    let mut params = List::new(alloc);
    params.push(Sort::Int)?;
    params.push(Sort::Bool)?;
    Ok(params)
}

/// The list of one definition, which is its second parameter.
fn second_parameter(alloc: Global) -> Result<List<Def>, NoMemory> {
    let params = params(alloc)?;
    let mut list = List::new(alloc);
    list.push(Def {
        params,
        result: Sort::Bool,
        body: Term::Var(1),
    })?;
    Ok(list)
}

/// Which definition each of four predicates has: b the first, and the others none.
fn second_has_first(alloc: Global) -> Result<List<Option<u64>>, NoMemory> {
    let mut of = List::new(alloc);
    of.push(None)?;
    of.push(Some(0))?;
    of.push(None)?;
    of.push(None)?;
    Ok(of)
}

/// Definitions of four predicates: b is its second parameter, and the others have none.
fn one_defined(alloc: Global) -> Result<Defs, NoMemory> {
    let list = second_parameter(alloc)?;
    let of = second_has_first(alloc)?;
    Ok(Defs { list, of })
}

/// The truth value that a term is, if it is one.
fn truth_of(term: &Term) -> Option<bool> {
    match term {
        Term::Lit(b) => Some(*b),
        _ => None,
    }
}

/// How many parameters the definition of that number has, and its truth value if it is one.
fn told(d: &Defs, number: u64) -> (usize, Option<bool>) {
    match d.list.get(number as usize) {
        Some(def) => (def.params.len(), truth_of(&def.body)),
        None => (0, None),
    }
}

/// Of each predicate the number of its definition, the parameters and the truth value.
type Told = Option<(u64, usize, Option<bool>)>;

/// What the definitions say of the predicate.
fn told_of(d: &Defs, p: usize) -> Told {
    match d.of.get(p) {
        Some(Some(number)) => {
            let (count, truth) = told(d, *number);
            Some((*number, count, truth))
        }
        _ => None,
    }
}

/// Whether the definitions say that of the predicate.
fn is_told(d: &Defs, p: usize, wanted: Told) -> bool {
    told_of(d, p) == wanted
}

/// Whether b has its definition, and a and d constants of that truth value after it.
fn are_constants(d: &Defs, truth: bool) -> bool {
    d.list.len() == 3
        && is_told(d, 0, Some((1, 2, Some(truth))))
        && is_told(d, 1, Some((0, 2, None)))
        && is_told(d, 2, None)
        && is_told(d, 3, Some((2, 2, Some(truth))))
}

/// Two positions of Int.
fn pair(alloc: Global) -> Result<List<Sort>, NoMemory> {
    let mut sorts = List::new(alloc);
    sorts.push(Sort::Int)?;
    sorts.push(Sort::Int)?;
    Ok(sorts)
}

/// Four predicates with two positions, all live.
fn pairs(alloc: Global) -> Result<List<PredDecl>, NoMemory> {
    let mut preds = List::new(alloc);
    for _ in 0..4 {
        let sorts = pair(alloc)?;
        preds.push(PredDecl { sorts, live: true })?;
    }
    Ok(preds)
}

/// The state of those predicates, without clauses, if it is one.
fn of_pairs(alloc: Global) -> Result<Option<State>, NoMemory> {
    let preds = pairs(alloc)?;
    Ok(state(alloc, preds, List::new(alloc)))
}

/// The definitions before a slice that removed a and d, where removed predicates have that truth value.
fn before_slice(alloc: Global, truth: bool) -> Result<Option<Defs>, NoMemory> {
    let ps = numbers_of(alloc, b"ad")?;
    let defined = one_defined(alloc)?;
    match of_pairs(alloc)? {
        Some(s) => with_removed(alloc, truth, &s, &ps, defined),
        None => Ok(None),
    }
}

/// The definitions with a constant for each of these predicates of the state, if all of them have a place.
fn with_removed(
    alloc: Global,
    truth: bool,
    s: &State,
    ps: &List<u32>,
    d: Defs,
) -> Result<Option<Defs>, NoMemory> {
    let removed = removed_preds(alloc, s, ps.as_slice())?;
    if !are_below(&removed, d.of.len()) {
        return Ok(None);
    }
    let before = with_constants(alloc, truth, removed.as_slice(), d)?;
    Ok(Some(before))
}

/// Whether the predicates' numbers are all below the count.
fn are_below(removed: &List<Removed>, count: usize) -> bool
    ensures { result ≡ list_all (λ x. nat_lt x.pred count) removed.now }
{
    removed.as_slice().iter().all(|x| (x.pred as usize) < count)
}

/// Whether a and d are constants of that truth value before the slice that removed them.
fn are_constants_before(alloc: Global, truth: bool) -> Result<bool, NoMemory> {
    match before_slice(alloc, truth)? {
        Some(d) => Ok(are_constants(&d, truth)),
        None => Ok(false),
    }
}

#[test]
fn removed_predicates_are_constants(rt: HostRuntime) -> Result<(), Fail> {
    assert!(rt; are_constants_before(rt.alloc(), false)?);
    assert!(rt; are_constants_before(rt.alloc(), true)?);
    Ok(())
}

/// The clauses of the text, the one of that number with the conjunct `false`.
fn contradicted(alloc: Global, text: &[u8], at: usize) -> Result<List<Clause>, NoMemory> {
    let mut items = clauses(alloc, text)?.into_vec();
    if at < items.len() {
        items[at].conj.push(Term::Lit(false))?;
    }
    Ok(List::from_vec(items))
}

/// The state of four predicates and these clauses, if it is one.
fn state_of(alloc: Global, clauses: List<Clause>) -> Result<Option<State>, NoMemory> {
    let preds = decls(alloc, 4)?;
    Ok(state(alloc, preds, clauses))
}

/// The number of the first clause that concludes nothing new, and how many clauses are left without it.
fn voided(alloc: Global, s: State) -> Result<(Option<u32>, usize), NoMemory> {
    let found = Void::find(alloc, &s)?;
    let left = match found {
        Some(k) => Void::apply(alloc, s, &k)?.0,
        None => s,
    };
    Ok((found, count_clauses(&left)))
}

/// The same of these clauses over four predicates, if they are a state.
fn voided_in(
    alloc: Global,
    clauses: List<Clause>,
) -> Result<Option<(Option<u32>, usize)>, NoMemory> {
    match state_of(alloc, clauses)? {
        Some(s) => Ok(Some(voided(alloc, s)?)),
        None => Ok(None),
    }
}

#[test]
fn void_clauses_go(rt: HostRuntime) -> Result<(), Fail> {
    let alloc = rt.alloc();
    let repeated = clauses(alloc, b"a ba cbc ccc -c")?;
    assert_eq!(rt; voided_in(alloc, repeated)?, Some((Some(2), 4)));
    let false_query = contradicted(alloc, b"a ba -a", 2)?;
    assert_eq!(rt; voided_in(alloc, false_query)?, Some((Some(2), 2)));
    let none = clauses(alloc, b"a ba cb -c")?;
    assert_eq!(rt; voided_in(alloc, none)?, Some((None, 4)));
    Ok(())
}

/// Whether the clause of that number may be removed from the state of the text, if that is one.
fn void_legal(alloc: Global, text: &[u8], k: u32) -> Result<Option<bool>, NoMemory> {
    match small(alloc, text)? {
        Some(s) => Ok(Some(Void::legal(alloc, &s, &k)?)),
        None => Ok(None),
    }
}

#[test]
fn void_choices_are_legal_or_not(rt: HostRuntime) -> Result<(), Fail> {
    let alloc = rt.alloc();
    assert_eq!(rt; void_legal(alloc, b"aba bb -a", 0)?, Some(true));
    assert_eq!(rt; void_legal(alloc, b"aba bb -a", 1)?, Some(true));
    assert_eq!(rt; void_legal(alloc, b"aba bb -a", 2)?, Some(false));
    assert_eq!(rt; void_legal(alloc, b"aba bb -a", 3)?, Some(false));
    Ok(())
}

#[test]
fn clause_numbers_are_turned_back(rt: HostRuntime) -> Result<(), Fail> {
    assert_eq!(rt; number_before(&[1, 2, 5], 0), 0);
    assert_eq!(rt; number_before(&[1, 2, 5], 1), 3);
    assert_eq!(rt; number_before(&[1, 2, 5], 2), 4);
    assert_eq!(rt; number_before(&[1, 2, 5], 3), 6);
    Ok(())
}
