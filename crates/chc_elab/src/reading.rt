//! Terms from trees.

ghost use Rattle.std.specs.Prelude.{◌≡◌, ◌≤◌, ◌≤ℤ◌, ◌<◌, ◌+◌, ◌-◌, ◌^◌, ◌++◌, ◌∷◌, [], IfOk, IfSome, OnOk, List, drop, length, pos};
ghost use Rattle.chc_sorts.specs.declared.op.Op.TheVariants as op;
ghost use Rattle.chc_sorts.specs.declared.sort.Sort.TheVariants as sort;
ghost use Rattle.chc_sexpr.specs.Counts.{count, count_all};
ghost use Rattle.chc_sexpr.specs.Readings.{Gives};
ghost use Rattle.chc_terms.specs.declared.term.Term.TheVariants.{App, Quant};
ghost use Rattle.chc_terms.specs.Shifted.{shifted};
ghost use Rattle.chc_elab.specs.Builds.{Builds};
ghost use Rattle.chc_elab.specs.Reads.{arguments, beside, counted, formed, let_read, lone_word, negative, number, on_two, quantified, quantifier_read, read_at, roles_of, symbol_read};
ghost use Rattle.chc_elab.specs.Rooms.{HasRoom, reach};
ghost use Rattle.chc_elab.specs.Settings.{flat, setting_of, site_at};
ghost use Rattle.chc_elab.specs.Sites.{Local, Tells, constant_declared, constant_named, literal_named, lone_symbol};

use crate::binding::{binder_names, binder_sorts, second_tree, terms_bound, variables_bound};
use crate::bound::Bound;
use crate::build_err::BuildErr;
use crate::built::{Built, MOST_NODES};
use crate::counting::{has_fields, head_takes};
use crate::form::Form;
use crate::forming::form_of;
use crate::frame::{Frame, innermost};
use crate::head::Head;
use crate::joining::{held, joined};
use crate::place::{fault, named_fault, unsupported};
use crate::scope::Declared;
use crate::symbols::Symbol;
use crate::typed::Typed;
use chc_sexpr::{Fault, TextErr, Tree, group_of};
use chc_sorts::{Boxed, List, Meaning, NoMemory, Op, ReadOp, Sort, same_sort};
use chc_terms::{Kind, Term, shift};
use std::alloc::Global;

/// A number.
fn number(n: i128) -> Typed
    ensures { result ≡ number n }
{
    Typed {
        term: Built::of(Term::Num(n), 1, 1),
        sort: Sort::Int,
    }
}

/// `true` or `false`.
fn literal_named(name: &[u8]) -> Option<Typed>
    ensures { result ≡ literal_named name.now }
{
    let literal = match name {
        b"true" => true,
        b"false" => false,
        _ => return None,
    };
    Some(Typed {
        term: Built::of(Term::Lit(literal), 1, 1),
        sort: Sort::Bool,
    })
}

/// The term of a local, moved under so many variables.
fn moved_under(alloc: Global, variables: u32, bound: &Bound) -> Result<Typed, NoMemory>
    requires under { bound.now.under ≤ variables }
    requires room { reach bound.now.value.term + (variables - bound.now.under) < 2 ^ 32 }
    ensures { IfOk result (λ t. t ≡ record { term = shifted bound.now.value.term bound.now.under (variables - bound.now.under); sort = bound.now.value.sort }) }
{
    let term = &bound.value.term;
    let moved = shift(alloc, term.term(), bound.under, variables - bound.under)?;
    let sort = bound.value.sort.copy(alloc)?;
    Ok(Typed {
        term: Built::of(moved, term.size(), term.depth()),
        sort,
    })
}

/// What a name stands for alone, where it is no local's and neither `true` nor `false`: a constructor, predicate or
/// definition without arguments.
fn constant_named(
    alloc: Global,
    declared: &Declared<'_>,
    name: &[u8],
) -> Result<Option<Typed>, NoMemory>
    ensures { Gives result (constant_named (setting_of declared.now) name.now) }
{
    if let Some(Meaning::Make(d, c)) = declared.sig.meaning(name) {
        if has_fields(declared.sig, d, c, 0) {
            return Ok(Some(bare_constructor(alloc, d, c)));
        }
    }
    match declared.symbols.find(name) {
        Some(symbol) => constant_declared(alloc, symbol),
        None => Ok(None),
    }
}

/// A constructor without fields.
fn bare_constructor(alloc: Global, d: u32, c: u32) -> Typed
    ensures { result ≡ record { term = App (op.Make d c) []; sort = sort.Data d } }
{
    Typed {
        term: Built::of(Term::App(Op::Make(d, c), List::new(alloc)), 1, 1),
        sort: Sort::Data(d),
    }
}

/// A predicate or definition without arguments.
fn constant_declared(alloc: Global, symbol: &Symbol) -> Result<Option<Typed>, NoMemory>
    ensures { Gives result (constant_declared symbol.now) }
{
    match symbol {
        Symbol::Pred(p, sorts) if sorts.len() == 0 => Ok(Some(Typed {
            term: Built::of(Term::Pred(*p, List::new(alloc)), 1, 1),
            sort: Sort::Bool,
        })),
        Symbol::Def(k, f) if f.params.len() == 0 => Ok(Some(Typed {
            term: Built::of(Term::Call(*k, List::new(alloc)), 1, 1),
            sort: f.result.copy(alloc)?,
        })),
        _ => Ok(None),
    }
}

/// What a lone symbol stands for.
fn lone_symbol(
    alloc: Global,
    declared: &Declared<'_>,
    frames: &[Frame],
    variables: u32,
    name: &[u8],
) -> Result<Option<Typed>, NoMemory>
    requires { HasRoom (site_at frames.now variables) 0 }
    ensures { Gives result (lone_symbol (setting_of declared.now) (site_at frames.now variables) name.now) }
{
    if let Some(bound) = innermost(frames, name) {
        return Ok(Some(moved_under(alloc, variables, bound)?));
    }
    if let Some(literal) = literal_named(name) {
        return Ok(Some(literal));
    }
    constant_named(alloc, declared, name)
}

/// The term of a lone symbol at the place. Errors: `At` it with `UnknownName`; `NoMemory`.
fn read_symbol(
    alloc: Global,
    declared: &Declared<'_>,
    frames: &[Frame],
    variables: u32,
    place: u64,
    name: &[u8],
) -> Result<Typed, TextErr>
    requires { HasRoom (site_at frames.now variables) 0 }
    ensures { Tells result (symbol_read (setting_of declared.now) place name.now (site_at frames.now variables)) }
{
    match lone_symbol(alloc, declared, frames, variables, name)? {
        Some(term) => Ok(term),
        None => named_fault(alloc, place, Fault::UnknownName, name),
    }
}

/// The fault of a lone word at the place.
fn lone_word(alloc: Global, place: u64, word: &[u8]) -> Result<Typed, TextErr>
    ensures { Tells result (lone_word place word.now) }
{
    if word == b"match".as_slice() {
        return named_fault(alloc, place, Fault::NotSupported, word);
    }
    fault(alloc, place, Fault::BadCommand)
}

/// The numeral that is the one argument of `-`, behind the head of these trees.
fn negative(head: &Head, trees: &[Tree]) -> Option<i128>
    ensures value { result ≡ negative head.now (drop 1 trees.now) }
    ensures natural { IfSome result (λ n. pos 0 ≤ℤ n) }
{
    match (head, trees) {
        (Head::Operator(ReadOp::Sub), [_, Tree::Numeral(_, n)]) if *n >= 0 => Some(*n),
        _ => None,
    }
}

/// A quantifier over these sorts on a term. Errors: `At` the place with `WrongSort`, `TooLarge` or `TooDeep`;
/// `NoMemory`.
fn quantified(
    alloc: Global,
    place: u64,
    kind: Kind,
    sorts: List<Sort>,
    body: Typed,
) -> Result<Typed, TextErr>
    ensures { Tells result (quantified place kind sorts body) }
{
    if sorts.len() == 0 {
        return Ok(body);
    }
    if !same_sort(&body.sort, &Sort::Bool) {
        return fault(alloc, place, Fault::WrongSort);
    }
    held(
        alloc,
        place,
        bind(alloc, kind, sorts, body.term),
        Sort::Bool,
    )
}

/// The quantifier over these sorts on a term.
fn bind(alloc: Global, kind: Kind, sorts: List<Sort>, body: Built) -> Result<Built, BuildErr>
    ensures { Builds result (Quant kind sorts body) }
{
    let size = body.size();
    let depth = body.depth();
    if size == MOST_NODES {
        return Err(BuildErr::TooLarge);
    }
    let body = Boxed::new(alloc, body.into_term())?;
    Ok(Built::of(Term::Quant(kind, sorts, body), size + 1, depth + 1))
}

/// Leaves the innermost list of names.
fn leave(frames: &mut List<Frame>)
    ensures { (outer : List (List Local)) (last : List Local) → frames.old ≡ outer ++ last ∷ [] → frames.new ≡ outer }
{
    let _left = frames.pop();
}

/// The term of a tree where these names stand for terms, the outermost first, and so many variables are bound.
/// The recursion is as deep as the tree. Errors: the first fault; `NoMemory`.
#[cycle(term)]
#[tactic(auto, using(crate::proofs::RoleLaws::role_equations))]
pub fn read_term(
    alloc: Global,
    declared: &Declared<'_>,
    frames: &mut List<Frame>,
    variables: u32,
    tree: &Tree,
) -> Result<Typed, TextErr>
    requires room { HasRoom (site_at frames.old variables) (count tree.now) }
    ensures value { Tells result (read_at (setting_of declared.now) tree.now (site_at frames.old variables)) }
    ensures kept { OnOk result (frames.new ≡ frames.old) }
{
    match tree {
        Tree::Symbol(place, name) => read_symbol(
            alloc,
            declared,
            frames.as_slice(),
            variables,
            *place,
            name.bytes(),
        ),
        Tree::Numeral(_, n) => Ok(number(*n)),
        Tree::Group(place, trees) => {
            let form = form_of(alloc, declared, tree, trees.as_slice())?;
            read_form(
                alloc,
                declared,
                frames,
                variables,
                *place,
                form,
                trees.as_slice(),
            )
        }
        Tree::Word(place, word) => lone_word(alloc, *place, word.bytes()),
        Tree::Keyword(place, _) => fault(alloc, *place, Fault::BadCommand),
        Tree::Text(_, _) | Tree::Other(_, _) => unsupported(alloc, tree),
    }
}

/// A form on the trees behind the first one, in the group at the place.
#[cycle(term)]
#[tactic(auto, using(crate::proofs::RoleLaws::role_equations))]
fn read_form(
    alloc: Global,
    declared: &Declared<'_>,
    frames: &mut List<Frame>,
    variables: u32,
    place: u64,
    form: Form,
    trees: &[Tree],
) -> Result<Typed, TextErr>
    requires room { HasRoom (site_at frames.old variables) (count_all trees.now) }
    requires some { 0 < length trees.now }
    ensures value { Tells result (formed (setting_of declared.now) place (beside (setting_of declared.now) (drop 1 trees.now)) (site_at frames.old variables) form) }
    ensures kept { OnOk result (frames.new ≡ frames.old) }
{
    match form {
        Form::Applied(head) => {
            if let Some(n) = negative(&head, trees) {
                return Ok(number(-n));
            }
            read_application(alloc, declared, frames, variables, place, head, trees)
        }
        Form::Alone(head) => {
            if !head_takes(declared.sig, &head, 0) {
                return fault(alloc, place, Fault::WrongCount);
            }
            joined(alloc, declared.sig, place, head, List::new(alloc))
        }
        Form::Let => read_let(alloc, declared, frames, variables, place, trees),
        Form::Quantifier(kind) => {
            read_quantifier(alloc, declared, frames, variables, place, kind, trees)
        }
        Form::Annotated => match trees {
            [_, term, ..] => read_term(alloc, declared, frames, variables, term),
            [] | [_] => fault(alloc, place, Fault::BadCommand),
        },
    }
}

/// A head on the trees behind the first one.
#[cycle(term)]
#[tactic(auto, using(crate::proofs::RoleLaws::role_equations))]
fn read_application(
    alloc: Global,
    declared: &Declared<'_>,
    frames: &mut List<Frame>,
    variables: u32,
    place: u64,
    head: Head,
    trees: &[Tree],
) -> Result<Typed, TextErr>
    requires room { HasRoom (site_at frames.old variables) (count_all trees.now) }
    requires some { 0 < length trees.now }
    ensures value { Tells result (counted (setting_of declared.now) place head (beside (setting_of declared.now) (drop 1 trees.now)) (site_at frames.old variables)) }
    ensures kept { OnOk result (frames.new ≡ frames.old) }
{
    if !head_takes(declared.sig, &head, trees.len() - 1) {
        return fault(alloc, place, Fault::WrongCount);
    }
    let args = read_arguments(alloc, declared, frames, variables, place, trees)?;
    joined(alloc, declared.sig, place, head, args)
}

/// The terms of the trees behind the first one. Errors: the first fault of a tree, or, at the place, `TooLarge` behind
/// the first term with which 1 and their sizes so far pass the limit; `NoMemory`.
#[cycle(term)]
#[tactic(auto, using(crate::proofs::RoleLaws::role_equations))]
fn read_arguments(
    alloc: Global,
    declared: &Declared<'_>,
    frames: &mut List<Frame>,
    variables: u32,
    place: u64,
    trees: &[Tree],
) -> Result<List<Typed>, TextErr>
    requires room { HasRoom (site_at frames.old variables) (count_all trees.now) }
    ensures value { Tells result (arguments place (site_at frames.old variables) 1 (beside (setting_of declared.now) (drop 1 trees.now))) }
    ensures kept { OnOk result (frames.new ≡ frames.old) }
{
    let mut args = List::new(alloc);
    let mut nodes: u64 = 1;
    for i in 1..trees.len() {
        let arg = read_term(alloc, declared, frames, variables, &trees[i])?;
        nodes += arg.term.size();
        if nodes > MOST_NODES {
            return fault(alloc, place, Fault::TooLarge);
        }
        args.push(arg)?;
    }
    Ok(args)
}

/// `let` on the trees behind it.
#[cycle(term)]
#[tactic(auto, using(crate::proofs::RoleLaws::role_equations))]
fn read_let(
    alloc: Global,
    declared: &Declared<'_>,
    frames: &mut List<Frame>,
    variables: u32,
    place: u64,
    trees: &[Tree],
) -> Result<Typed, TextErr>
    requires room { HasRoom (site_at frames.old variables) (count_all trees.now) }
    ensures value { Tells result (on_two place (let_read (setting_of declared.now) place) (beside (setting_of declared.now) (drop 1 trees.now)) (site_at frames.old variables)) }
    ensures kept { OnOk result (frames.new ≡ frames.old) }
{
    match trees {
        [_, pairs, body] => {
            let names = binder_names(alloc, place, pairs)?;
            let values = read_seconds(alloc, declared, frames, variables, pairs)?;
            frames.push(terms_bound(alloc, names, values, variables)?)?;
            let term = read_term(alloc, declared, frames, variables, body)?;
            leave(frames);
            Ok(term)
        }
        [] | [_] | [_, _] | [_, _, _, _, ..] => fault(alloc, place, Fault::BadCommand),
    }
}

/// The terms of the second trees of pairs.
#[cycle(term)]
#[tactic(auto, using(crate::proofs::RoleLaws::role_equations))]
fn read_seconds(
    alloc: Global,
    declared: &Declared<'_>,
    frames: &mut List<Frame>,
    variables: u32,
    pairs: &Tree,
) -> Result<List<Typed>, TextErr>
    requires room { HasRoom (site_at frames.old variables) (count pairs.now) }
    ensures value { Tells result ((roles_of (setting_of declared.now) pairs.now).seconds (site_at frames.old variables)) }
    ensures kept { OnOk result (frames.new ≡ frames.old) }
{
    let mut values = List::new(alloc);
    let Some(trees) = group_of(pairs) else {
        return Ok(values);
    };
    for pair in trees {
        values.push(read_second(alloc, declared, frames, variables, pair)?)?;
    }
    Ok(values)
}

/// The term of the second tree of a pair.
#[cycle(term)]
#[tactic(auto, using(crate::proofs::RoleLaws::role_equations))]
fn read_second(
    alloc: Global,
    declared: &Declared<'_>,
    frames: &mut List<Frame>,
    variables: u32,
    pair: &Tree,
) -> Result<Typed, TextErr>
    requires room { HasRoom (site_at frames.old variables) (count pair.now) }
    ensures value { Tells result ((roles_of (setting_of declared.now) pair.now).second (site_at frames.old variables)) }
    ensures kept { OnOk result (frames.new ≡ frames.old) }
{
    match second_tree(pair) {
        Some(second) => read_term(alloc, declared, frames, variables, second),
        None => Ok(number(0)),
    }
}

/// A quantifier on the trees behind it.
#[cycle(term)]
#[tactic(auto, using(crate::proofs::RoleLaws::role_equations))]
fn read_quantifier(
    alloc: Global,
    declared: &Declared<'_>,
    frames: &mut List<Frame>,
    variables: u32,
    place: u64,
    kind: Kind,
    trees: &[Tree],
) -> Result<Typed, TextErr>
    requires room { HasRoom (site_at frames.old variables) (count_all trees.now) }
    ensures value { Tells result (on_two place (quantifier_read (setting_of declared.now) place kind) (beside (setting_of declared.now) (drop 1 trees.now)) (site_at frames.old variables)) }
    ensures kept { OnOk result (frames.new ≡ frames.old) }
{
    match trees {
        [_, pairs, body] => {
            let names = binder_names(alloc, place, pairs)?;
            let sorts = binder_sorts(alloc, declared, pairs)?;
            let under = variables + sorts.len() as u32;
            frames.push(variables_bound(alloc, names, sorts.as_slice(), variables)?)?;
            let term = read_term(alloc, declared, frames, under, body)?;
            leave(frames);
            quantified(alloc, place, kind, sorts, term)
        }
        [] | [_] | [_, _] | [_, _, _, _, ..] => fault(alloc, place, Fault::BadCommand),
    }
}
