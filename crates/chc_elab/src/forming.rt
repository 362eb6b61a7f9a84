//! Heads and forms from trees.

ghost use Rattle.std.specs.Prelude.{◌≡◌, ◌∷◌, ℕ, IfOk, MatchOption, None, Some};
ghost use Rattle.chc_elab.specs.Heads.{constructor_named, constructor_at, const_constructor, const_in_head, group_head, head_named, indexed_head, of_sort, positive_at, symbol_head, tested_name, tester, tester_head};
ghost use Rattle.std.specs.Option.{option_and_then, option_map};
ghost use Rattle.std.specs.Str.{bytes_eq};
ghost use Rattle.chc_sexpr.specs.declared.tree.Tree.{out-Tree};
ghost use Rattle.chc_sexpr.specs.declared.tree.Tree.TheVariants.{Group};
ghost use Rattle.chc_sexpr.specs.Shapes.{symbol_of as symbol_told};
ghost use Rattle.chc_elab.specs.Forms.{form_of, word_form};
ghost use Rattle.chc_elab.specs.Settings.{qualified_as, setting_of};
ghost use Rattle.chc_elab.specs.Sites.{Tells};

use crate::form::Form;
use crate::head::Head;
use crate::place::{fault, named_fault, place_of, unsupported};
use crate::scope::Declared;
use crate::sort_tree::sort_of_tree;
use chc_sexpr::{Fault, TextErr, Tree, is_symbol, pair_of, symbol_of, word_of};
use chc_sorts::{Meaning, NoMemory, Sig, op_by_name};
use chc_terms::Kind;
use std::alloc::Global;

/// The numbers of the constructor of a name.
fn constructor_named(sig: &Sig, name: &[u8]) -> Option<(u32, u32)>
    ensures { result ≡ constructor_named sig.now name.now }
{
    match sig.meaning(name)? {
        Meaning::Make(d, c) => Some((d, c)),
        Meaning::Get(_, _, _) => None,
    }
}

/// What follows `is-` in a name.
fn tested_name(name: &[u8]) -> Option<&[u8]>
    ensures { MatchOption result (tested_name name.now ≡ None) (λ rest. tested_name name.now ≡ Some rest.now) }
{
    if name.len() >= 3 && &name[..3] == b"is-".as_slice() {
        return Some(&name[3..]);
    }
    None
}

/// The head of a name: an operator, constructor, selector, predicate or definition, else a tester.
fn head_named(alloc: Global, declared: &Declared<'_>, name: &[u8]) -> Result<Option<Head>, NoMemory>
    ensures { IfOk result (λ head. head ≡ head_named (setting_of declared.now) name.now) }
{
    if let Some(op) = op_by_name(name) {
        return Ok(Some(Head::Operator(op)));
    }
    if let Some(meaning) = declared.sig.meaning(name) {
        return Ok(Some(match meaning {
            Meaning::Make(d, c) => Head::Make(d, c),
            Meaning::Get(d, c, i) => Head::Get(d, c, i),
        }));
    }
    if let Some(symbol) = declared.symbols.find(name) {
        return Ok(Some(Head::Declared(symbol.copy(alloc)?)));
    }
    Ok(tester_named(declared.sig, name))
}

/// The tester of a name `is-c`.
fn tester_named(sig: &Sig, name: &[u8]) -> Option<Head>
    ensures { result ≡ option_map tester (option_and_then (constructor_named sig.now) (tested_name name.now)) }
{
    let (d, c) = constructor_named(sig, tested_name(name)?)?;
    Some(Head::Is(d, c))
}

/// The head that is a symbol at the place.
fn symbol_head(
    alloc: Global,
    declared: &Declared<'_>,
    place: u64,
    name: &[u8],
) -> Result<Head, TextErr>
    ensures { Tells result (symbol_head (setting_of declared.now) place name.now) }
{
    match head_named(alloc, declared, name)? {
        Some(head) => Ok(head),
        None => named_fault(alloc, place, Fault::UnknownName, name),
    }
}

/// The numbers of the constructor that the symbol names.
fn constructor_at(alloc: Global, sig: &Sig, tree: &Tree, name: &[u8]) -> Result<(u32, u32), TextErr>
    ensures { Tells result (constructor_at sig.now tree.now name.now) }
{
    match constructor_named(sig, name) {
        Some(constructor) => Ok(constructor),
        None => named_fault(alloc, place_of(tree), Fault::UnknownName, name),
    }
}

/// The number of a numeral above 0.
fn positive_of(tree: &Tree) -> Option<i128>
    ensures { result ≡ positive_at (out-Tree tree.now) }
{
    match tree {
        Tree::Numeral(_, n) if *n > 0 => Some(*n),
        _ => None,
    }
}

/// The head of `(_ is c)`, where `t` is the tree behind `is`.
fn tester_head(
    alloc: Global,
    declared: &Declared<'_>,
    tree: &Tree,
    t: &Tree,
) -> Result<Head, TextErr>
    ensures { Tells result (tester_head (setting_of declared.now) tree.now t.now (symbol_told t.now)) }
{
    let Some(name) = symbol_of(t) else {
        return unsupported(alloc, tree);
    };
    let (d, c) = constructor_at(alloc, declared.sig, t, name)?;
    Ok(Head::Is(d, c))
}

/// The head of an indexed form, whose trees behind `_` are these.
fn indexed_head(
    alloc: Global,
    declared: &Declared<'_>,
    tree: &Tree,
    args: &[Tree],
) -> Result<Head, TextErr>
    ensures { Tells result (indexed_head (setting_of declared.now) tree.now args.now) }
{
    match args {
        [s, t] => {
            if is_symbol(s, b"is") {
                return tester_head(alloc, declared, tree, t);
            }
            if !is_symbol(s, b"divisible") {
                return unsupported(alloc, tree);
            }
            match positive_of(t) {
                Some(n) => Ok(Head::Divisible(n)),
                None => unsupported(alloc, tree),
            }
        }
        [] | [_] | [_, _, _, ..] => unsupported(alloc, tree),
    }
}

/// A constructor with the sort that a tree spells.
fn of_sort(
    alloc: Global,
    declared: &Declared<'_>,
    s: &Tree,
    constructor: (u32, u32),
) -> Result<Head, TextErr>
    ensures { Tells result (of_sort (setting_of declared.now) s.now constructor) }
{
    let sort = sort_of_tree(alloc, declared.sig, s)?;
    Ok(Head::OfSort(constructor.0, constructor.1, sort))
}

/// The head of `(as const s)` where it is no constant array: `const` has to be a constructor.
fn const_constructor(
    alloc: Global,
    declared: &Declared<'_>,
    tree: &Tree,
    s: &Tree,
) -> Result<Head, TextErr>
    ensures { Tells result (const_constructor (setting_of declared.now) tree.now s.now) }
{
    match constructor_named(declared.sig, b"const") {
        Some(constructor) => of_sort(alloc, declared, s, constructor),
        None => unsupported(alloc, tree),
    }
}

/// The head of `(as const s)`: a constant array where `s` is of the form `(Array ..)`.
fn const_in_head(
    alloc: Global,
    declared: &Declared<'_>,
    tree: &Tree,
    s: &Tree,
) -> Result<Head, TextErr>
    ensures { Tells result (const_in_head (setting_of declared.now) tree.now s.now) }
{
    match pair_of(s, b"Array") {
        Some(_) => Ok(Head::Constant(sort_of_tree(alloc, declared.sig, s)?)),
        None => const_constructor(alloc, declared, tree, s),
    }
}

/// Whether `(as const s)` may be a constant array there.
#[derive(Clone, Copy)]
enum Standing {
    /// At the head of a group.
    Head,
    /// As a term of its own.
    Alone,
}

/// The head of a form whose trees behind `as` are these.
fn qualified_head(
    alloc: Global,
    declared: &Declared<'_>,
    tree: &Tree,
    standing: Standing,
    args: &[Tree],
) -> Result<Head, TextErr>
    ensures { Tells result (qualified_as (setting_of declared.now) tree.now standing args.now) }
{
    match args {
        [c, s] => {
            let Some(name) = symbol_of(c) else {
                return unsupported(alloc, tree);
            };
            if name == b"const".as_slice() {
                return match standing {
                    Standing::Head => const_in_head(alloc, declared, tree, s),
                    Standing::Alone => const_constructor(alloc, declared, tree, s),
                };
            }
            let constructor = constructor_at(alloc, declared.sig, c, name)?;
            of_sort(alloc, declared, s, constructor)
        }
        [] | [_] | [_, _, _, ..] => unsupported(alloc, tree),
    }
}

/// The head that is a group of these trees, in the group at the place.
fn group_head(
    alloc: Global,
    declared: &Declared<'_>,
    place: u64,
    tree: &Tree,
    trees: &[Tree],
) -> Result<Head, TextErr>
    ensures { Tells result (group_head (setting_of declared.now) place tree.now trees.now) }
{
    let [first, args @ ..] = trees else {
        return fault(alloc, place, Fault::BadCommand);
    };
    let Some(word) = word_of(first) else {
        return fault(alloc, place, Fault::BadCommand);
    };
    if word == b"_".as_slice() {
        return indexed_head(alloc, declared, tree, args);
    }
    if word == b"as".as_slice() {
        return qualified_head(alloc, declared, tree, Standing::Head, args);
    }
    fault(alloc, place, Fault::BadCommand)
}

/// Whether the word is that one.
fn is_that(word: &[u8], other: &[u8]) -> bool
    ensures { result ≡ bytes_eq word.now other.now }
{
    word == other
}

/// The form of a group, which is the tree, headed by a reserved word.
fn word_form(
    alloc: Global,
    declared: &Declared<'_>,
    tree: &Tree,
    first: &Tree,
    word: &[u8],
    args: &[Tree],
) -> Result<Form, TextErr>
    ensures { (place : ℕ) → tree.now ≡ Group place (first.now ∷ args.now) → Tells result (word_form (setting_of declared.now) place first.now word.now args.now) }
{
    if is_that(word, b"let") {
        return Ok(Form::Let);
    }
    if is_that(word, b"forall") {
        return Ok(Form::Quantifier(Kind::Forall));
    }
    if is_that(word, b"exists") {
        return Ok(Form::Quantifier(Kind::Exists));
    }
    if is_that(word, b"!") {
        return Ok(Form::Annotated);
    }
    if is_that(word, b"as") {
        let head = qualified_head(alloc, declared, tree, Standing::Alone, args)?;
        return Ok(Form::Alone(head));
    }
    if is_that(word, b"_") {
        return unsupported(alloc, tree);
    }
    if is_that(word, b"match") {
        return unsupported(alloc, first);
    }
    fault(alloc, place_of(tree), Fault::BadCommand)
}

/// The form of a group, which is the tree, of these trees. Errors: the fault of its head, or of its form.
pub fn form_of(
    alloc: Global,
    declared: &Declared<'_>,
    tree: &Tree,
    trees: &[Tree],
) -> Result<Form, TextErr>
    ensures { (place : ℕ) → tree.now ≡ Group place trees.now → Tells result (form_of (setting_of declared.now) place trees.now) }
{
    let [first, args @ ..] = trees else {
        return fault(alloc, place_of(tree), Fault::BadCommand);
    };
    match first {
        Tree::Symbol(at, name) => {
            let head = symbol_head(alloc, declared, *at, name.bytes())?;
            Ok(Form::Applied(head))
        }
        Tree::Group(_, inner) => {
            let head = group_head(alloc, declared, place_of(tree), first, inner.as_slice())?;
            Ok(Form::Applied(head))
        }
        Tree::Word(_, word) => word_form(alloc, declared, tree, first, word.bytes(), args),
        Tree::Text(_, _) | Tree::Other(_, _) => unsupported(alloc, first),
        Tree::Keyword(_, _) | Tree::Numeral(_, _) => {
            fault(alloc, place_of(tree), Fault::BadCommand)
        }
    }
}
