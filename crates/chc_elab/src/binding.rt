//! The names and sorts that binders give.

ghost use Rattle.std.specs.Prelude.{◌≡◌, ◌+◌, ◌<◌, ◌^◌, [], MatchOption, None, Some, IfOk, IsTrue, length, map};
ghost use Rattle.chc_terms.specs.declared.term.Term.TheVariants.{Var};
ghost use Rattle.chc_elab.specs.Apart.{are_apart};
ghost use Rattle.chc_elab.specs.Binders.{apart_after, are_pairs, binder_names, binder_sorts, locals_of, pair_name, pair_names, second_tree, variables_from};
ghost use Rattle.chc_elab.specs.Settings.{bound_under, setting_of};
ghost use Rattle.chc_elab.specs.Sites.{Site, Tells};
ghost use Rattle.chc_sexpr.specs.Shapes.{group_of};

use crate::bound::Bound;
use crate::built::Built;
use crate::frame::Frame;
use crate::place::{fault, named_fault};
use crate::scope::Declared;
use crate::sort_tree::sort_of_tree;
use crate::typed::Typed;
use chc_sexpr::{Fault, TextErr, Tree, group_of};
use chc_sorts::{List, NameTable, NoMemory, Sort};
use chc_terms::Term;
use std::alloc::Global;

/// The name of a pair `(x ..)`, with its place.
fn pair_name(tree: &Tree) -> Option<(u64, &[u8])>
    ensures { MatchOption result (pair_name (group_of tree.now) ≡ None) (λ found. pair_name (group_of tree.now) ≡ Some (found.0, found.1.now)) }
{
    match group_of(tree)? {
        [Tree::Symbol(place, name), _] => Some((*place, name.bytes())),
        _ => None,
    }
}

/// Whether all trees are pairs `(x ..)`.
fn are_pairs(trees: &[Tree]) -> bool
    ensures { result ≡ are_pairs trees.now }
{
    for tree in trees {
        if pair_name(tree).is_none() {
            return false;
        }
    }
    true
}

/// The names of pairs, which differ. Errors: `At` the second of two equal ones with `NameTaken`; `NoMemory`.
fn names_apart(alloc: Global, pairs: &[Tree]) -> Result<NameTable, TextErr>
    ensures value { Tells result (apart_after [] (pair_names pairs.now)) }
    ensures apart { IfOk result (λ names. IsTrue (are_apart names)) }
{
    let mut names = NameTable::new(alloc);
    for pair in pairs {
        let Some((place, name)) = pair_name(pair) else {
            continue;
        };
        if names.has(name) {
            return named_fault(alloc, place, Fault::NameTaken, name);
        }
        names.add(alloc, name)?;
    }
    Ok(names)
}

/// The names that a list of pairs binds, in the group at the place. Errors: `At` the group with `BadCommand` where it
/// is no such list, or at the second of two equal names with `NameTaken`; `NoMemory`.
pub fn binder_names(alloc: Global, place: u64, pairs: &Tree) -> Result<NameTable, TextErr>
    ensures value { Tells result (binder_names place (group_of pairs.now)) }
    ensures apart { IfOk result (λ names. IsTrue (are_apart names)) }
{
    match group_of(pairs) {
        Some(trees) if are_pairs(trees) => names_apart(alloc, trees),
        _ => fault(alloc, place, Fault::BadCommand),
    }
}

/// The second tree of a pair.
pub fn second_tree(pair: &Tree) -> Option<&Tree>
    ensures { MatchOption result (second_tree (group_of pair.now) ≡ None) (λ t. second_tree (group_of pair.now) ≡ Some t.now) }
{
    match group_of(pair)? {
        [_, second, ..] => Some(second),
        [] | [_] => None,
    }
}

/// The sorts of pairs `(x S)`. Errors: `At` the first fault of a sort; `NoMemory`.
pub fn binder_sorts(
    alloc: Global,
    declared: &Declared<'_>,
    pairs: &Tree,
) -> Result<List<Sort>, TextErr>
    ensures { Tells result (binder_sorts (setting_of declared.now) (group_of pairs.now)) }
{
    let mut sorts = List::new(alloc);
    let Some(trees) = group_of(pairs) else {
        return Ok(sorts);
    };
    for pair in trees {
        if let Some(tree) = second_tree(pair) {
            sorts.push(sort_of_tree(alloc, declared.sig, tree)?)?;
        }
    }
    Ok(sorts)
}

/// The terms, each under so many variables.
fn bounds_of(alloc: Global, values: List<Typed>, variables: u32) -> Result<List<Bound>, NoMemory>
    ensures { IfOk result (λ bounds. bounds ≡ map (bound_under variables) values) }
{
    let mut bounds = List::new(alloc);
    for value in values.into_vec() {
        bounds.push(Bound {
            value,
            under: variables,
        })?;
    }
    Ok(bounds)
}

/// The names, each for its term, under so many variables.
pub fn terms_bound(
    alloc: Global,
    names: NameTable,
    values: List<Typed>,
    variables: u32,
) -> Result<Frame, NoMemory>
    requires { IsTrue (are_apart names) }
    ensures { IfOk result (λ frame. (site : Site) → site.variables ≡ variables → frame ≡ locals_of site names values) }
{
    let bounds = bounds_of(alloc, values, variables)?;
    Ok(Frame::of(names, bounds))
}

/// Variables of these names and sorts, which are numbered from `variables` on.
pub fn variables_bound(
    alloc: Global,
    names: NameTable,
    sorts: &[Sort],
    variables: u32,
) -> Result<Frame, NoMemory>
    requires apart { IsTrue (are_apart names) }
    requires room { variables + length sorts.now < 2 ^ 32 }
    ensures { IfOk result (λ frame. frame ≡ variables_from variables names sorts.now) }
{
    let mut bounds = List::new(alloc);
    let mut number = variables;
    for sort in sorts {
        bounds.push(variable(alloc, number, sort)?)?;
        number += 1;
    }
    Ok(Frame::of(names, bounds))
}

/// What the name of a variable stands for.
pub fn variable(alloc: Global, number: u32, sort: &Sort) -> Result<Bound, NoMemory>
    requires { number + 1 < 2 ^ 32 }
    ensures { IfOk result (λ b. b ≡ record { value = record { term = Var number; sort = sort.now }; under = number + 1 }) }
{
    let sort = sort.copy(alloc)?;
    Ok(Bound {
        value: Typed {
            term: Built::of(Term::Var(number), 1, 1),
            sort,
        },
        under: number + 1,
    })
}
