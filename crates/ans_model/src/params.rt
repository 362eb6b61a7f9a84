//! The parameters of definitions.

ghost use Rattle.std.specs.Prelude.{◌≡◌, [], None, Some, length, IfOk, IsTrue, MatchOption};
ghost use Rattle.chc_elab.specs.Binders.{apart_after, are_pairs, pair_names, second_tree, second_trees, sorts_of_trees};
ghost use Rattle.chc_elab.specs.Sites.{Tells};
ghost use Rattle.chc_sexpr.specs.Shapes.{group_of};
ghost use Rattle.ans_model.specs.Defining.{setting_of};

use crate::form::pair_name;
use crate::names::name_of;
use chc_elab::{Symbols, named_fault, sort_of_tree};
use chc_sexpr::{Fault, TextErr, Tree, group_of};
use chc_sorts::{List, Name, NameTable, Sig, Sort};
use std::alloc::Global;

/// What is declared where a definition is read: the datatypes, and the definitions before it by name.
#[derive(Drop)]
pub struct Declared<'a> {
    pub sig: &'a Sig,
    pub symbols: &'a Symbols,
}

/// The names of pairs `(x S)`, which differ. Errors: `At` the second of two equal ones with `NameTaken`; `NoMemory`.
pub fn read_names(alloc: Global, pairs: &[Tree]) -> Result<List<Name>, TextErr>
    requires { IsTrue (are_pairs pairs.now) }
    ensures value { Tells result (apart_after [] (pair_names pairs.now)) }
    ensures count { IfOk result (λ names. length names ≡ length pairs.now) }
{
    let mut table = NameTable::new(alloc);
    let mut names = List::new(alloc);
    for pair in pairs {
        let Some((place, name)) = pair_name(pair) else {
            continue;
        };
        if table.has(name) {
            return named_fault(alloc, place, Fault::NameTaken, name);
        }
        table.add(alloc, name)?;
        names.push(name_of(alloc, name)?)?;
    }
    Ok(names)
}

/// The second tree of a pair.
fn second_tree(pair: &Tree) -> Option<&Tree>
    ensures { MatchOption result (second_tree (group_of pair.now) ≡ None) (λ t. second_tree (group_of pair.now) ≡ Some t.now) }
{
    match group_of(pair)? {
        [_, second, ..] => Some(second),
        [] | [_] => None,
    }
}

/// The sorts of pairs `(x S)`. Errors: `At` the first fault of a sort; `NoMemory`.
pub fn read_sorts(
    alloc: Global,
    declared: &Declared<'_>,
    pairs: &[Tree],
) -> Result<List<Sort>, TextErr>
    requires { IsTrue (are_pairs pairs.now) }
    ensures value { Tells result (sorts_of_trees (setting_of declared.now) (second_trees pairs.now)) }
    ensures count { IfOk result (λ sorts. length sorts ≡ length pairs.now) }
{
    let mut sorts = List::new(alloc);
    for pair in pairs {
        if let Some(tree) = second_tree(pair) {
            sorts.push(sort_of_tree(alloc, declared.sig, tree)?)?;
        }
    }
    Ok(sorts)
}
