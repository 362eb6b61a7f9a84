//! Sorts from trees.

ghost use Rattle.std.specs.Prelude.{◌≡◌, IfOk};
ghost use Rattle.chc_sexpr.specs.declared.tree.Tree.{out-Tree};
ghost use Rattle.chc_elab.specs.Sites.{Tells};
ghost use Rattle.chc_elab.specs.SortTrees.{Refuses, array_spec, beside_specs, place_at, sort_of_tree, spec_of};

use crate::place::{fault, named_fault, place_of};
use chc_sexpr::{Fault, TextErr, Tree, is_symbol};
use chc_sorts::{Boxed, List, Name, NoMemory, Sig, SigErr, Sort, SortSpec};
use std::alloc::Global;

/// An equal name on fresh memory.
fn name_of(alloc: Global, bytes: &[u8]) -> Result<Name, NoMemory>
    ensures { IfOk result (λ name. name ≡ bytes.now) }
{
    let mut name = List::new(alloc);
    for byte in bytes {
        name.push(*byte)?;
    }
    Ok(name)
}

/// The written sort that a tree spells: a symbol, or `(Array S T)` over the sorts of its indices and its elements.
/// The recursion is as deep as the tree. Errors: `At` with `BadCommand` at the first tree, in reading order, that is
/// neither; `NoMemory`.
#[cycle(spec)]
#[tactic(auto, using(crate::proofs::SpecLaws::spec_equations))]
pub fn sort_spec(alloc: Global, tree: &Tree) -> Result<SortSpec, TextErr>
    ensures { Tells result (spec_of tree.now) }
{
    match tree {
        Tree::Symbol(_, name) => Ok(SortSpec::Named(name_of(alloc, name.bytes())?)),
        Tree::Group(place, trees) => array_spec(alloc, *place, trees.as_slice()),
        Tree::Word(place, _)
        | Tree::Keyword(place, _)
        | Tree::Numeral(place, _)
        | Tree::Text(place, _)
        | Tree::Other(place, _) => fault(alloc, *place, Fault::BadCommand),
    }
}

/// The written array sort of a group at the place.
#[cycle(spec)]
#[tactic(auto, using(crate::proofs::SpecLaws::spec_equations))]
fn array_spec(alloc: Global, place: u64, trees: &[Tree]) -> Result<SortSpec, TextErr>
    ensures { Tells result (array_spec place (beside_specs trees.now)) }
{
    match trees {
        [head, index, element] => {
            if !is_symbol(head, b"Array") {
                return fault(alloc, place, Fault::BadCommand);
            }
            let index = sort_spec(alloc, index)?;
            let element = sort_spec(alloc, element)?;
            let index = Boxed::new(alloc, index)?;
            Ok(SortSpec::Array(index, Boxed::new(alloc, element)?))
        }
        [] | [_] | [_, _] | [_, _, _, _, ..] => fault(alloc, place, Fault::BadCommand),
    }
}

/// The fault, at the place, of a sort that is refused.
fn refused(alloc: Global, place: u64, why: SigErr) -> Result<Sort, TextErr>
    ensures { Refuses result place why }
{
    match why {
        SigErr::UnknownSort(name) => named_fault(alloc, place, Fault::UnknownSort, name.as_slice()),
        SigErr::ArrayIndex => fault(alloc, place, Fault::ArrayIndex),
        SigErr::SortTooDeep => fault(alloc, place, Fault::SortTooDeep),
        SigErr::NoMemory => Err(TextErr::NoMemory),
        SigErr::NameTaken(_) | SigErr::TooMany(_) | SigErr::NotWellFounded(_) => {
            fault(alloc, place, Fault::BadCommand)
        }
    }
}

/// The sort that a tree spells. Errors, at the tree or in it: those of `sort_spec`, and behind them `UnknownSort`,
/// `ArrayIndex` and `SortTooDeep`; `NoMemory`.
pub fn sort_of_tree(alloc: Global, sig: &Sig, tree: &Tree) -> Result<Sort, TextErr>
    ensures { Tells result (sort_of_tree sig.now (place_at (out-Tree tree.now)) tree.now) }
{
    let spec = sort_spec(alloc, tree)?;
    match sig.sort(alloc, &spec) {
        Ok(sort) => Ok(sort),
        Err(why) => refused(alloc, place_of(tree), why),
    }
}
