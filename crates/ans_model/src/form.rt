//! The forms of an answer's trees.

ghost use Rattle.std.specs.Prelude.{◌≡◌, MatchOption, None, Some};
ghost use Rattle.chc_elab.specs.Binders.{are_pairs, pair_name};
ghost use Rattle.chc_elab.specs.Sites.{Tells};
ghost use Rattle.chc_sexpr.specs.Shapes.{group_of};
ghost use Rattle.ans_model.specs.Forms.{all_fit, definition_form, form_of_group, form_seen, misfit, not_sat, nothing_more, without_model};

use chc_elab::{fault, place_of};
use chc_sexpr::{Fault, TextErr, Tree, group_of, is_symbol, symbol_of};
use std::alloc::Global;

/// A definition by its trees.
#[derive(Drop)]
pub struct Form<'a> {
    pub name: &'a [u8],
    /// The pairs `(x S)` of the parameters.
    pub params: &'a [Tree],
    /// The sort of its values.
    pub values: &'a Tree,
    pub body: &'a Tree,
}

/// The name of a pair `(x ..)`, with its place.
pub fn pair_name(tree: &Tree) -> Option<(u64, &[u8])>
    ensures { MatchOption result (pair_name (group_of tree.now) ≡ None) (λ found. pair_name (group_of tree.now) ≡ Some (found.0, found.1.now)) }
{
    match group_of(tree)? {
        [Tree::Symbol(place, name), _] => Some((*place, name.bytes())),
        _ => None,
    }
}

/// Whether all trees are pairs `(x ..)`.
fn are_pairs(trees: &[Tree]) -> bool
    ensures { result ≡ are_pairs trees.now }
{
    for tree in trees {
        if pair_name(tree).is_none() {
            return false;
        }
    }
    true
}

/// The form of a definition of these trees.
fn form_of_trees(trees: &[Tree]) -> Option<Form<'_>>
    ensures { MatchOption result (form_of_group (Some trees.now) ≡ None) (λ form. form_of_group (Some trees.now) ≡ Some (form_seen form)) }
{
    match trees {
        [head, name, params, values, body] => {
            if !is_symbol(head, b"define-fun") {
                return None;
            }
            let name = symbol_of(name)?;
            let params = group_of(params)?;
            if !are_pairs(params) {
                return None;
            }
            Some(Form {
                name,
                params,
                values,
                body,
            })
        }
        [] | [_] | [_, _] | [_, _, _] | [_, _, _, _] | [_, _, _, _, _, _, ..] => None,
    }
}

/// The form of a definition, `(define-fun f ((x S) ..) R body)`.
pub fn definition_form(tree: &Tree) -> Option<Form<'_>>
    ensures { MatchOption result (definition_form tree.now ≡ None) (λ form. definition_form tree.now ≡ Some (form_seen form)) }
{
    form_of_trees(group_of(tree)?)
}

/// The fault of a tree of another form.
pub fn misfit<T>(alloc: Global, tree: &Tree) -> Result<T, TextErr>
    ensures { Tells result (misfit tree.now) }
{
    fault(alloc, place_of(tree), Fault::BadForm)
}

/// Nothing where all trees are of the form of a definition. Errors: `At` the first other one with `BadForm`; `NoMemory`.
pub fn check_forms(alloc: Global, trees: &[Tree]) -> Result<(), TextErr>
    ensures { Tells result (all_fit trees.now) }
{
    for tree in trees {
        if definition_form(tree).is_none() {
            return misfit(alloc, tree);
        }
    }
    Ok(())
}

/// Nothing where no tree is left. Errors: `At` the first one with `BadForm`; `NoMemory`.
pub fn check_end(alloc: Global, trees: &[Tree]) -> Result<(), TextErr>
    ensures { Tells result (nothing_more trees.now) }
{
    match trees {
        [] => Ok(()),
        [tree, ..] => misfit(alloc, tree),
    }
}

/// The trees without the symbol `model` in front, where it is there.
pub fn without_model(trees: &[Tree]) -> &[Tree]
    ensures { result.now ≡ without_model trees.now }
{
    match trees {
        [head, rest @ ..] if is_symbol(head, b"model") => rest,
        _ => trees,
    }
}

/// The fault of a first tree other than `sat`.
pub fn not_sat<T>(alloc: Global, tree: &Tree) -> Result<T, TextErr>
    ensures { Tells result (not_sat tree.now) }
{
    if is_symbol(tree, b"unsat") {
        return misfit(alloc, tree);
    }
    fault(alloc, place_of(tree), Fault::NotAnswer)
}
