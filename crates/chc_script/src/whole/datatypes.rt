//! Groups of datatypes as trees declare them.

ghost use Rattle.std.specs.Prelude.{◌≡◌, ◌++◌, ◌∷◌, [], None, Some, MatchOption, length};
ghost use Rattle.std.specs.List.{list_all, list_any};
ghost use Rattle.chc_sexpr.specs.Shapes.{form_of, group_of};
ghost use Rattle.chc_elab.specs.Sites.{Tells};
ghost use Rattle.chc_script.specs.Datatypes.{are_shaped, arities_read, arity_read, begins_with_par, bodies_read, body_read, ctor_at, ctors_after, data_at, datas_after, field_at, fields_after, group_read, head_name, head_read, is_body, is_ctor, is_field, is_head, is_parametric, numeral_of, pair_of, single_read, unread};

use crate::whole::names::name_of;
use chc_elab::{fault, named_fault, sort_spec};
use chc_sexpr::{
    Fault, TextErr, TextFault, Tree, form_of, group_of, is_word, symbol_of, write_tree,
};
use chc_sorts::{CtorSpec, DataSpec, FieldSpec, List};
use chc_source::ByteText;
use std::alloc::Global;

/// The number of a numeral.
fn numeral_of(tree: &Tree) -> Option<i128>
    ensures { result ≡ numeral_of tree.now }
{
    match tree {
        Tree::Numeral(_, number) => Some(*number),
        _ => None,
    }
}

/// The name and the other tree of a pair `(x t)`.
fn pair_of(tree: &Tree) -> Option<(&[u8], &Tree)>
    ensures { MatchOption result (pair_of tree.now ≡ None) (λ pair. pair_of tree.now ≡ Some (pair.0.now, pair.1.now)) }
{
    match group_of(tree)? {
        [name, other] => Some((symbol_of(name)?, other)),
        [] | [_] | [_, _, _, ..] => None,
    }
}

/// Whether the tree is `(T n)`.
fn is_head(tree: &Tree) -> bool
    ensures { result ≡ is_head tree.now }
{
    match pair_of(tree) {
        Some((_, arity)) => numeral_of(arity).is_some(),
        None => false,
    }
}

/// Whether the tree is `(s S)`.
fn is_field(tree: &Tree) -> bool
    ensures { result ≡ is_field tree.now }
{
    pair_of(tree).is_some()
}

/// Whether all trees are `(s S)`.
fn are_fields(trees: &[Tree]) -> bool
    ensures { result ≡ list_all is_field trees.now }
{
    trees.iter().all(|tree| is_field(tree))
}

/// Whether the tree is `(c (s S) ..)`.
fn is_ctor(tree: &Tree) -> bool
    ensures { result ≡ is_ctor tree.now }
{
    match form_of(tree) {
        Some((_, fields)) => are_fields(fields),
        None => false,
    }
}

/// Whether all trees are `(c (s S) ..)`.
fn are_ctors(trees: &[Tree]) -> bool
    ensures { result ≡ list_all is_ctor trees.now }
{
    trees.iter().all(|tree| is_ctor(tree))
}

/// Whether the trees begin with the word `par`.
fn begins_with_par(trees: &[Tree]) -> bool
    ensures { result ≡ begins_with_par trees.now }
{
    match trees {
        [] => false,
        [first, ..] => is_word(first, b"par"),
    }
}

/// Whether the tree is `((c (s S) ..) ..)` or `(par ..)`.
pub fn is_body(tree: &Tree) -> bool
    ensures { result ≡ is_body tree.now }
{
    match group_of(tree) {
        Some(trees) => begins_with_par(trees) || are_ctors(trees),
        None => false,
    }
}

/// Whether the tree is `(par ..)`.
fn is_parametric(tree: &Tree) -> bool
    ensures { result ≡ is_parametric tree.now }
{
    match group_of(tree) {
        Some(trees) => begins_with_par(trees),
        None => false,
    }
}

/// Whether one of the trees is `(par ..)`.
fn has_parametric(trees: &[Tree]) -> bool
    ensures { result ≡ list_any is_parametric trees.now }
{
    trees.iter().any(|tree| is_parametric(tree))
}

/// Whether all trees are `(T n)`.
fn are_heads(trees: &[Tree]) -> bool
    ensures { result ≡ list_all is_head trees.now }
{
    trees.iter().all(|tree| is_head(tree))
}

/// Whether all trees are `((c (s S) ..) ..)` or `(par ..)`.
fn are_bodies(trees: &[Tree]) -> bool
    ensures { result ≡ list_all is_body trees.now }
{
    trees.iter().all(|tree| is_body(tree))
}

/// Whether the heads are `(T n)`, and the bodies as many.
pub fn are_shaped(heads: &[Tree], bodies: &[Tree]) -> bool
    ensures { result ≡ are_shaped heads.now bodies.now }
{
    are_heads(heads) && are_bodies(bodies) && heads.len() == bodies.len()
}

/// The fault of a form that isn't read, at the place, about the text of the tree.
fn unread<T>(alloc: Global, place: u64, tree: &Tree) -> Result<T, TextErr>
    ensures { Tells result (unread place tree.now) }
{
    let mut text = ByteText::new(alloc);
    write_tree(tree, &mut text)?;
    Err(TextErr::At(TextFault {
        place,
        fault: Fault::NotSupported,
        name: text,
    }))
}

/// Nothing where the tree of an arity is the numeral 0. Errors: `At` the place with `NotSupported` and another numeral;
/// `NoMemory`.
fn check_arity(alloc: Global, place: u64, arity: &Tree) -> Result<(), TextErr>
    ensures { Tells result (arity_read place arity.now (numeral_of arity.now)) }
{
    match numeral_of(arity) {
        Some(number) => if number == 0 {
            Ok(())
        } else {
            unread(alloc, place, arity)
        },
        None => Ok(()),
    }
}

/// Nothing where the arity of a head `(T n)` is 0. Errors are those of `check_arity`.
fn check_head(alloc: Global, place: u64, head: &Tree) -> Result<(), TextErr>
    ensures { Tells result (head_read place (pair_of head.now)) }
{
    match pair_of(head) {
        Some((_, arity)) => check_arity(alloc, place, arity),
        None => Ok(()),
    }
}

/// Nothing where all arities are 0. Errors are those of `check_arity`.
fn check_arities(alloc: Global, place: u64, heads: &[Tree]) -> Result<(), TextErr>
    ensures { Tells result (arities_read place heads.now) }
{
    for head in heads {
        check_head(alloc, place, head)?;
    }
    Ok(())
}

/// Nothing where no body has parameters. Errors: `At` the place with `NotSupported` and `par`; `NoMemory`.
fn check_bodies(alloc: Global, place: u64, bodies: &[Tree]) -> Result<(), TextErr>
    ensures { Tells result (bodies_read place bodies.now) }
{
    if has_parametric(bodies) {
        return named_fault(alloc, place, Fault::NotSupported, b"par");
    }
    Ok(())
}

/// The same of one body.
fn check_body(alloc: Global, place: u64, body: &Tree) -> Result<(), TextErr>
    ensures { Tells result (body_read place body.now) }
{
    if is_parametric(body) {
        return named_fault(alloc, place, Fault::NotSupported, b"par");
    }
    Ok(())
}

/// The field `(s S)`.
fn read_field(alloc: Global, place: u64, tree: &Tree) -> Result<FieldSpec, TextErr>
    ensures { Tells result (field_at place (pair_of tree.now)) }
{
    let Some((name, sort)) = pair_of(tree) else {
        return fault(alloc, place, Fault::BadCommand);
    };
    let sort = sort_spec(alloc, sort)?;
    let name = name_of(alloc, name)?;
    Ok(FieldSpec { name, sort })
}

/// The fields of trees.
fn read_fields(alloc: Global, place: u64, trees: &[Tree]) -> Result<List<FieldSpec>, TextErr>
    ensures { Tells result (fields_after place [] trees.now) }
{
    let mut fields = List::new(alloc);
    for tree in trees {
        fields.push(read_field(alloc, place, tree)?)?;
    }
    Ok(fields)
}

/// The constructor `(c (s S) ..)`.
fn read_ctor(alloc: Global, place: u64, tree: &Tree) -> Result<CtorSpec, TextErr>
    ensures { Tells result (ctor_at place (form_of tree.now)) }
{
    let Some((name, fields)) = form_of(tree) else {
        return fault(alloc, place, Fault::BadCommand);
    };
    let fields = read_fields(alloc, place, fields)?;
    let name = name_of(alloc, name)?;
    Ok(CtorSpec { name, fields })
}

/// The constructors of trees.
fn read_ctors(alloc: Global, place: u64, trees: &[Tree]) -> Result<List<CtorSpec>, TextErr>
    ensures { Tells result (ctors_after place [] trees.now) }
{
    let mut ctors = List::new(alloc);
    for tree in trees {
        ctors.push(read_ctor(alloc, place, tree)?)?;
    }
    Ok(ctors)
}

/// The datatype of a name and a body `((c (s S) ..) ..)`.
fn read_data(alloc: Global, place: u64, name: &[u8], body: &Tree) -> Result<DataSpec, TextErr>
    ensures { Tells result (data_at place (Some name.now) (group_of body.now)) }
{
    let Some(trees) = group_of(body) else {
        return fault(alloc, place, Fault::BadCommand);
    };
    let ctors = read_ctors(alloc, place, trees)?;
    let name = name_of(alloc, name)?;
    Ok(DataSpec { name, ctors })
}

/// The datatype of a head `(T n)` and a body.
fn read_headed(alloc: Global, place: u64, head: &Tree, body: &Tree) -> Result<DataSpec, TextErr>
    ensures { Tells result (data_at place (head_name head.now) (group_of body.now)) }
{
    match pair_of(head) {
        Some((name, _)) => read_data(alloc, place, name, body),
        None => fault(alloc, place, Fault::BadCommand),
    }
}

/// The datatypes of heads and bodies, of which there are equally many.
fn read_datas(
    alloc: Global,
    place: u64,
    heads: &[Tree],
    bodies: &[Tree],
) -> Result<List<DataSpec>, TextErr>
    requires { length heads.now ≡ length bodies.now }
    ensures { Tells result (datas_after place [] heads.now bodies.now) }
{
    let mut datas = List::new(alloc);
    for i in 0..heads.len() {
        datas.push(read_headed(alloc, place, &heads[i], &bodies[i])?)?;
    }
    Ok(datas)
}

/// The group of these heads and bodies. Errors: `At` the place with `NotSupported` and the first arity other than 0, and
/// then with `par` where a body has parameters; the faults of sorts, at them; `NoMemory`.
pub fn read_group(
    alloc: Global,
    place: u64,
    heads: &[Tree],
    bodies: &[Tree],
) -> Result<List<DataSpec>, TextErr>
    requires { length heads.now ≡ length bodies.now }
    ensures { Tells result (group_read place heads.now bodies.now) }
{
    check_arities(alloc, place, heads)?;
    check_bodies(alloc, place, bodies)?;
    read_datas(alloc, place, heads, bodies)
}

/// The group of one datatype. Errors are those of `read_group`.
pub fn read_single(
    alloc: Global,
    place: u64,
    name: &[u8],
    body: &Tree,
) -> Result<List<DataSpec>, TextErr>
    ensures { Tells result (single_read place name.now body.now) }
{
    check_body(alloc, place, body)?;
    let data = read_data(alloc, place, name, body)?;
    let mut group = List::new(alloc);
    group.push(data)?;
    Ok(group)
}
