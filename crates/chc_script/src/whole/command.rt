//! Commands from trees.

ghost use Rattle.std.specs.Prelude.{◌≡◌, true, [], length, IfOk, IsTrue};
ghost use Rattle.std.specs.List.{list_all};
ghost use Rattle.chc_sorts.specs.Sorts.{sort_fits};
ghost use Rattle.chc_sexpr.specs.declared.tree.Tree.{out-Tree};
ghost use Rattle.chc_sexpr.specs.Shapes.{group_of, symbol_of};
ghost use Rattle.chc_elab.specs.Sites.{Tells};
ghost use Rattle.chc_state.specs.Names.{AreNamesOf, is_writable_name};
ghost use Rattle.chc_script.specs.Assertions.{KeepsAssertions};
ghost use Rattle.chc_script.specs.Commands.{check_sat, const_parts, datatype_parts, datatypes_parts, declare_const, declare_datatype, declare_datatypes, declare_fun, declared, fun_parts, group_declared, logic_set, set_logic, single_declared, sorts_after, truth_values, unknown};
ghost use Rattle.chc_script.specs.Drafted.{SaysScript};
ghost use Rattle.chc_script.specs.Spellable.{are_spellable, is_spellable};

use crate::script::Script;
use crate::whole::datatypes::{are_shaped, is_body, read_group, read_single};
use crate::whole::draft::Draft;
use chc_elab::{fault, named_fault, sort_of_tree};
use chc_sexpr::{Fault, TextErr, Tree, group_of, is_symbol, symbol_of};
use chc_sorts::{List, Sig, Sort};
use std::alloc::Global;

/// Sets the logic that a tree names.
fn set_named_logic(alloc: Global, draft: Draft, place: u64, logic: &Tree) -> Result<Draft, TextErr>
    ensures { Tells result (logic_set draft place (symbol_of logic.now)) }
{
    let Some(name) = symbol_of(logic) else {
        return fault(alloc, place, Fault::BadCommand);
    };
    if name == b"HORN".as_slice() {
        return draft.set_horn(alloc, place);
    }
    named_fault(alloc, place, Fault::OtherLogic, name)
}

/// `(set-logic HORN)`
pub fn set_logic(alloc: Global, draft: Draft, place: u64, args: &[Tree]) -> Result<Draft, TextErr>
    ensures { Tells result (set_logic draft place args.now) }
{
    match args {
        [logic] => set_named_logic(alloc, draft, place, logic),
        [] | [_, _, ..] => fault(alloc, place, Fault::BadCommand),
    }
}

/// Nothing where the values of a function are of sort Bool. Errors: `At` the place with `NotPredicate`; `NoMemory`.
fn check_values(alloc: Global, place: u64, name: &[u8], values: &Tree) -> Result<(), TextErr>
    ensures { Tells result (truth_values place name.now values.now) }
{
    if is_symbol(values, b"Bool") {
        return Ok(());
    }
    named_fault(alloc, place, Fault::NotPredicate, name)
}

/// The sorts that trees spell. Errors are those of `sort_of_tree`.
fn read_sorts(alloc: Global, sig: &Sig, trees: &[Tree]) -> Result<List<Sort>, TextErr>
    ensures value { Tells result (sorts_after sig.now [] trees.now) }
    ensures fitting { IfOk result (λ sorts. list_all (sort_fits sig.now) sorts ≡ true) }
{
    let mut sorts = List::new(alloc);
    for tree in trees {
        sorts.push(sort_of_tree(alloc, sig, tree)?)?;
    }
    Ok(sorts)
}

/// Declares a predicate of that name, whose positions and values are of the sorts of these trees.
fn declare(
    alloc: Global,
    draft: Draft,
    place: u64,
    name: &[u8],
    positions: &[Tree],
    values: &Tree,
) -> Result<Draft, TextErr>
    requires { IsTrue (is_writable_name name.now) }
    ensures { Tells result (declared draft place name.now positions.now values.now) }
{
    draft.check_logic(alloc, place)?;
    draft.check_free(alloc, place, name)?;
    check_values(alloc, place, name, values)?;
    let sorts = read_sorts(alloc, draft.sig(), positions)?;
    draft.add_predicate(alloc, place, name, sorts)
}

/// Declares a predicate by the trees of its name, its positions and its values.
fn declare_parts(
    alloc: Global,
    draft: Draft,
    place: u64,
    name: &Tree,
    positions: &Tree,
    values: &Tree,
) -> Result<Draft, TextErr>
    requires { IsTrue (is_spellable name.now) }
    ensures { Tells result (fun_parts draft place values.now (symbol_of name.now) (group_of positions.now)) }
{
    let Some(name) = symbol_of(name) else {
        return fault(alloc, place, Fault::BadCommand);
    };
    let Some(positions) = group_of(positions) else {
        return fault(alloc, place, Fault::BadCommand);
    };
    declare(alloc, draft, place, name, positions, values)
}

/// `(declare-fun p (S ..) R)`
pub fn declare_fun(alloc: Global, draft: Draft, place: u64, args: &[Tree]) -> Result<Draft, TextErr>
    requires { IsTrue (are_spellable args.now) }
    ensures { Tells result (declare_fun draft place args.now) }
{
    match args {
        [name, positions, values] => declare_parts(alloc, draft, place, name, positions, values),
        [] | [_] | [_, _] | [_, _, _, _, ..] => fault(alloc, place, Fault::BadCommand),
    }
}

/// Declares a predicate without positions by the trees of its name and its values.
fn declare_constant(
    alloc: Global,
    draft: Draft,
    place: u64,
    name: &Tree,
    values: &Tree,
) -> Result<Draft, TextErr>
    requires { IsTrue (is_spellable name.now) }
    ensures { Tells result (const_parts draft place values.now (symbol_of name.now)) }
{
    match symbol_of(name) {
        Some(name) => declare(alloc, draft, place, name, &[], values),
        None => fault(alloc, place, Fault::BadCommand),
    }
}

/// `(declare-const p R)`
pub fn declare_const(
    alloc: Global,
    draft: Draft,
    place: u64,
    args: &[Tree],
) -> Result<Draft, TextErr>
    requires { IsTrue (are_spellable args.now) }
    ensures { Tells result (declare_const draft place args.now) }
{
    match args {
        [name, values] => declare_constant(alloc, draft, place, name, values),
        [] | [_] | [_, _, _, ..] => fault(alloc, place, Fault::BadCommand),
    }
}

/// Declares the group of these heads and bodies, of which there are equally many.
fn declare_group(
    alloc: Global,
    draft: Draft,
    place: u64,
    heads: &[Tree],
    bodies: &[Tree],
) -> Result<Draft, TextErr>
    requires even { length heads.now ≡ length bodies.now }
    requires heads { IsTrue (are_spellable heads.now) }
    requires bodies { IsTrue (are_spellable bodies.now) }
    ensures { Tells result (group_declared draft place heads.now bodies.now) }
{
    draft.check_logic(alloc, place)?;
    let group = read_group(alloc, place, heads, bodies)?;
    draft.add_group(alloc, place, group.as_slice())
}

/// Declares the group of these trees of heads and bodies.
fn declare_datatypes_parts(
    alloc: Global,
    draft: Draft,
    place: u64,
    heads: &Tree,
    bodies: &Tree,
) -> Result<Draft, TextErr>
    requires heads { IsTrue (is_spellable heads.now) }
    requires bodies { IsTrue (is_spellable bodies.now) }
    ensures { Tells result (datatypes_parts draft place (group_of heads.now) (group_of bodies.now)) }
{
    let Some(heads) = group_of(heads) else {
        return fault(alloc, place, Fault::BadCommand);
    };
    let Some(bodies) = group_of(bodies) else {
        return fault(alloc, place, Fault::BadCommand);
    };
    if are_shaped(heads, bodies) {
        return declare_group(alloc, draft, place, heads, bodies);
    }
    fault(alloc, place, Fault::BadCommand)
}

/// `(declare-datatypes ((T 0) ..) (((c (s S) ..) ..) ..))`
pub fn declare_datatypes(
    alloc: Global,
    draft: Draft,
    place: u64,
    args: &[Tree],
) -> Result<Draft, TextErr>
    requires { IsTrue (are_spellable args.now) }
    ensures { Tells result (declare_datatypes draft place args.now) }
{
    match args {
        [heads, bodies] => declare_datatypes_parts(alloc, draft, place, heads, bodies),
        [] | [_] | [_, _, _, ..] => fault(alloc, place, Fault::BadCommand),
    }
}

/// Declares one datatype of that name and body.
fn declare_single(
    alloc: Global,
    draft: Draft,
    place: u64,
    name: &[u8],
    body: &Tree,
) -> Result<Draft, TextErr>
    requires name { IsTrue (is_writable_name name.now) }
    requires body { IsTrue (is_spellable body.now) }
    ensures { Tells result (single_declared draft place name.now body.now) }
{
    draft.check_logic(alloc, place)?;
    let group = read_single(alloc, place, name, body)?;
    draft.add_group(alloc, place, group.as_slice())
}

/// Declares one datatype by the trees of its name and its body.
fn declare_datatype_parts(
    alloc: Global,
    draft: Draft,
    place: u64,
    name: &Tree,
    body: &Tree,
) -> Result<Draft, TextErr>
    requires name { IsTrue (is_spellable name.now) }
    requires body { IsTrue (is_spellable body.now) }
    ensures { Tells result (datatype_parts draft place body.now (symbol_of name.now)) }
{
    let Some(name) = symbol_of(name) else {
        return fault(alloc, place, Fault::BadCommand);
    };
    if is_body(body) {
        return declare_single(alloc, draft, place, name, body);
    }
    fault(alloc, place, Fault::BadCommand)
}

/// `(declare-datatype T ((c (s S) ..) ..))`
pub fn declare_datatype(
    alloc: Global,
    draft: Draft,
    place: u64,
    args: &[Tree],
) -> Result<Draft, TextErr>
    requires { IsTrue (are_spellable args.now) }
    ensures { Tells result (declare_datatype draft place args.now) }
{
    match args {
        [name, body] => declare_datatype_parts(alloc, draft, place, name, body),
        [] | [_] | [_, _, _, ..] => fault(alloc, place, Fault::BadCommand),
    }
}

/// `(check-sat)`
pub fn check_sat(alloc: Global, draft: Draft, place: u64, args: &[Tree]) -> Result<Script, TextErr>
    ensures value { Tells result (check_sat draft place args.now) }
    ensures says { IfOk result SaysScript }
    ensures names { IfOk result (λ X. AreNamesOf X.state X.names) }
    ensures keeps { IfOk result KeepsAssertions }
{
    match args {
        [] => draft.close(alloc, place),
        [_, ..] => fault(alloc, place, Fault::BadCommand),
    }
}

/// A command of another name.
pub fn unknown(alloc: Global, draft: Draft, place: u64, name: &[u8]) -> Result<Draft, TextErr>
    ensures { Tells result (unknown draft place name.now) }
{
    draft.check_logic(alloc, place)?;
    named_fault(alloc, place, Fault::UnknownCommand, name)
}
