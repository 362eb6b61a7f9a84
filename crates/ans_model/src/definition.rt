//! Definitions from their trees.

ghost use Rattle.std.specs.Prelude.{◌≡◌, ◌+◌, ◌<◌, ◌^◌, IfOk, IsTrue, OnOk, None};
ghost use Rattle.chc_sexpr.specs.Counts.{count, count_all};
ghost use Rattle.chc_sorts.specs.Names.{look_up};
ghost use Rattle.chc_elab.specs.Binders.{are_pairs};
ghost use Rattle.chc_elab.specs.Sites.{Tells};
ghost use Rattle.ans_model.specs.Defining.{closed, definition, is_taken, new_name, setting_of};
ghost use Rattle.ans_model.specs.Forms.{form_seen};

use crate::form::Form;
use crate::params::{Declared, read_names, read_sorts};
use chc_elab::{Scope, SortedTerm, elab_sorted, fault, named_fault, sort_of_tree};
use chc_sexpr::{Fault, TextErr};
use chc_sorts::{List, Sig, Sort, op_by_name, same_sort};
use chc_state::Def;
use std::alloc::Global;

/// Whether no definition may have the name: it is `true`, `false`, an operator's, a constructor's or a selector's.
fn is_taken(sig: &Sig, name: &[u8]) -> bool
    ensures { result ≡ is_taken sig.now name.now }
{
    name == b"true".as_slice()
        || name == b"false".as_slice()
        || op_by_name(name).is_some()
        || sig.meaning(name).is_some()
}

/// Nothing where a definition may have the name. Errors: `At` the place with `NameTaken` or, where an earlier definition
/// has it, `Twice`; `NoMemory`.
pub fn check_name(
    alloc: Global,
    declared: &Declared<'_>,
    place: u64,
    name: &[u8],
) -> Result<(), TextErr>
    ensures value { Tells result (new_name (setting_of declared.now) place name.now) }
    ensures new { OnOk result (look_up declared.now.symbols.now name.now ≡ None) }
{
    if is_taken(declared.sig, name) {
        return named_fault(alloc, place, Fault::NameTaken, name);
    }
    match declared.symbols.find(name) {
        Some(_) => named_fault(alloc, place, Fault::Twice, name),
        None => Ok(()),
    }
}

/// The definition over these parameters of a body. Errors: `At` the place with `WrongSort` where the body isn't of the
/// sort of its values; `NoMemory`.
fn close(
    alloc: Global,
    place: u64,
    params: List<Sort>,
    values: Sort,
    body: SortedTerm,
) -> Result<Def, TextErr>
    ensures { Tells result (closed place params values body) }
{
    if !same_sort(&body.sort, &values) {
        return fault(alloc, place, Fault::WrongSort);
    }
    Ok(Def {
        params,
        result: values,
        body: body.term,
    })
}

/// The definition of a form at the place. Errors, in this order: `At` the second of two equal names of parameters with
/// `NameTaken`; the first fault of their sorts, of the sort of its values, and of its body; `At` the place with
/// `WrongSort`; or `NoMemory`.
pub fn read_definition(
    alloc: Global,
    declared: &Declared<'_>,
    place: u64,
    form: &Form<'_>,
) -> Result<Def, TextErr>
    requires pairs { IsTrue (are_pairs form.now.params.now) }
    requires room { count_all form.now.params.now + count form.now.body.now < 2 ^ 32 }
    ensures { Tells result (definition (setting_of declared.now) place (form_seen form.now)) }
{
    let names = read_names(alloc, form.params)?;
    let params = read_sorts(alloc, declared, form.params)?;
    let values = sort_of_tree(alloc, declared.sig, form.values)?;
    let scope = Scope {
        sig: declared.sig,
        symbols: declared.symbols,
        names: &names,
        sorts: &params,
    };
    let body = elab_sorted(alloc, form.body, &scope)?;
    close(alloc, place, params, values, body)
}
