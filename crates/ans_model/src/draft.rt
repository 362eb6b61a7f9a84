//! The definitions of an answer so far.

ghost use Rattle.std.specs.Prelude.{◌≡◌, ◌<◌, None, Some, length, option_copied, IfOk};
ghost use Rattle.chc_sorts.specs.Names.{look_up};
ghost use Rattle.chc_elab.specs.Sites.{Tells};
ghost use Rattle.chc_state.specs.Definitions.{Defines, fun_sort};
ghost use Rattle.ans_model.specs.Drafted.{IsDrafted};
ghost use Rattle.ans_model.specs.Drafts.{finished, fresh, held, is_defined, missing_from, no_entries, placed, suits, with_definition, with_entry};

use crate::names::name_of;
use crate::target::Target;
use chc_elab::{Symbol, Symbols, named_fault};
use chc_sexpr::{Fault, TextErr};
use chc_sorts::{List, NoMemory, Sort, copy_sorts, same_sort, same_sorts};
use chc_state::{Def, Defs, PredDecl};
use chc_terms::FunSort;
use std::alloc::Global;

/// How many definitions an answer may have.
const MOST_DEFINITIONS: usize = 65_536;

/// Definitions, by name too.
#[derive(Drop)]
pub struct Draft {
    pub symbols: Symbols,
    pub defs: Defs,
}

/// No predicate of these has a definition.
fn no_entries(alloc: Global, preds: &[PredDecl]) -> Result<List<Option<u64>>, NoMemory>
    ensures { IfOk result (λ of. of ≡ no_entries preds.now) }
{
    let mut of = List::new(alloc);
    for _pred in preds {
        of.push(None)?;
    }
    Ok(of)
}

/// Before the first definition.
pub fn fresh(alloc: Global, target: &Target<'_>) -> Result<Draft, NoMemory>
    ensures value { IfOk result (λ d. d ≡ fresh target.now) }
    ensures drafted { IfOk result (IsDrafted target.now.state) }
{
    let of = no_entries(alloc, target.preds().as_slice())?;
    Ok(Draft {
        symbols: Symbols::new(alloc),
        defs: Defs {
            list: List::new(alloc),
            of,
        },
    })
}

/// The sorts of a definition, on fresh memory.
fn sorts_of(alloc: Global, def: &Def) -> Result<FunSort, NoMemory>
    ensures { IfOk result (λ f. f ≡ fun_sort def.now) }
{
    let params = copy_sorts(alloc, &def.params)?;
    let result = def.result.copy(alloc)?;
    Ok(FunSort { params, result })
}

/// The draft with one more definition, of a new name.
fn with_definition(alloc: Global, draft: Draft, name: &[u8], def: Def) -> Result<Draft, NoMemory>
    requires { look_up draft.symbols name.now ≡ None }
    ensures { IfOk result (λ d. d ≡ with_definition draft name.now def) }
{
    let Draft { mut symbols, defs } = draft;
    let Defs { mut list, of } = defs;
    let symbol = Symbol::Def(list.len() as u64, sorts_of(alloc, &def)?);
    symbols.add(name_of(alloc, name)?, symbol)?;
    list.push(def)?;
    Ok(Draft {
        symbols,
        defs: Defs { list, of },
    })
}

/// The draft where the next definition is that of the predicate.
fn with_entry(draft: Draft, p: usize) -> Draft
    requires { p < length draft.defs.of }
    ensures { result ≡ with_entry draft p }
{
    let Draft { symbols, defs } = draft;
    let Defs { list, mut of } = defs;
    let number = list.len() as u64;
    of.replace(p, Some(number));
    Draft {
        symbols,
        defs: Defs { list, of },
    }
}

/// Whether the definition has the predicate's positions as parameters, and truth values.
fn suits(decl: Option<&PredDecl>, def: &Def) -> bool
    ensures { result ≡ suits (option_copied decl.entry) def.now }
{
    match decl {
        Some(decl) => {
            same_sorts(def.params.as_slice(), decl.sorts.as_slice())
                && same_sort(&def.result, &Sort::Bool)
        }
        None => false,
    }
}

/// The draft with one more definition, which is that of the predicate. Errors: `At` the place with `WrongParams`;
/// `NoMemory`.
fn with_predicate(
    alloc: Global,
    target: &Target<'_>,
    draft: Draft,
    place: u64,
    name: &[u8],
    def: Def,
    p: usize,
) -> Result<Draft, TextErr>
    requires new { look_up draft.symbols name.now ≡ None }
    requires entries { length draft.defs.of ≡ length target.now.state.preds }
    ensures { Tells result (placed target.now draft place name.now def (Some p)) }
{
    if !suits(target.preds().get(p), &def) {
        return named_fault(alloc, place, Fault::WrongParams, name);
    }
    let draft = with_definition(alloc, with_entry(draft, p), name, def)?;
    Ok(draft)
}

/// The draft with one more definition, of a new name: that of the predicate, or a helper where there is none. Errors: `At`
/// the place with `WrongParams`; `NoMemory`.
pub fn place_definition(
    alloc: Global,
    target: &Target<'_>,
    draft: Draft,
    place: u64,
    name: &[u8],
    def: Def,
    owner: Option<usize>,
) -> Result<Draft, TextErr>
    requires new { look_up draft.symbols name.now ≡ None }
    requires entries { length draft.defs.of ≡ length target.now.state.preds }
    ensures { Tells result (placed target.now draft place name.now def owner) }
{
    match owner {
        Some(p) => with_predicate(alloc, target, draft, place, name, def, p),
        None => {
            let draft = with_definition(alloc, draft, name, def)?;
            Ok(draft)
        }
    }
}

/// Whether there is an entry, and it has a definition.
fn is_defined(entry: Option<&Option<u64>>) -> bool
    ensures { result ≡ is_defined (option_copied entry.entry) }
{
    match entry {
        Some(entry) => entry.is_some(),
        None => false,
    }
}

/// The first live predicate without a definition.
fn first_missing(preds: &[PredDecl], of: &List<Option<u64>>) -> Option<usize>
    ensures { result ≡ missing_from of.now 0 preds.now }
{
    for (p, pred) in preds.iter().enumerate() {
        if pred.live && !is_defined(of.get(p)) {
            return Some(p);
        }
    }
    None
}

/// The definitions. Errors: `At` the place with `TooMany` where there are too many; `NoMemory`.
fn hold(alloc: Global, place: u64, defs: Defs) -> Result<Defs, TextErr>
    ensures { Tells result (held place defs) }
{
    if defs.list.len() > MOST_DEFINITIONS {
        return named_fault(alloc, place, Fault::TooMany, b"L7");
    }
    Ok(defs)
}

/// The definitions of an answer that ends at the place. Errors: `At` the place with `Missing` and the first live predicate
/// without a definition, or with `TooMany`; `NoMemory`.
pub fn finish(alloc: Global, target: &Target<'_>, place: u64, draft: Draft) -> Result<Defs, TextErr>
    requires { IsDrafted target.now.state draft }
    ensures value { Tells result (finished target.now place draft) }
    ensures defines { IfOk result (λ d. Defines d target.now.state) }
{
    let Draft { defs, .. } = draft;
    match first_missing(target.preds().as_slice(), &defs.of) {
        Some(p) => named_fault(alloc, place, Fault::Missing, target.name(p)),
        None => hold(alloc, place, defs),
    }
}
