//! What definitions are read for.

ghost use Rattle.std.specs.Prelude.{◌≡◌, ◌<◌, ◌^◌, ℕ, List, None, Some, cond, length, IfOk, OnOk};
ghost use Rattle.std.specs.Option.{option_or};
ghost use Rattle.std.specs.Str.{bytes_eq};
ghost use Rattle.chc_sorts.specs.Names.{look_up};
ghost use Rattle.chc_print.specs.Texts.{name_at};
ghost use Rattle.ans_model.specs.Drafts.{ArePreds, owner, owner_from, pred_number};

use crate::names::name_of;
use chc_elab::{Symbol, Symbols};
use chc_sorts::{List, Name, NoMemory, Sig, copy_sorts};
use chc_state::{PredDecl, State};
use std::alloc::Global;
use std::marker::Model;

/// The state for which definitions are read, the names of all its predicates by number, and the live ones by name.
#[derive(Drop)]
pub struct Target<'a> {
    state: &'a State,
    names: &'a List<Name>,
    live: &'a Symbols,
}

impl<'a> Model for Target<'a> {
    ghost use Rattle.std.specs.Prelude.{◌≡◌, ℕ, List};
    ghost use Rattle.std.specs.Coded.{codes};
    ghost use Rattle.chc_sorts.specs.Names.{look_up};
    ghost use Rattle.chc_sorts.specs.contracts.sort.Sort as sort;
    ghost use Rattle.chc_terms.specs.contracts.term.Term as term;
    ghost use Rattle.ans_model.specs.Drafts.{TargetView, owner_from, pred_number};

    ghost Value = { TargetView };

    ghost coded = { Prim.hlevel (codes, sort.the_row.coded, term.the_row.coded) };

    ghost view = { λ t. record { state = t.state.now; names = t.names.now } };

    ghost invariant = { λ t. (name : List ℕ) → pred_number (look_up t.live.now name) ≡ owner_from 0 t.names.now t.state.now.preds name };
}

/// Adds a predicate under a name where none stands there.
fn add_once(
    alloc: Global,
    table: &mut Symbols,
    name: &[u8],
    p: u32,
    decl: &PredDecl,
) -> Result<(), NoMemory>
    requires { ArePreds table.old }
    ensures preds { OnOk result (ArePreds table.new) }
    ensures added { OnOk result ((other : List ℕ) → pred_number (look_up table.new other) ≡ option_or (pred_number (look_up table.old other)) (cond (bytes_eq name.now other) (Some p) None)) }
{
    if table.find(name).is_some() {
        return Ok(());
    }
    let symbol = Symbol::Pred(p, copy_sorts(alloc, &decl.sorts)?);
    table.add(name_of(alloc, name)?, symbol)?;
    Ok(())
}

/// The live predicates by name; of those that have the same name, the first.
pub fn live_by_name(
    alloc: Global,
    preds: &List<PredDecl>,
    names: &List<Name>,
) -> Result<Symbols, NoMemory>
    requires { length preds.now < 2 ^ 32 }
    ensures { IfOk result (λ table. (name : List ℕ) → pred_number (look_up table name) ≡ owner_from 0 names.now preds.now name) }
{
    let mut table = Symbols::new(alloc);
    for (p, decl) in preds.as_slice().iter().enumerate() {
        let Some(name) = names.get(p) else {
            return Ok(table);
        };
        if decl.live {
            add_once(alloc, &mut table, name.as_slice(), p as u32, decl)?;
        }
    }
    Ok(table)
}

impl<'a> Target<'a> {
    /// The state with the names of its predicates, of which the table has the live ones.
    pub fn new(state: &'a State, names: &'a List<Name>, live: &'a Symbols) -> Target<'a>
        requires { (name : List ℕ) → pred_number (look_up live.now name) ≡ owner_from 0 names.now state.now.preds name }
        ensures { result ≡ record { state = state.now; names = names.now } }
    {
        Target { state, names, live }
    }

    /// The signature.
    pub fn sig(&self) -> &Sig
        ensures { result.now ≡ self.now.state.sig }
    {
        self.state.sig()
    }

    /// The predicates by number.
    pub fn preds(&self) -> &List<PredDecl>
        ensures { result.now ≡ self.now.state.preds }
    {
        self.state.preds()
    }

    /// The name of the predicate of that number, or the empty name where there is none.
    pub fn name(&self, p: usize) -> &[u8]
        ensures { result.now ≡ name_at self.now.names p }
    {
        match self.names.get(p) {
            Some(name) => name.as_slice(),
            None => &[],
        }
    }

    /// The live predicate of that name.
    pub fn owner(&self, name: &[u8]) -> Option<usize>
        ensures { result ≡ owner self.now name.now }
    {
        match self.live.find(name) {
            Some(Symbol::Pred(p, _)) => Some(*p as usize),
            Some(Symbol::Def(_, _)) | None => None,
        }
    }
}
