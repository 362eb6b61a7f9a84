//! What texts take their names from.

ghost use Rattle.std.specs.Prelude.{◌≡◌, slice_get};
ghost use Rattle.std.specs.Option.{option_copied};
ghost use Rattle.chc_print.specs.Texts.{Names, name_at, data_name, ctor_name, field_name, data_ctors};

use chc_sorts::{Ctor, List, Name, Sig};
use std::marker::Model;

/// What a text takes its names from. A number without a name is written with the empty one.
#[derive(Debug, Drop)]
pub struct Naming<'a> {
    /// The signature, which names datatypes, constructors and selectors.
    pub sig: &'a Sig,
    /// The names of predicates, by number.
    pub preds: &'a List<Name>,
    /// The names of definitions, by number.
    pub calls: &'a List<Name>,
    /// What the names of variables begin with; the variable's number follows.
    pub prefix: &'a [u8],
}

impl<'a> Model for Naming<'a> {
    ghost use Rattle.std.specs.Coded.{codes};
    ghost use Rattle.chc_sorts.specs.contracts.sort.Sort as sort;
    ghost use Rattle.chc_print.specs.Texts.{Names};

    ghost Value = { Names };

    ghost coded = { Prim.hlevel (codes, sort.the_row.coded) };

    ghost view = { λ n. record { sig = n.sig.now; preds = n.preds.now; calls = n.calls.now; prefix = n.prefix.now } };
}

impl<'a> Naming<'a> {
    /// The signature.
    pub fn signature(&self) -> &Sig
        ensures { result.now ≡ self.now.sig }
    {
        self.sig
    }

    /// What the variables' names begin with.
    pub fn variable_prefix(&self) -> &[u8]
        ensures { result.now ≡ self.now.prefix }
    {
        self.prefix
    }

    /// The name of the predicate of that number.
    pub fn pred_name(&self, p: usize) -> &[u8]
        ensures { result.now ≡ name_at self.now.preds p }
    {
        name_of(self.preds, p)
    }

    /// The name of the definition of that number.
    pub fn call_name(&self, k: usize) -> &[u8]
        ensures { result.now ≡ name_at self.now.calls k }
    {
        name_of(self.calls, k)
    }
}

/// The name of that number, or the empty name where there is none.
fn name_of(names: &List<Name>, i: usize) -> &[u8]
    ensures { result.now ≡ name_at names.now i }
{
    match names.get(i) {
        Some(name) => name.as_slice(),
        None => &[],
    }
}

/// The name of the datatype of that number, or the empty name where there is none.
pub fn datatype_name(sig: &Sig, d: u32) -> &[u8]
    ensures { result.now ≡ data_name sig.now d }
{
    match sig.datatypes().get(d as usize) {
        Some(datatype) => datatype.name.as_slice(),
        None => &[],
    }
}

/// The constructor of those numbers, if there is one.
fn find_ctor(sig: &Sig, d: u32, c: u32) -> Option<&Ctor>
    ensures { option_copied result ≡ slice_get (data_ctors (slice_get sig.now.datatypes d)) c }
{
    match sig.datatypes().get(d as usize) {
        Some(datatype) => datatype.ctors.get(c as usize),
        None => None,
    }
}

/// The name of the constructor of those numbers, or the empty name where there is none.
pub fn constructor_name(sig: &Sig, d: u32, c: u32) -> &[u8]
    ensures { result.now ≡ ctor_name sig.now d c }
{
    match find_ctor(sig, d, c) {
        Some(ctor) => ctor.name.as_slice(),
        None => &[],
    }
}

/// The name of the selector of those numbers, or the empty name where there is none.
pub fn selector_name(sig: &Sig, d: u32, c: u32, i: u32) -> &[u8]
    ensures { result.now ≡ field_name sig.now d c i }
{
    match find_ctor(sig, d, c) {
        Some(ctor) => match ctor.fields.get(i as usize) {
            Some(field) => field.name.as_slice(),
            None => &[],
        },
        None => &[],
    }
}
