//! How many arguments heads take.

ghost use Rattle.std.specs.Prelude.{◌≡◌, length};
ghost use Rattle.chc_terms.specs.Sorted.{fields_of};
ghost use Rattle.chc_elab.specs.Building.{head_takes, is_as_many, parameters, takes};

use crate::head::Head;
use crate::symbols::Symbol;
use chc_sorts::{ReadOp, Sig, operator_rows};

macro_rules! counted {
    (one $count:expr) => {
        $count == 1
    };
    (some $count:expr) => {
        $count > 0
    };
    (several $count:expr) => {
        $count > 1
    };
    (two $count:expr) => {
        $count == 2
    };
    (three $count:expr) => {
        $count == 3
    };
}

macro_rules! counts {
    ([$op:expr, $given:expr] $($text:literal $read:ident $count:ident $sorts:ident $form:tt),*) => {
        match $op {
            $(ReadOp::$read => counted!($count $given),)*
        }
    };
}

/// Whether an operator takes so many arguments.
fn takes(op: ReadOp, count: usize) -> bool
    ensures { result ≡ takes op count }
{
    operator_rows!([counts] op, count)
}

/// Whether the constructor is there and has so many fields.
pub fn has_fields(sig: &Sig, d: u32, c: u32, count: usize) -> bool
    ensures { result ≡ is_as_many count (fields_of sig.now d c) }
{
    let Some(datatype) = sig.datatype(d) else {
        return false;
    };
    match datatype.ctors.get(c as usize) {
        Some(constructor) => count == constructor.fields.len(),
        None => false,
    }
}

/// How many parameters a declared name has.
fn parameters(symbol: &Symbol) -> usize
    ensures { result ≡ length (parameters symbol.now) }
{
    match symbol {
        Symbol::Pred(_, sorts) => sorts.len(),
        Symbol::Def(_, sorts) => sorts.params.len(),
    }
}

/// Whether a head takes so many arguments.
pub fn head_takes(sig: &Sig, head: &Head, count: usize) -> bool
    ensures { result ≡ head_takes sig.now head.now count }
{
    match head {
        Head::Operator(op) => takes(*op, count),
        Head::Make(d, c) | Head::OfSort(d, c, _) => has_fields(sig, *d, *c, count),
        Head::Get(_, _, _) | Head::Is(_, _) | Head::Divisible(_) | Head::Constant(_) => count == 1,
        Head::Declared(symbol) => count == parameters(symbol),
    }
}
