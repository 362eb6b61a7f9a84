//! The texts of values.

ghost use Rattle.std.specs.Prelude.{◌≡◌, ◌++◌, codes, IfOk, OnOk};
ghost use Rattle.chc_sexpr.specs.Writing.{spaced};
ghost use Rattle.chc_print.specs.Texts.{sort_text};
ghost use Rattle.chc_print.specs.Values.{value_sort, value_text, value_texts, entry_texts, store_openings, store_endings};

use crate::naming::{constructor_name, datatype_name};
use crate::text::{write_closing, write_number, write_opening, write_truth};
use chc_sexpr::write_symbol;
use chc_sorts::{NoMemory, Sig};
use chc_source::ByteText;
use chc_values::{Entries, Value};
use std::alloc::Global;

/// Writes the sort of a value, as the value tells it.
fn write_sort_of(out: &mut ByteText, sig: &Sig, value: &Value) -> Result<(), NoMemory>
    ensures { OnOk result (out.new ≡ out.old ++ sort_text sig.now (value_sort sig.now value.now)) }
{
    match value {
        Value::Bool(_) => out.extend(b"Bool")?,
        Value::Int(_) => out.extend(b"Int")?,
        Value::Data(d, _, _) => write_symbol(out, datatype_name(sig, *d))?,
        Value::Array(default, _) => {
            out.extend(b"(Array Int ")?;
            write_sort_of(out, sig, default.get())?;
            out.push(b')')?;
        }
    }
    Ok(())
}

/// Writes the beginnings of so many stores.
fn write_store_openings(out: &mut ByteText, count: usize) -> Result<(), NoMemory>
    ensures { OnOk result (out.new ≡ out.old ++ store_openings count) }
{
    for _ in 0..count {
        out.extend(b"(store ")?;
    }
    Ok(())
}

/// Writes the head of a constant array of a value.
fn write_constant_head(out: &mut ByteText, sig: &Sig, default: &Value) -> Result<(), NoMemory>
    ensures { OnOk result (out.new ≡ out.old ++ codes "((as const (Array Int " ++ sort_text sig.now (value_sort sig.now default.now) ++ codes ")) ") }
{
    out.extend(b"((as const (Array Int ")?;
    write_sort_of(out, sig, default)?;
    out.extend(b")) ")?;
    Ok(())
}

/// Writes a value: an array as stores over its constant array, in the order of its exceptions.
#[cycle(values)]
#[tactic(auto, using(crate::proofs::ValueTexts::equations))]
fn write_value(out: &mut ByteText, sig: &Sig, value: &Value) -> Result<(), NoMemory>
    ensures { OnOk result (out.new ≡ out.old ++ value_text sig.now value.now) }
{
    match value {
        Value::Bool(b) => write_truth(out, *b)?,
        Value::Int(n) => write_number(out, *n)?,
        Value::Data(d, c, fields) => {
            write_opening(out, fields.as_slice())?;
            write_symbol(out, constructor_name(sig, *d, *c))?;
            write_values(out, sig, fields.as_slice())?;
            write_closing(out, fields.as_slice())?;
        }
        Value::Array(default, exceptions) => {
            write_store_openings(out, exceptions.len())?;
            write_constant_head(out, sig, default.get())?;
            write_value(out, sig, default.get())?;
            out.push(b')')?;
            write_store_endings(out, sig, exceptions)?;
        }
    }
    Ok(())
}

/// Writes values, with a space before each.
#[cycle(values)]
#[tactic(auto, using(crate::proofs::ValueTexts::equations))]
fn write_values(out: &mut ByteText, sig: &Sig, values: &[Value]) -> Result<(), NoMemory>
    ensures { OnOk result (out.new ≡ out.old ++ spaced (value_texts sig.now values.now)) }
{
    for value in values {
        out.push(b' ')?;
        write_value(out, sig, value)?;
    }
    Ok(())
}

/// Writes what stands behind the array in stores of these exceptions.
#[cycle(values)]
#[tactic(auto, using(crate::proofs::ValueTexts::equations))]
fn write_store_endings(out: &mut ByteText, sig: &Sig, exceptions: &Entries) -> Result<(), NoMemory>
    ensures { OnOk result (out.new ≡ out.old ++ store_endings (entry_texts sig.now exceptions.now)) }
{
    for exception in exceptions.as_slice() {
        out.push(b' ')?;
        write_number(out, exception.0)?;
        out.push(b' ')?;
        write_value(out, sig, &exception.1)?;
        out.push(b')')?;
    }
    Ok(())
}

/// The text of a value. An array is its constant array with the exceptions stored in their order, by ascending index. It
/// calls itself as deep as the value is. The only error is that memory was refused.
pub fn value_text(alloc: Global, v: &Value, sig: &Sig) -> Result<ByteText, NoMemory>
    ensures { IfOk result (λ text. text ≡ value_text sig.now v.now) }
{
    let mut out = ByteText::new(alloc);
    write_value(&mut out, sig, v)?;
    Ok(out)
}
