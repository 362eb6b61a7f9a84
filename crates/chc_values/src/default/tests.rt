//! Defaults over small signatures.

ghost use Rattle.std.specs.Prelude.{IsTrue, Bool};
ghost use Rattle.chc_sorts.specs.declared.sort.Sort.{fold-Sort};
ghost use Rattle.chc_sorts.specs.Sorts.{is_declared_step};

use crate::{Value, default_of};
use chc_sorts::{Boxed, CtorSpec, DataSpec, FieldSpec, List, Name, NoMemory, Sig, Sort, SortSpec};
use std::alloc::Global;
use std::mem;

fn name(alloc: Global, bytes: &[u8]) -> Result<Name, NoMemory> {
    let mut name = List::new(alloc);
    for byte in bytes {
        name.push(*byte)?;
    }
    Ok(name)
}

/// The digit of a small number.
fn digit(n: u64) -> u8 {
    match n {
        0 => b'0',
        1 => b'1',
        2 => b'2',
        3 => b'3',
        _ => b'?',
    }
}

/// The sort of a letter: `b` for Bool, `i` for Int, `a` for an array over the datatype 0; a digit is a datatype's name.
fn sort_of(alloc: Global, letter: u8) -> Result<SortSpec, NoMemory> {
    match letter {
        b'b' => Ok(SortSpec::Named(name(alloc, b"Bool")?)),
        b'i' => Ok(SortSpec::Named(name(alloc, b"Int")?)),
        b'a' => {
            let index = SortSpec::Named(name(alloc, b"Int")?);
            let index = Boxed::new(alloc, index)?;
            let element = SortSpec::Named(name(alloc, b"0")?);
            Ok(SortSpec::Array(index, Boxed::new(alloc, element)?))
        }
        _ => Ok(SortSpec::Named(name(alloc, [letter].as_slice())?)),
    }
}

/// A name that no other place has.
fn name_at(alloc: Global, kind: u8, place: usize) -> Result<Name, NoMemory> {
    name(alloc, [kind, (place % 256) as u8].as_slice())
}

/// Adds the datatype of the constructors, named by its digit.
fn add_datatype(
    alloc: Global,
    group: &mut List<DataSpec>,
    ctors: List<CtorSpec>,
) -> Result<(), NoMemory> {
    let name = name(alloc, [digit(group.len() as u64)].as_slice())?;
    group.push(DataSpec { name, ctors })?;
    Ok(())
}

/// Adds the constructor of the fields, named by its place.
fn add_ctor(
    alloc: Global,
    ctors: &mut List<CtorSpec>,
    fields: List<FieldSpec>,
    place: usize,
) -> Result<(), NoMemory> {
    let name = name_at(alloc, b'c', place)?;
    ctors.push(CtorSpec { name, fields })?;
    Ok(())
}

/// Adds a field of the letter's sort, named by its place.
fn add_field(
    alloc: Global,
    fields: &mut List<FieldSpec>,
    letter: u8,
    place: usize,
) -> Result<(), NoMemory> {
    let name = name_at(alloc, b'f', place)?;
    let sort = sort_of(alloc, letter)?;
    fields.push(FieldSpec { name, sort })?;
    Ok(())
}

/// The datatypes of a text, in which letters are fields, `,` ends a constructor and `;` a datatype.
fn group_of(alloc: Global, text: &[u8]) -> Result<List<DataSpec>, NoMemory> {
    let mut group = List::new(alloc);
    let mut ctors = List::new(alloc);
    let mut fields = List::new(alloc);
    for (place, letter) in text.iter().enumerate() {
        match *letter {
            b';' => {
                let made = mem::replace(&mut ctors, List::new(alloc));
                add_datatype(alloc, &mut group, made)?;
            }
            b',' => {
                let made = mem::replace(&mut fields, List::new(alloc));
                add_ctor(alloc, &mut ctors, made, place)?;
            }
            letter => add_field(alloc, &mut fields, letter, place)?,
        }
    }
    Ok(group)
}

/// Writes a value: `f` or `t`, a digit, `[` the default `]`, and `<` the numbers of datatype and constructor, and the
/// fields `>`.
fn write_value(value: &Value, out: &mut List<u8>) -> Result<(), NoMemory> {
    match value {
        Value::Bool(b) => out.push(if *b { b't' } else { b'f' })?,
        Value::Int(n) => out.push(if *n == 0 { b'0' } else { b'?' })?,
        Value::Data(d, c, fields) => {
            out.push(b'<')?;
            out.push(digit(u64::from(*d)))?;
            out.push(digit(u64::from(*c)))?;
            for field in fields.as_slice() {
                write_value(field, out)?;
            }
            out.push(b'>')?;
        }
        Value::Array(default, exceptions) => {
            out.push(b'[')?;
            write_value(default.get(), out)?;
            out.push(if exceptions.len() == 0 { b']' } else { b'?' })?;
        }
    }
    Ok(())
}

fn text_of(alloc: Global, sort: &Sort, sig: &Sig) -> Result<List<u8>, NoMemory>
    requires { IsTrue (fold-Sort Bool (is_declared_step sig.now) sort.now) }
{
    let value = default_of(alloc, sort, sig)?;
    let mut out = List::new(alloc);
    write_value(&value, &mut out)?;
    Ok(out)
}

/// The default of the datatype `d` of the group that the text says; `None` where there is none.
#[tactic(auto, using(crate::proofs::Building::declared_below))]
fn group_default(alloc: Global, text: &[u8], d: u32) -> Result<Option<List<u8>>, NoMemory> {
    let mut sig = Sig::new(alloc);
    let group = group_of(alloc, text)?;
    if sig
        .add_group(alloc, group.as_slice(), &List::new(alloc))
        .is_err()
    {
        return Ok(None);
    }
    if d as usize >= sig.datatypes().len() {
        return Ok(None);
    }
    Ok(Some(text_of(alloc, &Sort::Data(d), &sig)?))
}

fn has_default(alloc: Global, text: &[u8], d: u32, wanted: &[u8]) -> bool {
    match group_default(alloc, text, d) {
        Ok(Some(found)) => found.as_slice() == wanted,
        Ok(None) | Err(_) => false,
    }
}

#[test]
fn datatypes_have_their_first_of_least_height(rt: HostRuntime) {
    let rows = [
        // an enumeration
        (b",,,;".as_slice(), 0, b"<00>".as_slice()),
        // a pair of an enumeration and Int
        (b",,;0i,;", 1, b"<10<00>0>"),
        // lists, the empty one first and second
        (b",i0,;", 0, b"<00>"),
        (b"i0,,;", 0, b"<01>"),
        // trees whose leaves stand second
        (b"00,i,;", 0, b"<010>"),
        // two constructors of one height
        (b"i,b,;", 0, b"<000>"),
        (b",;0b,bb,0,;", 1, b"<11ff>"),
        // a tree and its branches
        (b"i1,;,01,;", 0, b"<000<10>>"),
        // an array is no higher than its elements
        (b",,;0,;1,a,;", 2, b"<21[<00>]>"),
        // heights from below
        (b"0,1,;2,,;1,;", 0, b"<01<11>>"),
    ];
    for (text, d, wanted) in rows {
        assert!(rt; has_default(rt.alloc(), text, d, wanted));
    }
}

/// The default of the arrays of arrays over Int.
#[tactic(auto, using(crate::proofs::Building::declared_array))]
fn array_default(alloc: Global, sig: &Sig) -> Result<List<u8>, NoMemory> {
    let inner = Sort::Array(Boxed::new(alloc, Sort::Int)?);
    let outer = Sort::Array(Boxed::new(alloc, inner)?);
    text_of(alloc, &outer, sig)
}

fn is_written(found: &Result<List<u8>, NoMemory>, wanted: &[u8]) -> bool {
    match found {
        Ok(found) => found.as_slice() == wanted,
        Err(_) => false,
    }
}

#[test]
fn plain_sorts_have_theirs(rt: HostRuntime) {
    let alloc = rt.alloc();
    let sig = Sig::new(alloc);
    assert!(rt; is_written(&text_of(alloc, &Sort::Bool, &sig), b"f"));
    assert!(rt; is_written(&text_of(alloc, &Sort::Int, &sig), b"0"));
    assert!(rt; is_written(&array_default(alloc, &sig), b"[[0]]"));
}
