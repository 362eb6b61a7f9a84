//! Groups that come into a signature, and groups that are refused.

use crate::{
    Boxed, CtorSpec, DataSpec, FieldSpec, Limit, List, Name, NoMemory, Sig, SigErr, SortSpec,
};
use std::alloc::Global;
use std::mem;
use std::test::Fail;

/// The name of one letter.
fn letter(alloc: Global, letter: u8) -> Result<Name, NoMemory> {
    let mut name = List::new(alloc);
    name.push(letter)?;
    Ok(name)
}

/// The sort of a letter: `i` for Int, `b` for Bool, any other letter for a name.
fn named(alloc: Global, sort: u8) -> Result<SortSpec, NoMemory> {
    let bytes = match sort {
        b'i' => b"Int".as_slice(),
        b'b' => b"Bool".as_slice(),
        _ => return Ok(SortSpec::Named(letter(alloc, sort)?)),
    };
    let mut name = List::new(alloc);
    for byte in bytes {
        name.push(*byte)?;
    }
    Ok(SortSpec::Named(name))
}

/// The sort of a letter (`f`), an array of it over Int (`a`) or over Bool (`x`), or sixteen such arrays over Int (`p`).
fn field_sort(alloc: Global, kind: u8, sort: u8) -> Result<SortSpec, NoMemory> {
    let (index, count) = match kind {
        b'a' => (b'i', 1),
        b'x' => (b'b', 1),
        b'p' => (b'i', 16),
        _ => (b'i', 0),
    };
    let mut made = named(alloc, sort)?;
    for _ in 0..count {
        let index = Boxed::new(alloc, named(alloc, index)?)?;
        made = SortSpec::Array(index, Boxed::new(alloc, made)?);
    }
    Ok(made)
}

/// Adds a field of the sort.
fn add_field(
    alloc: Global,
    fields: &mut List<FieldSpec>,
    name: u8,
    sort: SortSpec,
) -> Result<(), NoMemory> {
    let name = letter(alloc, name)?;
    fields.push(FieldSpec { name, sort })?;
    Ok(())
}

/// Adds one field more than a constructor may have, named by the bytes from the first name on.
fn add_many_fields(
    alloc: Global,
    fields: &mut List<FieldSpec>,
    first: u8,
    sort: u8,
) -> Result<(), NoMemory> {
    for name in first..=first.saturating_add(64) {
        add_field(alloc, fields, name, named(alloc, sort)?)?;
    }
    Ok(())
}

/// Adds a constructor of the fields.
fn add_ctor(
    alloc: Global,
    ctors: &mut List<CtorSpec>,
    name: u8,
    fields: List<FieldSpec>,
) -> Result<(), NoMemory> {
    let name = letter(alloc, name)?;
    ctors.push(CtorSpec { name, fields })?;
    Ok(())
}

/// Adds a datatype of the constructors.
fn add_datatype(
    alloc: Global,
    group: &mut List<DataSpec>,
    name: u8,
    ctors: List<CtorSpec>,
) -> Result<(), NoMemory> {
    let name = letter(alloc, name)?;
    group.push(DataSpec { name, ctors })?;
    Ok(())
}

/// Adds the field of a kind, a name and a sort; with kind `m` sixty-five fields.
fn add_fields(
    alloc: Global,
    fields: &mut List<FieldSpec>,
    kind: u8,
    name: u8,
    sort: u8,
) -> Result<(), NoMemory> {
    if kind == b'm' {
        add_many_fields(alloc, fields, name, sort)
    } else {
        let sort = field_sort(alloc, kind, sort)?;
        add_field(alloc, fields, name, sort)
    }
}

/// The group of a text in parts of three letters: a field's kind, name and sort, before its constructor `cK.`, which
/// stands before its datatype `dT.`.
fn group_of(alloc: Global, text: &[u8]) -> Result<List<DataSpec>, NoMemory> {
    let mut fields = List::new(alloc);
    let mut ctors = List::new(alloc);
    let mut group = List::new(alloc);
    for part in text.chunks(3) {
        match part {
            [b'c', name, _] => {
                let made = mem::replace(&mut fields, List::new(alloc));
                add_ctor(alloc, &mut ctors, *name, made)?;
            }
            [b'd', name, _] => {
                let made = mem::replace(&mut ctors, List::new(alloc));
                add_datatype(alloc, &mut group, *name, made)?;
            }
            [kind, name, sort] => add_fields(alloc, &mut fields, *kind, *name, *sort)?,
            _ => {}
        }
    }
    Ok(group)
}

/// A letter for each answer, and the first letter of the name that it holds.
fn told(answer: Result<(), SigErr>) -> (u8, u8) {
    match answer {
        Ok(()) => (b'o', b'.'),
        Err(SigErr::NameTaken(name)) => (b't', first(&name)),
        Err(SigErr::UnknownSort(name)) => (b'u', first(&name)),
        Err(SigErr::ArrayIndex) => (b'x', b'.'),
        Err(SigErr::SortTooDeep) => (b'p', b'.'),
        Err(SigErr::TooMany(Limit::L14)) => (b'm', b'4'),
        Err(SigErr::TooMany(_)) => (b'm', b'.'),
        Err(SigErr::NotWellFounded(name)) => (b'w', first(&name)),
        Err(SigErr::NoMemory) => (b'n', b'.'),
    }
}

fn first(name: &Name) -> u8 {
    match name.get(0) {
        Some(byte) => *byte,
        None => b'?',
    }
}

/// What the signature answers a group, which is the row but for its last two letters; those are what it has to answer.
fn is_told(alloc: Global, sig: &mut Sig, preds: &List<Name>, row: &[u8]) -> Result<bool, NoMemory> {
    match row {
        [text @ .., kind, name] => {
            let group = group_of(alloc, text)?;
            let answer = told(sig.add_group(alloc, group.as_slice(), preds));
            Ok(answer == (*kind, *name))
        }
        [] | [_] => Ok(false),
    }
}

/// The names of the predicates: `q`.
fn predicates(alloc: Global) -> Result<List<Name>, NoMemory> {
    let mut preds = List::new(alloc);
    preds.push(letter(alloc, b'q')?)?;
    Ok(preds)
}

/// Whether the signature has as many datatypes, in groups of those sizes.
fn has_groups(sig: &Sig, count: usize, sizes: &[u32]) -> bool {
    sig.datatypes().len() == count && sig.groups().as_slice() == sizes
}

#[test]
fn groups_are_told_apart(rt: HostRuntime) -> Result<(), Fail> {
    let alloc = rt.alloc();
    let preds = predicates(alloc)?;
    let mut sig = Sig::new(alloc);
    let rows = [
        b"cr.cg.cb.dC.o.".as_slice(),
        b"fxCfyicm.dP.o.",
        b"cn.fhiftLco.dL.o.",
        b"fuVck.dU.cv.fwUcz.dV.o.",
        b"fsTcj.dT.wT",
        b"asTcj.dT.wT",
        b"asCcj.dT.o.",
        b"fxTcl.dA.tx",
        b"f1Zc1.dA.t1",
        b"f1Zcq.dA.tq",
        b"x1if2Zc3.dA.uZ",
        b"p1ix2ic3.dA.x.",
        b"p1Ac3.dA.p.",
        b"m\x80AcK.dA.m4",
    ];
    for (i, row) in rows.iter().enumerate() {
        assert!(rt; is_told(alloc, &mut sig, &preds, row)?, "{i}");
    }
    assert!(rt; has_groups(&sig, 6, &[1, 1, 1, 2, 1]));
    Ok(())
}
