//! Selectors on other constructors, in worlds over lists.

use crate::{Value, World, WorldErr};
use chc_sorts::{CtorSpec, DataSpec, FieldSpec, List, Name, NoMemory, Sig, SigErr, SortSpec};
use std::alloc::Global;
use std::test::Fail;

/// The name of these bytes.
fn name(alloc: Global, text: &[u8]) -> Result<Name, NoMemory> {
    let mut name = List::new(alloc);
    for b in text {
        name.push(*b)?;
    }
    Ok(name)
}

/// A field of a name and a sort.
fn field(alloc: Global, selector: &[u8], sort: &[u8]) -> Result<FieldSpec, NoMemory> {
    let sort = SortSpec::Named(name(alloc, sort)?);
    let name = name(alloc, selector)?;
    Ok(FieldSpec { name, sort })
}

/// The fields `hd` of Int and `tl`.
fn fields(alloc: Global) -> Result<List<FieldSpec>, NoMemory> {
    let mut fields = List::new(alloc);
    fields.push(field(alloc, b"hd", b"Int")?)?;
    fields.push(field(alloc, b"tl", b"Lst")?)?;
    Ok(fields)
}

/// A constructor of a name and its fields.
fn ctor(alloc: Global, text: &[u8], fields: List<FieldSpec>) -> Result<CtorSpec, NoMemory> {
    let name = name(alloc, text)?;
    Ok(CtorSpec { name, fields })
}

/// `nil`, and `cons` with its fields.
fn ctors(alloc: Global) -> Result<List<CtorSpec>, NoMemory> {
    let mut ctors = List::new(alloc);
    ctors.push(ctor(alloc, b"nil", List::new(alloc))?)?;
    ctors.push(ctor(alloc, b"cons", fields(alloc)?)?)?;
    Ok(ctors)
}

/// The group of the lists alone.
fn lists(alloc: Global) -> Result<List<DataSpec>, NoMemory> {
    let name = name(alloc, b"Lst")?;
    let ctors = ctors(alloc)?;
    let mut group = List::new(alloc);
    group.push(DataSpec { name, ctors })?;
    Ok(group)
}

/// The signature of lists.
fn signature(alloc: Global) -> Result<Sig, SigErr> {
    let group = lists(alloc)?;
    let mut sig = Sig::new(alloc);
    sig.add_group(alloc, group.as_slice(), &List::new(alloc))?;
    Ok(sig)
}

/// The number of a digit.
fn digit(letter: u8) -> u32 {
    u32::from(letter.saturating_sub(b'0'))
}

/// The value `cons` of 1 on `nil`.
fn cons(alloc: Global) -> Result<Value, NoMemory> {
    let mut fields = List::new(alloc);
    fields.push(Value::Int(1))?;
    fields.push(Value::Data(0, 0, List::new(alloc)))?;
    Ok(Value::Data(0, 1, fields))
}

/// The value of a letter: `n` for `nil`, `c` for a `cons`, `t` for true, a digit for the number.
fn value_of(alloc: Global, letter: u8) -> Result<Value, NoMemory> {
    match letter {
        b'n' => Ok(Value::Data(0, 0, List::new(alloc))),
        b'c' => cons(alloc),
        b't' => Ok(Value::Bool(true)),
        _ => Ok(Value::Int(i128::from(digit(letter)))),
    }
}

/// A letter for each answer.
fn told(answer: Result<(), WorldErr>) -> u8 {
    match answer {
        Ok(()) => b'o',
        Err(WorldErr::WrongSort) => b'w',
        Err(WorldErr::Twice) => b't',
        Err(WorldErr::NoMemory) => b'm',
    }
}

/// Whether the world answers as a row says: digits for datatype, constructor and field, letters for the value asked of
/// and the result, and that of the answer.
fn is_told(alloc: Global, sig: &Sig, world: &mut World, row: &[u8]) -> Result<bool, NoMemory> {
    match row {
        [d, c, i, key, result, wanted] => {
            let key = value_of(alloc, *key)?;
            let result = value_of(alloc, *result)?;
            let answer = world.add_sel(sig, digit(*d), digit(*c), digit(*i), key, result);
            Ok(told(answer) == *wanted)
        }
        _ => Ok(false),
    }
}

/// How many entries the world has.
fn count(world: &World) -> usize {
    world.entries().len()
}

#[test]
fn selectors_stand_on_other_constructors(rt: HostRuntime) -> Result<(), Fail> {
    let alloc = rt.alloc();
    let sig = signature(alloc)?;
    let mut world = World::new(alloc);
    let rows = [
        b"010ntw".as_slice(),
        b"010n5o",
        b"010n6t",
        b"010ntw",
        b"01015w",
        b"011n5w",
        b"012n5w",
        b"000n5w",
        b"020n5w",
        b"110n5w",
    ];
    for (i, row) in rows.iter().enumerate() {
        assert!(rt; is_told(alloc, &sig, &mut world, row)?, "{i}");
    }
    assert_eq!(rt; count(&world), 1);
    assert!(rt; is_told(alloc, &sig, &mut world, b"010c5w")?);
    assert_eq!(rt; count(&world), 1);
    Ok(())
}
