//! Lists, copies of sorts, operators and signatures, and names of functions.

use crate::functions::FunctionTable;
use crate::{Boxed, Ctor, Data, Field, List, Meaning, Name, NoMemory, Op, Sig, Sort, copy_sorts};
use std::alloc::Global;
use std::test::Fail;

/// The name of those bytes.
fn name(alloc: Global, text: &[u8]) -> Result<Name, NoMemory> {
    let mut name = List::new(alloc);
    for b in text {
        name.push(*b)?;
    }
    Ok(name)
}

/// Whether 7 takes the place of 1 as the second of four elements, and then 3 goes out as the first.
fn is_changed(list: &mut Name) -> bool {
    if list.len() != 4 {
        return false;
    }
    let second = list.replace(1, 7);
    let first = list.remove(0);
    second == 1 && first == 3
}

/// Whether that is the last element, which is taken off.
fn is_popped(list: &mut Name, wanted: u8) -> bool {
    list.pop() == Some(wanted)
}

/// Whether that stands at the place.
fn is_at(list: &Name, place: usize, wanted: Option<u8>) -> bool {
    list.get(place).copied() == wanted
}

/// Whether those are the elements.
fn holds(list: &Name, wanted: &[u8]) -> bool {
    list.as_slice() == wanted
}

#[test]
fn lists_change_at_one_place(rt: HostRuntime) -> Result<(), Fail> {
    let mut list = name(rt.alloc(), &[3, 1, 4, 1])?;
    assert!(rt; is_changed(&mut list));
    assert!(rt; is_popped(&mut list, 1));
    assert!(rt; is_at(&list, 1, Some(4)));
    assert!(rt; is_at(&list, 2, None));
    assert!(rt; holds(&list, &[7, 4]));
    assert!(rt; holds(&list.copy(rt.alloc())?, &[7, 4]));
    Ok(())
}

/// A field that is an array.
fn fields(alloc: Global) -> Result<List<Field>, NoMemory> {
    let name = name(alloc, b"get")?;
    let sort = Sort::Array(Boxed::new(alloc, Sort::Data(2))?);
    let mut fields = List::new(alloc);
    fields.push(Field { name, sort })?;
    Ok(fields)
}

/// A constructor, which has an array as its one field.
fn ctors(alloc: Global) -> Result<List<Ctor>, NoMemory> {
    let name = name(alloc, b"mk")?;
    let fields = fields(alloc)?;
    let mut ctors = List::new(alloc);
    ctors.push(Ctor { name, fields })?;
    Ok(ctors)
}

/// A datatype with that one constructor.
fn datatype(alloc: Global) -> Result<Data, NoMemory> {
    let name = name(alloc, b"D")?;
    let ctors = ctors(alloc)?;
    Ok(Data { name, ctors })
}

/// The datatype in the form of `Debug`.
fn shown(alloc: Global, datatype: &Data) -> Result<String, NoMemory> {
    let text = format!(in alloc; "{datatype:?}")?;
    Ok(text)
}

/// Whether the datatype and its copy are shown alike.
fn is_copied(alloc: Global, datatype: &Data) -> Result<bool, NoMemory> {
    let wanted = shown(alloc, datatype)?;
    let found = shown(alloc, &datatype.copy(alloc)?)?;
    Ok(found.as_str() == wanted.as_str())
}

/// How many sorts there are in the copy of a list of one.
fn copied_sorts(alloc: Global) -> Result<usize, NoMemory> {
    let mut sorts = List::new(alloc);
    sorts.push(Sort::Bool)?;
    Ok(copy_sorts(alloc, &sorts)?.len())
}

/// Whether the copy of the operator is that of a constant array of numbers.
fn is_copied_to_const(alloc: Global, op: &Op) -> Result<bool, NoMemory> {
    Ok(matches!(&op.copy(alloc)?, Op::Const(Sort::Int)))
}

/// How many datatypes there are in the copy of a signature of none.
fn copied_datatypes(alloc: Global) -> Result<usize, NoMemory> {
    let sig = Sig::new(alloc).copy(alloc)?;
    Ok(sig.datatypes().len())
}

#[test]
fn copies_are_equal(rt: HostRuntime) -> Result<(), Fail> {
    let alloc = rt.alloc();
    assert!(rt; is_copied(alloc, &datatype(alloc)?)?);
    assert_eq!(rt; copied_sorts(alloc)?, 1);
    assert!(rt; is_copied_to_const(alloc, &Op::Const(Sort::Int))?);
    assert_eq!(rt; copied_datatypes(alloc)?, 0);
    Ok(())
}

/// Adds what a name stands for that isn't there.
fn add(
    alloc: Global,
    table: &mut FunctionTable,
    name: &[u8],
    meaning: Meaning,
) -> Result<(), NoMemory> {
    if !table.has(name) {
        table.add(alloc, name, meaning)?;
    }
    Ok(())
}

/// Whether the name stands for that, and there are as many names.
fn is_found(table: &FunctionTable, count: usize, name: &[u8], wanted: Option<Meaning>) -> bool {
    table.len() == count && table.get(name) == wanted
}

/// Keeps the first name.
fn keep_first(table: &mut FunctionTable) {
    table.truncate(1);
}

/// A constructor, and its selector.
fn functions(alloc: Global) -> Result<FunctionTable, NoMemory> {
    let mut table = FunctionTable::new(alloc);
    add(alloc, &mut table, b"mk", Meaning::Make(2, 1))?;
    add(alloc, &mut table, b"get", Meaning::Get(2, 1, 0))?;
    Ok(table)
}

#[test]
fn functions_are_found_by_name(rt: HostRuntime) -> Result<(), Fail> {
    let mut table = functions(rt.alloc())?;
    let copy = table.copy()?;
    keep_first(&mut table);
    assert!(rt; is_found(&table, 1, b"mk", Some(Meaning::Make(2, 1))));
    assert!(rt; is_found(&table, 1, b"get", None));
    assert!(rt; is_found(&copy, 2, b"get", Some(Meaning::Get(2, 1, 0))));
    assert!(rt; is_found(&copy, 2, b"ge", None));
    Ok(())
}

/// What the name stands for in a signature of no datatypes.
fn meaning_in_none(alloc: Global, name: &[u8]) -> Option<Meaning> {
    Sig::new(alloc).meaning(name)
}

#[test]
fn no_function_is_found_in_no_signature(rt: HostRuntime) {
    assert!(rt; meaning_in_none(rt.alloc(), b"mk").is_none());
}
