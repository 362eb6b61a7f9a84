//! Sorts that are read.

ghost use Rattle.std.specs.Prelude.{◌<◌, ◌^◌, length, IfOk};

use crate::named::sort_read;
use crate::{Boxed, List, Name, NameTable, NoMemory, SigErr, Sort, SortSpec};
use std::alloc::Global;

/// The word of a letter: `b` for Bool, `i` for Int, `r` for Array; any other letter is a name itself.
fn word(alloc: Global, letter: u8) -> Result<Name, NoMemory> {
    let bytes = match letter {
        b'b' => b"Bool".as_slice(),
        b'i' => b"Int".as_slice(),
        b'r' => b"Array".as_slice(),
        _ => {
            let mut name = List::new(alloc);
            name.push(letter)?;
            return Ok(name);
        }
    };
    let mut name = List::new(alloc);
    for byte in bytes {
        name.push(*byte)?;
    }
    Ok(name)
}

/// Puts the array of the last two parts in their place; false where there are no two.
fn join(alloc: Global, parts: &mut List<SortSpec>) -> Result<bool, NoMemory> {
    let Some(element) = parts.pop() else {
        return Ok(false);
    };
    let Some(index) = parts.pop() else {
        return Ok(false);
    };
    let element = Boxed::new(alloc, element)?;
    let index = Boxed::new(alloc, index)?;
    parts.push(SortSpec::Array(index, element))?;
    Ok(true)
}

/// The sort whose parts stand before their `A`, which is an array: `ibA` is `(Array Int Bool)`.
fn spec_of(alloc: Global, letters: &[u8]) -> Result<Option<SortSpec>, NoMemory> {
    let mut parts: List<SortSpec> = List::new(alloc);
    for letter in letters {
        if *letter != b'A' {
            parts.push(SortSpec::Named(word(alloc, *letter)?))?;
        } else if !join(alloc, &mut parts)? {
            return Ok(None);
        }
    }
    Ok(parts.pop())
}

/// Writes a sort in the same way.
fn write_sort(sort: &Sort, out: &mut List<u8>) -> Result<(), NoMemory> {
    match sort {
        Sort::Bool => out.push(b'b')?,
        Sort::Int => out.push(b'i')?,
        Sort::Data(0) => out.push(b'd')?,
        Sort::Data(_) => out.push(b'e')?,
        Sort::Array(element) => {
            out.push(b'i')?;
            write_sort(element.get(), out)?;
            out.push(b'A')?;
        }
    }
    Ok(())
}

/// Writes what is read: the sort, or the unknown name, `!` for an array that isn't over Int, `^` for a depth.
fn answer(alloc: Global, read: &Result<Sort, SigErr>) -> Result<List<u8>, NoMemory> {
    let mut out = List::new(alloc);
    match read {
        Ok(sort) => write_sort(sort, &mut out)?,
        Err(SigErr::UnknownSort(name)) => return name.copy(alloc),
        Err(SigErr::ArrayIndex) => out.push(b'!')?,
        Err(SigErr::SortTooDeep) => out.push(b'^')?,
        Err(_) => {}
    }
    Ok(out)
}

/// Two datatypes, `d` and `e`.
fn two_names(alloc: Global) -> Result<NameTable, NoMemory>
    ensures { IfOk result (λ names. length names < 2 ^ 32) }
{
    let mut names = NameTable::new(alloc);
    names.add(alloc, b"d".as_slice())?;
    if !names.has(b"e".as_slice()) {
        names.add(alloc, b"e".as_slice())?;
    }
    Ok(names)
}

/// What the letters are read as, where `d` and `e` are the datatypes.
fn reading(alloc: Global, letters: &[u8]) -> Result<Option<List<u8>>, NoMemory> {
    let names = two_names(alloc)?;
    match spec_of(alloc, letters)? {
        Some(spec) => Ok(Some(answer(alloc, &sort_read(alloc, &names, &spec))?)),
        None => Ok(None),
    }
}

fn is_read_as(alloc: Global, letters: &[u8], wanted: &[u8]) -> bool {
    match reading(alloc, letters) {
        Ok(Some(found)) => found.as_slice() == wanted,
        Ok(None) | Err(_) => false,
    }
}

#[test]
fn sorts_are_read(rt: HostRuntime) {
    let read = [
        b"b".as_slice(),
        b"i",
        b"d",
        b"e",
        b"iieAA",
        b"iiiiiiiiiiiiiiibAAAAAAAAAAAAAAA",
    ];
    for letters in read {
        assert!(rt; is_read_as(rt.alloc(), letters, letters));
    }
}

#[test]
fn the_first_refusal_counts(rt: HostRuntime) {
    let unknown = [
        b"x".as_slice(),
        b"xyA",
        b"bxA",
        b"ibAiiiiiiiiiiiiiiiixAAAAAAAAAAAAAAAAA",
    ];
    for letters in unknown {
        assert!(rt; is_read_as(rt.alloc(), letters, b"x"));
    }
    assert!(rt; is_read_as(rt.alloc(), b"r", b"Array"));
    for letters in [
        b"ibAiA".as_slice(),
        b"iiiiiiiiiiiiiiiiibbAAAAAAAAAAAAAAAAAA",
    ] {
        assert!(rt; is_read_as(rt.alloc(), letters, b"!"));
    }
    assert!(rt; is_read_as(rt.alloc(), b"iiiiiiiiiiiiiiiibAAAAAAAAAAAAAAAA", b"^"));
}
