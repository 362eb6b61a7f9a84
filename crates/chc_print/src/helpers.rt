//! The names of predicates: a script's own, and those of helpers, which no script declares.

ghost use Rattle.std.specs.Prelude.{◌≡◌, ◌+◌, ◌≤◌, ◌^◌, ◌++◌, ℕ, List, length, IfOk, OnOk};
ghost use Rattle.chc_sorts.specs.Names.{has_name};
ghost use Rattle.chc_print.specs.Helpers.{numbered, if_free, AreHelpers, NamesPredicates};

use crate::prefix::{add_names, used_names};
use chc_sorts::{List, Name, NameTable, NoMemory};
use chc_state::State;
use itoa::Buffer;
use std::alloc::Global;

/// Adds the bytes to a name.
fn add_bytes(name: &mut Name, bytes: &[u8]) -> Result<(), NoMemory>
    ensures { OnOk result (name.new ≡ name.old ++ bytes.now) }
{
    for byte in bytes {
        name.push(*byte)?;
    }
    Ok(())
}

/// The stem with that number behind it.
fn numbered(alloc: Global, stem: &[u8], number: u128) -> Result<Name, NoMemory>
    ensures { IfOk result (λ name. name ≡ numbered stem.now number) }
{
    let mut buffer = Buffer::new();
    let mut name = List::new(alloc);
    add_bytes(&mut name, stem)?;
    add_bytes(&mut name, buffer.format(number).as_bytes())?;
    Ok(name)
}

/// Adds a name to the table where it isn't there.
fn add_once(alloc: Global, table: &mut NameTable, name: &Name) -> Result<(), NoMemory>
    ensures { OnOk result (table.new ≡ table.old ++ if_free table.old name.now) }
{
    if table.has(name.as_slice()) {
        return Ok(());
    }
    table.add(alloc, name.as_slice())
}

/// A table of the names, of which some may be equal.
fn table_of(alloc: Global, names: &[Name]) -> Result<NameTable, NoMemory>
    ensures { IfOk result (λ table. (name : List ℕ) → has_name table name ≡ has_name names.now name) }
{
    let mut table = NameTable::new(alloc);
    for name in names {
        add_once(alloc, &mut table, name)?;
    }
    Ok(table)
}

/// Adds a name to the table and to the list where the table hasn't it.
fn add_free(
    alloc: Global,
    table: &mut NameTable,
    names: &mut List<Name>,
    name: Name,
) -> Result<(), NoMemory>
    ensures table { OnOk result (table.new ≡ table.old ++ if_free table.old name) }
    ensures names { OnOk result (names.new ≡ names.old ++ if_free table.old name) }
{
    if table.has(name.as_slice()) {
        return Ok(());
    }
    table.add(alloc, name.as_slice())?;
    names.push(name)?;
    Ok(())
}

/// The number behind one that is no greater than the number of names, so that it fits.
fn number_behind(table: &NameTable, number: u128) -> u128
    requires { number ≤ length table.now }
    ensures next { result ≡ number + 1 }
    ensures narrow { result ≤ 2 ^ 64 }
{
    let _names = table.len();
    number + 1
}

/// Names for so many helpers beside the names in use: each is the stem with the least number with which it is neither a
/// name in use nor that of an earlier helper. The only error is that memory was refused.
pub fn helper_names(
    alloc: Global,
    used: &[Name],
    stem: &[u8],
    count: usize,
) -> Result<List<Name>, NoMemory>
    ensures next { IfOk result (AreHelpers used.now stem.now) }
    ensures count { IfOk result (λ names. length names ≡ count) }
{
    let mut table = table_of(alloc, used)?;
    let mut names = List::new(alloc);
    let mut number: u128 = 0;
    while names.len() < count {
        let name = numbered(alloc, stem, number)?;
        add_free(alloc, &mut table, &mut names, name)?;
        number = number_behind(&table, number);
    }
    Ok(names)
}

/// The names of the state's predicates by number: those of the script, which are given, and `goal!` with a number for
/// each helper past them. The only error is that memory was refused.
pub fn predicate_names(alloc: Global, s: &State, names: &[Name]) -> Result<List<Name>, NoMemory>
    ensures { IfOk result (NamesPredicates s.now names.now) }
{
    let used = used_names(alloc, s.sig(), names)?;
    let count = s.preds().len().saturating_sub(names.len());
    let mut all = List::new(alloc);
    add_names(alloc, &mut all, names)?;
    all.append(helper_names(alloc, used.as_slice(), b"goal!", count)?)?;
    Ok(all)
}
