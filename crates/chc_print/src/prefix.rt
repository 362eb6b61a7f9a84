//! The prefix of the variables' names.

ghost use Rattle.std.specs.Prelude.{◌≡◌, ℕ, ◌<◌, ◌≤◌, ◌++◌, false, true, map, length, slice_index_or, IfOk, OnOk};
ghost use Rattle.std.specs.List.{flat_map};
ghost use Rattle.chc_print.specs.Prefix.{ctor_names, used_names, begins_numbered, is_taken, marked, takes_marks, marks_from, IsVariablePrefix};

use chc_sorts::{Ctor, Data, Field, List, Name, NoMemory, Sig};
use chc_source::ByteText;
use std::alloc::Global;

/// Adds copies of the names.
pub fn add_names(alloc: Global, used: &mut List<Name>, names: &[Name]) -> Result<(), NoMemory>
    ensures { OnOk result (used.new ≡ used.old ++ names.now) }
{
    for name in names {
        used.push(name.copy(alloc)?)?;
    }
    Ok(())
}

/// Adds the names of the selectors.
fn add_selectors(alloc: Global, used: &mut List<Name>, fields: &[Field]) -> Result<(), NoMemory>
    ensures { OnOk result (used.new ≡ used.old ++ map (λ f. f.name) fields.now) }
{
    for field in fields {
        used.push(field.name.copy(alloc)?)?;
    }
    Ok(())
}

/// Adds the name of the constructor and those of its selectors.
fn add_constructor(alloc: Global, used: &mut List<Name>, ctor: &Ctor) -> Result<(), NoMemory>
    ensures { OnOk result (used.new ≡ used.old ++ ctor_names ctor.now) }
{
    used.push(ctor.name.copy(alloc)?)?;
    add_selectors(alloc, used, ctor.fields.as_slice())?;
    Ok(())
}

/// Adds the names of the constructors, each before those of its selectors.
fn add_constructors(alloc: Global, used: &mut List<Name>, ctors: &[Ctor]) -> Result<(), NoMemory>
    ensures { OnOk result (used.new ≡ used.old ++ flat_map ctor_names ctors.now) }
{
    for ctor in ctors {
        add_constructor(alloc, used, ctor)?;
    }
    Ok(())
}

/// Adds the names of the constructors and selectors of the datatypes.
fn add_functions(alloc: Global, used: &mut List<Name>, datatypes: &[Data]) -> Result<(), NoMemory>
    ensures { OnOk result (used.new ≡ used.old ++ flat_map ctor_names (flat_map (λ t. t.ctors) datatypes.now)) }
{
    for datatype in datatypes {
        add_constructors(alloc, used, datatype.ctors.as_slice())?;
    }
    Ok(())
}

/// The names in use: those given, and those of the constructors and selectors.
pub fn used_names(alloc: Global, sig: &Sig, names: &[Name]) -> Result<List<Name>, NoMemory>
    ensures { IfOk result (λ used. used ≡ used_names sig.now names.now) }
{
    let mut used = List::new(alloc);
    add_names(alloc, &mut used, names)?;
    add_functions(alloc, &mut used, sig.datatypes().as_slice())?;
    Ok(used)
}

/// How many exclamation marks stand before a digit at the beginning of the bytes, where there is nothing else before it.
fn marks_before_digit(bytes: &[u8]) -> Option<usize>
    ensures { result ≡ marks_from 0 bytes.now }
{
    for (marks, b) in bytes.iter().enumerate() {
        if b.is_ascii_digit() {
            return Some(marks);
        }
        if *b != b'!' {
            return None;
        }
    }
    None
}

/// The number of marks for which the name begins with that prefix and a digit, if there is one.
fn marks_taken(name: &[u8]) -> Option<usize>
    ensures { (k : ℕ) → begins_numbered (marked k) name.now ≡ takes_marks k result }
{
    match name {
        [first, rest @ ..] if *first == b'x' => marks_before_digit(rest),
        _ => None,
    }
}

/// The length of the longest name: no name takes so many marks or more.
fn longest(names: &[Name]) -> usize
    ensures { (k : ℕ) → result ≤ k → is_taken names.now (marked k) ≡ false }
{
    let mut most = 0;
    for name in names {
        if most < name.len() {
            most = name.len();
        }
    }
    most
}

/// Which of the first `count` numbers of marks some name takes.
fn taken_marks(alloc: Global, names: &[Name], count: usize) -> Result<Vec<bool>, NoMemory>
    ensures size { IfOk result (λ taken. length taken.items ≡ count) }
    ensures value { IfOk result (λ taken. (k : ℕ) → k < count → slice_index_or taken.items k false ≡ is_taken names.now (marked k)) }
{
    let mut taken = vec![in alloc; false; count]?;
    for name in names {
        if let Some(marks) = marks_taken(name.as_slice()) {
            if marks < taken.len() {
                taken[marks] = true;
            }
        }
    }
    Ok(taken)
}

/// The first place at which there is no `true`, or the length.
fn first_free(taken: &[bool]) -> usize
    ensures within { result ≤ length taken.now }
    ensures before { (k : ℕ) → k < result → slice_index_or taken.now k false ≡ true }
    ensures found { result < length taken.now → slice_index_or taken.now result false ≡ false }
{
    for (k, is_taken) in taken.iter().enumerate() {
        if !*is_taken {
            return k;
        }
    }
    taken.len()
}

/// An `x` with so many exclamation marks.
fn marked_prefix(alloc: Global, marks: usize) -> Result<ByteText, NoMemory>
    ensures { IfOk result (λ prefix. prefix ≡ marked marks) }
{
    let mut prefix = ByteText::new(alloc);
    prefix.push(b'x')?;
    for _ in 0..marks {
        prefix.push(b'!')?;
    }
    Ok(prefix)
}

/// What the names of variables begin with beside these names: an `x` with the fewest exclamation marks for which no name
/// begins so with a digit behind it.
pub fn prefix_beside(alloc: Global, names: &[Name]) -> Result<ByteText, NoMemory>
    ensures { IfOk result (λ prefix. IsVariablePrefix names.now prefix) }
{
    let count = longest(names);
    let taken = taken_marks(alloc, names, count)?;
    marked_prefix(alloc, first_free(taken.as_slice()))
}

/// What the names of variables begin with beside the names in use, which are the constructors and selectors of the
/// signature and those given: an `x` with the fewest exclamation marks for which no name in use begins so with a digit
/// behind it. The only error is that memory was refused.
pub fn variable_prefix(alloc: Global, sig: &Sig, names: &[Name]) -> Result<ByteText, NoMemory>
    ensures { IfOk result (λ prefix. IsVariablePrefix (used_names sig.now names.now) prefix) }
{
    let used = used_names(alloc, sig, names)?;
    prefix_beside(alloc, used.as_slice())
}
