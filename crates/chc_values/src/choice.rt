//! For each datatype its first constructor of least height, found in rounds.

ghost use Rattle.std.specs.Prelude.{◌≡◌, ◌<◌, ◌≤◌, IfSome, true, length, None, IfOk, replicate, slice_get};
ghost use Rattle.std.specs.List.{list_all, position_from};
ghost use Rattle.chc_sorts.specs.Listing.{is_narrow};
ghost use Rattle.chc_values.specs.Choices.{is_below, is_within, are_within, next_choice, next_choices, AreAllBelow};

use chc_sorts::{Ctor, Data, List, NoMemory, Sig, Sort};
use std::alloc::Global;

/// The constructor from which a datatype's default is built: the first of least height.
#[derive(Clone, Copy)]
pub struct Choice {
    /// The greatest height of the constructor's fields. The datatype's height is 1 more.
    pub height: usize,
    /// The constructor's number.
    pub ctor: u32,
}

/// The choices that are made so far, by the datatype's number.
pub type Choices = List<Option<Choice>>;

/// Whether the choices tell that the fields of the datatype's choice are of a height below `height`.
fn is_below(d: u32, choices: &Choices, height: usize) -> bool
    ensures { result ≡ is_below (slice_get choices.now d) height }
{
    match choices.get(d as usize) {
        Some(Some(choice)) => choice.height < height,
        Some(None) | None => false,
    }
}

/// Whether the choices tell that the sort's height is at most `height`.
fn is_within(sort: &Sort, choices: &Choices, height: usize) -> bool
    ensures { result ≡ is_within choices.now height sort.now }
{
    match sort {
        Sort::Bool | Sort::Int => true,
        Sort::Data(d) => is_below(*d, choices, height),
        Sort::Array(element) => is_within(element.get(), choices, height),
    }
}

/// Whether the choices tell so of every field of the constructor.
fn are_within(ctor: &Ctor, choices: &Choices, height: usize) -> bool
    ensures { result ≡ are_within choices.now height ctor.now }
{
    for field in ctor.fields.as_slice() {
        if !is_within(&field.sort, choices, height) {
            return false;
        }
    }
    true
}

/// The first constructor whose fields are all of height at most `height`.
fn first_within(ctors: &List<Ctor>, choices: &Choices, height: usize) -> Option<usize>
    ensures value { result ≡ position_from (are_within choices.now height) 0 ctors.now }
    ensures within { IfSome result (λ c. c < length ctors.now) }
{
    for (c, ctor) in ctors.as_slice().iter().enumerate() {
        if are_within(ctor, choices, height) {
            return Some(c);
        }
    }
    None
}

/// The choice of a datatype after the round for `height`: the one that it has, or the first constructor
/// whose fields are all of height at most `height`.
fn next_choice(
    datatype: &Data,
    choice: Option<Choice>,
    choices: &Choices,
    height: usize,
) -> Option<Choice>
    requires { length datatype.now.ctors ≤ 256 }
    ensures { result ≡ next_choice choices.now height datatype.now choice }
{
    if choice.is_some() {
        return choice;
    }
    let ctor = first_within(&datatype.ctors, choices, height)? as u32;
    Some(Choice { height, ctor })
}

/// The choices of all datatypes after the round for `height`.
fn next_choices(
    alloc: Global,
    datatypes: &List<Data>,
    choices: &Choices,
    height: usize,
) -> Result<Choices, NoMemory>
    requires even { length choices.now ≡ length datatypes.now }
    requires narrow { list_all is_narrow datatypes.now ≡ true }
    ensures { IfOk result (λ l. l ≡ next_choices choices.now height datatypes.now choices.now) }
{
    let olds = choices.as_slice();
    let mut made = List::new(alloc);
    for (d, datatype) in datatypes.as_slice().iter().enumerate() {
        made.push(next_choice(datatype, olds[d], choices, height))?;
    }
    Ok(made)
}

/// No choice for any of `count` datatypes.
fn no_choices(alloc: Global, count: usize) -> Result<Choices, NoMemory>
    ensures { IfOk result (λ l. l ≡ replicate count None) }
{
    let mut made = List::new(alloc);
    for _ in 0..count {
        made.push(None)?;
    }
    Ok(made)
}

/// The choices, and how many rounds were taken to find them.
#[derive(Drop)]
pub struct Rounds {
    pub choices: Choices,
    /// All choices of a lesser height are there.
    pub height: usize,
}

/// The choices of as many rounds as tell the height of the datatype `d`.
pub fn choices_for(alloc: Global, d: u32, sig: &Sig) -> Result<Rounds, NoMemory>
    requires { d < length sig.now.datatypes }
    ensures right { IfOk result (λ r. AreAllBelow sig.now r.height r.choices) }
    ensures told { IfOk result (λ r. is_below (slice_get r.choices d) r.height ≡ true) }
{
    prove!(sig.datatype(d).is_some());
    let datatypes = sig.datatypes();
    let mut choices = no_choices(alloc, datatypes.len())?;
    let mut height = 0;
    'rounds: while !is_below(d, &choices, height) {
        choices = next_choices(alloc, datatypes, &choices, height)?;
        height += 1;
    }
    Ok(Rounds { choices, height })
}
