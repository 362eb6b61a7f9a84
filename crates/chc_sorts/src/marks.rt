//! Which datatypes have values: marks that grow in rounds.

ghost use Rattle.std.specs.Prelude.{◌≡◌, ◌<◌, ◌≤◌, ◌&&◌, ℕ, true, false, not, if◌then◌else◌, length, take, slice_index_or, slice_set, IfOk, MatchOption};
ghost use Rattle.chc_sorts.specs.Signature.{AllInhabited};
ghost use Rattle.chc_sorts.specs.Marks.{is_marked, sort_marked, ctor_marked, data_marked, AreTrue, AreClosed, AllMarked, IsFirstEmptyAt, unmarked};

use crate::data::{Ctor, Data};
use crate::memory::NoMemory;
use crate::sort::Sort;
use std::alloc::Global;

/// Whether the datatype of that number is marked.
fn is_marked(marks: &[bool], d: usize) -> bool
    ensures { result ≡ is_marked marks.now d }
{
    d < marks.len() && marks[d]
}

/// Whether the sort has a value, as far as the marks tell.
fn is_sort_marked(marks: &[bool], sort: &Sort) -> bool
    ensures { result ≡ sort_marked marks.now sort.now }
{
    match sort {
        Sort::Bool | Sort::Int => true,
        Sort::Data(d) => is_marked(marks, *d as usize),
        Sort::Array(element) => is_sort_marked(marks, element.get()),
    }
}

/// Whether each field of the constructor has a value, as far as the marks tell.
fn is_ctor_marked(marks: &[bool], ctor: &Ctor) -> bool
    ensures { result ≡ ctor_marked marks.now ctor.now }
{
    ctor.fields
        .as_slice()
        .iter()
        .all(|field| is_sort_marked(marks, &field.sort))
}

/// Whether the datatype has a value, as far as the marks tell.
fn is_data_marked(marks: &[bool], datatype: &Data) -> bool
    ensures { result ≡ data_marked marks.now datatype.now }
{
    datatype
        .ctors
        .as_slice()
        .iter()
        .any(|ctor| is_ctor_marked(marks, ctor))
}

/// Marks the datatype of number `d` where it is seen to have a value for the first time. Whether that is so.
fn mark(marks: &mut [bool], d: usize, datatype: &Data) -> bool
    requires { d < length marks.old }
    ensures new { result ≡ (not (is_marked marks.old d) && data_marked marks.old datatype.now) }
    ensures marked { marks.new ≡ (if result then slice_set marks.old d true else marks.old) }
{
    if marks[d] || !is_data_marked(marks, datatype) {
        return false;
    }
    marks[d] = true;
    true
}

/// Marks each datatype that is seen to have a value. Whether there is a new one.
fn mark_round(marks: &mut [bool], datatypes: &[Data]) -> bool
    requires { length marks.old ≡ length datatypes.now }
    ensures same { AreTrue datatypes.now marks.old → AreTrue datatypes.now marks.new }
    ensures last { result ≡ false → AreClosed datatypes.now marks.new }
    ensures fewer { result ≡ true → unmarked marks.new < unmarked marks.old }
{
    let mut grown = false;
    for (d, datatype) in datatypes.iter().enumerate() {
        grown |= mark(marks, d, datatype);
    }
    grown
}

/// Marks each datatype that has a value, where the marked ones have.
fn mark_all(marks: &mut [bool], datatypes: &[Data])
    requires { length marks.old ≡ length datatypes.now }
    ensures same { AreTrue datatypes.now marks.old → AreTrue datatypes.now marks.new }
    ensures closed { AreClosed datatypes.now marks.new }
{
    while mark_round(marks, datatypes) {}
}

/// Marks on the first `known` of `count` datatypes. Errors: `NoMemory`.
fn first_marks(alloc: Global, known: usize, count: usize) -> Result<Vec<bool>, NoMemory>
    ensures { IfOk result (λ v. (length v.items ≡ count) × ((d : ℕ) → is_marked v.items d ≡ true → d < known)) }
{
    let mut marks = Vec::new(alloc);
    for d in 0..count {
        marks.push(d < known)?;
    }
    Ok(marks)
}

/// Marks on the datatypes that have values. The first `known` are known to have them. Errors: `NoMemory`.
fn marks_of(alloc: Global, datatypes: &[Data], known: usize) -> Result<Vec<bool>, NoMemory>
    requires within { known ≤ length datatypes.now }
    requires inhabited { AllInhabited (take known datatypes.now) }
    ensures { IfOk result (λ v. (length v.items ≡ length datatypes.now) × ∥ AreTrue datatypes.now v.items ∥₁ × AreClosed datatypes.now v.items) }
{
    let mut marks = first_marks(alloc, known, datatypes.len())?;
    mark_all(marks.as_mut_slice(), datatypes);
    Ok(marks)
}

/// The number of the first datatype that isn't marked, or `None` where all are.
fn first_unmarked(marks: &[bool]) -> Option<usize>
    ensures { MatchOption result (AllMarked marks.now (length marks.now)) (λ d. (d < length marks.now) × (is_marked marks.now d ≡ false) × AllMarked marks.now d) }
{
    for (d, marked) in marks.iter().enumerate() {
        if !*marked {
            return Some(d);
        }
    }
    None
}

/// The number of the first datatype that has no value, or `None` where all have. The first `known` are known to have
/// values. Errors: `NoMemory`.
pub(crate) fn first_empty(
    alloc: Global,
    datatypes: &[Data],
    known: usize,
) -> Result<Option<usize>, NoMemory>
    requires within { known ≤ length datatypes.now }
    requires inhabited { AllInhabited (take known datatypes.now) }
    ensures { IfOk result (λ o. MatchOption o (AllInhabited datatypes.now) (IsFirstEmptyAt datatypes.now)) }
{
    let marks = marks_of(alloc, datatypes, known)?;
    Ok(first_unmarked(marks.as_slice()))
}
