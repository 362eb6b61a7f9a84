//! Faults of groups of datatypes.

ghost use Rattle.chc_script.specs.Datatypes.{RefusesGroup};
ghost use Rattle.chc_script.specs.Inhabited.{NamesFirstEmpty};

use crate::whole::limits::limit_name;
use chc_elab::{fault, named_fault};
use chc_sexpr::{Fault, TextErr};
use chc_sorts::SigErr;
use std::alloc::Global;

/// The fault, at the place, of a group of datatypes that is refused, or the refusal of memory.
pub fn refused_group<T>(alloc: Global, place: u64, why: SigErr) -> Result<T, TextErr>
    ensures { RefusesGroup result place why }
{
    match why {
        SigErr::NameTaken(name) => named_fault(alloc, place, Fault::NameTaken, name.as_slice()),
        SigErr::UnknownSort(name) => named_fault(alloc, place, Fault::UnknownSort, name.as_slice()),
        SigErr::ArrayIndex => fault(alloc, place, Fault::ArrayIndex),
        SigErr::SortTooDeep => fault(alloc, place, Fault::SortTooDeep),
        SigErr::TooMany(limit) => named_fault(alloc, place, Fault::TooMany, limit_name(limit)),
        SigErr::NotWellFounded(name) => {
            named_fault(alloc, place, Fault::NotWellFounded, name.as_slice())
        }
        SigErr::NoMemory => Err(TextErr::NoMemory),
    }
}

/// By rounds of marks the first datatype that has no value is found, and none where all have one.
pub fn first_empty_is_found()
    ensures { NamesFirstEmpty }
{}
