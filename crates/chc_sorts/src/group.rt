//! A group of datatypes that comes into a signature: all of it, or nothing.

ghost use Rattle.std.specs.Prelude.{◌≡◌, ◌≤◌, ◌+◌, true, [], ◌∷◌, ◌++◌, length, take, OnOk, OnErr};
ghost use Rattle.std.specs.List.{flat_map, list_all};
ghost use Rattle.chc_sorts.specs.Signature.{AllInhabited};
ghost use Rattle.chc_sorts.specs.Groups.{first_refusal, names_with};
ghost use Rattle.chc_sorts.specs.Checks.{ChecksFor};
ghost use Rattle.chc_sorts.specs.Listing.{AreFresh, Begins, Grows, IsInhabitedOr, names_of, data_names, is_narrow};

use crate::data::Data;
use crate::fields::check_sorts;
use crate::functions::FunctionTable;
use crate::limits::limit_passed;
use crate::list::List;
use crate::listing::add_functions;
use crate::marks::first_empty;
use crate::memory::NoMemory;
use crate::names::NameTable;
use crate::refusal::SigErr;
use crate::sig::Sig;
use crate::spec::DataSpec;
use crate::taken::{NameSpaces, declare_all};
use std::alloc::Global;

#[cfg(test)]
mod tests;

/// The names of the datatypes with the group's. Errors: the first refusal of the group, but for that of a datatype
/// without values; `NoMemory`.
pub(crate) fn check_group(
    alloc: Global,
    sig: &Sig,
    preds: &NameTable,
    group: &[DataSpec],
) -> Result<NameTable, SigErr>
    requires { length sig.now.datatypes ≤ 1024 }
    ensures { ChecksFor (names_with sig.now group.now) result (first_refusal sig.now group.now preds.now) }
{
    let mut own = NameSpaces {
        sorts: sig.names().copy()?,
        functions: NameTable::new(alloc),
    };
    declare_all(alloc, sig, preds, &mut own, group)?;
    check_sorts(alloc, &own.sorts, group)?;
    if let Some(limit) = limit_passed(sig, group) {
        return Err(SigErr::TooMany(limit));
    }
    Ok(own.sorts)
}

/// What stands against datatypes, of which the first `known` are known to have values: the name of the first that has
/// none. Errors: `NotWellFounded`, `NoMemory`.
fn check_inhabited(alloc: Global, datatypes: &[Data], known: usize) -> Result<(), SigErr>
    requires within { known ≤ length datatypes.now }
    requires inhabited { AllInhabited (take known datatypes.now) }
    ensures { IsInhabitedOr datatypes.now result }
{
    if let Some(d) = first_empty(alloc, datatypes, known)? {
        return Err(SigErr::NotWellFounded(datatypes[d].name.copy(alloc)?));
    }
    Ok(())
}

/// Adds the size of a group. After a refusal nothing has changed. Errors: `NoMemory`.
fn add_size(groups: &mut List<u32>, size: u32) -> Result<(), NoMemory>
    ensures added { OnOk result (groups.new ≡ groups.old ++ size ∷ []) }
    ensures same { OnErr result (groups.new ≡ groups.old) }
{
    groups.push(size)?;
    Ok(())
}

/// Puts datatypes behind those that are there. After a refusal there may be more than before. Errors:
/// `NotWellFounded` with the first that has no value; `NoMemory`.
fn grow(
    alloc: Global,
    datatypes: &mut List<Data>,
    groups: &mut List<u32>,
    functions: &mut FunctionTable,
    made: List<Data>,
) -> Result<(), SigErr>
    requires few { length datatypes.old + length made ≤ 1024 }
    requires narrow { list_all is_narrow made ≡ true }
    requires fresh { AreFresh (names_of functions.old) (flat_map data_names made) }
    requires inhabited { AllInhabited datatypes.old }
    ensures grows { Grows datatypes.old groups.old functions.old made result datatypes.new groups.new functions.new }
    ensures datatypes { Begins datatypes.old datatypes.new }
    ensures groups { Begins groups.old groups.new }
    ensures functions { Begins functions.old functions.new }
{
    let known = datatypes.len();
    add_functions(alloc, functions, known, made.as_slice())?;
    add_size(groups, made.len() as u32)?;
    datatypes.append(made)?;
    check_inhabited(alloc, datatypes.as_slice(), known)?;
    Ok(())
}

/// Puts datatypes behind those that are there. After a refusal all is as before. Errors: `NotWellFounded` with the
/// first that has no value; `NoMemory`.
pub(crate) fn extend(
    alloc: Global,
    datatypes: &mut List<Data>,
    groups: &mut List<u32>,
    functions: &mut FunctionTable,
    made: List<Data>,
) -> Result<(), SigErr>
    requires few { length datatypes.old + length made ≤ 1024 }
    requires narrow { list_all is_narrow made ≡ true }
    requires fresh { AreFresh (names_of functions.old) (flat_map data_names made) }
    requires inhabited { AllInhabited datatypes.old }
    ensures grows { Grows datatypes.old groups.old functions.old made result datatypes.new groups.new functions.new }
    ensures same { OnErr result ((datatypes.new ≡ datatypes.old) × (groups.new ≡ groups.old) × (functions.new ≡ functions.old)) }
{
    let datatypes_before = datatypes.len();
    let groups_before = groups.len();
    let functions_before = functions.len();
    match grow(alloc, datatypes, groups, functions, made) {
        Ok(()) => Ok(()),
        Err(refused) => {
            datatypes.truncate(datatypes_before);
            groups.truncate(groups_before);
            functions.truncate(functions_before);
            Err(refused)
        }
    }
}
