//! Limits that a script is held to.

ghost use Rattle.std.specs.Prelude.{◌≡◌, None, OnOk};
ghost use Rattle.chc_elab.specs.Sites.{Tells};
ghost use Rattle.chc_script.specs.Drafts.{held_to};
ghost use Rattle.chc_script.specs.LimitNames.{limit_name};

use chc_elab::named_fault;
use chc_sexpr::{Fault, TextErr};
use chc_sorts::Limit;
use std::alloc::Global;

/// The name of a limit, as text.
pub fn limit_name(limit: Limit) -> &'static [u8]
    ensures { result.now ≡ limit_name limit }
{
    match limit {
        Limit::L1 => b"L1",
        Limit::L2 => b"L2",
        Limit::L3 => b"L3",
        Limit::L4 => b"L4",
        Limit::L5 => b"L5",
        Limit::L6 => b"L6",
        Limit::L7 => b"L7",
        Limit::L8 => b"L8",
        Limit::L9 => b"L9",
        Limit::L10 => b"L10",
        Limit::L11 => b"L11",
        Limit::L12 => b"L12",
        Limit::L13 => b"L13",
        Limit::L14 => b"L14",
        Limit::L15 => b"L15",
        Limit::L16 => b"L16",
    }
}

/// Nothing where no limit is passed. Errors: `At` the place with `TooMany` and the name of the one that is; `NoMemory`.
pub fn hold_to(alloc: Global, place: u64, passed: Option<Limit>) -> Result<(), TextErr>
    ensures value { Tells result (held_to place passed) }
    ensures within { OnOk result (passed ≡ None) }
{
    match passed {
        Some(limit) => named_fault(alloc, place, Fault::TooMany, limit_name(limit)),
        None => Ok(()),
    }
}
