//! Where trees stand, and the fault of one that doesn't fit.

ghost use Rattle.std.specs.Prelude.{◌≡◌};
ghost use Rattle.chc_sexpr.specs.declared.fault.TextErr.TheVariants as text_err;
ghost use Rattle.chc_trace.specs.Places.{Tells, bad_form, place_of, wanted_at};

use chc_sexpr::{Fault, TextErr, TextFault, Tree};
use chc_source::ByteText;
use std::alloc::Global;

/// Where the tree stands.
fn place_of(tree: &Tree) -> u64
    ensures { result ≡ place_of tree.now }
{
    match tree {
        Tree::Symbol(place, _)
        | Tree::Word(place, _)
        | Tree::Keyword(place, _)
        | Tree::Numeral(place, _)
        | Tree::Text(place, _)
        | Tree::Other(place, _)
        | Tree::Group(place, _) => *place,
    }
}

/// The fault that another tree is wanted at the place.
pub fn bad_form(alloc: Global, place: u64) -> TextErr
    ensures { result ≡ text_err.At (bad_form place) }
{
    TextErr::At(TextFault {
        place,
        fault: Fault::BadForm,
        name: ByteText::new(alloc),
    })
}

/// What was read of the tree, or the fault that it doesn't fit.
pub fn fitting<T>(alloc: Global, tree: &Tree, read: Option<T>) -> Result<T, TextErr>
    ensures { Tells result (wanted_at (place_of tree.now) read) }
{
    match read {
        Some(value) => Ok(value),
        None => Err(bad_form(alloc, place_of(tree))),
    }
}
