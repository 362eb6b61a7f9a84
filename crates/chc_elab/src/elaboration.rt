//! Terms from trees in a scope.

ghost use Rattle.std.specs.Prelude.{◌≡◌, ◌+◌, ◌<◌, ◌^◌, IfOk, length};
ghost use Rattle.chc_sexpr.specs.Counts.{count};
ghost use Rattle.chc_elab.specs.Binders.{variables_from};
ghost use Rattle.chc_elab.specs.Reads.{elaborated, elaborated_with_sort};
ghost use Rattle.chc_elab.specs.Settings.{flat, scope_setting};
ghost use Rattle.chc_elab.specs.Sites.{Tells};

use crate::binding::variable;
use crate::frame::Frame;
use crate::layers::Layers;
use crate::reading::read_term;
use crate::scope::{Declared, Scope};
use crate::sorted_term::SortedTerm;
use crate::typed::Typed;
use chc_sexpr::{TextErr, Tree};
use chc_sorts::{List, Name, NoMemory, Sort};
use chc_terms::Term;
use std::alloc::Global;

/// The variables of a scope, as lists of names in each of which no name stands twice.
fn outer_frames(alloc: Global, names: &[Name], sorts: &[Sort]) -> Result<List<Frame>, NoMemory>
    requires even { length names.now ≡ length sorts.now }
    requires few { length sorts.now < 2 ^ 32 }
    ensures { IfOk result (λ frames. flat frames ≡ variables_from 0 names.now sorts.now) }
{
    let mut layers = Layers::new(alloc);
    for i in 0..names.len() {
        let bound = variable(alloc, i as u32, &sorts[i])?;
        layers = layers.with(alloc, names[i].as_slice(), bound)?;
    }
    layers.into_frames()
}

/// The term for which a tree stands in a scope. Its variables are numbered from the outside: those of the scope from
/// 0 on, and each binder's behind those that are bound around it. `let` puts its terms for its names, all at once and
/// without capture. The recursion is as deep as the tree.
///
/// Errors: `At` the first fault. At a tree come the fault of its head (`UnknownName`, `NotSupported`), of its form
/// (`BadCommand`, `NameTaken`, faults of sorts), `WrongCount`, the faults of its arguments from left to right with
/// `TooLarge` where their sizes and 1 pass 262,144, then `WrongSort`, and `TooLarge` and `TooDeep` where the term has
/// more than 262,144 nodes or is more than 900 deep. Or `NoMemory`.
pub fn elab(alloc: Global, tree: &Tree, scope: &Scope<'_>) -> Result<Term, TextErr>
    requires even { length scope.now.names.now ≡ length scope.now.sorts.now }
    requires room { length scope.now.names.now + count tree.now < 2 ^ 32 }
    ensures { Tells result (elaborated (scope_setting scope.now) scope.now.names.now scope.now.sorts.now tree.now) }
{
    let SortedTerm { term, .. } = elab_sorted(alloc, tree, scope)?;
    Ok(term)
}

/// The term for which a tree stands in a scope, with its sort. Conditions and errors are those of `elab`.
pub fn elab_sorted(alloc: Global, tree: &Tree, scope: &Scope<'_>) -> Result<SortedTerm, TextErr>
    requires even { length scope.now.names.now ≡ length scope.now.sorts.now }
    requires room { length scope.now.names.now + count tree.now < 2 ^ 32 }
    ensures { Tells result (elaborated_with_sort (scope_setting scope.now) scope.now.names.now scope.now.sorts.now tree.now) }
{
    let declared = Declared {
        sig: scope.sig,
        symbols: scope.symbols,
    };
    let mut frames = outer_frames(alloc, scope.names.as_slice(), scope.sorts.as_slice())?;
    let count = scope.sorts.len() as u32;
    let Typed { term, sort } = read_term(alloc, &declared, &mut frames, count, tree)?;
    Ok(SortedTerm {
        term: term.into_term(),
        sort,
    })
}
