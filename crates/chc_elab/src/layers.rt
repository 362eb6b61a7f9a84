//! Names of variables, of which several may be equal.

ghost use Rattle.std.specs.Prelude.{◌≡◌, ◌∷◌, ◌++◌, [], IfOk};
ghost use Rattle.chc_elab.specs.Settings.{flat};

use crate::bound::Bound;
use crate::frame::Frame;
use chc_sorts::{List, NameTable, NoMemory};
use std::alloc::Global;
use std::marker::Model;

/// Names with what they stand for, in frames in each of which no name stands twice. Contracts see them as locals, the
/// outermost first.
#[derive(Drop)]
pub struct Layers {
    frames: List<Frame>,
    names: NameTable,
    bounds: List<Bound>,
}

impl Model for Layers {
    ghost use Rattle.std.specs.Prelude.{◌≡◌, ◌++◌, List, length, IsTrue};
    ghost use Rattle.std.specs.Coded.{codes};
    ghost use Rattle.chc_sorts.specs.contracts.sort.Sort as coded_sort;
    ghost use Rattle.chc_terms.specs.contracts.term.Term as coded_term;
    ghost use Rattle.chc_elab.specs.Apart.{are_apart};
    ghost use Rattle.chc_elab.specs.Settings.{flat, locals_with};
    ghost use Rattle.chc_elab.specs.Sites.{Local};

    ghost Value = { List Local };

    ghost coded = { Prim.hlevel (codes, coded_sort.the_row.coded, coded_term.the_row.coded) };

    ghost view = { λ l. flat l.frames ++ locals_with l.names l.bounds };

    ghost invariant = { λ l. (length l.names ≡ length l.bounds) × IsTrue (are_apart l.names) };
}

impl Layers {
    /// No names.
    pub fn new(alloc: Global) -> Layers
        ensures { result ≡ [] }
    {
        Layers {
            frames: List::new(alloc),
            names: NameTable::new(alloc),
            bounds: List::new(alloc),
        }
    }

    /// These names in frames.
    pub fn into_frames(self) -> Result<List<Frame>, NoMemory>
        ensures { IfOk result (λ frames. flat frames ≡ self) }
    {
        let Layers {
            mut frames,
            names,
            bounds,
        } = self;
        frames.push(Frame::of(names, bounds))?;
        Ok(frames)
    }

    /// These names and one more behind them.
    pub fn with(self, alloc: Global, name: &[u8], bound: Bound) -> Result<Layers, NoMemory>
        ensures { IfOk result (λ more. more ≡ self ++ record { name = name.now; value = bound.value; under = bound.under } ∷ []) }
    {
        let Layers {
            mut frames,
            mut names,
            mut bounds,
        } = self;
        if names.has(name) {
            frames.push(Frame::of(names, bounds))?;
            return begun(alloc, frames, name, bound);
        }
        names.add(alloc, name)?;
        bounds.push(bound)?;
        Ok(Layers {
            frames,
            names,
            bounds,
        })
    }
}

/// The names of the frames, and one more in a frame that it begins.
fn begun(alloc: Global, frames: List<Frame>, name: &[u8], bound: Bound) -> Result<Layers, NoMemory>
    ensures { IfOk result (λ layers. layers ≡ flat frames ++ record { name = name.now; value = bound.value; under = bound.under } ∷ []) }
{
    let mut names = NameTable::new(alloc);
    names.add(alloc, name)?;
    let mut bounds = List::new(alloc);
    bounds.push(bound)?;
    Ok(Layers {
        frames,
        names,
        bounds,
    })
}
