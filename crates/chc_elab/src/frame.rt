//! Names that stand for terms.

ghost use Rattle.std.specs.Prelude.{◌≡◌, None, Some, MatchOption, IsTrue};
ghost use Rattle.chc_elab.specs.Apart.{are_apart};
ghost use Rattle.chc_elab.specs.Settings.{flat, locals_with};
ghost use Rattle.chc_elab.specs.Sites.{local_named};

use crate::bound::Bound;
use chc_sorts::{List, NameTable};
use std::marker::Model;

/// The names of one list of binders, which differ, with a look-up by name. Contracts see them as locals, of which
/// there are as many as names and as many as terms, whichever is less.
#[derive(Drop)]
pub struct Frame {
    names: NameTable,
    bounds: List<Bound>,
}

impl Model for Frame {
    ghost use Rattle.std.specs.Prelude.{List, IsTrue};
    ghost use Rattle.std.specs.Coded.{codes};
    ghost use Rattle.chc_sorts.specs.contracts.sort.Sort as coded_sort;
    ghost use Rattle.chc_terms.specs.contracts.term.Term as coded_term;
    ghost use Rattle.chc_elab.specs.Apart.{are_apart};
    ghost use Rattle.chc_elab.specs.Settings.{locals_with};
    ghost use Rattle.chc_elab.specs.Sites.{Local};

    ghost Value = { List Local };

    ghost coded = { Prim.hlevel (codes, coded_sort.the_row.coded, coded_term.the_row.coded) };

    ghost view = { λ f. locals_with f.names f.bounds };

    ghost invariant = { λ f. IsTrue (are_apart f.names) };
}

impl Frame {
    /// Names that differ, each for what it stands for.
    pub fn of(names: NameTable, bounds: List<Bound>) -> Frame
        requires { IsTrue (are_apart names) }
        ensures { result ≡ locals_with names bounds }
    {
        Frame { names, bounds }
    }

    /// What the name stands for.
    pub fn find(&self, name: &[u8]) -> Option<&Bound>
        ensures { MatchOption result (local_named self.now name.now ≡ None) (λ b. local_named self.now name.now ≡ Some (record { name = name.now; value = b.now.value; under = b.now.under })) }
    {
        let number = self.names.number_of(name)?;
        let bound = self.bounds.get(number)?;
        Some(bound)
    }
}

/// What the innermost local of a name stands for, where the lists of names come from the outermost on.
pub fn innermost<'a>(frames: &'a [Frame], name: &[u8]) -> Option<&'a Bound>
    ensures { MatchOption result (local_named (flat frames.now) name.now ≡ None) (λ b. local_named (flat frames.now) name.now ≡ Some (record { name = name.now; value = b.now.value; under = b.now.under })) }
{
    let mut left = frames.len();
    while left > 0 {
        left -= 1;
        if let Some(bound) = frames[left].find(name) {
            return Some(bound);
        }
    }
    None
}
