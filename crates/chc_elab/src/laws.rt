//! What the terms that are read have to do with the trees that stand for them.

ghost use Rattle.chc_elab.specs.Stands.{ReadIsSaid, ReadStands, ReadWhereStands, StandsForOne, StandsIsRead};
ghost use Rattle.chc_elab.specs.WellRead.{ReadsWell};

/// A tree that stands for a term, all within the limits, is read as that term.
pub fn what_stands_is_read()
    ensures { StandsIsRead }
{}

/// A tree that is read as a term stands for it, all within the limits.
pub fn what_is_read_stands()
    ensures { ReadStands }
{}

/// A tree that stands for a term, all within the limits, stands for it without them.
pub fn what_is_read_is_said()
    ensures { ReadIsSaid }
{}

/// A tree stands for one term at most, whatever the term's size and depth.
pub fn what_stands_is_one()
    ensures { StandsForOne }
{}

/// `elab` answers a term exactly where the tree stands for it, all within the limits.
pub fn what_is_answered_stands()
    ensures { ReadWhereStands }
{}

/// What `elab_sorted` answers is well sorted, with the sort that it gives, and within the limits. Every sort that it
/// writes out fits the signature, it calls nothing where no name stands for a definition, and its numbers are in range
/// where the tree's numerals are.
pub fn what_is_read_is_well_sorted()
    ensures { ReadsWell }
{}
