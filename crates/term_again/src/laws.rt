//! What the texts of terms have to do with what they are read as.

ghost use Rattle.term_again.specs.Bound.{BindersHoldTheirs, PlainBindsNone, TextHoldsBound};
ghost use Rattle.term_again.specs.Naming.{MadeIsFresh};
ghost use Rattle.term_again.specs.Terms.{TermsAreReadAgain, TermsAreSaidAgain, WrittenIsNear};

/// The text of a term of a state spells one tree, which is read as the term, where that is within the limits.
pub fn all_printed_terms_are_read()
    ensures { TermsAreReadAgain }
{}

/// The text of a term of a state that isn't too deep spells one tree, which stands for the term whatever its size.
pub fn all_printed_terms_are_said()
    ensures { TermsAreSaidAgain }
{}

/// A term that can be written names datatypes of its context alone.
pub fn written_terms_are_near()
    ensures { WrittenIsNear }
{}

/// The names of every signature that groups make differ, and none is fixed.
pub fn signatures_are_fresh()
    ensures { MadeIsFresh }
{}

/// A plain term binds no variables.
pub fn plain_terms_bind_none()
    ensures { PlainBindsNone }
{}

/// The text of a term has a byte at least for each variable that is bound at a place in it.
pub fn texts_hold_bound()
    ensures { TextHoldsBound }
{}

/// The text of binders has a byte at least for each of their variables.
pub fn binders_hold_theirs()
    ensures { BindersHoldTheirs }
{}
