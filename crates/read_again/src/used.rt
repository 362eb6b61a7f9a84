//! What a text declares of the datatypes of its state.

ghost use Rattle.read_again.specs.UsedDatatypes.{LastDeclaredIsUsed, UsedAreDeclared};

/// Each datatype that a state of well-formed clauses uses stands in the groups that its text declares.
pub fn used_are_declared()
    ensures { UsedAreDeclared }
{}

/// The last of these groups has a used datatype.
pub fn last_declared_is_used()
    ensures { LastDeclaredIsUsed }
{}
