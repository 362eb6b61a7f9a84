//! What texts have to do with what they are read as.

ghost use Rattle.read_again.specs.ClauseCounts.{RoomIsEnough};
ghost use Rattle.read_again.specs.ClauseLaws.{SaysItsClause};
ghost use Rattle.read_again.specs.PrintedScripts.{PrintedIsRead};
ghost use Rattle.read_again.specs.ReadNames.{ReadIsFresh};

/// The text of a state says the state's own script, where the assertion of each clause can be read.
pub fn printed_scripts_are_read()
    ensures { PrintedIsRead }
{}

/// The assertion that the line of a well-formed clause stands for says the clause.
pub fn says_its_clause()
    ensures { SaysItsClause }
{}

/// A clause's assertion can be read where the clause's charge and depth leave room for the connectives.
pub fn room_is_enough()
    ensures { RoomIsEnough }
{}

/// The names of the signature of a script that is read differ, and none is fixed.
pub fn names_that_are_read_differ()
    ensures { ReadIsFresh }
{}
