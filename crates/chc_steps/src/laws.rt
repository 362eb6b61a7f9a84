//! What holds of every run of steps of all kinds.

ghost use Rattle.chc_steps.specs.Laws.{LastStateIsOne, NoLegalStepIsRefused, NotBoth, WayBackIsOne};

/// Legal steps lead from a state to one state alone.
pub fn last_state_is_one()
    ensures { LastStateIsOne }
{}

/// Where all steps are legal, none is the first that isn't.
pub fn no_legal_step_is_refused()
    ensures { NoLegalStepIsRefused }
{}

/// The way back turns the steps of a refutation into one list alone, and where it does, every computed value is in range.
pub fn way_back_is_one()
    ensures one { WayBackIsOne }
    ensures in_range { NotBoth }
{}
