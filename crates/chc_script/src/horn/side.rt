//! How a part of an assertion is read.

ghost use Rattle.std.specs.Prelude.{◌≡◌};
ghost use Rattle.chc_script.specs.Horn.{way_of};

use chc_sorts::Op;

/// What a clause does with a term.
#[derive(Clone, Copy)]
pub enum Side {
    /// The clause says that the term holds, or another of its parts does.
    Concluded,
    /// The clause says so of the term's negation: the term is one of its conditions.
    Assumed,
}

/// How an operator's term is read.
#[derive(Clone, Copy)]
pub enum Way {
    /// By its arguments, each on that side.
    Through(Side),
    /// As one condition.
    Whole,
    /// It can't be.
    Refused,
}

/// How an operator's term on a side is read, by whether a predicate stands in it.
pub fn way_on(op: &Op, side: Side, mentions: bool) -> Way
    ensures { result ≡ way_of op.now side mentions }
{
    match (op, side) {
        (Op::Or, Side::Concluded) => Way::Through(Side::Concluded),
        (Op::Not, Side::Concluded) => Way::Through(Side::Assumed),
        (Op::And, Side::Assumed) => Way::Through(Side::Assumed),
        (Op::Not, Side::Assumed) if mentions => Way::Through(Side::Concluded),
        _ => if mentions { Way::Refused } else { Way::Whole },
    }
}
