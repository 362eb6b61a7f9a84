//! Whether some numbers can be the predicates that a step removes.

ghost use Rattle.std.specs.Prelude.{◌≡◌};
ghost use Rattle.std.specs.List.{list_all};
ghost use Rattle.chc_state.specs.States.{is_live};
ghost use Rattle.chc_state.specs.PredSets.{is_ascending};
ghost use Rattle.pass_slice.specs.Choices.{is_choice};

use chc_sorts::List;
use chc_state::{PredDecl, State};

/// Whether there are some numbers, each above the one before it, and all of live predicates.
pub(crate) fn can_go(s: &State, ps: &List<u32>) -> bool
    ensures { result ≡ is_choice s.now.preds ps.now }
{
    let numbers = ps.as_slice();
    numbers.len() > 0 && are_ascending(numbers) && are_live(s.preds().as_slice(), numbers)
}

/// Whether each number is above the one before it.
#[tactic(auto, using(crate::proofs::Ascending::ascending))]
fn are_ascending(ps: &[u32]) -> bool
    ensures { result ≡ is_ascending ps.now }
{
    let mut least: u64 = 0;
    for p in ps {
        let p = *p as u64;
        if p < least {
            return false;
        }
        least = p + 1;
    }
    true
}

/// Whether all are numbers of live predicates.
fn are_live(preds: &[PredDecl], ps: &[u32]) -> bool
    ensures { result ≡ list_all (is_live preds.now) ps.now }
{
    ps.iter().all(|p| is_live_in(preds, *p))
}

/// Whether the predicate of that number is declared and live.
fn is_live_in(preds: &[PredDecl], p: u32) -> bool
    ensures { result ≡ is_live preds.now p }
{
    let i = p as usize;
    if i < preds.len() {
        preds[i].live
    } else {
        false
    }
}
