//! Definitions from texts.

ghost use Rattle.std.specs.Prelude.{◌≡◌, ◌+◌, ◌<◌, ◌^◌, length, IfOk, IsTrue};
ghost use Rattle.chc_sexpr.specs.Counts.{count, count_all};
ghost use Rattle.chc_elab.specs.Binders.{are_pairs};
ghost use Rattle.chc_elab.specs.Sites.{Tells};
ghost use Rattle.chc_state.specs.Definitions.{Defines};
ghost use Rattle.ans_model.specs.Answers.{IsModelReading, all_defined, answer_of, behind_sat, defined, defined_by, definitions, in_group};
ghost use Rattle.ans_model.specs.Forms.{definition_form, form_seen};
ghost use Rattle.ans_model.specs.Readable.{AreReadable};

use crate::definition::{check_name, read_definition};
use crate::draft::{Draft, finish, fresh, place_definition};
use crate::form::{Form, check_end, check_forms, definition_form, misfit, not_sat, without_model};
use crate::params::Declared;
use crate::target::{Target, live_by_name};
use chc_elab::{fault, place_of};
use chc_print::predicate_names;
use chc_sexpr::{Fault, TextErr, Tree, first_fault_is_one, group_of, is_symbol, read_trees};
use chc_state::{Defs, Names, State};
use std::alloc::Global;

/// The draft with the definition of a form at the place.
fn define(
    alloc: Global,
    target: &Target<'_>,
    draft: Draft,
    place: u64,
    form: &Form<'_>,
) -> Result<Draft, TextErr>
    requires entries { length draft.defs.of ≡ length target.now.state.preds }
    requires pairs { IsTrue (are_pairs form.now.params.now) }
    requires room { count_all form.now.params.now + count form.now.body.now < 2 ^ 32 }
    ensures { Tells result (defined target.now draft place (form_seen form.now)) }
{
    let declared = Declared {
        sig: target.sig(),
        symbols: &draft.symbols,
    };
    check_name(alloc, &declared, place, form.name)?;
    let def = read_definition(alloc, &declared, place, form)?;
    let owner = target.owner(form.name);
    place_definition(alloc, target, draft, place, form.name, def, owner)
}

/// The draft with the definition of a tree.
fn define_by(
    alloc: Global,
    target: &Target<'_>,
    draft: Draft,
    tree: &Tree,
) -> Result<Draft, TextErr>
    requires entries { length draft.defs.of ≡ length target.now.state.preds }
    requires room { count tree.now < 2 ^ 32 }
    ensures { Tells result (defined_by target.now draft tree.now (definition_form tree.now)) }
{
    match definition_form(tree) {
        Some(form) => define(alloc, target, draft, place_of(tree), &form),
        None => misfit(alloc, tree),
    }
}

/// The definitions of trees, in a text of that length.
fn read_definitions(
    alloc: Global,
    target: &Target<'_>,
    length: u64,
    trees: &[Tree],
) -> Result<Defs, TextErr>
    requires { count_all trees.now < 2 ^ 32 }
    ensures value { Tells result (definitions target.now length trees.now) }
    ensures defines { IfOk result (λ d. Defines d target.now.state) }
{
    let mut draft = fresh(alloc, target)?;
    for tree in trees {
        draft = define_by(alloc, target, draft, tree)?;
    }
    finish(alloc, target, length, draft)
}

/// The definitions of the trees in a group, behind which these trees stand.
fn read_group(
    alloc: Global,
    target: &Target<'_>,
    length: u64,
    inner: &[Tree],
    more: &[Tree],
) -> Result<Defs, TextErr>
    requires { count_all inner.now < 2 ^ 32 }
    ensures value { Tells result (in_group target.now length inner.now more.now) }
    ensures defines { IfOk result (λ d. Defines d target.now.state) }
{
    check_forms(alloc, inner)?;
    check_end(alloc, more)?;
    read_definitions(alloc, target, length, inner)
}

/// The definitions of the trees behind `sat`.
fn read_behind_sat(
    alloc: Global,
    target: &Target<'_>,
    length: u64,
    trees: &[Tree],
) -> Result<Defs, TextErr>
    requires { count_all trees.now < 2 ^ 32 }
    ensures value { Tells result (behind_sat target.now length trees.now) }
    ensures defines { IfOk result (λ d. Defines d target.now.state) }
{
    match trees {
        [] => fault(alloc, length, Fault::BadForm),
        [group, more @ ..] => match group_of(group) {
            Some(inner) => read_group(alloc, target, length, without_model(inner), more),
            None => misfit(alloc, group),
        },
    }
}

/// The definitions of the trees of a text of that length.
fn read_answer(
    alloc: Global,
    target: &Target<'_>,
    length: u64,
    trees: &[Tree],
) -> Result<Defs, TextErr>
    requires { count_all trees.now < 2 ^ 32 }
    ensures value { Tells result (answer_of target.now length trees.now) }
    ensures defines { IfOk result (λ d. Defines d target.now.state) }
{
    match trees {
        [] => fault(alloc, 0, Fault::NotAnswer),
        [first, more @ ..] => {
            if !is_symbol(first, b"sat") {
                return not_sat(alloc, first);
            }
            read_behind_sat(alloc, target, length, more)
        }
    }
}

/// Reads the definitions that an answer, a text of at most 4,294,967,295 bytes, says for a state. Its script's predicates
/// have these names by number; later ones are helpers, named `goal!` and a number. What is read is readable: it is read
/// again where it is written. Errors: `At` the first fault, of the tokens and groups before those of the definitions;
/// `NoMemory`.
pub fn read_defs(alloc: Global, bytes: &[u8], s: &State, names: &Names) -> Result<Defs, TextErr>
    requires { length bytes.now < 2 ^ 32 }
    ensures reading { IsModelReading s.now names.now bytes.now result }
    ensures defines { IfOk result (λ d. Defines d s.now) }
    ensures readable { IfOk result AreReadable }
{
    first_fault_is_one();
    let trees = read_trees(alloc, bytes)?;
    let all = predicate_names(alloc, s, names.as_slice())?;
    let live = live_by_name(alloc, s.preds(), &all)?;
    let target = Target::new(s, &all, &live);
    read_answer(alloc, &target, bytes.len() as u64, trees.as_slice())
}
