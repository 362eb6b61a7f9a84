//! Whole scripts from bytes.

ghost use Rattle.std.specs.Prelude.{◌≡◌, ◌<◌, ◌^◌, length, IfOk, IsTrue};
ghost use Rattle.chc_sexpr.specs.declared.tree.Tree.{out-Tree};
ghost use Rattle.chc_sexpr.specs.Counts.{count, count_all};
ghost use Rattle.chc_sexpr.specs.Shapes.{form_of};
ghost use Rattle.chc_elab.specs.Sites.{Tells};
ghost use Rattle.chc_elab.specs.SortTrees.{place_at};
ghost use Rattle.chc_state.specs.Names.{AreNamesOf};
ghost use Rattle.chc_script.specs.Assertions.{KeepsAssertions};
ghost use Rattle.chc_script.specs.Drafted.{SaysScript};
ghost use Rattle.chc_script.specs.Spellable.{are_spellable, is_spellable};
ghost use Rattle.chc_script.specs.WholeScripts.{IsScriptReading, IsSound, after_check, at_end, command, command_at, command_named, declaring, going_on, is_ignored, may_follow, script_of, unfinished};

use crate::script::Script;
use crate::whole::assertion::assert;
use crate::whole::command::{
    check_sat, declare_const, declare_datatype, declare_datatypes, declare_fun, set_logic, unknown,
};
use crate::whole::draft::Draft;
use crate::whole::progress::Progress;
use chc_elab::{fault, place_of};
use chc_sexpr::{Fault, TextErr, Tree, first_fault_is_one, form_of, read_trees};
use std::alloc::Global;

/// Whether a command of that name has no effect.
fn is_ignored(name: &[u8]) -> bool
    ensures { result ≡ is_ignored name.now }
{
    name == b"set-info".as_slice() || name == b"set-option".as_slice()
}

/// A command that declares something, or an unknown one.
fn declaring(
    alloc: Global,
    draft: Draft,
    place: u64,
    name: &[u8],
    args: &[Tree],
) -> Result<Draft, TextErr>
    requires { IsTrue (are_spellable args.now) }
    ensures { Tells result (declaring draft place name.now args.now) }
{
    if name == b"declare-fun".as_slice() {
        return declare_fun(alloc, draft, place, args);
    }
    if name == b"declare-const".as_slice() {
        return declare_const(alloc, draft, place, args);
    }
    if name == b"declare-datatypes".as_slice() {
        return declare_datatypes(alloc, draft, place, args);
    }
    if name == b"declare-datatype".as_slice() {
        return declare_datatype(alloc, draft, place, args);
    }
    unknown(alloc, draft, place, name)
}

/// A command other than `check-sat`.
fn going_on(
    alloc: Global,
    draft: Draft,
    place: u64,
    name: &[u8],
    args: &[Tree],
) -> Result<Draft, TextErr>
    requires few { count_all args.now < 2 ^ 32 }
    requires spellable { IsTrue (are_spellable args.now) }
    ensures { Tells result (going_on draft place name.now args.now) }
{
    if is_ignored(name) {
        return Ok(draft);
    }
    if name == b"set-logic".as_slice() {
        return set_logic(alloc, draft, place, args);
    }
    if name == b"assert".as_slice() {
        return assert(alloc, draft, place, args);
    }
    declaring(alloc, draft, place, name, args)
}

/// The command of that name on a draft.
fn command_named(
    alloc: Global,
    draft: Draft,
    place: u64,
    name: &[u8],
    args: &[Tree],
) -> Result<Progress, TextErr>
    requires few { count_all args.now < 2 ^ 32 }
    requires spellable { IsTrue (are_spellable args.now) }
    ensures value { Tells result (command_named draft place name.now args.now) }
    ensures sound { IfOk result IsSound }
{
    if name == b"check-sat".as_slice() {
        let script = check_sat(alloc, draft, place, args)?;
        return Ok(Progress::Ended(script));
    }
    let draft = going_on(alloc, draft, place, name, args)?;
    Ok(Progress::Going(draft))
}

/// The command of a tree on a draft.
fn command_of(alloc: Global, draft: Draft, tree: &Tree) -> Result<Progress, TextErr>
    requires few { count tree.now < 2 ^ 32 }
    requires spellable { IsTrue (is_spellable tree.now) }
    ensures value { Tells result (command_at draft (place_at (out-Tree tree.now)) (form_of tree.now)) }
    ensures sound { IfOk result IsSound }
{
    match form_of(tree) {
        Some((name, args)) => command_named(alloc, draft, place_of(tree), name, args),
        None => fault(alloc, place_of(tree), Fault::BadCommand),
    }
}

/// Whether the tree may stand behind `(check-sat)`.
fn may_follow(tree: &Tree) -> bool
    ensures { result ≡ may_follow (form_of tree.now) }
{
    match form_of(tree) {
        Some((name, _)) => {
            name == b"exit".as_slice()
                || name == b"get-model".as_slice()
                || name == b"get-proof".as_slice()
                || name == b"set-info".as_slice()
        }
        None => false,
    }
}

/// A tree behind `(check-sat)`.
fn after_check(alloc: Global, script: Script, tree: &Tree) -> Result<Progress, TextErr>
    requires says { SaysScript script }
    requires names { AreNamesOf script.state script.names }
    requires keeps { KeepsAssertions script }
    ensures value { Tells result (after_check script (place_at (out-Tree tree.now)) tree.now) }
    ensures sound { IfOk result IsSound }
{
    if may_follow(tree) {
        return Ok(Progress::Ended(script));
    }
    fault(alloc, place_of(tree), Fault::AfterCheck)
}

/// The next tree.
fn command(alloc: Global, progress: Progress, tree: &Tree) -> Result<Progress, TextErr>
    requires few { count tree.now < 2 ^ 32 }
    requires spellable { IsTrue (is_spellable tree.now) }
    requires sound { IsSound progress }
    ensures value { Tells result (command progress tree.now) }
    ensures sound { IfOk result IsSound }
{
    match progress {
        Progress::Going(draft) => command_of(alloc, draft, tree),
        Progress::Ended(script) => after_check(alloc, script, tree),
    }
}

/// The end of the text.
fn finish(alloc: Global, progress: Progress, place: u64) -> Result<Script, TextErr>
    requires { IsSound progress }
    ensures value { Tells result (at_end place progress) }
    ensures says { IfOk result SaysScript }
    ensures names { IfOk result (λ X. AreNamesOf X.state X.names) }
    ensures keeps { IfOk result KeepsAssertions }
{
    match progress {
        Progress::Going(draft) => unfinished(alloc, draft, place),
        Progress::Ended(script) => Ok(script),
    }
}

/// The fault of a text that ends without `(check-sat)`.
fn unfinished(alloc: Global, draft: Draft, place: u64) -> Result<Script, TextErr>
    ensures { Tells result (unfinished draft place) }
{
    draft.check_logic(alloc, place)?;
    fault(alloc, place, Fault::NoCheck)
}

/// The script for which trees stand, of a text of that length.
fn read_commands(alloc: Global, trees: &[Tree], length: u64) -> Result<Script, TextErr>
    requires few { count_all trees.now < 2 ^ 32 }
    requires spellable { IsTrue (are_spellable trees.now) }
    ensures value { Tells result (script_of trees.now length) }
    ensures says { IfOk result SaysScript }
    ensures names { IfOk result (λ X. AreNamesOf X.state X.names) }
    ensures keeps { IfOk result KeepsAssertions }
{
    let mut progress = Progress::Going(Draft::new(alloc));
    for tree in trees {
        progress = command(alloc, progress, tree)?;
    }
    finish(alloc, progress, length)
}

/// Reads a script, a text of at most 4,294,967,295 bytes. Gives the script for which the bytes stand: each of its assertions
/// is well sorted and says the clause of its number, and the names are those of its predicates. Errors: `At` the first fault,
/// of the tokens and groups before those of the commands; `NoMemory`.
pub fn read_script(alloc: Global, bytes: &[u8]) -> Result<Script, TextErr>
    requires { length bytes.now < 2 ^ 32 }
    ensures reading { IsScriptReading bytes.now result }
    ensures says { IfOk result SaysScript }
    ensures names { IfOk result (λ X. AreNamesOf X.state X.names) }
    ensures assertions { IfOk result KeepsAssertions }
{
    first_fault_is_one();
    let trees = read_trees(alloc, bytes)?;
    read_commands(alloc, trees.as_slice(), bytes.len() as u64)
}
