//! The texts of definitions.

ghost use Rattle.std.specs.Prelude.{◌≡◌, ◌^◌, ◌<◌, ℕ, List, Ok, ◌≤◌, ◌++◌, length, IfOk, OnOk};
ghost use Rattle.chc_state.specs.Definitions.{Defines};
ghost use Rattle.chc_state.specs.Names.{AreNamesOf};
ghost use Rattle.ans_model.specs.Answers.{Says};
ghost use Rattle.ans_model.specs.Readable.{AreReadable};
ghost use Rattle.ans_model.specs.Texts.{IsDefsText, definition_text, definitions_text, lines_of_defs, signature_text};
ghost use Rattle.ans_model.specs.Unlimited.{CanBeSpelled, SaysUnlimited};

use crate::owners::definition_names;
use chc_print::{Naming, predicate_names, variable_prefix, write_binders, write_sort, write_term};
use chc_sexpr::write_symbol;
use chc_sorts::NoMemory;
use chc_source::ByteText;
use chc_state::{Def, Defs, Names, State};
use std::alloc::Global;
use term_again::{
    binders_hold_theirs, signatures_are_fresh, texts_hold_bound, written_terms_are_near,
};

/// Writes the definition of a name up to its body.
fn write_signature(out: &mut ByteText, names: &Naming, name: &[u8], d: &Def) -> Result<(), NoMemory>
    ensures text { OnOk result (out.new ≡ out.old ++ signature_text names.now name.now d.now) }
    ensures room { OnOk result (length d.now.params ≤ length out.new) }
{
    out.extend(b"(define-fun ")?;
    write_symbol(out, name)?;
    out.extend(b" (")?;
    write_binders(out, names, 0, d.params.as_slice())?;
    out.extend(b") ")?;
    write_sort(out, names.signature(), &d.result)?;
    out.push(b' ')?;
    Ok(())
}

/// Writes the line of the definition of a name.
fn write_definition(
    out: &mut ByteText,
    names: &Naming,
    name: &[u8],
    d: &Def,
) -> Result<(), NoMemory>
    ensures { OnOk result (out.new ≡ out.old ++ definition_text names.now name.now d.now) }
{
    write_signature(out, names, name, d)?;
    write_term(out, names, &d.body, d.params.len() as u128)?;
    out.extend(b")\n")?;
    Ok(())
}

/// Writes the lines of definitions.
fn write_definitions(out: &mut ByteText, names: &Naming, defs: &[Def]) -> Result<(), NoMemory>
    ensures { OnOk result (out.new ≡ out.old ++ definitions_text names.now 0 defs.now) }
{
    for (k, d) in defs.iter().enumerate() {
        write_definition(out, names, names.call_name(k), d)?;
    }
    Ok(())
}

/// The text of definitions, with the names given. It is no longer than a number of bytes can say.
fn text_of(alloc: Global, names: &Naming, defs: &[Def]) -> Result<ByteText, NoMemory>
    ensures lines { IfOk result (λ text. text ≡ lines_of_defs names.now defs.now) }
    ensures short { IfOk result (λ text. length text < 2 ^ 64) }
{
    let mut out = ByteText::new(alloc);
    out.extend(b"sat\n(\n")?;
    write_definitions(&mut out, names, defs)?;
    out.extend(b")\n")?;
    Ok(out)
}

/// The text of definitions for a state.
fn text_for(alloc: Global, d: &Defs, s: &State, names: &Names) -> Result<ByteText, NoMemory>
    requires { Defines d.now s.now }
    ensures text { IfOk result (IsDefsText d.now s.now names.now) }
    ensures short { IfOk result (λ text. length text < 2 ^ 64) }
{
    let prefix = variable_prefix(alloc, s.sig(), names.as_slice())?;
    let preds = predicate_names(alloc, s, names.as_slice())?;
    let calls = definition_names(alloc, d, s, names.as_slice(), preds.as_slice())?;
    let naming = Naming {
        sig: s.sig(),
        preds: &preds,
        calls: &calls,
        prefix: prefix.bytes(),
    };
    text_of(alloc, &naming, d.list.as_slice())
}

/// The text of definitions for a state, in which these are the names of the script's predicates by number: `sat`, `(`, the
/// definitions, `)`, each on a line of its own. A predicate's definition has its name, and any other one `lift!` and a
/// number. Variables and helpers are named as in the text of the state's script. It is the only such text. Where the names
/// can be those of the state's predicates and the definitions are readable, it is read again as them; where their trees
/// can be spelled, it says them whatever their sizes and number. The only error is that memory was refused.
pub fn defs_text(alloc: Global, d: &Defs, s: &State, names: &Names) -> Result<ByteText, NoMemory>
    requires { Defines d.now s.now }
    ensures text { IfOk result (IsDefsText d.now s.now names.now) }
    ensures only { IfOk result (λ text. (other : List ℕ) → IsDefsText d.now s.now names.now other → other ≡ text) }
    ensures again { IfOk result (λ text. AreNamesOf s.now names.now → AreReadable d.now → length text < 2 ^ 32 → Says s.now names.now text (Ok d.now)) }
    ensures free { IfOk result (λ text. AreNamesOf s.now names.now → CanBeSpelled d.now → SaysUnlimited s.now names.now text d.now) }
{
    signatures_are_fresh();
    written_terms_are_near();
    texts_hold_bound();
    binders_hold_theirs();
    s.sig().made_of_groups();
    let text = text_for(alloc, d, s, names)?;
    Ok(text)
}
