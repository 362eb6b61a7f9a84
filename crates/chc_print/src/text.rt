//! The texts of numbers, sorts, terms and atoms.

ghost use Rattle.std.specs.Prelude.{◌≡◌, ◌+◌, ◌^◌, ◌≤◌, ◌++◌, codes, decimal, map, length, OnOk};
ghost use Rattle.chc_sexpr.specs.Symbols.{symbol_text};
ghost use Rattle.chc_sexpr.specs.Writing.{spaced, joined};
ghost use Rattle.chc_print.specs.Texts.{ctor_name, number_text, truth_text, sort_text, op_text, kind_text, variable_text, binder_text, binder_texts, quantifier_text, opening, closing, term_text, term_texts};

use crate::naming::{Naming, constructor_name, datatype_name, selector_name};
use chc_sexpr::write_symbol;
use chc_sorts::{NoMemory, Op, Sig, Sort};
use chc_source::ByteText;
use chc_terms::{Kind, Term};
use itoa::Buffer;

/// Writes a number in decimal.
fn write_decimal(out: &mut ByteText, n: u128) -> Result<(), NoMemory>
    ensures { OnOk result (out.new ≡ out.old ++ decimal n) }
{
    let mut buffer = Buffer::new();
    out.extend(buffer.format(n).as_bytes())
}

/// Writes a number, a negative one as the minus of its magnitude.
pub fn write_number(out: &mut ByteText, n: i128) -> Result<(), NoMemory>
    ensures { OnOk result (out.new ≡ out.old ++ number_text n) }
{
    if n < 0 {
        out.extend(b"(- ")?;
        write_decimal(out, n.unsigned_abs())?;
        out.push(b')')?;
    } else {
        write_decimal(out, n.unsigned_abs())?;
    }
    Ok(())
}

/// Writes a truth value.
pub fn write_truth(out: &mut ByteText, b: bool) -> Result<(), NoMemory>
    ensures { OnOk result (out.new ≡ out.old ++ truth_text b) }
{
    if b {
        out.extend(b"true")
    } else {
        out.extend(b"false")
    }
}

/// Writes a sort; a datatype by its name in the signature, or the empty name where it has none there. The only error is
/// that memory was refused.
pub fn write_sort(out: &mut ByteText, sig: &Sig, sort: &Sort) -> Result<(), NoMemory>
    ensures { OnOk result (out.new ≡ out.old ++ sort_text sig.now sort.now) }
{
    match sort {
        Sort::Bool => out.extend(b"Bool")?,
        Sort::Int => out.extend(b"Int")?,
        Sort::Data(d) => write_symbol(out, datatype_name(sig, *d))?,
        Sort::Array(element) => {
            out.extend(b"(Array Int ")?;
            write_sort(out, sig, element.get())?;
            out.push(b')')?;
        }
    }
    Ok(())
}

/// Writes sorts, with a space before each.
fn write_more_sorts(out: &mut ByteText, sig: &Sig, sorts: &[Sort]) -> Result<(), NoMemory>
    ensures { OnOk result (out.new ≡ out.old ++ spaced (map (sort_text sig.now) sorts.now)) }
{
    for sort in sorts {
        out.push(b' ')?;
        write_sort(out, sig, sort)?;
    }
    Ok(())
}

/// Writes sorts, with a space between each two.
pub fn write_sorts(out: &mut ByteText, sig: &Sig, sorts: &[Sort]) -> Result<(), NoMemory>
    ensures { OnOk result (out.new ≡ out.old ++ joined (map (sort_text sig.now) sorts.now)) }
{
    match sorts {
        [] => Ok(()),
        [first, rest @ ..] => {
            write_sort(out, sig, first)?;
            write_more_sorts(out, sig, rest)?;
            Ok(())
        }
    }
}

/// Writes the head of a constant array over a sort.
fn write_constant_head(out: &mut ByteText, sig: &Sig, element: &Sort) -> Result<(), NoMemory>
    ensures { OnOk result (out.new ≡ out.old ++ codes "(as const (Array Int " ++ sort_text sig.now element.now ++ codes "))") }
{
    out.extend(b"(as const (Array Int ")?;
    write_sort(out, sig, element)?;
    out.extend(b"))")?;
    Ok(())
}

/// Writes a tester of a constructor.
fn write_tester(out: &mut ByteText, sig: &Sig, d: u32, c: u32) -> Result<(), NoMemory>
    ensures { OnOk result (out.new ≡ out.old ++ codes "(_ is " ++ symbol_text (ctor_name sig.now d c) ++ codes ")") }
{
    out.extend(b"(_ is ")?;
    write_symbol(out, constructor_name(sig, d, c))?;
    out.push(b')')?;
    Ok(())
}

/// Writes an operator.
fn write_op(out: &mut ByteText, sig: &Sig, op: &Op) -> Result<(), NoMemory>
    ensures { OnOk result (out.new ≡ out.old ++ op_text sig.now op.now) }
{
    match op {
        Op::Not => out.extend(b"not"),
        Op::And => out.extend(b"and"),
        Op::Or => out.extend(b"or"),
        Op::Eq => out.extend(b"="),
        Op::Ite => out.extend(b"ite"),
        Op::Add => out.extend(b"+"),
        Op::Sub => out.extend(b"-"),
        Op::Mul => out.extend(b"*"),
        Op::Div => out.extend(b"div"),
        Op::Mod => out.extend(b"mod"),
        Op::Le => out.extend(b"<="),
        Op::Lt => out.extend(b"<"),
        Op::Select => out.extend(b"select"),
        Op::Store => out.extend(b"store"),
        Op::Const(element) => write_constant_head(out, sig, element),
        Op::Make(d, c) => write_symbol(out, constructor_name(sig, *d, *c)),
        Op::Get(d, c, i) => write_symbol(out, selector_name(sig, *d, *c, *i)),
        Op::Is(d, c) => write_tester(out, sig, *d, *c),
    }
}

/// Writes a variable.
fn write_variable(out: &mut ByteText, names: &Naming, i: u128) -> Result<(), NoMemory>
    ensures { OnOk result (out.new ≡ out.old ++ variable_text names.now i) }
{
    out.extend(names.variable_prefix())?;
    write_decimal(out, i)?;
    Ok(())
}

/// Writes the binder of a variable.
fn write_binder(out: &mut ByteText, names: &Naming, i: u128, sort: &Sort) -> Result<(), NoMemory>
    ensures { OnOk result (out.new ≡ out.old ++ binder_text names.now i sort.now) }
{
    out.push(b'(')?;
    write_variable(out, names, i)?;
    out.push(b' ')?;
    write_sort(out, names.signature(), sort)?;
    out.push(b')')?;
    Ok(())
}

/// The number `count` after `i`. At most 2^32 variables aren't bound in the text, and of each other one the text has a
/// binder, so the sum fits.
fn number_after(out: &ByteText, i: u128, count: usize) -> u128
    requires { i + count ≤ length out.now + 2 ^ 32 }
    ensures { result ≡ i + count }
{
    let _bytes = out.len();
    i + count as u128
}

/// Writes the binders of variables from the number `from` on, with a space before each.
fn write_more_binders(
    out: &mut ByteText,
    names: &Naming,
    from: u128,
    sorts: &[Sort],
) -> Result<(), NoMemory>
    requires { from ≤ length out.old + 2 ^ 32 }
    ensures { OnOk result (out.new ≡ out.old ++ spaced (binder_texts names.now from sorts.now)) }
{
    let mut i = from;
    for sort in sorts {
        out.push(b' ')?;
        write_binder(out, names, i, sort)?;
        i = number_after(out, i, 1);
    }
    Ok(())
}

/// Writes the binders of variables of these sorts, numbered from `from` on, with a space between each two. The text
/// grows by a byte at least for each. The only error is that memory was refused.
pub fn write_binders(
    out: &mut ByteText,
    names: &Naming,
    from: u128,
    sorts: &[Sort],
) -> Result<(), NoMemory>
    requires { from ≤ length out.old + 2 ^ 32 }
    ensures text { OnOk result (out.new ≡ out.old ++ joined (binder_texts names.now from sorts.now)) }
    ensures room { OnOk result (length out.old + length sorts.now ≤ length out.new) }
{
    write_binder_texts(out, names, from, sorts)?;
    Ok(())
}

/// Writes binders, with a space between each two.
fn write_binder_texts(
    out: &mut ByteText,
    names: &Naming,
    from: u128,
    sorts: &[Sort],
) -> Result<(), NoMemory>
    requires { from ≤ length out.old + 2 ^ 32 }
    ensures { OnOk result (out.new ≡ out.old ++ joined (binder_texts names.now from sorts.now)) }
{
    match sorts {
        [] => Ok(()),
        [first, rest @ ..] => {
            write_binder(out, names, from, first)?;
            let next = number_after(out, from, 1);
            write_more_binders(out, names, next, rest)?;
            Ok(())
        }
    }
}

/// Writes the word of a quantifier.
fn write_kind(out: &mut ByteText, kind: Kind) -> Result<(), NoMemory>
    ensures { OnOk result (out.new ≡ out.old ++ kind_text kind) }
{
    match kind {
        Kind::Forall => out.extend(b"forall"),
        Kind::Exists => out.extend(b"exists"),
    }
}

/// Writes the beginning of a quantifier that binds variables from the number `from` on. The text grows by a byte at least
/// for each.
pub fn write_quantifier(
    out: &mut ByteText,
    names: &Naming,
    kind: Kind,
    from: u128,
    sorts: &[Sort],
) -> Result<(), NoMemory>
    requires { from ≤ length out.old + 2 ^ 32 }
    ensures text { OnOk result (out.new ≡ out.old ++ quantifier_text names.now kind from sorts.now) }
    ensures room { OnOk result (length out.old + length sorts.now ≤ length out.new) }
{
    write_quantifier_text(out, names, kind, from, sorts)?;
    Ok(())
}

/// Writes the parts of the beginning of a quantifier.
fn write_quantifier_text(
    out: &mut ByteText,
    names: &Naming,
    kind: Kind,
    from: u128,
    sorts: &[Sort],
) -> Result<(), NoMemory>
    requires { from ≤ length out.old + 2 ^ 32 }
    ensures { OnOk result (out.new ≡ out.old ++ quantifier_text names.now kind from sorts.now) }
{
    out.push(b'(')?;
    write_kind(out, kind)?;
    out.extend(b" (")?;
    write_binders(out, names, from, sorts)?;
    out.extend(b") ")?;
    Ok(())
}

/// Writes the parenthesis that stands before a head with these arguments, if any.
pub fn write_opening<T>(out: &mut ByteText, arguments: &[T]) -> Result<(), NoMemory>
    ensures { OnOk result (out.new ≡ out.old ++ opening arguments.now) }
{
    match arguments {
        [] => Ok(()),
        [_, ..] => out.push(b'('),
    }
}

/// Writes the parenthesis that stands after these arguments, if any.
pub fn write_closing<T>(out: &mut ByteText, arguments: &[T]) -> Result<(), NoMemory>
    ensures { OnOk result (out.new ≡ out.old ++ closing arguments.now) }
{
    match arguments {
        [] => Ok(()),
        [_, ..] => out.push(b')'),
    }
}

/// Writes a term that stands under so many variables; a quantifier in it binds the next numbers. All but 2^32 of the
/// variables have their binders in the text. The only error is that memory was refused.
#[cycle(terms)]
pub fn write_term(
    out: &mut ByteText,
    names: &Naming,
    term: &Term,
    under: u128,
) -> Result<(), NoMemory>
    requires { under ≤ length out.old + 2 ^ 32 }
    ensures { OnOk result (out.new ≡ out.old ++ term_text names.now term.now under) }
{
    match term {
        Term::Var(i) => write_variable(out, names, u128::from(*i))?,
        Term::Num(n) => write_number(out, *n)?,
        Term::Lit(b) => write_truth(out, *b)?,
        Term::App(op, arguments) => {
            write_opening(out, arguments.as_slice())?;
            write_op(out, names.signature(), op)?;
            write_arguments(out, names, arguments.as_slice(), under)?;
        }
        Term::Pred(p, arguments) => {
            write_opening(out, arguments.as_slice())?;
            write_symbol(out, names.pred_name(*p as usize))?;
            write_arguments(out, names, arguments.as_slice(), under)?;
        }
        Term::Quant(kind, sorts, body) => {
            write_quantifier(out, names, *kind, under, sorts.as_slice())?;
            let inner = number_after(out, under, sorts.len());
            write_term(out, names, body.get(), inner)?;
            out.push(b')')?;
        }
        Term::Call(k, arguments) => {
            write_opening(out, arguments.as_slice())?;
            write_symbol(out, names.call_name(*k as usize))?;
            write_arguments(out, names, arguments.as_slice(), under)?;
        }
    }
    Ok(())
}

/// Writes terms, with a space before each.
#[cycle(terms)]
pub fn write_terms(
    out: &mut ByteText,
    names: &Naming,
    terms: &[Term],
    under: u128,
) -> Result<(), NoMemory>
    requires { under ≤ length out.old + 2 ^ 32 }
    ensures { OnOk result (out.new ≡ out.old ++ spaced (term_texts names.now under terms.now)) }
{
    for term in terms {
        out.push(b' ')?;
        write_term(out, names, term, under)?;
    }
    Ok(())
}

/// Writes arguments, with a space before each and a parenthesis at the end where there are any.
#[cycle(terms)]
pub fn write_arguments(
    out: &mut ByteText,
    names: &Naming,
    arguments: &[Term],
    under: u128,
) -> Result<(), NoMemory>
    requires { under ≤ length out.old + 2 ^ 32 }
    ensures { OnOk result (out.new ≡ out.old ++ spaced (term_texts names.now under arguments.now) ++ closing arguments.now) }
{
    write_terms(out, names, arguments, under)?;
    write_closing(out, arguments)?;
    Ok(())
}
