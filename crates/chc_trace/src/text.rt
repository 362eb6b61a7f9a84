//! The text of a trace.

ghost use Rattle.std.specs.Prelude.{◌≡◌, ◌++◌, [], ◌∷◌, codes, decimal, map, OnOk, IfOk};
ghost use Rattle.std.specs.List.{concat, All};
ghost use Rattle.hex.specs.Hex.{encode_lower};
ghost use Rattle.chc_sexpr.specs.Spelling.{in_string, string_of};
ghost use Rattle.chc_sexpr.specs.Writing.{spaced};
ghost use Rattle.chc_trace.specs.Numbers.{AreSmall};
ghost use Rattle.chc_trace.specs.Kinds.{HasSmallNumbers};
ghost use Rattle.chc_trace.specs.Traces.{line, source_tree, step_tree, target_tree, trace_lines, IsDigest, IsReadAs, SaysTrace};

use crate::kind::{word_of, write_parts};
use crate::trace::Trace;
use chc_sorts::{List, NoMemory};
use chc_source::ByteText;
use chc_state::Step;
use itoa::Buffer;
use std::alloc::Global;

/// Writes a number in decimal, with a space before it.
fn write_number(out: &mut ByteText, n: u32) -> Result<(), NoMemory>
    ensures { OnOk result (out.new ≡ out.old ++ codes " " ++ decimal n) }
{
    let mut buffer = Buffer::new();
    out.push(b' ')?;
    out.extend(buffer.format(n).as_bytes())?;
    Ok(())
}

/// Writes numbers in decimal, with a space before each.
pub fn write_numbers(out: &mut ByteText, numbers: &[u32]) -> Result<(), NoMemory>
    ensures text { OnOk result (out.new ≡ out.old ++ spaced (map decimal numbers.now)) }
    ensures small { OnOk result (AreSmall numbers.now) }
{
    for n in numbers {
        write_number(out, *n)?;
    }
    Ok(())
}

/// Writes the line of a step.
fn write_step(out: &mut ByteText, step: &Step) -> Result<(), NoMemory>
    ensures text { OnOk result (out.new ≡ out.old ++ line (step_tree step.now)) }
    ensures small { OnOk result (HasSmallNumbers step.now) }
{
    out.extend(b"(step ")?;
    out.extend(word_of(step))?;
    write_parts(out, step)?;
    out.extend(b")\n")?;
    Ok(())
}

/// Writes the lines of the steps.
fn write_steps(out: &mut ByteText, steps: &[Step]) -> Result<(), NoMemory>
    ensures text { OnOk result (out.new ≡ out.old ++ concat (map (λ x. line (step_tree x)) steps.now)) }
    ensures small { OnOk result (All HasSmallNumbers steps.now) }
{
    for step in steps {
        write_step(out, step)?;
    }
    Ok(())
}

/// Writes a byte of a string; a quote is written twice.
fn write_byte(out: &mut ByteText, b: u8) -> Result<(), NoMemory>
    ensures { OnOk result (out.new ≡ out.old ++ in_string b) }
{
    if b == b'"' {
        out.push(b)?;
    }
    out.push(b)?;
    Ok(())
}

/// Writes the bytes of a string, between which no quotes stand but doubled ones.
fn write_bytes(out: &mut ByteText, bytes: &[u8]) -> Result<(), NoMemory>
    ensures { OnOk result (out.new ≡ out.old ++ concat (map in_string bytes.now)) }
{
    for b in bytes {
        write_byte(out, *b)?;
    }
    Ok(())
}

/// Writes the string of the bytes.
fn write_string(out: &mut ByteText, bytes: &[u8]) -> Result<(), NoMemory>
    ensures { OnOk result (out.new ≡ out.old ++ string_of bytes.now) }
{
    out.push(b'"')?;
    write_bytes(out, bytes)?;
    out.push(b'"')?;
    Ok(())
}

/// The digits of a digest in hexadecimal, lower case.
pub fn hex_digits(digest: &[u8; 32]) -> [u8; 64]
    ensures { result ≡ encode_lower digest.now }
{
    let mut digits = [0u8; 64];
    match hex::encode_to_slice(digest.as_slice(), digits.as_mut_slice()) {
        Ok(()) => digits,
        Err(_) => unreachable!(),
    }
}

/// Writes the line of the source's digest.
fn write_source(out: &mut ByteText, source: &[u8; 32]) -> Result<(), NoMemory>
    ensures digest { OnOk result (IsDigest source.now) }
    ensures text { OnOk result (out.new ≡ out.old ++ line (source_tree source.now)) }
{
    let digits = hex_digits(source);
    out.extend(b"(source ")?;
    write_string(out, digits.as_slice())?;
    out.extend(b")\n")?;
    Ok(())
}

/// Writes the line of the text that the steps lead to.
fn write_target(out: &mut ByteText, target: &[u8]) -> Result<(), NoMemory>
    ensures { OnOk result (out.new ≡ out.old ++ line (target_tree target.now)) }
{
    out.extend(b"(target ")?;
    write_string(out, target)?;
    out.extend(b")\n")?;
    Ok(())
}

/// The text of a trace, which says that trace, so that `read_trace` reads it again. The only error is that memory was refused.
pub fn trace_text(alloc: Global, t: &Trace) -> Result<ByteText, NoMemory>
    ensures lines { IfOk result (λ text. text ≡ trace_lines t.now) }
    ensures says { IfOk result (λ text. SaysTrace text t.now) }
    ensures again { IfOk result (λ text. IsReadAs text t.now) }
{
    let mut out = ByteText::new(alloc);
    out.extend(b"(chc-trace 1)\n")?;
    write_source(&mut out, &t.source)?;
    write_steps(&mut out, t.steps.as_slice())?;
    write_target(&mut out, t.target.bytes())?;
    Ok(out)
}
