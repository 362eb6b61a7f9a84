//! The lines that declare datatypes.

ghost use Rattle.std.specs.Prelude.{◌≡◌, ◌<◌, ◌++◌, map, take, drop, OnOk};
ghost use Rattle.chc_sexpr.specs.Writing.{spaced, joined};
ghost use Rattle.chc_print.specs.Datatypes.{field_text, ctor_text, ctors_text, arity_text, group_text, groups_text};

use crate::text::write_sort;
use chc_sexpr::write_symbol;
use chc_sorts::{Ctor, Data, Field, NoMemory, Sig};
use chc_source::ByteText;

/// Writes a selector with its field's sort.
fn write_field(out: &mut ByteText, sig: &Sig, field: &Field) -> Result<(), NoMemory>
    ensures { OnOk result (out.new ≡ out.old ++ field_text sig.now field.now) }
{
    out.push(b'(')?;
    write_symbol(out, field.name.as_slice())?;
    out.push(b' ')?;
    write_sort(out, sig, &field.sort)?;
    out.push(b')')?;
    Ok(())
}

/// Writes fields, with a space before each.
fn write_fields(out: &mut ByteText, sig: &Sig, fields: &[Field]) -> Result<(), NoMemory>
    ensures { OnOk result (out.new ≡ out.old ++ spaced (map (field_text sig.now) fields.now)) }
{
    for field in fields {
        out.push(b' ')?;
        write_field(out, sig, field)?;
    }
    Ok(())
}

/// Writes a constructor with its fields.
fn write_ctor(out: &mut ByteText, sig: &Sig, ctor: &Ctor) -> Result<(), NoMemory>
    ensures { OnOk result (out.new ≡ out.old ++ ctor_text sig.now ctor.now) }
{
    out.push(b'(')?;
    write_symbol(out, ctor.name.as_slice())?;
    write_fields(out, sig, ctor.fields.as_slice())?;
    out.push(b')')?;
    Ok(())
}

/// Writes constructors, with a space before each.
fn write_more_ctors(out: &mut ByteText, sig: &Sig, ctors: &[Ctor]) -> Result<(), NoMemory>
    ensures { OnOk result (out.new ≡ out.old ++ spaced (map (ctor_text sig.now) ctors.now)) }
{
    for ctor in ctors {
        out.push(b' ')?;
        write_ctor(out, sig, ctor)?;
    }
    Ok(())
}

/// Writes constructors, with a space between each two.
fn write_ctors(out: &mut ByteText, sig: &Sig, ctors: &[Ctor]) -> Result<(), NoMemory>
    ensures { OnOk result (out.new ≡ out.old ++ joined (map (ctor_text sig.now) ctors.now)) }
{
    match ctors {
        [] => Ok(()),
        [first, rest @ ..] => {
            write_ctor(out, sig, first)?;
            write_more_ctors(out, sig, rest)?;
            Ok(())
        }
    }
}

/// Writes the constructors of a datatype.
fn write_ctors_of(out: &mut ByteText, sig: &Sig, datatype: &Data) -> Result<(), NoMemory>
    ensures { OnOk result (out.new ≡ out.old ++ ctors_text sig.now datatype.now) }
{
    out.push(b'(')?;
    write_ctors(out, sig, datatype.ctors.as_slice())?;
    out.push(b')')?;
    Ok(())
}

/// Writes the constructors of datatypes, with a space before each datatype's.
fn write_more_ctors_of(out: &mut ByteText, sig: &Sig, group: &[Data]) -> Result<(), NoMemory>
    ensures { OnOk result (out.new ≡ out.old ++ spaced (map (ctors_text sig.now) group.now)) }
{
    for datatype in group {
        out.push(b' ')?;
        write_ctors_of(out, sig, datatype)?;
    }
    Ok(())
}

/// Writes the constructors of datatypes, with a space between those of each two.
fn write_all_ctors_of(out: &mut ByteText, sig: &Sig, group: &[Data]) -> Result<(), NoMemory>
    ensures { OnOk result (out.new ≡ out.old ++ joined (map (ctors_text sig.now) group.now)) }
{
    match group {
        [] => Ok(()),
        [first, rest @ ..] => {
            write_ctors_of(out, sig, first)?;
            write_more_ctors_of(out, sig, rest)?;
            Ok(())
        }
    }
}

/// Writes the name of a datatype, which has no parameters.
fn write_arity(out: &mut ByteText, datatype: &Data) -> Result<(), NoMemory>
    ensures { OnOk result (out.new ≡ out.old ++ arity_text datatype.now) }
{
    out.push(b'(')?;
    write_symbol(out, datatype.name.as_slice())?;
    out.extend(b" 0)")?;
    Ok(())
}

/// Writes the names of datatypes, with a space before each.
fn write_more_arities(out: &mut ByteText, group: &[Data]) -> Result<(), NoMemory>
    ensures { OnOk result (out.new ≡ out.old ++ spaced (map arity_text group.now)) }
{
    for datatype in group {
        out.push(b' ')?;
        write_arity(out, datatype)?;
    }
    Ok(())
}

/// Writes the names of datatypes, with a space between each two.
fn write_arities(out: &mut ByteText, group: &[Data]) -> Result<(), NoMemory>
    ensures { OnOk result (out.new ≡ out.old ++ joined (map arity_text group.now)) }
{
    match group {
        [] => Ok(()),
        [first, rest @ ..] => {
            write_arity(out, first)?;
            write_more_arities(out, rest)?;
            Ok(())
        }
    }
}

/// Writes the line of a group.
fn write_group(out: &mut ByteText, sig: &Sig, group: &[Data]) -> Result<(), NoMemory>
    ensures { OnOk result (out.new ≡ out.old ++ group_text sig.now group.now) }
{
    out.extend(b"(declare-datatypes (")?;
    write_arities(out, group)?;
    out.extend(b") (")?;
    write_all_ctors_of(out, sig, group)?;
    out.extend(b"))\n")?;
    Ok(())
}

/// So many datatypes from that number on, or as many as there are.
fn group_at(sig: &Sig, from: usize, size: usize) -> &[Data]
    ensures { result.now ≡ take size (drop from sig.now.datatypes) }
{
    let all = sig.datatypes().as_slice();
    let rest = &all[from.min(all.len())..];
    &rest[..size.min(rest.len())]
}

/// Writes the lines of the groups up to the last one that the reach goes into.
pub fn write_groups(out: &mut ByteText, sig: &Sig, reach: u64) -> Result<(), NoMemory>
    ensures { OnOk result (out.new ≡ out.old ++ groups_text sig.now reach 0 sig.now.groups) }
{
    let mut from: u128 = 0;
    for size in sig.groups().as_slice() {
        if from >= u128::from(reach) {
            return Ok(());
        }
        write_group(out, sig, group_at(sig, from as usize, *size as usize))?;
        from += u128::from(*size);
    }
    Ok(())
}
