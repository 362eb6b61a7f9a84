//! Names and operators, both ways.

use crate::{NoMemory, OPS, Op, OpRow, Sort, name_of, names_of_operators_differ, op_by_name};
use std::alloc::Global;
use std::test::Fail;

/// The two sides of a row, without the space between them.
fn sides(row: &[u8]) -> Option<(&[u8], &[u8])> {
    for at in 0..row.len() {
        if row[at] == b' ' {
            return match &row[at..] {
                [_, told @ ..] => Some((&row[..at], told)),
                [] => None,
            };
        }
    }
    None
}

/// Whether the name is read as an operator that is shown so.
fn is_read_as(alloc: Global, name: &[u8], told: &[u8]) -> Result<bool, NoMemory> {
    let shown = match op_by_name(name) {
        Some(op) => format!(in alloc; "{op:?}")?,
        None => format!(in alloc; "None")?,
    };
    Ok(shown.as_bytes() == told)
}

/// Whether the name of a row is read as the row says.
fn is_read(alloc: Global, row: &[u8]) -> Result<bool, NoMemory> {
    match sides(row) {
        Some((name, told)) => is_read_as(alloc, name, told),
        None => Ok(false),
    }
}

#[test]
fn names_are_read(rt: HostRuntime) -> Result<(), Fail> {
    let rows = [
        b"not Not".as_slice(),
        b"=> Implies",
        b"and And",
        b"or Or",
        b"xor Xor",
        b"= Eq",
        b"distinct Distinct",
        b"ite Ite",
        b"- Sub",
        b"+ Add",
        b"* Mul",
        b"div Div",
        b"mod Mod",
        b"abs Abs",
        b"<= Le",
        b"< Lt",
        b">= Ge",
        b"> Gt",
        b"select Select",
        b"store Store",
        b"And None",
        b" None",
        b"! None",
    ];
    for (i, row) in rows.iter().enumerate() {
        assert!(rt; is_read(rt.alloc(), row)?, "{i}");
    }
    Ok(())
}

/// Whether the operator has this name, or none.
fn is_written(op: Op, name: Option<&'static [u8]>) -> bool {
    name_of(&op) == name
}

#[test]
fn operators_are_written(rt: HostRuntime) -> Result<(), Fail> {
    assert!(rt; is_written(Op::Not, Some(b"not")));
    assert!(rt; is_written(Op::And, Some(b"and")));
    assert!(rt; is_written(Op::Or, Some(b"or")));
    assert!(rt; is_written(Op::Eq, Some(b"=")));
    assert!(rt; is_written(Op::Ite, Some(b"ite")));
    assert!(rt; is_written(Op::Add, Some(b"+")));
    assert!(rt; is_written(Op::Sub, Some(b"-")));
    assert!(rt; is_written(Op::Mul, Some(b"*")));
    assert!(rt; is_written(Op::Div, Some(b"div")));
    assert!(rt; is_written(Op::Mod, Some(b"mod")));
    assert!(rt; is_written(Op::Le, Some(b"<=")));
    assert!(rt; is_written(Op::Lt, Some(b"<")));
    assert!(rt; is_written(Op::Select, Some(b"select")));
    assert!(rt; is_written(Op::Store, Some(b"store")));
    assert!(rt; is_written(Op::Const(Sort::Int), None));
    assert!(rt; is_written(Op::Make(0, 0), None));
    assert!(rt; is_written(Op::Get(0, 0, 0), None));
    assert!(rt; is_written(Op::Is(0, 0), None));
    Ok(())
}

/// Whether the row's operator stands at its own place, and its name is read as the operator.
fn is_in_order(row: &OpRow, place: usize) -> bool {
    row.op as u8 as usize == place && op_by_name(row.name) == Some(row.op)
}

/// Calls the law once.
fn take_the_law() {
    names_of_operators_differ();
}

#[test]
fn rows_stand_in_order(rt: HostRuntime) -> Result<(), Fail> {
    take_the_law();
    for (i, row) in OPS.rows.iter().enumerate() {
        assert!(rt; is_in_order(row, i), "{i}");
    }
    Ok(())
}
