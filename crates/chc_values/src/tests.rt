//! Values that are compared, measured and stored, and worlds.

use crate::{
    Value, Values, World, WorldErr, array_get, array_set, copy_values, in_range, is_of, same,
};
use chc_sorts::{Boxed, List, NoMemory, Sig, Sort};
use std::alloc::Global;
use std::test::Fail;

/// The array that is `default` everywhere but at one index.
fn truths(alloc: Global, default: bool, i: i128) -> Result<Value, NoMemory> {
    let mut exceptions = List::new(alloc);
    exceptions.push((i, Value::Bool(!default)))?;
    let default = Boxed::new(alloc, Value::Bool(default))?;
    Ok(Value::Array(default, exceptions))
}

/// A constructor on one value.
fn made(alloc: Global, d: u32, c: u32, field: Value) -> Result<Value, NoMemory> {
    let mut fields = List::new(alloc);
    fields.push(field)?;
    Ok(Value::Data(d, c, fields))
}

/// The array that has the value everywhere.
fn constant(alloc: Global, default: Value) -> Result<Value, NoMemory> {
    let default = Boxed::new(alloc, default)?;
    Ok(Value::Array(default, List::new(alloc)))
}

/// The value of a letter: for `b` a truth value, for `c`, `p` and `m` an array of truth values, for `i` a number, for
/// `d` and `e` a constructor of the datatype 0 or 7, for `f` one on a number.
fn value_of(alloc: Global, letter: u8, n: u32) -> Result<Value, NoMemory> {
    match letter {
        b'b' => Ok(Value::Bool(n == 1)),
        b'c' => constant(alloc, Value::Bool(n == 1)),
        b'p' => truths(alloc, n == 1, 4),
        b'm' => truths(alloc, n == 1, -4),
        b'i' => Ok(Value::Int(i128::from(n))),
        b'd' => Ok(Value::Data(0, n, List::new(alloc))),
        b'e' => Ok(Value::Data(7, n, List::new(alloc))),
        _ => made(alloc, 0, 1, Value::Int(i128::from(n))),
    }
}

/// Values no two of which are the same.
fn different(alloc: Global) -> Result<Values, NoMemory> {
    let mut values = List::new(alloc);
    for letter in b"bcpmidef" {
        values.push(value_of(alloc, *letter, 0)?)?;
        values.push(value_of(alloc, *letter, 1)?)?;
    }
    Ok(values)
}

/// Whether the value is the same as the one that stands at the place, and as no other.
fn is_at_alone(value: &Value, values: &Values, place: usize) -> bool {
    for (i, other) in values.as_slice().iter().enumerate() {
        if same(value, other) != (i == place) {
            return false;
        }
    }
    true
}

#[test]
fn each_value_is_the_same_as_its_copy_alone(rt: HostRuntime) -> Result<(), Fail> {
    let values = different(rt.alloc())?;
    let copies = copy_values(rt.alloc(), &values)?;
    for (i, value) in values.as_slice().iter().enumerate() {
        assert!(rt; is_at_alone(value, &copies, i), "{i}");
    }
    Ok(())
}

/// The value of a letter on the number: for `i` the number, for `t` an array of truth values with an exception there,
/// for `d` a constructor on it, for `c` the array that has it everywhere.
fn numbered(alloc: Global, letter: u8, n: i128) -> Result<Value, NoMemory> {
    match letter {
        b'i' => Ok(Value::Int(n)),
        b't' => truths(alloc, true, n),
        b'd' => made(alloc, 0, 0, Value::Int(n)),
        _ => constant(alloc, Value::Int(n)),
    }
}

/// Whether the value is in range, or `None` where memory was refused.
fn range_of(value: Result<Value, NoMemory>) -> Option<bool> {
    match value {
        Ok(value) => Some(in_range(&value)),
        Err(_) => None,
    }
}

/// Whether every value on the number is in range, or every one out of it.
fn is_number_within(alloc: Global, n: i128, within: bool) -> bool {
    for letter in b"itdc" {
        if range_of(numbered(alloc, *letter, n)) != Some(within) {
            return false;
        }
    }
    true
}

#[test]
fn ranges_end_at_127_bits(rt: HostRuntime) {
    let alloc = rt.alloc();
    assert!(rt; is_number_within(alloc, 170141183460469231731687303715884105727, true));
    assert!(rt; is_number_within(alloc, -170141183460469231731687303715884105727, true));
    assert!(rt; is_number_within(alloc, -170141183460469231731687303715884105728, false));
    assert!(rt; is_number_within(alloc, 0, true));
}

/// A number of constructors, each but the last on the next.
fn nested(alloc: Global, depth: u32) -> Result<Value, NoMemory> {
    let mut value = Value::Data(0, 0, List::new(alloc));
    for _ in 1..depth {
        value = made(alloc, 0, 1, value)?;
    }
    Ok(value)
}

/// The array that has so many constructors everywhere.
fn constant_nested(alloc: Global, depth: u32) -> Result<Value, NoMemory> {
    constant(alloc, nested(alloc, depth)?)
}

#[test]
fn ranges_end_at_2000_levels(rt: HostRuntime) {
    let alloc = rt.alloc();
    assert!(rt; range_of(nested(alloc, 1)) == Some(true));
    assert!(rt; range_of(nested(alloc, 2000)) == Some(true));
    assert!(rt; range_of(nested(alloc, 2001)) == Some(false));
    assert!(rt; range_of(constant_nested(alloc, 1)) == Some(true));
    assert!(rt; range_of(constant_nested(alloc, 2000)) == Some(false));
    assert!(rt; range_of(constant_nested(alloc, 2001)) == Some(false));
}

/// The number that stands at the index, or `None` where the value is no array of numbers.
fn number_at(alloc: Global, sig: &Sig, a: &Value, i: i128) -> Result<Option<i128>, NoMemory> {
    let sort = Sort::Array(Boxed::new(alloc, Sort::Int)?);
    if !is_of(a, &sort, sig) {
        return Ok(None);
    }
    match array_get(alloc, a, i)? {
        Value::Int(n) => Ok(Some(n)),
        _ => Ok(None),
    }
}

/// Whether the number stands at the index.
fn has_number(alloc: Global, sig: &Sig, a: &Value, i: i128, n: i128) -> bool {
    match number_at(alloc, sig, a, i) {
        Ok(Some(found)) => found == n,
        Ok(None) | Err(_) => false,
    }
}

/// The array with the number at the index, or the value itself where it is no array of numbers.
fn with_number(alloc: Global, sig: &Sig, a: Value, i: i128, n: i128) -> Result<Value, NoMemory> {
    let sort = Sort::Array(Boxed::new(alloc, Sort::Int)?);
    if !is_of(&a, &sort, sig) {
        return Ok(a);
    }
    array_set(alloc, a, i, Value::Int(n))
}

/// The array with the numbers at their indices, stored in order, or `None` where one isn't found once it is stored.
fn with_numbers(
    alloc: Global,
    sig: &Sig,
    a: Value,
    stores: &[(i128, i128)],
) -> Result<Option<Value>, NoMemory> {
    let mut array = a;
    for (i, n) in stores {
        array = with_number(alloc, sig, array, *i, *n)?;
        if !has_number(alloc, sig, &array, *i, *n) {
            return Ok(None);
        }
    }
    Ok(Some(array))
}

/// Whether the numbers stand at their indices.
fn has_numbers(alloc: Global, sig: &Sig, a: &Value, wanted: &[(i128, i128)]) -> bool {
    for (i, n) in wanted {
        if !has_number(alloc, sig, a, *i, *n) {
            return false;
        }
    }
    true
}

/// The array that is 0 everywhere.
fn zeros(alloc: Global) -> Result<Value, NoMemory> {
    constant(alloc, Value::Int(0))
}

/// The array of zeros after stores of other numbers and of zeros.
fn changed(alloc: Global, sig: &Sig) -> Result<Option<Value>, NoMemory> {
    let stores = [(3, 7), (-2, 5), (9, 9), (3, 8), (-2, 0), (5, 0), (4, 1)];
    with_numbers(alloc, sig, zeros(alloc)?, &stores)
}

/// Whether just the last store at each index is found after stores.
fn has_last_stores(alloc: Global, sig: &Sig) -> Result<bool, NoMemory> {
    let wanted = [(-3, 0), (-2, 0), (3, 8), (4, 1), (5, 0), (9, 9), (10, 0)];
    match changed(alloc, sig)? {
        Some(array) => Ok(has_numbers(alloc, sig, &array, &wanted)),
        None => Ok(false),
    }
}

/// Whether the array is the same as zeros only once 0 is stored at each of the indices.
fn is_zeros_after(alloc: Global, sig: &Sig, a: Value, indices: &[i128]) -> Result<bool, NoMemory> {
    let zeros = zeros(alloc)?;
    let mut array = a;
    for i in indices {
        if same(&array, &zeros) {
            return Ok(false);
        }
        array = with_number(alloc, sig, array, *i, 0)?;
    }
    Ok(same(&array, &zeros))
}

/// Whether the changed array is the same as zeros again only once its last number is 0.
fn is_changed_back(alloc: Global, sig: &Sig) -> Result<bool, NoMemory> {
    match changed(alloc, sig)? {
        Some(array) => is_zeros_after(alloc, sig, array, &[9, 3, 4]),
        None => Ok(false),
    }
}

#[test]
fn stores_change_one_index(rt: HostRuntime) -> Result<(), Fail> {
    let sig = Sig::new(rt.alloc());
    assert!(rt; has_last_stores(rt.alloc(), &sig)?);
    assert!(rt; is_changed_back(rt.alloc(), &sig)?);
    assert_eq!(rt; number_at(rt.alloc(), &sig, &Value::Int(0), 0)?, None);
    Ok(())
}

/// Whether the world answers so to a quotient (`/`) or rest by zero.
fn answers(world: &mut World, kind: u8, m: i128, r: i128, wanted: Result<(), WorldErr>) -> bool {
    let answer = if kind == b'/' {
        world.add_div0(m, r)
    } else {
        world.add_mod0(m, r)
    };
    answer == wanted
}

/// Whether the world's entries are shown so.
fn is_shown(alloc: Global, world: &World, wanted: &str) -> Result<bool, NoMemory> {
    let entries = format!(in alloc; "{:?}", world.entries().as_slice())?;
    Ok(entries.as_str() == wanted)
}

#[test]
fn a_key_stands_in_a_world_once(rt: HostRuntime) -> Result<(), Fail> {
    let alloc = rt.alloc();
    let mut world = World::new(alloc);
    let twice = Err(WorldErr::Twice);
    assert!(rt; answers(&mut world, b'/', 5, 2, Ok(())));
    assert!(rt; answers(&mut world, b'/', 5, 3, twice));
    assert!(rt; answers(&mut world, b'%', 5, 3, Ok(())));
    assert!(rt; answers(&mut world, b'%', 5, 3, twice));
    assert!(rt; answers(&mut world, b'/', -5, 3, Ok(())));
    assert!(rt; is_shown(alloc, &world, "[Div0(5, 2), Mod0(5, 3), Div0(-5, 3)]")?);
    Ok(())
}
