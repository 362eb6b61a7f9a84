//! Values that are told apart.

ghost use Rattle.std.specs.Prelude.{◌≡◌, ◌↔◌, IsTrue};

use crate::value::{Entries, Value, Values};

/// Whether the two are the same value. It takes no memory.
#[cycle(same)]
pub fn same(a: &Value, b: &Value) -> bool
    ensures { IsTrue result ↔ (a.now ≡ b.now) }
{
    match (a, b) {
        (Value::Bool(x), Value::Bool(y)) => *x == *y,
        (Value::Int(m), Value::Int(n)) => *m == *n,
        (Value::Data(d, c, xs), Value::Data(e, k, ys)) => {
            *d == *e && *c == *k && same_values(xs, ys)
        }
        (Value::Array(x, xs), Value::Array(y, ys)) => {
            same(x.get(), y.get()) && same_entries(xs, ys)
        }
        _ => false,
    }
}

/// Whether the two lists hold the same values in order.
#[cycle(same)]
fn same_values(xs: &Values, ys: &Values) -> bool
    ensures { IsTrue result ↔ (xs.now ≡ ys.now) }
{
    let others = ys.as_slice();
    if xs.len() != others.len() {
        return false;
    }
    for (i, x) in xs.as_slice().iter().enumerate() {
        if !same(x, &others[i]) {
            return false;
        }
    }
    true
}

/// Whether the two lists hold the same exceptions in order.
#[cycle(same)]
fn same_entries(xs: &Entries, ys: &Entries) -> bool
    ensures { IsTrue result ↔ (xs.now ≡ ys.now) }
{
    let others = ys.as_slice();
    if xs.len() != others.len() {
        return false;
    }
    for (i, x) in xs.as_slice().iter().enumerate() {
        let y = &others[i];
        if x.0 != y.0 || !same(&x.1, &y.1) {
            return false;
        }
    }
    true
}
