//! Worlds.

ghost use Rattle.std.specs.Prelude.{◌≡◌, ◌≢◌, ◌↔◌, ℕ, [], ◌∷◌, ◌++◌, List, IsTrue, MatchOption, OnOk, OnErr};
ghost use Rattle.chc_values.specs.declared.value.Value.{Value};
ghost use Rattle.chc_values.specs.declared.value.Value.TheVariants as value;
ghost use Rattle.chc_values.specs.declared.world.WorldEntry.TheVariants as entry;
ghost use Rattle.chc_sorts.specs.declared.sort.Sort.TheVariants as sort;
ghost use Rattle.chc_sorts.specs.declared.sort.Sort.{Sort};
ghost use Rattle.chc_values.specs.Values.{IsOf};
ghost use Rattle.chc_values.specs.Worlds.{KeysOnce, SameKey, EntryFits, IsFieldSort, HasKey, Adds};

use crate::compare::same;
use crate::sorting::{constructor, is_of};
use crate::value::Value;
use chc_sorts::{Field, List, NoMemory, Sig, Sort};
use std::alloc::Global;
use std::marker::Model;

/// One line of a world's table.
#[derive(Debug, Drop)]
pub enum WorldEntry {
    /// The selector of datatype, constructor and field, on a value by another constructor, gives the second value.
    Sel(u32, u32, u32, Value, Value),
    /// The first number divided by zero gives the second.
    Div0(i128, i128),
    /// The rest of the first number by zero is the second.
    Mod0(i128, i128),
}

/// Why an entry isn't added to a world.
#[derive(Clone, Copy, Debug, PartialEq, Eq)]
pub enum WorldErr {
    /// No such selector is declared, or the value isn't of the selector's datatype by another constructor, or the
    /// result isn't of the field's sort.
    WrongSort,
    /// The table has an entry of that key.
    Twice,
    /// Memory was refused.
    NoMemory,
}

impl From<NoMemory> for WorldErr {
    ghost use Rattle.std.specs.Prelude.{◌≡◌};
    ghost use Rattle.chc_values.specs.declared.world.WorldErr.TheVariants.{NoMemory as refused};

    ghost from_gives = { λ _ made. made ≡ refused };

    fn from(_refused: NoMemory) -> WorldErr {
        WorldErr::NoMemory
    }
}

/// A finite table of what the standard leaves open. Contracts see it as its entries in the order of adding;
/// no two of them speak of the same key. What it doesn't hold is the default of the result's sort.
#[derive(Debug, Drop)]
pub struct World {
    entries: List<WorldEntry>,
}

impl Model for World {
    ghost use Rattle.std.specs.Prelude.{List};
    ghost use Rattle.std.specs.Coded.{codes};
    ghost use Rattle.chc_values.specs.declared.world.WorldEntry.{WorldEntry};
    ghost use Rattle.chc_values.specs.contracts.value.Value as value;
    ghost use Rattle.chc_values.specs.Worlds.{KeysOnce};

    ghost Value = { List WorldEntry };

    ghost coded = { Prim.hlevel (codes, value.the_row.coded) };

    ghost view = { λ w. w.entries };

    ghost invariant = { λ w. ∥ KeysOnce w.entries ∥₁ };
}

impl World {
    /// The empty table.
    pub fn new(alloc: Global) -> World
        ensures { result ≡ [] }
    {
        World {
            entries: List::new(alloc),
        }
    }

    /// The entries in the order of adding. No two of them speak of the same key.
    pub fn entries(&self) -> &List<WorldEntry>
        ensures value { result.now ≡ self.now }
        ensures once { ∥ KeysOnce self.now ∥₁ }
    {
        &self.entries
    }

    /// Adds that field `i` of constructor `c`, asked of the value `v` of the datatype `d` by another constructor, is
    /// `r`. After a refusal nothing has changed. Errors, the first of them: `WrongSort` where no such selector is
    /// declared, `v` is no such value, or `r` isn't of the field's sort; `Twice` where the field of `v` stands in the
    /// table already; `NoMemory`. It looks through all the entries, so its time grows with their number.
    pub fn add_sel(
        &mut self,
        sig: &Sig,
        d: u32,
        c: u32,
        i: u32,
        v: Value,
        r: Value,
    ) -> Result<(), WorldErr>
        ensures { Adds (EntryFits sig.now (entry.Sel d c i v r)) self.old (entry.Sel d c i v r) result self.new }
    {
        if !selector_fits(sig, d, c, i, &v, &r) {
            return Err(WorldErr::WrongSort);
        }
        self.add(WorldEntry::Sel(d, c, i, v, r))
    }

    /// Adds that `m` divided by zero is `r`. After a refusal nothing has changed. Errors, the first of them: `Twice`
    /// where `m` divided by zero stands in the table already; `NoMemory`. It looks through all the entries.
    pub fn add_div0(&mut self, m: i128, r: i128) -> Result<(), WorldErr>
        ensures { Adds (Unit {0}) self.old (entry.Div0 m r) result self.new }
    {
        self.add(WorldEntry::Div0(m, r))
    }

    /// Adds that the rest of `m` by zero is `r`. After a refusal nothing has changed. Errors, the first of them:
    /// `Twice` where the rest of `m` by zero stands in the table already; `NoMemory`. It looks through all the entries.
    pub fn add_mod0(&mut self, m: i128, r: i128) -> Result<(), WorldErr>
        ensures { Adds (Unit {0}) self.old (entry.Mod0 m r) result self.new }
    {
        self.add(WorldEntry::Mod0(m, r))
    }

    /// Adds an entry that fits.
    fn add(&mut self, entry: WorldEntry) -> Result<(), WorldErr>
        ensures { Adds (Unit {0}) self.old entry result self.new }
    {
        if has_key(&self.entries, &entry) {
            return Err(WorldErr::Twice);
        }
        push(&mut self.entries, entry)?;
        Ok(())
    }
}

/// Adds the entry at the end.
fn push(entries: &mut List<WorldEntry>, entry: WorldEntry) -> Result<(), NoMemory>
    ensures added { OnOk result (entries.new ≡ entries.old ++ entry ∷ []) }
    ensures same { OnErr result (entries.new ≡ entries.old) }
{
    entries.push(entry)?;
    Ok(())
}

/// Whether some entry speaks of the entry's key.
fn has_key(entries: &List<WorldEntry>, entry: &WorldEntry) -> bool
    ensures { IsTrue result ↔ HasKey entries.now entry.now }
{
    for other in entries.as_slice() {
        if same_key(entry, other) {
            return true;
        }
    }
    false
}

/// Whether the two entries speak of the same key.
fn same_key(a: &WorldEntry, b: &WorldEntry) -> bool
    ensures { IsTrue result ↔ SameKey a.now b.now }
{
    match (a, b) {
        (WorldEntry::Sel(d, c, i, v, _), WorldEntry::Sel(e, k, j, u, _)) => {
            *d == *e && *c == *k && *i == *j && same(v, u)
        }
        (WorldEntry::Div0(m, _), WorldEntry::Div0(n, _)) => *m == *n,
        (WorldEntry::Mod0(m, _), WorldEntry::Mod0(n, _)) => *m == *n,
        _ => false,
    }
}

/// Whether field `i` of constructor `c` of the datatype `d` is declared, `v` is of `d` by another constructor, and `r`
/// is of the field's sort.
fn selector_fits(sig: &Sig, d: u32, c: u32, i: u32, v: &Value, r: &Value) -> bool
    ensures { IsTrue result ↔ EntryFits sig.now (entry.Sel d c i v.now r.now) }
{
    match field(sig, d, c, i) {
        None => false,
        Some(field) => is_key(sig, d, c, v) && is_of(r, &field.sort, sig),
    }
}

/// Field `i` of constructor `c` of the datatype `d`, or `None` where it isn't declared.
fn field(sig: &Sig, d: u32, c: u32, i: u32) -> Option<&Field>
    ensures { MatchOption result ((s : Sort) → IsFieldSort sig.now d c i s → ⊥) (λ f. IsFieldSort sig.now d c i f.now.sort) }
{
    match constructor(d, c, sig) {
        None => None,
        Some(found) => found.fields.get(i as usize),
    }
}

/// Whether the value is of the datatype `d` by another constructor than `c`.
fn is_key(sig: &Sig, d: u32, c: u32, v: &Value) -> bool
    ensures { IsTrue result ↔ ((k : ℕ) × (fields : List Value) × (v.now ≡ value.Data d k fields) × (k ≢ c) × IsOf sig.now v.now (sort.Data d)) }
{
    is_by_other(v, d, c) && is_of(v, &Sort::Data(d), sig)
}

/// Whether the value is made by a constructor of the datatype `d` other than `c`.
fn is_by_other(v: &Value, d: u32, c: u32) -> bool
    ensures { IsTrue result ↔ ((k : ℕ) × (fields : List Value) × (v.now ≡ value.Data d k fields) × (k ≢ c)) }
{
    match v {
        Value::Data(e, k, _) => *e == d && *k != c,
        Value::Bool(_) | Value::Int(_) | Value::Array(_, _) => false,
    }
}
