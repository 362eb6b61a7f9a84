//! A list that contracts see as the list of its elements.

ghost use Rattle.std.specs.Prelude.{◌≡◌, [], ◌∷◌, ◌++◌, ◌<◌, length, take, slice_get, slice_set, remove, MatchOption, IfOk, IfErr, OnOk, OnErr, OnSome};
ghost use Rattle.std.specs.Option.{option_copied};

use crate::memory::NoMemory;
use std::alloc::Global;
use std::marker::Model;
use std::mem;

/// A growing list. Contracts see it as the list of its elements; how much room is spare, they do not see.
#[derive(Debug, Drop)]
pub struct List<T> {
    items: Vec<T>,
}

impl<T> Model for List<T> {
    ghost use Rattle.std.specs.Prelude.{List};
    ghost use Rattle.std.specs.Coded.{coded_list};

    ghost Value = { List T };

    ghost coded = { coded_list T.code };

    ghost view = { λ l. l.items.items };
}

/// A name: the bytes of a symbol, without the bars that may quote it.
pub type Name = List<u8>;

impl<T> List<T> {
    /// The empty list, which will grow on `alloc`. It takes no memory yet.
    pub fn new(alloc: Global) -> List<T>
        ensures { result ≡ [] }
    {
        List {
            items: Vec::new(alloc),
        }
    }

    /// How many elements there are.
    pub fn len(&self) -> usize
        ensures { result ≡ length self.now }
    {
        self.items.len()
    }

    /// The element at `i`, counted from 0, or `None` where `i` is past the end.
    pub fn get(&self, i: usize) -> Option<&T>
        ensures value { option_copied result ≡ slice_get self.now i }
        ensures within { OnSome result (i < length self.now) }
    {
        self.items.get(i)
    }

    /// Adds `x` at the end. Where memory is refused nothing changes and `x` comes back.
    pub fn push(&mut self, x: T) -> Result<(), (T, NoMemory)>
        ensures added { OnOk result (self.new ≡ self.old ++ x ∷ []) }
        ensures same { OnErr result (self.new ≡ self.old) }
        ensures back { IfErr result (λ e. e.0 ≡ x) }
    {
        match self.items.push(x) {
            Ok(()) => Ok(()),
            Err(refused) => Err((refused.value, NoMemory)),
        }
    }

    /// Takes the last element off, or gives `None` where there is none.
    pub fn pop(&mut self) -> Option<T>
        ensures { MatchOption result ((self.old ≡ []) × (self.new ≡ [])) (λ last. self.old ≡ self.new ++ last ∷ []) }
    {
        self.items.pop()
    }

    /// Takes the element at `i` out; the later ones move down by one.
    pub fn remove(&mut self, i: usize) -> T
        requires { i < length self.old }
        ensures element { slice_get self.old i ≡ Some result }
        ensures rest { self.new ≡ remove self.old i }
    {
        self.items.remove(i)
    }

    /// Puts `x` in place of the element at `i`, and gives that one.
    pub fn replace(&mut self, i: usize, x: T) -> T
        requires { i < length self.old }
        ensures element { slice_get self.old i ≡ Some result }
        ensures changed { self.new ≡ slice_set self.old i x }
    {
        mem::replace(&mut self.items[i], x)
    }

    /// Adds the elements of `more` at the end. Where memory is refused nothing changes. Errors: `NoMemory`.
    pub fn append(&mut self, more: List<T>) -> Result<(), NoMemory>
    where
        T: Drop,
        ensures added { OnOk result (self.new ≡ self.old ++ more) }
        ensures same { OnErr result (self.new ≡ self.old) }
    {
        let mut items = more.into_vec();
        self.items.append(&mut items)?;
        Ok(())
    }

    /// Keeps the first `len` elements, or all where there are no more.
    pub fn truncate(&mut self, len: usize)
    where
        T: Drop,
        ensures { self.new ≡ take len self.old }
    {
        self.items.truncate(len);
    }

    /// The elements as a slice.
    pub fn as_slice(&self) -> &[T]
        ensures { result.now ≡ self.now }
    {
        self.items.as_slice()
    }

    /// The list of a vector's elements.
    pub fn from_vec(items: Vec<T>) -> List<T>
        ensures { result ≡ items.items }
    {
        List { items }
    }

    /// The elements as a vector.
    pub fn into_vec(self) -> Vec<T>
        ensures { result.items ≡ self }
    {
        let List { items } = self;
        items
    }
}

impl<T: Copy> List<T> {
    /// An equal list on fresh memory.
    pub fn copy(&self, alloc: Global) -> Result<List<T>, NoMemory>
        ensures { IfOk result (λ l. l ≡ self.now) }
    {
        let mut copies = List::new(alloc);
        for item in self.as_slice() {
            copies.push(*item)?;
        }
        Ok(copies)
    }
}
