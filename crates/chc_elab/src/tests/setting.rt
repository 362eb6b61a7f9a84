//! The scope in which the trees of the tests are read.

use crate::sort_tree::sort_of_tree;
use crate::{Scope, Symbol, Symbols, sort_spec};
use chc_sexpr::{TextErr, Tree, Trees, form_of, read_trees};
use chc_sorts::{CtorSpec, DataSpec, FieldSpec, List, Name, NoMemory, Sig, Sort};
use chc_terms::FunSort;
use std::alloc::Global;

/// What is declared, and the names and sorts of the variables.
#[derive(Drop)]
pub struct Setting {
    sig: Sig,
    symbols: Symbols,
    names: List<Name>,
    sorts: List<Sort>,
}

impl Setting {
    /// The scope of all that.
    pub fn scope(&self) -> Scope<'_> {
        Scope {
            sig: &self.sig,
            symbols: &self.symbols,
            names: &self.names,
            sorts: &self.sorts,
        }
    }
}

/// The name of those bytes.
pub fn name_of(alloc: Global, bytes: &[u8]) -> Result<Name, NoMemory> {
    let mut name = List::new(alloc);
    for byte in bytes {
        name.push(*byte)?;
    }
    Ok(name)
}

/// The trees of a short text; none of a long one.
pub fn trees_of(alloc: Global, text: &[u8]) -> Result<Trees, TextErr> {
    if text.len() < 1_000_000 {
        read_trees(alloc, text)
    } else {
        Ok(List::new(alloc))
    }
}

/// Adds the field of a tree `(s S)`.
fn add_field(alloc: Global, fields: &mut List<FieldSpec>, tree: &Tree) -> Result<(), TextErr> {
    if let Some((name, [sort])) = form_of(tree) {
        let name = name_of(alloc, name)?;
        let sort = sort_spec(alloc, sort)?;
        fields.push(FieldSpec { name, sort })?;
    }
    Ok(())
}

/// Adds the constructor of a tree `(c (s S) ..)`.
fn add_ctor(alloc: Global, ctors: &mut List<CtorSpec>, tree: &Tree) -> Result<(), TextErr> {
    if let Some((name, trees)) = form_of(tree) {
        let mut fields = List::new(alloc);
        for tree in trees {
            add_field(alloc, &mut fields, tree)?;
        }
        let name = name_of(alloc, name)?;
        ctors.push(CtorSpec { name, fields })?;
    }
    Ok(())
}

/// Adds the datatype of a tree `(T (c ..) ..)`.
fn add_datatype(alloc: Global, group: &mut List<DataSpec>, tree: &Tree) -> Result<(), TextErr> {
    if let Some((name, trees)) = form_of(tree) {
        let mut ctors = List::new(alloc);
        for tree in trees {
            add_ctor(alloc, &mut ctors, tree)?;
        }
        let name = name_of(alloc, name)?;
        group.push(DataSpec { name, ctors })?;
    }
    Ok(())
}

/// The datatypes of a text.
fn group_of(alloc: Global, text: &[u8]) -> Result<List<DataSpec>, TextErr> {
    let trees = trees_of(alloc, text)?;
    let mut group = List::new(alloc);
    for tree in trees.as_slice() {
        add_datatype(alloc, &mut group, tree)?;
    }
    Ok(group)
}

/// The datatypes `L` of lists, number 0, and `C` of two colours, number 1; none where they are refused.
fn signature(alloc: Global) -> Result<Sig, TextErr> {
    let group = group_of(alloc, b"(L (nil) (cons (hd Int) (tl L)))(C (red) (green))")?;
    let mut sig = Sig::new(alloc);
    let _answer = sig.add_group(alloc, group.as_slice(), &List::new(alloc));
    Ok(sig)
}

/// The sorts that a text spells, one behind the other.
fn sorts_of(alloc: Global, sig: &Sig, text: &[u8]) -> Result<List<Sort>, TextErr> {
    let trees = trees_of(alloc, text)?;
    let mut sorts = List::new(alloc);
    for tree in trees.as_slice() {
        sorts.push(sort_of_tree(alloc, sig, tree)?)?;
    }
    Ok(sorts)
}

/// The names that stand in a text.
fn names_of(alloc: Global, text: &[u8]) -> Result<List<Name>, TextErr> {
    let trees = trees_of(alloc, text)?;
    let mut names = List::new(alloc);
    for tree in trees.as_slice() {
        if let Tree::Symbol(_, name) = tree {
            names.push(name_of(alloc, name.bytes())?)?;
        }
    }
    Ok(names)
}

/// Declares a name that isn't declared yet.
pub fn declare(
    alloc: Global,
    symbols: &mut Symbols,
    name: &[u8],
    symbol: Symbol,
) -> Result<(), NoMemory> {
    let name = name_of(alloc, name)?;
    if symbols.find(name.as_slice()).is_none() {
        symbols.add(name, symbol)?;
    }
    Ok(())
}

/// Declares a predicate with positions of the sorts that a text spells.
fn declare_pred(
    alloc: Global,
    sig: &Sig,
    symbols: &mut Symbols,
    name: &[u8],
    number: u32,
    text: &[u8],
) -> Result<(), TextErr> {
    let sorts = sorts_of(alloc, sig, text)?;
    declare(alloc, symbols, name, Symbol::Pred(number, sorts))?;
    Ok(())
}

/// Declares a definition of the sort, with parameters of the sorts that a text spells.
fn declare_def(
    alloc: Global,
    sig: &Sig,
    symbols: &mut Symbols,
    name: &[u8],
    definition: (u64, Sort),
    text: &[u8],
) -> Result<(), TextErr> {
    let (number, result) = definition;
    let params = sorts_of(alloc, sig, text)?;
    let symbol = Symbol::Def(number, FunSort { params, result });
    declare(alloc, symbols, name, symbol)?;
    Ok(())
}

/// The predicates `p` and `q`, and the definitions `f` and `c`.
fn symbols(alloc: Global, sig: &Sig) -> Result<Symbols, TextErr> {
    let mut symbols = Symbols::new(alloc);
    declare_pred(alloc, sig, &mut symbols, b"p", 0, b"Int Bool")?;
    declare_pred(alloc, sig, &mut symbols, b"q", 1, b"")?;
    declare_def(alloc, sig, &mut symbols, b"f", (0, Sort::Int), b"Int")?;
    declare_def(alloc, sig, &mut symbols, b"c", (1, Sort::Bool), b"")?;
    Ok(symbols)
}

/// The datatypes, predicates and definitions, with the variables `x` of Int, `y` of Bool, `a` of an array and `l` of a
/// list.
pub fn usual_setting(alloc: Global) -> Result<Setting, TextErr> {
    let sig = signature(alloc)?;
    let symbols = symbols(alloc, &sig)?;
    let names = names_of(alloc, b"x y a l")?;
    let sorts = sorts_of(alloc, &sig, b"Int Bool (Array Int Int) L")?;
    Ok(Setting {
        sig,
        symbols,
        names,
        sorts,
    })
}
