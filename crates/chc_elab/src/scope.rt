//! What trees are read in.

use crate::symbols::Symbols;
use chc_sorts::{List, Name, Sig, Sort};

/// What a tree is read in: the datatypes, the predicates and definitions by name, and the names and sorts of the
/// variables, which are numbered from 0 on. Of two variables of one name the later one counts.
#[derive(Drop)]
pub struct Scope<'a> {
    pub sig: &'a Sig,
    pub symbols: &'a Symbols,
    pub names: &'a List<Name>,
    pub sorts: &'a List<Sort>,
}

/// What is declared where a tree is read.
#[derive(Drop)]
pub struct Declared<'a> {
    pub sig: &'a Sig,
    pub symbols: &'a Symbols,
}
