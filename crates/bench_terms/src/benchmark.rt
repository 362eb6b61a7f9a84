//! Benchmarks: what is read, and the number that it comes to.

use crate::failure::Failure;
use crate::texts::{comparisons, groups, nests};
use chc_elab::{Scope, Symbols, elab, trees_in};
use chc_sexpr::{Tree, Trees, read_trees};
use chc_sorts::{List, Sig};
use chc_terms::size;
use std::alloc::Global;

/// How many bytes a text may have.
const MOST_BYTES: usize = 20_000_000;

/// How many trees a term may be read from.
const MOST_TREES: u64 = 1_000_000;

/// How many groups may stand side by side.
const MOST_GROUPS: u32 = 6_000_000;

/// How many bytes of nests there may be.
const MOST_DENSE: u32 = 18_000_000;

/// How many comparisons a term may have.
const MOST_COMPARISONS: u32 = 87_000;

/// What is read.
#[derive(Debug, Drop)]
pub enum Benchmark {
    /// So many groups `(a)` side by side.
    Trees(u32),
    /// Nests of groups, in so many bytes at most: three bytes for two trees and a list.
    Dense(u32),
    /// A term with so many comparisons.
    Terms(u32),
}

/// The benchmark of a kind and a size, if there is one.
pub fn benchmark_of(kind: &str, size: &str) -> Option<Benchmark> {
    let size = size.parse::<u32>().ok()?;
    match kind {
        "trees" if size <= MOST_GROUPS => Some(Benchmark::Trees(size)),
        "dense" if size <= MOST_DENSE => Some(Benchmark::Dense(size)),
        "terms" if size <= MOST_COMPARISONS => Some(Benchmark::Terms(size)),
        _ => None,
    }
}

/// The trees of a text. Errors: `TooLong`, `Refused`, `NoMemory`.
fn trees_of(alloc: Global, text: &str) -> Result<Trees, Failure> {
    if text.len() > MOST_BYTES {
        return Err(Failure::TooLong);
    }
    Ok(read_trees(alloc, text.as_bytes())?)
}

/// How many trees the text spells side by side. Errors: `TooLong`, `Refused`, `NoMemory`.
fn count_of_trees(alloc: Global, text: &str) -> Result<u64, Failure> {
    let trees = trees_of(alloc, text)?;
    Ok(trees.len() as u64)
}

/// How many nodes the term of a tree has, where nothing is declared. Errors: `TooLong` where it is of too many trees;
/// `Refused`, `NoMemory`.
fn size_of_term(alloc: Global, tree: &Tree) -> Result<u64, Failure> {
    if trees_in(tree) > MOST_TREES {
        return Err(Failure::TooLong);
    }
    let sig = Sig::new(alloc);
    let symbols = Symbols::new(alloc);
    let names = List::new(alloc);
    let sorts = List::new(alloc);
    let scope = Scope {
        sig: &sig,
        symbols: &symbols,
        names: &names,
        sorts: &sorts,
    };
    let term = elab(alloc, tree, &scope)?;
    Ok(size(&term))
}

/// How many nodes the term has that the text spells. Errors: `NotOne` where it spells another number of trees;
/// `TooLong`, `Refused`, `NoMemory`.
fn size_of_spelled(alloc: Global, text: &str) -> Result<u64, Failure> {
    let trees = trees_of(alloc, text)?;
    match trees.as_slice() {
        [tree] => size_of_term(alloc, tree),
        _ => Err(Failure::NotOne),
    }
}

/// The number that a benchmark comes to. Errors: `TooLong`, `NotOne`, `Refused`, `NoMemory`.
pub fn result_of(alloc: Global, benchmark: &Benchmark) -> Result<u64, Failure> {
    match benchmark {
        Benchmark::Trees(count) => count_of_trees(alloc, groups(alloc, *count)?.as_str()),
        Benchmark::Dense(bytes) => count_of_trees(alloc, nests(alloc, *bytes)?.as_str()),
        Benchmark::Terms(count) => size_of_spelled(alloc, comparisons(alloc, *count)?.as_str()),
    }
}
