//! Terms with what is known of them while they are built.

ghost use Rattle.std.specs.Prelude.{◌≡◌, ◌≤◌, IfOk};
ghost use Rattle.chc_terms.specs.Counts.{size as size_of, depth as depth_of};
ghost use Rattle.chc_elab.specs.Limits.{most_nodes};

use chc_sorts::{NoMemory, Sort};
use chc_terms::Term;
use std::alloc::Global;
use std::marker::Model;

/// How many nodes a term may have.
pub const MOST_NODES: u64 = 262_144;

/// How deep a term may be.
pub const MOST_LEVELS: u64 = 900;

/// A term within the limit of nodes, with its size and its depth. Contracts see it as the term.
#[derive(Drop)]
pub struct Built {
    term: Term,
    size: u64,
    depth: u64,
}

impl Model for Built {
    ghost use Rattle.std.specs.Prelude.{◌≡◌, ◌≤◌};
    ghost use Rattle.chc_terms.specs.declared.term.Term.{Term};
    ghost use Rattle.chc_terms.specs.contracts.term.Term as coded_term;
    ghost use Rattle.chc_terms.specs.Counts.{size as size_of, depth as depth_of};
    ghost use Rattle.chc_elab.specs.Limits.{most_nodes};

    ghost Value = { Term };

    ghost coded = { coded_term.the_row.coded };

    ghost view = { λ b. b.term };

    ghost invariant = { λ b. (b.size ≡ size_of b.term) × (b.depth ≡ depth_of b.term) × (b.depth ≤ b.size) × (b.size ≤ most_nodes) };
}

impl Built {
    /// The term of these counts.
    pub fn of(term: Term, size: u64, depth: u64) -> Built
        requires sized { size ≡ size_of term }
        requires deep { depth ≡ depth_of term }
        requires flat { depth ≤ size }
        requires few { size ≤ most_nodes }
        ensures { result ≡ term }
    {
        Built { term, size, depth }
    }

    /// How many nodes the term has.
    pub fn size(&self) -> u64
        ensures value { result ≡ size_of self.now }
        ensures few { result ≤ most_nodes }
    {
        self.size
    }

    /// How deep the term is: at most as deep as it has nodes.
    pub fn depth(&self) -> u64
        ensures value { result ≡ depth_of self.now }
        ensures flat { result ≤ size_of self.now }
    {
        self.depth
    }

    /// The term, borrowed.
    pub fn term(&self) -> &Term
        ensures { result.now ≡ self.now }
    {
        &self.term
    }

    /// The term, moved out.
    pub fn into_term(self) -> Term
        ensures { result ≡ self }
    {
        let Built { term, .. } = self;
        term
    }

    /// An equal term on fresh memory. Errors: `NoMemory`.
    pub fn copy(&self, alloc: Global) -> Result<Built, NoMemory>
        ensures { IfOk result (λ b. b ≡ self.now) }
    {
        let term = self.term.copy(alloc)?;
        Ok(Built {
            term,
            size: self.size,
            depth: self.depth,
        })
    }
}
