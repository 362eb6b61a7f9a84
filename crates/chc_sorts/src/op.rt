//! The operators of terms.

ghost use Rattle.std.specs.Prelude.{◌≡◌, IfOk};

use crate::memory::NoMemory;
use crate::sort::Sort;
use std::alloc::Global;

/// An operator, as terms hold it. What a script may write besides is read as one of these.
#[derive(Debug, Drop)]
pub enum Op {
    Not,
    And,
    Or,
    Eq,
    Ite,
    Add,
    Sub,
    Mul,
    Div,
    Mod,
    Le,
    Lt,
    Select,
    Store,
    /// The array that has one value everywhere; it holds the sort of the elements.
    Const(Sort),
    /// Constructor of a datatype: the numbers of the two.
    Make(u32, u32),
    /// Selector: the numbers of the datatype, the constructor and the field.
    Get(u32, u32, u32),
    /// Tester: the numbers of the datatype and the constructor.
    Is(u32, u32),
}

impl Op {
    /// An equal operator on fresh memory.
    pub fn copy(&self, alloc: Global) -> Result<Op, NoMemory>
        ensures { IfOk result (λ o. o ≡ self.now) }
    {
        Ok(match self {
            Op::Not => Op::Not,
            Op::And => Op::And,
            Op::Or => Op::Or,
            Op::Eq => Op::Eq,
            Op::Ite => Op::Ite,
            Op::Add => Op::Add,
            Op::Sub => Op::Sub,
            Op::Mul => Op::Mul,
            Op::Div => Op::Div,
            Op::Mod => Op::Mod,
            Op::Le => Op::Le,
            Op::Lt => Op::Lt,
            Op::Select => Op::Select,
            Op::Store => Op::Store,
            Op::Const(element) => Op::Const(element.copy(alloc)?),
            Op::Make(d, c) => Op::Make(*d, *c),
            Op::Get(d, c, i) => Op::Get(*d, *c, *i),
            Op::Is(d, c) => Op::Is(*d, *c),
        })
    }
}
