//! How many trees there are.

ghost use Rattle.std.specs.Prelude.{◌≡◌, ◌-◌, ◌^◌, min};
ghost use Rattle.chc_sexpr.specs.Counts.{count, count_all};

use chc_sexpr::Tree;

/// How many trees the tree is made of, itself among them, or 2^64 - 1 where there are more. With it the condition of
/// `elab` on a tree can be tested. The recursion is as deep as the tree.
#[cycle(census)]
#[tactic(auto, using(crate::proofs::TreeCounts::tree_counts))]
pub fn trees_in(tree: &Tree) -> u64
    ensures { result ≡ min (count tree.now) (2 ^ 64 - 1) }
{
    match tree {
        Tree::Group(_, trees) => trees_in_all(trees.as_slice()).saturating_add(1),
        Tree::Symbol(_, _)
        | Tree::Word(_, _)
        | Tree::Keyword(_, _)
        | Tree::Numeral(_, _)
        | Tree::Text(_, _)
        | Tree::Other(_, _) => 1,
    }
}

/// How many trees these are made of, or 2^64 - 1 where there are more.
#[cycle(census)]
#[tactic(auto, using(crate::proofs::TreeCounts::tree_counts))]
fn trees_in_all(trees: &[Tree]) -> u64
    ensures { result ≡ min (count_all trees.now) (2 ^ 64 - 1) }
{
    let mut sum: u64 = 0;
    for tree in trees {
        sum = sum.saturating_add(trees_in(tree));
    }
    sum
}
