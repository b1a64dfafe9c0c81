// The tree's public entries: its check, and a node's record as that part of the lent tree. Each takes any bytes and numbers.
#![tactic(auto, unfolding(crate::specs::Records::record_rows, tree::specs::Refusal::handed_part), using(std::proofs::lemmas::Int::ints))]

ghost use Rattle.std.specs.Prelude.{◌≡◌};
ghost use Rattle.refusal.specs.Number.{number_told};
ghost use Rattle.tree.specs.Refusal.{handed_part};
ghost use Rattle.refusals.specs.First.{tree_rows};
ghost use Rattle.trees.specs.Records.{record_rows};

use refusal::Refusal;

// The refusal that the tree gets.
pub fn check_tree(tree: &[u8], inf: i16, ply: u16) -> Result<(), Refusal>
    ensures { number_told result ≡ tree_rows inf ply tree.now }
{
    refusals::tree_rows(tree, inf, ply)
}

// The refusal that the record of a node gets; where there is none `record` hands it out.
pub fn record_refusal(tree: &[u8], inf: i16, ply: u16, node: u64) -> Result<(), Refusal>
    ensures { number_told result ≡ record_rows inf ply tree.now node }
{
    check_tree(tree, inf, ply)?;
    if !refusals::node_right(tree, node) {
        return Err(Refusal::Start);
    }
    Ok(())
}

// The 16 bytes of a node, not copied; the empty part where they are refused.
pub fn record(tree: &[u8], inf: i16, ply: u16, node: u64) -> &[u8]
    ensures { result.now ≡ handed_part (record_rows inf ply tree.now node) tree.now node }
{
    match record_refusal(tree, inf, ply, node) {
        Ok(()) => record::node::record(tree, node as usize),
        Err(_) => &tree[0..0],
    }
}
