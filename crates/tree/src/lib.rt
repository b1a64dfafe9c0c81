// The tree of blocks: its check, the refusals 1 to 5.
#![tactic(auto)]

ghost use Rattle.std.specs.Prelude.{◌≡◌};
ghost use Rattle.refusal.specs.Number.{number_told};
ghost use Rattle.tree.specs.Refusal.{tree_refusal};

use refusal::Refusal;

pub mod blocks; // blocks.rt: rows 1 and 2
pub mod fields; // fields.rt: row 4
pub mod layout; // layout.rt: row 3
pub mod level; // level.rt: row 5, and a node's level

// The first of the refusals 1 to 5 that the tree gets.
#[tactic(auto, unfolding(crate::specs::Refusal::tree_refusal))]
pub fn check(tree: &[u8], inf: i16, max_ply: u16) -> Result<(), Refusal>
    ensures { number_told result ≡ tree_refusal inf max_ply tree.now }
{
    if !blocks::length_right(tree) {
        return Err(Refusal::Length);
    }
    if !blocks::blocks_right(tree) {
        return Err(Refusal::Blocks);
    }
    if !layout::layout_right(tree) {
        return Err(Refusal::Layout);
    }
    if !fields::fields_right(tree, inf, max_ply) {
        return Err(Refusal::Fields);
    }
    if !level::levels_right(tree) {
        return Err(Refusal::Levels);
    }
    Ok(())
}
