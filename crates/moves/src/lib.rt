// The order of the moves: the hint's first, the rest as stored.
#![tactic(auto)]

ghost use Rattle.std.specs.Prelude.{◌≡◌, ◌+◌, ◌≤◌, ◌<◌};
ghost use Rattle.record.specs.Node.{first_of, count_of};
ghost use Rattle.tree.specs.Blocks.{Blocked, nodes_of};
ghost use Rattle.tree.specs.Layout.{Laid};
ghost use Rattle.moves.specs.Order.{place_of, order_at, child_of};

use record::node;

// The place of the first child whose move equals the hint; a hint of 0 is none.
#[tactic(auto, using(crate::proofs::Ordered::scan_rules), unfolding(crate::specs::Order::place_of, crate::specs::Order::scan))]
pub fn place_of(tree: &[u8], first: usize, count: usize, hint: u16) -> Option<usize>
    requires blocked { Blocked tree.now }
    requires count_bound { first + count ≤ nodes_of tree.now }
    ensures { result ≡ place_of tree.now first count hint }
{
    if hint == 0 {
        return None;
    }
    let mut place = None;
    for i in 0..count {
        if node::move_to(tree, first + i) == hint {
            place = Some(i);
            break;
        }
    }
    place
}

// The place of a hint among the children of a node.
#[tactic(auto, using(tree::proofs::Blocked::record_in, crate::proofs::Kids::kids_within))]
pub fn hint_place(tree: &[u8], k: usize, hint: u16) -> Option<usize>
    requires laid { Laid tree.now }
    requires k_bound { k < nodes_of tree.now }
    ensures { result ≡ place_of tree.now (first_of tree.now k) (count_of tree.now k) hint }
{
    let first = node::first_child(tree, k);
    let count = node::child_count(tree, k);
    place_of(tree, first, count, hint)
}

// Which child is the i-th to be tried.
#[tactic(auto, unfolding(crate::specs::Order::order_at))]
pub fn order_at(place: Option<usize>, i: usize) -> usize
    ensures { result ≡ order_at place i }
{
    match place {
        Some(p) if i == 0 => p,
        Some(p) if i <= p => i - 1,
        _ => i,
    }
}

// The node that the i-th move to be tried leads to.
#[tactic(auto, using(tree::proofs::Blocked::nodes_most, tree::proofs::Blocked::record_in), unfolding(crate::specs::Order::child_of))]
pub fn child(tree: &[u8], k: usize, place: Option<usize>, i: usize) -> usize
    requires blocked { Blocked tree.now }
    requires k_bound { k < nodes_of tree.now }
    requires i_bound { child_of tree.now k place i < nodes_of tree.now }
    ensures { result ≡ child_of tree.now k place i }
{
    node::first_child(tree, k) + order_at(place, i)
}
