// Row 3: child counts and the breadth-first rule.
#![tactic(auto, unfolding(crate::specs::Layout::children_right, crate::specs::Layout::layout_right), using(crate::proofs::Every::every_none, crate::proofs::Every::every_more, crate::proofs::Every::every_all, crate::proofs::Blocked::record_in, crate::proofs::Blocked::length_least, crate::proofs::Laid::start_none, crate::proofs::Laid::start_more))]

ghost use Rattle.std.specs.Prelude.{◌≡◌, ◌+◌, ◌≤◌, length};
ghost use Rattle.record.specs.Node.{record_at};
ghost use Rattle.tree.specs.Blocks.{Blocked};
ghost use Rattle.tree.specs.Layout.{start_of, children_right, layout_right};

use crate::blocks;
use record::node;

// The count, the start and the first child of one node, whose start the caller has summed up.
fn children_right(tree: &[u8], k: usize, start: usize) -> bool
    requires k_in_bounds { record_at k + 16 ≤ length tree.now }
    requires start_value { start ≡ start_of tree.now k }
    ensures { result ≡ children_right tree.now k }
{
    let count = node::child_count(tree, k);
    if count > 63 || start <= k {
        return false;
    }
    let first = node::first_child(tree, k);
    if count == 0 {
        first == 0
    } else {
        first == start
    }
}

// Row 3, of the whole tree. The starts are summed up on the way.
pub fn layout_right(tree: &[u8]) -> bool
    requires { Blocked tree.now }
    ensures { result ≡ layout_right tree.now }
{
    let n = blocks::nodes(tree);
    let mut start = 1;
    for k in 0..n {
        if !children_right(tree, k, start) {
            return false;
        }
        start += node::child_count(tree, k);
    }
    start == n
}
