// Row 5, and a node's level: how many moves below the root it lies. Each pass goes over the nodes once.
ghost use Rattle.std.specs.Prelude.{◌≡◌, ◌≤◌};
ghost use Rattle.tree.specs.Blocks.{nodes_of};
ghost use Rattle.tree.specs.Layout.{start_of, Laid};
ghost use Rattle.tree.specs.Level.{level_of, levels_right};

use crate::blocks;
use record::node;

// Where the children of node `to` begin, given where those of an earlier node `from` do.
fn start_from(tree: &[u8], from: usize, start: usize, to: usize) -> usize
    requires laid { Laid tree.now }
    requires from_le_to { from ≤ to }
    requires to_bound { to ≤ nodes_of tree.now }
    requires start_value { start ≡ start_of tree.now from }
    ensures { result ≡ start_of tree.now to }
{
    let mut sum = start;
    for k in from..to {
        sum += node::child_count(tree, k);
    }
    sum
}

// Row 5: level 101 would begin behind the last node.
pub fn levels_right(tree: &[u8]) -> bool
    requires { Laid tree.now }
    ensures { result ≡ levels_right tree.now }
{
    let mut begin: usize = 0;
    let mut next: usize = 1;
    for l in 0usize..101 {
        let after = start_from(tree, begin, next, next);
        begin = next;
        next = after;
    }
    begin == blocks::nodes(tree)
}

// A node's level: how many of the levels 1 to 100 begin at the node or before it.
pub fn level(tree: &[u8], node: usize) -> usize
    requires { Laid tree.now }
    ensures { result ≡ level_of tree.now node }
{
    let mut begin: usize = 0;
    let mut next: usize = 1;
    let mut level: usize = 0;
    for l in 0usize..100 {
        if next <= node {
            level += 1;
        }
        let after = start_from(tree, begin, next, next);
        begin = next;
        next = after;
    }
    level
}
