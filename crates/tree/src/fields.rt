// Row 4: flags, evaluations, moves, siblings and unused records.
#![tactic(auto, unfolding(crate::specs::Fields::eval_right, crate::specs::Fields::move_right, crate::specs::Fields::apart, crate::specs::Fields::siblings_right, crate::specs::Fields::fields_ok, crate::specs::Fields::unused_right, crate::specs::Fields::fields_right), using(std::proofs::lemmas::Int::ints, crate::proofs::Every::every_none, crate::proofs::Every::every_more, crate::proofs::Every::every_all, crate::proofs::Blocked::record_in, crate::proofs::Blocked::nodes_most, crate::proofs::Blocked::length_least))]

ghost use Rattle.std.specs.Prelude.{◌≡◌, ◌+◌, ◌<◌, ◌≤◌, length};
ghost use Rattle.record.specs.Node.{record_at};
ghost use Rattle.tree.specs.Blocks.{nodes_of, Blocked};
ghost use Rattle.tree.specs.Layout.{Laid};
ghost use Rattle.tree.specs.Fields.{eval_right, move_right, apart, siblings_right, fields_ok, unused_right, fields_right};

use crate::blocks;
use record::{bytes, node};

// Strictly inside plus and minus (INF - MAX_PLY).
fn eval_right(e: i16, inf: i16, max_ply: u16) -> bool
    ensures { result ≡ eval_right inf max_ply e }
{
    let most = inf as i32 - max_ply as i32;
    if e as i32 <= -most {
        return false;
    }
    (e as i32) < most
}

// The root's move is 0, every other is not.
fn move_right(tree: &[u8], k: usize) -> bool
    requires { record_at k + 16 ≤ length tree.now }
    ensures { result ≡ move_right tree.now k }
{
    let m = node::move_to(tree, k);
    if k == 0 { m == 0 } else { m != 0 }
}

// Child i has another move than each child before it.
fn move_apart(tree: &[u8], first: usize, i: usize) -> bool
    requires blocked { Blocked tree.now }
    requires i_bound { first + i < nodes_of tree.now }
    ensures { result ≡ apart tree.now first i }
{
    let m = node::move_to(tree, first + i);
    for j in 0..i {
        if node::move_to(tree, first + j) == m {
            return false;
        }
    }
    true
}

// The moves of a node's children differ.
fn siblings_right(tree: &[u8], k: usize) -> bool
    requires laid { Laid tree.now }
    requires k_bound { k < nodes_of tree.now }
    ensures { result ≡ siblings_right tree.now k }
{
    let first = node::first_child(tree, k);
    let count = node::child_count(tree, k);
    for i in 0..count {
        if !move_apart(tree, first, i) {
            return false;
        }
    }
    true
}

// Row 4, of one node.
fn node_right(tree: &[u8], k: usize, inf: i16, max_ply: u16) -> bool
    requires laid { Laid tree.now }
    requires k_bound { k < nodes_of tree.now }
    ensures { result ≡ fields_ok inf max_ply tree.now k }
{
    node::flags(tree, k) < 32
        && eval_right(node::evaluation(tree, k), inf, max_ply)
        && move_right(tree, k)
        && siblings_right(tree, k)
}

// The bytes of the last block behind its last used record.
fn unused_right(tree: &[u8]) -> bool
    requires { Blocked tree.now }
    ensures { result ≡ unused_right tree.now }
{
    let last = tree.len() / 512 - 1;
    let used = bytes::le::<2>(tree, 512 * last + 502) as usize;
    let at = 512 * last + 16 * used;
    for i in 0..496 - 16 * used {
        if tree[at + i] != 0 {
            return false;
        }
    }
    true
}

// Row 4, of the whole tree.
pub fn fields_right(tree: &[u8], inf: i16, max_ply: u16) -> bool
    requires { Laid tree.now }
    ensures { result ≡ fields_right inf max_ply tree.now }
{
    let n = blocks::nodes(tree);
    for k in 0..n {
        if !node_right(tree, k, inf, max_ply) {
            return false;
        }
    }
    unused_right(tree)
}
