// A node's record, as that part of the lent tree, and its fields, all read through it.
#![tactic(auto, unfolding(crate::specs::Node::record_at, crate::specs::Node::first_of, crate::specs::Node::count_of, crate::specs::Node::flags_of, crate::specs::Node::eval_of, crate::specs::Node::move_of, crate::specs::Node::hash_of, crate::specs::Node::in_check, crate::specs::Node::is_quiet, crate::specs::Node::is_pawn_ending, crate::specs::Node::is_draw, crate::specs::Node::is_improving), using(std::proofs::lemmas::Int::ints, crate::proofs::Places::record_length, crate::proofs::Places::record_byte, crate::proofs::Places::record_le))]

ghost use Rattle.std.specs.Prelude.{◌≡◌, ◌+◌, ◌<◌, ◌≤◌, length};
ghost use Rattle.record.specs.Node.{record_at, record_of, first_of, count_of, flags_of, eval_of, move_of, hash_of, bit_set, in_check, is_quiet, is_pawn_ending, is_draw, is_improving};

use crate::bytes;

// The 16 bytes of a node.
pub fn record(tree: &[u8], node: usize) -> &[u8]
    requires { record_at node + 16 ≤ length tree.now }
    ensures { result.now ≡ record_of tree.now node }
{
    let at = 512 * (node / 31) + 16 * (node % 31);
    &tree[at..at + 16]
}

pub fn first_child(tree: &[u8], node: usize) -> usize
    requires { record_at node + 16 ≤ length tree.now }
    ensures { result ≡ first_of tree.now node }
{
    bytes::le::<2>(record(tree, node), 0) as usize
}

pub fn child_count(tree: &[u8], node: usize) -> usize
    requires { record_at node + 16 ≤ length tree.now }
    ensures { result ≡ count_of tree.now node }
{
    usize::from(record(tree, node)[2])
}

pub fn flags(tree: &[u8], node: usize) -> u8
    requires { record_at node + 16 ≤ length tree.now }
    ensures { result ≡ flags_of tree.now node }
{
    record(tree, node)[3]
}

pub fn evaluation(tree: &[u8], node: usize) -> i16
    requires { record_at node + 16 ≤ length tree.now }
    ensures { result ≡ eval_of tree.now node }
{
    score::of_bits16(bytes::le::<2>(record(tree, node), 4) as u16)
}

pub fn move_to(tree: &[u8], node: usize) -> u16
    requires { record_at node + 16 ≤ length tree.now }
    ensures { result ≡ move_of tree.now node }
{
    bytes::le::<2>(record(tree, node), 6) as u16
}

pub fn hash(tree: &[u8], node: usize) -> u64
    requires { record_at node + 16 ≤ length tree.now }
    ensures { result ≡ hash_of tree.now node }
{
    bytes::le::<8>(record(tree, node), 8)
}

// Whether a bit of the flags is set.
fn flag(tree: &[u8], node: usize, bit: u32) -> bool
    requires node_in_bounds { record_at node + 16 ≤ length tree.now }
    requires bit_of_byte { bit < 8 }
    ensures { result ≡ bit_set bit (flags_of tree.now node) }
{
    (flags(tree, node) >> bit) % 2 == 1
}

pub fn in_check(tree: &[u8], node: usize) -> bool
    requires { record_at node + 16 ≤ length tree.now }
    ensures { result ≡ in_check tree.now node }
{
    flag(tree, node, 0)
}

pub fn is_quiet(tree: &[u8], node: usize) -> bool
    requires { record_at node + 16 ≤ length tree.now }
    ensures { result ≡ is_quiet tree.now node }
{
    flag(tree, node, 1)
}

pub fn is_pawn_ending(tree: &[u8], node: usize) -> bool
    requires { record_at node + 16 ≤ length tree.now }
    ensures { result ≡ is_pawn_ending tree.now node }
{
    flag(tree, node, 2)
}

pub fn is_draw(tree: &[u8], node: usize) -> bool
    requires { record_at node + 16 ≤ length tree.now }
    ensures { result ≡ is_draw tree.now node }
{
    flag(tree, node, 3)
}

pub fn is_improving(tree: &[u8], node: usize) -> bool
    requires { record_at node + 16 ≤ length tree.now }
    ensures { result ≡ is_improving tree.now node }
{
    flag(tree, node, 4)
}
