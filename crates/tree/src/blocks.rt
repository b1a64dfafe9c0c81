// Rows 1 and 2: the length, and each block's mark, number, used count, zero bytes and check.
#![tactic(auto, unfolding(crate::specs::Blocks::length_right, crate::specs::Blocks::used_right, crate::specs::Blocks::block_right, crate::specs::Blocks::blocks_right, crate::specs::Blocks::nodes_of), using(crate::proofs::Every::every_none, crate::proofs::Every::every_more, crate::proofs::Every::every_all))]

ghost use Rattle.std.specs.Prelude.{◌≡◌, ◌+◌, ◌*◌, ◌<◌, ◌≤◌, true, length};
ghost use Rattle.tree.specs.Blocks.{length_right, turn_of, check_to, used_right, block_right, blocks_right, nodes_of};

use record::bytes;

// One to 128 blocks of 512 bytes.
pub fn length_right(tree: &[u8]) -> bool
    ensures { result ≡ length_right tree.now }
{
    tree.len() % 512 == 0 && (1..=128).contains(&(tree.len() / 512))
}

// The check is rotated left one bit, then the word is added modulo 2^32.
fn turn(check: u32, word: u32) -> u32
    ensures { result ≡ turn_of check word }
{
    check.rotate_left(1).wrapping_add(word)
}

// The check of the block that begins at `at`, from its first 127 words.
fn block_check(tree: &[u8], at: usize) -> u32
    requires { at + 512 ≤ length tree.now }
    ensures { result ≡ check_to tree.now at 127 }
{
    let mut check = 0;
    for i in 0..127 {
        check = turn(check, bytes::le::<4>(tree, at + 4 * i) as u32);
    }
    check
}

// 31 records are used in all but the last block, 1 to 31 there.
fn used_right(tree: &[u8], block: usize) -> bool
    requires { 512 * block + 512 ≤ length tree.now }
    ensures { result ≡ used_right tree.now block }
{
    let least = if block + 1 == tree.len() / 512 { 1 } else { 31 };
    (least..=31).contains(&bytes::le::<2>(tree, 512 * block + 502))
}

// Row 2, of one block.
fn block_right(tree: &[u8], block: usize) -> bool
    requires { 512 * block + 512 ≤ length tree.now }
    ensures { result ≡ block_right tree.now block }
{
    let at = 512 * block;
    bytes::le::<4>(tree, at + 496) == 0x65727467
        && bytes::le::<2>(tree, at + 500) == block as u64
        && used_right(tree, block)
        && bytes::le::<4>(tree, at + 504) == 0
        && bytes::le::<4>(tree, at + 508) == u64::from(block_check(tree, at))
}

// Row 2, of the whole tree.
pub fn blocks_right(tree: &[u8]) -> bool
    ensures { result ≡ blocks_right tree.now }
{
    for b in 0..tree.len() / 512 {
        if !block_right(tree, b) {
            return false;
        }
    }
    true
}

// How many nodes the tree has.
pub fn nodes(tree: &[u8]) -> usize
    requires { 512 ≤ length tree.now }
    ensures { result ≡ nodes_of tree.now }
{
    let last = tree.len() / 512 - 1;
    31 * last + bytes::le::<2>(tree, 512 * last + 502) as usize
}
