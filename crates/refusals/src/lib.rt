// The refusal table of 01: a function for each row, or for the part of a row that an entry takes, and the rows' order.
#![tactic(auto, unfolding(crate::specs::Rows::inf_right, crate::specs::Rows::max_ply_right, crate::specs::Rows::hh_max_right, crate::specs::Rows::side_right, crate::specs::Rows::limit_right, crate::specs::Rows::tree_settings_right, crate::specs::Rows::history_settings_right, crate::specs::Rows::settings_right, crate::specs::Rows::history_sized, crate::specs::Rows::history_right, crate::specs::Rows::node_right, crate::specs::Rows::window_right, crate::specs::Rows::depth_right, crate::specs::Rows::ply_right, crate::specs::Rows::range_right, crate::specs::First::tree_rows, crate::specs::First::search_rows, crate::specs::First::entry_rows), using(std::proofs::lemmas::Int::ints, tree::proofs::Blocked::length_least))]

ghost use Rattle.std.specs.Prelude.{◌≡◌, true, pos};
ghost use Rattle.std.specs.Int.Signed.{le_z};
ghost use Rattle.refusal.specs.Number.{number_told};
ghost use Rattle.tree.specs.Blocks.{Blocked};
ghost use Rattle.refusals.specs.Rows.{inf_right, max_ply_right, hh_max_right, side_right, limit_right, tree_settings_right, history_settings_right, settings_right, table_right, history_sized, history_right, node_right, window_right, depth_right, ply_right, range_right};
ghost use Rattle.refusals.specs.First.{tree_rows, search_rows, entry_rows};

use refusal::Refusal;
use state::Settings;

fn inf_right(inf: i16) -> bool
    ensures { result ≡ inf_right inf }
{
    (1000..=30000).contains(&inf)
}

fn max_ply_right(ply: u16) -> bool
    ensures { result ≡ max_ply_right ply }
{
    (32..=128).contains(&ply)
}

fn limit_right(limit: u64) -> bool
    ensures { result ≡ limit_right limit }
{
    (1..=1000000000).contains(&limit)
}

// Row 6, of the setting that a delta takes.
pub fn hh_max_right(hh: i16) -> bool
    ensures { result ≡ hh_max_right hh }
{
    (4..=16384).contains(&hh)
}

// Row 6, of the settings that a tree's check takes.
pub fn tree_settings_right(inf: i16, ply: u16) -> bool
    ensures { result ≡ tree_settings_right inf ply }
{
    inf_right(inf) && max_ply_right(ply)
}

// Row 6, of the settings that a bonus or a malus takes.
pub fn history_settings_right(hh: i16, side: u16) -> bool
    ensures { result ≡ history_settings_right hh side }
{
    hh_max_right(hh) && side <= 1
}

// Row 6, of the settings that a search takes.
pub fn settings_right(set: Settings) -> bool
    ensures { result ≡ settings_right set }
{
    tree_settings_right(set.inf, set.max_ply)
        && history_settings_right(set.hh_max, u16::from(set.side))
        && limit_right(set.limit)
}

// Row 8, of the table: 2n words, n a power of two, 1 to 65,536.
pub fn table_right(words: &[u64]) -> bool
    ensures { result ≡ table_right words.now }
{
    table::well_sized(words.len())
}

// Row 8, of the history.
pub fn history_sized(history: &[i16]) -> bool
    ensures { result ≡ history_sized history.now }
{
    history.len() == 8192
}

// Row 9, of an HH_MAX in its range.
pub fn history_right(history: &[i16], hh: i16) -> bool
    requires { le_z (pos 0) hh ≡ true }
    ensures { result ≡ history_right hh history.now }
{
    history::within(history, score::bits16(hh))
}

// Row 7, of the node, in a tree whose blocks are right.
pub fn node_right(tree: &[u8], node: u64) -> bool
    requires { Blocked tree.now }
    ensures { result ≡ node_right tree.now node }
{
    node < tree::blocks::nodes(tree) as u64
}

// Row 7, of the window: -INF <= alpha < beta <= INF.
pub fn window_right(inf: i16, alpha: i16, beta: i16) -> bool
    ensures { result ≡ window_right inf alpha beta }
{
    if i32::from(alpha) < -i32::from(inf) {
        return false;
    }
    alpha < beta && beta <= inf
}

// Row 7, of the depth.
pub fn depth_right(depth: i8) -> bool
    ensures { result ≡ depth_right depth }
{
    (0..=30).contains(&depth)
}

// Row 7, of the ply.
pub fn ply_right(most: u16, ply: u64) -> bool
    ensures { result ≡ ply_right most ply }
{
    ply <= u64::from(most)
}

// Row 7, of the root's range: start from 1 on, end from start to 31.
pub fn range_right(start: i8, end: i8) -> bool
    ensures { result ≡ range_right start end }
{
    1 <= start && start <= end && end <= 31
}

// The first refusal that the tree and its settings get: 6, then 1 to 5.
pub fn tree_rows(tree: &[u8], inf: i16, ply: u16) -> Result<(), Refusal>
    ensures { number_told result ≡ tree_rows inf ply tree.now }
{
    if !tree_settings_right(inf, ply) {
        return Err(Refusal::Settings);
    }
    tree::check(tree, inf, ply)
}

// The first of the refusals that both searches test: 6, 1 to 5, 8.
pub fn search_rows(
    tree: &[u8],
    words: &[u64],
    history: &[i16],
    set: Settings,
) -> Result<(), Refusal>
    ensures { number_told result ≡ search_rows tree.now words.now history.now set }
{
    if !settings_right(set) {
        return Err(Refusal::Settings);
    }
    tree::check(tree, set.inf, set.max_ply)?;
    if !(table_right(words) && history_sized(history)) {
        return Err(Refusal::Sizes);
    }
    Ok(())
}

// The first of the refusals 6, 8 and 9 that a bonus or a malus gets.
pub fn entry_rows(history: &[i16], hh: i16, side: u16) -> Result<(), Refusal>
    ensures { number_told result ≡ entry_rows history.now hh side }
{
    if !history_settings_right(hh, side) {
        return Err(Refusal::Settings);
    }
    if !history_sized(history) {
        return Err(Refusal::Sizes);
    }
    if !history_right(history, hh) {
        return Err(Refusal::Entries);
    }
    Ok(())
}
