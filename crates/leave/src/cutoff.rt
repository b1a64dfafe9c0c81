// A cutoff: bonus and malus, and the store.
ghost use Rattle.std.specs.Prelude.{◌≡◌, true, ℕ, ◌≤◌, ◌<◌, pos, nat_abs, length};
ghost use Rattle.std.specs.Int.Signed.{lt_z};
ghost use Rattle.tree.specs.Blocks.{Blocked, nodes_of};
ghost use Rattle.moves.specs.Order.{child_of};
ghost use Rattle.carry.specs.Carry.{with};
ghost use Rattle.leave.specs.Cutoff.{malus_at, credit_of, cutoff_of};

use carry::{Here, Loc};
use record::node;
use state::Settings;
use transposition::Bound;

// The malus of the i-th move tried, if it is quiet and not the first.
#[tactic(auto, using(tree::proofs::Blocked::record_in), unfolding(crate::specs::Cutoff::malus_if))]
fn malus_at(tree: &[u8], history: &mut [i16], hh: u16, here: Here, c: usize, i: usize)
    requires blocked { Blocked tree.now }
    requires c_bound { c < nodes_of tree.now }
    requires history_len { (length history.old ≡ 8192) × ((here.side ≤ 1) × ((here.depth ≤ 31) × (0 < hh))) }
    ensures { history.new ≡ malus_at tree.now hh here c i history.old }
{
    if i > 0 && node::is_quiet(tree, c) {
        let mv = node::move_to(tree, c);
        history::malus(history, hh, here.side, mv, here.depth as i8);
    }
}

// Bonus, then the malus of each earlier move in order. The earlier moves are found again by walking the children.
#[tactic(auto, using(crate::proofs::Credits::malus_none, crate::proofs::Credits::malus_more), unfolding(crate::specs::Cutoff::credit_of))]
fn credit(
    tree: &[u8],
    history: &mut [i16],
    hh: u16,
    here: Here,
    place: Option<usize>,
    mv: u16,
    n: usize,
)
    requires blocked { Blocked tree.now }
    requires node_bound { here.node < nodes_of tree.now }
    requires by_index { (j : ℕ) → j < n → child_of tree.now here.node place j < nodes_of tree.now }
    requires history_len { (length history.old ≡ 8192) × ((here.side ≤ 1) × ((here.depth ≤ 31) × (0 < hh))) }
    ensures { history.new ≡ credit_of tree.now hh here place mv n history.old }
{
    history::bonus(history, hh, here.side, mv, here.depth as i8);
    for i in 0..n {
        let c = moves::child(tree, here.node, place, i);
        malus_at(tree, history, hh, here, c, i);
    }
}

// A cutoff by the i-th move, which leads to c: bonus and malus if it is quiet, and the score stored as Lower.
#[tactic(auto, using(crate::proofs::Credits::cutoff_rules), unfolding(crate::specs::Cutoff::cutoff_of, crate::specs::Cutoff::credit_if))]
pub fn cutoff(
    tree: &[u8],
    words: &mut [u64],
    history: &mut [i16],
    set: Settings,
    here: Here,
    place: Option<usize>,
    loc: Loc,
    c: usize,
    i: usize,
) -> Loc
    requires blocked { Blocked tree.now }
    requires node_bound { here.node < nodes_of tree.now }
    requires c_bound { c < nodes_of tree.now }
    requires by_index { (j : ℕ) → j < i → child_of tree.now here.node place j < nodes_of tree.now }
    requires in_bounds { (2 ≤ length words.old) × ((length history.old ≡ 8192) × ((here.side ≤ 1) × ((here.depth ≤ 31) × (lt_z (pos 0) set.hh_max ≡ true)))) }
    ensures { with result words.new history.new ≡ cutoff_of tree.now set here place c i loc words.old history.old }
{
    let hash = node::hash(tree, here.node);
    let depth = here.depth as i8;
    let state = loc.state.keep(
        words,
        set.table,
        hash,
        depth,
        loc.best,
        loc.mv,
        Bound::Lower,
    );
    if node::is_quiet(tree, c) {
        let hh = set.hh_max.unsigned_abs();
        credit(tree, history, hh, here, place, loc.mv, i);
    }
    Loc { state, ..loc }
}
