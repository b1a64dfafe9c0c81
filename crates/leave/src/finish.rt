// The end of a visit.
ghost use Rattle.std.specs.Prelude.{◌≡◌, ◌≤◌, ◌<◌, length};
ghost use Rattle.tree.specs.Blocks.{Blocked, nodes_of};
ghost use Rattle.record.specs.Node.{in_check};
ghost use Rattle.state.specs.State.{over};
ghost use Rattle.leave.specs.Finish.{game_end, finish_if, stored_of, bound_of};

use carry::{Here, Loc, Turn};
use record::node;
use score::{add16, neg16};
use state::{Out, Settings};
use std::ops::ControlFlow;
use transposition::Bound;

// -INF + ply in check, else 0.
#[tactic(auto, using(tree::proofs::Blocked::record_in), unfolding(crate::specs::Finish::game_end))]
fn game_end(tree: &[u8], set: Settings, here: Here) -> i16
    requires blocked { Blocked tree.now }
    requires node_bound { here.node < nodes_of tree.now }
    requires ply_bound { here.ply ≤ 32767 }
    ensures { result ≡ game_end (in_check tree.now here.node) set.inf here.ply }
{
    if node::in_check(tree, here.node) {
        return add16(neg16(set.inf), here.ply as i16);
    }
    0
}

// Exact if the best score exceeds the alpha of entry, else Upper.
#[tactic(auto, unfolding(crate::specs::Finish::bound_if))]
fn bound_of(here: Here, loc: Loc) -> Bound
    ensures { result ≡ bound_of here loc }
{
    if here.old < loc.best {
        Bound::Exact
    } else {
        Bound::Upper
    }
}

// The best score is stored, and alpha is the answer.
#[tactic(auto, using(tree::proofs::Blocked::record_in), unfolding(crate::specs::Finish::stored_of))]
fn store_best(tree: &[u8], words: &mut [u64], set: Settings, here: Here, loc: Loc) -> Out
    requires blocked { Blocked tree.now }
    requires node_bound { here.node < nodes_of tree.now }
    requires in_bounds { (2 ≤ length words.old) × (here.depth ≤ 31) }
    ensures { over result words.new ≡ stored_of tree.now set here loc words.old }
{
    let hash = node::hash(tree, here.node);
    let depth = here.depth as i8;
    let bound = bound_of(here, loc);
    let after = loc
        .state
        .keep(words, set.table, hash, depth, loc.best, loc.mv, bound);
    after.answer(loc.alpha)
}

// The cutoff's score, the end of the game, or alpha, with the best score stored.
#[tactic(auto, using(tree::proofs::Blocked::record_in), unfolding(crate::specs::Finish::finish_if, crate::specs::Finish::end_if))]
pub fn finish(tree: &[u8], words: &mut [u64], set: Settings, here: Here, w: Turn) -> Out
    requires blocked { Blocked tree.now }
    requires node_bound { here.node < nodes_of tree.now }
    requires in_bounds { (2 ≤ length words.old) × ((here.depth ≤ 31) × (here.ply ≤ 32767)) }
    ensures { over result words.new ≡ finish_if w tree.now set here words.old }
{
    match w {
        ControlFlow::Break(loc) => loc.state.answer(loc.best),
        ControlFlow::Continue(loc) if node::child_count(tree, here.node) == 0 => {
            loc.state.answer(game_end(tree, set, here))
        }
        ControlFlow::Continue(loc) => store_best(tree, words, set, here, loc),
    }
}
