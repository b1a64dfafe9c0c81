// Futility, and the reductions of late moves.
ghost use Rattle.std.specs.Prelude.{◌≡◌, ◌+◌, ◌-◌, ◌*◌, ◌≤◌, ◌<◌, pos, min};
ghost use Rattle.std.specs.Int.Signed.{lt_z};
ghost use Rattle.score.specs.Wrap.{add16};
ghost use Rattle.tree.specs.Blocks.{Blocked, nodes_of};
ghost use Rattle.turn.specs.Prune.{one, futile_of, late_of, reduction_at};

use carry::{Here, Loc};
use record::node;
use score::add16;
use state::Settings;

// Whether the evaluation and 50 a depth lie below alpha.
#[tactic(auto, using(carry::proofs::Margins::margin_fits, carry::proofs::Margins::margin_is))]
fn below_alpha(here: Here, loc: Loc) -> bool
    ensures { result ≡ lt_z (add16 here.eval (pos (50 * here.depth))) loc.alpha }
{
    add16(here.eval, 50 * i16::from(here.depth)) < loc.alpha
}

// Whether a quiet later move can't reach alpha.
#[tactic(auto, using(tree::proofs::Blocked::record_in), unfolding(crate::specs::Prune::futile_of))]
pub fn futile(tree: &[u8], set: Settings, here: Here, loc: Loc, c: usize) -> bool
    requires blocked { Blocked tree.now }
    requires node_bound { here.node < nodes_of tree.now }
    requires c_bound { c < nodes_of tree.now }
    ensures { result ≡ futile_of tree.now set here loc c }
{
    set.futility
        && !here.full
        && here.depth < 6
        && !node::in_check(tree, here.node)
        && !node::in_check(tree, c)
        && node::is_quiet(tree, c)
        && below_alpha(here, loc)
}

// Whether a move is late and quiet: i moves were tried before it.
#[tactic(auto, using(tree::proofs::Blocked::record_in), unfolding(crate::specs::Prune::late_of))]
fn late(tree: &[u8], set: Settings, here: Here, c: usize, i: usize) -> bool
    requires blocked { Blocked tree.now }
    requires c_bound { c < nodes_of tree.now }
    requires i_bound { i < 63 }
    ensures { result ≡ late_of tree.now set here c i }
{
    set.late_move && node::is_quiet(tree, c) && here.depth > 2 && 3 + usize::from(here.full) < i + 1
}

// r - less, held to 0..most.
fn held(r: u8, less: u8, most: u8) -> u8
    ensures { result ≡ min (r - less) most }
{
    r.saturating_sub(less).min(most)
}

// By how much a late quiet move's depth is reduced.
#[tactic(auto, using(tree::proofs::Blocked::record_in), unfolding(crate::specs::Prune::reduction_if))]
pub fn reduction(tree: &[u8], set: Settings, here: Here, c: usize, i: usize) -> u8
    requires blocked { Blocked tree.now }
    requires node_bound { here.node < nodes_of tree.now }
    requires c_bound { c < nodes_of tree.now }
    requires le_depth { 1 ≤ here.depth }
    requires i_bound { i < 63 }
    ensures { result ≡ reduction_at tree.now set here c i }
{
    if !late(tree, set, here, c, i) {
        return 0;
    }
    let k = here.node;
    let less = u8::from(here.full)
        + u8::from(node::in_check(tree, k))
        + u8::from(node::in_check(tree, c));
    held(
        reductions::reduction(usize::from(here.depth), i + 1),
        less,
        here.depth - 1,
    )
}
