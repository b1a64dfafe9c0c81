// One move's turn: the windows in which its child is visited, and what the answer makes of the walk.
ghost use Rattle.std.specs.Prelude.{◌≡◌, ◌+◌, ◌≤◌, ◌<◌, ◌^◌};
ghost use Rattle.std.specs.Int.Signed.{lt_z};
ghost use Rattle.score.specs.Wrap.{neg16};
ghost use Rattle.tree.specs.Blocks.{Blocked, nodes_of};
ghost use Rattle.turn.specs.Window.{counted_of, full_of, null_of, first_best, again_of, inside_of, judge_of};

use carry::{Args, Here, Loc, Turn};
use record::node;
use score::{neg16, sub16};
use state::Out;
use std::ops::ControlFlow;

// The move is counted.
pub fn counted(loc: Loc) -> Loc
    ensures { result ≡ counted_of loc }
{
    Loc {
        state: loc.state.count_node(),
        ..loc
    }
}

// A child's visit in the full window.
pub fn full(here: Here, loc: Loc, c: usize) -> Args
    requires side_bound { here.side ≤ 1 }
    requires le_depth { 1 ≤ here.depth }
    requires ply_bound { here.ply + 1 < 2 ^ 64 }
    ensures { result ≡ full_of here loc c }
{
    Args {
        node: c,
        side: 1 - here.side,
        alpha: neg16(here.beta),
        beta: neg16(loc.alpha),
        depth: here.depth - 1,
        ply: here.ply + 1,
    }
}

// A child's visit in the null window above alpha, at a depth reduced by d.
pub fn null(here: Here, loc: Loc, c: usize, d: u8) -> Args
    requires side_bound { here.side ≤ 1 }
    requires d_bound { 1 + d ≤ here.depth }
    requires ply_bound { here.ply + 1 < 2 ^ 64 }
    ensures { result ≡ null_of here loc c d }
{
    let beta = neg16(loc.alpha);
    Args {
        node: c,
        side: 1 - here.side,
        alpha: sub16(beta, 1),
        beta,
        depth: here.depth - 1 - d,
        ply: here.ply + 1,
    }
}

// The first move's score and move are the best so far, whatever they are.
#[tactic(auto, using(tree::proofs::Blocked::record_in))]
pub fn first(tree: &[u8], loc: Loc, c: usize, r: Out) -> Loc
    requires blocked { Blocked tree.now }
    requires c_bound { c < nodes_of tree.now }
    ensures { result ≡ first_best tree.now loc c r }
{
    Loc {
        best: neg16(r.score),
        mv: node::move_to(tree, c),
        ..loc
    }
}

// Whether a child's score, negated, is above alpha. A sum of 32 bits tells it sooner than a negation of 16 does; -32,768 is its own
// negation.
#[tactic(auto, using(crate::proofs::Negated::least_not_above, crate::proofs::Negated::sum_is_above, crate::proofs::Negated::sum_fits))]
fn beats(alpha: i16, score: i16) -> bool
    ensures { result ≡ lt_z alpha (neg16 score) }
{
    score > -32768 && i32::from(alpha) + i32::from(score) < 0
}

// Whether a child's score, negated, is below beta.
#[tactic(auto, using(crate::proofs::Negated::least_below, crate::proofs::Negated::sum_is_below, crate::proofs::Negated::sum_fits))]
fn under(score: i16, beta: i16) -> bool
    ensures { result ≡ lt_z (neg16 score) beta }
{
    if score < -32767 {
        return -32768 < beta;
    }
    0 < i32::from(beta) + i32::from(score)
}

// Whether a reduced visit beat alpha.
#[tactic(auto, unfolding(crate::specs::Window::again_of))]
pub fn again(loc: Loc, d: u8, r: Out) -> bool
    ensures { result ≡ again_of loc d r }
{
    d != 0 && beats(loc.alpha, r.score)
}

// Whether a null window's score lies strictly inside the window.
#[tactic(auto, unfolding(crate::specs::Window::inside_of))]
pub fn inside(here: Here, loc: Loc, r: Out) -> bool
    ensures { result ≡ inside_of here loc r }
{
    beats(loc.alpha, r.score) && under(r.score, here.beta)
}

// What a child's answer makes of the walk: nothing, a higher alpha, or a cutoff.
#[tactic(auto, unfolding(crate::specs::Window::judge_of, crate::specs::Window::raise_if, crate::specs::Window::beta_if))]
pub fn judge(here: Here, loc: Loc, mv: u16, r: Out) -> Turn
    ensures { result ≡ judge_of here loc mv r }
{
    let score = neg16(r.score);
    let state = r.state;
    if score <= loc.alpha {
        return ControlFlow::Continue(Loc { state, ..loc });
    }
    let l = Loc {
        alpha: score,
        best: score,
        mv,
        state,
    };
    if here.beta <= score {
        ControlFlow::Break(l)
    } else {
        ControlFlow::Continue(l)
    }
}
