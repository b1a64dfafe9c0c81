// The steps of a capture visit that visit no child.
#![tactic(auto)]

ghost use Rattle.std.specs.Prelude.{◌≡◌, ◌+◌, ◌≤◌, ◌<◌, ◌^◌, length};
ghost use Rattle.tree.specs.Blocks.{Blocked, nodes_of};
ghost use Rattle.tree.specs.Layout.{Laid};
ghost use Rattle.state.specs.State.{over, count_node};
ghost use Rattle.capture_steps.specs.Step.{depth_of, delta_prunes, stand_pat, probe_of, enter_of};
ghost use Rattle.capture_steps.specs.Step.{noisy_place, noisy_at, PlaceIn, down_of, judge_of, bound_of, stored_of, finish_if};

use record::node;
use score::{neg16, sub16};
use state::{Out, Seen, Settings, State};
use std::ops::ControlFlow;
use transposition::Bound;

// The arguments of a capture visit. Its depth is minus `below`.
#[derive(Clone, Copy)]
pub struct Capture {
    pub node: usize,
    pub alpha: i16,
    pub beta: i16,
    pub below: u8,
    pub ply: usize,
}

// What stays the same while the children are walked; `old` is the alpha left by standing pat.
#[derive(Clone, Copy)]
pub struct Here {
    pub node: usize,
    pub old: i16,
    pub beta: i16,
    pub below: u8,
    pub ply: usize,
}

// What the walk carries: alpha, the best move, the state.
#[derive(Clone, Copy)]
pub struct Loc {
    pub state: State,
    pub alpha: i16,
    pub mv: u16,
}

// What a turn of the walk leaves: a break where it cut.
pub type Turn = ControlFlow<Loc, Loc>;

// What the steps before the walk leave: an answer, or the walk to be made.
pub type Entered = ControlFlow<Out, (Here, Loc)>;

// The depth that the table knows.
fn depth_of(below: u8) -> i8
    requires { below ≤ 127 }
    ensures { result ≡ depth_of below }
{
    -(below as i8)
}

// Delta pruning: the evaluation is over 1000 below alpha.
#[tactic(auto, unfolding(crate::specs::Step::delta_prunes))]
fn delta_prunes(set: Settings, eval: i16, a: Capture) -> bool
    ensures { result ≡ delta_prunes set eval a }
{
    set.delta && eval < sub16(a.alpha, 1000)
}

// The ply's end, delta pruning, standing pat: the answer, or the alpha to go on with.
#[tactic(auto, unfolding(crate::specs::Step::ply_if, crate::specs::Step::delta_if, crate::specs::Step::pat_if, crate::specs::Step::beta_if))]
fn stand_pat(set: Settings, eval: i16, a: Capture) -> ControlFlow<i16, i16>
    ensures { result ≡ stand_pat set eval a }
{
    if usize::from(set.max_ply) <= a.ply {
        return ControlFlow::Break(eval);
    }
    if delta_prunes(set, eval, a) {
        return ControlFlow::Break(a.alpha);
    }
    if a.alpha < eval {
        if a.beta <= eval {
            return ControlFlow::Break(eval);
        }
        return ControlFlow::Continue(eval);
    }
    ControlFlow::Continue(a.alpha)
}

// The table, after standing pat left an alpha.
#[tactic(auto, using(tree::proofs::Blocked::record_in), unfolding(crate::specs::Step::cut_if))]
fn probe(tree: &[u8], words: &[u64], set: Settings, st: State, a: Capture, old: i16) -> Entered
    requires blocked { Blocked tree.now }
    requires node_bound { a.node < nodes_of tree.now }
    requires below_bound { a.below ≤ 127 }
    requires in_bounds { 2 ≤ length words.now }
    ensures { result ≡ probe_of set tree.now words.now st a old }
{
    let Seen { found, state } = st.look(words, set.table, node::hash(tree, a.node));
    let w = state::consult(found, true, depth_of(a.below), old, a.beta);
    if let Some(score) = w.cut {
        return ControlFlow::Break(state.answer(score));
    }
    let here = Here {
        node: a.node,
        old,
        beta: w.beta,
        below: a.below,
        ply: a.ply,
    };
    let loc = Loc {
        alpha: w.alpha,
        mv: w.hint,
        state,
    };
    ControlFlow::Continue((here, loc))
}

// Poll, the ply's end, delta pruning, standing pat, the table.
#[tactic(auto, using(tree::proofs::Blocked::record_in), unfolding(crate::specs::Step::enter_of, crate::specs::Step::stop_if, crate::specs::Step::patted))]
pub fn enter(tree: &[u8], words: &[u64], set: Settings, st: State, a: Capture) -> Entered
    requires blocked { Blocked tree.now }
    requires node_bound { a.node < nodes_of tree.now }
    requires below_bound { a.below ≤ 127 }
    requires in_bounds { 2 ≤ length words.now }
    ensures { result ≡ enter_of set tree.now words.now st a }
{
    let s = st.poll(set.limit);
    if s.stop {
        return ControlFlow::Break(s.answer(0));
    }
    match stand_pat(set, node::evaluation(tree, a.node), a) {
        ControlFlow::Break(score) => ControlFlow::Break(s.answer(score)),
        ControlFlow::Continue(old) => probe(tree, words, set, s, a, old),
    }
}

// A place, if the child there is noisy.
#[tactic(auto, using(crate::proofs::Steps::noisy_rules), unfolding(crate::specs::Step::noisy_at, crate::specs::Step::noisy_if))]
fn noisy(tree: &[u8], first: usize, place: Option<usize>) -> Option<usize>
    requires blocked { Blocked tree.now }
    requires place_in { PlaceIn (nodes_of tree.now) first place }
    ensures { result ≡ noisy_at tree.now first place }
{
    match place {
        Some(p) if !node::is_quiet(tree, first + p) => place,
        _ => None,
    }
}

// The hint's place, if it is a noisy child.
#[tactic(auto, using(tree::proofs::Blocked::record_in, crate::proofs::Steps::hint_in), unfolding(crate::specs::Step::noisy_place))]
pub fn noisy_place(tree: &[u8], here: Here, loc: Loc) -> Option<usize>
    requires laid { Laid tree.now }
    requires node_bound { here.node < nodes_of tree.now }
    ensures { result ≡ noisy_place tree.now here loc }
{
    let place = moves::hint_place(tree, here.node, loc.mv);
    noisy(tree, node::first_child(tree, here.node), place)
}

pub fn counted(loc: Loc) -> State
    ensures { result ≡ count_node loc.state }
{
    loc.state.count_node()
}

// A child's visit: the window negated, one deeper.
pub fn down(here: Here, loc: Loc, c: usize) -> Capture
    requires below_bound { here.below + 1 < 256 }
    requires ply_bound { here.ply + 1 < 2 ^ 64 }
    ensures { result ≡ down_of here loc c }
{
    Capture {
        node: c,
        alpha: neg16(here.beta),
        beta: neg16(loc.alpha),
        below: here.below + 1,
        ply: here.ply + 1,
    }
}

// What a child's answer makes of the walk: nothing, a higher alpha, or a cutoff, which is stored as Lower.
#[tactic(auto, using(tree::proofs::Blocked::record_in), unfolding(crate::specs::Step::judge_of, crate::specs::Step::raise_if, crate::specs::Step::score_if))]
pub fn judge(
    tree: &[u8],
    words: &mut [u64],
    set: Settings,
    here: Here,
    loc: Loc,
    c: usize,
    r: Out,
) -> Turn
    requires blocked { Blocked tree.now }
    requires node_bound { here.node < nodes_of tree.now }
    requires c_bound { c < nodes_of tree.now }
    requires in_bounds { (2 ≤ length words.old) × (here.below ≤ 127) }
    ensures { over result words.new ≡ judge_of set tree.now words.old here loc c r }
{
    let score = neg16(r.score);
    let state = r.state;
    if score <= loc.alpha {
        return ControlFlow::Continue(Loc { state, ..loc });
    }
    let mv = node::move_to(tree, c);
    if score < here.beta {
        return ControlFlow::Continue(Loc {
            alpha: score,
            mv,
            state,
        });
    }
    let hash = node::hash(tree, here.node);
    let depth = depth_of(here.below);
    let state = state.keep(words, set.table, hash, depth, score, mv, Bound::Lower);
    ControlFlow::Break(Loc {
        alpha: score,
        mv,
        state,
    })
}

// Exact if alpha exceeds the alpha left by standing pat, else Upper.
#[tactic(auto, unfolding(crate::specs::Step::bound_if))]
fn bound_of(here: Here, loc: Loc) -> Bound
    ensures { result ≡ bound_of here loc }
{
    if here.old < loc.alpha {
        Bound::Exact
    } else {
        Bound::Upper
    }
}

// Alpha is stored, where there is a move to store with it.
#[tactic(auto, using(tree::proofs::Blocked::record_in), unfolding(crate::specs::Step::store_if))]
fn store_alpha(tree: &[u8], words: &mut [u64], set: Settings, here: Here, loc: Loc) -> Out
    requires blocked { Blocked tree.now }
    requires node_bound { here.node < nodes_of tree.now }
    requires in_bounds { (2 ≤ length words.old) × (here.below ≤ 127) }
    ensures { over result words.new ≡ stored_of tree.now set here loc words.old }
{
    if loc.mv == 0 {
        return loc.state.answer(loc.alpha);
    }
    let hash = node::hash(tree, here.node);
    let depth = depth_of(here.below);
    let bound = bound_of(here, loc);
    let state = loc
        .state
        .keep(words, set.table, hash, depth, loc.alpha, loc.mv, bound);
    state.answer(loc.alpha)
}

// The end of a visit: a cutoff's score was stored; else alpha is.
#[tactic(auto, unfolding(crate::specs::Step::finish_if))]
pub fn finish(tree: &[u8], words: &mut [u64], set: Settings, here: Here, w: Turn) -> Out
    requires blocked { Blocked tree.now }
    requires node_bound { here.node < nodes_of tree.now }
    requires in_bounds { (2 ≤ length words.old) × (here.below ≤ 127) }
    ensures { over result words.new ≡ finish_if w tree.now set here words.old }
{
    match w {
        ControlFlow::Break(loc) => loc.state.answer(loc.alpha),
        ControlFlow::Continue(loc) => store_alpha(tree, words, set, here, loc),
    }
}
