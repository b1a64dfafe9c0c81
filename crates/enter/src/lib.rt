// The steps of a node's visit before its moves: extension, draw, table, reverse futility, inner deepening's own, the hint's place.
#![tactic(auto)]

ghost use Rattle.std.specs.Prelude.{◌≡◌, ◌≤◌, ◌<◌, length};
ghost use Rattle.tree.specs.Blocks.{Blocked, nodes_of};
ghost use Rattle.tree.specs.Layout.{Laid};
ghost use Rattle.enter.specs.Enter.{extend_of, full_window, margin, reverse_futile, probe_of, enter_of, deepens_of, inner_of, hinted_of, hint_place};

use carry::{Args, Entered, Here, Loc};
use record::node;
use score::{add16, same16, sub16};
use state::{Out, Seen, Settings, State};
use std::ops::ControlFlow;

// In check, depth + 1.
#[tactic(auto, using(tree::proofs::Blocked::record_in), unfolding(crate::specs::Enter::extended, crate::specs::Enter::extend_of))]
pub fn extend(tree: &[u8], a: Args) -> Args
    requires blocked { Blocked tree.now }
    requires node_bound { a.node < nodes_of tree.now }
    requires depth_bound { a.depth ≤ 30 }
    ensures { result ≡ extend_of tree.now a }
{
    if node::in_check(tree, a.node) {
        return Args {
            depth: a.depth + 1,
            ..a
        };
    }
    a
}

// A full window is one whose alpha is not beta - 1.
#[tactic(auto, unfolding(crate::specs::Enter::full_window))]
fn full_window(a: Args) -> bool
    ensures { result ≡ full_window a.alpha a.beta }
{
    !same16(a.alpha, sub16(a.beta, 1))
}

// What the evaluation must reach: beta and 75 a depth, less 20 if improving.
#[tactic(auto, using(tree::proofs::Blocked::record_in), unfolding(crate::specs::Enter::margin_if))]
fn reverse_margin(tree: &[u8], here: Here) -> i16
    requires blocked { Blocked tree.now }
    requires node_bound { here.node < nodes_of tree.now }
    requires depth_bound { here.depth < 7 }
    ensures { result ≡ margin tree.now here }
{
    let k = here.node;
    let m = add16(here.beta, 75 * i16::from(here.depth));
    if node::is_improving(tree, k) {
        return sub16(m, 20);
    }
    m
}

// Whether the evaluation is so far above beta that the moves need no look.
#[tactic(auto, using(tree::proofs::Blocked::record_in), unfolding(crate::specs::Enter::reverse_futile))]
fn reverse_futile(tree: &[u8], set: Settings, here: Here) -> bool
    requires blocked { Blocked tree.now }
    requires node_bound { here.node < nodes_of tree.now }
    ensures { result ≡ reverse_futile tree.now set here }
{
    set.reverse_futility
        && !here.full
        && here.depth < 7
        && !node::in_check(tree, here.node)
        && !node::is_pawn_ending(tree, here.node)
        && reverse_margin(tree, here) <= here.eval
}

// The table, then reverse futility.
#[tactic(auto, using(tree::proofs::Blocked::record_in), unfolding(crate::specs::Enter::probe_of, crate::specs::Enter::cut_if, crate::specs::Enter::reverse_if))]
fn probe(tree: &[u8], words: &[u64], set: Settings, st: State, a: Args) -> Entered
    requires blocked { Blocked tree.now }
    requires node_bound { a.node < nodes_of tree.now }
    requires depth_bound { a.depth ≤ 31 }
    requires in_bounds { 2 ≤ length words.now }
    ensures { result ≡ probe_of set tree.now words.now st a }
{
    let full = full_window(a);
    let Seen { found, state } = st.look(words, set.table, node::hash(tree, a.node));
    let w = state::consult(found, !full, a.depth as i8, a.alpha, a.beta);
    if let Some(score) = w.cut {
        return ControlFlow::Break(state.answer(score));
    }
    let here = Here {
        node: a.node,
        side: a.side,
        old: a.alpha,
        beta: w.beta,
        depth: a.depth,
        ply: a.ply,
        full,
        eval: node::evaluation(tree, a.node),
    };
    if reverse_futile(tree, set, here) {
        return ControlFlow::Break(state.answer(here.eval));
    }
    let loc = Loc {
        alpha: w.alpha,
        best: a.alpha,
        mv: w.hint,
        state,
    };
    ControlFlow::Continue((here, loc))
}

// Draw, table, reverse futility.
#[tactic(auto, using(tree::proofs::Blocked::record_in), unfolding(crate::specs::Enter::enter_of, crate::specs::Enter::draw_if))]
pub fn enter(tree: &[u8], words: &[u64], set: Settings, st: State, a: Args) -> Entered
    requires blocked { Blocked tree.now }
    requires node_bound { a.node < nodes_of tree.now }
    requires depth_bound { a.depth ≤ 31 }
    requires in_bounds { 2 ≤ length words.now }
    ensures { result ≡ enter_of set tree.now words.now st a }
{
    if node::is_draw(tree, a.node) {
        return ControlFlow::Break(st.answer(0));
    }
    probe(tree, words, set, st, a)
}

// Whether inner deepening is due: a full window, no hint, depth over 2.
#[tactic(auto, unfolding(crate::specs::Enter::deepens_of))]
pub fn deepens(set: Settings, here: Here, loc: Loc) -> bool
    ensures { result ≡ deepens_of set here loc }
{
    set.inner_deepening && here.full && loc.mv == 0 && here.depth > 2
}

// The same node and ply, depth - 2.
pub fn inner(here: Here, loc: Loc) -> Args
    requires { 2 ≤ here.depth }
    ensures { result ≡ inner_of here loc }
{
    Args {
        node: here.node,
        side: here.side,
        alpha: loc.alpha,
        beta: here.beta,
        depth: here.depth - 2,
        ply: here.ply,
    }
}

// The hint that inner deepening left in the table.
#[tactic(auto, using(tree::proofs::Blocked::record_in), unfolding(crate::specs::Enter::hinted_of))]
pub fn hinted(tree: &[u8], words: &[u64], set: Settings, here: Here, loc: Loc, r: Out) -> Loc
    requires blocked { Blocked tree.now }
    requires node_bound { here.node < nodes_of tree.now }
    requires in_bounds { 2 ≤ length words.now }
    ensures { result ≡ hinted_of set tree.now words.now here loc r }
{
    let Seen { found, state } = r.state.look(words, set.table, node::hash(tree, here.node));
    Loc {
        mv: state::hint_of(found),
        state,
        ..loc
    }
}

// The hint's place, if it is a child.
#[tactic(auto, unfolding(crate::specs::Enter::hint_place))]
pub fn hint_place(tree: &[u8], here: Here, loc: Loc) -> Option<usize>
    requires laid { Laid tree.now }
    requires node_bound { here.node < nodes_of tree.now }
    ensures { result ≡ hint_place tree.now here loc }
{
    moves::hint_place(tree, here.node, loc.mv)
}
