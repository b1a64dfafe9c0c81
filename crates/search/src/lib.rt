// The node search (000, search_node): a node's visit walks its children, and each child is a visit again.
#![tactic(auto)]

ghost use Rattle.std.specs.Prelude.{◌≡◌, true, ℕ, ◌+◌, ◌-◌, ◌*◌, ◌≤◌, ◌<◌, ◌^◌};
ghost use Rattle.tree.specs.Blocks.{nodes_of};
ghost use Rattle.moves.specs.Kid.{Kid};
ghost use Rattle.enter.specs.Enter.{deepens_of};
ghost use Rattle.carry.specs.Carry.{with};
ghost use Rattle.visits.specs.Reach.{Ready, Reach, Inside, need};
ghost use Rattle.visits.specs.Search.{capture_of, visit_f, deepen_f, walk_here, turn_f, reduced_f, widen_f};

use capture_steps::Capture;
use carry::{Args, Here, Loc, Turn};
use leave::{cutoff, finish};
use record::node;
use state::{Out, Settings, State};
use std::ops::ControlFlow;
use table::Stats;
use turn::{prune, window};

// The same state, field by field: what is copied whole is kept in memory, what is rebuilt in registers.
fn rebuilt(s: State) -> State
    ensures { result ≡ s }
{
    let c = s.stats;
    let stats = Stats {
        lookups: c.lookups,
        inserts: c.inserts,
        hits: c.hits,
        misses: c.misses,
        collisions: c.collisions,
        age: c.age,
    };
    State {
        stats,
        nodes: s.nodes,
        stop: s.stop,
    }
}

// What the walk begins with, and goes on with after a turn, rebuilt as well.
fn goes_on(loc: Loc) -> Loc
    ensures { result ≡ loc }
{
    Loc {
        state: rebuilt(loc.state),
        alpha: loc.alpha,
        best: loc.best,
        mv: loc.mv,
    }
}

// At depth 0: captures at depth -1, ply + 1.
fn capture_of(a: Args) -> Capture
    requires { a.ply + 1 < 2 ^ 64 }
    ensures { result ≡ capture_of a }
{
    Capture {
        node: a.node,
        alpha: a.alpha,
        beta: a.beta,
        below: 1,
        ply: a.ply + 1,
    }
}

// Poll; in check, depth + 1; depth 0: captures; draw, table, reverse futility; inner deepening; moves; end of game; store.
// Two answers are bound first: that of captures is copied more cheaply from a place apart from the others', and that of `enter`, matched
// as it is returned, would be packed into one place and taken apart again.
#[cycle(node_visit)]
#[tactic(auto, using(visits::proofs::Asked::node_rules))]
pub fn search_node(
    tree: &[u8],
    words: &mut [u64],
    history: &mut [i16],
    set: Settings,
    st: State,
    a: Args,
) -> Out
    requires ready { Ready set tree.now words.old history.old }
    requires reach { Reach tree.now a }
    ensures { (k : ℕ) → need tree.now a.node a.depth < k →
        with result words.new history.new ≡
        visit_f k tree.now set st words.old history.old a }
{
    let s = st.poll(set.limit);
    let stop = s.stop;
    if stop {
        return s.answer(0);
    }
    let x = enter::extend(tree, a);
    let depth = x.depth;
    if depth == 0 {
        let q = captures::captures(tree, words, set, rebuilt(s), capture_of(x));
        return q;
    }
    let e = enter::enter(tree, words, set, s, x);
    match e {
        ControlFlow::Break(o) => o,
        ControlFlow::Continue((here, loc)) => {
            let l = if enter::deepens(set, here, loc) {
                deepen(tree, words, history, set, here, loc)
            } else {
                loc
            };
            let w = walk(tree, words, history, set, here, l);
            finish::finish(tree, words, set, here, w)
        }
    }
}

// Inner deepening: in a full window without a hint, a visit of the same node, two shallower, may leave a hint in the table.
#[cycle(node_visit)]
#[tactic(auto, using(visits::proofs::Asked::node_rules))]
fn deepen(
    tree: &[u8],
    words: &mut [u64],
    history: &mut [i16],
    set: Settings,
    here: Here,
    loc: Loc,
) -> Loc
    requires ready { Ready set tree.now words.old history.old }
    requires inside { Inside tree.now here }
    requires due { deepens_of set here loc ≡ true }
    ensures { (k : ℕ) → need tree.now here.node here.depth ≤ k + 1 →
        with result words.new history.new ≡
        deepen_f (visit_f k tree.now set) tree.now set here loc words.old history.old }
{
    let st = loc.state;
    let r = search_node(tree, words, history, set, st, enter::inner(here, loc));
    enter::hinted(tree, words, set, here, loc, r)
}

// The moves in their order, until one cuts.
#[cycle(node_visit)]
#[tactic(auto, using(visits::proofs::Asked::node_rules))]
fn walk(
    tree: &[u8],
    words: &mut [u64],
    history: &mut [i16],
    set: Settings,
    here: Here,
    loc: Loc,
) -> Turn
    requires ready { Ready set tree.now words.old history.old }
    requires inside { Inside tree.now here }
    ensures { (k : ℕ) → need tree.now here.node 0 ≤ k →
        with result words.new history.new ≡
        walk_here (visit_f k tree.now set) tree.now set here loc words.old history.old }
{
    let k = here.node;
    let n = node::child_count(tree, k);
    let place = enter::hint_place(tree, here, loc);
    let mut l = goes_on(loc);
    for i in 0..n {
        let c = moves::child(tree, k, place, i);
        match turn(tree, words, history, set, here, l, c, i) {
            ControlFlow::Continue(after) => l = goes_on(after),
            ControlFlow::Break(after) => {
                let cut = goes_on(after);
                return ControlFlow::Break(cutoff::cutoff(
                    tree, words, history, set, here, place, cut, c, i,
                ));
            }
        }
    }
    ControlFlow::Continue(l)
}

// One move: the first in the full window, a futile one skipped, the others in a null window first.
#[cycle(node_visit)]
#[tactic(auto, using(visits::proofs::Asked::node_rules), unfolding(visits::specs::Search::turn_if, visits::specs::Search::futile_if))]
fn turn(
    tree: &[u8],
    words: &mut [u64],
    history: &mut [i16],
    set: Settings,
    here: Here,
    loc: Loc,
    c: usize,
    i: usize,
) -> Turn
    requires ready { Ready set tree.now words.old history.old }
    requires inside { Inside tree.now here }
    requires kid { Kid tree.now here.node c }
    requires i_bound { i < 63 }
    ensures { (k : ℕ) → need tree.now here.node 0 ≤ k →
        with result words.new history.new ≡
        turn_f (visit_f k tree.now set) tree.now set here c i loc words.old history.old }
{
    let l = window::counted(loc);
    let mv = node::move_to(tree, c);
    if i == 0 {
        let st = l.state;
        let r = search_node(tree, words, history, set, st, window::full(here, l, c));
        return window::judge(here, window::first(tree, l, c, r), mv, r);
    }
    if prune::futile(tree, set, here, l, c) {
        return ControlFlow::Continue(l);
    }
    let d = prune::reduction(tree, set, here, c, i);
    let r = reduced(tree, words, history, set, here, l, c, d);
    window::judge(here, l, mv, r)
}

// A later move: a null window at the reduced depth, and again at the whole depth where that beat alpha.
#[cycle(node_visit)]
#[tactic(auto, using(visits::proofs::Asked::node_rules))]
fn reduced(
    tree: &[u8],
    words: &mut [u64],
    history: &mut [i16],
    set: Settings,
    here: Here,
    loc: Loc,
    c: usize,
    d: u8,
) -> Out
    requires ready { Ready set tree.now words.old history.old }
    requires inside { Inside tree.now here }
    requires kid { Kid tree.now here.node c }
    requires d_bound { 1 + d ≤ here.depth }
    ensures { (k : ℕ) → need tree.now here.node 0 ≤ k →
        with result words.new history.new ≡
        reduced_f (visit_f k tree.now set) here loc c d words.old history.old }
{
    let st = rebuilt(loc.state);
    let r = visit(tree, words, history, set, st, window::null(here, loc, c, d));
    if window::again(loc, d, r) {
        let s = r.state;
        let q = visit(tree, words, history, set, s, window::null(here, loc, c, 0));
        return widened(tree, words, history, set, here, loc, c, q);
    }
    widened(tree, words, history, set, here, loc, c, r)
}

// The full window, where the null window's score lies inside it.
#[cycle(node_visit)]
#[tactic(auto, using(visits::proofs::Asked::node_rules), unfolding(visits::specs::Search::widen_if))]
fn widened(
    tree: &[u8],
    words: &mut [u64],
    history: &mut [i16],
    set: Settings,
    here: Here,
    loc: Loc,
    c: usize,
    r: Out,
) -> Out
    requires ready { Ready set tree.now words.old history.old }
    requires inside { Inside tree.now here }
    requires kid { Kid tree.now here.node c }
    ensures { (k : ℕ) → need tree.now here.node 0 ≤ k →
        with result words.new history.new ≡
        widen_f (visit_f k tree.now set) here loc c (with r words.old history.old) }
{
    if window::inside(here, loc, r) {
        let s = r.state;
        return visit(tree, words, history, set, s, window::full(here, loc, c));
    }
    r
}

// A later move's visit, in a function of its own, as inner deepening is: a function clears what its calls' answers need as soon as it
// begins, also on the paths that make no such call. Bound first, the answer has a place of its own.
#[cycle(node_visit)]
#[tactic(auto, using(visits::proofs::Asked::node_rules))]
fn visit(
    tree: &[u8],
    words: &mut [u64],
    history: &mut [i16],
    set: Settings,
    st: State,
    a: Args,
) -> Out
    requires ready { Ready set tree.now words.old history.old }
    requires reach { Reach tree.now a }
    ensures { (k : ℕ) → need tree.now a.node a.depth < k →
        with result words.new history.new ≡
        visit_f k tree.now set st words.old history.old a }
{
    let r = search_node(tree, words, history, set, st, a);
    r
}
