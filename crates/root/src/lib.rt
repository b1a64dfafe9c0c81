// The root search (000, search_root): depths from start to end - 1, each a walk over the root's moves.
#![tactic(auto)]

ghost use Rattle.std.specs.Prelude.{◌≡◌, ℕ, ◌-◌, ◌≤◌, ◌<◌};
ghost use Rattle.moves.specs.Kid.{Kid};
ghost use Rattle.carry.specs.Carry.{with};
ghost use Rattle.visits.specs.Reach.{Ready};
ghost use Rattle.visits.specs.Search.{node_search};
ghost use Rattle.root.specs.Root.{turn_f, walk_all, depth_f, depths_f, root_search};

use record::node;
use root_steps::{Best, Deepened, Depths, Walked};
use state::{Settings, State};
use std::ops::ControlFlow;
use table::Stats;

// One root move, which leads to c.
#[tactic(auto, using(moves::proofs::Kids::blocked, visits::proofs::Asked::enough, crate::proofs::Asked::to_move))]
fn root_turn(
    tree: &[u8],
    words: &mut [u64],
    history: &mut [i16],
    set: Settings,
    depth: u8,
    w: Walked,
    c: usize,
) -> Walked
    requires ready { Ready set tree.now words.old history.old }
    requires side_bound { (set.side ≤ 1) × ((1 ≤ depth) × (depth ≤ 31)) }
    requires kid { Kid tree.now 0 c }
    ensures { with result words.new history.new ≡
        turn_f (node_search tree.now set) tree.now set depth w c words.old history.old }
{
    let st = root_steps::counted(w);
    let r = search::search_node(
        tree,
        words,
        history,
        set,
        st,
        root_steps::down(set, depth, w, c),
    );
    root_steps::judge(tree, w, c, r)
}

// The moves of the root at one depth, the saved one first; each is preceded by a poll.
#[tactic(auto, using(crate::proofs::Walks::walk_rules))]
fn root_walk(
    tree: &[u8],
    words: &mut [u64],
    history: &mut [i16],
    set: Settings,
    best: Best,
    depth: u8,
    st: State,
) -> Walked
    requires ready { Ready set tree.now words.old history.old }
    requires side_bound { (set.side ≤ 1) × ((1 ≤ depth) × (depth ≤ 31)) }
    ensures { with result words.new history.new ≡
        walk_all (node_search tree.now set) tree.now set best depth st words.old history.old }
{
    let n = node::child_count(tree, 0);
    let place = root_steps::place_of(tree, best);
    let mut w = root_steps::begin(set, st);
    for i in 0..n {
        w = root_steps::polled(set, w);
        if w.state.stop {
            return w;
        }
        let c = moves::child(tree, 0, place, i);
        w = root_turn(tree, words, history, set, depth, w, c);
    }
    w
}

// One depth: the walk, then what is saved of it.
#[tactic(auto, using(moves::proofs::Kids::blocked, crate::proofs::Asked::root_in), unfolding(crate::specs::Root::depth_f))]
fn root_depth(
    tree: &[u8],
    words: &mut [u64],
    history: &mut [i16],
    set: Settings,
    d: Depths,
    depth: u8,
) -> Deepened
    requires ready { Ready set tree.now words.old history.old }
    requires side_bound { (set.side ≤ 1) × ((1 ≤ depth) × (depth ≤ 31)) }
    ensures { with result words.new history.new ≡
        depth_f (node_search tree.now set) tree.now set depth (with d words.old history.old) }
{
    let w = root_walk(tree, words, history, set, d.best, depth, d.state);
    root_steps::saved(tree, words, set, d, depth, w)
}

// The depths from start to end - 1, until the scores are those of a mate or no move was made.
#[tactic(auto, using(crate::proofs::Depths::depths_rules))]
fn deepening(
    tree: &[u8],
    words: &mut [u64],
    history: &mut [i16],
    set: Settings,
    begin: Depths,
    start: u8,
    end: u8,
) -> Depths
    requires ready { Ready set tree.now words.old history.old }
    requires side_bound { (set.side ≤ 1) × ((1 ≤ start) × (end ≤ 31)) }
    ensures { with result words.new history.new ≡
        depths_f (node_search tree.now set) tree.now set (end - start) start (with begin words.old history.old) }
{
    let mut d = begin;
    for depth in start..end {
        if root_steps::mated(set, d, depth) {
            return d;
        }
        match root_depth(tree, words, history, set, d, depth) {
            ControlFlow::Continue(next) => d = next,
            ControlFlow::Break(last) => return last,
        }
    }
    d
}

// History zeroed, age and counters reset if the table is on; then the depths.
#[tactic(auto, using(visits::proofs::Asked::still_ready), unfolding(crate::specs::Root::root_search))]
pub fn search_root(
    tree: &[u8],
    words: &mut [u64],
    history: &mut [i16],
    set: Settings,
    stats: Stats,
    start: u8,
    end: u8,
) -> Depths
    requires ready { Ready set tree.now words.old history.old }
    requires side_bound { (set.side ≤ 1) × ((1 ≤ start) × (end ≤ 31)) }
    ensures { with result words.new history.new ≡
        root_search tree.now set stats start end words.old history.old }
{
    history::clear(history);
    deepening(
        tree,
        words,
        history,
        set,
        root_steps::fresh(set, stats),
        start,
        end,
    )
}
