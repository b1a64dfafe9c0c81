// The steps of a root search that visit no node.
#![tactic(auto)]

ghost use Rattle.std.specs.Prelude.{◌≡◌, ◌≤◌, ◌<◌, length};
ghost use Rattle.std.specs.List.{list_all};
ghost use Rattle.tree.specs.Blocks.{Blocked, nodes_of};
ghost use Rattle.tree.specs.Layout.{Laid};
ghost use Rattle.state.specs.State.{over};
ghost use Rattle.root_steps.specs.Step.{fresh_stats, fresh_of, mate_of, mated_of, begin_of, place_root, polled_of, counted_of, down_of, judge_of, score_of, shifted_of, kept_of, saved_of};

use carry::Args;
use record::node;
use score::neg16;
use state::{Out, Settings, State};
use std::ops::ControlFlow;
use table::Stats;
use transposition::Bound;

// What was saved last: a score, its move and its depth; all 0 where nothing was.
#[derive(Clone, Copy)]
pub struct Best {
    pub score: i16,
    pub mv: u16,
    pub depth: u8,
}

// What the depths leave: the last saved, the best scores of the three depths before, the last first, the state.
#[derive(Clone, Copy)]
pub struct Depths {
    pub best: Best,
    pub scores: [i16; 3],
    pub state: State,
}

// What a depth leaves: a break where no move was made, since the search is over then.
pub type Deepened = ControlFlow<Depths, Depths>;

// What a walk over the root's moves leaves: whether a move was made, the best score and its move (0: none), the state.
#[derive(Clone, Copy)]
pub struct Walked {
    pub any: bool,
    pub alpha: i16,
    pub mv: u16,
    pub state: State,
}

// Age and counters reset, if the table switch is on.
#[tactic(auto, unfolding(crate::specs::Step::fresh_stats))]
fn fresh_stats(set: Settings, stats: Stats) -> Stats
    ensures { result ≡ fresh_stats set.table stats }
{
    if set.table { stats.reset() } else { stats }
}

// Nothing saved, no node counted, no stop.
pub fn fresh(set: Settings, stats: Stats) -> Depths
    ensures { result ≡ fresh_of set stats }
{
    Depths {
        best: Best {
            score: 0,
            mv: 0,
            depth: 0,
        },
        scores: [0; 3],
        state: State {
            nodes: 0,
            stop: false,
            stats: fresh_stats(set, stats),
        },
    }
}

// Whether a score is one of a mate: not strictly inside plus and minus (INF - MAX_PLY).
#[tactic(auto, using(std::proofs::lemmas::Int::ints), unfolding(crate::specs::Step::mate_of))]
fn mate(set: Settings, score: i16) -> bool
    ensures { result ≡ mate_of set score }
{
    let line = i32::from(set.inf) - i32::from(set.max_ply);
    let score = i32::from(score);
    score <= -line || line <= score
}

// Whether each score is one of a mate.
fn mates(set: Settings, scores: &[i16]) -> bool
    ensures { result ≡ list_all (mate_of set) scores.now }
{
    scores.iter().all(|x| mate(set, *x))
}

// Above depth 6: the score was one of a mate at the three depths before.
#[tactic(auto, unfolding(crate::specs::Step::mated_of))]
pub fn mated(set: Settings, d: Depths, depth: u8) -> bool
    ensures { result ≡ mated_of set d depth }
{
    6 < depth && mates(set, &d.scores)
}

// Alpha is -INF, and no move was made.
pub fn begin(set: Settings, state: State) -> Walked
    ensures { result ≡ begin_of set state }
{
    Walked {
        any: false,
        alpha: neg16(set.inf),
        mv: 0,
        state,
    }
}

// The place of the move saved before.
#[tactic(auto, unfolding(crate::specs::Step::place_root))]
pub fn place_of(tree: &[u8], best: Best) -> Option<usize>
    requires laid { Laid tree.now }
    requires tree_nonzero { 0 < nodes_of tree.now }
    ensures { result ≡ place_root tree.now best }
{
    moves::hint_place(tree, 0, best.mv)
}

pub fn polled(set: Settings, w: Walked) -> Walked
    ensures { result ≡ polled_of set w }
{
    Walked {
        state: w.state.poll(set.limit),
        ..w
    }
}

// The state after the move is counted.
pub fn counted(w: Walked) -> State
    ensures { result ≡ counted_of w }
{
    w.state.count_node()
}

// A root move's visit: the window between -INF and what the moves before it left, ply 1.
pub fn down(set: Settings, depth: u8, w: Walked, c: usize) -> Args
    requires side_bound { set.side ≤ 1 }
    requires le_depth { 1 ≤ depth }
    ensures { result ≡ down_of set depth w c }
{
    Args {
        node: c,
        side: 1 - set.side,
        alpha: neg16(set.inf),
        beta: neg16(w.alpha),
        depth: depth - 1,
        ply: 1,
    }
}

// What a root move's answer makes of the walk.
#[tactic(auto, using(tree::proofs::Blocked::record_in), unfolding(crate::specs::Step::judge_of, crate::specs::Step::raise_if))]
pub fn judge(tree: &[u8], w: Walked, c: usize, r: Out) -> Walked
    requires blocked { Blocked tree.now }
    requires c_bound { c < nodes_of tree.now }
    ensures { result ≡ judge_of tree.now w c r }
{
    let score = neg16(r.score);
    let state = r.state;
    if w.alpha < score {
        return Walked {
            any: true,
            alpha: score,
            mv: node::move_to(tree, c),
            state,
        };
    }
    Walked {
        any: true,
        state,
        ..w
    }
}

// The best score of a depth, 0 where nothing beat -INF.
#[tactic(auto, unfolding(crate::specs::Step::score_if))]
fn score_of(w: Walked) -> i16
    ensures { result ≡ score_of w }
{
    if w.mv == 0 { 0 } else { w.alpha }
}

// One depth on, unless no move was made.
#[tactic(auto, using(crate::proofs::Scores::newest), unfolding(crate::specs::Step::any_if))]
fn shifted(d: Depths, w: Walked, best: Best, state: State) -> Deepened
    ensures { result ≡ shifted_of d w best state }
{
    let next = Depths {
        best,
        scores: [score_of(w), d.scores[0], d.scores[1]],
        state,
    };
    if w.any {
        ControlFlow::Continue(next)
    } else {
        ControlFlow::Break(next)
    }
}

// The best move of a depth is saved, and stored under the root's hash, Exact.
#[tactic(auto, using(tree::proofs::Blocked::record_in), unfolding(crate::specs::Step::kept_of))]
fn keep_best(
    tree: &[u8],
    words: &mut [u64],
    set: Settings,
    d: Depths,
    depth: u8,
    w: Walked,
    s: State,
) -> Deepened
    requires blocked { Blocked tree.now }
    requires tree_nonzero { 0 < nodes_of tree.now }
    requires in_bounds { (2 ≤ length words.old) × (depth ≤ 31) }
    ensures { over result words.new ≡ kept_of tree.now set d depth w s words.old }
{
    let hash = node::hash(tree, 0);
    let state = s.keep(
        words,
        set.table,
        hash,
        depth as i8,
        w.alpha,
        w.mv,
        Bound::Exact,
    );
    let best = Best {
        score: w.alpha,
        mv: w.mv,
        depth,
    };
    shifted(d, w, best, state)
}

// A depth's best move is saved: always at depth 1, later only where the search was not stopped.
#[tactic(auto, unfolding(crate::specs::Step::saved_if, crate::specs::Step::first_if, crate::specs::Step::stopped_if))]
pub fn saved(
    tree: &[u8],
    words: &mut [u64],
    set: Settings,
    d: Depths,
    depth: u8,
    w: Walked,
) -> Deepened
    requires blocked { Blocked tree.now }
    requires tree_nonzero { 0 < nodes_of tree.now }
    requires in_bounds { (2 ≤ length words.old) × (depth ≤ 31) }
    ensures { over result words.new ≡ saved_of tree.now set d depth w words.old }
{
    if w.mv == 0 {
        return shifted(d, w, d.best, w.state);
    }
    if depth == 1 {
        return keep_best(tree, words, set, d, depth, w, w.state);
    }
    let s = w.state.poll(set.limit);
    if s.stop {
        return shifted(d, w, d.best, s);
    }
    keep_best(tree, words, set, d, depth, w, s)
}
