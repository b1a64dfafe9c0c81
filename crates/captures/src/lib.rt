// Captures (000, quiescence): standing pat, the table, then the noisy children, each a capture visit again.
#![tactic(auto)]

ghost use Rattle.std.specs.Prelude.{◌≡◌, ℕ, ◌+◌, ◌-◌, ◌≤◌, ◌<◌, length};
ghost use Rattle.tree.specs.Blocks.{nodes_of};
ghost use Rattle.state.specs.State.{over};
ghost use Rattle.state.specs.Accepted.{AcceptedBy};
ghost use Rattle.captures.specs.Captures.{captures_f, walk_all, turn_f};
ghost use Rattle.captures.specs.Reach.{Reach};

use capture_steps::{Capture, Here, Loc, Turn};
use record::node;
use state::{Out, Settings, State};
use std::ops::ControlFlow;

#[cycle(capture_visit)]
#[tactic(auto, using(crate::proofs::Walks::tree_rules))]
pub fn captures(tree: &[u8], words: &mut [u64], set: Settings, st: State, a: Capture) -> Out
    requires accepted_by { AcceptedBy set tree.now }
    requires reach { Reach tree.now a.node a.below a.ply }
    requires in_bounds { 2 ≤ length words.old }
    ensures { (k : ℕ) → nodes_of tree.now - a.node < k →
        over result words.new ≡ captures_f k set tree.now st words.old a }
{
    match capture_steps::enter(tree, words, set, st, a) {
        ControlFlow::Break(o) => o,
        ControlFlow::Continue((here, loc)) => {
            let w = walk(tree, words, set, here, loc);
            capture_steps::finish(tree, words, set, here, w)
        }
    }
}

// The children in their order, until one cuts.
#[cycle(capture_visit)]
#[tactic(auto, using(crate::proofs::Walks::tree_rules))]
fn walk(tree: &[u8], words: &mut [u64], set: Settings, here: Here, loc: Loc) -> Turn
    requires accepted_by { AcceptedBy set tree.now }
    requires reach { Reach tree.now here.node here.below here.ply }
    requires in_bounds { 2 ≤ length words.old }
    ensures { (k : ℕ) → nodes_of tree.now - here.node ≤ k →
        over result words.new ≡ walk_all (captures_f k set tree.now) set tree.now here loc words.old }
{
    let k = here.node;
    let n = node::child_count(tree, k);
    let place = capture_steps::noisy_place(tree, here, loc);
    let mut l = loc;
    for i in 0..n {
        let c = moves::child(tree, k, place, i);
        l = turn(tree, words, set, here, l, c)?;
    }
    ControlFlow::Continue(l)
}

// One child: a quiet one is passed over.
#[cycle(capture_visit)]
#[tactic(auto, using(crate::proofs::Walks::tree_rules), unfolding(crate::specs::Captures::turn_if))]
fn turn(tree: &[u8], words: &mut [u64], set: Settings, here: Here, loc: Loc, c: usize) -> Turn
    requires accepted_by { AcceptedBy set tree.now }
    requires node_bound { here.node < nodes_of tree.now }
    requires node_lt_c { here.node < c }
    requires reach { Reach tree.now c (here.below + 1) (here.ply + 1) }
    requires in_bounds { 2 ≤ length words.old }
    ensures { (k : ℕ) → nodes_of tree.now - here.node ≤ k →
        over result words.new ≡ turn_f (captures_f k set tree.now) set tree.now here loc c words.old }
{
    if node::is_quiet(tree, c) {
        return ControlFlow::Continue(loc);
    }
    let st = capture_steps::counted(loc);
    let r = captures(tree, words, set, st, capture_steps::down(here, loc, c));
    capture_steps::judge(tree, words, set, here, loc, c, r)
}
