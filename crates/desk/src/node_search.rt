// The node search: a visit of any node, in any window, depth and ply. It zeroes and resets nothing.
ghost use Rattle.std.specs.Prelude.{◌≡◌, true, pos, ◌≤◌};
ghost use Rattle.std.specs.Int.Signed.{le_z};
ghost use Rattle.refusal.specs.Number.{number_told};
ghost use Rattle.tree.specs.Blocks.{Blocked};
ghost use Rattle.tree.specs.Layout.{Laid};
ghost use Rattle.carry.specs.Carry.{with};
ghost use Rattle.desk.specs.NodeEntry.{start_right, node_refusal, side_at, args_of, node_entry};
ghost use Rattle.desk.specs.Told.{NodeTold};
ghost use Rattle.results.specs.Told.{told_node};

use carry::Args;
use refusal::Refusal;
use results::NodeAnswer;
use state::{Settings, State};
use table::Stats;

// Where a node search begins.
#[derive(Clone, Copy, Debug, PartialEq, Eq)]
pub struct Start {
    pub node: u64,
    pub alpha: i16,
    pub beta: i16,
    pub depth: i8,
    pub ply: u64,
}

// Row 7, of all that a node search takes, in a tree whose blocks are right.
#[tactic(auto, unfolding(crate::specs::NodeEntry::start_right))]
fn start_right(tree: &[u8], set: Settings, at: Start) -> bool
    requires { Blocked tree.now }
    ensures { result ≡ start_right tree.now set at }
{
    refusals::node_right(tree, at.node)
        && refusals::window_right(set.inf, at.alpha, at.beta)
        && refusals::depth_right(at.depth)
        && refusals::ply_right(set.max_ply, at.ply)
}

// The first refusal that a node search gets.
#[tactic(auto, unfolding(crate::specs::NodeEntry::node_refusal))]
pub fn node_refusal(
    tree: &[u8],
    words: &[u64],
    history: &[i16],
    set: Settings,
    at: Start,
) -> Result<(), Refusal>
    ensures { number_told result ≡ node_refusal tree.now words.now history.now set at }
{
    refusals::search_rows(tree, words, history, set)?;
    if !refusals::history_right(history, set.hh_max) {
        return Err(Refusal::Entries);
    }
    if !start_right(tree, set, at) {
        return Err(Refusal::Start);
    }
    Ok(())
}

// The side to move: the root's, changed at each level below it.
#[tactic(auto, unfolding(crate::specs::NodeEntry::side_at))]
fn side_at(tree: &[u8], set: Settings, node: usize) -> u8
    requires laid { Laid tree.now }
    requires side_bound { set.side ≤ 1 }
    ensures { result ≡ side_at tree.now set node }
{
    if tree::level::level(tree, node) % 2 == 0 {
        set.side
    } else {
        1 - set.side
    }
}

fn args_of(tree: &[u8], set: Settings, at: Start) -> Args
    requires laid { Laid tree.now }
    requires side_bound { set.side ≤ 1 }
    requires depth_value { le_z (pos 0) at.depth ≡ true }
    ensures { result ≡ args_of tree.now set at }
{
    let node = at.node as usize;
    Args {
        node,
        side: side_at(tree, set, node),
        alpha: at.alpha,
        beta: at.beta,
        depth: at.depth.unsigned_abs(),
        ply: at.ply as usize,
    }
}

#[tactic(auto, unfolding(crate::specs::NodeEntry::node_answer))]
pub fn search_node(
    tree: &[u8],
    words: &mut [u64],
    history: &mut [i16],
    set: Settings,
    stats: &mut Stats,
    at: Start,
) -> Result<NodeAnswer, Refusal>
    ensures searched { with (told_node result stats.new) words.new history.new ≡
        node_entry tree.now set stats.old at words.old history.old }
    ensures truth { NodeTold set tree.now at result }
{
    node_refusal(tree, words, history, set, at)?;
    let st = State {
        nodes: 0,
        stop: false,
        stats: *stats,
    };
    let a = args_of(tree, set, at);
    let o = search::search_node(tree, words, history, set, st, a);
    let s = o.state;
    *stats = s.stats;
    Ok(NodeAnswer {
        score: o.score,
        nodes: s.nodes,
        stopped: s.stop,
    })
}
