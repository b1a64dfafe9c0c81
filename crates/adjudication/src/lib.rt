// Functions that C or Rust can link: `rt lib` here writes out/libadjudication.a.
#![tactic(auto)]

ghost use Rattle.std.specs.Prelude.{◌≡◌, ◌<◌};
ghost use Rattle.tree.specs.Refusal.{tree_refusal};
ghost use Rattle.adjudication.specs.Calls.{bit_of, settings_of, told, called};

use desk::root_search;
use state::Settings;
use table::Stats;

// The tree check. No setting is asked to be in its range: the contract holds for any two.
#[unsafe(no_mangle)]
pub extern "C" fn desk_tree_check(tree: &[u8], inf: i16, max_ply: u16) -> u8
    ensures { result ≡ tree_refusal inf max_ply tree.now }
{
    refusal::number_told(tree::check(tree, inf, max_ply))
}

// Whether the bit is set whose place is worth `unit`.
#[tactic(auto, unfolding(crate::specs::Calls::bit_of))]
fn bit(bits: u8, unit: u8) -> bool
    requires { 0 < unit }
    ensures { result ≡ bit_of bits unit }
{
    bits / unit % 2 == 1
}

// The program's settings, but for the switches, a bit each from the lowest, and the limit.
fn settings(switches: u8, limit: u64) -> Settings
    ensures { result ≡ settings_of switches limit }
{
    Settings {
        inf: 30000,
        max_ply: 128,
        hh_max: 16384,
        side: 0,
        limit,
        table: bit(switches, 1),
        delta: bit(switches, 2),
        reverse_futility: bit(switches, 4),
        futility: bit(switches, 8),
        late_move: bit(switches, 16),
        inner_deepening: bit(switches, 32),
    }
}

// The root search of depths 1 to end - 1. The answer is the refusal; score, move and count of nodes go where the caller says.
#[unsafe(no_mangle)]
pub extern "C" fn desk_search_root(
    tree: &[u8],
    words: &mut [u64],
    history: &mut [i16],
    switches: u8,
    limit: u64,
    end: i8,
    score: &mut i16,
    mv: &mut u16,
    nodes: &mut u64,
) -> u8
    ensures { told result score.new mv.new nodes.new words.new history.new ≡
        called tree.now switches limit end words.old history.old }
{
    let mut stats = Stats::default();
    let told = root_search::search_root(
        tree,
        words,
        history,
        settings(switches, limit),
        &mut stats,
        1,
        end,
    );
    match told {
        Ok(a) => {
            *score = a.score;
            *mv = a.mv;
            *nodes = a.nodes;
            0
        }
        Err(r) => {
            *score = 0;
            *mv = 0;
            *nodes = 0;
            r.number()
        }
    }
}
