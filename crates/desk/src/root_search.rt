// The root search: depths from start to end - 1. It zeroes history and, with the table on, resets age and counters.
ghost use Rattle.std.specs.Prelude.{◌≡◌};
ghost use Rattle.refusal.specs.Number.{number_told};
ghost use Rattle.carry.specs.Carry.{with};
ghost use Rattle.desk.specs.RootEntry.{root_refusal, root_entry};
ghost use Rattle.results.specs.Told.{told_root};

use refusal::Refusal;
use results::RootAnswer;
use state::Settings;
use table::Stats;

// The first refusal that a root search gets. History entries are not tested.
#[tactic(auto, unfolding(crate::specs::RootEntry::root_refusal))]
pub fn root_refusal(
    tree: &[u8],
    words: &[u64],
    history: &[i16],
    set: Settings,
    start: i8,
    end: i8,
) -> Result<(), Refusal>
    ensures { number_told result ≡ root_refusal tree.now words.now history.now set start end }
{
    refusals::search_rows(tree, words, history, set)?;
    if !refusals::range_right(start, end) {
        return Err(Refusal::Start);
    }
    Ok(())
}

#[tactic(auto, unfolding(crate::specs::RootEntry::root_answer))]
pub fn search_root(
    tree: &[u8],
    words: &mut [u64],
    history: &mut [i16],
    set: Settings,
    stats: &mut Stats,
    start: i8,
    end: i8,
) -> Result<RootAnswer, Refusal>
    ensures { with (told_root result stats.new) words.new history.new ≡
        root_entry tree.now set stats.old start end words.old history.old }
{
    root_refusal(tree, words, history, set, start, end)?;
    let d = root::search_root(
        tree,
        words,
        history,
        set,
        *stats,
        start.unsigned_abs(),
        end.unsigned_abs(),
    );
    let best = d.best;
    let s = d.state;
    *stats = s.stats;
    Ok(RootAnswer {
        score: best.score,
        mv: best.mv,
        depth: best.depth,
        nodes: s.nodes,
        stopped: s.stop,
    })
}
