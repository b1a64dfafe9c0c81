// The history's public entries: delta takes HH_MAX alone; bonus and malus take HH_MAX, the side and the lent entries. `hh` is HH_MAX.
#![tactic(auto)]

ghost use Rattle.std.specs.Prelude.{◌≡◌, ◌≤◌, ◌/◌, pos, nat_abs};
ghost use Rattle.history.specs.Gravity.{delta_of};
ghost use Rattle.histories.specs.Histories.{told_delta, delta_entry, over_history, told_entry, change_entry, bonus_entry, malus_entry};

use refusal::Refusal;

// The delta of a depth as a score, which has room for a quarter of any HH_MAX.
#[tactic(auto, using(history::proofs::Curve::delta16))]
fn delta_score(hh: i16, depth: i8) -> i16
    ensures { result ≡ pos (delta_of (nat_abs hh) depth) }
{
    history::delta(depth, hh.unsigned_abs()) as i16
}

// By how much a cutoff at this depth moves an entry.
#[tactic(auto, unfolding(crate::specs::Histories::delta_rows, crate::specs::Histories::delta_answer))]
pub fn delta(hh: i16, depth: i8) -> Result<i16, Refusal>
    ensures { told_delta result ≡ delta_entry hh depth }
{
    if !refusals::hh_max_right(hh) {
        return Err(Refusal::Settings);
    }
    Ok(delta_score(hh, depth))
}

// Gravity by v at the entry of a side's move, which is the answer: bonus and malus are this, with v of either sign.
#[tactic(auto, unfolding(crate::specs::Histories::change_answer), using(crate::proofs::HistoryAnswers::accepted, history::proofs::Change::index_below))]
fn change(history: &mut [i16], hh: i16, side: u16, mv: u16, v: i16) -> Result<i16, Refusal>
    requires { nat_abs v ≤ nat_abs hh / 4 }
    ensures { over_history (told_entry result) history.new ≡ change_entry history.old hh side mv v }
{
    refusals::entry_rows(history, hh, side)?;
    let side = side as u8;
    history::update(history, hh.unsigned_abs(), side, mv, v);
    Ok(history[history::history_index(side, mv)])
}

// A quiet move that cut off at this depth.
#[tactic(auto, unfolding(history::specs::Entries::bonus_of), using(history::proofs::Curve::delta_le))]
pub fn bonus(history: &mut [i16], hh: i16, side: u16, mv: u16, depth: i8) -> Result<i16, Refusal>
    ensures { over_history (told_entry result) history.new ≡ bonus_entry history.old hh side mv depth }
{
    change(history, hh, side, mv, delta_score(hh, depth))
}

// A quiet move that was tried before the one that cut off.
#[tactic(auto, unfolding(history::specs::Entries::malus_of))]
pub fn malus(history: &mut [i16], hh: i16, side: u16, mv: u16, depth: i8) -> Result<i16, Refusal>
    ensures { over_history (told_entry result) history.new ≡ malus_entry history.old hh side mv depth }
{
    change(history, hh, side, mv, -delta_score(hh, depth))
}

// The number that is told of a delta or of an entry, 0 where it is refused.
pub fn score_told(told: Result<i16, Refusal>) -> i16
    ensures delta { result ≡ (told_delta told).delta }
    ensures entry { result ≡ (told_entry told).entry }
{
    told.unwrap_or(0)
}
