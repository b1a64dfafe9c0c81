// History: the delta of a depth, the gravity that keeps an entry in range, and the lent entries, one for each side and move.
// `hh` is the setting HH_MAX throughout.
#![tactic(auto)]

ghost use Rattle.std.specs.Prelude.{◌≡◌, ◌<◌, ◌≤◌, ◌/◌, nat_abs, pos, length};
ghost use Rattle.history.specs.Gravity.{curve, delta_of, gravity_of};
ghost use Rattle.history.specs.Entries.{index_of, update_of, bonus_of, malus_of, clear_of, within_of};

// 16d^2 + 128d - 256. Depths have 8 bits, so 32 are enough on the way.
#[tactic(auto, using(crate::proofs::Curve::by16, crate::proofs::Curve::squared, crate::proofs::Curve::by128, crate::proofs::Curve::summed))]
fn curve_at(depth: i8) -> i32
    ensures { result ≡ curve depth }
{
    let d = i32::from(depth);
    16 * d * d + 128 * d - 256
}

// By how much a cutoff at this depth moves an entry: at most a quarter of HH_MAX.
#[tactic(auto, using(crate::proofs::Curve::clamped), unfolding(crate::specs::Gravity::delta_of))]
pub fn delta(depth: i8, hh: u16) -> u16
    ensures { result ≡ delta_of hh depth }
{
    let most = i32::from(hh / 4);
    curve_at(depth).clamp(0, most) as u16
}

// The delta as a score, which has room for a quarter of any HH_MAX.
#[tactic(auto, using(crate::proofs::Curve::delta16))]
fn delta_score(depth: i8, hh: u16) -> i16
    ensures { result ≡ pos (delta_of hh depth) }
{
    delta(depth, hh) as i16
}

// The entry after old, moved by v: the nearer old is to HH_MAX, the less it moves that way. Any old is taken, so that
// callers need to know nothing of the entries; from beyond HH_MAX the result may wrap, as in 003.
pub fn gravity(old: i16, v: i16, hh: u16) -> i16
    requires { (0 < hh) × (nat_abs v ≤ hh / 4) }
    ensures { result ≡ gravity_of hh old v }
{
    let o = i32::from(old);
    let m = i32::from(v.unsigned_abs());
    score::wrap(o + i32::from(v) - o * m / i32::from(hh))
}

// Where the entry of a side's move stands.
#[tactic(auto, unfolding(crate::specs::Entries::index_of))]
pub fn history_index(side: u8, mv: u16) -> usize
    requires { side ≤ 1 }
    ensures { result ≡ index_of side mv }
{
    let from = mv / 1024;
    let to = mv / 16 % 64;
    4096 * usize::from(side) + 64 * usize::from(from) + usize::from(to)
}

// Gravity at the entry of a side's move, and at no other: bonus and malus are this, with v of either sign.
#[tactic(auto, using(crate::proofs::Change::index_below), unfolding(crate::specs::Entries::update_of))]
pub fn update(history: &mut [i16], hh: u16, side: u8, mv: u16, v: i16)
    requires { (length history.old ≡ 8192) × ((side ≤ 1) × ((0 < hh) × (nat_abs v ≤ hh / 4))) }
    ensures { history.new ≡ update_of hh history.old side mv v }
{
    let i = history_index(side, mv);
    let old = history[i];
    history[i] = gravity(old, v, hh);
}

// A quiet move that cut off at this depth.
#[tactic(auto, using(crate::proofs::Curve::delta_le), unfolding(crate::specs::Entries::bonus_of))]
pub fn bonus(history: &mut [i16], hh: u16, side: u8, mv: u16, depth: i8)
    requires { (length history.old ≡ 8192) × ((side ≤ 1) × (0 < hh)) }
    ensures { history.new ≡ bonus_of hh history.old side mv depth }
{
    let v = delta_score(depth, hh);
    update(history, hh, side, mv, v);
}

// A quiet move that was tried before the one that cut off.
#[tactic(auto, using(crate::proofs::Curve::minus_le, crate::proofs::Curve::minus16), unfolding(crate::specs::Entries::malus_of))]
pub fn malus(history: &mut [i16], hh: u16, side: u8, mv: u16, depth: i8)
    requires { (length history.old ≡ 8192) × ((side ≤ 1) × (0 < hh)) }
    ensures { history.new ≡ malus_of hh history.old side mv depth }
{
    let v = -delta_score(depth, hh);
    update(history, hh, side, mv, v);
}

// Every entry becomes 0.
#[tactic(auto, unfolding(crate::specs::Entries::clear_of))]
pub fn clear(history: &mut [i16])
    ensures { history.new ≡ clear_of history.old }
{
    history.fill(0);
}

// Whether no entry lies beyond plus or minus HH_MAX.
#[tactic(auto, unfolding(crate::specs::Entries::within_of))]
pub fn within(history: &[i16], hh: u16) -> bool
    ensures { result ≡ within_of hh history.now }
{
    history.iter().all(|entry| entry.unsigned_abs() <= hh)
}
