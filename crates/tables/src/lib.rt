// The table's public entries. Each takes any words and numbers, and refuses a table of a wrong length with 8. The age and counters are lent: a
// refused call leaves them as they are.
#![tactic(auto)]

ghost use Rattle.std.specs.Prelude.{◌≡◌};
ghost use Rattle.refusal.specs.Number.{number_told};
ghost use Rattle.state.specs.State.{over};
ghost use Rattle.tables.specs.Tables.{table_rows, told_lookup, lookup_entry, told_stats, store_entry, reset_entry, clear_entry, told_occupancy, occupancy_entry, OccupancyExact};

use percentages::occupancy::Occupancy;
use refusal::Refusal;
use table::{Found, Stats};
use transposition::Bound;

// Row 8, of the table.
#[tactic(auto, unfolding(crate::specs::Tables::table_rows))]
fn sized(words: &[u64]) -> Result<(), Refusal>
    ensures { number_told result ≡ table_rows words.now }
{
    if refusals::table_right(words) {
        Ok(())
    } else {
        Err(Refusal::Sizes)
    }
}

// What stands at a hash, counted.
#[tactic(auto, unfolding(crate::specs::Tables::lookup_answer), using(crate::proofs::TableAnswers::table_words))]
pub fn lookup(words: &[u64], stats: &mut Stats, hash: u64) -> Result<Found, Refusal>
    ensures { told_lookup result stats.new ≡ lookup_entry words.now stats.old hash }
{
    sized(words)?;
    let l = table::lookup(words, *stats, hash);
    *stats = l.stats;
    Ok(l.found)
}

// An entry of the table's age goes into the slot of its hash, where what is stored there gives way to it.
#[tactic(auto, unfolding(crate::specs::Tables::table_answer), using(crate::proofs::TableAnswers::table_words))]
pub fn store(
    words: &mut [u64],
    stats: &mut Stats,
    hash: u64,
    depth: i8,
    score: i16,
    mv: u16,
    bound: Bound,
) -> Result<(), Refusal>
    ensures { over (told_stats result stats.new) words.new ≡ store_entry words.old stats.old hash depth score mv bound }
{
    sized(words)?;
    *stats = table::store(words, *stats, hash, depth, score, mv, bound);
    Ok(())
}

// The next age, and counters of 0.
#[tactic(auto, unfolding(crate::specs::Tables::reset_answer))]
pub fn reset(words: &[u64], stats: &mut Stats) -> Result<(), Refusal>
    ensures { told_stats result stats.new ≡ reset_entry words.now stats.old }
{
    sized(words)?;
    *stats = stats.reset();
    Ok(())
}

// Words, age and counters of 0.
#[tactic(auto, unfolding(crate::specs::Tables::table_answer))]
pub fn clear(words: &mut [u64], stats: &mut Stats) -> Result<(), Refusal>
    ensures { over (told_stats result stats.new) words.new ≡ clear_entry words.old stats.old }
{
    sized(words)?;
    *stats = table::clear(words);
    Ok(())
}

// The entries of each bound whose move is not 0, as percentages of the table.
#[tactic(auto, unfolding(crate::specs::Tables::occupancy_answer), using(crate::proofs::TableAnswers::table_held))]
pub fn occupancy(words: &[u64]) -> Result<Occupancy, Refusal>
    ensures occupied { told_occupancy result ≡ occupancy_entry words.now }
    ensures exact { OccupancyExact words.now (told_occupancy result) }
{
    sized(words)?;
    Ok(percentages::occupancy::occupied(words))
}

// The three percentages that are told, all 0 where they are refused.
pub fn percentages_told(told: Result<Occupancy, Refusal>) -> Occupancy
    ensures { result ≡ (told_occupancy told).occupancy }
{
    match told {
        Ok(o) => o,
        Err(_) => Occupancy {
            exact: 0.0,
            lower: 0.0,
            upper: 0.0,
        },
    }
}
