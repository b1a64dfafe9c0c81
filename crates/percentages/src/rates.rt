// The rates of hits, misses and collisions: a share of the lookups, or the news that there were none.
ghost use Rattle.std.specs.Prelude.{◌≡◌};
ghost use Rattle.percentages.specs.Rate.{said, rate_of};

use table::Stats;

#[derive(Clone, Copy, PartialEq, Debug)]
pub enum Rate {
    Share(f64),
    NoLookups,
    Refused,
}

// The greatest count that has a rate, so that a share's numbers are whole in f64.
const MOST: u64 = 1 << 40;

// A count of so many lookups, as a percentage.
#[tactic(auto, unfolding(crate::specs::Rate::said, crate::specs::Rate::rate_of))]
fn rate_of(count: u64, lookups: u64) -> Rate
    ensures { said result ≡ rate_of count lookups }
{
    if count > MOST || lookups > MOST {
        Rate::Refused
    } else if lookups == 0 {
        Rate::NoLookups
    } else {
        Rate::Share(crate::quotient(count * 100, lookups))
    }
}

// Of the lookups, the hits.
pub fn hit_rate(stats: Stats) -> Rate
    ensures { said result ≡ rate_of stats.hits stats.lookups }
{
    rate_of(stats.hits, stats.lookups)
}

// Of the lookups, the misses.
pub fn miss_rate(stats: Stats) -> Rate
    ensures { said result ≡ rate_of stats.misses stats.lookups }
{
    rate_of(stats.misses, stats.lookups)
}

// Of the lookups, the collisions.
pub fn collision_rate(stats: Stats) -> Rate
    ensures { said result ≡ rate_of stats.collisions stats.lookups }
{
    rate_of(stats.collisions, stats.lookups)
}
