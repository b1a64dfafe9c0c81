// The transposition table (001) over lent words: what stands at a hash, what a store leaves, the age and the five counters.
#![tactic(auto)]

ghost use Rattle.std.specs.Prelude.{◌≡◌, ◌+◌, ◌≤◌, length};
ghost use Rattle.table.specs.Slot.{slot_of, find_of, replaces};
ghost use Rattle.table.specs.Stats.{looked, inserted, reset_of};
ghost use Rattle.table.specs.Table.{table_of, lookup_of, store_of, clear_of, well_sized};

use transposition::{Bound, Entry};

// The age and the five counters, which wrap at 2^64.
#[derive(Clone, Copy, PartialEq, Eq, Debug, Default)]
pub struct Stats {
    pub lookups: u64,
    pub inserts: u64,
    pub hits: u64,
    pub misses: u64,
    pub collisions: u64,
    pub age: u8,
}

// What stands at a hash.
#[derive(Clone, Copy, PartialEq, Eq, Debug)]
pub enum Found {
    Miss,
    Collision,
    Hit(Entry),
}

// What a lookup found, and the counters after it.
#[derive(Clone, Copy, PartialEq, Eq, Debug)]
pub struct Looked {
    pub found: Found,
    pub stats: Stats,
}

impl Stats {
    // A lookup is counted by what it found. No other function changes the counters of lookups but to zero.
    #[tactic(auto, unfolding(crate::specs::Stats::looked))]
    pub fn looked(self, found: Found) -> Stats
        ensures { result ≡ looked self found }
    {
        let lookups = self.lookups.wrapping_add(1);
        match found {
            Found::Miss => Stats {
                lookups,
                misses: self.misses.wrapping_add(1),
                ..self
            },
            Found::Collision => Stats {
                lookups,
                collisions: self.collisions.wrapping_add(1),
                ..self
            },
            Found::Hit(_) => Stats {
                lookups,
                hits: self.hits.wrapping_add(1),
                ..self
            },
        }
    }

    // An insert is counted.
    #[tactic(auto, unfolding(crate::specs::Stats::inserted))]
    fn inserted(self) -> Stats
        ensures { result ≡ inserted self }
    {
        Stats {
            inserts: self.inserts.wrapping_add(1),
            ..self
        }
    }

    // The next age, and counters of 0: what a search begins with.
    #[tactic(auto, unfolding(crate::specs::Stats::reset_of, crate::specs::Stats::next_age))]
    pub fn reset(self) -> Stats
        ensures { result ≡ reset_of self }
    {
        let age = if self.age >= 254 { 0 } else { self.age + 1 };
        Stats {
            age,
            ..Stats::default()
        }
    }
}

// Where the slot of a hash starts in a table of so many words: both of its words are in the table.
#[tactic(auto, unfolding(crate::specs::Slot::slot_of))]
fn slot(words: usize, hash: u64) -> usize
    requires { 2 ≤ words }
    ensures { (result ≡ slot_of words hash) × (result + 2 ≤ words) }
{
    let n = (words / 2) as u64;
    (hash % n) as usize * 2
}

// What stands at a hash: a miss, a collision, or a hit with its entry.
#[tactic(auto, unfolding(crate::specs::Slot::find_of))]
pub fn find(words: &[u64], hash: u64) -> Found
    requires { 2 ≤ length words.now }
    ensures { result ≡ find_of words.now hash }
{
    let k = slot(words.len(), hash);
    let h = words[k];
    let d = words[k + 1];
    let e = Entry::from(d);
    if e.mv == 0 {
        Found::Miss
    } else if h ^ d == hash {
        Found::Hit(e)
    } else {
        Found::Collision
    }
}

// What stands at a hash, counted.
#[tactic(auto, unfolding(crate::specs::Table::lookup_of))]
pub fn lookup(words: &[u64], stats: Stats, hash: u64) -> Looked
    requires { 2 ≤ length words.now }
    ensures { result ≡ lookup_of words.now stats hash }
{
    let found = find(words, hash);
    Looked {
        found,
        stats: stats.looked(found),
    }
}

// Whether a stored entry gives way: its age is another, or it is no deeper.
#[tactic(auto, unfolding(crate::specs::Slot::replaces))]
fn replacing(stored: Entry, age: u8, depth: i8) -> bool
    ensures { result ≡ replaces stored age depth }
{
    age != stored.age || stored.depth <= depth
}

// An entry of the table's age goes into the slot of its hash, where what is stored there gives way to it.
#[tactic(auto, unfolding(crate::specs::Table::store_of, crate::specs::Table::store_if))]
pub fn store(
    words: &mut [u64],
    stats: Stats,
    hash: u64,
    depth: i8,
    score: i16,
    mv: u16,
    bound: Bound,
) -> Stats
    requires { 2 ≤ length words.old }
    ensures { table_of words.new result ≡ store_of words.old stats hash depth score mv bound }
{
    let k = slot(words.len(), hash);
    let stored = Entry::from(words[k + 1]);
    if replacing(stored, stats.age, depth) {
        let d = u64::from(Entry {
            age: stats.age,
            bound,
            depth,
            score,
            mv,
        });
        words[k] = transposition::hash_word(hash, d);
        words[k + 1] = d;
        stats.inserted()
    } else {
        stats
    }
}

// Words, age and counters of 0.
#[tactic(auto, unfolding(crate::specs::Table::clear_of))]
pub fn clear(words: &mut [u64]) -> Stats
    ensures { table_of words.new result ≡ clear_of words.old }
{
    words.fill(0);
    Stats::default()
}

// Whether a table may have so many words: a power of two, one of the 17 from 2 to 131,072.
#[tactic(auto, using(crate::proofs::Size::too_short, crate::proofs::Size::too_long, crate::proofs::Size::in_bounds))]
pub fn well_sized(words: usize) -> bool
    ensures { result ≡ well_sized words }
{
    words >= 2 && words <= 131_072 && words.is_power_of_two()
}
