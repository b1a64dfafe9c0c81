// Occupancy: the entries of each bound whose move is not 0, as percentages of the table.
ghost use Rattle.std.specs.Prelude.{◌≡◌, true, ◌+◌, ◌/◌, ◌≤◌, ◌<◌, ◌^◌, length};
ghost use Rattle.table.specs.Table.{well_sized};
ghost use Rattle.percentages.specs.Occupancy.{more, counts_to, occupancy_of, Exactly};

use transposition::{Bound, Entry};

// How many entries there are of each bound.
#[derive(Clone, Copy, PartialEq, Eq, Debug, Default)]
pub struct Counts {
    pub exact: u64,
    pub lower: u64,
    pub upper: u64,
}

// Of each bound, its entries times 100 over all the table's places.
#[derive(Clone, Copy, PartialEq, Debug)]
pub struct Occupancy {
    pub exact: f64,
    pub lower: f64,
    pub upper: f64,
}

impl Counts {
    // One more of a bound.
    #[tactic(auto, unfolding(crate::specs::Occupancy::more))]
    fn add(self, bound: Bound) -> Counts
        requires { (self.exact + 1 < 2 ^ 64) × ((self.lower + 1 < 2 ^ 64) × (self.upper + 1 < 2 ^ 64)) }
        ensures { result ≡ more self bound }
    {
        match bound {
            Bound::Exact => Counts {
                exact: self.exact + 1,
                ..self
            },
            Bound::Lower => Counts {
                lower: self.lower + 1,
                ..self
            },
            Bound::Upper => Counts {
                upper: self.upper + 1,
                ..self
            },
        }
    }
}

// The count over the table.
#[tactic(auto, using(crate::proofs::Count::counts_below, crate::proofs::Count::taken, crate::proofs::Count::skipped), unfolding(crate::specs::Occupancy::counts_to))]
fn counted(words: &[u64]) -> Counts
    ensures { result ≡ counts_to words.now (length words.now / 2) }
{
    let mut c = Counts::default();
    for k in 0..words.len() / 2 {
        let e = Entry::from(words[k * 2 + 1]);
        if e.mv != 0 {
            c = c.add(e.bound);
        }
    }
    c
}

// The three percentages, each of them exact, since the table's size is a power of two.
#[tactic(auto, using(crate::proofs::Shares::room), unfolding(crate::specs::Occupancy::occupancy_of))]
pub fn occupied(words: &[u64]) -> Occupancy
    requires { well_sized (length words.now) ≡ true }
    ensures value { result ≡ occupancy_of words.now }
    ensures exact { Exactly words.now result }
{
    let c = counted(words);
    let n = (words.len() / 2) as u64;
    Occupancy {
        exact: crate::quotient(c.exact * 100, n),
        lower: crate::quotient(c.lower * 100, n),
        upper: crate::quotient(c.upper * 100, n),
    }
}
