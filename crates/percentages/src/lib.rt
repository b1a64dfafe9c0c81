// Percentages of the table: how full it is, and how often a lookup hit, missed or collided.
#![tactic(auto)]

ghost use Rattle.std.specs.Prelude.{◌≡◌, false, ◌^◌, ◌<◌, ◌≤◌};
ghost use Rattle.std.specs.Float.{binary64};
ghost use Rattle.std.specs.Float.Ieee.{round};

pub mod occupancy; // occupancy.rt: the shares of the entries of each bound
pub mod rates; // rates.rt: the rates of hits, misses and collisions

// a / b, rounded once: of whole numbers that f64 holds.
#[tactic(auto, using(crate::proofs::Division::quotient_is))]
fn quotient(a: u64, b: u64) -> f64
    requires { (a ≤ 2 ^ 53) × ((0 < b) × (b ≤ 2 ^ 53)) }
    ensures { result ≡ round binary64 false a b }
{
    a as f64 / b as f64
}
