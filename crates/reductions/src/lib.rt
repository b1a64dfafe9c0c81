// The reductions of late moves: a constant table, a row for each depth and a column for each count of moves.
#![tactic(auto)]

mod lmr;

ghost use Rattle.std.specs.Prelude.{◌≡◌};
ghost use Rattle.reductions.specs.Reductions.{reduction_of};

use crate::lmr::LMR;

// How much shallower the moves-th move at a depth is searched; outside of the table nothing is taken off.
pub fn reduction(depth: usize, moves: usize) -> u8
    ensures { result ≡ reduction_of depth moves }
{
    if depth > 31 || moves > 63 {
        0
    } else {
        LMR[depth][moves]
    }
}
