// What the probe writes: a line of an answer, a float written exactly, the sums over what was lent, and why a run ends.
#![tactic(auto)]

pub mod float; // float.rt: a float written exactly
pub mod fnv; // fnv.rt: the sums over table and history
pub mod stop; // stop.rt: why a run ends
pub mod text; // text.rt: a line of an answer
