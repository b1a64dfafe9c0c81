// How a node's visit ends.
#![tactic(auto)]

pub mod cutoff; // cutoff.rt: a cutoff's bonus, malus and store
pub mod finish; // finish.rt: the cutoff's score, the end of the game, or alpha, with the best score stored
