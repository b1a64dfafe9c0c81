// One move's turn in a node's visit.
#![tactic(auto)]

pub mod prune; // prune.rt: futility, and the reductions of late moves
pub mod window; // window.rt: the windows in which its child is visited, and what the answer makes of the walk
