// The searches, as public entries: each takes any bytes and numbers and gives its answer, or 01's refusal.
#![tactic(auto)]

pub mod node_search; // node_search.rt: the node search, with demand 3
pub mod root_search; // root_search.rt: the root search
