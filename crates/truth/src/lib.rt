// Demand 3 is a theorem about definitions; `desk` has it as a clause of the node search's contract.
#![tactic(auto)]

fn nothing() {}
