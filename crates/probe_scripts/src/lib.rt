// The scripts that the probe runs, one answer to a step.
#![tactic(auto)]

pub mod clock_script; // clock_script.rt: kind 5
pub mod history_script; // history_script.rt: kind 7
pub mod table_script; // table_script.rt: kind 6
