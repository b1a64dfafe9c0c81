// What the probe reads: whole parts of standard input, and a script's steps.
#![tactic(auto)]

pub mod input; // input.rt: reading whole parts of the input
pub mod step; // step.rt: a script's step
