// What a node's visit carries: its arguments, what stays the same in it, what its walk of the moves changes.
#![tactic(auto)]

use state::{Out, State};
use std::ops::ControlFlow;

// The arguments of a visit.
#[derive(Clone, Copy)]
pub struct Args {
    pub node: usize,
    pub side: u8,
    pub alpha: i16,
    pub beta: i16,
    pub depth: u8,
    pub ply: usize,
}

// What stays the same in one visit: `old` is the alpha of entry, `depth` has the check's extension, `full` tells a full window.
#[derive(Clone, Copy)]
pub struct Here {
    pub node: usize,
    pub side: u8,
    pub old: i16,
    pub beta: i16,
    pub depth: u8,
    pub ply: usize,
    pub full: bool,
    pub eval: i16,
}

// What the walk carries: alpha, the score and the move to be stored, the state.
#[derive(Clone, Copy)]
pub struct Loc {
    pub state: State,
    pub alpha: i16,
    pub best: i16,
    pub mv: u16,
}

// What a turn of the walk leaves: a break where it cut.
pub type Turn = ControlFlow<Loc, Loc>;

// What the steps before the moves leave: an answer, or the moves to be made.
pub type Entered = ControlFlow<Out, (Here, Loc)>;
