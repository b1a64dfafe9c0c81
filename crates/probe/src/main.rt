// The probe: reads requests from standard input until it ends, and answers each with lines on standard output.
#![tactic(auto)]

mod answers; // answers.rt: kinds 1 to 4
mod header; // header.rt: a request's header

use header::{ENTRIES, Header, Kind, STEPS, TREE, WORDS};
use probe_input::input;
use probe_input::input::Unfilled;
use probe_scripts::{clock_script, history_script, table_script};
use probe_text::stop::Stop;
use std::io::Input;

// What requests are read into: each part holds the longest that a right header announces.
#[derive(Drop)]
struct Room {
    tree: [u8; TREE],
    words: [u64; WORDS],
    history: [i16; ENTRIES],
    steps: [u8; 24 * STEPS],
}

// Answers a request whose body has been read.
fn answer(
    rt: &impl Print,
    h: Header,
    tree: &[u8],
    words: &mut [u64],
    history: &mut [i16],
    steps: &[u8],
) -> Result<(), Stop> {
    match Kind::try_from(h.kind)? {
        Kind::Root => answers::root(rt, h, tree, words, history),
        Kind::Node => answers::node(rt, h, tree, words, history),
        Kind::Tree => answers::tree(rt, h, tree),
        Kind::Record => answers::record(rt, h, tree),
        Kind::Clock => clock_script::run(rt, steps),
        Kind::Table => table_script::run(rt, h.stats, words, steps),
        Kind::History => history_script::run(rt, h.set.hh_max, history, steps),
    }
}

// An input that ends within a request cuts it short.
fn cut(u: Unfilled) -> Stop {
    match u {
        Unfilled::Failed(e) => Stop::ReadFailed(e),
        Unfilled::Empty | Unfilled::Cut => Stop::BadRequest,
    }
}

// Before a request it is the end of the run.
fn head_cut(u: Unfilled) -> Stop {
    match u {
        Unfilled::Empty => Stop::Ended,
        within => cut(within),
    }
}

// Reads the rest of a request and answers it.
fn body(
    rt: &(impl Input + Print),
    h: Header,
    tree: &mut [u8],
    words: &mut [u64],
    history: &mut [i16],
    steps: &mut [u8],
) -> Result<(), Stop> {
    input::body(rt, h.sent, tree, words, history, steps).map_err(|u| cut(u))?;
    answer(rt, h, tree, words, history, steps)
}

// The request of a header, over the start of each array. The arrays come apart: Rattle slices no field behind a reference.
#[tactic(auto, unfolding(crate::specs::Header::header_right, crate::specs::Header::lengths_right))]
fn announced(
    rt: &(impl Input + Print),
    h: Header,
    tree: &mut [u8; TREE],
    words: &mut [u64; WORDS],
    history: &mut [i16; ENTRIES],
    steps: &mut [u8; 24 * STEPS],
) -> Result<(), Stop> {
    if !header::right(h) {
        return Err(Stop::BadRequest);
    }
    body(
        rt,
        h,
        &mut tree[..h.tree],
        &mut words[..h.words],
        &mut history[..h.entries],
        &mut steps[..24 * h.steps],
    )
}

// One request.
fn request(rt: &(impl Input + Print), room: &mut Room) -> Result<(), Stop> {
    let mut head = [0u8; 96];
    input::fill(rt, &mut head).map_err(|u| head_cut(u))?;
    let Room {
        tree,
        words,
        history,
        steps,
    } = room;
    announced(rt, header::read(&head), tree, words, history, steps)
}

// Nothing says that the input ends, so the requests are counted up to a number that no run reaches.
fn requests(rt: &(impl Input + Print), room: &mut Room) -> Result<(), Stop> {
    for _ in 0..u64::MAX {
        request(rt, room)?;
    }
    Ok(())
}

// The one room, 1.2 MB, is a local of main: a function that returned it would copy it.
fn main(rt: HostRuntime) {
    let mut room = Room {
        tree: [0; TREE],
        words: [0; WORDS],
        history: [0; ENTRIES],
        steps: [0; 24 * STEPS],
    };
    if let Err(stop) = requests(&rt, &mut room) {
        let _ = stop.tell(&rt);
    }
}
