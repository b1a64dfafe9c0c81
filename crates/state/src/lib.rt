// What both kinds of visit share: the settings, the state of a search, the poll, the count, and the table through its switch.
#![tactic(auto)]

ghost use Rattle.std.specs.Prelude.{◌≡◌, ◌≤◌, length};
ghost use Rattle.state.specs.State.{poll_of, count_node, answer_of, seen_of, over, keep_of};
ghost use Rattle.state.specs.Consult.{stay, narrowed, use_of, consult_of, hint_of};

use table::{Found, Looked, Stats};
use transposition::{Bound, Entry};

// The settings of 01 and its six switches.
#[derive(Clone, Copy)]
pub struct Settings {
    pub inf: i16,
    pub max_ply: u16,
    pub hh_max: i16,
    pub side: u8,
    pub limit: u64,
    pub table: bool,
    pub delta: bool,
    pub reverse_futility: bool,
    pub futility: bool,
    pub late_move: bool,
    pub inner_deepening: bool,
}

// What a search carries by value: the count of nodes, the stop mark, the table's age and counters.
#[derive(Clone, Copy)]
pub struct State {
    pub stats: Stats,
    pub nodes: u64,
    pub stop: bool,
}

// What a visit answers.
#[derive(Clone, Copy)]
pub struct Out {
    pub state: State,
    pub score: i16,
}

// What a lookup found, and the state after it.
#[derive(Clone, Copy)]
pub struct Seen {
    pub found: Found,
    pub state: State,
}

// What the table makes of a window: a score that cuts, if any, the window that it leaves and its hint.
#[derive(Clone, Copy)]
pub struct Consulted {
    pub cut: Option<i16>,
    pub alpha: i16,
    pub beta: i16,
    pub hint: u16,
}

impl State {
    // The limit poll. A stop stays.
    #[tactic(auto, unfolding(crate::specs::State::poll_of))]
    pub fn poll(mut self, limit: u64) -> State
        ensures { result ≡ poll_of limit self }
    {
        if limit <= self.nodes {
            self.stop = true;
        }
        self
    }

    // One node more.
    #[tactic(auto, unfolding(crate::specs::State::count_node))]
    pub fn count_node(mut self) -> State
        ensures { result ≡ count_node self }
    {
        self.nodes = self.nodes.wrapping_add(1);
        self
    }

    // A score, with this state.
    pub fn answer(self, score: i16) -> Out
        ensures { result ≡ answer_of score self }
    {
        Out { score, state: self }
    }

    // A lookup, if the table switch is on; else a miss that is not counted.
    #[tactic(auto, unfolding(crate::specs::State::seen_of))]
    pub fn look(self, words: &[u64], on: bool, hash: u64) -> Seen
        requires { 2 ≤ length words.now }
        ensures { result ≡ seen_of on words.now self hash }
    {
        if on {
            let Looked { found, stats } = table::lookup(words, self.stats, hash);
            return Seen {
                found,
                state: State { stats, ..self },
            };
        }
        Seen {
            found: Found::Miss,
            state: self,
        }
    }

    // A store, if the table switch is on.
    #[tactic(auto, unfolding(crate::specs::State::keep_of))]
    pub fn keep(
        self,
        words: &mut [u64],
        on: bool,
        hash: u64,
        depth: i8,
        score: i16,
        mv: u16,
        bound: Bound,
    ) -> State
        requires { 2 ≤ length words.old }
        ensures { over result words.new ≡ keep_of on words.old self hash depth score mv bound }
    {
        if on {
            let stats = table::store(words, self.stats, hash, depth, score, mv, bound);
            return State { stats, ..self };
        }
        self
    }
}

// The window as it is, with a hint.
fn stay(hint: u16, alpha: i16, beta: i16) -> Consulted
    ensures { result ≡ stay hint alpha beta }
{
    Consulted {
        cut: None,
        alpha,
        beta,
        hint,
    }
}

// A window that an entry has narrowed: nothing is left of it where alpha has reached beta.
fn narrow(e: Entry, alpha: i16, beta: i16) -> Consulted
    ensures { result ≡ narrowed e alpha beta }
{
    let cut = if beta <= alpha { Some(e.score) } else { None };
    Consulted {
        cut,
        alpha,
        beta,
        hint: e.mv,
    }
}

// What a stored entry makes of the window, where its depth is enough.
#[tactic(auto, unfolding(crate::specs::Consult::by_bound))]
fn use_entry(e: Entry, alpha: i16, beta: i16) -> Consulted
    ensures { result ≡ use_of e alpha beta }
{
    match e.bound {
        Bound::Exact => Consulted {
            cut: Some(e.score),
            alpha,
            beta,
            hint: e.mv,
        },
        Bound::Lower => narrow(e, e.score.max(alpha), beta),
        Bound::Upper => narrow(e, alpha, beta.min(e.score)),
    }
}

// What a lookup makes of the window.
#[tactic(auto, unfolding(crate::specs::Consult::consult_of, crate::specs::Consult::use_if))]
pub fn consult(found: Found, usable: bool, depth: i8, alpha: i16, beta: i16) -> Consulted
    ensures { result ≡ consult_of found usable depth alpha beta }
{
    match found {
        Found::Hit(e) if usable && depth <= e.depth => use_entry(e, alpha, beta),
        Found::Hit(e) => stay(e.mv, alpha, beta),
        Found::Miss | Found::Collision => stay(0, alpha, beta),
    }
}

// The move of an entry that was found, 0 where none was.
#[tactic(auto, unfolding(crate::specs::Consult::hint_of))]
pub fn hint_of(found: Found) -> u16
    ensures { result ≡ hint_of found }
{
    match found {
        Found::Hit(e) => e.mv,
        Found::Miss | Found::Collision => 0,
    }
}
