// A request's header of 96 bytes.
ghost use Rattle.std.specs.Prelude.{◌≡◌, ◌+◌, ◌≤◌};
ghost use Rattle.probe_input.specs.Fields.{signed16_at};
ghost use Rattle.probe.specs.Header.{odd, settings_of, stats_of, start_of, sent_of, header_of, kind_of, kind_right, lengths_right, header_right};

use desk::node_search::Start;
use probe_input::input::Sent;
use probe_text::stop::Stop;
use record::bytes;
use state::Settings;
use table::Stats;

// The maxima: bytes of a tree, words of a table, entries of a history, steps of a script.
pub const TREE: usize = 66048;

pub const WORDS: usize = 131074;

pub const ENTRIES: usize = 8193;

pub const STEPS: usize = 4096;

#[derive(Clone, Copy)]
pub struct Header {
    pub kind: u8,
    pub set: Settings,
    pub stats: Stats,
    pub at: Start,
    // A root search's start and end.
    pub start: i8,
    pub end: i8,
    // How many bytes, words, entries and steps follow, and whether words and entries are sent.
    pub tree: usize,
    pub words: usize,
    pub entries: usize,
    pub steps: usize,
    pub sent: Sent,
}

// What a request asks for.
#[derive(Clone, Copy)]
pub enum Kind {
    Root,
    Node,
    Tree,
    Record,
    Clock,
    Table,
    History,
}

impl TryFrom<u8> for Kind {
    type Error = Stop;

    ghost try_from_gives = { λ byte told. told ≡ kind_of byte };

    #[tactic(auto, unfolding(crate::specs::Header::kind_of))]
    fn try_from(byte: u8) -> Result<Kind, Stop> {
        match byte {
            1 => Ok(Kind::Root),
            2 => Ok(Kind::Node),
            3 => Ok(Kind::Tree),
            4 => Ok(Kind::Record),
            5 => Ok(Kind::Clock),
            6 => Ok(Kind::Table),
            7 => Ok(Kind::History),
            _ => Err(Stop::BadRequest),
        }
    }
}

// Whether a byte is odd: its lowest bit. A caller divides for the others.
fn bit(x: u8) -> bool
    ensures { result ≡ odd x }
{
    x % 2 == 1
}

fn signed16(head: &[u8; 96], at: usize) -> i16
    requires { at + 2 ≤ 96 }
    ensures { result ≡ signed16_at head.now at }
{
    (bytes::le::<2>(head, at) as u16).cast_signed()
}

#[tactic(auto, unfolding(crate::specs::Header::settings_of))]
fn settings_of(head: &[u8; 96]) -> Settings
    ensures { result ≡ settings_of head.now }
{
    let switches = head[1];
    Settings {
        inf: signed16(head, 2),
        max_ply: bytes::le::<2>(head, 4) as u16,
        hh_max: signed16(head, 6),
        side: head[8],
        limit: bytes::le::<8>(head, 16),
        table: bit(switches),
        delta: bit(switches / 2),
        reverse_futility: bit(switches / 4),
        futility: bit(switches / 8),
        late_move: bit(switches / 16),
        inner_deepening: bit(switches / 32),
    }
}

#[tactic(auto, unfolding(crate::specs::Header::stats_of))]
fn stats_of(head: &[u8; 96]) -> Stats
    ensures { result ≡ stats_of head.now }
{
    Stats {
        age: head[11],
        lookups: bytes::le::<8>(head, 40),
        inserts: bytes::le::<8>(head, 48),
        hits: bytes::le::<8>(head, 56),
        misses: bytes::le::<8>(head, 64),
        collisions: bytes::le::<8>(head, 72),
    }
}

#[tactic(auto, unfolding(crate::specs::Header::start_of))]
fn start_of(head: &[u8; 96]) -> Start
    ensures { result ≡ start_of head.now }
{
    Start {
        node: bytes::le::<8>(head, 24),
        alpha: signed16(head, 12),
        beta: signed16(head, 14),
        depth: head[9].cast_signed(),
        ply: bytes::le::<8>(head, 32),
    }
}

#[tactic(auto, unfolding(crate::specs::Header::sent_of))]
fn sent_of(head: &[u8; 96]) -> Sent
    ensures { result ≡ sent_of head.now }
{
    Sent {
        words: !bit(head[92]),
        entries: !bit(head[92] / 2),
    }
}

#[tactic(auto, unfolding(crate::specs::Header::header_of))]
pub fn read(head: &[u8; 96]) -> Header
    ensures { result ≡ header_of head.now }
{
    Header {
        kind: head[0],
        set: settings_of(head),
        stats: stats_of(head),
        at: start_of(head),
        start: head[9].cast_signed(),
        end: head[10].cast_signed(),
        tree: bytes::le::<4>(head, 80) as usize,
        words: bytes::le::<4>(head, 84) as usize,
        entries: bytes::le::<4>(head, 88) as usize,
        steps: bytes::le::<2>(head, 94) as usize,
        sent: sent_of(head),
    }
}

// A known kind, and steps in a script alone.
#[tactic(auto, unfolding(crate::specs::Header::kind_right))]
fn kind_right(h: Header) -> bool
    ensures { result ≡ kind_right h }
{
    (1..=7).contains(&h.kind) && (4 < h.kind || h.steps == 0)
}

// No length over its maximum.
#[tactic(auto, unfolding(crate::specs::Header::lengths_right))]
fn lengths_right(h: Header) -> bool
    ensures { result ≡ lengths_right h }
{
    h.tree <= TREE && h.words <= WORDS && h.entries <= ENTRIES && h.steps <= STEPS
}

#[tactic(auto, unfolding(crate::specs::Header::header_right))]
pub fn right(h: Header) -> bool
    ensures { result ≡ header_right h }
{
    kind_right(h) && lengths_right(h)
}
