// The answers of kinds 1 to 4: root search, node search, tree check, node record.
use crate::header::Header;
use desk::{node_search, root_search};
use probe_text::fnv;
use probe_text::stop::Stop;
use probe_text::text::Line;
use refusal::Refusal;
use results::{NodeAnswer, RootAnswer};
use table::Stats;

// What was lent, as it stands after the call.
fn lent(line: &mut Line, stats: Stats, words: &[u64], history: &[i16]) {
    line.stats(stats);
    line.hex_field(b" table ", fnv::sum(words));
    line.hex_field(b" history ", fnv::sum(history));
}

// A refused search found nothing.
fn root_line(told: Result<RootAnswer, Refusal>) -> Line {
    let a = results::root_found(told);
    let mut line = Line::new();
    line.field(b"root ", refusal::number_told(told.map(|_| ())));
    line.field(b" score ", a.score);
    line.field(b" move ", a.mv);
    line.field(b" depth ", a.depth);
    line.field(b" nodes ", a.nodes);
    line.field(b" stopped ", u8::from(a.stopped));
    line
}

pub fn root(
    rt: &impl Print,
    h: Header,
    tree: &[u8],
    words: &mut [u64],
    history: &mut [i16],
) -> Result<(), Stop> {
    let mut stats = h.stats;
    let told = root_search::search_root(tree, words, history, h.set, &mut stats, h.start, h.end);
    let mut line = root_line(told);
    lent(&mut line, stats, words, history);
    line.write(rt)?;
    Ok(())
}

fn node_line(told: Result<NodeAnswer, Refusal>) -> Line {
    let a = results::node_found(told);
    let mut line = Line::new();
    line.field(b"node ", refusal::number_told(told.map(|_| ())));
    line.field(b" score ", a.score);
    line.field(b" nodes ", a.nodes);
    line.field(b" stopped ", u8::from(a.stopped));
    line
}

pub fn node(
    rt: &impl Print,
    h: Header,
    tree: &[u8],
    words: &mut [u64],
    history: &mut [i16],
) -> Result<(), Stop> {
    let mut stats = h.stats;
    let told = node_search::search_node(tree, words, history, h.set, &mut stats, h.at);
    let mut line = node_line(told);
    lent(&mut line, stats, words, history);
    line.write(rt)?;
    Ok(())
}

pub fn tree(rt: &impl Print, h: Header, tree: &[u8]) -> Result<(), Stop> {
    let told = trees::check_tree(tree, h.set.inf, h.set.max_ply);
    let mut line = Line::new();
    line.field(b"tree ", refusal::number_told(told));
    line.write(rt)?;
    Ok(())
}

// The bytes of a record as hex digits; nothing for the empty part.
fn record_bytes(line: &mut Line, record: &[u8]) {
    if !record.is_empty() {
        line.byte(b' ');
    }
    for b in record {
        line.hex(u64::from(*b), 2);
    }
}

pub fn record(rt: &impl Print, h: Header, tree: &[u8]) -> Result<(), Stop> {
    let set = h.set;
    let node = h.at.node;
    let told = trees::record_refusal(tree, set.inf, set.max_ply, node);
    let mut line = Line::new();
    line.field(b"record ", refusal::number_told(told));
    record_bytes(&mut line, trees::record(tree, set.inf, set.max_ply, node));
    line.write(rt)?;
    Ok(())
}
