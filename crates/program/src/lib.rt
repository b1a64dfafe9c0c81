// The line that the program answers a tree with: 01's settings, the search with them, and the printing.
#![tactic(auto)]

ghost use Rattle.std.specs.Prelude.{◌≡◌, take, OnOk};
ghost use Rattle.std.specs.Io.KnownBytes.{Appends};
ghost use Rattle.io.specs.Counts.{IsPrefixLen};
ghost use Rattle.program.specs.Program.{program_settings, fresh_stats, program_entry, program_line};
ghost use Rattle.results.specs.Told.{told_root};

use desk::root_search;
use refusal::Refusal;
use results::RootAnswer;
use state::Settings;
use std::io;
use std::io::Write;
use table::Stats;

pub fn settings() -> Settings
    ensures { result ≡ program_settings }
{
    Settings {
        inf: 30000,
        max_ply: 128,
        hh_max: 16384,
        side: 0,
        limit: 1000000,
        table: true,
        delta: true,
        reverse_futility: true,
        futility: true,
        late_move: true,
        inner_deepening: true,
    }
}

pub fn fresh() -> Stats
    ensures { result ≡ fresh_stats }
{
    Stats::default()
}

// Depths 1 to 30, over a table of 4,096 entries and a history of its own; the age and counters after it.
pub fn search(tree: &[u8]) -> (Result<RootAnswer, Refusal>, Stats)
    ensures { told_root result.0 result.1 ≡ (program_entry tree.now).it }
{
    let mut words = [0u64; 8192];
    let mut history = [0i16; 8192];
    let mut stats = fresh();
    let told = root_search::search_root(
        tree,
        &mut words,
        &mut history,
        settings(),
        &mut stats,
        1,
        31,
    );
    (told, stats)
}

// The line that answers a tree, at the start of out; how many bytes it has.
pub fn answer(tree: &[u8], out: &mut [u8; 160]) -> usize
    ensures prefix_len { IsPrefixLen result out.new }
    ensures out_after { take result out.new ≡ program_line tree.now }
{
    let (told, _) = search(tree);
    let line = text::line(told);
    let bytes = line.as_str().as_bytes();
    out[..bytes.len()].copy_from_slice(bytes);
    bytes.len()
}

// Writes the answer to a writer, as standard output. Of a writer whose bytes are known, Ok says that it has the line behind
// what it had.
pub fn print<W: Write>(to: &mut W, tree: &[u8]) -> io::Result<()>
    ensures { OnOk result (Appends (W.contents to.old) (W.contents to.new) (program_line tree.now)) }
{
    let mut out = [0u8; 160];
    let n = answer(tree, &mut out);
    to.write_all(&out[..n])
}
