// The text of the line that answers a search.
#![tactic(auto)]

ghost use Rattle.std.specs.Prelude.{Ok, ◌≡◌, ◌++◌, ◌+◌, ◌≤◌, length};
ghost use Rattle.arrayvec.specs.ArrayString.{array_string_len};
ghost use Rattle.table.specs.declared.Stats.{Stats};
ghost use Rattle.text.specs.Text.{ascii, answer_line, refused_line, line_of};
ghost use Rattle.results.specs.Told.{told_root};

use arrayvec::ArrayString;
use itoa::{Buffer, Integer};
use refusal::Refusal;
use results::RootAnswer;

// The longest line has under 80 bytes, so a line has room for each.
pub type Line = ArrayString<160>;

// A word and a number behind it.
fn put<I: Integer>(line: &mut Line, word: &str, n: I)
    requires { array_string_len line.old + (length word.now + I.MAX_STR_LEN) ≤ 160 }
    ensures put { line.new.bytes ≡ line.old.bytes ++ (word.now ++ I.text n) }
    ensures upper_bound { array_string_len line.new ≤ array_string_len line.old + (length word.now + I.MAX_STR_LEN) }
{
    let mut digits = Buffer::new();
    line.push_str(word);
    line.push_str(digits.format(n));
}

// The line of a refusal, of any number.
pub fn refused_line(refusal: u8) -> Line
    ensures { result.bytes ≡ refused_line refusal }
{
    let mut line = Line::new();
    put(&mut line, "refused ", refusal);
    line.push_str("\n");
    line
}

// What was found, score and move; then how it was searched, depth, nodes and stop mark.
fn answer_line(a: RootAnswer) -> Line
    ensures { (c : Stats) → result.bytes ≡ answer_line (told_root (Ok a) c) }
{
    let mut line = Line::new();
    put(&mut line, "score ", a.score);
    put(&mut line, " move ", a.mv);
    put(&mut line, " depth ", a.depth);
    put(&mut line, " nodes ", a.nodes);
    put(&mut line, " stopped ", u8::from(a.stopped));
    line.push_str("\n");
    line
}

// The line that answers what a search told; the age and counters after it are not printed.
pub fn line(told: Result<RootAnswer, Refusal>) -> Line
    ensures { (c : Stats) → result.bytes ≡ line_of (told_root told c) }
{
    match told {
        Ok(a) => answer_line(a),
        Err(r) => refused_line(r.number()),
    }
}
