// Reading whole parts of standard input.
ghost use Rattle.std.specs.Prelude.{◌≡◌, ℕ, ◌+◌, ◌*◌, ◌<◌, ◌≤◌, List, length, refl};
ghost use Rattle.std.proofs.Common.{rules};
ghost use Rattle.record.specs.Bytes.{le};
ghost use Rattle.probe_input.specs.Fields.{signed16_at};
ghost use Rattle.probe_input.specs.Sent.{items_from, words_from, entries_from};

use record::bytes;
use std::io;
use std::io::{Input, Read};

// Whether the table's words and the history's entries are sent; else they are all zero.
#[derive(Clone, Copy)]
pub struct Sent {
    pub words: bool,
    pub entries: bool,
}

// Why a part was not filled: the input had ended, ended within it, or a read failed.
#[derive(Debug, Drop)]
pub enum Unfilled {
    Empty,
    Cut,
    Failed(io::Error),
}

// A number that a request holds as its little-endian bytes.
pub trait Number: Copy {
    const WIDTH: usize;

    ghost WIDTH: { ℕ };

    ghost read_at: { List ℕ → ℕ → Self };

    // The first numbers of a chunk, put into items from a place on.
    ghost put: { List ℕ → List Self → ℕ → ℕ → List Self };

    fn read(chunk: &[u8; 4096], at: usize) -> Self
        requires { at + WIDTH ≤ 4096 }
        ensures { result ≡ read_at chunk.now at };

    ghost fits: { (0 < WIDTH) × (WIDTH ≤ 8) };

    ghost put_is: { (chunk : List ℕ) (items : List Self) (at n : ℕ) → items_from read_at WIDTH chunk items at n ≡ put chunk items at n };
}

impl Number for u64 {
    const WIDTH: usize = 8;

    ghost WIDTH = { 8 };

    ghost read_at = { λ s at. le s at 8 };

    ghost put = { words_from };

    ghost fits = { Prim.search rules };

    ghost put_is = { λ chunk items at n. refl };

    fn read(chunk: &[u8; 4096], at: usize) -> u64 {
        bytes::le::<8>(chunk, at)
    }
}

impl Number for i16 {
    const WIDTH: usize = 2;

    ghost WIDTH = { 2 };

    ghost read_at = { signed16_at };

    ghost put = { entries_from };

    ghost fits = { Prim.search rules };

    ghost put_is = { λ chunk items at n. refl };

    fn read(chunk: &[u8; 4096], at: usize) -> i16 {
        (bytes::le::<2>(chunk, at) as u16).cast_signed()
    }
}

// Reads until buf is full. A read that fails is not taken for the end of the input.
pub fn fill(rt: &impl Input, buf: &mut [u8]) -> Result<(), Unfilled> {
    let mut input = rt.reader();
    let mut done = 0;
    while done < buf.len() {
        match input.read(&mut buf[done..]) {
            Ok(0) if done == 0 => return Err(Unfilled::Empty),
            Ok(0) => return Err(Unfilled::Cut),
            Ok(more) => done += more,
            Err(e) => return Err(Unfilled::Failed(e)),
        }
    }
    Ok(())
}

// The numbers that a chunk of bytes holds.
#[tactic(auto, unfolding(crate::specs::Sent::items_from))]
fn decode<T: Number>(chunk: &[u8; 4096], items: &mut [T])
    requires { T.WIDTH * length items.old ≤ 4096 }
    ensures { items.new ≡ T.put chunk.now items.old 0 (length items.old) }
{
    for (i, x) in items.iter_mut().enumerate() {
        *x = T::read(chunk, T::WIDTH * i);
    }
}

// The next numbers, no more than a chunk holds.
fn next<T: Number>(rt: &impl Input, items: &mut [T]) -> Result<(), Unfilled>
    requires { T.WIDTH * length items.old ≤ 4096 }
{
    let mut chunk = [0u8; 4096];
    fill(rt, &mut chunk[..T::WIDTH * items.len()])?;
    decode(&chunk, items);
    Ok(())
}

fn fill_numbers<T: Number>(rt: &impl Input, items: &mut [T]) -> Result<(), Unfilled> {
    for part in items.chunks_mut(4096 / T::WIDTH) {
        next(rt, part)?;
    }
    Ok(())
}

// A request's body: tree, table, history, steps. Words and entries that are not sent are zero.
pub fn body(
    rt: &impl Input,
    sent: Sent,
    tree: &mut [u8],
    words: &mut [u64],
    entries: &mut [i16],
    steps: &mut [u8],
) -> Result<(), Unfilled> {
    fill(rt, tree)?;
    if sent.words {
        fill_numbers(rt, words)?;
    } else {
        words.fill(0);
    }
    if sent.entries {
        fill_numbers(rt, entries)?;
    } else {
        entries.fill(0);
    }
    fill(rt, steps)
}
