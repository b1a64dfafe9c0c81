// Reads trees from standard input, each as its length (4 bytes, little-endian) and its bytes, until the input ends,
// and prints a line for each: its number from 0, and the line that the program answers it with.
#![tactic(auto)]

ghost use Rattle.std.specs.Prelude.{◌≤◌, length};

use std::io;
use std::io::{Read, Write};

// Why a run ends: the input ended; it was cut short, or announced a longer tree than the buffer holds; a line can't be written.
#[derive(Clone, Copy)]
enum Stop {
    Ended,
    BadInput,
    Unwritten,
}

// Reads until buf is full, the input ends or a read fails; how many bytes it put at the start of buf.
fn read_full<R: Read>(from: &mut R, buf: &mut [u8]) -> usize
    ensures { result ≤ length buf.new }
{
    let mut done = 0;
    while done < buf.len() {
        match from.read(&mut buf[done..]) {
            Ok(0) | Err(_) => break,
            Ok(n) => done += n,
        }
    }
    done
}

// A number that can't be written is left out.
fn numbered<W: Write>(to: &mut W, number: u64, tree: &[u8]) -> Result<(), Stop> {
    let _ = write!(to, "{number} ");
    program::print(to, tree).map_err(|_| Stop::Unwritten)
}

// Fills the part that a tree takes, and answers.
fn answer<R: Read, W: Write>(
    from: &mut R,
    to: &mut W,
    tree: &mut [u8],
    number: u64,
) -> Result<(), Stop> {
    if read_full(from, tree) != tree.len() {
        return Err(Stop::BadInput);
    }
    numbered(to, number, tree)
}

fn body<R: Read, W: Write>(
    from: &mut R,
    to: &mut W,
    buf: &mut [u8],
    length: usize,
    number: u64,
) -> Result<(), Stop> {
    if length > buf.len() {
        return Err(Stop::BadInput);
    }
    answer(from, to, &mut buf[..length], number)
}

// One tree.
fn request<R: Read, W: Write>(
    from: &mut R,
    to: &mut W,
    buf: &mut [u8],
    number: u64,
) -> Result<(), Stop> {
    let mut head = [0u8; 4];
    match read_full(from, &mut head) {
        0 => Err(Stop::Ended),
        4 => body(from, to, buf, u32::from_le_bytes(head) as usize, number),
        _ => Err(Stop::BadInput),
    }
}

// Nothing says that the input ends, so the trees are numbered up to a number that no run reaches.
fn requests<R: Read, W: Write>(from: &mut R, to: &mut W, buf: &mut [u8]) -> Result<(), Stop> {
    for number in 0..u64::MAX {
        request(from, to, buf, number)?;
    }
    Ok(())
}

fn main(rt: HostRuntime) {
    let mut buf = [0u8; 66048];
    let mut to = io::writer(&rt);
    if let Err(Stop::BadInput) = requests(&mut rt.reader(), &mut to, &mut buf) {
        let _ = to.write_all(b"bad input\n");
    }
}
