// The program: reads a tree from standard input and prints the line that answers it.
#![tactic(auto)]

ghost use Rattle.std.specs.Prelude.{◌≡◌, length};
ghost use Rattle.adjudicate.specs.Input.{step_of, Taken, TakenFirst};

use std::io;
use std::io::Read;

// What a read's answer says, where it was to fill a part: so many bytes, or none since the input has ended.
fn outcome(got: io::Result<usize>, part: &[u8]) -> io::Result<Option<usize>>
    ensures { result ≡ step_of got (length part.now) }
{
    match got? {
        0 => Ok(None),
        n => Ok(Some(n.min(part.len()))),
    }
}

// Reads until the input ends or buf is full; how many bytes. A read that fails is not taken for the end.
fn read_tree<R: Read>(from: &mut R, buf: &mut [u8]) -> io::Result<usize>
    ensures taken { Taken result buf.new }
    ensures first { TakenFirst (R.remaining from.old) (R.remaining from.new) result buf.new }
{
    let mut done = 0;
    while done < buf.len() {
        let got = from.read(&mut buf[done..]);
        match outcome(got, &buf[done..])? {
            Some(n) => done += n,
            None => return Ok(done),
        }
    }
    Ok(done)
}

// One byte more than the longest tree: an input that fills it has a length that is refused, and is never cut to a good one.
fn main(rt: HostRuntime) -> io::Result<()> {
    let mut buf = [0u8; 65537];
    let n = read_tree(&mut rt.reader(), &mut buf).map_err(|_| io::Error::other(
        "standard input can't be read",
    ))?;
    let _ = program::print(&mut io::writer(&rt), &buf[..n]);
    Ok(())
}
