// A line of an answer, put together in an array from its start on, and written at once.
ghost use Rattle.std.specs.Prelude.{◌≡◌, ◌∷◌, [], min, max, replicate};
ghost use Rattle.probe_text.specs.Line.{line_at, put, puts, Spelled};

use itoa::{Buffer, Integer};
use table::Stats;

// The bytes, and where the next one goes. The longest line has under 400 bytes; what a full line has no room for is left out.
#[derive(Clone, Copy)]
pub struct Line {
    bytes: [u8; 512],
    next: usize,
}

impl Line {
    pub fn new() -> Line
        ensures { result ≡ line_at (replicate 512 0) 0 }
    {
        Line {
            bytes: [0; 512],
            next: 0,
        }
    }

    #[tactic(auto, unfolding(crate::specs::Line::put))]
    pub fn byte(&mut self, b: u8)
        ensures { self.new ≡ put b self.old }
    {
        if self.next < 512 {
            self.bytes[self.next] = b;
            self.next += 1;
        }
    }

    pub fn bytes(&mut self, s: &[u8])
        ensures { self.new ≡ puts s.now self.old }
    {
        for b in s {
            self.byte(*b);
        }
    }

    // In decimal digits.
    pub fn number<I: Integer>(&mut self, x: I)
        ensures { self.new ≡ puts (I.text x) self.old }
    {
        let mut digits = Buffer::new();
        self.bytes(digits.format(x).as_bytes());
    }

    // A word and a number after it; the word has its spaces.
    pub fn field<I: Integer>(&mut self, word: &[u8], x: I)
        ensures { self.new ≡ puts (I.text x) (puts word.now self.old) }
    {
        self.bytes(word);
        self.number(x);
    }

    // At least so many hexadecimal digits, from one to 16.
    pub fn hex(&mut self, x: u64, least: usize)
        ensures { Spelled 16 (min (max least 1) 16) x self.old self.new }
    {
        let mut digits = [0u8; 16];
        let k = io::hex(x, least, &mut digits);
        self.bytes(&digits[..k]);
    }

    pub fn hex_field(&mut self, word: &[u8], x: u64)
        ensures { Spelled 16 16 x (puts word.now self.old) self.new }
    {
        self.bytes(word);
        self.hex(x, 16);
    }

    // The age and the five counters.
    pub fn stats(&mut self, s: Stats) {
        self.field(b" age ", s.age);
        self.field(b" lookups ", s.lookups);
        self.field(b" inserts ", s.inserts);
        self.field(b" hits ", s.hits);
        self.field(b" misses ", s.misses);
        self.field(b" collisions ", s.collisions);
    }

    // Writes the bytes put, and a line end.
    pub fn write(mut self, rt: &impl Print) -> std::io::Result<()> {
        self.byte(b'\n');
        rt.write_all(&self.bytes[..self.next.min(512)])
    }
}
