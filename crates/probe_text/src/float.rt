// A float that is not negative, written exactly: m e E, that is m times 2^E with m odd, or 0 e 0.
ghost use Rattle.std.specs.Prelude.{◌^◌, ◌<◌};
ghost use Rattle.probe_text.specs.Float.{Halves};

use crate::text::Line;

// What is left of a number that was halved so many times.
#[derive(Clone, Copy)]
struct Halved {
    left: u64,
    times: u32,
}

// A number of at most 53 bits, halved while it is even; 0 is halved 53 times.
fn halve(x: u64) -> Halved
    requires { x < 2 ^ 53 }
    ensures { Halves x result.left result.times }
{
    let times = x.trailing_zeros().min(53);
    Halved {
        left: x >> times,
        times,
    }
}

// m times 2^(exponent - 1075), with m made odd.
fn odd(line: &mut Line, m: u64, exponent: u32)
    requires { (m < 2 ^ 53) × (exponent < 2048) }
{
    let h = halve(m);
    line.number(h.left);
    line.field(b" e ", (exponent + h.times).cast_signed() - 1075);
}

// The 52 low bits are the fraction, the 11 above them the exponent, which is 0 where the fraction has no leading 1.
pub fn exact(line: &mut Line, x: f64) {
    if x > 0.0 {
        let bits = f64::to_bits(x);
        let exponent = (bits / 4503599627370496 % 2048) as u32;
        let fraction = bits % 4503599627370496;
        if exponent == 0 {
            odd(line, fraction, 1);
        } else {
            odd(line, fraction + 4503599627370496, exponent);
        }
    } else {
        line.bytes(b"0 e 0");
    }
}

pub fn field(line: &mut Line, word: &[u8], x: f64) {
    line.bytes(word);
    exact(line, x);
}
