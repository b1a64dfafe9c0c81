// Scores: signed 16-bit numbers whose sums, differences and negations wrap; and two's complement at 16 and 8 bits. Each body is
// the library's call, and each contract ties it to the definition that the rest of the repository speaks of.
#![tactic(auto)]

ghost use Rattle.std.specs.Prelude.{◌≡◌};
ghost use Rattle.std.specs.Int.{w8, w16};
ghost use Rattle.score.specs.Wrap.{wrap16, add16, sub16, neg16, eq_z};
ghost use Rattle.score.specs.Bits.{bits_of, signed_of};

// s modulo 2^16, as a signed number.
#[tactic(auto, using(crate::proofs::Wrapping::low_is))]
pub fn wrap(s: i32) -> i16
    ensures { result ≡ wrap16 s }
{
    ((s.cast_unsigned() % 65536) as u16).cast_signed()
}

// The sum, which wraps.
#[tactic(auto, using(crate::proofs::Wrapping::sum_is))]
pub fn add16(a: i16, b: i16) -> i16
    ensures { result ≡ add16 a b }
{
    a.wrapping_add(b)
}

// The difference, which wraps.
#[tactic(auto, using(crate::proofs::Wrapping::difference_is))]
pub fn sub16(a: i16, b: i16) -> i16
    ensures { result ≡ sub16 a b }
{
    a.wrapping_sub(b)
}

// The negation, which wraps: that of the least number is itself.
#[tactic(auto, using(crate::proofs::Wrapping::negation_is))]
pub fn neg16(a: i16) -> i16
    ensures { result ≡ neg16 a }
{
    a.wrapping_neg()
}

// The 16 bits of a, as a word holds them.
pub fn bits16(a: i16) -> u16
    ensures { result ≡ bits_of w16 a }
{
    a.cast_unsigned()
}

// The signed number that 16 bits hold.
pub fn of_bits16(b: u16) -> i16
    ensures { result ≡ signed_of w16 b }
{
    b.cast_signed()
}

// The 8 bits of a number, as a word holds them.
pub fn bits8(value: i8) -> u8
    ensures { result ≡ bits_of w8 value }
{
    value.cast_unsigned()
}

// The signed number that 8 bits hold.
pub fn of_bits8(byte: u8) -> i8
    ensures { result ≡ signed_of w8 byte }
{
    byte.cast_signed()
}

// Whether two scores are the same.
#[tactic(auto, using(crate::proofs::Bits::same_is))]
pub fn same16(a: i16, b: i16) -> bool
    ensures { result ≡ eq_z a b }
{
    a == b
}
