// Little-endian numbers of a slice of bytes.
ghost use Rattle.std.specs.Prelude.{◌≡◌, ◌+◌, ◌^◌, ◌≤◌, ◌<◌, length};
ghost use Rattle.record.specs.Bytes.{le};

// The number in the N bytes from `at`: they are the low bytes of eight, whose others are 0.
pub fn le<const N: usize>(s: &[u8], at: usize) -> u64
    requires width { N ≤ 8 }
    requires in_bounds { at + N ≤ length s.now }
    ensures value { result ≡ le s.now at N }
    ensures fits { result < 256 ^ N }
{
    let mut bytes = [0; 8];
    bytes[..N].copy_from_slice(&s[at..at + N]);
    let number = u64::from_le_bytes(bytes);
    number
}
