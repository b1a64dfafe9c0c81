// FNV-1a, 64 bits, over little-endian bytes.
ghost use Rattle.std.specs.Prelude.{◌≡◌, ℕ, List, refl};
ghost use Rattle.std.specs.Int.{w16};
ghost use Rattle.score.specs.Bits.{bits_of};
ghost use Rattle.probe_text.specs.Fnv.{bytes_into, sum_of, of_words, of_entries};

const BASIS: u64 = 14695981039346656037;

const PRIME: u64 = 1099511628211;

// A number that a sum goes over: its bits, and how many bytes they have.
pub trait Summed: Copy {
    const WIDTH: usize;

    ghost WIDTH: { ℕ };

    ghost bits: { Self → ℕ };

    // The sum over many.
    ghost sum: { List Self → ℕ };

    fn bits(self) -> u64
        ensures { result ≡ bits self };

    ghost sum_is: { (items : List Self) → sum_of bits WIDTH items ≡ sum items };
}

impl Summed for u64 {
    const WIDTH: usize = 8;

    ghost WIDTH = { 8 };

    ghost bits = { λ x. x };

    ghost sum = { of_words };

    ghost sum_is = { λ items. refl };

    fn bits(self) -> u64 {
        self
    }
}

impl Summed for i16 {
    const WIDTH: usize = 2;

    ghost WIDTH = { 2 };

    ghost bits = { λ x. bits_of w16 x };

    ghost sum = { of_entries };

    ghost sum_is = { λ items. refl };

    fn bits(self) -> u64 {
        u64::from(self.cast_unsigned())
    }
}

// The sum after the n low bytes of x.
#[tactic(auto, unfolding(crate::specs::Fnv::bytes_into))]
fn after(sum: u64, x: u64, n: usize) -> u64
    ensures { result ≡ bytes_into sum x n }
{
    let mut s = sum;
    let mut rest = x;
    for _i in 0..n {
        s = (s ^ (rest % 256)).wrapping_mul(PRIME);
        rest /= 256;
    }
    s
}

#[tactic(auto, unfolding(crate::specs::Fnv::sum_of))]
pub fn sum<T: Summed>(items: &[T]) -> u64
    ensures { result ≡ T.sum items.now }
{
    items
        .iter()
        .fold(BASIS, |s, x| after(s, x.bits(), T::WIDTH))
}
