// The entry of the transposition table and its two words (002): a data word that packs the entry, and a hash word.
#![tactic(auto)]

ghost use Rattle.std.specs.Prelude.{◌≡◌};
ghost use Rattle.transposition.specs.Word.{bound_byte, bound_of, data_word, entry_of, hash_word};

#[derive(Clone, Copy, PartialEq, Eq, Debug)]
pub enum Bound {
    Exact,
    Lower,
    Upper,
}

#[derive(Clone, Copy, PartialEq, Eq, Debug)]
pub struct Entry {
    pub age: u8,
    pub bound: Bound,
    pub depth: i8,
    pub score: i16,
    pub mv: u16,
}

// The byte that a data word has for a bound.
impl From<Bound> for u8 {
    ghost from_gives = { λ bound byte. byte ≡ bound_byte bound };

    fn from(bound: Bound) -> u8 {
        match bound {
            Bound::Exact => 0,
            Bound::Lower => 1,
            Bound::Upper => 2,
        }
    }
}

// The bound that a byte reads as: any byte has one, since a lent word may hold any.
impl From<u8> for Bound {
    ghost from_gives = { λ byte bound. bound ≡ bound_of byte };

    #[tactic(auto, unfolding(crate::specs::Word::bound_of))]
    fn from(byte: u8) -> Bound {
        match byte {
            1 => Bound::Lower,
            2 => Bound::Upper,
            _ => Bound::Exact,
        }
    }
}

// The entry in one word, each field at its place.
impl From<Entry> for u64 {
    ghost from_gives = { λ e word. word ≡ data_word e };

    #[tactic(auto, unfolding(crate::specs::Word::data_word))]
    fn from(e: Entry) -> u64 {
        let bound = u8::from(e.bound);
        let depth = score::bits8(e.depth);
        let [s0, s1] = e.score.to_le_bytes();
        let [m0, m1] = e.mv.to_le_bytes();
        u64::from_le_bytes([0, e.age, bound, depth, s0, s1, m0, m1])
    }
}

// The entry that a data word holds. The low byte is not looked at.
impl From<u64> for Entry {
    ghost from_gives = { λ word e. e ≡ entry_of word };

    #[tactic(auto, unfolding(crate::specs::Word::entry_of))]
    fn from(word: u64) -> Entry {
        let [_, age, bound, depth, s0, s1, m0, m1] = word.to_le_bytes();
        Entry {
            age,
            bound: Bound::from(bound),
            depth: score::of_bits8(depth),
            score: i16::from_le_bytes([s0, s1]),
            mv: u16::from_le_bytes([m0, m1]),
        }
    }
}

// The word beside the data word: a data word that another write changed no longer fits it.
pub fn hash_word(hash: u64, word: u64) -> u64
    ensures { result ≡ hash_word hash word }
{
    hash ^ word
}
