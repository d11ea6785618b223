// Words of 64 bits.
ghost use Rattle.std.specs.Prelude.{◌≡◌};
ghost use Rattle.tip_element.specs.Traces.{bit};
ghost use Rattle.tip_element.specs.Words.{no_word, word_join, word_laws};

use super::element::Element;

/// A word of 64 bits, joined by exclusive or. It has the layout of C's `uint64_t`, so buffers of words can be shared with C.
#[repr(C)]
#[derive(Clone, Copy, PartialEq, Eq, Debug)]
pub struct Word(pub u64);

impl Element for Word {
    ghost zero = { no_word };

    ghost join = { word_join };

    ghost laws = { word_laws };

    fn zero() -> Word {
        Word(0)
    }

    fn join(self, other: Word) -> Word {
        Word(self.0 ^ other.0)
    }

    fn is_zero(self) -> bool {
        self.0 == 0
    }
}

/// Whether this bit of a word is set. There are no bits from 64 on.
pub fn has_bit(word: u64, index: usize) -> bool
    ensures { result ≡ bit word index }
{
    index < 64 && (word >> index) % 2 == 1
}
