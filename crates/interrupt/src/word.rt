// A word as a set of priorities: bit p is set where p is in the set.
ghost use Rattle.std.specs.Prelude.{◌≡◌, ◌≤◌, true, false};
ghost use Rattle.interrupt.specs.Sets.{member, lowest, put, word_of};

use crate::priority::Priority;

// The word with no bit set.
pub(crate) fn no_bits() -> u32
    ensures { member result ≡ (λ _. false) }
{
    0
}

pub(crate) fn with_bit(word: u32, p: Priority) -> u32
    ensures { member result ≡ put p.level true (member word) }
{
    word | 1 << p.level()
}

pub(crate) fn without_bit(word: u32, p: Priority) -> u32
    ensures { member result ≡ put p.level false (member word) }
{
    word & !(1 << p.level())
}

// The lowest set bit, and 32 where none is.
pub(crate) fn lowest_bit(word: u32) -> u32
    ensures value { result ≡ lowest 32 (member word) }
    ensures within { result ≤ 32 }
{
    word.trailing_zeros()
}

// The word of the set that a word stands for is the word itself.
pub(crate) fn bits_word(word: u32) -> u32
    ensures { result ≡ word_of 32 (member word) }
{
    word
}
