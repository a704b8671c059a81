// Which priorities are in a set.
ghost use Rattle.std.specs.Prelude.{◌≡◌, true, false};
ghost use Rattle.interrupt.specs.Meaning.{members, level_or};
ghost use Rattle.interrupt.specs.Sets.{lowest, member, put, word_of};

use super::PrioritySet;
use crate::priority::Priority;
use crate::word::{bits_word, lowest_bit, no_bits, with_bit, without_bit};

impl PrioritySet {
    // The set with no priority.
    pub fn empty() -> PrioritySet
        ensures { members result ≡ (λ _. false) }
    {
        PrioritySet { word: no_bits() }
    }

    pub fn insert(&mut self, p: Priority)
        ensures { members self.new ≡ put p.level true (members self.old) }
    {
        self.word = with_bit(self.word, p);
    }

    pub fn remove(&mut self, p: Priority)
        ensures { members self.new ≡ put p.level false (members self.old) }
    {
        self.word = without_bit(self.word, p);
    }

    // The lowest priority in the set, if it has any.
    pub fn lowest(self) -> Option<Priority>
        ensures { level_or result 32 ≡ lowest 32 (members self) }
    {
        Priority::new(lowest_bit(self.word))
    }
}

// The set of the priorities whose bits are set.
impl From<u32> for PrioritySet {
    ghost from_gives = { λ word set. members set ≡ member word };

    fn from(word: u32) -> PrioritySet {
        PrioritySet { word }
    }
}

// The word in which the bits of its priorities are set.
impl From<PrioritySet> for u32 {
    ghost from_gives = { λ set word. word ≡ word_of 32 (members set) };

    fn from(set: PrioritySet) -> u32 {
        bits_word(set.word)
    }
}
