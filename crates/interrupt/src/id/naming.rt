// From a number to an interrupt's identity, and back.
ghost use Rattle.std.specs.Prelude.{◌≡◌, ◌<◌, ◌≤◌, MatchOption};
ghost use Rattle.interrupt.specs.Meaning.{id_of};

use super::{COUNT, InterruptId};

impl InterruptId {
    // the interrupt of number 0
    pub const FIRST: InterruptId = InterruptId { number: 0 };

    // The interrupt of this number, or none above 1019. Each caller has a refusal of its own for none, so this is no TryFrom.
    pub fn new(number: u32) -> Option<InterruptId>
        ensures { MatchOption result (1020 ≤ number) (λ i. (number < 1020) × (id_of i ≡ number)) }
    {
        if number as usize >= COUNT {
            return None;
        }
        Some(InterruptId {
            number: number as u16,
        })
    }

    // The number by which it is known.
    pub fn number(self) -> u16
        ensures { result ≡ id_of self }
    {
        self.number
    }

    // Its place in a table that has one for each interrupt.
    pub fn place(self) -> usize
        ensures value { result ≡ id_of self }
        ensures within { result < 1020 }
    {
        usize::from(self.number())
    }
}
