// A set of list registers, as a word of 64 bits.
ghost use Rattle.std.specs.Prelude.{◌≡◌, ◌<◌, true, false, not};
ghost use Rattle.interrupt.specs.Sets.{put, some};
ghost use Rattle.mask_device.specs.Sets.{registers_in};
ghost use Rattle.mask_device.specs.Highest.{Highest};

// Which of the 64 registers that a set may have.
#[derive(Clone, Copy)]
pub struct Place {
    index: usize,
    ghost within: { index < 64 },
}

impl Place {
    pub(crate) fn new(index: usize) -> Place
        requires { index < 64 }
        ensures { result.index ≡ index }
    {
        Place { index }
    }
}

#[derive(Clone, Copy)]
pub struct RegisterSet {
    word: u64,
}

impl RegisterSet {
    #[tactic(auto, using(interrupt::proofs::Bits::no_member))]
    pub(crate) fn empty() -> RegisterSet
        ensures { registers_in result ≡ (λ _. false) }
    {
        RegisterSet { word: 0 }
    }

    pub(crate) fn with(self, register: Place) -> RegisterSet
        ensures { registers_in result ≡ put register.index true (registers_in self) }
    {
        RegisterSet {
            word: self.word | 1 << register.index,
        }
    }

    pub(crate) fn without(self, register: Place) -> RegisterSet
        ensures { registers_in result ≡ put register.index false (registers_in self) }
    {
        RegisterSet {
            word: self.word & !(1 << register.index),
        }
    }

    // The highest register in the set.
    pub(crate) fn highest(self) -> Option<usize>
        ensures { Highest (registers_in self) result }
    {
        let k = self.word.checked_ilog2()?;
        Some(k as usize)
    }

    pub(crate) fn is_empty(self) -> bool
        ensures { result ≡ not (some 64 (registers_in self)) }
    {
        self.highest().is_none()
    }
}
