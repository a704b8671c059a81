// Fields of words.
ghost use Rattle.std.specs.Prelude.{◌≡◌, ◌+◌, ◌<◌, ◌≤◌};
ghost use Rattle.layout.specs.Fields.{bits, is_set};

// Bits high down to low, which are not all 32.
#[tactic(auto, using(crate::proofs::Packing::masked))]
pub(crate) fn bits(word: u32, high: u32, low: u32) -> u32
    requires order { low ≤ high }
    requires width { high < low + 31 }
    requires within { high < 32 }
    ensures { result ≡ bits high low word }
{
    let width = high + 1 - low;
    word >> low & ((1 << width) - 1)
}

pub(crate) fn is_set(word: u32, place: u32) -> bool
    requires { place < 32 }
    ensures { result ≡ is_set place word }
{
    bits(word, place, place) == 1
}
