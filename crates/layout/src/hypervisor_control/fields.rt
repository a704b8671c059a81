// Its fields: bit 0 live, bits 31:27 the stray count, the others zero.
ghost use Rattle.std.specs.Prelude.{◌≡◌, true, false, MatchResult};
ghost use Rattle.refusal.specs.declared.Refusal.TheVariants.{BadLayout};
ghost use Rattle.layout.specs.Layouts.{control_word, control_live, control_stray, control_layout, PacksControl};

use super::HypervisorControl;
use crate::bits::{bits, is_set};
use list_register::stray::StrayCount;
use refusal::Refusal;

fn packed(live: bool, stray: StrayCount) -> u32
    ensures { result ≡ control_word live stray.count }
{
    u32::from(stray.number()) << 27 | u32::from(live)
}

fn stray_in(word: u32) -> StrayCount
    ensures { result.count ≡ control_stray word }
{
    StrayCount::new(bits(word, 31, 27)).unwrap()
}

impl HypervisorControl {
    pub fn new(live: bool, stray: StrayCount) -> HypervisorControl
        ensures { PacksControl live stray.count result.word }
    {
        HypervisorControl {
            word: packed(live, stray),
        }
    }

    pub fn is_live(self) -> bool
        ensures { result ≡ control_live self.word }
    {
        is_set(self.word, 0)
    }

    pub fn stray(self) -> StrayCount
        ensures { result.count ≡ control_stray self.word }
    {
        stray_in(self.word)
    }
}

// The word, if it is in its layout.
impl TryFrom<u32> for HypervisorControl {
    type Error = Refusal;

    ghost try_from_gives = { λ word r. MatchResult r (λ c. (control_layout word ≡ true) × (c.word ≡ word)) (λ e. (control_layout word ≡ false) × (e ≡ BadLayout)) };

    fn try_from(word: u32) -> Result<HypervisorControl, Refusal> {
        if packed(is_set(word, 0), stray_in(word)) != word {
            return Err(Refusal::BadLayout);
        }
        Ok(HypervisorControl { word })
    }
}

// The word is that of its fields.
impl From<HypervisorControl> for u32 {
    ghost from_gives = { λ c word. word ≡ control_word (control_live c.word) (control_stray c.word) };

    fn from(control: HypervisorControl) -> u32 {
        control.word
    }
}
