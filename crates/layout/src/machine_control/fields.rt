// Its fields: bits 31:27 the mask, bit 9 split, bit 0 open; 23:21 hold 2 and 20:18 hold 3, the others zero.
ghost use Rattle.std.specs.Prelude.{◌≡◌, true, false, MatchResult};
ghost use Rattle.refusal.specs.declared.Refusal.TheVariants.{BadLayout};
ghost use Rattle.layout.specs.Layouts.{machine_word, machine_mask, machine_mode, machine_open, machine_layout, PacksMachine};

use super::MachineControl;
use crate::bits::{bits, is_set};
use interrupt::cpu_interface::EoiMode;
use interrupt::priority::Priority;
use refusal::Refusal;

// the fields that never change: 2 in bits 23:21, 3 in bits 20:18
const BINARY_POINTS: u32 = 2 << 21 | 3 << 18;

fn packed(mask: Priority, mode: EoiMode, open: bool) -> u32
    ensures { result ≡ machine_word mask.level mode «open» }
{
    u32::from(mask.level()) << 27 | (BINARY_POINTS | ((mode as u32) << 9 | u32::from(open)))
}

fn mask_in(word: u32) -> Priority
    ensures { result.level ≡ machine_mask word }
{
    Priority::new(bits(word, 31, 27)).unwrap()
}

fn mode_in(word: u32) -> EoiMode
    ensures { result ≡ machine_mode word }
{
    EoiMode::from(is_set(word, 9))
}

impl MachineControl {
    pub fn new(mask: Priority, mode: EoiMode, open: bool) -> MachineControl
        ensures { PacksMachine mask.level mode «open» result.word }
    {
        MachineControl {
            word: packed(mask, mode, open),
        }
    }

    pub fn mask(self) -> Priority
        ensures { result.level ≡ machine_mask self.word }
    {
        mask_in(self.word)
    }

    pub fn mode(self) -> EoiMode
        ensures { result ≡ machine_mode self.word }
    {
        mode_in(self.word)
    }

    pub fn is_open(self) -> bool
        ensures { result ≡ machine_open self.word }
    {
        is_set(self.word, 0)
    }
}

// The word, if it is in its layout.
impl TryFrom<u32> for MachineControl {
    type Error = Refusal;

    ghost try_from_gives = { λ word r. MatchResult r (λ c. (machine_layout word ≡ true) × (c.word ≡ word)) (λ e. (machine_layout word ≡ false) × (e ≡ BadLayout)) };

    fn try_from(word: u32) -> Result<MachineControl, Refusal> {
        if packed(mask_in(word), mode_in(word), is_set(word, 0)) != word {
            return Err(Refusal::BadLayout);
        }
        Ok(MachineControl { word })
    }
}

// The word is that of its fields.
impl From<MachineControl> for u32 {
    ghost from_gives = { λ c word. word ≡ machine_word (machine_mask c.word) (machine_mode c.word) (machine_open c.word) };

    fn from(control: MachineControl) -> u32 {
        control.word
    }
}
