// The pending registers of each priority.
ghost use Rattle.std.specs.Prelude.{◌≡◌, ℕ, ◌<◌};
ghost use Rattle.interrupt.specs.Meaning.{members};
ghost use Rattle.interrupt.specs.Sets.{some};
ghost use Rattle.mask_device.specs.Sets.{in_set};

use crate::register_set::RegisterSet;
use interrupt::priority;
use interrupt::priority_set::PrioritySet;

mod changing;

// how many sets there are, one for each priority
const LEVELS: usize = priority::LEVELS as usize;

#[derive(Drop)]
pub struct PendingSets {
    sets: [RegisterSet; LEVELS],
    // the priorities whose sets are not empty
    levels: PrioritySet,
    ghost summed: { (p : ℕ) → p < 32 → members levels p ≡ some 64 (in_set sets p) },
}
