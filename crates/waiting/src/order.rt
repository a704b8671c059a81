// The waiting order: one ring of all that wait, and a queue of those at each priority.
ghost use Rattle.std.specs.Prelude.{◌≡◌, ℕ, suc, ◌<◌, [], length, nat_eq};
ghost use Rattle.interrupt.specs.Lists.{has, those};
ghost use Rattle.waiting.specs.Levels.{given, level_at};
ghost use Rattle.waiting.specs.Places.{interrupts};
ghost use Rattle.waiting.specs.Queues.{queue};
ghost use Rattle.waiting.specs.Rings.{ring_list};

use crate::queues::Queues;
use crate::rings::Rings;
use interrupt::id::COUNT;
use interrupt::priority::Priority;

mod joining;

#[derive(Drop)]
pub struct WaitingOrder {
    // all that wait, in the first of these rings
    arrivals: Rings,
    // those at each priority
    queues: Queues,
    // the priority at which each interrupt waits, if it does; an array, since memory is fixed
    priorities: [Option<Priority>; COUNT],
    // of the rings of arrivals only the first is used
    ghost single: { (p : ℕ) → p < 31 → ring_list arrivals (suc p) ≡ [] },
    // each queue has those of its priority, in the order in which they came
    ghost parted: { (p : ℕ) → p < 32 → queue queues p ≡ those (λ m. nat_eq (level_at priorities m) p) (ring_list arrivals 0) },
    // just those that wait have a priority here
    ghost noted: { (m : ℕ) → has m (ring_list arrivals 0) ≡ given priorities m },
    // what its type says, for the functions that only write to it
    ghost sized: { length priorities ≡ interrupts },
}
