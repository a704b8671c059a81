// A queue for each priority, and the set of the priorities whose queue has anyone.
ghost use Rattle.std.specs.Prelude.{◌≡◌, ℕ, ◌<◌};
ghost use Rattle.interrupt.specs.Lists.{filled};
ghost use Rattle.interrupt.specs.Meaning.{members};
ghost use Rattle.waiting.specs.Rings.{ring_list};

use crate::rings::Rings;
use interrupt::priority_set::PrioritySet;

mod queueing;

#[derive(Drop)]
pub struct Queues {
    // the queue of each priority is the ring of that priority
    rings: Rings,
    fronts: PrioritySet,
    ghost shown: { (p : ℕ) → p < 32 → members fronts p ≡ filled (ring_list rings p) },
}
