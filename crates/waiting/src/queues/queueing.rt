// Joining a queue, leaving it, and its front, each in constant time.
ghost use Rattle.std.specs.Prelude.{◌≡◌, ℕ, ◌<◌, false, [], ◌∷◌, ◌++◌, if◌then◌else◌, ◌==◌, nat_eq};
ghost use Rattle.std.specs.Option.{option_map};
ghost use Rattle.interrupt.specs.Lists.{has, without, first, filled};
ghost use Rattle.interrupt.specs.Meaning.{id_of, members};
ghost use Rattle.waiting.specs.Queues.{queue};

use super::Queues;
use crate::rings::Rings;
use interrupt::id::InterruptId;
use interrupt::priority::Priority;
use interrupt::priority_set::PrioritySet;

impl Queues {
    // Every queue is empty.
    pub(crate) fn new() -> Queues
        ensures { (p : ℕ) → p < 32 → queue result p ≡ [] }
    {
        Queues {
            rings: Rings::new(),
            fronts: PrioritySet::empty(),
        }
    }

    // The first in the queue of this priority.
    pub(crate) fn front(&self, priority: Priority) -> Option<InterruptId>
        ensures { option_map id_of result ≡ first (queue self.now priority.level) }
    {
        self.rings.front(priority)
    }

    // The priorities whose queue has anyone.
    pub(crate) fn fronts(&self) -> PrioritySet
        ensures { (p : ℕ) → p < 32 → members result p ≡ filled (queue self.now p) }
    {
        self.fronts
    }

    // An interrupt that is in no queue becomes the last in that of this priority.
    pub(crate) fn join(&mut self, id: InterruptId, priority: Priority)
        requires { (p : ℕ) → p < 32 → has (id_of id) (queue self.old p) ≡ false }
        ensures { (p : ℕ) → p < 32 → queue self.new p ≡ (if nat_eq p priority.level then queue self.old p ++ id_of id ∷ [] else queue self.old p) }
    {
        self.rings.join(id, priority);
        self.fronts.insert(priority);
    }

    // An interrupt leaves the queue of this priority, the only one that it is in.
    pub(crate) fn leave(&mut self, id: InterruptId, priority: Priority)
        requires { (p : ℕ) → p < 32 → has (id_of id) (queue self.old p) ≡ (p == priority.level) }
        ensures { (p : ℕ) → p < 32 → queue self.new p ≡ without (id_of id) (queue self.old p) }
    {
        self.rings.leave(id);
        if self.rings.front(priority).is_none() {
            self.fronts.remove(priority);
        }
    }
}
