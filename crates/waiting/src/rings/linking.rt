// Joining a ring at its last place, leaving it from any, and finding its first, each in constant time.
ghost use Rattle.std.specs.Prelude.{◌≡◌, ℕ, ◌<◌, true, false, [], ◌∷◌, ◌++◌, if◌then◌else◌, nat_eq};
ghost use Rattle.std.specs.Option.{option_map};
ghost use Rattle.interrupt.specs.Lists.{has, without, first};
ghost use Rattle.interrupt.specs.Meaning.{id_of};
ghost use Rattle.waiting.specs.Rings.{ring_list};

use super::Rings;
use crate::links::Links;
use crate::place::Place;
use interrupt::id::InterruptId;
use interrupt::priority::Priority;

impl Rings {
    // No one is in any ring.
    pub(crate) fn new() -> Rings
        ensures { (p : ℕ) → p < 32 → ring_list result p ≡ [] }
    {
        Rings {
            links: Links::new(),
        }
    }

    // The first in the ring of this priority. Where there is none, the end is linked to itself, and it is no interrupt.
    pub(crate) fn front(&self, priority: Priority) -> Option<InterruptId>
        ensures { option_map id_of result ≡ first (ring_list self.now priority.level) }
    {
        let first = self.links.after(Place::end_of(priority));
        InterruptId::new(u32::from(first.number))
    }

    // An interrupt that is in no ring becomes the last in the ring of this priority.
    pub(crate) fn join(&mut self, id: InterruptId, priority: Priority)
        requires { (p : ℕ) → p < 32 → has (id_of id) (ring_list self.old p) ≡ false }
        ensures { (p : ℕ) → p < 32 → ring_list self.new p ≡ (if nat_eq p priority.level then ring_list self.old p ++ id_of id ∷ [] else ring_list self.old p) }
    {
        let place = Place::from(id);
        let end = Place::end_of(priority);
        let last = self.links.before(end);
        self.links.link(last, place);
        self.links.link(place, end);
    }

    // An interrupt leaves the ring that it is in.
    pub(crate) fn leave(&mut self, id: InterruptId)
        requires { (p : ℕ) × (p < 32) × (has (id_of id) (ring_list self.old p) ≡ true) }
        ensures { (p : ℕ) → p < 32 → ring_list self.new p ≡ without (id_of id) (ring_list self.old p) }
    {
        let place = Place::from(id);
        let before = self.links.before(place);
        let after = self.links.after(place);
        self.links.link(before, after);
    }
}
