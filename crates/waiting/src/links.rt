// Links between places: the place after each place, and the place before it. In an array, since memory is fixed and each step
// takes constant time.
ghost use Rattle.std.specs.Prelude.{◌≡◌, ℕ, ◌<◌};
ghost use Rattle.interrupt.specs.Sets.{put};
ghost use Rattle.waiting.specs.Places.{places};
ghost use Rattle.waiting.specs.Links.{next_of, prev_of};

use crate::place::{PLACES, Place};
use std::array;

// The neighbours of one place.
#[derive(Clone, Copy)]
pub struct Link {
    pub next: Place,
    pub prev: Place,
}

impl Link {
    // Before the rings have anyone, each place comes after itself.
    fn to_itself(place: Place) -> Link
        ensures next { result.next.number ≡ place.number }
        ensures prev { result.prev.number ≡ place.number }
    {
        Link {
            next: place,
            prev: place,
        }
    }
}

#[derive(Drop)]
pub struct Links {
    links: [Link; PLACES],
}

impl Links {
    // Each place linked to itself.
    pub(crate) fn new() -> Links
        ensures next { (i : ℕ) → i < places → next_of result i ≡ i }
        ensures prev { (i : ℕ) → i < places → prev_of result i ≡ i }
    {
        Links {
            links: array::from_fn(
                |i|
                    requires { i < places }
                { Link::to_itself(Place { number: i as u16 }) },
            ),
        }
    }

    // The place after this one.
    #[tactic(auto, using(crate::proofs::Tables::read_at), unfolding(crate::specs::Links::next_of))]
    pub(crate) fn after(&self, place: Place) -> Place
        ensures { result.number ≡ next_of self.now place.number }
    {
        self.links[usize::from(place.number)].next
    }

    // The place before this one.
    #[tactic(auto, using(crate::proofs::Tables::read_at), unfolding(crate::specs::Links::prev_of))]
    pub(crate) fn before(&self, place: Place) -> Place
        ensures { result.number ≡ prev_of self.now place.number }
    {
        self.links[usize::from(place.number)].prev
    }

    // `after` comes after `before`.
    pub(crate) fn link(&mut self, before: Place, after: Place)
        ensures next { next_of self.new ≡ put before.number after.number (next_of self.old) }
        ensures prev { prev_of self.new ≡ put after.number before.number (prev_of self.old) }
    {
        self.links[usize::from(before.number)].next = after;
        self.links[usize::from(after.number)].prev = before;
    }
}
