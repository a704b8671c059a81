// A place in the rings. Each interrupt has the place of its number, and after the interrupts' places come the ends of the
// rings, one for each priority.
ghost use Rattle.std.specs.Prelude.{◌≡◌, ◌<◌};
ghost use Rattle.interrupt.specs.Meaning.{id_of};
ghost use Rattle.waiting.specs.Places.{places, end_of};

use interrupt::id::{COUNT, InterruptId};
use interrupt::priority::{LEVELS, Priority};

// how many places there are
pub const PLACES: usize = COUNT + LEVELS as usize;

#[derive(Clone, Copy)]
pub struct Place {
    pub number: u16,
    ghost within: { number < places },
}

impl Place {
    // The end of the ring of this priority.
    pub(crate) fn end_of(priority: Priority) -> Place
        ensures { result.number ≡ end_of priority.level }
    {
        Place {
            number: COUNT as u16 + u16::from(priority.level()),
        }
    }
}

// The place of an interrupt.
impl From<InterruptId> for Place {
    ghost from_gives = { λ id place. place.number ≡ id_of id };

    fn from(id: InterruptId) -> Place {
        Place {
            number: id.number(),
        }
    }
}
