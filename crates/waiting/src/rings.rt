// Rings of links, one for each priority: from the ring's end through the interrupts in it and back to the end.
ghost use Rattle.waiting.specs.Links.{Linked, Once, Named};

use crate::links::Links;

mod linking;

#[derive(Drop)]
pub struct Rings {
    links: Links,
    ghost linked: { Linked links },
    ghost once: { Once links },
    ghost named: { Named links },
}
