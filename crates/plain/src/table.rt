// The table: an interrupt in each place, changed where it lies. An array, since memory is fixed.
ghost use Rattle.std.specs.Prelude.{◌≡◌};
ghost use Rattle.interrupt.specs.Meaning.{id_of};
ghost use Rattle.interrupt.specs.Sets.{put};
ghost use Rattle.guest.specs.Interrupts.{Interrupt, blank};
ghost use Rattle.plain.specs.Sources.{means};
ghost use Rattle.plain.specs.Steps.{MayTake, Takes};
ghost use Rattle.plain.specs.Table.{at_of};

use crate::source::Source;
use interrupt::id::{COUNT, InterruptId};

#[derive(Drop)]
pub struct Table {
    sources: [Source; COUNT],
}

impl Table {
    // Every interrupt blank.
    pub(crate) fn new() -> Table
        ensures { at_of result ≡ (λ _. blank) }
    {
        Table {
            sources: [Source::blank(); COUNT],
        }
    }

    #[tactic(auto, using(crate::proofs::Tables::read), unfolding(crate::specs::Table::at_of))]
    pub(crate) fn get(&self, id: InterruptId) -> Source
        ensures { means result ≡ at_of self.now (id_of id) }
    {
        self.sources[id.place()]
    }

    // Takes a step at an interrupt; what the step answers.
    pub(crate) fn change<R, F: FnOnce(&mut Source) -> R>(&mut self, id: InterruptId, step: F) -> R
        requires { MayTake F.FnOnce step (at_of self.old (id_of id)) }
        ensures { (i : Interrupt) × Takes F.FnOnce step (at_of self.old (id_of id)) result i × (at_of self.new ≡ put (id_of id) i (at_of self.old)) }
    {
        self.sources[id.place()].change(step)
    }
}
