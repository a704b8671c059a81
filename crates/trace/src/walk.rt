// The records of a section, one after another.
ghost use Rattle.std.specs.Prelude.{◌≡◌, ◌≤◌, ◌-◌};
ghost use Rattle.records.specs.Bytes.{record_at};
ghost use Rattle.trace.specs.Opening.{place};

use crate::placed::Placed;
use crate::section::Section;
use records::record::FromRecord;
use std::marker::PhantomData;

// The records of a section from the next one on, of those that hold a T.
#[derive(Drop)]
pub struct Walk<'a, T: FromRecord> {
    file: &'a [u8],
    section: Section,
    next: u16,
    of: PhantomData<T>,
    ghost within: { next ≤ section.count },
}

impl<'a, T: FromRecord> Walk<'a, T> {
    ghost use Rattle.std.specs.Prelude.{map};
    ghost use Rattle.records.specs.Bytes.{held_by};
    ghost use Rattle.trace.specs.Walking.{placed_at, left};

    // From the first record of a section on.
    pub(crate) fn over(file: &'a [u8], section: Section) -> Walk<'a, T>
        ensures placed { left T.held result.file.now result.section result.next ≡ held_by section.count (placed_at T.held file.now section) }
        ensures values { map (λ p. p.value) (left T.held result.file.now result.section result.next) ≡ held_by section.count (λ k. T.held (record_at file.now (place section k))) }
    {
        Walk {
            file,
            section,
            next: 0,
            of: PhantomData,
        }
    }
}

impl<'a, T: FromRecord> Iterator for Walk<'a, T> {
    type Item = Placed<T>;

    ghost use Rattle.std.specs.Iterator.{YieldsFirst, at_most};
    ghost use Rattle.trace.specs.Walking.{left};

    ghost next_gives = { YieldsFirst (λ s. left T.held s.file.now s.section s.next) };

    ghost remaining = { λ s. at_most (s.section.count - s.next) };

    fn next(&mut self) -> Option<Placed<T>> {
        for k in self.next..self.section.count {
            self.next = k + 1;
            if let Some(placed) = self.section.placed(self.file, k) {
                return Some(placed);
            }
        }
        None
    }
}
