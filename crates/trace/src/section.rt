// A section of the file: its records lie one after another.
ghost use Rattle.std.specs.Prelude.{◌≡◌, ◌<◌, MatchOption};
ghost use Rattle.records.specs.Bytes.{record_at};
ghost use Rattle.trace.specs.Opening.{place, Absent, Found};
ghost use Rattle.trace.specs.Walking.{placed_at};

use crate::placed::Placed;
use records::record::{FromRecord, Record};

// the bytes of a record
pub(crate) const RECORD: usize = 8;

// Where the records of a section begin, and how many there are.
#[derive(Clone, Copy, Debug, PartialEq, Eq)]
pub struct Section {
    pub start: u32,
    pub count: u16,
}

impl Section {
    // Where record k lies; at the count, where the section ends.
    pub(crate) fn place(self, k: u16) -> usize
        ensures { result ≡ place self k }
    {
        self.start as usize + RECORD * usize::from(k)
    }

    // Record k, as a part of the file with its offset; none from the count up, or where the file ends before it does.
    pub(crate) fn record<'a>(self, file: &'a [u8], k: u16) -> Option<Record<'a>>
        ensures { MatchOption result (Absent file.now self k) (λ b. Found file.now self k b.offset b.bytes.now) }
    {
        let offset = self.place(k);
        if k >= self.count || offset + RECORD > file.len() {
            return None;
        }
        Some(Record {
            bytes: &file[offset..offset + RECORD],
            offset,
        })
    }

    // What record k holds, or none where it is not whole or a field is not as it should be.
    pub(crate) fn read<T: FromRecord>(self, file: &[u8], k: u16) -> Option<T>
        requires { k < self.count }
        ensures { result ≡ T.held (record_at file.now (place self k)) }
    {
        T::from_record(&self.record(file, k)?)
    }

    // The same, with its place.
    pub(crate) fn placed<T: FromRecord>(self, file: &[u8], k: u16) -> Option<Placed<T>>
        requires { k < self.count }
        ensures { result ≡ placed_at T.held file.now self k }
    {
        let place = self.place(k);
        let value = self.read(file, k)?;
        Some(Placed { place, value })
    }
}
