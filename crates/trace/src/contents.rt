// The table of contents.
ghost use Rattle.std.specs.Prelude.{◌≡◌, ◌<◌, ◌≤◌, IfOk, cond};
ghost use Rattle.std.specs.Option.{option_map};
ghost use Rattle.std.specs.Result.{result_err};
ghost use Rattle.trace.specs.Contents.{sections, records_in, setups_section, events_section, entry_fault, setups_entry_fault, events_entry_fault, head_fault, contents_fault};
ghost use Rattle.fault.specs.Faults.{of_contents};

use crate::section::{RECORD, Section};
use fault::ContentsFault;
use records::little_endian::{u16_at, u32_at};

const EDITION: u8 = 1;

// the bytes before the table of contents, and those of an entry
const HEAD: u32 = 2;

const ENTRY: u32 = 12;

// the bytes of a file: from one entry with no record to two entries with the most records
const LEAST_SIZE: usize = 14;

const MOST_SIZE: usize = 32186;

const MOST_SETUPS: u16 = 1020;

const MOST_EVENTS: u16 = 3000;

#[derive(Clone, Copy)]
pub struct Contents {
    pub setups: Section,
    pub events: Section,
}

// The sections of a file, or its fault where the size or the table is wrong.
pub(crate) fn read_contents(file: &[u8]) -> Result<Contents, ContentsFault>
    ensures fault { contents_fault file.now ≡ option_map of_contents (result_err result) }
    ensures places { IfOk result (λ c. (c.setups ≡ setups_section file.now) × (c.events ≡ events_section file.now)) }
    ensures few { IfOk result (λ c. c.events.count ≤ 3000) }
{
    let head = Head::read(file)?;
    let setups = head.setups()?;
    let events = head.events(setups.place(setups.count) as u32)?;
    if events.place(events.count) != file.len() {
        return Err(ContentsFault::Wrong(0));
    }
    Ok(Contents { setups, events })
}

// A file with the right size, edition and number of sections: events alone, or setups and then events.
#[derive(Clone, Copy)]
struct Head<'a> {
    file: &'a [u8],
    has_setups: bool,
    ghost counts: { sections file.now ≡ cond has_setups 2 1 },
}

impl<'a> Head<'a> {
    fn read(file: &'a [u8]) -> Result<Head<'a>, ContentsFault>
        ensures fault { head_fault file.now ≡ option_map of_contents (result_err result) }
        ensures holds { IfOk result (λ h. h.file.now ≡ file.now) }
    {
        if file.len() < LEAST_SIZE || file.len() > MOST_SIZE || file[0] != EDITION {
            return Err(ContentsFault::Wrong(0));
        }
        let has_setups = match file[1] {
            1 => false,
            2 => true,
            _ => return Err(ContentsFault::Wrong(0)),
        };
        Ok(Head { file, has_setups })
    }

    // The section of the setups, which is empty where the file has none.
    fn setups(&self) -> Result<Section, ContentsFault>
        ensures fault { setups_entry_fault self.now.file.now ≡ option_map of_contents (result_err result) }
        ensures section { IfOk result (λ s. (s ≡ setups_section self.now.file.now) × (s.start ≤ 26) × (s.count ≤ 1020)) }
    {
        let start = HEAD + ENTRY * (1 + u32::from(self.has_setups));
        if !self.has_setups {
            return Ok(Section { start, count: 0 });
        }
        let entry = Entry {
            index: 0,
            letter: 'S',
            most: MOST_SETUPS,
            start,
        };
        entry.section(self.file)
    }

    // The section of the events, which begins at this byte.
    fn events(&self, start: u32) -> Result<Section, ContentsFault>
        requires { start ≡ (events_section self.now.file.now).start }
        ensures fault { events_entry_fault self.now.file.now ≡ option_map of_contents (result_err result) }
        ensures section { IfOk result (λ s. (s ≡ events_section self.now.file.now) × (s.count ≤ 3000)) }
    {
        let entry = Entry {
            index: u8::from(self.has_setups),
            letter: 'E',
            most: MOST_EVENTS,
            start,
        };
        entry.section(self.file)
    }
}

// What an entry has to say: its letter, at most how many records, and where their body begins.
#[derive(Clone, Copy)]
struct Entry {
    index: u8,
    letter: char,
    most: u16,
    start: u32,
    ghost known: { index < 2 },
}

impl Entry {
    // The section of which it says so.
    fn section(self, file: &[u8]) -> Result<Section, ContentsFault>
        ensures fault { entry_fault file.now self.index self.letter self.most self.start ≡ option_map of_contents (result_err result) }
        ensures section { IfOk result (λ s. (s.start ≡ self.start) × (s.count ≡ records_in file.now self.index) × (s.count ≤ self.most)) }
    {
        let at = HEAD + ENTRY * u32::from(self.index);
        let place = at as usize;
        if place + ENTRY as usize > file.len() {
            return Err(ContentsFault::Wrong(place));
        }
        let start = u32_at(file, at + 4);
        let count = u16_at(file, at + 2);
        let named = char::from(file[place]) == self.letter && file[place + 1] == 0;
        let lies = start == self.start
            && u32_at(file, at + 8) as usize == RECORD * usize::from(count);
        if named && count <= self.most && lies {
            Ok(Section { start, count })
        } else {
            Err(ContentsFault::Wrong(place))
        }
    }
}
