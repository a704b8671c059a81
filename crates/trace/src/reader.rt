// The reader: it borrows the file, and hands out records as parts of it.
ghost use Rattle.std.specs.Prelude.{◌≡◌, map, IfOk, MatchOption, OnOk};
ghost use Rattle.std.specs.Result.{result_err};
ghost use Rattle.trace.specs.Contents.{setups_section, events_section};
ghost use Rattle.trace.specs.Opening.{Absent, Found, fault_of, AllRead, events_in};
ghost use Rattle.trace.specs.Walking.{left, placed_at, placed_in};
ghost use Rattle.records.specs.Bytes.{held_by};
ghost use Rattle.records.specs.Records.{setup_of, event_of};

use crate::check::{check_events, check_setups};
use crate::contents::read_contents;
use crate::section::Section;
use crate::walk::Walk;
use fault::Fault;
use records::record::{Event, Record, Setup};

// A file whose contents and records are right, and where its sections lie. A section may be changed, as to play the first events
// alone: a record that is not there, or holds nothing, is passed over.
#[derive(Clone, Copy)]
pub struct Trace<'a> {
    file: &'a [u8],
    pub setups: Section,
    pub events: Section,
}

impl<'a> Trace<'a> {
    // Opens a file: its contents are judged, then every record in the file's order. Every record of an open trace can be read.
    pub fn open(file: &'a [u8]) -> Result<Trace<'a>, Fault>
        ensures fault { fault_of file.now ≡ result_err result }
        ensures holds { IfOk result (λ t. (t.file.now ≡ file.now) × (t.setups ≡ setups_section file.now) × (t.events ≡ events_section file.now)) }
        ensures reads { OnOk result (AllRead file.now) }
    {
        let contents = read_contents(file)?;
        check_setups(file, contents.setups)?;
        check_events(file, contents.events)?;
        Ok(Trace {
            file,
            setups: contents.setups,
            events: contents.events,
        })
    }

    // The record of setup k.
    pub fn setup(&self, k: u16) -> Option<Record<'a>>
        ensures { MatchOption result (Absent self.now.file.now self.now.setups k) (λ b. Found self.now.file.now self.now.setups k b.offset b.bytes.now) }
    {
        self.setups.record(self.file, k)
    }

    // The record of event k.
    pub fn event(&self, k: u16) -> Option<Record<'a>>
        ensures { MatchOption result (Absent self.now.file.now self.now.events k) (λ b. Found self.now.file.now self.now.events k b.offset b.bytes.now) }
    {
        self.events.record(self.file, k)
    }

    // The setups that can be read, each with its place, in the file's order.
    pub fn setups(&self) -> Walk<'a, Setup>
        ensures { left setup_of result.file.now result.section result.next ≡ placed_in self.now.file.now self.now.setups }
    {
        Walk::over(self.file, self.setups)
    }

    // The events that can be read, each with its place, in the file's order.
    pub fn events(&self) -> Walk<'a, Event>
        ensures placed { left event_of result.file.now result.section result.next ≡ held_by self.now.events.count (placed_at event_of self.now.file.now self.now.events) }
        ensures values { map (λ p. p.value) (left event_of result.file.now result.section result.next) ≡ events_in self.now.file.now self.now.events }
    {
        Walk::over(self.file, self.events)
    }
}
