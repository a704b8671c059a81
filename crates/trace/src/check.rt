// Whether the records of a section can be read, in the file's order. By number, since a fault names the place of record k.
ghost use Rattle.std.specs.Prelude.{◌≡◌, ◌-◌, ◌<◌, IfOk, OnOk, if◌then◌else◌, nat_eq};
ghost use Rattle.std.specs.Option.{option_map};
ghost use Rattle.std.specs.Result.{result_err};
ghost use Rattle.fault.specs.Faults.{of_record};
ghost use Rattle.records.specs.Records.{setup_of, event_of};
ghost use Rattle.trace.specs.Opening.{time_at, event_fault, setups_fault, events_fault, Readable};

use crate::section::Section;
use fault::RecordFault;
use records::record::{Event, Setup};

// Whether every setup can be read.
#[tactic(auto, using(fault::proofs::Faults::first_none, fault::proofs::Faults::first_more, crate::proofs::Opened::setups_read))]
pub(crate) fn check_setups(file: &[u8], setups: Section) -> Result<(), RecordFault>
    ensures fault { setups_fault file.now setups ≡ option_map of_record (result_err result) }
    ensures reads { OnOk result (Readable setup_of file.now setups) }
{
    for k in 0..setups.count {
        setups
            .read::<Setup>(file, k)
            .ok_or(RecordFault::Field(setups.place(k)))?;
    }
    Ok(())
}

// Whether every event can be read and none is earlier than the one before it.
#[tactic(auto, using(fault::proofs::Faults::first_none, fault::proofs::Faults::first_more, crate::proofs::Records::time_next))]
pub(crate) fn check_events(file: &[u8], events: Section) -> Result<(), RecordFault>
    ensures fault { events_fault file.now events ≡ option_map of_record (result_err result) }
    ensures reads { OnOk result (Readable event_of file.now events) }
{
    let mut time = 0;
    for k in 0..events.count {
        time = check_event(file, events, k, time)?;
    }
    Ok(())
}

// The time of event k, given that of the one before it, 0 for the first.
fn check_event(file: &[u8], events: Section, k: u16, before: u32) -> Result<u32, RecordFault>
    requires within { k < events.count }
    requires since { before ≡ (if nat_eq k 0 then 0 else time_at file.now events (k - 1)) }
    ensures fault { event_fault file.now events k ≡ option_map of_record (result_err result) }
    ensures time { IfOk result (λ t. t ≡ time_at file.now events k) }
{
    let place = events.place(k);
    let event = events
        .read::<Event>(file, k)
        .ok_or(RecordFault::Field(place))?;
    if event.time < before {
        return Err(RecordFault::Time(place));
    }
    Ok(event.time)
}
