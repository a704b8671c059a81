// The report call.
ghost use Rattle.std.specs.Prelude.{◌≡◌, ◌<◌, ◌≤◌, MatchResult};
ghost use Rattle.fault.specs.declared.ContentsFault.TheVariants.{Area};
ghost use Rattle.trace.specs.Opening.{events_in};
ghost use Rattle.trace.specs.Walking.{placed_in};
ghost use Rattle.report.specs.Reporting.{room_for, Reports};

use crate::line::{LONGEST, put_done};
use crate::play::{play_events, play_setups};
use fault::{ContentsFault, Fault};
use guest::interface::Guest;
use trace::reader::Trace;

// Plays the setups and then the events on the guest, writes the report from the area's front, and answers its length.
// An area under 20 bytes for each event and 20 more is refused before anything runs.
pub fn report<G: Guest>(guest: &mut G, trace: &Trace, area: &mut [u8]) -> Result<usize, Fault>
    ensures { Reports (room_for trace.now.events) (placed_in trace.now.file.now trace.now.setups) (events_in trace.now.file.now trace.now.events) (G.Guest.book guest.old) (G.Guest.book guest.new) area.old area.new result }
{
    check_room(trace, area.len())?;
    play_setups(guest, trace)?;
    let tally = play_events(guest, trace, area);
    let used = tally.used;
    Ok(used + put_done(&mut area[used..], tally.acknowledged, tally.declined))
}

// The bytes of an area that has room for the report, whatever the guest answers.
pub fn room(trace: &Trace) -> usize
    ensures { result ≡ room_for trace.now.events }
{
    LONGEST * (usize::from(trace.events.count) + 1)
}

// Whether an area of this size has room for the report.
fn check_room(trace: &Trace, size: usize) -> Result<(), ContentsFault>
    ensures { MatchResult result (λ _. room_for trace.now.events ≤ size) (λ e. (size < room_for trace.now.events) × (e ≡ Area)) }
{
    if size < room(trace) {
        return Err(ContentsFault::Area);
    }
    Ok(())
}
