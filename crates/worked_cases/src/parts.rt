// Parts of a trace: a caller may change the sections of one that is open.
use guest::interface::Guest;
use plain::plain_guest::PlainGuest;
use report::report::{report, room};
use std::alloc::{AllocError, Global};
use std::test::Fail;
use trace::reader::Trace;

// The worked sample: mask 31, open, enable 40, raise 40 at 5, acknowledge at 6, deactivate 40 at 7. Its events begin at byte 14.
const SAMPLE: &[u8] =
    b"\x01\x01E\x00\x06\x00\x0e\x00\x00\x00\x30\x00\x00\x00\x00\x00\x00\x00M\x1f\x00\x00\x00\x00\x00\x00I\x01\x00\x00\x00\x00\x00\x00N\x00(\x00\x05\x00\x00\x00R\x00(\x00\x06\x00\x00\x00A\x00\x00\x00\x07\x00\x00\x00D\x00(\x00";

fn sample() -> Result<Trace<'static>, Fail> {
    Trace::open(SAMPLE).map_err(|_| Fail::new("the sample does not open"))
}

// Whether this is the report of the trace on a new guest.
fn reports(heap: Global, trace: Trace, expected: &[u8]) -> Result<bool, AllocError> {
    let mut area = vec![in heap; 0u8; room(&trace)]?;
    let mut guest = PlainGuest::new();
    let Ok(used) = report(&mut guest, &trace, area.as_mut_slice()) else {
        return Ok(false);
    };
    area.truncate(used);
    Ok(area.as_slice() == expected)
}

#[test]
fn first_events_alone(rt: HostRuntime) -> Result<(), Fail> {
    let mut part = sample()?;
    part.events.count = 5;
    assert!(rt; reports(rt.alloc(), part, b"6 ack 40\ndone 1 0\n")?);
    Ok(())
}

// The eight bytes before the events are no event.
#[test]
fn passes_over_what_is_no_event(rt: HostRuntime) -> Result<(), Fail> {
    let mut part = sample()?;
    part.events.start = 6;
    part.events.count = 7;
    assert!(rt; reports(rt.alloc(), part, b"6 ack 40\n7 no 9\ndone 1 1\n")?);
    Ok(())
}

#[test]
fn passes_over_what_is_not_there(rt: HostRuntime) -> Result<(), Fail> {
    let mut part = sample()?;
    part.events.count = 900;
    assert!(rt; reports(rt.alloc(), part, b"6 ack 40\n7 no 9\ndone 1 1\n")?);
    Ok(())
}
