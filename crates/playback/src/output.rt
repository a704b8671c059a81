// The output for a file.
ghost use Rattle.std.specs.Prelude.{◌≡◌, IfOk, None, MatchResult};
ghost use Rattle.playback.specs.Output.{fault_in, report_in, output_of, Explains, Tells};

use crate::failure::Failure;
use guest::interface::Guest;
use plain::plain_guest::PlainGuest;
use report::report::{report, room};
use std::alloc::{AllocError, Global};
use trace::reader::Trace;

// The report of the file on a new guest, or the line `fault layer cause place`.
pub fn output(heap: Global, file: &[u8]) -> Result<Vec<u8>, AllocError>
    ensures { IfOk result (λ v. v.items ≡ output_of file.now) }
{
    play(heap, file).or_else(|failure| failure_text(heap, failure))
}

// The line of a fault. Want of memory has none.
fn failure_text(heap: Global, failure: Failure) -> Result<Vec<u8>, AllocError>
    ensures { IfOk result (λ v. Tells failure v.items) }
{
    match failure {
        Failure::Faulty(fault) => Ok(format!(in heap; "{fault}\n")?.into_bytes()),
        Failure::Memory => Err(AllocError),
    }
}

// Opens the file and reports it on a new guest.
fn play(heap: Global, file: &[u8]) -> Result<Vec<u8>, Failure>
    ensures { MatchResult result (λ v. (fault_in file.now ≡ None) × (v.items ≡ report_in file.now)) (λ e. Explains file.now e) }
{
    let trace = Trace::open(file)?;
    let mut area = vec![in heap; 0u8; room(&trace)]?;
    let mut guest = PlainGuest::new();
    let used = report(&mut guest, &trace, area.as_mut_slice())?;
    area.truncate(used);
    Ok(area)
}
