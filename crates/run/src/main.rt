// Reads a trace from standard input, and writes its report on a new guest, or the line of its fault.
#![tactic(auto)]

use playback::output::output;
use std::io;
use std::io::{Read, Write};
use std::process::ExitCode;

// One byte more than the longest trace has, so that a longer input is noticed.
const MOST: u64 = 32187;

fn run(rt: &HostRuntime) -> io::Result<()> {
    let mut file = Vec::new(rt.alloc());
    rt.stdin().take(MOST).read_to_end(&mut file)?;
    let text = output(rt.alloc(), file.as_slice())?;
    rt.stdout().write_all(text.as_slice())
}

fn main(rt: HostRuntime) -> ExitCode {
    match run(&rt) {
        Ok(()) => ExitCode::SUCCESS,
        Err(error) => {
            let _ = eprintln!(rt; "run: {error}");
            ExitCode::FAILURE
        }
    }
}
