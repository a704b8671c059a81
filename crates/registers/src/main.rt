// Drives a register device by hand: a command a line on standard input, and for each a line that answers it.
#![tactic(auto)]

use console::line::without_end;
use register_commands::respond::respond;
use register_device::device::RegisterDevice;
use std::io::{self, BufRead, BufReader, Write};
use std::process::ExitCode;

// How many list registers the device has before the first `new`.
const REGISTERS: u32 = 4;

fn serve(rt: &HostRuntime, mut device: RegisterDevice) -> io::Result<()> {
    let mut input = BufReader::new(rt.alloc(), rt.stdin())?;
    let mut line = Vec::new(rt.alloc());
    // an input that does not end is given up after so many lines
    for _ in 0..u64::MAX {
        line.clear();
        if input.read_until(b'\n', &mut line)? == 0 {
            break;
        }
        let answer = respond(rt.alloc(), &mut device, without_end(line.as_slice()))?;
        rt.stdout().write_all(answer.as_slice())?;
    }
    Ok(())
}

fn main(rt: HostRuntime) -> ExitCode {
    let device = RegisterDevice::new(REGISTERS).unwrap();
    match serve(&rt, device) {
        Ok(()) => ExitCode::SUCCESS,
        Err(error) => {
            let _ = eprintln!(rt; "registers: {error}");
            ExitCode::FAILURE
        }
    }
}
