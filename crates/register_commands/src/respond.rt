// Carrying out a command, and the line that answers it.
ghost use Rattle.std.specs.Prelude.{◌≡◌, IfOk};
ghost use Rattle.interrupt.specs.Meaning.{id_of};
ghost use Rattle.register_device.specs.Meaning.{register_device};
ghost use Rattle.register_commands.specs.Responses.{Performs, Responds};

use crate::command::{Command, read_command};
use console::answer::{Answer, answer_text, unreadable_text};
use device::interface::Device;
use interrupt::id::InterruptId;
use refusal::Refusal;
use register_device::device::RegisterDevice;
use std::alloc::{AllocError, Global};

// The line that answers a line of input.
pub fn respond(
    heap: Global,
    device: &mut RegisterDevice,
    line: &[u8],
) -> Result<Vec<u8>, AllocError>
    ensures { IfOk result (λ v. Responds line.now (register_device device.old) (register_device device.new) v.items) }
{
    match read_command(line) {
        Some(command) => answer_text(heap, perform(device, command)),
        None => unreadable_text(heap, line),
    }
}

// Carries out a command.
pub fn perform(device: &mut RegisterDevice, command: Command) -> Result<Answer, Refusal>
    ensures { Performs command (register_device device.old) (register_device device.new) result }
{
    match command {
        Command::New(count) => {
            *device = RegisterDevice::new(count)?;
            Ok(Answer::Done)
        }
        Command::Read(offset) => Ok(Answer::Word(device.read_word(offset)?)),
        Command::Write(offset, word) => {
            device.write_word(offset, word)?;
            Ok(Answer::Done)
        }
        Command::Acknowledge => Ok(Answer::Taken(device.acknowledge().map(number_of))),
        Command::End(word) => {
            device.end(word);
            Ok(Answer::Done)
        }
        Command::Deactivate(word) => {
            device.deactivate(word);
            Ok(Answer::Done)
        }
        Command::Line => Ok(Answer::Line(device.line())),
    }
}

fn number_of(id: InterruptId) -> u32
    ensures { result ≡ id_of id }
{
    u32::from(id.number())
}
