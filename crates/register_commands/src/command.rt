// A command, out of the words of a line.
ghost use Rattle.std.specs.Prelude.{◌≡◌};
ghost use Rattle.std.specs.List.{find};
ghost use Rattle.std.specs.Option.{option_map};
ghost use Rattle.std.specs.Str.{bytes_eq};
ghost use Rattle.console.specs.Words.{words};
ghost use Rattle.register_commands.specs.Commands.{name_of, command_of};

use console::number::read_number;
use console::words::{split_line, word_is};

#[derive(Clone, Copy, PartialEq, Eq)]
pub enum Command {
    // a new device with this many registers, in place of the old one
    New(u32),
    // reads the word at an offset
    Read(u32),
    // writes, at an offset, a word
    Write(u32, u32),
    Acknowledge,
    End(u32),
    Deactivate(u32),
    // asks for the line
    Line,
}

// The first word of a command.
#[derive(Clone, Copy, PartialEq, Eq)]
pub enum Name {
    New,
    Read,
    Write,
    Acknowledge,
    End,
    Deactivate,
    Line,
}

// The names, and the words that write them.
const NAMES: [(&str, Name); 7] = [
    ("new", Name::New),
    ("read", Name::Read),
    ("write", Name::Write),
    ("acknowledge", Name::Acknowledge),
    ("end", Name::End),
    ("deactivate", Name::Deactivate),
    ("line", Name::Line),
];

// The command in a line, if it is one.
pub fn read_command(line: &[u8]) -> Option<Command>
    ensures { result ≡ command_of (words line.now) }
{
    let mut words = split_line(line);
    let name = read_name(words.next()?)?;
    match (name, words.next(), words.next(), words.next()) {
        (Name::New, Some(count), None, _) => Some(Command::New(read_number(count)?)),
        (Name::Read, Some(offset), None, _) => Some(Command::Read(read_number(offset)?)),
        (Name::Write, Some(offset), Some(word), None) => {
            Some(Command::Write(read_number(offset)?, read_number(word)?))
        }
        (Name::Acknowledge, None, _, _) => Some(Command::Acknowledge),
        (Name::End, Some(word), None, _) => Some(Command::End(read_number(word)?)),
        (Name::Deactivate, Some(word), None, _) => Some(Command::Deactivate(read_number(word)?)),
        (Name::Line, None, _, _) => Some(Command::Line),
        _ => None,
    }
}

fn read_name(word: &[u8]) -> Option<Name>
    ensures { result ≡ name_of word.now }
{
    look_up(&NAMES, word)
}

// The name that is written by this word.
fn look_up(names: &[(&str, Name)], word: &[u8]) -> Option<Name>
    ensures { result ≡ option_map (λ row. row.1) (find (λ row. bytes_eq word.now row.0.now) names.now) }
{
    names
        .iter()
        .find(|(text, _)| word_is(word, text))
        .map(|(_, name)| *name)
}
