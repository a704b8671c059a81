// The lines that answer commands.
ghost use Rattle.std.specs.Prelude.{◌≡◌, IfOk, Some};
ghost use Rattle.console.specs.Answers.{Says, answer_shown, unreadable_line};

use std::alloc::{AllocError, Global};
use std::fmt;

// What a command that was carried out answers.
#[derive(Clone, Copy, PartialEq, Eq)]
pub enum Answer {
    Done,
    // the value of a register
    Word(u32),
    // the number of the interrupt that was taken, if there was one to take
    Taken(Option<u32>),
    // whether the interrupt line is up
    Line(bool),
}

impl fmt::Display for Answer {
    ghost output = { λ answer. Some (answer_shown answer) };

    #[tactic(auto, using(crate::proofs::Hex::word_digits))]
    fn fmt<W: fmt::Write>(&self, f: &mut fmt::Formatter<W>) -> fmt::Result {
        match *self {
            Answer::Done => f.write_str("ok"),
            Answer::Word(word) => write!(f, "0x{word:08X}"),
            Answer::Taken(Some(number)) => write!(f, "{number}"),
            Answer::Taken(None) => f.write_str("none"),
            Answer::Line(true) => f.write_str("up"),
            Answer::Line(false) => f.write_str("down"),
        }
    }
}

// The line that answers a command, by its answer or by the number of the refusal, given as that number or as what has one.
pub fn answer_text<R: Into<u8>>(
    heap: Global,
    said: Result<Answer, R>,
) -> Result<Vec<u8>, AllocError>
    ensures { IfOk result (λ v. Says R.Into.converts said v.items) }
{
    let line = match said {
        Ok(answer) => format!(in heap; "{answer}\n")?,
        Err(refusal) => {
            let number: u8 = refusal.into();
            format!(in heap; "no {number}\n")?
        }
    };
    Ok(line.into_bytes())
}

// The answer to a line that is no command: the line as it was, bytes that need not be text.
pub fn unreadable_text(heap: Global, line: &[u8]) -> Result<Vec<u8>, AllocError>
    ensures { IfOk result (λ v. v.items ≡ unreadable_line line.now) }
{
    let mut text = Vec::new(heap);
    text.extend_from_slice(b"? ")?;
    text.extend_from_slice(line)?;
    text.push(b'\n')?;
    Ok(text)
}
