// The calls of a guest, and their answers, as values.
ghost use Rattle.std.specs.Prelude.{◌≡◌};
ghost use Rattle.guest.specs.Replies.{reply_number, reply_of};

use interrupt::cpu_interface::EoiMode;
use interrupt::id::InterruptId;
use interrupt::kind::Kind;

#[derive(Clone, Copy)]
pub enum Call {
    // an interrupt's number, its kind and its priority
    Configure(u32, Kind, u32),
    Enable(u32),
    Disable(u32),
    Raise(u32),
    Lower(u32),
    Mask(u32),
    Open(bool),
    Mode(EoiMode),
    Acknowledge,
    End(u32),
    Deactivate(u32),
    Park,
    Resume,
}

// What a granted call answers.
#[derive(Clone, Copy)]
pub enum Answer {
    // the call names no answer
    Done,
    // whether the call changed the flag that it sets
    Changed(bool),
    // which interrupt an acknowledge took, if any
    Acknowledged(Option<InterruptId>),
}

// The number that stands for no interrupt.
const NO_INTERRUPT: u16 = 1023;

// The number of an answer: 0 where none is named, 1 or 0 for changed or not, the interrupt's number, or 1023 for none.
impl From<Answer> for u16 {
    ghost from_gives = { λ answer number. number ≡ reply_number (reply_of answer) };

    fn from(answer: Answer) -> u16 {
        match answer {
            Answer::Done => 0,
            Answer::Changed(changed) => u16::from(changed),
            Answer::Acknowledged(taken) => taken.map_or(NO_INTERRUPT, InterruptId::number),
        }
    }
}
