// The lines of a report, each written at the front of what is left of the area.
ghost use Rattle.std.specs.Prelude.{◌≤◌, length};
ghost use Rattle.guest.specs.Replies.{as_reply};
ghost use Rattle.report.specs.Lines.{Puts, done_line, line_of};

use crate::text::{put_number, put_numbers, put_text};
use guest::call::Answer;
use refusal::Refusal;

// The longest line: ten digits of time, ` ack `, four of a number, and the line's end.
pub(crate) const LONGEST: usize = 20;

// The line of an event, if it has one: `time ack number` or `time ack none` of each granted acknowledge, `time no refusal` of each declined event.
#[tactic(auto, using(crate::proofs::Lengths::none_short))]
pub(crate) fn put_line(area: &mut [u8], time: u32, said: Result<Answer, Refusal>) -> usize
    requires { 20 ≤ length area.old }
    ensures line { Puts (line_of time (as_reply said)) area.old area.new result }
    ensures bound { result ≤ 20 }
{
    match said {
        Ok(Answer::Acknowledged(Some(id))) => put_numbers(
            area,
            time,
            b" ack ",
            u32::from(id.number()),
        ),
        Ok(Answer::Acknowledged(None)) => put_number(area, time, b" ack none\n"),
        Ok(Answer::Done | Answer::Changed(_)) => 0,
        Err(refusal) => put_numbers(area, time, b" no ", u32::from(u8::from(refusal))),
    }
}

// `done`, the acknowledgements that named a number, and the declined events.
#[tactic(auto, using(crate::proofs::Lengths::counts_short))]
pub(crate) fn put_done(area: &mut [u8], acknowledged: u16, declined: u16) -> usize
    requires { 20 ≤ length area.old }
    ensures line { Puts (done_line acknowledged declined) area.old area.new result }
    ensures bound { result ≤ 20 }
{
    let a = put_text(area, b"done ");
    a + put_numbers(
        &mut area[a..],
        u32::from(acknowledged),
        b" ",
        u32::from(declined),
    )
}
