// A call that is given as a value.
ghost use Rattle.std.specs.Prelude.{◌≡◌};
ghost use Rattle.guest.specs.Calls.{Does};
ghost use Rattle.guest.specs.Replies.{as_reply};

use crate::call::{Answer, Call};
use crate::interface::Guest;
use refusal::Refusal;

// Makes the call on the guest.
pub fn perform<G: Guest>(guest: &mut G, call: Call) -> Result<Answer, Refusal>
    ensures { Does call (G.Guest.book guest.old) (G.Guest.book guest.new) (as_reply result) }
{
    match call {
        Call::Configure(number, kind, priority) => {
            guest
                .configure(number, kind, priority)
                .map(|()| Answer::Done)
        }
        Call::Enable(number) => guest.enable(number).map(Answer::Changed),
        Call::Disable(number) => guest.disable(number).map(Answer::Changed),
        Call::Raise(number) => guest.raise(number).map(Answer::Changed),
        Call::Lower(number) => guest.lower(number).map(Answer::Changed),
        Call::Mask(level) => guest.mask(level).map(|()| Answer::Done),
        Call::Open(value) => guest.open(value).map(|()| Answer::Done),
        Call::Mode(value) => guest.mode(value).map(|()| Answer::Done),
        Call::Acknowledge => guest.acknowledge().map(Answer::Acknowledged),
        Call::End(word) => guest.end(word).map(|()| Answer::Done),
        Call::Deactivate(word) => guest.deactivate(word).map(|()| Answer::Done),
        Call::Park => guest.park().map(|()| Answer::Done),
        Call::Resume => guest.resume().map(|()| Answer::Done),
    }
}
