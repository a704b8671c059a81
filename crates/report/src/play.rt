// Setups and events, played one after another on any guest.
ghost use Rattle.std.specs.Prelude.{◌≡◌, ◌*◌, ◌≤◌, length, MatchResult};
ghost use Rattle.std.specs.Result.{result_err};
ghost use Rattle.guest.specs.Calls.{refusal_of};
ghost use Rattle.guest.specs.Replies.{as_reply};
ghost use Rattle.trace.specs.Opening.{events_in};
ghost use Rattle.trace.specs.Walking.{placed_in};
ghost use Rattle.report.specs.Playing.{configuring, set_up, names_number, SetupsPlayed, EventsPlayed};

use crate::line::put_line;
use fault::GuestFault;
use guest::call::Answer;
use guest::interface::Guest;
use guest::perform::perform;
use records::record::Setup;
use refusal::Refusal;
use trace::reader::Trace;

// How many bytes were written, how many acknowledgements named a number, and how many events were declined.
#[derive(Clone, Copy, Debug, PartialEq, Eq)]
pub(crate) struct Tally {
    pub used: usize,
    pub acknowledged: u16,
    pub declined: u16,
}

// Plays all setups, or those before the first that the guest declines.
pub(crate) fn play_setups<G: Guest>(guest: &mut G, trace: &Trace) -> Result<(), GuestFault>
    ensures { SetupsPlayed (G.Guest.book guest.old) (placed_in trace.now.file.now trace.now.setups) (G.Guest.book guest.new) (result_err result) }
{
    for placed in trace.setups() {
        let place = placed.place;
        set_up(guest, placed.value).map_err(|refusal| GuestFault { refusal, place })?;
    }
    Ok(())
}

// Configures an interrupt, and then enables it if the setup says so, which is never declined once the first was granted.
fn set_up<G: Guest>(guest: &mut G, setup: Setup) -> Result<(), Refusal>
    ensures refusal { refusal_of (configuring setup) (G.Guest.book guest.old) ≡ result_err result }
    ensures does { MatchResult result (λ _. G.Guest.book guest.new ≡ set_up setup (G.Guest.book guest.old)) (λ _. G.Guest.book guest.new ≡ G.Guest.book guest.old) }
{
    let number = u32::from(setup.number);
    guest.configure(number, setup.kind, u32::from(setup.priority))?;
    if setup.enabled {
        guest.enable(number)?;
    }
    Ok(())
}

// Plays all events, and writes their lines one after another from the area's front.
pub(crate) fn play_events<G: Guest>(guest: &mut G, trace: &Trace, area: &mut [u8]) -> Tally
    requires { 20 * trace.now.events.count ≤ length area.old }
    ensures played { EventsPlayed (G.Guest.book guest.old) (events_in trace.now.file.now trace.now.events) (G.Guest.book guest.new) area.old area.new result }
    ensures bound { result.used ≤ 20 * trace.now.events.count }
{
    // read here, so that the check knows that the count has 16 bits, as those of the tally have
    let _most = trace.events.count;
    let mut tally = Tally {
        used: 0,
        acknowledged: 0,
        declined: 0,
    };
    for placed in trace.events() {
        let event = placed.value;
        let said = perform(guest, event.call);
        let used = tally.used;
        tally.used += put_line(&mut area[used..], event.time, said);
        tally.acknowledged += u16::from(names_number(said));
        tally.declined += u16::from(said.is_err());
    }
    tally
}

// Whether it is an acknowledgement that named a number.
fn names_number(said: Result<Answer, Refusal>) -> bool
    ensures { result ≡ names_number (as_reply said) }
{
    matches!(said, Ok(Answer::Acknowledged(Some(_))))
}
