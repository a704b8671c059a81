// The state of a list register.
ghost use Rattle.std.specs.Prelude.{◌≡◌, ◌<◌, ◌≤◌, MatchResult};
ghost use Rattle.refusal.specs.declared.Refusal.TheVariants.{BadLayout};
ghost use Rattle.list_register.specs.Entries.{state_number, is_valid, is_pending, is_active, inactive, state_of};

use refusal::Refusal;

#[derive(Clone, Copy, PartialEq, Eq)]
pub enum State {
    Empty = 0,
    Pending = 1,
    Active = 2,
    // active, and pending again
    Both = 3,
}

// The state of a number, which is at most 3.
impl TryFrom<u32> for State {
    type Error = Refusal;

    ghost try_from_gives = { λ number r. MatchResult r (λ s. (number < 4) × (s ≡ state_of number)) (λ e. (4 ≤ number) × (e ≡ BadLayout)) };

    fn try_from(number: u32) -> Result<State, Refusal> {
        match number {
            0 => Ok(State::Empty),
            1 => Ok(State::Pending),
            2 => Ok(State::Active),
            3 => Ok(State::Both),
            _ => Err(Refusal::BadLayout),
        }
    }
}

// The number of a state.
impl From<State> for u32 {
    ghost from_gives = { λ s number. (number ≡ state_number s) × (number < 4) };

    fn from(state: State) -> u32 {
        state as u32
    }
}

impl State {
    // Not empty.
    pub fn is_valid(self) -> bool
        ensures { result ≡ is_valid self }
    {
        self != State::Empty
    }

    // Pending and not active.
    pub fn is_pending(self) -> bool
        ensures { result ≡ is_pending self }
    {
        self == State::Pending
    }

    pub fn is_active(self) -> bool
        ensures { result ≡ is_active self }
    {
        matches!(self, State::Active | State::Both)
    }

    // What is left once it is no longer active.
    pub fn inactive(self) -> State
        ensures { result ≡ inactive self }
    {
        match self {
            State::Empty | State::Active => State::Empty,
            State::Pending | State::Both => State::Pending,
        }
    }
}
