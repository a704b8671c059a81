// One interrupt of the table.
ghost use Rattle.std.specs.Prelude.{◌≡◌, true, false, not, if◌then◌else◌};
ghost use Rattle.std.specs.Fn.{FnOnceTakesAtMut, FnOnceReturnsAtMut};
ghost use Rattle.guest.specs.Interrupts.{by_kind, pending, waits, at_rest, blank, with_setup, with_enabled, with_line, with_active, with_dropped, raised, taken, deactivated};
ghost use Rattle.guest.specs.Calls.{ended};
ghost use Rattle.plain.specs.Sources.{means};

use interrupt::cpu_interface::EoiMode;
use interrupt::kind::Kind;
use interrupt::priority::Priority;

// Whether it is pending, active or both. A type of its own: the states of a list register are numbers of a layout.
#[derive(Clone, Copy, PartialEq, Eq)]
pub enum State {
    Idle,
    Pending,
    Active,
    Both,
}

#[derive(Clone, Copy)]
pub struct Source {
    pub kind: Kind,
    pub priority: Priority,
    pub enabled: bool,
    pub dropped: bool,
    state: State,
}

impl Source {
    // An edge source of priority 0 with all flags clear.
    pub(crate) fn blank() -> Source
        ensures { means result ≡ blank }
    {
        Source {
            kind: Kind::Edge,
            priority: Priority::HIGHEST,
            enabled: false,
            dropped: false,
            state: State::Idle,
        }
    }

    pub(crate) fn is_active(self) -> bool
        ensures { result ≡ (means self).active }
    {
        matches!(self.state, State::Active | State::Both)
    }

    // Enabled, pending and not active.
    pub(crate) fn waits(self) -> bool
        ensures { result ≡ waits (means self) }
    {
        self.enabled && self.state == State::Pending
    }

    // Not enabled, pending or active.
    pub(crate) fn at_rest(self) -> bool
        ensures { result ≡ at_rest (means self) }
    {
        !self.enabled && self.state == State::Idle
    }

    // Takes the step; what it answers.
    pub(crate) fn change<R, F: FnOnce(&mut Source) -> R>(&mut self, step: F) -> R
        requires { FnOnceTakesAtMut F.FnOnce step self.old }
        ensures { FnOnceReturnsAtMut F.FnOnce step self.old result self.new }
    {
        step(self)
    }

    // Sets kind and priority, if it is at rest.
    pub(crate) fn configure(&mut self, kind: Kind, priority: Priority)
        ensures { means self.new ≡ (if at_rest (means self.old) then with_setup kind priority.level (means self.old) else means self.old) }
    {
        if self.at_rest() {
            self.kind = kind;
            self.priority = priority;
        }
    }

    // Enables it; true if it was disabled.
    pub(crate) fn enable(&mut self) -> bool
        ensures after { means self.new ≡ with_enabled true (means self.old) }
        ensures value { result ≡ not (means self.old).enabled }
    {
        let was = self.enabled;
        self.enabled = true;
        !was
    }

    // Disables it; true if it was enabled.
    pub(crate) fn disable(&mut self) -> bool
        ensures after { means self.new ≡ with_enabled false (means self.old) }
        ensures value { result ≡ (means self.old).enabled }
    {
        let was = self.enabled;
        self.enabled = false;
        was
    }

    // Becomes pending; true if it was not.
    pub(crate) fn raise(&mut self) -> bool
        ensures after { means self.new ≡ raised (means self.old) }
        ensures value { result ≡ not (pending (means self.old)) }
    {
        match self.state {
            State::Idle => {
                self.state = State::Pending;
                true
            }
            State::Active => {
                self.state = State::Both;
                true
            }
            State::Pending | State::Both => false,
        }
    }

    // Clears the line of a level source; true if it was set. An edge source has none.
    pub(crate) fn lower(&mut self) -> bool
        ensures after { means self.new ≡ by_kind (means self.old).kind (means self.old) (with_line false (means self.old)) }
        ensures value { result ≡ by_kind (means self.old).kind false (means self.old).line }
    {
        match (self.kind, self.state) {
            (Kind::Level, State::Pending) => {
                self.state = State::Idle;
                true
            }
            (Kind::Level, State::Both) => {
                self.state = State::Active;
                true
            }
            _ => false,
        }
    }

    // Becomes active; an edge source's latch is cleared, a level source's line stays.
    pub(crate) fn acknowledge(&mut self)
        ensures { means self.new ≡ taken (means self.old) }
    {
        self.state = match (self.state, self.kind) {
            (State::Idle | State::Active, _) => State::Active,
            (State::Pending | State::Both, Kind::Edge) => State::Active,
            (State::Pending | State::Both, Kind::Level) => State::Both,
        };
    }

    // Joined, it is no longer active; split, it is dropped.
    pub(crate) fn end(&mut self, mode: EoiMode)
        ensures { means self.new ≡ ended mode (means self.old) }
    {
        match mode {
            EoiMode::Joined => self.leave_active(),
            EoiMode::Split => self.dropped = true,
        }
    }

    // No longer active or dropped.
    pub(crate) fn deactivate(&mut self)
        ensures { means self.new ≡ deactivated (means self.old) }
    {
        self.dropped = false;
        self.leave_active();
    }

    fn leave_active(&mut self)
        ensures { means self.new ≡ with_active false (means self.old) }
    {
        match self.state {
            State::Active => self.state = State::Idle,
            State::Both => self.state = State::Pending,
            State::Idle | State::Pending => {}
        }
    }
}
