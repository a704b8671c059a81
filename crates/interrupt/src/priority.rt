// A priority, 0 to 31: the lower is the more urgent. The standard's priority byte is 8 times it.
ghost use Rattle.std.specs.Prelude.{◌≡◌, ◌<◌, ◌≤◌, MatchOption};

// how many priorities there are
pub const LEVELS: u8 = 32;

#[derive(Clone, Copy, PartialEq, Eq)]
pub struct Priority {
    level: u8,
    ghost known: { level < 32 },
}

impl Priority {
    // the most urgent of all
    pub const HIGHEST: Priority = Priority { level: 0 };

    // The priority of this level, or none above 31. Each caller has a refusal of its own for none, so this is no TryFrom.
    pub fn new(level: u32) -> Option<Priority>
        ensures { MatchOption result (32 ≤ level) (λ p. (level < 32) × (p.level ≡ level)) }
    {
        if level >= u32::from(LEVELS) {
            return None;
        }
        Some(Priority { level: level as u8 })
    }

    pub fn level(self) -> u8
        ensures value { result ≡ self.level }
        ensures within { result < 32 }
    {
        self.level
    }
}
