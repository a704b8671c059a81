// The stray count: how often a deactivation found no register, up to 31.
ghost use Rattle.std.specs.Prelude.{◌≡◌, ◌<◌, ◌≤◌, MatchOption};
ghost use Rattle.list_register.specs.Calls.{risen};

// the count stops here
const MOST: u8 = 31;

#[derive(Clone, Copy, PartialEq, Eq)]
pub struct StrayCount {
    count: u8,
    ghost few: { count < 32 },
}

impl StrayCount {
    pub const ZERO: StrayCount = StrayCount { count: 0 };

    // The count of this number, or none above 31, as a Priority is made; a type of its own, so that one is not taken for the other.
    pub fn new(number: u32) -> Option<StrayCount>
        ensures { MatchOption result (32 ≤ number) (λ c. (number < 32) × (c.count ≡ number)) }
    {
        if number > u32::from(MOST) {
            return None;
        }
        Some(StrayCount {
            count: number as u8,
        })
    }

    pub fn number(self) -> u8
        ensures value { result ≡ self.count }
        ensures within { result < 32 }
    {
        self.count
    }

    // One more, up to 31.
    pub fn risen(self) -> StrayCount
        ensures { result.count ≡ risen self.count }
    {
        StrayCount {
            count: MOST.min(self.count + 1),
        }
    }
}
