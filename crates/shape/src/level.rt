// A level: the numbers of its slots and places, and, as the highest, those of the whole layout.
ghost use Rattle.std.specs.Prelude.{◌≤◌};

use crate::refusal::Refusal;

#[derive(Clone, Copy, PartialEq, Eq, Debug)]
pub struct Level {
    pub number: u32,
    ghost high: { number ≤ 12 },
}

impl Level {
    ghost use Rattle.std.specs.Prelude.{◌≡◌, true, false, MatchResult};
    ghost use Rattle.shape.specs.Numbers.{levels_fit, blocks, level_slots, level_start, scratch_slots, scratch_start, places_needed, level_of_build};

    // L, the highest level that a client can have. Who holds one says itself that it is at least 1: a type for that would put one more field
    // between every L and its number.
    pub fn highest(number: u32) -> Result<Level, Refusal>
        ensures { MatchResult result (λ l. (levels_fit number ≡ true) × (1 ≤ l.number) × (l.number ≡ number)) (λ e. (levels_fit number ≡ false) × (e ≡ Refusal.OutOfRange)) }
    {
        if !(1..=12).contains(&number) {
            return Err(Refusal::OutOfRange);
        }
        Ok(Level { number })
    }

    pub fn slots(self) -> u32
        ensures { result ≡ level_slots self.number }
    {
        1 << (self.number + 1)
    }

    pub fn start(self) -> u32
        ensures { result ≡ level_start self.number }
    {
        self.slots() - 2
    }

    pub fn blocks(self) -> u32
        ensures { result ≡ blocks self.number }
    {
        1 << self.number
    }

    pub fn scratch_slots(self) -> u32
        ensures { result ≡ scratch_slots self.number }
    {
        2 * self.blocks()
    }

    pub fn scratch_start(self) -> u32
        ensures { result ≡ scratch_start self.number }
    {
        (1 << (self.number + 2)) - 2
    }

    pub fn places_needed(self) -> u32
        ensures { result ≡ places_needed self.number }
    {
        6 * self.blocks() - 2
    }

    // The level of a build, where this one is the highest.
    pub fn of_build(self, build: u32) -> Level
        ensures value { result.number ≡ level_of_build self.number build }
        ensures bound { result.number ≤ self.number }
    {
        Level {
            number: self.number.min(build.trailing_zeros()),
        }
    }
}
