// Inner: eight rounds on the two halves of a number, forth and back.
ghost use Rattle.std.specs.Prelude.{◌≡◌, ◌+◌, ◌*◌, ◌/◌, ◌%◌, ◌^◌, ◌<◌, ◌≤◌};

use chacha20::block;
use chacha20::key::Key;
use shape::level::Level;
use shape::refusal::Refusal;
use supply::supply::MOST_BUILDS;
use supply::within;

// The permutation that a key gives for a build, which goes to a level.
#[derive(Clone, Copy)]
pub struct Permutation<'a> {
    pub key: &'a Key,
    pub build: u32,
    pub level: Level,
}

impl<'a> Permutation<'a> {
    ghost use Rattle.std.specs.Prelude.{true, false, MatchResult};
    ghost use Rattle.shape.specs.Numbers.{level_slots, level_of_build};
    ghost use Rattle.supply.specs.Choice.{asked_within};
    ghost use Rattle.keyed_supply.specs.Rounds.{left_changed, right_changed, from_even, from_odd, back_even, back_odd, forth, back};
    ghost use Rattle.keyed_supply.specs.Keyed.{drawn, left_width, right_width, network_of};

    // That of a build that has a slot of this number.
    pub fn asked(
        key: &'a Key,
        levels: Level,
        build: u32,
        number: u32,
    ) -> Result<Permutation<'a>, Refusal>
        ensures { MatchResult result (λ p. (asked_within levels.number 1000000 build number ≡ true) × (p.key.now ≡ key.now) × (p.build ≡ build) × (p.level.number ≡ level_of_build levels.number build) × (number < level_slots p.level.number)) (λ e. (asked_within levels.number 1000000 build number ≡ false) × (e ≡ Refusal.BeyondSupply)) }
    {
        let level = within::level_of(levels, MOST_BUILDS, build, number)?;
        Ok(Permutation { key, build, level })
    }

    fn left_bits(&self) -> u32
        ensures { result ≡ left_width self.now.level.number }
    {
        (self.level.number + 2) / 2
    }

    fn right_bits(&self) -> u32
        ensures { result ≡ right_width self.now.level.number }
    {
        (self.level.number + 1) / 2
    }

    // F of a half, cut to the low bits.
    #[tactic(auto, unfolding(crate::specs::Keyed::drawn))]
    fn draw(&self, words: &mut [u32; 16], round: u32, half: u32, bits: u32) -> u32
        requires { bits ≤ 7 }
        ensures { result ≡ drawn self.now.key.now.words self.now.build self.now.level.number round half % 2 ^ bits }
    {
        block::fill(
            words,
            self.key,
            half,
            [self.build, self.level.number, round],
        );
        words[0] % (1 << bits)
    }

    // The left half after an even round. The rules name even and odd rounds apart.
    fn change_left(&self, words: &mut [u32; 16], round: u32, left: u32, right: u32) -> u32
        ensures { result ≡ left_changed (network_of self.now) round left right }
    {
        left ^ self.draw(words, round, right, self.left_bits())
    }

    // The right half after an odd round.
    fn change_right(&self, words: &mut [u32; 16], round: u32, left: u32, right: u32) -> u32
        ensures { result ≡ right_changed (network_of self.now) round left right }
    {
        right ^ self.draw(words, round, left, self.right_bits())
    }

    // The rules name this form, forth and back: two functions on halves as plain numbers call each other with the rounds left falling.

    // The rest of the rounds from an even one on.
    #[cycle(even_odd)]
    #[tactic(auto, using(crate::proofs::Steps::steps))]
    fn even(&self, words: &mut [u32; 16], rounds: u32, left: u32, right: u32) -> (u32, u32)
        requires { rounds ≤ 8 }
        ensures { result ≡ from_even (network_of self.now) rounds left right }
    {
        if rounds == 0 {
            return (left, right);
        }
        let left = self.change_left(words, 8 - rounds, left, right);
        self.odd(words, rounds - 1, left, right)
    }

    // The rest of the rounds from an odd one on.
    #[cycle(even_odd)]
    #[tactic(auto, using(crate::proofs::Steps::steps))]
    fn odd(&self, words: &mut [u32; 16], rounds: u32, left: u32, right: u32) -> (u32, u32)
        requires { rounds ≤ 8 }
        ensures { result ≡ from_odd (network_of self.now) rounds left right }
    {
        if rounds == 0 {
            return (left, right);
        }
        let right = self.change_right(words, 8 - rounds, left, right);
        self.even(words, rounds - 1, left, right)
    }

    // The rounds back, from an odd one down.
    #[cycle(even_back_odd_back)]
    #[tactic(auto, using(crate::proofs::Steps::steps))]
    fn odd_back(&self, words: &mut [u32; 16], rounds: u32, left: u32, right: u32) -> (u32, u32)
        requires { rounds ≤ 8 }
        ensures { result ≡ back_odd (network_of self.now) rounds left right }
    {
        if rounds == 0 {
            return (left, right);
        }
        let right = self.change_right(words, rounds - 1, left, right);
        self.even_back(words, rounds - 1, left, right)
    }

    // The rounds back, from an even one down.
    #[cycle(even_back_odd_back)]
    #[tactic(auto, using(crate::proofs::Steps::steps))]
    fn even_back(&self, words: &mut [u32; 16], rounds: u32, left: u32, right: u32) -> (u32, u32)
        requires { rounds ≤ 8 }
        ensures { result ≡ back_even (network_of self.now) rounds left right }
    {
        if rounds == 0 {
            return (left, right);
        }
        let left = self.change_left(words, rounds - 1, left, right);
        self.odd_back(words, rounds - 1, left, right)
    }

    // The halves of a number that the level has a slot for.
    fn split(&self, number: u32) -> (u32, u32)
        ensures { result ≡ (number / 2 ^ right_width self.now.level.number, number % 2 ^ right_width self.now.level.number) }
    {
        let bits = self.right_bits();
        (number >> bits, number % (1 << bits))
    }

    // The number of two halves.
    fn join(&self, left: u32, right: u32) -> u32
        requires { left * 2 ^ right_width self.now.level.number + right < level_slots self.now.level.number }
        ensures { result ≡ left * 2 ^ right_width self.now.level.number + right }
    {
        (left << self.right_bits()) + right
    }

    // The slot of an index.
    pub fn forth(&self, words: &mut [u32; 16], index: u32) -> u32
        requires { index < level_slots self.now.level.number }
        ensures { result ≡ forth (network_of self.now) index }
    {
        let (left, right) = self.split(index);
        let (left, right) = self.even(words, 8, left, right);
        self.join(left, right)
    }

    // The index of a slot.
    pub fn back(&self, words: &mut [u32; 16], slot: u32) -> u32
        requires { slot < level_slots self.now.level.number }
        ensures { result ≡ back (network_of self.now) slot }
    {
        let (left, right) = self.split(slot);
        let (left, right) = self.odd_back(words, 8, left, right);
        self.join(left, right)
    }
}
