// The keyed supply: a permutation for each build, from a key of 32 bytes.
ghost use Rattle.std.specs.Prelude.{◌≡◌, ◌≤◌, true, false, replicate, MatchResult};
ghost use Rattle.shape.specs.Numbers.{levels_fit};
ghost use Rattle.supply.specs.Choice.{slot_answer, index_answer};
ghost use Rattle.chacha20.specs.ChaCha20.{key_words};
ghost use Rattle.keyed_supply.specs.Keyed.{keyed};
ghost use Rattle.keyed_supply.specs.Lawfulness.{keyed_lawful};

use crate::rounds::Permutation;
use chacha20::guard::Wiped;
use chacha20::key::Key;
use shape::level::Level;
use shape::refusal::Refusal;
use supply::supply::{MOST_BUILDS, Supply};

#[derive(Drop)]
pub struct KeyedSupply {
    levels: Level,
    desk: Desk,
    ghost low: { 1 ≤ levels.number },
    // between questions the working words are zero
    ghost wiped: { desk.words ≡ replicate 16 0 },
}

// What a question is answered with. A struct of its own: its words may be other than zero while a question lasts.
#[derive(Drop)]
struct Desk {
    key: Key,
    words: [u32; 16],
}

impl KeyedSupply {
    pub fn new(levels: u32, key: &[u8; 32]) -> Result<KeyedSupply, Refusal>
        ensures { MatchResult result (λ s. (levels_fit levels ≡ true) × (s.levels.number ≡ levels) × (s.desk.key.words ≡ key_words key.now)) (λ e. (levels_fit levels ≡ false) × (e ≡ Refusal.OutOfRange)) }
    {
        Ok(KeyedSupply {
            levels: Level::highest(levels)?,
            desk: Desk {
                key: Key::new(key),
                words: [0; 16],
            },
        })
    }
}

impl Supply for KeyedSupply {
    ghost choice = { λ s. keyed s.levels.number s.desk.key.words };

    ghost lawful = { λ s. keyed_lawful s.levels.number s.desk.key.words s.low s.levels.high };

    fn levels(&self) -> u32 {
        self.levels.number
    }

    fn builds(&self) -> u32 {
        MOST_BUILDS
    }

    fn slot_of(&mut self, build: u32, index: u32) -> Result<u32, Refusal>
        ensures answer { result ≡ slot_answer (keyed self.old.levels.number self.old.desk.key.words) build index }
        ensures same { keyed self.new.levels.number self.new.desk.key.words ≡ keyed self.old.levels.number self.old.desk.key.words }
        ensures wiped { self.new.desk.words ≡ replicate 16 0 }
    {
        let desk = &mut self.desk;
        let guard = Wiped(&mut desk.words);
        let permutation = Permutation::asked(&desk.key, self.levels, build, index)?;
        Ok(permutation.forth(guard.0, index))
    }

    fn index_of(&mut self, build: u32, slot: u32) -> Result<u32, Refusal>
        ensures answer { result ≡ index_answer (keyed self.old.levels.number self.old.desk.key.words) build slot }
        ensures same { keyed self.new.levels.number self.new.desk.key.words ≡ keyed self.old.levels.number self.old.desk.key.words }
        ensures wiped { self.new.desk.words ≡ replicate 16 0 }
    {
        let desk = &mut self.desk;
        let guard = Wiped(&mut desk.words);
        let permutation = Permutation::asked(&desk.key, self.levels, build, slot)?;
        Ok(permutation.back(guard.0, slot))
    }
}
