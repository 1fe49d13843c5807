// The interface of every supply of permutations.
ghost use Rattle.std.specs.Prelude.{◌≡◌};
ghost use Rattle.supply.specs.Choice.{Choice, Lawful, slot_answer, index_answer};

use shape::refusal::Refusal;

// The most builds that a supply can have.
pub const MOST_BUILDS: u32 = 1_000_000;

pub trait Supply {
    ghost choice: { Self → Choice };

    // L, the highest level that it was made for.
    fn levels(&self) -> u32
        ensures { result ≡ (choice self.now).levels };

    // K, the number of builds.
    fn builds(&self) -> u32
        ensures { result ≡ (choice self.now).builds };

    fn slot_of(&mut self, build: u32, index: u32) -> Result<u32, Refusal>
        ensures answer { result ≡ slot_answer (choice self.old) build index }
        ensures same { choice self.new ≡ choice self.old };

    fn index_of(&mut self, build: u32, slot: u32) -> Result<u32, Refusal>
        ensures answer { result ≡ index_answer (choice self.old) build slot }
        ensures same { choice self.new ≡ choice self.old };

    ghost lawful: { (s : Self) → Lawful (choice s) };
}
