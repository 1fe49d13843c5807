// Inner: the count and the trail of the stores of this repository.
ghost use Rattle.std.specs.Prelude.{◌≡◌, ◌+◌, ◌%◌, ◌^◌, length};
ghost use Rattle.store.specs.Requests.{mark, counted, trailed};
ghost use Rattle.store.specs.Rounds.{round};
ghost use Rattle.store.specs.Rule.{multiplied};

use crate::entry::Entry;

#[derive(Drop, PartialEq, Eq, Debug)]
pub struct Meter {
    served: u64,
    trail: u64,
}

impl Meter {
    pub fn new() -> Meter
        ensures served { result.served ≡ 0 }
        ensures trail { result.trail ≡ 0 }
    {
        Meter {
            served: 0,
            trail: 0,
        }
    }

    fn note(&mut self, entry: Entry)
        ensures served { self.new.served ≡ (self.old.served + 1) % 2 ^ 64 }
        ensures trail { self.new.trail ≡ multiplied self.old.trail (mark entry) }
    {
        *self = Meter {
            served: self.served.wrapping_add(1),
            trail: self
                .trail
                .wrapping_mul(16_777_619)
                .wrapping_add(entry.mark()),
        };
    }

    // Runs through one round.
    pub fn run(&mut self, places: &[u32], write: bool)
        ensures served { self.new.served ≡ counted (length places.now) self.old.served }
        ensures trail { self.new.trail ≡ trailed multiplied self.old.trail (round write places.now) }
    {
        let mut begins = true;
        for &place in places {
            self.note(Entry {
                begins,
                write,
                place,
            });
            begins = false;
        }
    }

    pub fn served(&self) -> u64
        ensures { result ≡ self.now.served }
    {
        self.served
    }

    pub fn trail(&self) -> u64
        ensures { result ≡ self.now.trail }
    {
        self.trail
    }
}
