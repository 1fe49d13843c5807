// The client itself, and the questions that change nothing.
ghost use Rattle.std.specs.Prelude.{◌≡◌, true};
ghost use Rattle.oram.specs.Fitting.{suits};
ghost use Rattle.oram.specs.Opening.{unrefused};
ghost use Rattle.oram.specs.Questions.{record_answer};

use crate::record::{Record, Table};
use index::Index;
use shape::refusal::Refusal;
use store::store::Store;
use supply::supply::Supply;

// What the client knows by itself: how it was opened, its turn number, the accesses so far, and a record for each level. L and W stand
// beside a refusal too, since such a client answers for the levels up to its L as well.
#[derive(Clone, Copy)]
pub struct Core {
    pub(crate) refusal: Option<Refusal>,
    pub(crate) levels: u32,
    pub(crate) width: usize,
    pub(crate) number: u32,
    pub(crate) accesses: u32,
    pub(crate) table: Table,
}

pub struct Client<S: Store, I: Index, P: Supply> {
    pub(crate) store: S,
    pub(crate) index: I,
    pub(crate) supply: P,
    pub(crate) core: Core,
    // its parts serve a client that was opened without a refusal
    ghost serves: { unrefused core.refusal ≡ true → suits core.levels core.width (S.state store) (I.lists index) (P.choice supply) ≡ true },
}

impl<S: Store, I: Index, P: Supply> Client<S, I, P> {
    // The number that a turn must have to be accepted.
    pub fn number(&self) -> u32
        ensures { result ≡ self.now.core.number }
    {
        self.core.number
    }

    // The accesses accepted so far.
    pub fn accesses(&self) -> u32
        ensures { result ≡ self.now.core.accesses }
    {
        self.core.accesses
    }

    // The record of a level; absent above the highest level.
    pub fn record(&self, level: u32) -> Option<Record>
        ensures { result ≡ record_answer self.now.core level }
    {
        if level > self.core.levels {
            return None;
        }
        self.core.table.records.get(level as usize).copied()
    }

    pub fn store(&self) -> &S
        ensures { result.now ≡ self.now.store }
    {
        &self.store
    }

    pub fn index(&self) -> &I
        ensures { result.now ≡ self.now.index }
    {
        &self.index
    }

    // Takes the client apart and gives back what it was opened with.
    pub fn into_parts(self) -> (S, I, P)
        ensures { (result.0 ≡ self.store) × (result.1 ≡ self.index) × (result.2 ≡ self.supply) }
    {
        let Client {
            store,
            index,
            supply,
            core: _,
        } = self;
        (store, index, supply)
    }
}
