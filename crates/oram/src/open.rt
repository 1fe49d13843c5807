// Opening a client.
ghost use Rattle.std.specs.Prelude.{◌≡◌, true, false, None, Some, MatchResult, MatchOption};
ghost use Rattle.oram.specs.Fitting.{store_suits, made_for, suits, all_empty};
ghost use Rattle.oram.specs.Opening.{opening_refusal, opened, stands, unrefused};

use crate::client::{Client, Core};
use crate::record::Table;
use crate::turn::Unloaded;
use index::Index;
use shape::dimensions::Dimensions;
use shape::level::Level;
use shape::refusal::Refusal;
use store::store::Store;
use supply::supply::Supply;

// What opening gives: a client and its first turn, always, and the refusal if there was one.
pub struct Opening<S: Store, I: Index, P: Supply> {
    pub client: Client<S, I, P>,
    pub turn: Unloaded,
    pub refusal: Option<Refusal>,
}

fn suits_store<S: Store>(dimensions: Dimensions, store: &S) -> bool
    ensures { result ≡ store_suits dimensions.levels.number dimensions.width (S.state store.now) }
{
    store.width() == dimensions.width && dimensions.levels.places_needed() <= store.places()
}

fn is_made_for<I: Index, P: Supply>(levels: Level, index: &I, supply: &P) -> bool
    ensures { result ≡ made_for levels.number (I.lists index.now) (P.choice supply.now) }
{
    index.levels() == levels.number && supply.levels() == levels.number
}

fn is_empty<I: Index>(index: &I) -> bool
    ensures { result ≡ all_empty (I.lists index.now) }
{
    for level in 0..index.levels() {
        if index.size(level) != Some(0) {
            return false;
        }
    }
    true
}

// Checks what a client is to be opened with.
fn check_parts<S: Store, I: Index, P: Supply>(
    levels: u32,
    width: usize,
    store: &S,
    index: &I,
    supply: &P,
) -> Result<(), Refusal>
    ensures { MatchResult result (λ _. opening_refusal levels width (S.state store.now) (I.lists index.now) (P.choice supply.now) ≡ None) (λ e. opening_refusal levels width (S.state store.now) (I.lists index.now) (P.choice supply.now) ≡ Some e) }
{
    let dimensions = Dimensions::new(levels, width)?;
    if !suits_store(dimensions, store) {
        return Err(Refusal::StoreUnfit);
    }
    if !is_made_for(dimensions.levels, index, supply) || !is_empty(index) {
        return Err(Refusal::IndexOrSupplyUnfit);
    }
    Ok(())
}

impl<S: Store, I: Index, P: Supply> Client<S, I, P> {
    // Always gives a client and an unloaded turn; a client opened with a refusal declines everything.
    pub fn open(levels: u32, width: usize, store: S, index: I, supply: P) -> Opening<S, I, P>
        ensures refusal { result.refusal ≡ opening_refusal levels width (S.state store) (I.lists index) (P.choice supply) }
        ensures core { result.client.core ≡ opened result.refusal levels width }
        ensures parts { (result.client.store ≡ store) × (result.client.index ≡ index) × (result.client.supply ≡ supply) }
        ensures turn { result.turn.number ≡ 0 }
        ensures stands { stands result.client.core (S.state result.client.store) (I.lists result.client.index) (P.choice result.client.supply) ≡ unrefused result.refusal }
    {
        let refusal = check_parts(levels, width, &store, &index, &supply).err();
        let core = Core {
            refusal,
            levels,
            width,
            number: 0,
            accesses: 0,
            table: Table::vacant(),
        };
        Opening {
            client: Client {
                store,
                index,
                supply,
                core,
            },
            turn: Unloaded::first(),
            refusal,
        }
    }

    // Its dimensions, where it was opened without a refusal; its parts serve it then, by its type.
    pub(crate) fn dimensions(&self) -> Result<Dimensions, Refusal>
        ensures { MatchResult result (λ d. (stands self.now.core (S.state self.now.store) (I.lists self.now.index) (P.choice self.now.supply) ≡ true) × (d.levels.number ≡ self.now.core.levels) × (d.width ≡ self.now.core.width)) (λ e. (stands self.now.core (S.state self.now.store) (I.lists self.now.index) (P.choice self.now.supply) ≡ false) × (e ≡ Refusal.NotOpened)) }
    {
        if self.core.refusal.is_some() {
            return Err(Refusal::NotOpened);
        }
        Ok(Dimensions {
            levels: Level {
                number: self.core.levels,
            },
            width: self.core.width,
        })
    }
}
