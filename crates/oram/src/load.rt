// Loading all blocks onto the store.
ghost use Rattle.std.specs.Prelude.{◌≡◌, ◌+◌, ◌*◌, ◌<◌, ◌≤◌, true, [], ◌∷◌, length, replicate, is_ok, if◌then◌else◌, Ok, Err, slice_set, MatchResult};
ghost use Rattle.std.proofs.lemmas.List.Edits.{sets};
ghost use Rattle.shape.specs.Numbers.{blocks, level_slots};
ghost use Rattle.store.specs.Requests.{ran, entries};
ghost use Rattle.oram.specs.Answers.{answer_of};
ghost use Rattle.oram.specs.Fitting.{store_suits};
ghost use Rattle.oram.specs.Opening.{stands};
ghost use Rattle.oram.specs.Loading.{loaded_slot, load_request, load_requests, load_answer, loaded};

use crate::answer::{Declined, Done};
use crate::client::{Client, Core};
use crate::record::Record;
use crate::round::put_slot;
use crate::turn::{Resting, Unloaded};
use index::Index;
use shape::dimensions::Dimensions;
use shape::level::Level;
use shape::numbers;
use shape::refusal::Refusal;
use store::entry::Entry;
use store::store::Store;
use supply::supply::Supply;

// All blocks of a client, one after another, and the zeros of a dummy.
#[derive(Clone, Copy)]
struct Blocks<'a> {
    dimensions: Dimensions,
    bytes: &'a [u8],
    zeros: &'a [u8; 512],
    ghost whole: { length bytes.now ≡ blocks dimensions.levels.number * dimensions.width },
    ghost blank: { zeros.now ≡ replicate 512 0 },
}

impl<'a> Blocks<'a> {
    // Key and payload of an index of the highest level: its block, or its dummy.
    fn slot(&self, index: u32) -> (u32, &'a [u8])
        requires { index < level_slots self.now.dimensions.levels.number }
        ensures wide { length result.1.now ≡ self.now.dimensions.width }
        ensures slot { record { key = result.0; bytes = result.1.now } ≡ loaded_slot self.now.dimensions.levels.number self.now.dimensions.width self.now.bytes.now index }
    {
        let Blocks {
            dimensions,
            bytes,
            zeros,
        } = *self;
        let width = dimensions.width;
        if index < dimensions.levels.blocks() {
            let from = index as usize * width;
            (index, &bytes[from..from + width])
        } else {
            (numbers::key_of_dummy(index), &zeros[..width])
        }
    }
}

// Writes one slot of the highest level.
fn load_slot<S: Store, P: Supply>(
    store: &mut S,
    supply: &mut P,
    blocks: &Blocks,
    trace: &mut [Entry],
    slot: u32,
)
    requires store { store_suits blocks.now.dimensions.levels.number blocks.now.dimensions.width (S.state store.old) ≡ true }
    requires supply { (P.choice supply.old).levels ≡ blocks.now.dimensions.levels.number }
    requires room { level_slots blocks.now.dimensions.levels.number ≤ length trace.old }
    requires slot { slot < level_slots blocks.now.dimensions.levels.number }
    ensures store { S.state store.new ≡ ran (S.state store.old) (load_request blocks.now.dimensions.levels.number blocks.now.dimensions.width (P.choice supply.old) blocks.now.bytes.now slot ∷ []) }
    ensures supply { P.choice supply.new ≡ P.choice supply.old }
    ensures trace { trace.new ≡ slice_set trace.old slot (load_request blocks.now.dimensions.levels.number blocks.now.dimensions.width (P.choice supply.old) blocks.now.bytes.now slot).entry }
{
    let index = supply.index_of(0, slot).unwrap();
    let (key, payload) = blocks.slot(index);
    let place = blocks.dimensions.levels.start() + slot;
    put_slot(store, place, key, payload, &mut trace[slot as usize]);
}

// Writes all slots of the highest level, in rising order.
fn load_level<S: Store, P: Supply>(
    store: &mut S,
    supply: &mut P,
    blocks: &Blocks,
    trace: &mut [Entry],
)
    requires store { store_suits blocks.now.dimensions.levels.number blocks.now.dimensions.width (S.state store.old) ≡ true }
    requires supply { (P.choice supply.old).levels ≡ blocks.now.dimensions.levels.number }
    requires room { level_slots blocks.now.dimensions.levels.number ≤ length trace.old }
    ensures store { S.state store.new ≡ ran (S.state store.old) (load_requests blocks.now.dimensions.levels.number blocks.now.dimensions.width (P.choice supply.old) blocks.now.bytes.now) }
    ensures supply { P.choice supply.new ≡ P.choice supply.old }
    ensures trace { trace.new ≡ sets trace.old 0 (entries (load_requests blocks.now.dimensions.levels.number blocks.now.dimensions.width (P.choice supply.old) blocks.now.bytes.now)) }
{
    for slot in 0..blocks.dimensions.levels.slots() {
        load_slot(store, supply, blocks, trace, slot);
    }
}

impl Core {
    // The highest level is occupied by all blocks, and the turn number is one higher.
    fn note_load(&mut self, levels: Level)
        requires levels { levels.number ≡ self.old.levels }
        requires first { self.old.number ≡ 0 }
        ensures { self.new ≡ loaded self.old }
    {
        self.table.put(
            levels,
            Record {
                occupied: true,
                size: levels.blocks(),
                counter: levels.blocks(),
                build: 0,
            },
        );
        self.number += 1;
    }
}

impl<S: Store, I: Index, P: Supply> Client<S, I, P> {
    // Its dimensions where this load is accepted, else why it is not.
    fn admit_load(&self, turn: u32, bytes: usize, room: usize) -> Result<Dimensions, Refusal>
        ensures { MatchResult result (λ d. (load_answer self.now.core (S.state self.now.store) (I.lists self.now.index) (P.choice self.now.supply) turn bytes room ≡ Ok (level_slots d.levels.number)) × (d.levels.number ≡ self.now.core.levels) × (d.width ≡ self.now.core.width) × (bytes ≡ blocks d.levels.number * d.width)) (λ e. load_answer self.now.core (S.state self.now.store) (I.lists self.now.index) (P.choice self.now.supply) turn bytes room ≡ Err e) }
    {
        let dimensions = self.dimensions()?;
        if turn != self.core.number {
            return Err(Refusal::WrongTurn);
        }
        if bytes != dimensions.levels.blocks() as usize * dimensions.width {
            return Err(Refusal::WrongByteLength);
        }
        if room < dimensions.levels.slots() as usize {
            return Err(Refusal::TraceTooShort);
        }
        Ok(dimensions)
    }

    // Writes all slots of the highest level, a round each: block i where index i is below the number of blocks, else dummy i.
    pub fn load(
        &mut self,
        turn: Unloaded,
        bytes: &[u8],
        trace: &mut [Entry],
    ) -> Result<Done<Resting>, Declined<Unloaded>>
        ensures answer { answer_of result ≡ load_answer self.old.core (S.state self.old.store) (I.lists self.old.index) (P.choice self.old.supply) turn.number (length bytes.now) (length trace.old) }
        ensures turn { MatchResult result (λ d. d.turn.number ≡ turn.number + 1) (λ e. e.turn ≡ turn) }
        ensures core { self.new.core ≡ (if is_ok result then loaded self.old.core else self.old.core) }
        ensures store { S.state self.new.store ≡ (if is_ok result then ran (S.state self.old.store) (load_requests self.old.core.levels self.old.core.width (P.choice self.old.supply) bytes.now) else S.state self.old.store) }
        ensures index { self.new.index ≡ self.old.index }
        ensures supply { P.choice self.new.supply ≡ P.choice self.old.supply }
        ensures stands { stands self.new.core (S.state self.new.store) (I.lists self.new.index) (P.choice self.new.supply) ≡ stands self.old.core (S.state self.old.store) (I.lists self.old.index) (P.choice self.old.supply) }
        ensures trace { trace.new ≡ (if is_ok result then sets trace.old 0 (entries (load_requests self.old.core.levels self.old.core.width (P.choice self.old.supply) bytes.now)) else trace.old) }
    {
        // By a match: a closure for `map_err` would take the turn along.
        let dimensions = match self.admit_load(turn.number, bytes.len(), trace.len()) {
            Ok(dimensions) => dimensions,
            Err(refusal) => return Err(Declined { turn, refusal }),
        };
        let blocks = Blocks {
            dimensions,
            bytes,
            zeros: &[0; 512],
        };
        load_level(&mut self.store, &mut self.supply, &blocks, trace);
        self.core.note_load(dimensions.levels);
        Ok(Done {
            turn: turn.loaded(),
            entries: dimensions.levels.slots(),
        })
    }
}
