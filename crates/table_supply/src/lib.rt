// A supply of permutations given as a table: for each build the slots of its indices, in order.
#![tactic(auto)]

ghost use Rattle.std.specs.Prelude.{◌≡◌, true, false, vec_len, MatchResult};
ghost use Rattle.shape.specs.Numbers.{levels_fit};
ghost use Rattle.table_supply.specs.Table.{slots_before, right_size, Permuted, RightTable, Reason, table_choice};
ghost use Rattle.table_supply.specs.Inverses.{Inverse};
ghost use Rattle.table_supply.specs.Right.{table_lawful};

#[cfg(test)]
mod examples;
mod parts;

use crate::parts::Parts;
use shape::make_error::MakeError;
use shape::refusal::Refusal;
use std::alloc::Global;
use supply::supply::Supply;

#[derive(Drop)]
pub struct TableSupply {
    parts: Parts,
    // the slot of every index, build after build: the caller's own, and given back unchanged
    slots: Vec<u32>,
    // the index of every slot, build after build
    indices: Vec<u32>,
    ghost whole: { vec_len slots ≡ slots_before parts.levels.number parts.builds },
    ghost permuted: { Permuted parts.levels.number slots.items parts.builds },
    ghost beside: { vec_len indices ≡ vec_len slots },
    ghost inverse: { Inverse parts.levels.number slots.items parts.builds indices.items },
}

// A table that no supply was made of, and why.
#[derive(Drop, Debug)]
pub struct Untaken {
    pub slots: Vec<u32>,
    pub error: MakeError,
}

// L and K, and the index of every slot of a table; refused where the table is wrong.
fn indices_of(
    heap: Global,
    levels: u32,
    builds: u32,
    slots: &[u32],
) -> Result<(Parts, Vec<u32>), MakeError>
    ensures { MatchResult result (λ m. (levels_fit levels ≡ true) × RightTable levels builds slots.now × (m.0.levels.number ≡ levels) × (m.0.builds ≡ builds) × (vec_len m.1 ≡ slots_before levels builds) × Inverse levels slots.now builds m.1.items) (λ e. Reason levels builds slots.now e) }
{
    let parts = Parts::new(levels, builds, slots.len())?;
    let mut indices = vec![in heap; parts::NO_INDEX; slots.len()]?;
    parts.invert(slots, &mut indices)?;
    Ok((parts, indices))
}

impl TableSupply {
    // Takes a table over, with all the memory that it will ever need; gives the table back where it is not taken.
    pub fn new(
        heap: Global,
        levels: u32,
        builds: u32,
        slots: Vec<u32>,
    ) -> Result<TableSupply, Untaken>
        ensures kept { MatchResult result (λ s. (s.parts.levels.number ≡ levels) × (s.parts.builds ≡ builds) × (s.slots ≡ slots)) (λ u. u.slots ≡ slots) }
        ensures verdict { MatchResult result (λ _. (levels_fit levels ≡ true) × RightTable levels builds slots.items) (λ u. Reason levels builds slots.items u.error) }
    {
        // By a match: a closure for `map_err` would take the table along.
        match indices_of(heap, levels, builds, &slots) {
            Ok((parts, indices)) => Ok(TableSupply {
                parts,
                slots,
                indices,
            }),
            Err(error) => Err(Untaken { slots, error }),
        }
    }

    // The table, as it was handed over.
    pub fn into_slots(self) -> Vec<u32>
        ensures { result ≡ self.slots }
    {
        self.slots
    }
}

impl Supply for TableSupply {
    ghost choice = { λ s. table_choice s.parts.levels.number s.parts.builds s.slots.items };

    ghost lawful = { λ s. table_lawful s.parts.levels.number s.parts.builds s.slots.items s.parts.low s.parts.levels.high s.parts.some s.parts.most s.permuted };

    fn levels(&self) -> u32 {
        self.parts.levels.number
    }

    fn builds(&self) -> u32 {
        self.parts.builds
    }

    fn slot_of(&mut self, build: u32, index: u32) -> Result<u32, Refusal> {
        Ok(self.slots[self.parts.place(build, index)?])
    }

    fn index_of(&mut self, build: u32, slot: u32) -> Result<u32, Refusal> {
        Ok(self.indices[self.parts.place(build, slot)?])
    }
}
