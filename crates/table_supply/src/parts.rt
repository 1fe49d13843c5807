// Inner: the parts of a table, one for each build.
ghost use Rattle.std.specs.Prelude.{◌≡◌, ℕ, ◌+◌, ◌<◌, ◌≤◌, ◌⊎◌, true, false, length, take, drop, MatchResult, slice_index, slice_set};
ghost use Rattle.shape.specs.Numbers.{levels_fit};
ghost use Rattle.supply.specs.Choice.{asked_within};
ghost use Rattle.permutations.specs.Tables.{IsPermutation};
ghost use Rattle.table_supply.specs.Table.{slots_before, right_size, Permuted};
ghost use Rattle.table_supply.specs.Inverses.{is_free, Unnoted, Inverted, Inverse};

use shape::level::Level;
use shape::refusal::Refusal;
use supply::supply::MOST_BUILDS;
use supply::within;

// A slot that has no index yet. No `Option`: once a table is taken every index is there, and each answer would unwrap one that cannot be empty.
pub(crate) const NO_INDEX: u32 = u32::MAX;

// The slots of the builds before one. Odd builds are of level 0, and an even one has twice the slots that its half has with one level less.
#[tactic(auto, using(crate::proofs::Sums::counts))]
fn slots_before(levels: Level, build: u32) -> usize
    ensures { result ≡ slots_before levels.number build }
{
    if levels.number == 0 {
        return 2 * build as usize;
    }
    let below = Level {
        number: levels.number - 1,
    };
    let odd = build / 2;
    2 * (odd as usize + slots_before(below, build - odd))
}

// Notes the index of a slot; refused, with nothing noted, where the slot lies beyond the part or has an index already.
fn note(indices: &mut [u32], slot: u32, index: u32) -> Result<(), Refusal>
    ensures { MatchResult result (λ _. (is_free indices.old slot ≡ true) × (indices.new ≡ slice_set indices.old slot index)) (λ e. (is_free indices.old slot ≡ false) × (indices.new ≡ indices.old) × (e ≡ Refusal.WrongTable)) }
{
    let at = slot as usize;
    if at >= indices.len() || indices[at] != NO_INDEX {
        return Err(Refusal::WrongTable);
    }
    indices[at] = index;
    Ok(())
}

// Notes the index of every slot of a part; refused where the part is no permutation.
fn invert(part: &[u32], indices: &mut [u32]) -> Result<(), Refusal>
    requires small { length part.now ≤ 8192 }
    requires beside { length indices.old ≡ length part.now }
    requires unnoted { Unnoted indices.old 0 (length part.now) }
    ensures { MatchResult result (λ _. Inverted (length part.now) part.now indices.new 0) (λ e. (IsPermutation (length part.now) part.now → ⊥) × (e ≡ Refusal.WrongTable)) }
{
    for (index, slot) in part.iter().enumerate() {
        note(indices, *slot, index as u32)?;
    }
    Ok(())
}

// Notes the indices of the part of one build, in its places of both tables.
fn invert_part(slots: &[u32], indices: &mut [u32], start: usize, size: usize) -> Result<(), Refusal>
    requires small { size ≤ 8192 }
    requires inside { start + size ≤ length slots.now }
    requires beside { length indices.old ≡ length slots.now }
    requires unnoted { Unnoted indices.old start (length slots.now) }
    ensures answer { MatchResult result (λ _. Inverted size (take size (drop start slots.now)) indices.new start) (λ e. (IsPermutation size (take size (drop start slots.now)) → ⊥) × (e ≡ Refusal.WrongTable)) }
    ensures others { (k : ℕ) → (k < start) ⊎ (start + size ≤ k) → slice_index indices.new k ≡ slice_index indices.old k }
{
    let end = start + size;
    invert(&slots[start..end], &mut indices[start..end])
}

// L and K of a table.
#[derive(Clone, Copy)]
pub(crate) struct Parts {
    pub(crate) levels: Level,
    pub(crate) builds: u32,
    ghost low: { 1 ≤ levels.number },
    ghost some: { 1 ≤ builds },
    ghost most: { builds ≤ 1000000 },
}

impl Parts {
    // L is 1 to 12, K is 1 to 1,000,000, and a table of so many slots has those of K builds.
    pub(crate) fn new(levels: u32, builds: u32, slots: usize) -> Result<Parts, Refusal>
        ensures { MatchResult result (λ p. (levels_fit levels ≡ true) × (right_size levels builds slots ≡ true) × (p.levels.number ≡ levels) × (p.builds ≡ builds)) (λ e. ((levels_fit levels ≡ false) × (e ≡ Refusal.OutOfRange)) ⊎ ((levels_fit levels ≡ true) × (right_size levels builds slots ≡ false) × (e ≡ Refusal.WrongTable))) }
    {
        let levels = Level::highest(levels)?;
        if !(1..=MOST_BUILDS).contains(&builds) || slots != slots_before(levels, builds) {
            return Err(Refusal::WrongTable);
        }
        Ok(Parts { levels, builds })
    }

    // Notes the indices of all parts; refused where one of them is no permutation.
    #[tactic(auto, using(crate::proofs::Sums::part_at_most))]
    pub(crate) fn invert(self, slots: &[u32], indices: &mut [u32]) -> Result<(), Refusal>
        requires whole { length slots.now ≡ slots_before self.levels.number self.builds }
        requires beside { length indices.old ≡ length slots.now }
        requires unnoted { Unnoted indices.old 0 (length slots.now) }
        ensures { MatchResult result (λ _. Permuted self.levels.number slots.now self.builds × Inverse self.levels.number slots.now self.builds indices.new) (λ e. (Permuted self.levels.number slots.now self.builds → ⊥) × (e ≡ Refusal.WrongTable)) }
    {
        // A running sum: the parts are of unequal length, and of a rest that is cut off part by part no proof knows what was written.
        let mut start = 0;
        for build in 0..self.builds {
            let size = self.levels.of_build(build).slots() as usize;
            invert_part(slots, indices, start, size)?;
            start += size;
        }
        Ok(())
    }

    // Where a number of a build stands in both tables.
    #[tactic(auto, using(crate::proofs::Sums::before_at_most, crate::proofs::Sums::placed))]
    pub(crate) fn place(self, build: u32, number: u32) -> Result<usize, Refusal>
        ensures { MatchResult result (λ place. (asked_within self.levels.number self.builds build number ≡ true) × (place ≡ slots_before self.levels.number build + number) × (place < slots_before self.levels.number self.builds)) (λ e. (asked_within self.levels.number self.builds build number ≡ false) × (e ≡ Refusal.BeyondSupply)) }
    {
        within::level_of(self.levels, self.builds, build, number)?;
        Ok(slots_before(self.levels, build) + number as usize)
    }
}
