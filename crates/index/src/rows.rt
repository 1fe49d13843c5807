// An index of rows: each level's list in a row of its own.
ghost use Rattle.std.specs.Prelude.{◌≡◌, ℕ, ◌^◌, ◌≤◌, ◌<◌, List, map, replicate};
ghost use Rattle.std.specs.List.{All};
ghost use Rattle.index.specs.RowLists.{powers};

use crate::Index;
use shape::level::Level;
use shape::make_error::MakeError;
use shape::refusal::Refusal;
use std::alloc::{AllocError, Global};

// The members of one level.
pub trait Row: Drop {
    ghost use Rattle.std.specs.Prelude.{[], ◌∷◌, ◌++◌, length, Ok, Err, IfOk, is_ok, if◌then◌else◌};
    ghost use Rattle.std.specs.List.{slice_get};
    ghost use Rattle.index.specs.Lists.{Rising};
    ghost use Rattle.index.specs.RowLists.{rank_in, row_takes};

    ghost list: { Self → List ℕ };

    // the members are below this
    ghost bound: { Self → ℕ };

    // the most members
    ghost room: { Self → ℕ };

    // A row with no members.
    fn new(heap: Global, levels: Level, level: Level) -> Result<Self, AllocError>
        ensures { IfOk result (λ r. (list r ≡ []) × (bound r ≡ 2 ^ levels.number) × (room r ≡ 2 ^ level.number)) };

    fn size(&self) -> u32
        ensures { result ≡ length (list self.now) };

    // The member at a position, counted from 0.
    fn member(&self, position: u32) -> Option<u32>
        ensures { result ≡ slice_get (list self.now) position };

    // How many members are smaller than this one; absent where the address is no member.
    fn rank(&self, address: u32) -> Option<u32>
        ensures { result ≡ rank_in (list self.now) address };

    // Adds an address at the end.
    fn append(&mut self, address: u32) -> Result<(), Refusal>
        ensures answer { result ≡ (if row_takes (list self.old) (bound self.old) (room self.old) address then Ok tt else Err Refusal.WrongListChange) }
        ensures list { list self.new ≡ (if is_ok result then list self.old ++ address ∷ [] else list self.old) }
        ensures bound { bound self.new ≡ bound self.old }
        ensures room { room self.new ≡ room self.old };

    // Empties the row.
    fn clear(&mut self)
        ensures list { list self.new ≡ [] }
        ensures bound { bound self.new ≡ bound self.old }
        ensures room { room self.new ≡ room self.old };

    ghost rises: { (r : Self) → Rising (list r) };

    ghost addresses: { (r : Self) → All (λ a. a < bound r) (list r) };

    ghost fits: { (r : Self) → length (list r) ≤ room r };
}

#[derive(Drop)]
pub struct Rows<R: Row> {
    levels: Level,
    rows: Vec<R>,
    ghost low: { 1 ≤ levels.number },
    // there is a row for each level, with room for 2^l members at level l
    ghost rooms: { map R.room rows.items ≡ powers levels.number },
    // all members are addresses
    ghost bounds: { map R.bound rows.items ≡ replicate levels.number (2 ^ levels.number) },
}

#[tactic(auto, using(crate::proofs::RowFacts::rows_facts))]
impl<R: Row> Rows<R> {
    ghost use Rattle.std.specs.Prelude.{true, false, [], Ok, Err, Some, None, length};
    ghost use Rattle.shape.specs.Numbers.{levels_fit};
    ghost use Rattle.shape.specs.declared.make_error.MakeError.TheVariants.{Refused, NoMemory};
    ghost use Rattle.index.specs.Lists.{list_at};

    // An index of empty lists, with all the memory that it will ever need.
    pub fn new(heap: Global, levels: u32) -> Result<Rows<R>, MakeError>
        ensures { elim result [ Ok s ↦ (levels_fit levels ≡ true) × (map R.list s.rows.items ≡ replicate levels []) | Err e ↦ elim e [ Refused f ↦ (levels_fit levels ≡ false) × (f ≡ Refusal.OutOfRange) | NoMemory ↦ levels_fit levels ≡ true ] ] }
    {
        let levels = Level::highest(levels)?;
        let mut rows = Vec::with_capacity(heap, levels.number as usize)?;
        for number in 0..levels.number {
            rows.push_reserved(R::new(heap, levels, Level { number })?);
        }
        Ok(Rows { levels, rows })
    }

    // The row of a level; none where there is no such level.
    pub fn row(&self, level: u32) -> Option<&R>
        ensures { elim result [ Some r ↦ (level < length (map R.list self.now.rows.items)) × (R.list r.now ≡ list_at (map R.list self.now.rows.items) level) | None ↦ length (map R.list self.now.rows.items) ≤ level ] }
    {
        self.rows.get(level as usize)
    }
}

#[tactic(auto, using(crate::proofs::RowFacts::rows_facts))]
impl<R: Row> Index for Rows<R> {
    ghost use Rattle.index.specs.RowLists.{rows_lawful};

    ghost lists = { λ s. map R.list s.rows.items };

    ghost lawful = { λ s. rows_lawful R.list R.bound R.room R.rises R.addresses R.fits s.levels.number s.rows.items s.low s.levels.high s.rooms s.bounds };

    fn levels(&self) -> u32 {
        self.levels.number
    }

    fn size(&self, level: u32) -> Option<u32> {
        Some(self.row(level)?.size())
    }

    fn member(&self, level: u32, position: u32) -> Option<u32> {
        self.row(level)?.member(position)
    }

    fn rank(&self, level: u32, address: u32) -> Option<u32> {
        self.row(level)?.rank(address)
    }

    fn append(&mut self, level: u32, address: u32) -> Result<(), Refusal> {
        self.rows
            .get_mut(level as usize)
            .ok_or(Refusal::WrongListChange)?
            .append(address)
    }

    fn clear(&mut self, level: u32) -> Result<(), Refusal> {
        self.rows
            .get_mut(level as usize)
            .ok_or(Refusal::WrongListChange)?
            .clear();
        Ok(())
    }
}
