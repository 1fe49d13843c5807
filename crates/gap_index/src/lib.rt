// The gap index: for each level the gaps of its rising list, one number each.
#![tactic(auto)]

ghost use Rattle.std.specs.Prelude.{◌≡◌, true, false, [], replicate, Ok, Err};
ghost use Rattle.shape.specs.Numbers.{levels_fit};
ghost use Rattle.shape.specs.declared.make_error.MakeError.TheVariants.{Refused, NoMemory};
ghost use Rattle.index.specs.Lists.{list_at};
ghost use Rattle.gap_index.specs.Gaps.{GapsGiveTheList, ListGivesTheGaps, gaps_of};

mod row;

use index::Index;
use index::rows::{Row, Rows};
use row::GapRow;
use shape::make_error::MakeError;
use shape::refusal::Refusal;
use std::alloc::Global;

#[derive(Drop)]
pub struct GapIndex {
    rows: Rows<GapRow>,
}

impl GapIndex {
    // An index of empty lists, with all the memory that it will ever need.
    pub fn new(heap: Global, levels: u32) -> Result<GapIndex, MakeError>
        ensures { elim result [ Ok s ↦ (levels_fit levels ≡ true) × (⟦<GapIndex as Index>⟧.lists s ≡ replicate levels []) | Err e ↦ elim e [ Refused f ↦ (levels_fit levels ≡ false) × (f ≡ Refusal.OutOfRange) | NoMemory ↦ levels_fit levels ≡ true ] ] }
    {
        Ok(GapIndex {
            rows: Rows::new(heap, levels)?,
        })
    }

    // The gaps of a level's list; none where there is no such level. A rising list and its gaps give each other back.
    #[tactic(auto, using(crate::specs::Listed::gap_facts))]
    pub fn gaps(&self, level: u32) -> &[u16]
        ensures value { result.now ≡ gaps_of (list_at (⟦<GapIndex as Index>⟧.lists self.now) level) }
        ensures list_back { GapsGiveTheList }
        ensures gaps_back { ListGivesTheGaps }
    {
        self.rows.row(level).map_or(&[], GapRow::gaps)
    }
}

// Each call is handed on to the rows.
impl Index for GapIndex {
    ghost use Rattle.index.specs.RowLists.{rows_lawful};
    ghost use Rattle.gap_index.specs.Listed.{listed_rises};
    ghost use Rattle.gap_index.specs.Members.{list_below, list_fits};

    ghost lists = { λ s. ⟦<Rows<GapRow> as Index>⟧.lists s.rows };

    // as the rows' own impl shows it
    ghost lawful = { λ s. rows_lawful ⟦<GapRow as Row>⟧.list ⟦<GapRow as Row>⟧.bound ⟦<GapRow as Row>⟧.room (λ r. listed_rises r.gaps.items r.positive) list_below list_fits s.rows.levels.number s.rows.rows.items s.rows.low s.rows.levels.high s.rows.rooms s.rows.bounds };

    fn levels(&self) -> u32 {
        self.rows.levels()
    }

    fn size(&self, level: u32) -> Option<u32> {
        self.rows.size(level)
    }

    fn member(&self, level: u32, position: u32) -> Option<u32> {
        self.rows.member(level, position)
    }

    fn rank(&self, level: u32, address: u32) -> Option<u32> {
        self.rows.rank(level, address)
    }

    fn append(&mut self, level: u32, address: u32) -> Result<(), Refusal> {
        self.rows.append(level, address)
    }

    fn clear(&mut self, level: u32) -> Result<(), Refusal> {
        self.rows.clear(level)
    }
}
