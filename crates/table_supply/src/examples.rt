// Small tables, right and wrong.
use crate::{TableSupply, Untaken};
use shape::make_error::MakeError;
use shape::refusal::Refusal;
use std::alloc::{AllocError, Global};
use std::test::Fail;
use supply::supply::Supply;

// Five builds of 4, 2, 4, 2 and 4 slots.
const LOW: [u32; 16] = [2, 0, 3, 1, 1, 0, 3, 2, 1, 0, 0, 1, 1, 2, 3, 0];

// Four builds of 8, 2, 4 and 2 slots.
const HIGH: [u32; 16] = [7, 6, 5, 4, 3, 2, 1, 0, 0, 1, 2, 3, 0, 1, 1, 0];

fn made(heap: Global, levels: u32, builds: u32, table: &[u32]) -> Result<TableSupply, Fail> {
    Ok(TableSupply::new(heap, levels, builds, table.to_vec(heap)?)?)
}

// The number of the refusal, as the rules give it, if there is one; fails where the table does not come back as it was.
fn taken(heap: Global, levels: u32, builds: u32, table: &[u32]) -> Result<Result<(), u32>, Fail> {
    let (slots, verdict) = match TableSupply::new(heap, levels, builds, table.to_vec(heap)?) {
        Ok(supply) => (supply.into_slots(), Ok(())),
        Err(Untaken { slots, error }) => match error {
            MakeError::Refused(refusal) => (slots, Err(refusal.number())),
            MakeError::NoMemory => return Err(error.into()),
        },
    };
    if slots.as_slice() != table {
        return Err(Fail::new("the table did not come back as it was"));
    }
    Ok(verdict)
}

#[test]
fn right_tables_are_taken(rt: HostRuntime) -> Result<(), Fail> {
    assert_eq!(rt; taken(rt.alloc(), 1, 5, &LOW)?, Ok(()));
    assert_eq!(rt; taken(rt.alloc(), 1, 1, &LOW[0..4])?, Ok(()));
    assert_eq!(rt; taken(rt.alloc(), 2, 4, &HIGH)?, Ok(()));
    assert_eq!(rt; taken(rt.alloc(), 2, 2, &HIGH[0..10])?, Ok(()));
    assert_eq!(rt; taken(rt.alloc(), 1, 2, &[2, 0, 3, 1, 1, 0])?, Ok(()));
    Ok(())
}

#[test]
fn wrong_tables_are_given_back(rt: HostRuntime) -> Result<(), Fail> {
    // one slot short, one too many, and the slots of another highest level
    assert_eq!(rt; taken(rt.alloc(), 1, 5, &LOW[0..15])?, Err(8));
    assert_eq!(rt; taken(rt.alloc(), 2, 2, &HIGH[0..11])?, Err(8));
    assert_eq!(rt; taken(rt.alloc(), 2, 5, &LOW)?, Err(8));
    // builds out of range
    assert_eq!(rt; taken(rt.alloc(), 1, 0, &[])?, Err(8));
    assert_eq!(rt; taken(rt.alloc(), 1, 1_000_001, &LOW)?, Err(8));
    // a slot that stands twice, and one that is the size of its build
    assert_eq!(rt; taken(rt.alloc(), 1, 2, &[2, 0, 2, 1, 1, 0])?, Err(8));
    assert_eq!(rt; taken(rt.alloc(), 1, 2, &[2, 0, 3, 1, 1, 1])?, Err(8));
    assert_eq!(rt; taken(rt.alloc(), 1, 2, &[2, 0, 4, 1, 1, 0])?, Err(8));
    assert_eq!(rt; taken(rt.alloc(), 1, 2, &[2, 0, 3, 1, 1, 2])?, Err(8));
    Ok(())
}

#[test]
fn levels_out_of_range(rt: HostRuntime) -> Result<(), Fail> {
    assert_eq!(rt; taken(rt.alloc(), 0, 5, &LOW)?, Err(1));
    assert_eq!(rt; taken(rt.alloc(), 13, 5, &LOW)?, Err(1));
    assert_eq!(rt; taken(rt.alloc(), 13, 0, &LOW)?, Err(1));
    Ok(())
}

#[test]
fn answers_in_both_directions(rt: HostRuntime) -> Result<(), Fail> {
    let mut low = made(rt.alloc(), 1, 5, &LOW)?;
    assert_eq!(rt; low.slot_of(0, 0), Ok(2));
    assert_eq!(rt; low.index_of(0, 2), Ok(0));
    assert_eq!(rt; low.slot_of(1, 0), Ok(1));
    assert_eq!(rt; low.index_of(1, 0), Ok(1));
    assert_eq!(rt; low.slot_of(4, 3), Ok(0));
    assert_eq!(rt; low.index_of(4, 0), Ok(3));
    let mut high = made(rt.alloc(), 2, 4, &HIGH)?;
    assert_eq!(rt; high.levels(), 2);
    assert_eq!(rt; high.builds(), 4);
    assert_eq!(rt; high.slot_of(2, 3), Ok(1));
    assert_eq!(rt; high.index_of(2, 1), Ok(3));
    Ok(())
}

// The builds of highest level 1, every slot its own index.
fn straight(heap: Global, builds: u32) -> Result<Vec<u32>, AllocError> {
    let mut slots = Vec::new(heap);
    for build in 0..builds {
        slots.extend(0..4 - build % 2 * 2)?;
    }
    Ok(slots)
}

#[test]
fn a_build_too_many(rt: HostRuntime) -> Result<(), Fail> {
    let slots = straight(rt.alloc(), 1_000_001)?;
    assert_eq!(rt; taken(rt.alloc(), 1, 1_000_001, &slots)?, Err(8));
    Ok(())
}

#[test]
fn a_million_builds(rt: HostRuntime) -> Result<(), Fail> {
    let slots = straight(rt.alloc(), 1_000_000)?;
    assert_eq!(rt; taken(rt.alloc(), 1, 1_000_000, &slots)?, Ok(()));
    let mut supply = made(rt.alloc(), 1, 1_000_000, &slots)?;
    assert_eq!(rt; supply.slot_of(999_999, 1), Ok(1));
    assert_eq!(rt; supply.index_of(999_998, 3), Ok(3));
    assert_eq!(rt;
        supply.slot_of(1_000_000, 0).map_err(Refusal::number),
        Err(12)
    );
    Ok(())
}

#[test]
fn questions_beyond_the_supply(rt: HostRuntime) -> Result<(), Fail> {
    let mut supply = made(rt.alloc(), 2, 4, &HIGH)?;
    assert_eq!(rt; supply.slot_of(4, 0).map_err(Refusal::number), Err(12));
    assert_eq!(rt; supply.index_of(4, 0).map_err(Refusal::number), Err(12));
    assert_eq!(rt; supply.slot_of(3, 2).map_err(Refusal::number), Err(12));
    assert_eq!(rt; supply.index_of(3, 2).map_err(Refusal::number), Err(12));
    assert_eq!(rt; supply.slot_of(0, 8).map_err(Refusal::number), Err(12));
    assert_eq!(rt; supply.index_of(0, 8).map_err(Refusal::number), Err(12));
    Ok(())
}
