// An index at the edges.
use crate::parts::numbered;
use bitmap_index::BitmapIndex;
use gap_index::GapIndex;
use index::Index;
use shape::make_error::MakeError;
use std::process::Abort;
use std::test::Fail;
use supply::straight::Straight;
use supply::supply::Supply;

// The number of the refusal, as the rules give it, if the part was not made.
fn refused<T: Drop, E: Into<MakeError>>(made: Result<T, E>) -> Result<Option<u32>, Fail> {
    match made.map_err(E::into) {
        Ok(_) => Ok(None),
        Err(MakeError::Refused(why)) => Ok(Some(why.number())),
        Err(MakeError::NoMemory) => Err(Fail::new("no memory")),
    }
}

// Which L are refused.
const LEVELS: [(u32, Option<u32>); 4] = [(0, Some(1)), (1, None), (12, None), (13, Some(1))];

#[test]
fn made_for_levels_one_to_twelve(rt: HostRuntime) -> Result<(), Fail> {
    for (levels, number) in LEVELS {
        assert_eq!(rt; refused(BitmapIndex::new(rt.alloc(), levels))?, number);
        assert_eq!(rt; refused(Straight::new(levels))?, number);
    }
    Ok(())
}

#[test]
fn made_for_levels_one_to_twelve_by_gaps(rt: HostRuntime) -> Result<(), Fail> {
    for (levels, number) in LEVELS {
        assert_eq!(rt; refused(GapIndex::new(rt.alloc(), levels))?, number);
    }
    Ok(())
}

#[test]
fn ranks_and_positions(rt: HostRuntime) -> Result<(), Fail> {
    let mut index = BitmapIndex::new(rt.alloc(), 4)?;
    for address in [2, 5, 7, 9] {
        assert_eq!(rt; numbered(index.append(2, address)), Ok(()));
    }
    assert_eq!(rt; index.size(2), Some(4));
    assert_eq!(rt; index.rank(2, 7), Some(2));
    assert_eq!(rt; index.member(2, 2), Some(7));
    assert_eq!(rt; index.rank(2, 6), None);
    assert_eq!(rt; index.member(2, 4), None);
    assert_eq!(rt; index.rank(4, 7), None);
    assert_eq!(rt; index.size(4), None);
    assert_eq!(rt; index.member(1, 0), None);
    Ok(())
}

#[test]
fn appends_and_clears_refused(rt: HostRuntime) -> Result<(), Fail> {
    let mut index = BitmapIndex::new(rt.alloc(), 3)?;
    assert_eq!(rt; numbered(index.append(2, 5)), Ok(()));
    assert_eq!(rt; numbered(index.append(2, 5)), Err(11));
    assert_eq!(rt; numbered(index.append(2, 4)), Err(11));
    assert_eq!(rt; numbered(index.append(2, 8)), Err(11));
    assert_eq!(rt; numbered(index.append(3, 6)), Err(11));
    assert_eq!(rt; numbered(index.append(0, 0)), Ok(()));
    assert_eq!(rt; numbered(index.append(0, 1)), Err(11));
    assert_eq!(rt; numbered(index.clear(3)), Err(11));
    assert_eq!(rt; index.size(2), Some(1));
    assert_eq!(rt; numbered(index.clear(2)), Ok(()));
    assert_eq!(rt; index.size(2), Some(0));
    assert_eq!(rt; index.size(0), Some(1));
    assert_eq!(rt; numbered(index.append(2, 0)), Ok(()));
    Ok(())
}

// Adds 2, 5, 7 and 9 to an empty level.
fn add_four<I: Index>(rt: &impl Abort, index: &mut I, level: u32) {
    assert_eq!(rt; index.size(level), Some(0));
    for address in [2, 5, 7, 9] {
        assert_eq!(rt; numbered(index.append(level, address)), Ok(()));
    }
    holds_four(rt, index, level);
}

fn holds_four<I: Index>(rt: &impl Abort, index: &I, level: u32) {
    assert_eq!(rt; index.size(level), Some(4));
    for (position, member) in [
        (0, Some(2)),
        (1, Some(5)),
        (2, Some(7)),
        (3, Some(9)),
        (4, None),
    ] {
        assert_eq!(rt; index.member(level, position), member);
    }
}

// Ranks and positions in {2, 5, 7, 9}, for any kind of index of four levels.
fn four_ranked<I: Index>(rt: &impl Abort, index: &mut I) {
    assert_eq!(rt; index.levels(), 4);
    add_four(rt, index, 2);
    assert_eq!(rt; index.rank(2, 2), Some(0));
    assert_eq!(rt; index.rank(2, 7), Some(2));
    assert_eq!(rt; index.rank(2, 9), Some(3));
    assert_eq!(rt; index.rank(2, 6), None);
    assert_eq!(rt; index.rank(2, 0), None);
    assert_eq!(rt; index.rank(2, 10), None);
    assert_eq!(rt; index.rank(2, 16), None);
    assert_eq!(rt; index.rank(2, 4_294_967_295), None);
    assert_eq!(rt; index.rank(4, 7), None);
    assert_eq!(rt; index.size(4), None);
    assert_eq!(rt; index.member(4, 0), None);
    assert_eq!(rt; index.member(1, 0), None);
}

// Each kind of index has tests of its own name, of one call each.
#[test]
fn ranks_and_positions_by_bits(rt: HostRuntime) -> Result<(), Fail> {
    four_ranked(&rt, &mut BitmapIndex::new(rt.alloc(), 4)?);
    Ok(())
}

#[test]
fn ranks_and_positions_by_gaps(rt: HostRuntime) -> Result<(), Fail> {
    four_ranked(&rt, &mut GapIndex::new(rt.alloc(), 4)?);
    Ok(())
}

// Of four levels the first two are empty and the others hold {2, 5, 7, 9}.
fn as_filled<I: Index>(rt: &impl Abort, index: &I) {
    assert_eq!(rt; index.size(0), Some(0));
    assert_eq!(rt; index.size(1), Some(0));
    holds_four(rt, index, 2);
    holds_four(rt, index, 3);
}

// Appends and clears that are refused and change nothing, for any kind of index of four levels: level 2 is full, level 3 is not.
fn refused_changes<I: Index>(rt: &impl Abort, index: &mut I) {
    add_four(rt, index, 2);
    add_four(rt, index, 3);
    for (level, address, why) in [
        (3, 9, "equal to the last"),
        (3, 8, "below the last"),
        (3, 16, "n"),
        (3, 17, "above n"),
        (2, 10, "full"),
        (4, 10, "level L"),
    ] {
        assert_eq!(rt; numbered(index.append(level, address)), Err(11), "{why}");
        as_filled(rt, index);
    }
    assert_eq!(rt; numbered(index.clear(4)), Err(11));
    as_filled(rt, index);
}

#[test]
fn refused_changes_by_bits(rt: HostRuntime) -> Result<(), Fail> {
    refused_changes(&rt, &mut BitmapIndex::new(rt.alloc(), 4)?);
    Ok(())
}

#[test]
fn refused_changes_by_gaps(rt: HostRuntime) -> Result<(), Fail> {
    refused_changes(&rt, &mut GapIndex::new(rt.alloc(), 4)?);
    Ok(())
}

// A cleared level begins anew, and the others stay.
fn cleared_and_filled_again<I: Index>(rt: &impl Abort, index: &mut I) {
    add_four(rt, index, 2);
    add_four(rt, index, 3);
    assert_eq!(rt; numbered(index.clear(2)), Ok(()));
    assert_eq!(rt; index.size(2), Some(0));
    assert_eq!(rt; index.member(2, 0), None);
    assert_eq!(rt; index.rank(2, 7), None);
    holds_four(rt, index, 3);
    assert_eq!(rt; numbered(index.append(2, 0)), Ok(()));
    assert_eq!(rt; numbered(index.append(2, 15)), Ok(()));
    assert_eq!(rt; index.size(2), Some(2));
    assert_eq!(rt; index.member(2, 1), Some(15));
    assert_eq!(rt; index.rank(2, 15), Some(1));
    assert_eq!(rt; index.rank(2, 7), None);
    holds_four(rt, index, 3);
}

#[test]
fn cleared_and_filled_again_by_bits(rt: HostRuntime) -> Result<(), Fail> {
    cleared_and_filled_again(&rt, &mut BitmapIndex::new(rt.alloc(), 4)?);
    Ok(())
}

#[test]
fn cleared_and_filled_again_by_gaps(rt: HostRuntime) -> Result<(), Fail> {
    cleared_and_filled_again(&rt, &mut GapIndex::new(rt.alloc(), 4)?);
    Ok(())
}

// Level 0 has room for one address.
fn room_for_one<I: Index>(rt: &impl Abort, index: &mut I) {
    assert_eq!(rt; numbered(index.append(0, 0)), Ok(()));
    assert_eq!(rt; numbered(index.append(0, 1)), Err(11));
    assert_eq!(rt; index.size(0), Some(1));
    assert_eq!(rt; index.member(0, 0), Some(0));
    assert_eq!(rt; index.rank(0, 0), Some(0));
    assert_eq!(rt; index.rank(0, 1), None);
}

#[test]
fn room_for_one_by_bits_and_gaps(rt: HostRuntime) -> Result<(), Fail> {
    room_for_one(&rt, &mut BitmapIndex::new(rt.alloc(), 1)?);
    room_for_one(&rt, &mut GapIndex::new(rt.alloc(), 1)?);
    Ok(())
}

#[test]
fn gaps_of_four(rt: HostRuntime) -> Result<(), Fail> {
    let mut index = GapIndex::new(rt.alloc(), 4)?;
    add_four(&rt, &mut index, 2);
    assert!(rt; index.gaps(2) == [3, 3, 2, 2].as_slice());
    assert!(rt; index.gaps(1).is_empty());
    assert!(rt; index.gaps(4).is_empty());
    Ok(())
}

#[test]
fn questions_to_a_supply(rt: HostRuntime) -> Result<(), Fail> {
    let mut supply = Straight::new(2)?;
    assert_eq!(rt; supply.builds(), 1_000_000);
    assert_eq!(rt; numbered(supply.slot_of(0, 7)), Ok(7));
    assert_eq!(rt; numbered(supply.slot_of(0, 8)), Err(12));
    assert_eq!(rt; numbered(supply.index_of(1, 1)), Ok(1));
    assert_eq!(rt; numbered(supply.index_of(1, 2)), Err(12));
    assert_eq!(rt; numbered(supply.index_of(999_999, 1)), Ok(1));
    assert_eq!(rt; numbered(supply.index_of(1_000_000, 0)), Err(12));
    Ok(())
}
