// Opening at the edges: which refusal is given.
use crate::parts::{memory, numbered};
use bitmap_index::BitmapIndex;
use index::Index;
use memory_store::MemoryStore;
use oram::client::Client;
use oram::open::Opening;
use shape::places::places_for;
use shape::refusal::Refusal;
use std::alloc::Global;
use std::test::Fail;
use supply::straight::Straight;

// The number of the refusal at opening for L and W, as the rules give it, and the turn's number.
fn opened(
    (levels, width): (u32, usize),
    store: MemoryStore,
    index: BitmapIndex,
    supply: Straight,
) -> (Option<u32>, u32) {
    let Opening {
        client,
        turn,
        refusal,
    } = Client::open(levels, width, store, index, supply);
    let (_, _, _) = client.into_parts();
    (refusal.map(Refusal::number), turn.end())
}

// The same with a store of so many places and such a width, and an index and a supply that are made for these L.
fn opened_with(
    heap: Global,
    client: (u32, usize),
    (places, width): (usize, usize),
    index: u32,
    supply: u32,
) -> Result<(Option<u32>, u32), Fail> {
    let store = memory(heap, places, width)?;
    let index = BitmapIndex::new(heap, index)?;
    Ok(opened(client, store, index, Straight::new(supply)?))
}

#[test]
fn ranges_of_levels_and_width(rt: HostRuntime) -> Result<(), Fail> {
    let heap = rt.alloc();
    let most = places_for(12)? as usize;
    let least = places_for(1)? as usize;
    for (client, store, made_for, refusal) in [
        ((12, 1), (most, 1), 12, None),
        ((13, 1), (most, 1), 12, Some(1)),
        ((0, 1), (least, 1), 1, Some(1)),
        ((1, 512), (least, 512), 1, None),
        ((1, 513), (least, 513), 1, Some(1)),
        ((1, 0), (least, 0), 1, Some(1)),
    ] {
        let answer = opened_with(heap, client, store, made_for, made_for)?;
        assert_eq!(rt; answer, (refusal, 0), "L and W are {client:?}");
    }
    Ok(())
}

#[test]
fn parts_that_do_not_fit(rt: HostRuntime) -> Result<(), Fail> {
    let heap = rt.alloc();
    for (client, store, index, supply, refusal) in [
        ((2, 3), (22, 3), 2, 2, None),
        ((2, 3), (21, 3), 2, 2, Some(2)),
        ((2, 3), (22, 4), 2, 2, Some(2)),
        ((2, 3), (22, 3), 3, 2, Some(3)),
        ((2, 3), (22, 3), 2, 3, Some(3)),
        // the order of the checks
        ((13, 3), (1, 4), 3, 3, Some(1)),
        ((2, 3), (1, 4), 3, 3, Some(2)),
    ] {
        let answer = opened_with(heap, client, store, index, supply)?;
        assert_eq!(rt; answer, (refusal, 0), "{store:?}, {index}, {supply}");
    }
    Ok(())
}

#[test]
fn an_index_that_is_not_empty(rt: HostRuntime) -> Result<(), Fail> {
    let heap = rt.alloc();
    let mut index = BitmapIndex::new(heap, 2)?;
    assert_eq!(rt; numbered(index.append(1, 3)), Ok(()));
    let store = memory(heap, 22, 1)?;
    let (refusal, _) = opened((2, 1), store, index, Straight::new(2)?);
    assert_eq!(rt; refusal, Some(3));
    Ok(())
}
