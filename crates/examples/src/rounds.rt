// Rounds of the two kinds of store.
use crate::parts::{joined, memory, numbered};
use memory_store::MemoryStore;
use std::alloc::Global;
use std::test::Fail;
use store::store::Store;

const PLACES: [u32; 14] = [0, 1, 2, 3, 4, 5, 6, 7, 8, 9, 10, 11, 12, 13];

#[test]
fn places_keys_and_bytes_of_a_fetch(rt: HostRuntime) -> Result<(), Fail> {
    let mut store = memory(rt.alloc(), 13, 2)?;
    assert_eq!(rt; numbered(store.fetch(&[], &mut [], &mut [])), Err(9));
    assert_eq!(rt;
        numbered(store.fetch(&PLACES, &mut [0; 14], &mut [0; 28])),
        Err(9)
    );
    assert_eq!(rt;
        numbered(store.fetch(&PLACES[..13], &mut [0; 13], &mut [0; 26])),
        Ok(())
    );
    assert_eq!(rt;
        numbered(store.fetch(&PLACES[..2], &mut [0; 1], &mut [0; 4])),
        Err(9)
    );
    assert_eq!(rt;
        numbered(store.fetch(&PLACES[..2], &mut [0; 2], &mut [0; 5])),
        Err(9)
    );
    assert_eq!(rt; store.served(), 13);
    Ok(())
}

#[test]
fn places_keys_and_bytes_of_a_put(rt: HostRuntime) -> Result<(), Fail> {
    let mut store = memory(rt.alloc(), 13, 2)?;
    assert_eq!(rt; numbered(store.put(&[], &[], &[])), Err(9));
    assert_eq!(rt; numbered(store.put(&PLACES, &[0; 14], &[0; 28])), Err(9));
    assert_eq!(rt;
        numbered(store.put(&PLACES[..13], &[0; 13], &[0; 26])),
        Ok(())
    );
    assert_eq!(rt; numbered(store.put(&PLACES[..2], &[0; 1], &[0; 4])), Err(9));
    assert_eq!(rt; numbered(store.put(&PLACES[..2], &[0; 2], &[0; 3])), Err(9));
    assert_eq!(rt; store.served(), 13);
    Ok(())
}

#[test]
fn a_place_at_the_end(rt: HostRuntime) -> Result<(), Fail> {
    let mut store = memory(rt.alloc(), 12, 2)?;
    assert_eq!(rt;
        numbered(store.fetch(&PLACES[..12], &mut [0; 12], &mut [0; 24])),
        Ok(())
    );
    assert_eq!(rt;
        numbered(store.fetch(&PLACES[..13], &mut [0; 13], &mut [0; 26])),
        Err(10)
    );
    assert_eq!(rt;
        numbered(store.put(&PLACES[..13], &[0; 13], &[0; 26])),
        Err(10)
    );
    assert_eq!(rt;
        numbered(store.put(&PLACES[..13], &[0; 13], &[0; 25])),
        Err(9)
    );
    assert_eq!(rt; store.served(), 12);
    Ok(())
}

// The key and the one payload byte at a place.
fn slot(store: &mut MemoryStore, place: u32) -> (u32, u8) {
    let mut keys = [7u32; 1];
    let mut bytes = [9u8; 1];
    let _ = store.fetch(&[place], &mut keys, &mut bytes);
    (keys[0], bytes[0])
}

#[test]
fn a_refused_round_changes_nothing(rt: HostRuntime) -> Result<(), Fail> {
    let mut store = memory(rt.alloc(), 3, 1)?;
    assert_eq!(rt; slot(&mut store, 3), (7, 9));
    assert_eq!(rt; numbered(store.put(&[0, 3], &[1, 1], &[1, 1])), Err(10));
    assert_eq!(rt; store.served(), 0);
    assert_eq!(rt; store.trail(), 0);
    assert_eq!(rt; slot(&mut store, 0), (0, 0));
    Ok(())
}

// The trail of the places asked, by their marks.
fn trail(marks: &[u64]) -> u64 {
    marks.iter().fold(0, |trail: u64, mark| {
        trail.wrapping_mul(16_777_619).wrapping_add(*mark)
    })
}

#[test]
fn the_later_of_a_repeated_place(rt: HostRuntime) -> Result<(), Fail> {
    let mut store = memory(rt.alloc(), 3, 1)?;
    assert_eq!(rt; numbered(store.put(&[1, 1], &[4, 5], &[40, 50])), Ok(()));
    assert_eq!(rt; slot(&mut store, 1), (5, 50));
    assert_eq!(rt; store.served(), 3);
    // marks 4 * 1 + 2 + 1, 4 * 1 + 1 and 4 * 1 + 2
    assert_eq!(rt; store.trail(), trail(&[7, 5, 6]));
    Ok(())
}

#[test]
fn bytes_key_first_and_tail_left(rt: HostRuntime) -> Result<(), Fail> {
    let bytes = [1, 2, 0, 0, 9, 0, 0, 0, 0, 0, 77].to_vec(rt.alloc())?;
    let mut store = MemoryStore::new(bytes, 1);
    assert_eq!(rt; store.places(), 2);
    assert_eq!(rt; store.width(), 1);
    assert_eq!(rt; slot(&mut store, 0), (513, 9));
    assert_eq!(rt; numbered(store.put(&[1], &[65_536], &[8])), Ok(()));
    let bytes = store.into_bytes();
    assert!(rt; bytes.len() == 11);
    assert!(rt; bytes[0] == 1 && bytes[4] == 9);
    assert!(rt; bytes[5] == 0 && bytes[7] == 1 && bytes[9] == 8);
    assert!(rt; bytes[10] == 77);
    Ok(())
}

// The places of two memory stores that are joined, and the width.
fn joined_places(
    heap: Global,
    first: MemoryStore,
    second: MemoryStore,
) -> Result<(u32, usize), Fail> {
    let store = joined(heap, first, second)?;
    let answer = (store.places(), store.width());
    let (_, _) = store.into_parts();
    Ok(answer)
}

#[test]
fn two_parts_and_their_limits(rt: HostRuntime) -> Result<(), Fail> {
    let heap = rt.alloc();
    assert_eq!(rt;
        joined_places(heap, memory(heap, 3, 2)?, memory(heap, 4, 2)?)?,
        (7, 2)
    );
    assert_eq!(rt;
        joined_places(heap, memory(heap, 3, 2)?, memory(heap, 4, 3)?)?,
        (0, 0)
    );
    assert_eq!(rt;
        joined_places(heap, memory(heap, 500_000, 1)?, memory(heap, 500_000, 1)?)?,
        (1_000_000, 1)
    );
    assert_eq!(rt;
        joined_places(heap, memory(heap, 500_000, 1)?, memory(heap, 500_001, 1)?)?,
        (0, 0)
    );
    Ok(())
}

// Four slots are put to both parts in one round and fetched in another.
#[test]
fn one_round_of_each_part(rt: HostRuntime) -> Result<(), Fail> {
    let heap = rt.alloc();
    let mut store = joined(heap, memory(heap, 2, 1)?, memory(heap, 2, 1)?)?;
    let mut keys = [0u32; 4];
    let mut bytes = [0u8; 4];
    let _ = store.put(&[3, 0, 2, 1], &[30, 0, 20, 10], &[3, 0, 2, 1]);
    let _ = store.fetch(&[1, 3, 2, 0], &mut keys, &mut bytes);
    let served = store.served();
    let (first, second) = store.into_parts();
    assert_eq!(rt; keys, [10, 30, 20, 0]);
    assert_eq!(rt; bytes, [1, 3, 2, 0]);
    assert_eq!(rt; [served, first.served(), second.served()], [8, 4, 4]);
    // the first part is put 0, 1 and asked for 1, 0; the second is put 1, 0 and asked for 1, 0
    assert_eq!(rt; first.trail(), trail(&[3, 5, 6, 0]));
    assert_eq!(rt; second.trail(), trail(&[7, 1, 6, 0]));
    Ok(())
}
