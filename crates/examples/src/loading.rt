// Loading at the edges: which refusal is given, and what is left.
use crate::parts::memory;
use bitmap_index::BitmapIndex;
use memory_store::MemoryStore;
use oram::answer::{Declined, Done};
use oram::client::Client;
use oram::open::Opening;
use oram::turn::{Resting, Unloaded};
use std::alloc::Global;
use std::test::Fail;
use store::entry::Entry;
use store::store::Store;
use supply::straight::Straight;

// What a client of L = 2 and W = 1 is opened with.
#[derive(Drop)]
struct Parts {
    store: MemoryStore,
    index: BitmapIndex,
    supply: Straight,
}

impl Parts {
    fn new(heap: Global, places: usize) -> Result<Parts, Fail> {
        Ok(Parts {
            store: memory(heap, places, 1)?,
            index: BitmapIndex::new(heap, 2)?,
            supply: Straight::new(2)?,
        })
    }

    fn open(self) -> Opening<MemoryStore, BitmapIndex, Straight> {
        let Parts {
            store,
            index,
            supply,
        } = self;
        Client::open(2, 1, store, index, supply)
    }
}

// What a load answered: the entries, or the number of the refusal, and the number of the turn that it gave. Each arm ends its turn.
fn told(answer: Result<Done<Resting>, Declined<Unloaded>>) -> Result<(u32, u32), (u32, u32)> {
    match answer {
        Ok(Done { turn, entries }) => Ok((entries, turn.end())),
        Err(Declined { turn, refusal }) => Err((refusal.number(), turn.end())),
    }
}

// A load of so many bytes with room for so many entries, at a client opened over this many places; and how many the store served.
fn loaded(
    heap: Global,
    places: usize,
    bytes: usize,
    room: usize,
) -> Result<(Result<(u32, u32), (u32, u32)>, u64), Fail> {
    let parts = Parts::new(heap, places)?;
    let blocks = vec![in heap; 5u8; bytes]?;
    let mut trace = vec![in heap; Entry::default(); room]?;
    let Opening {
        mut client,
        turn,
        refusal: _,
    } = parts.open();
    let answer = told(client.load(turn, &blocks, &mut trace));
    let (store, _, _) = client.into_parts();
    Ok((answer, store.served()))
}

#[test]
fn bytes_and_room_of_a_load(rt: HostRuntime) -> Result<(), Fail> {
    let heap = rt.alloc();
    assert_eq!(rt; loaded(heap, 22, 4, 8)?, (Ok((8, 1)), 8));
    assert_eq!(rt; loaded(heap, 22, 4, 9)?, (Ok((8, 1)), 8));
    assert_eq!(rt; loaded(heap, 22, 3, 8)?, (Err((6, 0)), 0));
    assert_eq!(rt; loaded(heap, 22, 5, 8)?, (Err((6, 0)), 0));
    assert_eq!(rt; loaded(heap, 22, 4, 7)?, (Err((7, 0)), 0));
    assert_eq!(rt; loaded(heap, 22, 3, 7)?, (Err((6, 0)), 0));
    Ok(())
}

#[test]
fn everything_after_a_refused_opening(rt: HostRuntime) -> Result<(), Fail> {
    let heap = rt.alloc();
    assert_eq!(rt; loaded(heap, 21, 4, 8)?, (Err((16, 0)), 0));
    assert_eq!(rt; loaded(heap, 21, 3, 7)?, (Err((16, 0)), 0));
    Ok(())
}

// Loads one client with the turn of another, and then again with its own.
#[test]
fn turns_of_other_clients(rt: HostRuntime) -> Result<(), Fail> {
    let heap = rt.alloc();
    let mut trace = vec![in heap; Entry::default(); 8]?;
    let one = Parts::new(heap, 22)?;
    let other = Parts::new(heap, 22)?;
    let Opening {
        mut client,
        turn,
        refusal: _,
    } = one.open();
    let Opening {
        client: twin,
        turn: lent,
        refusal: _,
    } = other.open();
    let (_, _, _) = twin.into_parts();
    let first = told(client.load(lent, &[1, 2, 3, 4], &mut trace));
    let second = told(client.load(turn, &[1, 2, 3, 4], &mut trace));
    let number = client.number();
    let record = client.record(2);
    let (_, _, _) = client.into_parts();
    assert_eq!(rt; first, Ok((8, 1)));
    assert_eq!(rt; second, Err((14, 0)));
    assert_eq!(rt; number, 1);
    let record = record.ok_or("no record")?;
    assert!(rt; record.occupied && record.size == 4);
    assert!(rt; record.counter == 4 && record.build == 0);
    assert_eq!(rt; trace.len(), 8);
    assert!(rt; trace[0].begins && trace[0].write && trace[0].place == 6);
    assert!(rt; trace[7].begins && trace[7].write && trace[7].place == 13);
    Ok(())
}
