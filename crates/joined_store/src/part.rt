// Inner: the two parts of a joined store, and the share that each has of a round.
ghost use Rattle.std.specs.Prelude.{◌≡◌, ◌+◌, ◌*◌, ◌≤◌, true, ◌++◌, Some, None, IfSome, length, take, drop, if◌then◌else◌};
ghost use Rattle.std.specs.List.{list_all};
ghost use Rattle.store.specs.Requests.{ran};
ghost use Rattle.store.specs.Rounds.{keys_at, bytes_at};
ghost use Rattle.joined_store.specs.Joined.{lies_in, numbered, places_in, items_in, fetch_of, put_of};
ghost use Rattle.joined_store.specs.Inner.{Shares, scattered};

use arrayvec::ArrayVec;
use store::store::Store;

#[derive(Clone, Copy)]
pub enum Part {
    First,
    Second,
}

// One part, told by the number of the first part's places.
#[derive(Clone, Copy)]
pub(crate) struct Side {
    part: Part,
    seam: u32,
}

impl Side {
    pub(crate) fn both(seam: u32) -> (Side, Side)
        ensures first { result.0 ≡ record { part = Part.First; seam = seam } }
        ensures second { result.1 ≡ record { part = Part.Second; seam = seam } }
    {
        let side = |part| Side { part, seam };
        (side(Part::First), side(Part::Second))
    }

    // A place as the part numbers it, if it lies there.
    fn number_of(self, place: u32) -> Option<u32>
        ensures { result ≡ (if lies_in self.part self.seam place then Some (numbered self.part self.seam place) else None) }
    {
        match self.part {
            Part::First => (place < self.seam).then_some(place),
            Part::Second => place.checked_sub(self.seam),
        }
    }

    fn holds(self, place: u32) -> bool
        ensures { result ≡ lies_in self.part self.seam place }
    {
        self.number_of(place).is_some()
    }

    // The part's places of a round.
    fn pick(self, places: &[u32]) -> ArrayVec<u32, 13>
        requires { length places.now ≤ 13 }
        ensures few { length result.items ≤ length places.now }
        ensures own { result.items ≡ places_in self.part self.seam places.now }
    {
        let mut own = ArrayVec::new();
        for place in places {
            if let Some(number) = self.number_of(*place) {
                own.push(number);
            }
        }
        own
    }

    // Copies from the items of a round those of the part's places. Counts them by hand, as `scatter` does: of a chain by `filter` and
    // `enumerate` the check could not begin an invariant.
    #[tactic(auto, using(crate::proofs::Shares::steps))]
    fn gather<T: Copy>(self, places: &[u32], width: usize, items: &[T], own: &mut [T])
        requires items { length items.now ≡ length places.now * width }
        requires own { length own.old ≡ length (places_in self.part self.seam places.now) * width }
        ensures { own.new ≡ items_in self.part self.seam width places.now items.now }
    {
        let mut count = 0;
        for (i, place) in places.iter().enumerate() {
            if self.holds(*place) {
                copy_item(width, items, i, own, count);
                count += 1;
            }
        }
    }

    // Copies to the items of a round those of the part's places.
    #[tactic(auto, using(crate::proofs::Shares::steps))]
    fn scatter<T: Copy>(self, places: &[u32], width: usize, own: &[T], items: &mut [T])
        requires own { length own.now ≡ length (places_in self.part self.seam places.now) * width }
        requires items { length items.old ≡ length places.now * width }
        ensures { items.new ≡ scattered self.part self.seam width places.now own.now items.old }
    {
        let mut count = 0;
        for (i, place) in places.iter().enumerate() {
            if self.holds(*place) {
                copy_item(width, own, count, items, i);
                count += 1;
            }
        }
    }

    fn holds_all(self, places: &[u32]) -> bool
        ensures { result ≡ list_all (λ p. lies_in self.part self.seam p) places.now }
    {
        places.iter().all(|&place| self.holds(place))
    }

    // Where the part's places begin, if they stand side by side at their end of the round: in front for the first part, behind for the second.
    fn stretch(self, places: &[u32], count: usize) -> Option<usize>
        requires { count ≤ length places.now }
        ensures { IfSome result (λ from. (from + count ≤ length places.now) × (list_all (λ p. lies_in self.part self.seam p) (take count (drop from places.now)) ≡ true)) }
    {
        let from = match self.part {
            Part::First => 0,
            Part::Second => places.len() - count,
        };
        self.holds_all(&places[from..from + count]).then_some(from)
    }

    // Fills keys and bytes at the part's places, by one round at most. Where these stand side by side, as rising ones do, it works in the
    // caller's buffers; else the part's keys, at most 13, lie in an array, and its payloads in staging, as calls never allocate.
    // This and `put` are the two directions of a round: places, keys and bytes come as `Store` takes them, and the clauses differ.
    #[tactic(auto, using(crate::proofs::Shares::scattered_none))]
    pub(crate) fn fetch<S: Store>(
        self,
        store: &mut S,
        places: &[u32],
        keys: &mut [u32],
        bytes: &mut [u8],
        staging: &mut [u8],
    )
        requires share { Shares (S.Store.state store.old) self.part self.seam places.now (length keys.old) (length bytes.old) }
        requires room { length staging.old ≡ 13 * (S.Store.state store.old).width }
        ensures state { S.Store.state store.new ≡ ran (S.Store.state store.old) (fetch_of self.part self.seam (S.Store.state store.old) places.now) }
        ensures keys { keys.new ≡ scattered self.part self.seam 1 places.now (keys_at (S.Store.state store.old).slots (places_in self.part self.seam places.now)) keys.old }
        ensures bytes { bytes.new ≡ scattered self.part self.seam (S.Store.state store.old).width places.now (bytes_at (S.Store.state store.old).slots (places_in self.part self.seam places.now)) bytes.old }
    {
        let own = self.pick(places);
        if own.is_empty() {
            return;
        }
        let width = store.width();
        if let Some(from) = self.stretch(places, own.len()) {
            let to = from + own.len();
            let _ = store.fetch(
                &own,
                &mut keys[from..to],
                &mut bytes[from * width..to * width],
            );
        } else {
            let own_keys = &mut [0; 13][..own.len()];
            let own_bytes = &mut staging[..own.len() * width];
            let _ = store.fetch(&own, own_keys, own_bytes);
            self.scatter(places, 1, own_keys, keys);
            self.scatter(places, width, own_bytes, bytes);
        }
    }

    // Puts what of keys and bytes belongs to the part, by one round at most; where all of it does, just as it lies.
    #[tactic(auto, using(crate::proofs::Shares::items_all))]
    pub(crate) fn put<S: Store>(
        self,
        store: &mut S,
        places: &[u32],
        keys: &[u32],
        bytes: &[u8],
        staging: &mut [u8],
    )
        requires share { Shares (S.Store.state store.old) self.part self.seam places.now (length keys.now) (length bytes.now) }
        requires room { length staging.old ≡ 13 * (S.Store.state store.old).width }
        ensures { S.Store.state store.new ≡ ran (S.Store.state store.old) (put_of self.part self.seam (S.Store.state store.old) places.now keys.now bytes.now) }
    {
        let own = self.pick(places);
        if own.len() == places.len() {
            let _ = store.put(&own, keys, bytes);
        } else if !own.is_empty() {
            let width = store.width();
            let own_keys = &mut [0; 13][..own.len()];
            let own_bytes = &mut staging[..own.len() * width];
            self.gather(places, 1, keys, own_keys);
            self.gather(places, width, bytes, own_bytes);
            let _ = store.put(&own, own_keys, own_bytes);
        }
    }
}

// Copies item i of one list over item j of another.
fn copy_item<T: Copy>(width: usize, from: &[T], i: usize, to: &mut [T], j: usize)
    requires from { i * width + width ≤ length from.now }
    requires to { j * width + width ≤ length to.old }
    ensures front { take (j * width + width) to.new ≡ take (j * width) to.old ++ take width (drop (i * width) from.now) }
    ensures back { drop (j * width + width) to.new ≡ drop (j * width + width) to.old }
{
    let item = &from[i * width..i * width + width];
    to[j * width..j * width + width].copy_from_slice(item);
}
