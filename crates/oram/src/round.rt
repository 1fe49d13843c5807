// Inner: rounds of one place, each with its entry.
ghost use Rattle.std.specs.Prelude.{◌≡◌, ◌<◌, true, [], ◌∷◌, length};
ghost use Rattle.store.specs.Requests.{ran, entry_of};
ghost use Rattle.oram.specs.Loading.{put_request};

use store::entry::Entry;
use store::store::Store;

// Puts one slot, and notes its entry.
pub(crate) fn put_slot<S: Store>(
    store: &mut S,
    place: u32,
    key: u32,
    payload: &[u8],
    entry: &mut Entry,
)
    requires inside { place < length (S.state store.old).slots }
    requires wide { length payload.now ≡ (S.state store.old).width }
    ensures store { S.state store.new ≡ ran (S.state store.old) (put_request place (record { key = key; bytes = payload.now }) ∷ []) }
    ensures entry { entry.new ≡ entry_of true true place }
{
    store.put(&[place], &[key], payload).unwrap();
    *entry = Entry {
        begins: true,
        write: true,
        place,
    };
}
