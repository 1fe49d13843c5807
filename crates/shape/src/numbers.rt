// The numbers of a rebuild: batches, seats and the keys of dummies.
ghost use Rattle.std.specs.Prelude.{◌≡◌, ◌<◌};
ghost use Rattle.shape.specs.Numbers.{batch_and_seat, dummy_key};

// The batch of a destination and its seat there.
pub fn seat(slots: u32, destination: u32) -> Option<(u32, u32)>
    ensures { result ≡ batch_and_seat slots destination }
{
    if destination >= slots {
        return None;
    }
    let size = slots.min(64);
    Some((destination / size, destination % size))
}

// Inner, since it asks that a level has such an index.
pub fn key_of_dummy(index: u32) -> u32
    requires { index < 65536 }
    ensures { result ≡ dummy_key index }
{
    65536 + index
}
