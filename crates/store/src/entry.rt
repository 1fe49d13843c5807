// What the host sees of one place asked.
ghost use Rattle.std.specs.Prelude.{◌≡◌};

use std::fmt;

#[derive(Clone, Copy, PartialEq, Eq, Default, Debug)]
pub struct Entry {
    pub begins: bool,
    pub write: bool,
    pub place: u32,
}

impl Entry {
    ghost use Rattle.store.specs.Requests.{mark};

    // The number by which a trail learns of it.
    pub(crate) fn mark(self) -> u64
        ensures { result ≡ mark self }
    {
        4 * u64::from(self.place) + 2 * u64::from(self.begins) + u64::from(self.write)
    }
}

impl fmt::Display for Entry {
    ghost use Rattle.std.specs.Prelude.{Some};
    ghost use Rattle.store.specs.Requests.{entry_text};

    ghost output = { λ entry. Some (entry_text entry) };

    fn fmt<W: fmt::Write>(&self, f: &mut fmt::Formatter<W>) -> fmt::Result {
        let begins = u8::from(self.begins);
        let write = u8::from(self.write);
        write!(f, "{begins},{write},{}", self.place)
    }
}
