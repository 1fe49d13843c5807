// Turns: what may be asked of a client next. A turn is spent by the call that accepts it, and comes back from a call that declines.
ghost use Rattle.std.specs.Prelude.{◌≡◌, ℕ, Bool, true};

use std::marker::PhantomData;

// When a turn comes, and so which numbers it can have.
pub trait Phase {
    ghost has: { ℕ → Bool };
}

pub struct Turn<P: Phase> {
    pub(crate) number: u32,
    phase: PhantomData<P>,
    ghost fits: { P.has number ≡ true },
}

// Before the load.
pub type Unloaded = Turn<BeforeLoad>;

// Between accesses: the client can be accessed.
pub type Resting = Turn<BetweenAccesses>;

// After an access: a rebuild is due.
pub type Due = Turn<AfterAccess>;

pub enum BeforeLoad {}

pub enum BetweenAccesses {}

pub enum AfterAccess {}

impl Phase for BeforeLoad {
    ghost use Rattle.std.specs.Prelude.{◌==◌};

    ghost has = { λ number. number == 0 };
}

impl Phase for BetweenAccesses {
    ghost use Rattle.std.specs.Prelude.{◌==◌, ◌%◌};

    ghost has = { λ number. number % 2 == 1 };
}

impl Phase for AfterAccess {
    ghost use Rattle.std.specs.Prelude.{◌==◌, ◌&&◌, ◌%◌, nat_le};

    ghost has = { λ number. number % 2 == 0 && nat_le 2 number };
}

impl<P: Phase> Turn<P> {
    // Ends the turn: nothing more is asked with it.
    pub fn end(self) -> u32
        ensures { result ≡ self.number }
    {
        let Turn { number, phase: _ } = self;
        number
    }
}

impl Unloaded {
    ghost use Rattle.std.specs.Prelude.{◌+◌};

    pub(crate) fn first() -> Unloaded
        ensures { result.number ≡ 0 }
    {
        Turn {
            number: 0,
            phase: PhantomData,
        }
    }

    // The turn that a load gives for the one that it spends.
    pub(crate) fn loaded(self) -> Resting
        ensures { result.number ≡ self.number + 1 }
    {
        Turn {
            number: self.end() + 1,
            phase: PhantomData,
        }
    }
}
