// Why a call is declined: a number and a meaning for each reason.
ghost use Rattle.std.specs.Prelude.{◌≡◌, Some};
ghost use Rattle.shape.specs.Refusals.{number_of, meaning_of, refusal_text};

use std::error::Error;
use std::fmt;

#[derive(Clone, Copy, PartialEq, Eq, Debug)]
pub enum Refusal {
    OutOfRange = 1,
    StoreUnfit = 2,
    IndexOrSupplyUnfit = 3,
    UnknownOperation = 4,
    UnknownAddress = 5,
    WrongByteLength = 6,
    TraceTooShort = 7,
    WrongTable = 8,
    WrongRound = 9,
    PlaceBeyondStore = 10,
    WrongListChange = 11,
    BeyondSupply = 12,
    UnreadableLine = 13,
    WrongTurn = 14,
    BuildsUsedUp = 15,
    NotOpened = 16,
    UnfitLetter = 17,
}

impl Refusal {
    // Number and meaning are what the rules give; `Display` is made of them.
    pub fn number(self) -> u32
        ensures { result ≡ number_of self }
    {
        self as u32
    }

    pub fn meaning(self) -> &'static str
        ensures { result.now ≡ meaning_of self }
    {
        match self {
            Refusal::OutOfRange => "L or W outside its range",
            Refusal::StoreUnfit => "store of another width, or with too few places",
            Refusal::IndexOrSupplyUnfit => "index or supply made for another L, or index not empty",
            Refusal::UnknownOperation => "operation neither 0 nor 1",
            Refusal::UnknownAddress => "address not below the number of blocks",
            Refusal::WrongByteLength => "byte run of the wrong length",
            Refusal::TraceTooShort => "trace shorter than the entries of the call",
            Refusal::WrongTable =>
                "table of the wrong length, or no permutation, or builds out of range",
            Refusal::WrongRound => "no place, more than 13, or lengths that do not match",
            Refusal::PlaceBeyondStore => "place beyond the store",
            Refusal::WrongListChange => "no such list, or an address that it cannot take",
            Refusal::BeyondSupply => "build, index or slot beyond the supply",
            Refusal::UnreadableLine => "line unreadable",
            Refusal::WrongTurn => "turn of another number than the client's",
            Refusal::BuildsUsedUp => "no build left in the supply",
            Refusal::NotOpened => "client opened with a refusal",
            Refusal::UnfitLetter => "letter does not fit the state of the session",
        }
    }
}

impl fmt::Display for Refusal {
    ghost output = { λ refusal. Some (refusal_text refusal) };

    fn fmt<W: fmt::Write>(&self, f: &mut fmt::Formatter<W>) -> fmt::Result {
        write!(f, "refused by number {}: {}", self.number(), self.meaning())
    }
}

impl Error for Refusal {}
