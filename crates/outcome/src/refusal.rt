// Why a call is refused: the rows of document 01's table by their causes, in its order.
ghost use Rattle.std.specs.Prelude.{◌≡◌};
ghost use Rattle.outcome.specs.Refusals.{number_of};

use std::error::Error;
use std::fmt;

#[derive(Clone, Copy, Debug, PartialEq, Eq, Hash)]
pub enum Refusal {
    StoreTooShort,
    SizesOutOfRange,
    NotSound,
    NoConnection,
    NowTooLate,
    TooManyParents,
    AnswerTooShort,
    NoPlace,
    // Of the event program alone.
    UnreadableLine,
    // Of payloads alone, which take no store (wire::Refusal).
    BadPayload,
    NotAListing,
    ListingNotSound,
    WrongHashes,
}

// Its number in the table: its place there. (By the discriminant: the causes stand in the table's order, whose numbers begin at 1.)
impl From<Refusal> for u64 {
    ghost use Rattle.std.specs.Prelude.{◌≡◌};
    ghost use Rattle.outcome.specs.Refusals.{number_of};

    ghost from_gives = { λ refusal number. number ≡ number_of refusal };

    fn from(refusal: Refusal) -> u64 {
        refusal as u64 + 1
    }
}

impl fmt::Display for Refusal {
    fn fmt<W: fmt::Write>(&self, f: &mut fmt::Formatter<W>) -> fmt::Result {
        f.write_str(match self {
            Refusal::StoreTooShort => "the store is shorter than l and q need",
            Refusal::SizesOutOfRange => "l is not 1 to 100,000, or q is not 1 to 4,096",
            Refusal::NotSound => "the bytes of the store write no sound state",
            Refusal::NoConnection => "0 is no connection",
            Refusal::NowTooLate => "now is above 2^64 - 60,001",
            Refusal::TooManyParents => "more than 100 parents are given",
            Refusal::AnswerTooShort => "the answer is shorter than its need",
            Refusal::NoPlace => "all package places are held",
            Refusal::UnreadableLine => "the line is of no listed form",
            Refusal::BadPayload => "no inventory payload, or items that make none",
            Refusal::NotAListing => "the text is no listing",
            Refusal::ListingNotSound => "the state that the text lists is not sound",
            Refusal::WrongHashes => "more than 1,024 hashes, or not in strictly ascending order",
        })
    }
}

impl Error for Refusal {}
