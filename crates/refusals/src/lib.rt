// What a call answers when it does not do what it was asked: a refusal by its name, and the number under which C gets it.
#![tactic(auto)]

ghost use Rattle.std.specs.Prelude.{◌≡◌};
ghost use Rattle.refusals.specs.Refusal.{number, number_of};

use std::error::Error;
use std::fmt;

// The reasons for which a call is refused, under their numbers.
#[derive(Clone, Copy, Debug, PartialEq, Eq, PartialOrd, Ord, Hash)]
pub enum Refusal {
    Size = 1,
    Room = 2,
    Place = 3,
    Done = 4,
    NotReady = 5,
    Unknown = 6,
    NotPermitted = 7,
    Range = 8,
    Rows = 9,
    Order = 13,
}

impl fmt::Display for Refusal {
    fn fmt<W: fmt::Write>(&self, f: &mut fmt::Formatter<W>) -> fmt::Result {
        f.write_str(match self {
            Refusal::Size => "the picture's size is out of range",
            Refusal::Room => "a stride, plane, map, list or count breaks the rules",
            Refusal::Place => "the macroblock lies outside the picture",
            Refusal::Done => "the macroblock is done",
            Refusal::NotReady => "a neighbour that the record reads is not done",
            Refusal::Unknown => "a kind or mode is unknown, or an unused mode is not 0",
            Refusal::NotPermitted => "a mode is not permitted where it stands",
            Refusal::Range => "a number or a block's transform is out of range",
            Refusal::Rows =>
                "a row count disagrees with the done map, or the counts or the list have a wrong length",
            Refusal::Order =>
                "the list of an order has a wrong length or names an address outside the picture",
        })
    }
}

impl Error for Refusal {}

impl From<Refusal> for u32 {
    ghost from_gives = { λ r n. n ≡ number r };

    fn from(r: Refusal) -> u32 {
        r as u32
    }
}

// The answer that C gets: 0 for a call that does what it was asked, else the refusal's number.
pub fn number_of<T: Drop>(outcome: Result<T, Refusal>) -> u32
    ensures { result ≡ number_of outcome }
{
    match outcome {
        Ok(_) => 0,
        Err(refusal) => u32::from(refusal),
    }
}
