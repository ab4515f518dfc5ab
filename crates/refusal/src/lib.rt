// Why a call or a file is refused (01, "Refused for what was handed in" and "Refused for where the record is"; 02, changes 5, 6 and 8): a case for each of the papers' numbers. All that refuse answer a Result with it; the papers' number is given where C or a program asks for it.
#![tactic(auto)]

ghost use Rattle.std.specs.Prelude.{◌≡◌};
ghost use Rattle.refusal.specs.Refusals.{number, code};

use std::error::Error;
use std::fmt;

#[derive(Clone, Copy, Debug, PartialEq, Eq, Hash)]
pub enum Refusal {
    /// n above 1,024
    TooManyGateways = 1,
    /// T below 2 or above 16
    LimitOutOfRange = 2,
    /// a link end not below n
    EndOutOfRange = 3,
    /// both ends equal
    EndsEqual = 4,
    /// a new order not n numbers long
    WrongOrderLength = 5,
    /// an order that repeats a number or has one not below n
    NotAnOrder = 6,
    /// the file doesn't begin with PLT
    NotAPlantFile = 7,
    /// the file's version is neither 1 nor 2
    UnknownVersion = 8,
    /// the file has fewer than 10 bytes, or not the length its header gives
    WrongFileLength = 9,
    /// a lent list too short
    ListTooShort = 10,
    /// the number is outside the leader list, doesn't lead itself there, or has no members
    NotALeader = 11,
    /// the file's m is above 8,192
    TooManyLinks = 12,
    /// the link is there already
    AlreadyLinked = 20,
    /// m is 8,192, or the lent link list has no place for two more numbers
    NoPlaceForLink = 21,
    /// a link, an order or a limit after the first placing
    AfterFirstPlacing = 22,
    /// place when k = n
    AllPlaced = 24,
    /// the record is not sound
    NotSound = 26,
    /// the gateway is out of range, unplaced or kept
    OutOfRangeUnplacedOrKept = 30,
    /// a leader list under n entries or not a packing
    NotAGrouping = 31,
    /// a choke list under n bytes, a byte above 1, or a difference that is off
    NotTheDifference = 32,
    /// a limit that is none of 2 to 16, in a file a limit byte of 1 or above 16
    LimitNotAllowed = 33,
}

impl Refusal {
    /// The number that the papers give it: 1 to 33.
    pub fn number(self) -> u32
        ensures { result ≡ number self }
    {
        self as u32
    }
}

/// 0 for an answer that is Ok, else the refusal's number.
pub fn code<T: Drop>(answer: Result<T, Refusal>) -> u32
    ensures { result ≡ code answer }
{
    match answer {
        Ok(_) => 0,
        Err(refusal) => refusal.number(),
    }
}

impl fmt::Display for Refusal {
    fn fmt<W: fmt::Write>(&self, f: &mut fmt::Formatter<W>) -> fmt::Result {
        f.write_str(match self {
            Refusal::TooManyGateways => "more than 1,024 gateways",
            Refusal::LimitOutOfRange => "the limit is none of 2 to 16",
            Refusal::EndOutOfRange => "a link's end is no gateway",
            Refusal::EndsEqual => "both ends of a link are equal",
            Refusal::WrongOrderLength => "the order has not one number for each gateway",
            Refusal::NotAnOrder => "the order repeats a number or has one that is no gateway",
            Refusal::NotAPlantFile => "the file does not begin with PLT",
            Refusal::UnknownVersion => "the file's version is neither 1 nor 2",
            Refusal::WrongFileLength => "the file has not the length that its header gives",
            Refusal::ListTooShort => "a lent list is too short",
            Refusal::NotALeader => "no leader with members",
            Refusal::TooManyLinks => "more than 8,192 links",
            Refusal::AlreadyLinked => "the link is there already",
            Refusal::NoPlaceForLink => "no place for one more link",
            Refusal::AfterFirstPlacing => "a gateway is placed already",
            Refusal::AllPlaced => "all gateways are placed",
            Refusal::NotSound => "the record is not sound",
            Refusal::OutOfRangeUnplacedOrKept => "the gateway is out of range, unplaced or kept",
            Refusal::NotAGrouping => "the leader list is no grouping",
            Refusal::NotTheDifference => "the choke list does not show that no more can be covered",
            Refusal::LimitNotAllowed => "a limit is none of 2 to 16",
        })
    }
}

impl Error for Refusal {}
