//! Steps of a chain as they are told.

use crate::writing::Line;
use named_steps::Reason;
use number_sets::NumberSet;

/// A square, and the numbers that are struck in it.
#[derive(Clone, Copy, Debug)]
pub struct Strike {
    pub cell: u8,
    /// The numbers that are struck.
    pub values: NumberSet,
    /// Where a clue strikes: for each of these numbers, at its own index, the counts of towers that the clue's line shows with it there.
    pub shows: Option<[NumberSet; 10]>,
}

/// A square that a sentence names as known, and the numbers that are left of it before its step.
#[derive(Clone, Copy, Debug)]
pub struct KnownSquare {
    pub cell: u8,
    pub numbers: NumberSet,
}

/// A square of a clue's line of which a sentence tells whether a tall tower is there.
#[derive(Clone, Copy, PartialEq, Eq, Debug)]
pub struct TowerSquare {
    pub cell: u8,
    /// The tower.
    pub number: u8,
    pub place: TowerPlace,
    /// The towers that would be seen for that.
    pub seen: Seen,
}

/// Whether a tall tower is in a square.
#[derive(Clone, Copy, PartialEq, Eq, Debug)]
pub enum TowerPlace {
    /// It is.
    There,
    /// It is not.
    Elsewhere,
    /// It is there or in another of the told squares.
    Only,
    /// If it is in one of the told squares, fewer towers would be seen than the clue says, and otherwise more.
    Either,
}

/// The towers that would be seen, beside a clue.
#[derive(Clone, Copy, PartialEq, Eq, Debug)]
pub enum Seen {
    Fewer,
    More,
    /// Fewer in one case and more in the other, or it isn't told.
    Open,
}

impl Seen {
    /// This, or the other if this is open.
    pub(crate) fn or(self, other: Seen) -> Seen {
        match self {
            Seen::Open => other,
            _ => self,
        }
    }
}

/// The bound that is told of the other end of a sign.
#[derive(Clone, Copy, PartialEq, Eq, Debug)]
pub enum SignEnd {
    /// The least number that is left of the lesser square.
    AtLeast(u8),
    /// The greatest that is left of the greater one.
    AtMost(u8),
}

impl SignEnd {
    /// Its number.
    pub(crate) fn number(self) -> u8 {
        match self {
            SignEnd::AtLeast(least) => least,
            SignEnd::AtMost(most) => most,
        }
    }

    /// The one of two that says less.
    pub(crate) fn or_weaker(self, other: SignEnd) -> SignEnd {
        match (self, other) {
            (SignEnd::AtLeast(least), SignEnd::AtLeast(less)) if less < least => other,
            (SignEnd::AtMost(most), SignEnd::AtMost(more)) if more > most => other,
            _ => self,
        }
    }

    /// The numbers that this leaves none of at the sign's own end.
    pub(crate) fn beyond(self) -> NumberSet {
        let all = NumberSet::up_to(9);
        match self {
            SignEnd::AtLeast(least) if least <= 9 => NumberSet::up_to(least),
            SignEnd::AtMost(most) if 1 <= most && most <= 9 => all.difference(NumberSet::up_to(
                most - 1,
            )),
            _ => NumberSet::empty(),
        }
    }
}

/// Steps that are told as one: why they strike, what they strike in each square, and the sentence that says so.
#[derive(Debug, Drop)]
pub struct ToldStep {
    pub reason: Reason,
    pub strikes: Vec<Strike>,
    /// The bound that the sentence tells of the other end of a sign, if it tells one.
    pub end: Option<SignEnd>,
    /// Whether that end has this number alone.
    pub is_alone: bool,
    /// The squares that the sentence names as known, in reading order.
    pub known: Vec<KnownSquare>,
    /// The squares of which the sentence tells whether a tall tower is there, in its order.
    pub towers: Vec<TowerSquare>,
    pub text: Vec<Line>,
}
