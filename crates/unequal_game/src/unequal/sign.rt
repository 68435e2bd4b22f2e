//! The signs between neighbouring squares.

ghost use Rattle.std.specs.Prelude.{◌≡◌};
ghost use Rattle.unequal_game.specs.Inner.UnequalItems.{turned_sign};
ghost use Rattle.unequal_game.specs.Unequal.{holds_sign, numbered_sign, sign_number, sign_of};

use std::cmp::Ordering;

/// The sign between two neighbouring squares, of which the left or the upper one is the first.
#[derive(Clone, Copy, PartialEq, Eq, Debug)]
pub(super) enum Sign {
    Absent,
    FirstGreater,
    SecondGreater,
}

impl Sign {
    /// The sign between two numbers.
    pub(super) fn between(first: u8, second: u8) -> Sign
        ensures { result ≡ sign_of first second }
    {
        match first.cmp(&second) {
            Ordering::Greater => Sign::FirstGreater,
            Ordering::Less => Sign::SecondGreater,
            Ordering::Equal => Sign::Absent,
        }
    }

    /// Whether two numbers are as the sign between them says.
    pub(super) fn holds(self, first: u8, second: u8) -> bool
        ensures { result ≡ holds_sign self first second }
    {
        match self {
            Sign::Absent => true,
            Sign::FirstGreater => first > second,
            Sign::SecondGreater => first < second,
        }
    }

    /// The number by which an item says the sign.
    pub(super) fn number(self) -> u8
        ensures { result ≡ sign_number self }
    {
        match self {
            Sign::Absent => 0,
            Sign::FirstGreater => 1,
            Sign::SecondGreater => 2,
        }
    }

    /// The sign of a number.
    pub(super) fn numbered(number: u8) -> Sign
        ensures { result ≡ numbered_sign number }
    {
        if number == 0 {
            Sign::Absent
        } else if number == 1 {
            Sign::FirstGreater
        } else {
            Sign::SecondGreater
        }
    }

    /// The sign that says the opposite.
    pub(super) fn turned(self) -> Sign
        ensures { result ≡ turned_sign self }
    {
        match self {
            Sign::Absent => Sign::Absent,
            Sign::FirstGreater => Sign::SecondGreater,
            Sign::SecondGreater => Sign::FirstGreater,
        }
    }
}
