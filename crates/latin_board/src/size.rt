//! The widths that grids have.

ghost use Rattle.std.specs.Prelude.{◌≡◌, ℕ, ◌≤◌};
ghost use Rattle.std.specs.Option.{SomeIff};

use std::marker::Model;

/// The width of a puzzle's grid: a number from 3 to 9, and contracts see just that number.
#[derive(Clone, Copy, PartialEq, Eq, Debug)]
pub struct Size {
    width: u8,
}

impl Model for Size {
    ghost Value = { ℕ };

    ghost view = { λ s. s.width };

    ghost invariant = { λ s. (3 ≤ s.width) × (s.width ≤ 9) };

    ghost inverse = { λ n. record { width = n } };
}

impl Size {
    /// The size of this width, or `None` where the width isn't from 3 to 9.
    pub fn new(width: u8) -> Option<Size>
        ensures { SomeIff result ((3 ≤ width) × (width ≤ 9)) width }
    {
        if 3 <= width && width <= 9 {
            Some(Size { width })
        } else {
            None
        }
    }

    /// The width.
    pub fn get(self) -> u8
        ensures value { result ≡ self }
        ensures smallest { 3 ≤ result }
        ensures largest { result ≤ 9 }
    {
        self.width
    }
}
