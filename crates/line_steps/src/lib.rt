//! Steps along the rows and columns of a grid: what each reason strikes, and what the reasons of a grade leave.
//!
//! A `Reason` is a kind of step and the place where it looks, and a `Grade` has some kinds of reasons. The
//! strikes of each from candidates are a definition of one line. Givens, rows, columns and groups of squares
//! strike alike in every game. A game of `Steps` says what its own reasons strike, its clues or signs, and
//! `settle` takes away all that the reasons of a grade strike, one after another, until they strike nothing
//! that is left. In whatever order that is done, the same is left. It ends earlier where a square is left
//! nothing.
//!
//! A search narrows by the same loop over the rows and columns: by `narrow_lines` and `narrow_lines_from` where the game has clues or
//! signs (`LinePass`), and by `narrow_by_givens` where it has none. No game is known here.
#![tactic(auto)]

mod grade;
mod lines;
mod reason;
mod steps;

pub use grade::Grade;
pub use lines::by_givens::narrow_by_givens;
pub use lines::denied_given::deny_given;
pub use lines::line_pass::LinePass;
pub use lines::line_passes::{strike_row, take_at};
pub use lines::settling::{narrow_lines, narrow_lines_from};
pub use lines::single_sets::{if_single, standing_set};
pub use lines::striking::strike;
pub use lines::views::{LINE, View, front_place, view_cell};
pub use reason::Reason;
pub use steps::Steps;
pub use steps::latin_strikes::{alone_values, has_no_other_place};
pub use steps::settling::settle;
