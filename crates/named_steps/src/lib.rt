//! Named steps: the least grade by which a puzzle follows, goals of chains of steps, and the laws of steps.
//!
//! A `Reason` is a kind of step and the place where it looks, a `Grade` has some kinds of reasons, and `settle` takes away all that
//! they strike: these are of `line_steps`. A puzzle follows by a grade where its solution alone is left of all pairs (`follows`,
//! `solution_by`), and `grade_of` is the least such grade. Nothing here takes memory from the heap.
//!
//! ```
//! match grade_of(&puzzle) {
//!     Some(Grade::Latin) => println!(rt; "rows and columns are enough")?,
//!     Some(grade) => println!(rt; "{grade:?}")?,
//!     None => println!(rt; "it doesn't follow by these steps")?,
//! }
//! ```
#![tactic(auto)]

mod following;
mod goal;
mod step_laws;

pub use following::{follows, grade_of, solution_by};
pub use goal::Goal;
pub use line_steps::{Grade, Reason, Steps, settle, strike};
pub use step_laws::laws;
