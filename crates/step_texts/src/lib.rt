//! The sentences of named steps: why each strikes what it strikes, and what a chain of them shows or leaves nothing.
//!
//! `told_steps` goes over a chain once. Steps one after another that have the same reason and hold at once are one told step, with one
//! sentence; where a clue strikes, it says how many towers would be seen. `chain_lines` says all of it in lines of at most 100 characters,
//! and `refutation_lines` what refutes a board. A square is named by its row and column, both counted from 1, as r2c3. A line that goes on
//! with a sentence begins with three spaces.
//!
//! ```
//! let view = view_of(&grid);
//! let told = told_steps(alloc, &puzzle, &view, chain.steps.as_slice())?;
//! for line in chain_lines(alloc, &puzzle, &grid, &view, told.as_slice(), chain.goal)?.iter() {
//!     output.write_all(line.as_slice())?;
//! }
//! ```
#![tactic(auto)]

mod chain_texts;
mod clue_sentences;
mod dead_ends;
mod endings;
mod facts;
mod groups;
mod headings;
mod known_squares;
mod left;
mod looks;
mod named_squares;
mod names;
mod said_before;
mod sentences;
mod set_sentences;
mod showing;
mod step_names;
mod telling;
mod told;
mod told_laws;
mod writing;

pub use chain_texts::{chain_lines, refutation_lines};
pub use dead_ends::{DeadEnd, dead_end};
pub use endings::{end_name, goal_name};
pub use groups::told_groups;
pub use headings::step_name;
pub use step_names::StepNames;
pub use telling::told_steps;
pub use told::{KnownSquare, Seen, SignEnd, Strike, ToldStep, TowerPlace, TowerSquare};
pub use told_laws::laws;
pub use writing::{LINE, Line};
