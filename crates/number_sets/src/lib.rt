//! Sets of numbers below 16, as the bits of a `u16`: pencil marks, candidates of a square, counts of towers.
//!
//! A set is copied as its bits are, and each call is a few instructions of the processor.
//!
//! ```
//! let all = NumberSet::up_to(3);                 // 1, 2 and 3
//! let rest = all.difference(NumberSet::one(2));  // 1 and 3
//! assert_eq!(rt; rest.has(2), false);
//! assert_eq!(rt; rest.least(), Some(1));
//! assert_eq!(rt; rest.single(), None);
//! ```
#![tactic(auto)]

mod number_set;

pub use number_set::NumberSet;
