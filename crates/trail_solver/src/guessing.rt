//! Rules of thumb of the search: where to branch, when to look closer, which sets of a pairing to count. **No answer
//! rests on what is found here.** No clause says what it means: the clauses of these modules only keep places and sums within bounds. Each
//! finding is checked where it is used, or can only leave something undone:
//!
//! - A place to branch (`proposal` by `failures` and `place_counts`) is taken only where it is open. Otherwise `choice`
//!   takes the first open square.
//! - A set of lefts of a pairing (`matching`) strikes nothing before `crowds` has counted its rights again.
//! - Pairings that aren't looked at, since they lost nothing (`losses`) or the search seldom failed (`failures`), only take away less.
//! - A run that failed too often (`failures`) is left only where it has a limit, and then says nothing (`search`). The last run has none.

pub(crate) mod failures;
pub(crate) mod losses;
pub(crate) mod matching;
mod place_counts;
pub(crate) mod proposal;
