//! Orders in which items are tried.

/// In which order the items are tried.
#[derive(Clone, Copy, Debug, PartialEq, Eq)]
pub enum Trial {
    /// The givens alone, and all clues stay.
    GivensAlone,
    /// The givens, and then the clues.
    GivensFirst,
    /// Half of the signs, then the givens, and then the other signs.
    HalfFirst,
}
