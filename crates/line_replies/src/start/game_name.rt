//! The name of a game.

/// A game that can be played.
#[derive(Clone, Copy, Debug, PartialEq, Eq)]
pub enum GameName {
    Towers,
    Unequal,
}
