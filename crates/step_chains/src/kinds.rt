//! Kinds of steps, and which of them lead on to what is sought.
//! Nothing here ensures anything: `short_chain` follows what comes of it step by step, and tells it only where it is a chain.
use named_steps::Grade;

/// The end to which rounds are to lead.
#[derive(Clone, Copy, Debug)]
pub(crate) enum Sought {
    /// A number of an empty square.
    NumberShown,
    /// A square that is left nothing.
    SquareEmptied,
}

/// Kinds of steps, the cheapest first.
#[derive(Clone, Copy, Debug)]
pub(crate) enum Kind {
    Peer,
    Place,
    Given,
    Bound,
    Sign,
    Stand,
    Set,
    Clue,
}

/// All kinds, the cheapest first. Groups of squares come before clues by what is left of their lines: where
/// too few numbers are left for some squares of a line, no order has a number there, and the group says why.
pub(crate) const KINDS: [Kind; 8] = [
    Kind::Peer,
    Kind::Place,
    Kind::Given,
    Kind::Bound,
    Kind::Sign,
    Kind::Stand,
    Kind::Set,
    Kind::Clue,
];

/// Whether steps of a kind may lead on, and are of the grade. A strike by rows and columns alone shows a
/// number at once, so on the way to one they strike nothing.
pub(crate) fn is_of_use(kind: Kind, sought: Sought, grade: Grade) -> bool {
    match (kind, sought, grade) {
        (Kind::Peer | Kind::Place, Sought::NumberShown, _) => false,
        (Kind::Peer | Kind::Place | Kind::Given, _, _) => true,
        (Kind::Bound | Kind::Sign | Kind::Stand, _, Grade::Latin) => false,
        (Kind::Clue | Kind::Set, _, Grade::Latin | Grade::Easy) => false,
        _ => true,
    }
}

/// Whether the steps of a kind look at no candidates, so that there are none of them after their first round.
pub(crate) fn is_done(kind: Kind) -> bool {
    matches!(kind, Kind::Given | Kind::Bound)
}

/// Whether the steps of a kind take long to look for.
pub(crate) fn is_dear(kind: Kind) -> bool {
    matches!(kind, Kind::Clue | Kind::Set)
}
