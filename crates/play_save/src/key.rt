//! The subject of a record, by its key.

ghost use Rattle.std.specs.Prelude.{◌≡◌, ◌≤◌, length, bytes_eq};
ghost use Rattle.std.specs.List.{find};
ghost use Rattle.play_save.specs.Keys.{key_name, key_of, keys};

/// The content of a state record: the key says how the state was reached.
#[derive(Clone, Copy, Debug, PartialEq, Eq)]
pub(crate) enum StateKey {
    /// `MOVE`: the text of any move but a restart.
    AnyMove,
    /// `SOLVE`: the text of a move that fills in a solution.
    SolveMove,
    /// `RESTART`: a description of the puzzle.
    RestartMove,
}

/// Which game the parameters are of.
#[derive(Clone, Copy, Debug, PartialEq, Eq)]
pub(crate) enum WhoseParams {
    /// `PARAMS`, of the next game.
    Next,
    /// `CPARAMS`, of the current game.
    Current,
}

/// A key whose value is kept as it is.
#[derive(Clone, Copy, Debug, PartialEq, Eq)]
pub(crate) enum KeptKey {
    /// `SEED`, of the usual program's generator.
    Seed,
    /// `AUXINFO`, what the usual program's solver needs besides.
    AuxInfo,
    /// `UI`, of the usual program's user interface.
    Ui,
    /// `TIME`, that was played.
    Time,
}

/// Which count of states.
#[derive(Clone, Copy, Debug, PartialEq, Eq)]
pub(crate) enum WhichCount {
    /// `NSTATES`, how many there are.
    States,
    /// `STATEPOS`, the number of the one that is shown.
    Position,
}

/// The key of a record that may stand once.
#[derive(Clone, Copy, Debug, PartialEq, Eq)]
pub(crate) enum HeaderKey {
    /// `SAVEFILE`, which names the format.
    SaveFile,
    /// `VERSION`, of the format.
    FormatVersion,
    /// `GAME`, the game's name.
    Title,
    /// The parameters of a game.
    ParamsOf(WhoseParams),
    /// `DESC`, the description of the puzzle.
    Desc,
    /// `PRIVDESC`, a private description.
    PrivateDesc,
    /// One of those whose value is kept as it is.
    Kept(KeptKey),
    /// A count of states.
    Count(WhichCount),
}

/// The subject of a record.
#[derive(Clone, Copy, Debug, PartialEq, Eq)]
pub(crate) enum Key {
    /// A record that may stand once.
    Header(HeaderKey),
    /// A state after the first.
    State(StateKey),
    /// Any other.
    Other,
}

/// The keys that have a name, in the order in which a save has their records.
pub(crate) const KEYS: [Key; 16] = [
    Key::Header(HeaderKey::SaveFile),
    Key::Header(HeaderKey::FormatVersion),
    Key::Header(HeaderKey::Title),
    Key::Header(HeaderKey::ParamsOf(WhoseParams::Next)),
    Key::Header(HeaderKey::ParamsOf(WhoseParams::Current)),
    Key::Header(HeaderKey::Kept(KeptKey::Seed)),
    Key::Header(HeaderKey::Desc),
    Key::Header(HeaderKey::PrivateDesc),
    Key::Header(HeaderKey::Kept(KeptKey::AuxInfo)),
    Key::Header(HeaderKey::Kept(KeptKey::Ui)),
    Key::Header(HeaderKey::Kept(KeptKey::Time)),
    Key::Header(HeaderKey::Count(WhichCount::States)),
    Key::Header(HeaderKey::Count(WhichCount::Position)),
    Key::State(StateKey::AnyMove),
    Key::State(StateKey::SolveMove),
    Key::State(StateKey::RestartMove),
];

impl Key {
    /// The key that has this name.
    #[tactic(auto, unfolding(crate::specs::Keys::key_of))]
    pub(crate) fn of(name: &[u8]) -> Key
        ensures { result ≡ key_of name.now }
    {
        Key::named(name).unwrap_or(Key::Other)
    }

    fn named(name: &[u8]) -> Option<Key>
        ensures { result ≡ find (λ k. bytes_eq name.now (key_name k)) keys }
    {
        KEYS.iter().copied().find(|key| name == key.name())
    }

    /// The key's name, at most eight bytes.
    pub(crate) fn name(self) -> &'static [u8]
        ensures name { result.now ≡ key_name self }
        ensures short { length result.now ≤ 8 }
    {
        match self {
            Key::Header(HeaderKey::SaveFile) => b"SAVEFILE",
            Key::Header(HeaderKey::FormatVersion) => b"VERSION",
            Key::Header(HeaderKey::Title) => b"GAME",
            Key::Header(HeaderKey::ParamsOf(WhoseParams::Next)) => b"PARAMS",
            Key::Header(HeaderKey::ParamsOf(WhoseParams::Current)) => b"CPARAMS",
            Key::Header(HeaderKey::Kept(KeptKey::Seed)) => b"SEED",
            Key::Header(HeaderKey::Desc) => b"DESC",
            Key::Header(HeaderKey::PrivateDesc) => b"PRIVDESC",
            Key::Header(HeaderKey::Kept(KeptKey::AuxInfo)) => b"AUXINFO",
            Key::Header(HeaderKey::Kept(KeptKey::Ui)) => b"UI",
            Key::Header(HeaderKey::Kept(KeptKey::Time)) => b"TIME",
            Key::Header(HeaderKey::Count(WhichCount::States)) => b"NSTATES",
            Key::Header(HeaderKey::Count(WhichCount::Position)) => b"STATEPOS",
            Key::State(StateKey::AnyMove) => b"MOVE",
            Key::State(StateKey::SolveMove) => b"SOLVE",
            Key::State(StateKey::RestartMove) => b"RESTART",
            Key::Other => b"",
        }
    }
}
