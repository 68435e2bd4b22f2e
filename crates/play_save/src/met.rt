//! The records of a save file, met one by one.

ghost use Rattle.std.specs.Prelude.{◌≡◌, ℕ, Option, if◌then◌else◌, Some, None, [], OnOk, IfErr};
ghost use Rattle.std.specs.Result.{result_err};
ghost use Rattle.play_save.specs.declared.key.HeaderKey.TheVariants.{Count};
ghost use Rattle.play_save.specs.declared.key.WhichCount.TheVariants.{States, Position};
ghost use Rattle.play_save.specs.Keys.{same_header};
ghost use Rattle.play_save.specs.FirstFaults.{count_at, fault_unless, go_together, other_count, state_fault};
ghost use Rattle.play_save.specs.Inner.Headers.{count_in};

use crate::fault::LoadFault;
use crate::key::{HeaderKey, Key, StateKey, WhichCount, WhoseParams};
use byte_text::number;
use game_texts::{Game, Params};
use play_midend::{MOST_STATES, PlayFault, read_move};
use std::alloc::Global;

/// A record that may stand once.
#[derive(Clone, Copy, Debug)]
pub(crate) struct HeaderRecord<'a> {
    pub(crate) key: HeaderKey,
    pub(crate) value: &'a [u8],
}

/// A state record.
#[derive(Clone, Copy, Debug)]
pub(crate) struct StateRecord<'a> {
    pub(crate) key: StateKey,
    pub(crate) value: &'a [u8],
}

/// The records of a save file that were met so far.
#[derive(Drop, Debug)]
pub(crate) struct Met<'a> {
    // Each of its own key.
    headers: Vec<HeaderRecord<'a>>,
    // The state records are played once the puzzle is known, which may stand after them.
    pub(crate) states: Vec<StateRecord<'a>>,
    // Both counts, as their records read.
    count: Option<usize>,
    position: Option<usize>,
    ghost count_read: { count ≡ count_in headers.items States },
    ghost position_read: { position ≡ count_in headers.items Position },
}

// Whether two keys are the same.
fn same_header(one: HeaderKey, other: HeaderKey) -> bool
    ensures { result ≡ same_header one other }
{
    one == other
}

// A count once a header with this number was met, which may be the header of the count.
fn count_after(
    which: WhichCount,
    key: HeaderKey,
    number: Option<usize>,
    before: Option<usize>,
) -> Option<usize>
    ensures { result ≡ if same_header key (Count which) then number else before }
{
    if same_header(key, HeaderKey::Count(which)) {
        number
    } else {
        before
    }
}

// A refusal, unless the test holds.
fn refuse_unless(holds: bool, fault: LoadFault) -> Result<(), LoadFault>
    ensures { result_err result ≡ fault_unless holds fault }
{
    if holds { Ok(()) } else { Err(fault) }
}

// A count of states: a decimal number from 1 to `MOST_STATES`.
fn read_count(value: &[u8]) -> Option<usize>
    ensures { result ≡ count_at value.now }
{
    match number(value, MOST_STATES as u64) {
        Some(0) | None => None,
        Some(n) => Some(n as usize),
    }
}

// The position is no greater than the count of states.
fn go_together(which: WhichCount, count: usize, other: usize) -> bool
    ensures { result ≡ go_together which count other }
{
    match which {
        WhichCount::States => other <= count,
        WhichCount::Position => count <= other,
    }
}

// Of two counts, the other one.
fn other_count(which: WhichCount) -> WhichCount
    ensures { result ≡ other_count which }
{
    match which {
        WhichCount::States => WhichCount::Position,
        WhichCount::Position => WhichCount::States,
    }
}

// Hints and spent signs are refused before their turn to be played has come.
fn check_state(key: StateKey, value: &[u8]) -> Result<(), LoadFault>
    ensures { result_err result ≡ state_fault key value.now }
{
    match key {
        StateKey::RestartMove => Ok(()),
        StateKey::AnyMove | StateKey::SolveMove => match read_move(value) {
            Err(PlayFault::Unsupported) => Err(LoadFault::Unsupported),
            _ => Ok(()),
        },
    }
}

impl<'a> Met<'a> {
    ghost use Rattle.play_save.specs.declared.key.Key.TheVariants.{Header, State};
    ghost use Rattle.play_save.specs.SaveTexts.{saves_of};
    ghost use Rattle.play_save.specs.FirstFaults.{met, params_met, count_met, is_complete, count_fault, value_fault};
    ghost use Rattle.play_save.specs.Inner.Taking.{bytes_of, met_of, added, Taken};

    /// Nothing yet.
    pub(crate) fn new(alloc: Global) -> Met<'a>
        ensures { met_of result ≡ met [] }
    {
        Met {
            headers: Vec::new(alloc),
            states: Vec::new(alloc),
            count: None,
            position: None,
        }
    }

    /// The value that was met of a key.
    pub(crate) fn first(&self, key: HeaderKey) -> Option<&'a [u8]>
        ensures { bytes_of result ≡ (met_of self.now).first key }
    {
        for record in &self.headers {
            if same_header(record.key, key) {
                return Some(record.value);
            }
        }
        None
    }

    /// The parameters that were met.
    pub(crate) fn params<P: Game>(&self, whose: WhoseParams) -> Option<Params>
        ensures { result ≡ params_met (saves_of P.Rules P.Game.own) (met_of self.now) whose }
    {
        Params::read::<P>(self.first(HeaderKey::ParamsOf(whose))?).ok()
    }

    /// A count of states that was met.
    pub(crate) fn count(&self, which: WhichCount) -> Option<usize>
        ensures { result ≡ count_met (met_of self.now) which }
    {
        match which {
            WhichCount::States => self.count,
            WhichCount::Position => self.position,
        }
    }

    /// Whether both counts were met, and all states after the first.
    pub(crate) fn is_complete(&self) -> bool
        ensures { result ≡ is_complete (met_of self.now) }
    {
        match (self.count, self.position) {
            (Some(count), Some(_)) => count <= self.states.len() + 1,
            _ => false,
        }
    }

    /// Takes one more record, of the game `P`, or refuses it: `Repeated` before the fault of its value.
    pub(crate) fn take<P: Game>(&mut self, key: Key, value: &'a [u8]) -> Result<(), LoadFault>
        ensures { Taken (saves_of P.Rules P.Game.own)
            (met_of self.old) key value.now result (met_of self.new) }
    {
        match key {
            Key::Header(key) => self.take_header::<P>(key, value),
            Key::State(key) => self.take_state::<P>(key, value),
            Key::Other => Ok(()),
        }
    }

    // Takes a record that may stand once.
    fn take_header<P: Game>(&mut self, key: HeaderKey, value: &'a [u8]) -> Result<(), LoadFault>
        ensures { Taken (saves_of P.Rules P.Game.own)
            (met_of self.old) (Header key) value.now result (met_of self.new) }
    {
        if self.first(key).is_some() {
            return Err(LoadFault::Repeated);
        }
        let number = read_count(value);
        self.check_header::<P>(key, value, number)?;
        self.keep(key, value, number)
    }

    // Keeps the first value of a key, and the number that it reads as, where it is a count's.
    fn keep(
        &mut self,
        key: HeaderKey,
        value: &'a [u8],
        number: Option<usize>,
    ) -> Result<(), LoadFault>
        requires first { (met_of self.old).first key ≡ None }
        requires number { number ≡ count_at value.now }
        ensures ok { OnOk result (met_of self.new
            ≡ added (met_of self.old) (Header key) value.now) }
        ensures err { IfErr result (λ fault. fault ≡ LoadFault.OutOfMemory) }
    {
        self.headers.push(HeaderRecord { key, value })?;
        self.count = count_after(WhichCount::States, key, number, self.count);
        self.position = count_after(WhichCount::Position, key, number, self.position);
        Ok(())
    }

    // A value that is the first of its key, and the number that it reads as, where it is a count's.
    fn check_header<P: Game>(
        &self,
        key: HeaderKey,
        value: &[u8],
        number: Option<usize>,
    ) -> Result<(), LoadFault>
        requires { number ≡ count_at value.now }
        ensures { result_err result
            ≡ value_fault (saves_of P.Rules P.Game.own) (met_of self.now) key value.now }
    {
        match key {
            HeaderKey::SaveFile => Err(LoadFault::Repeated),
            HeaderKey::FormatVersion => refuse_unless(value == b"1".as_slice(), LoadFault::Version),
            HeaderKey::Title => {
                refuse_unless(value == P::name().as_bytes(), LoadFault::WrongGame)
            }
            HeaderKey::ParamsOf(_) => match Params::read::<P>(value) {
                Ok(_) => Ok(()),
                Err(_) => Err(LoadFault::BadParams),
            },
            HeaderKey::PrivateDesc => Err(LoadFault::Unsupported),
            HeaderKey::Count(which) => self.check_count(which, number),
            HeaderKey::Desc | HeaderKey::Kept(_) => Ok(()),
        }
    }

    // A count has to go together with the other one, where that was met.
    fn check_count(&self, which: WhichCount, number: Option<usize>) -> Result<(), LoadFault>
        ensures { result_err result
            ≡ count_fault which number (count_met (met_of self.now) (other_count which)) }
    {
        let Some(count) = number else {
            return Err(LoadFault::BadCount);
        };
        match self.count(other_count(which)) {
            Some(other) => refuse_unless(go_together(which, count, other), LoadFault::BadCount),
            None => Ok(()),
        }
    }

    // Takes a state record.
    fn take_state<P: Game>(&mut self, key: StateKey, value: &'a [u8]) -> Result<(), LoadFault>
        ensures { Taken (saves_of P.Rules P.Game.own)
            (met_of self.old) (State key) value.now result (met_of self.new) }
    {
        if self.count.is_none() || self.position.is_none() {
            return Err(LoadFault::EarlyState);
        }
        check_state(key, value)?;
        self.states.push(StateRecord { key, value })?;
        Ok(())
    }
}
