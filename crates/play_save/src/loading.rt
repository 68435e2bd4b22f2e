//! Loading: a save text is read record by record, and its session is played.

ghost use Rattle.std.specs.Prelude.{◌≡◌, ◌+◌, ◌-◌, ◌<◌, ◌≤◌, Some, None, Ok, Err, ok_or, IfOk, IfErr, length, map, option_map, vec_items};
ghost use Rattle.std.specs.Result.{result_ok};
ghost use Rattle.byte_text.specs.Reading.{Gives, GivesUnless};
ghost use Rattle.play_midend.specs.declared.session.TheConstants.{MOST_STATES};
ghost use Rattle.play_midend.specs.Histories.{History, started, at_position};
ghost use Rattle.play_save.specs.Records.{record_at};
ghost use Rattle.play_save.specs.SaveTexts.{saves_of, SaveText};
ghost use Rattle.play_save.specs.FirstFaults.{behind_head, records_of, met_in, state_move, extras_met, state_played};
ghost use Rattle.play_save.specs.FirstFaults.{states_played, session_of, load_at};
ghost use Rattle.play_save.specs.Inner.Taking.{IsPlayable, bytes_of, met_of, state_of};

use crate::fault::LoadFault;
use crate::key::{HeaderKey, KeptKey, Key, StateKey, WhichCount, WhoseParams};
use crate::met::{Met, StateRecord};
use crate::record::next_record;
use crate::save_format::{COLLECTION, MOST_BYTES, is_solve};
use game_texts::{Game, Params};
use latin_board::Size;
use play_midend::{Extras, Move, PlayFault, Session, read_move};
use std::alloc::{AllocError, Global};

// The bytes after the first record, which has to name the format.
fn behind_head(bytes: &[u8]) -> Result<&[u8], LoadFault>
    ensures { Gives (λ rest. rest.now) result (behind_head (record_at bytes.now)) }
{
    match next_record(bytes) {
        Ok(Some((record, rest))) => {
            if record.key == b"SAVEFILE".as_slice() && record.value == COLLECTION {
                Ok(rest)
            } else {
                Err(LoadFault::NotASave)
            }
        }
        Ok(None) | Err(_) => Err(LoadFault::NotASave),
    }
}

// Takes records in turn, up to the last that is needed. The rest is ignored.
fn find<'a, P: Game>(alloc: Global, bytes: &'a [u8]) -> Result<Met<'a>, LoadFault>
    ensures given { GivesUnless LoadFault.OutOfMemory met_of result
        (met_in (saves_of P.Rules P.Game.own) (records_of bytes.now)) }
    ensures playable { IfOk result (λ met. IsPlayable (met_of met)) }
{
    let mut met = Met::new(alloc);
    let mut rest = bytes;
    while !met.is_complete() {
        let (record, after) = next_record(rest)?.ok_or(LoadFault::Missing)?;
        met.take::<P>(Key::of(record.key), record.value)?;
        rest = after;
    }
    Ok(met)
}

// The bytes of a record, kept for the session.
fn kept(alloc: Global, bytes: Option<&[u8]>) -> Result<Option<Vec<u8>>, AllocError>
    ensures { IfOk result (λ kept. option_map vec_items kept ≡ bytes_of bytes.entry) }
{
    match bytes {
        Some(bytes) => Ok(Some(bytes.to_vec(alloc)?)),
        None => Ok(None),
    }
}

// The bytes that a session keeps, of the records that were met.
fn extras(alloc: Global, met: &Met) -> Result<Extras, AllocError>
    ensures { IfOk result (λ extras. extras ≡ extras_met (met_of met.now)) }
{
    Ok(Extras {
        seed: kept(alloc, met.first(HeaderKey::Kept(KeptKey::Seed)))?,
        auxinfo: kept(alloc, met.first(HeaderKey::Kept(KeptKey::AuxInfo)))?,
        ui: kept(alloc, met.first(HeaderKey::Kept(KeptKey::Ui)))?,
        time: kept(alloc, met.first(HeaderKey::Kept(KeptKey::Time)))?,
    })
}

// The move of a state record, where it is one of the puzzle.
fn move_of<P: Game>(puzzle: &P, state: &StateRecord) -> Option<Move>
    ensures { result ≡ state_move (saves_of P.Rules P.Game.own) puzzle.now
        state.now.key state.now.value.now }
{
    match state.key {
        StateKey::AnyMove => read_move(state.value).ok(),
        StateKey::SolveMove => match read_move(state.value) {
            Ok(made) if is_solve(&made) => Some(made),
            _ => None,
        },
        StateKey::RestartMove => match P::read_desc(puzzle.size(), state.value) {
            Ok(again) if again.same(puzzle) => Some(Move::Restart),
            _ => None,
        },
    }
}

// Plays one state record; `number` is its number, counted from 1.
fn play_state<P: Game>(
    session: &mut Session<P>,
    number: u32,
    state: &StateRecord,
) -> Result<(), LoadFault>
    ensures { GivesUnless LoadFault.OutOfMemory (λ _. session.new) result
        (state_played (saves_of P.Rules P.Game.own) session.old number (state_of state.now)) }
{
    let made = move_of(session.puzzle(), state).ok_or(LoadFault::BadState(number))?;
    match session.play(made) {
        Ok(()) => Ok(()),
        Err(PlayFault::OutOfMemory) => Err(LoadFault::OutOfMemory),
        Err(_) => Err(LoadFault::BadState(number)),
    }
}

// Plays the state records in turn, up to the first that is wrong.
fn play_states<P: Game>(session: &mut Session<P>, states: &[StateRecord]) -> Result<(), LoadFault>
    requires { length states.now < MOST_STATES }
    ensures { GivesUnless LoadFault.OutOfMemory (λ _. session.new) result
        (states_played (saves_of P.Rules P.Game.own) session.old 1 (map state_of states.now)) }
{
    for (index, state) in states.iter().enumerate() {
        play_state(session, index as u32 + 1, state)?;
    }
    Ok(())
}

// An undo that can't be refused.
fn step_back<P: Game>(session: &mut Session<P>)
    requires { 1 < session.old.position }
    ensures { session.new ≡ at_position session.old (session.old.position - 1) }
{
    let _ = session.undo();
}

// Goes back to a position, from a later one.
fn go_back<P: Game>(session: &mut Session<P>, position: usize)
    requires first { 1 ≤ position }
    requires inside { position ≤ session.old.position }
    ensures { session.new ≡ at_position session.old position }
{
    while session.position() > position {
        step_back(session);
    }
}

// The puzzle of a description at this size, or `BadDesc`.
fn read_puzzle<P: Game>(size: Size, desc: &[u8]) -> Result<P, LoadFault>
    ensures value { result ≡ ok_or (result_ok (P.desc_at size desc.now)) LoadFault.BadDesc }
    ensures size { IfOk result (λ puzzle. size ≡ (P.puzzle puzzle).size) }
{
    match P::read_desc(size, desc) {
        Ok(puzzle) => Ok(puzzle),
        Err(_) => Err(LoadFault::BadDesc),
    }
}

// The session at its start, with the bytes that are kept.
fn start<P: Game>(
    alloc: Global,
    params: Params,
    next_params: Params,
    puzzle: P,
    met: &Met,
) -> Result<Session<P>, LoadFault>
    requires { params.size ≡ (P.puzzle puzzle).size }
    ensures ok { IfOk result (λ s.
        s ≡ started puzzle params next_params (extras_met (met_of met.now))) }
    ensures err { IfErr result (λ fault. fault ≡ LoadFault.OutOfMemory) }
{
    let extras = extras(alloc, met)?;
    match Session::new(alloc, params, next_params, puzzle, extras) {
        Ok(session) => Ok(session),
        Err(_) => Err(LoadFault::OutOfMemory),
    }
}

// The session that the records tell, at their position.
#[tactic(auto, unfolding(crate::specs::FirstFaults::session_of))]
fn session<P: Game>(alloc: Global, met: &Met) -> Result<Session<P>, LoadFault>
    requires { IsPlayable (met_of met.now) }
    ensures { GivesUnless LoadFault.OutOfMemory (λ s. s) result
        (session_of (saves_of P.Rules P.Game.own) (met_of met.now)) }
{
    if met.first(HeaderKey::FormatVersion).is_none() || met.first(HeaderKey::Title).is_none() {
        return Err(LoadFault::Missing);
    }
    let next_params = met
        .params::<P>(WhoseParams::Next)
        .ok_or(LoadFault::Missing)?;
    let params = met
        .params::<P>(WhoseParams::Current)
        .ok_or(LoadFault::Missing)?;
    let desc = met.first(HeaderKey::Desc).ok_or(LoadFault::Missing)?;
    let position = met.count(WhichCount::Position).ok_or(LoadFault::Missing)?;
    let puzzle = read_puzzle::<P>(params.size, desc)?;
    let mut session = start(alloc, params, next_params, puzzle, met)?;
    play_states(&mut session, &met.states)?;
    go_back(&mut session, position);
    Ok(session)
}

/// The session of which the bytes are a save.
///
/// Refused, where the bytes are a save of no session: `TooLarge` for more than `MOST_BYTES` bytes; `NotASave` where the first
/// record doesn't name the format; then the first fault of a record in turn, up to the last that is needed, `Malformed` where
/// none can be read and `Missing` where none is left; then `Missing` where a record is missing still, `BadDesc`, and `BadState`
/// with the number of the first state record that is wrong. `OutOfMemory` may come in place of any answer, and nothing is handed
/// out then.
pub fn load<P: Game>(alloc: Global, bytes: &[u8]) -> Result<Session<P>, LoadFault>
    ensures found { IfOk result (λ s. SaveText (saves_of P.Rules P.Game.own) s bytes.now) }
    ensures only { (h : History P) → SaveText (saves_of P.Rules P.Game.own) h bytes.now
        → GivesUnless LoadFault.OutOfMemory (λ s. s) result (Ok h) }
    ensures exact { GivesUnless LoadFault.OutOfMemory (λ s. s) result
        (load_at (saves_of P.Rules P.Game.own) bytes.now) }
{
    read(alloc, bytes)
}

// Apart from `load`, so that `load_at` is opened here alone: there its laws say what it is.
#[tactic(auto, unfolding(crate::specs::FirstFaults::load_at))]
fn read<P: Game>(alloc: Global, bytes: &[u8]) -> Result<Session<P>, LoadFault>
    ensures { GivesUnless LoadFault.OutOfMemory (λ s. s) result
        (load_at (saves_of P.Rules P.Game.own) bytes.now) }
{
    if bytes.len() > MOST_BYTES {
        return Err(LoadFault::TooLarge);
    }
    let met = find::<P>(alloc, behind_head(bytes)?)?;
    session(alloc, &met)
}
