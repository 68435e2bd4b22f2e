//! Saving: the records of a session, written in their order.

ghost use Rattle.std.specs.Prelude.{◌≡◌, ◌≤◌, ◌-◌, ◌++◌, map, replicate, Some, option_map, vec_items, IfOk, IfErr, OnOk};
ghost use Rattle.std.specs.List.{flat_map};
ghost use Rattle.std.specs.Fmt.{decimal};
ghost use Rattle.byte_text.specs.Bytes.{space};
ghost use Rattle.play_midend.specs.Steps.{is_restart};
ghost use Rattle.play_save.specs.Keys.{keys};
ghost use Rattle.play_save.specs.Written.{with_value, record_text, records_text, value_written, header_records, key_records, state_record, save_of};

use crate::fault::LoadFault;
use crate::key::{HeaderKey, KEYS, KeptKey, Key, StateKey, WhichCount, WhoseParams};
use crate::save_format::{COLLECTION, is_solve};
use game_texts::Game;
use play_midend::{Move, Session, write_move};
use std::alloc::{AllocError, Global};

static BLANKS: [u8; 8] = [b' '; 8];

// The blanks after a name of this length, up to the eight bytes of a key.
fn padding(length: usize) -> &'static [u8]
    requires { length ≤ 8 }
    ensures { result.now ≡ replicate (8 - length) space }
{
    &BLANKS[length..]
}

// Writes a record.
#[tactic(auto, unfolding(crate::specs::Written::record_text))]
fn put(text: &mut Vec<u8>, key: Key, value: &[u8]) -> Result<(), AllocError>
    ensures { OnOk result (text.new.items
        ≡ text.old.items ++ record_text (with_value key value.now)) }
{
    let alloc = *text.allocator();
    let length = format!(in alloc; "{}", value.len())?;
    let name = key.name();
    text.extend_from_slice(name)?;
    text.extend_from_slice(padding(name.len()))?;
    text.push(b':')?;
    text.extend_from_slice(length.as_bytes())?;
    text.push(b':')?;
    text.extend_from_slice(value)?;
    text.push(b'\n')?;
    Ok(())
}

// Writes the record of a count.
fn put_count(text: &mut Vec<u8>, key: HeaderKey, count: usize) -> Result<(), AllocError>
    ensures { OnOk result (text.new.items
        ≡ text.old.items ++ records_text (header_records key (Some (decimal count)))) }
{
    let alloc = *text.allocator();
    let value = format!(in alloc; "{count}")?;
    put_header(text, key, value.as_bytes())
}

// Writes the record of bytes that are kept, where there are any.
fn put_kept(text: &mut Vec<u8>, key: HeaderKey, kept: &Option<Vec<u8>>) -> Result<(), AllocError>
    ensures { OnOk result (text.new.items
        ≡ text.old.items ++ records_text (header_records key (option_map vec_items kept.now))) }
{
    if let Some(bytes) = kept {
        put_header(text, key, bytes)?;
    }
    Ok(())
}

// Writes the record of a header.
fn put_header(text: &mut Vec<u8>, key: HeaderKey, value: &[u8]) -> Result<(), AllocError>
    ensures { OnOk result (text.new.items
        ≡ text.old.items ++ records_text (header_records key (Some value.now))) }
{
    put(text, Key::Header(key), value)
}

// Writes what a session has of a header.
fn put_value<P: Game>(
    text: &mut Vec<u8>,
    session: &Session<P>,
    desc: &[u8],
    key: HeaderKey,
) -> Result<(), AllocError>
    ensures { OnOk result (text.new.items ≡ text.old.items ++ records_text
        (header_records key (value_written P.title desc.now session.now key))) }
{
    match key {
        HeaderKey::SaveFile => put_header(text, key, COLLECTION),
        HeaderKey::FormatVersion => put_header(text, key, b"1"),
        HeaderKey::Title => put_header(text, key, P::name().as_bytes()),
        HeaderKey::ParamsOf(WhoseParams::Next) => {
            put_header(text, key, session.next_params().write().as_slice())
        }
        HeaderKey::ParamsOf(WhoseParams::Current) => {
            put_header(text, key, session.params().write().as_slice())
        }
        HeaderKey::Desc => put_header(text, key, desc),
        HeaderKey::PrivateDesc => Ok(()),
        HeaderKey::Kept(KeptKey::Seed) => put_kept(text, key, &session.extras().seed),
        HeaderKey::Kept(KeptKey::AuxInfo) => put_kept(text, key, &session.extras().auxinfo),
        HeaderKey::Kept(KeptKey::Ui) => put_kept(text, key, &session.extras().ui),
        HeaderKey::Kept(KeptKey::Time) => put_kept(text, key, &session.extras().time),
        HeaderKey::Count(WhichCount::States) => put_count(text, key, session.states()),
        HeaderKey::Count(WhichCount::Position) => put_count(text, key, session.position()),
    }
}

// Writes the records of the headers, in the order of the table.
fn put_values<P: Game>(
    text: &mut Vec<u8>,
    session: &Session<P>,
    desc: &[u8],
) -> Result<(), AllocError>
    ensures { OnOk result (text.new.items ≡ text.old.items ++ records_text
        (flat_map (key_records P.title desc.now session.now) keys)) }
{
    for key in KEYS {
        put_key(text, session, desc, key)?;
    }
    Ok(())
}

// Writes the record of a key, where it is a header's.
fn put_key<P: Game>(
    text: &mut Vec<u8>,
    session: &Session<P>,
    desc: &[u8],
    key: Key,
) -> Result<(), AllocError>
    ensures { OnOk result (text.new.items ≡ text.old.items
        ++ records_text (key_records P.title desc.now session.now key)) }
{
    match key {
        Key::Header(key) => put_value(text, session, desc, key),
        Key::State(_) | Key::Other => Ok(()),
    }
}

// Whether the move is a restart.
fn is_restart(made: &Move) -> bool
    ensures { result ≡ is_restart made.now }
{
    matches!(made, Move::Restart)
}

// Writes the state record of a move.
fn put_state(text: &mut Vec<u8>, made: &Move, desc: &[u8]) -> Result<(), LoadFault>
    ensures ok { OnOk result (text.new.items
        ≡ text.old.items ++ record_text (state_record desc.now made.now)) }
    ensures err { IfErr result (λ fault. fault ≡ LoadFault.OutOfMemory) }
{
    if is_restart(made) {
        put(text, Key::State(StateKey::RestartMove), desc)?;
        return Ok(());
    }
    let key = if is_solve(made) {
        StateKey::SolveMove
    } else {
        StateKey::AnyMove
    };
    let alloc = *text.allocator();
    let Ok(value) = write_move(alloc, made) else {
        return Err(LoadFault::OutOfMemory);
    };
    put(text, Key::State(key), &value)?;
    Ok(())
}

// Writes the state records of the moves.
fn put_states<P: Game>(
    text: &mut Vec<u8>,
    session: &Session<P>,
    desc: &[u8],
) -> Result<(), LoadFault>
    ensures ok { OnOk result (text.new.items ≡ text.old.items
        ++ records_text (map (state_record desc.now) session.now.moves)) }
    ensures err { IfErr result (λ fault. fault ≡ LoadFault.OutOfMemory) }
{
    for i in 1..session.states() {
        put_state(text, session.move_at(i), desc)?;
    }
    Ok(())
}

/// The save text of a session: what the usual program writes, without spaces at the ends of lines or other spellings.
///
/// It has no limit of size, but what is longer than `MOST_BYTES` bytes isn't loaded. `OutOfMemory` alone.
#[tactic(auto, unfolding(crate::specs::Written::save_of))]
pub fn save<P: Game>(alloc: Global, session: &Session<P>) -> Result<Vec<u8>, LoadFault>
    ensures written { IfOk result (λ text. text.items ≡ save_of P.title P.desc_of session.now) }
    ensures refused { IfErr result (λ fault. fault ≡ LoadFault.OutOfMemory) }
{
    let Ok(desc) = session.puzzle().write_desc(alloc) else {
        return Err(LoadFault::OutOfMemory);
    };
    let mut text = Vec::new(alloc);
    put_values(&mut text, session, &desc)?;
    put_states(&mut text, session, &desc)?;
    Ok(text)
}
