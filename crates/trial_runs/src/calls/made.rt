//! The value that a call makes, as text.

use latin_board::Grid;
use play_midend::Session;
use play_save::{LoadFault, save};
use puzzle_cli::{Args, Draw};
use std::alloc::{AllocError, Global};

/// The value that a call makes.
#[derive(Drop)]
pub(crate) enum Made<P: Draw> {
    /// The value is in the session, or isn't shown.
    Nothing,
    Text(Vec<u8>),
    Session(Session<P>),
    First(Option<Session<P>>),
    Words(Args),
    Grids(Vec<Grid>),
}

impl<P: Draw> Made<P> {
    /// The value as text: a session as its save.
    pub(crate) fn text(self, alloc: Global) -> Result<Vec<u8>, LoadFault> {
        match self {
            Made::Nothing => Ok(Vec::new(alloc)),
            Made::Text(text) => Ok(text),
            Made::Session(session) | Made::First(Some(session)) => save(alloc, &session),
            Made::First(None) => Ok(Vec::from_slice(alloc, b"no session")?),
            Made::Words(args) => Ok(words_text(alloc, &args)?),
            Made::Grids(grids) => Ok(digits_of(alloc, &grids)?),
        }
    }
}

fn words_text(alloc: Global, args: &Args) -> Result<Vec<u8>, AllocError> {
    let mut text = Vec::new(alloc);
    add_word(&mut text, &args.id)?;
    add_word(&mut text, &args.load)?;
    add_word(&mut text, &args.save)?;
    Ok(text)
}

// A word on a line of its own.
fn add_word(text: &mut Vec<u8>, word: &Option<String>) -> Result<(), AllocError> {
    match word {
        Some(word) => text.extend_from_slice(word.as_bytes())?,
        None => text.extend_from_slice(b"none")?,
    }
    text.push(b'\n')?;
    Ok(())
}

fn digits_of(alloc: Global, grids: &[Grid]) -> Result<Vec<u8>, AllocError> {
    let mut text = Vec::new(alloc);
    for grid in grids {
        add_digits(&mut text, grid)?;
        text.push(b'\n')?;
    }
    Ok(text)
}

/// Adds the numbers of a grid.
pub(crate) fn add_digits(text: &mut Vec<u8>, grid: &Grid) -> Result<(), AllocError> {
    let width = usize::from(grid.size().get());
    for cell in 0..width * width {
        text.push(b'0'.wrapping_add(grid.get(cell)))?;
    }
    Ok(())
}
