//! Text that is cut into lines as it is written.

ghost use Rattle.std.specs.Prelude.{◌≡◌, ◌≤◌, length, OnOk};
ghost use Rattle.step_texts.specs.Lines.{AreShort, line_texts};

use arrayvec::ArrayVec;
use std::alloc::{AllocError, Global};
use std::{fmt, mem};

/// How many characters a line has at most.
pub const LINE: usize = 100;

/// A line of text.
pub type Line = ArrayVec<u8, LINE>;

// A word that is longer than this is cut.
const WORD: usize = 40;

/// Text that is cut into lines at its spaces. The lines after the first of a sentence begin with three spaces.
#[derive(Drop)]
pub(crate) struct Writing {
    lines: Vec<Line>,
    line: Line,
    word: ArrayVec<u8, WORD>,
    // Whether a sentence begins, whose first letter is a capital.
    begins: bool,
    ghost short: { AreShort (line_texts lines.items) },
}

impl Writing {
    /// No text.
    pub(crate) fn new(alloc: Global) -> Writing {
        Writing {
            lines: Vec::new(alloc),
            line: ArrayVec::new(),
            word: ArrayVec::new(),
            begins: true,
        }
    }

    /// Begins a sentence.
    pub(crate) fn begin(&mut self) {
        self.begins = true;
    }

    /// Goes on with a sentence that was cut into lines before.
    pub(crate) fn say_lines(&mut self, lines: &[Line]) -> fmt::Result {
        for line in lines {
            self.bytes(line.as_slice())?;
            self.end_word()?;
        }
        Ok(())
    }

    /// Ends the sentence: then there is a line.
    pub(crate) fn end(&mut self) -> Result<(), AllocError>
        ensures { OnOk result (1 ≤ length self.new.lines.items) }
    {
        self.end_word()?;
        self.end_line()
    }

    /// The lines that were written.
    pub(crate) fn into_lines(self) -> Vec<Line>
        ensures all { result.items ≡ self.lines.items }
        ensures short { AreShort (line_texts result.items) }
    {
        self.lines
    }

    fn bytes(&mut self, bytes: &[u8]) -> fmt::Result {
        for byte in bytes {
            self.byte(*byte)?;
        }
        Ok(())
    }

    fn byte(&mut self, byte: u8) -> Result<(), AllocError> {
        if byte == b' ' {
            return self.end_word();
        }
        if self.word.is_full() {
            self.end_word()?;
        }
        let _fits = self.word.try_push(if self.begins {
            byte.to_ascii_uppercase()
        } else {
            byte
        });
        self.begins = false;
        Ok(())
    }

    // Puts the word into the line, or into the next one where there is no room; nothing where there is no word.
    fn end_word(&mut self) -> Result<(), AllocError> {
        if self.word.is_empty() {
            return Ok(());
        }
        if self.line.len() + 1 + self.word.len() > LINE {
            self.end_line()?;
            self.put(b"  ");
        }
        if !self.line.is_empty() {
            self.put(b" ");
        }
        let word = mem::take(&mut self.word);
        self.put(word.as_slice());
        Ok(())
    }

    #[tactic(auto, using(crate::proofs::ShortLines::one_more))]
    fn end_line(&mut self) -> Result<(), AllocError>
        ensures { OnOk result (1 ≤ length self.new.lines.items) }
    {
        let line = mem::take(&mut self.line);
        let _fits = line.len();
        self.lines.push(line)?;
        Ok(())
    }

    fn put(&mut self, bytes: &[u8]) {
        let _fits = self.line.try_extend_from_slice(bytes);
    }
}

/// It fails where memory is refused, and nowhere else.
impl fmt::Write for Writing {
    fn write_str(&mut self, text: &str) -> fmt::Result {
        self.bytes(text.as_bytes())
    }
}

/// Success where the text was written, and otherwise that there was no memory.
pub(crate) fn said(written: fmt::Result) -> Result<(), AllocError> {
    match written {
        Ok(()) => Ok(()),
        Err(_) => Err(AllocError),
    }
}
