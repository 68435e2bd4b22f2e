//! Replies, made whole before their first byte is written.

ghost use Rattle.std.specs.Prelude.{◌≡◌, ◌≤◌, ◌<◌, ◌++◌, ◌∷◌, [], length, codes};
ghost use Rattle.line_replies.specs.Texts.{text_bytes};
ghost use Rattle.byte_text.specs.Bytes.{line_feed};

use arrayvec::{ArrayString, ArrayVec};

/// A reply, made whole before its first byte is written.
#[derive(Drop)]
pub enum Text {
    /// A short one, which takes no memory.
    Short(ArrayString<64>),
    /// The done clues, which take no memory, either.
    Clues(ArrayVec<u8, 180>),
    /// The move that `solve` made. The session has changed by then, so it takes no memory either.
    Solved(ArrayVec<u8, 83>),
    /// Any other.
    Long(Vec<u8>),
}

impl Text {
    /// The words as a line: with LF at its end. They are fewer than 64 bytes.
    pub fn line(words: &str) -> Text
        requires { length words.now < 64 }
        ensures { text_bytes result ≡ words.now ++ line_feed ∷ [] }
    {
        let mut text = ArrayString::new();
        text.push_str(words);
        text.push('\n');
        Text::Short(text)
    }

    /// The line that names a refusal: `refused: `, the name, which has at most 54 bytes, and LF.
    pub fn refused(name: &str) -> Text
        requires { length name.now ≤ 54 }
        ensures { text_bytes result ≡ codes "refused: " ++ name.now ++ line_feed ∷ [] }
    {
        let mut text = ArrayString::new();
        text.push_str("refused: ");
        text.push_str(name);
        text.push('\n');
        Text::Short(text)
    }

    /// The bytes, from the first to the last.
    pub fn as_bytes(&self) -> &[u8]
        ensures { result.now ≡ text_bytes self.now }
    {
        match self {
            Text::Short(text) => text.as_str().as_bytes(),
            Text::Clues(lines) => lines,
            Text::Solved(line) => line,
            Text::Long(bytes) => bytes,
        }
    }
}
