//! By which of its two names the program is called.

ghost use Rattle.std.specs.Prelude.{◌≡◌, ◌↔◌, IsTrue, codes};
ghost use Rattle.puzzles.specs.Names.{IsCalledPuzzlesJson, IsInFolder, IsPuzzlesJson};

/// The name under which lines are answered in objects.
const NAME: &[u8] = b"puzzles-json";

/// That name at the end of a path.
const IN_A_FOLDER: &[u8] = b"/puzzles-json";

/// The two names: each answers in its format.
#[derive(Clone, Copy)]
pub(crate) enum ProgramName {
    /// By lines of text.
    Puzzles,
    /// By one JSON object on one line.
    PuzzlesJson,
}

/// The name of a program whose process has these words.
///
/// It is `puzzles-json` where that is the last part of the first word. Any other name, and no word at all, is as `puzzles`.
pub(crate) fn program_name(words: &[String]) -> ProgramName
    ensures { (result ≡ ProgramName.PuzzlesJson) ↔ IsCalledPuzzlesJson words.now }
{
    match words.first() {
        Some(first) if is_puzzles_json(first.as_bytes()) => ProgramName::PuzzlesJson,
        _ => ProgramName::Puzzles,
    }
}

// Whether the last part of the path is `puzzles-json`.
fn is_puzzles_json(path: &[u8]) -> bool
    ensures { IsTrue result ↔ IsPuzzlesJson path.now }
{
    path == NAME || is_in_a_folder(path)
}

// Whether the path goes on to `puzzles-json` in a folder.
fn is_in_a_folder(path: &[u8]) -> bool
    ensures { IsTrue result ↔ IsInFolder (codes "puzzles-json") path.now }
{
    path.ends_with(IN_A_FOLDER)
}
