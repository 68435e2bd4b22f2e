//! The texts of help and version where the program answers in objects.

use puzzle_cli::ProgramTexts;

/// The texts of help and version of `puzzles-json`.
pub(crate) const PUZZLES_JSON: ProgramTexts = ProgramTexts {
    name: "puzzles-json",
    about: "Towers and Unequal for other programs: each line is a command, and a JSON object answers it",
    more_help: MORE_HELP,
};

// The lines that are read, the objects that answer them, examples, statuses, and the other programs.
const MORE_HELP: &str = "\
Commands, one per line:
  those of puzzles (see puzzles --help), and

  board        the board that is shown, its clues or signs, and where it breaks a rule
  completable  whether none, one or several solutions keep its numbers
  hint         a number that follows from its numbers, and by which steps
  hint marks   the same from its pencil marks, or where one is missing
  grade        by which steps the puzzle follows, as a letter, or null
  solutions    two solutions that keep the numbers of the board, or as many as there are
  spare [LETTER]  the items each of which could be left out, by uniqueness or by that grade; or
                  of which one is to blame that there is no solution

  fair SIZE GRADE SEED  begins a game that follows by the steps of the grade; grades are
                        e and h of Towers, t, e and k of Unequal, h and k from size 4 on
  blank SIZE            begins the puzzle without clues, signs and givens
  item X,Y,N            begins the puzzle with a clue or a given of N, 0 for none
  item X,Y,U,V,N        begins it with a sign: the first square is the greater; none where N is 0
  thin [LETTER [FIRST]] begins the puzzle without what it can do without, also by a grade; FIRST
                        is givens, clues or signs, which are tried first
  fill                  begins the puzzle with each clue or sign of its only solution

Each reply is one object on one line:
  refused    null, or the refusal's name
  reply      the lines that puzzles answers
  session    null, or the game, its id, position, states and status

  If memory for it is refused, the line is {\"lost\":\"OutOfMemory\"}; the command took effect or was refused all the same.

Examples:
  printf 'move R0,0,1\\nboard\\n' | puzzles-json towers --id 3:3//////3/////
  printf 'new 4!1\\nhint\\n' | puzzles-json unequal

Exit status:
  0  all commands were read, or help was printed
  1  a file, the input or the output failed, or memory was refused
  2  the command line is refused
  3  the game ID or the loaded file is refused

See also:
  puzzles       the same program, with lines of text for replies
  puzzles-play  the same games on a board over the terminal, to play by hand";
