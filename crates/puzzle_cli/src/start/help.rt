//! The part of the program's help below the options.

/// Game IDs, commands, moves, examples, statuses, and the other programs.
pub(crate) const MORE_HELP: &str = "\
Game IDs:
  SIZE:DESCRIPTION  this puzzle, of size 3 to 9: towers 3:3//////3/////, unequal 3:1,0,0R,0,0,0,0,0,0,
  SIZE!SEED         a puzzle made from a number, of size 3 to 6, such as 5!7; it has one solution

Commands, one per line:
  new ID     begin the game of this ID
  show       draw the board
  move TEXT  make a move (see below)
  undo       take back the last move
  redo       make it again
  restart    go back to the start; undo takes this back
  solve      fill in the only solution
  list N     list the first solutions, at most N, from 1 to 100
  marks      list the pencil marks
  done       list the clues with a done mark
  status     print playing, solved or helped, the position and the number of states
  id         print the game's ID
  save       print the save text
  quit       end, just as the end of the input does

Moves, in column x and row y, counted from 0 at the top left:
  Rx,y,n     put number n into a square; n = 0 clears it
  Px,y,n     flip pencil mark n of a square
  M          mark every empty square with all numbers
  SDIGITS    fill the board with this solution, row by row
  Dx,y       flip the done mark of a Towers clue; D0,-1 is the one above column 0

Examples:
  puzzles towers --id '5!7' --save tower.sav
  puzzles towers --load tower.sav --save tower.sav
  printf 'show\\nsolve\\nshow\\n' | puzzles unequal --id '4!1'

Exit status:
  0  all commands were read, or help was printed
  1  a file, the input or the output failed, or memory was refused
  2  the command line is refused
  3  the game ID or the loaded file is refused

See also:
  puzzles-play  the same games on a board over the terminal, to play by hand
  puzzles-json  the same program, with a JSON object for each reply";
