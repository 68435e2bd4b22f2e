//! The rules, the items and the texts of both games: each call once, at puzzles of width 3 whose only solution is 123 231 312.

use super::worked::grid_of;
use clue_rules::{Game, Towers, Unequal, view_cell};
use latin_board::{Grid, Size};
use std::alloc::Global;
use std::cmp::Ordering;
use trail_solver::{Answer, Candidates, Rules, solutions, solve, solves};

const SOLUTION: &str = "123231312";

// The puzzle of a width that a text describes.
fn puzzle<P: Game>(width: u8, text: &str) -> Option<P> {
    P::read_desc(Size::new(width)?, text.as_bytes()).ok()
}

// Whether a puzzle is written so.
fn is_written<P: Game>(alloc: Global, puzzle: &P, wanted: &str) -> bool {
    match puzzle.write_desc(alloc) {
        Ok(written) => written.as_slice() == wanted.as_bytes(),
        Err(_) => false,
    }
}

// Whether the square is the only solution, which narrowing alone finds: of 27 candidates it strikes 18.
fn is_solved_by<P: Rules>(alloc: Global, puzzle: &P, square: &Grid) -> bool {
    if square.size().get() != puzzle.size().get() || !square.is_latin() {
        return false;
    }
    let mut candidates = Candidates::all(puzzle.size());
    let is_listed = match solutions(alloc, puzzle, 100) {
        Ok(listed) => listed.as_slice() == [*square].as_slice(),
        Err(_) => false,
    };
    is_listed
        && puzzle.narrow(&mut candidates)
        && candidates.trail_len() == 18
        && puzzle.holds(square)
        && solves(puzzle, square)
}

// Whether the full puzzle of the square is written so, and so without an item.
fn has_items<P: Game>(alloc: Global, square: &Grid, item: usize, full: &str, rest: &str) -> bool {
    if !square.is_latin() {
        return false;
    }
    let mut puzzle = P::full(square);
    if item >= P::item_count(puzzle.size()) {
        return false;
    }
    let is_full = puzzle.has_item(item) && is_written(alloc, &puzzle, full);
    puzzle.drop_item(item);
    is_full && is_written(alloc, &puzzle, rest)
}

#[test]
fn towers(rt: HostRuntime) {
    const FULL: &str = "3/2/1/1/2/2/3/2/1/1/2/2,1_2_3_2_3_1_3_1_2";
    const WITHOUT_15: &str = "3/2/1/1/2/2/3/2/1/1/2/2,1_2_3a3_1_3_1_2";
    let square = grid_of(SOLUTION).expect(&rt, "a grid");
    let towers = puzzle::<Towers>(3, "3//////3/////").expect(&rt, "a puzzle");
    assert!(rt; is_solved_by(rt.alloc(), &towers, &square));
    assert!(rt; has_items::<Towers>(rt.alloc(), &square, 15, FULL, WITHOUT_15));
    assert!(rt; Towers::name() == "Towers" && Towers::letters() == "ehxu" && towers.same(&towers));
    assert!(rt; towers.size().get() == 3 && towers.clue(0) == 3 && towers.given(0) == 0);
    assert!(rt; towers.clue_at(0, -1) && view_cell(towers.size(), 4, 0) == 7);
}

#[test]
fn unequal(rt: HostRuntime) {
    const FULL: &str = "1,2L,3DL,2U,3URDL,1,3UR,1,2UL,";
    const WITHOUT_3: &str = "1,2L,3DL,2U,3UDL,1,3UR,1,2UL,";
    let square = grid_of(SOLUTION).expect(&rt, "a grid");
    let unequal = puzzle::<Unequal>(3, "0,0L,0L,0U,0,0,0U,0,0,").expect(&rt, "a puzzle");
    assert!(rt; is_solved_by(rt.alloc(), &unequal, &square));
    assert!(rt; has_items::<Unequal>(rt.alloc(), &square, 3, FULL, WITHOUT_3));
    assert!(rt;
        Unequal::name() == "Unequal" && Unequal::letters() == "tekxr" && unequal.same(&unequal)
    );
    assert!(rt; unequal.size().get() == 3 && unequal.greater(1, 0) && unequal.given(0) == 0);
    assert!(rt; unequal.order(1, 2) == Some(Ordering::Less) && !unequal.clue_at(0, -1));
}

// Two clues want the greatest number at the top of their columns. Without `narrow` the solver would not end.
#[test]
fn a_contradiction_is_found_at_once(rt: HostRuntime) {
    const TWO_ONES: &str = "1/1//////////////////////////////////";
    const BLANK: &str = "///////////////////////////////////";
    let wrong = puzzle::<Towers>(9, TWO_ONES).expect(&rt, "a puzzle");
    let blank = puzzle::<Towers>(9, BLANK).expect(&rt, "a puzzle");
    assert!(rt; matches!(solve(&wrong), Answer::None));
    assert!(rt; matches!(solve(&blank), Answer::Several(_, _)));
}
